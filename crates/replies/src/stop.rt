//! Why a command stops before its answer.
use crate::reply::Reply;
use mc_task::Memory;
use std::alloc::AllocError;

/// Why a command stops before its answer: the reply refuses, with another status than 0, or memory ran out.
#[derive(Drop)]
pub enum Stop {
    Refused(Reply),
    Memory,
}

impl From<AllocError> for Stop {
    ghost from_gives = { λ _ stop. stop ≡ Memory };

    ghost use Rattle.std.specs.Prelude.{◌≡◌};
    ghost use Rattle.replies.specs.declared.stop.Stop.TheVariants.{Memory};

    fn from(_: AllocError) -> Stop {
        Stop::Memory
    }
}

impl From<Memory> for Stop {
    ghost from_gives = { λ _ stop. stop ≡ Memory };

    ghost use Rattle.std.specs.Prelude.{◌≡◌};
    ghost use Rattle.replies.specs.declared.stop.Stop.TheVariants.{Memory};

    fn from(_: Memory) -> Stop {
        Stop::Memory
    }
}
