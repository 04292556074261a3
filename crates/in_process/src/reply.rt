//! The reply to each command that starts no threads.
ghost use Rattle.std.specs.Prelude.{◌≡◌, IfOk, IfErr, IfSome, OnOk, map};
ghost use Rattle.command.specs.Outcome.{AskedInOrder};
ghost use Rattle.command_line.specs.Form.{form_in, command, IsInRange};
ghost use Rattle.promises.specs.Reply.{IsReply};
ghost use Rattle.in_process.specs.declared.reply.NoReply.TheVariants as no_reply;
ghost use Rattle.in_process.specs.Asked.{AskForThreads, HasCause};

use command_line::{form_of, usage_line};
use mc_world::Shelf;
use replies::{Reply, Stop};
use std::alloc::{AllocError, Global};

/// Why there is no reply.
#[derive(Clone, Copy, Debug, PartialEq, Eq)]
pub enum NoReply {
    /// Memory ran out.
    Memory,
    /// The command starts threads: `soak`, `live` and `runall`.
    Threads,
    /// A word is not UTF-8.
    NotText,
}

impl From<AllocError> for NoReply {
    ghost from_gives = { λ from result. result ≡ no_reply.Memory };

    fn from(_: AllocError) -> NoReply {
        NoReply::Memory
    }
}

/// What the program replies to the words after its name, over a shelf. `run` and `accept` work on the caller's thread, with the
/// program's reply.
#[tactic(auto, using(command::proofs::Serving::not_asked))]
pub fn reply_alone<S: Shelf>(alloc: Global, words: &[&str], shelf: &mut S) -> Result<Reply, NoReply>
    ensures reply { IfOk result (IsReply (form_in words.now) (S.state shelf.old) (S.state shelf.new)) }
    ensures cause { IfErr result (HasCause (map (λ w. w.now) words.now)) }
    ensures alone { OnOk result (¬ AskForThreads (map (λ w. w.now) words.now)) }
    // No file is fetched for a command that starts threads.
    ensures unchanged { IfErr result (λ e. e ≡ no_reply.Threads → S.state shelf.new ≡ S.state shelf.old) }
    // There is no reply if a fetch ran out of memory.
    ensures memory_faults { OnOk result ((S.state shelf.new).memory_faults ≡ (S.state shelf.old).memory_faults) }
    // Even if memory runs out, no file is asked for except the command's, in their order.
    ensures asked { AskedInOrder (command (form_in words.now)) (S.state shelf.old) (S.state shelf.new) }
    ensures range { IfSome (form_in words.now) IsInRange }
{
    let Some(form) = form_of(words) else {
        return Ok(Reply::new(2, usage_line(alloc)?));
    };
    match form.reply_alone(alloc, shelf) {
        Some(Ok(reply) | Err(Stop::Refused(reply))) => Ok(reply),
        Some(Err(Stop::Memory)) => Err(NoReply::Memory),
        None => Err(NoReply::Threads),
    }
}
