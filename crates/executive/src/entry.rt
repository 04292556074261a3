//! The entries of the history: who called, what for, and the floor's answer.
ghost use Rattle.std.specs.Prelude.{◌≡◌};
ghost use Rattle.executive.specs.declared.entry.Answer.TheVariants as answer;
ghost use Rattle.executive.specs.Shows.{ends_tick};

use mc_model::How;
use mc_task::TaskNo;
use mode_core::{GrantFault, Granted, IdleFault, NotOut, ReleaseFault, Released};
use timetable::{Act, ActFault};

/// A call of a pass or a grant.
#[derive(Clone, Copy, Debug, PartialEq, Eq)]
pub enum Call {
    /// Release the task's next job.
    Release,
    /// Grant a tick to the task.
    Take,
    /// End the granted tick; the caller says whether its job is done.
    Outcome(bool),
    /// Write an idle tick.
    Idle,
    /// Ask for the next act.
    Look,
}

/// The floor's answer to a call.
#[derive(Clone, Copy, Debug, PartialEq, Eq)]
pub enum Answer {
    Released(Result<Released, ActFault<ReleaseFault>>),
    Taken(Result<Granted, ActFault<GrantFault>>),
    Settled(Result<How, NotOut>),
    Idled(Result<u64, ActFault<IdleFault>>),
    Next(Act),
}

/// One call, by the task of the pass that made it.
#[derive(Clone, Copy, Debug, PartialEq, Eq)]
pub struct Entry {
    pub task: TaskNo,
    pub call: Call,
    pub answer: Answer,
}

impl Entry {
    // A placeholder before the first call.
    pub(crate) const NONE: Entry = Entry {
        task: TaskNo(1),
        call: Call::Look,
        answer: Answer::Next(Act::Finished),
    };
}

impl Answer {
    // Whether the answer ends a tick.
    pub(crate) fn ends_tick(&self) -> bool
        ensures { result ≡ ends_tick self.now }
    {
        match self {
            Answer::Settled(Ok(_)) | Answer::Idled(Ok(_)) => true,
            Answer::Released(_)
            | Answer::Taken(_)
            | Answer::Settled(Err(_))
            | Answer::Idled(Err(_))
            | Answer::Next(_) => false,
        }
    }
}

// Each of these takes out the answer to a call of its kind.
impl Answer {
    pub(crate) fn into_released(self) -> Result<Released, ActFault<ReleaseFault>>
        requires { (r : _) × (self ≡ answer.Released r) }
        ensures { self ≡ answer.Released result }
    {
        match self {
            Answer::Released(result) => result,
            Answer::Taken(_) | Answer::Settled(_) | Answer::Idled(_) | Answer::Next(_) => {
                unreachable!()
            }
        }
    }

    pub(crate) fn into_taken(self) -> Result<Granted, ActFault<GrantFault>>
        requires { (r : _) × (self ≡ answer.Taken r) }
        ensures { self ≡ answer.Taken result }
    {
        match self {
            Answer::Taken(result) => result,
            Answer::Released(_) | Answer::Settled(_) | Answer::Idled(_) | Answer::Next(_) => {
                unreachable!()
            }
        }
    }

    pub(crate) fn into_settled(self) -> Result<How, NotOut>
        requires { (r : _) × (self ≡ answer.Settled r) }
        ensures { self ≡ answer.Settled result }
    {
        match self {
            Answer::Settled(result) => result,
            Answer::Released(_) | Answer::Taken(_) | Answer::Idled(_) | Answer::Next(_) => {
                unreachable!()
            }
        }
    }

    pub(crate) fn into_idled(self) -> Result<u64, ActFault<IdleFault>>
        requires { (r : _) × (self ≡ answer.Idled r) }
        ensures { self ≡ answer.Idled result }
    {
        match self {
            Answer::Idled(result) => result,
            Answer::Released(_) | Answer::Taken(_) | Answer::Settled(_) | Answer::Next(_) => {
                unreachable!()
            }
        }
    }

    pub(crate) fn into_next(self) -> Act
        requires { (r : _) × (self ≡ answer.Next r) }
        ensures { self ≡ answer.Next result }
    {
        match self {
            Answer::Next(act) => act,
            Answer::Released(_) | Answer::Taken(_) | Answer::Settled(_) | Answer::Idled(_) => {
                unreachable!()
            }
        }
    }
}
