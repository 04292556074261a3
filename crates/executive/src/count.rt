//! The answers to a pass's calls, in numbers.
ghost use Rattle.std.specs.Prelude.{◌≡◌, ◌+◌, ◌<◌, ◌^◌};
ghost use Rattle.executive.specs.Counts.{released, ticked, ended, idled, with_answer};

use crate::entry::Answer;
use mc_model::How;

/// What a pass counts of the answers to its calls. Each field is at most the core's capacity.
#[derive(Clone, Copy, Debug, PartialEq, Eq)]
pub struct Count {
    /// Releases that the floor took.
    pub releases: u64,
    /// Ticks with an outcome.
    pub ticks: u64,
    /// Ticks that ended their job, by `Done` or `Stop`.
    pub ends: u64,
    /// Idle ticks.
    pub idles: u64,
}

impl Count {
    pub(crate) const ZERO: Count = Count {
        releases: 0,
        ticks: 0,
        ends: 0,
        idles: 0,
    };

    // The count with one more answer.
    pub(crate) fn with(self, answer: &Answer) -> Count
        requires releases { self.releases + released answer.now < 2 ^ 64 }
        requires ticks { self.ticks + ticked answer.now < 2 ^ 64 }
        requires ends { self.ends + ended answer.now < 2 ^ 64 }
        requires idles { self.idles + idled answer.now < 2 ^ 64 }
        ensures { result ≡ with_answer self answer.now }
    {
        let mut count = self;
        match answer {
            Answer::Released(Ok(_)) => count.releases += 1,
            Answer::Settled(Ok(how)) => {
                count.ticks += 1;
                match how {
                    How::Done | How::Stop => count.ends += 1,
                    How::More | How::Over => {}
                }
            }
            Answer::Idled(Ok(_)) => count.idles += 1,
            Answer::Released(Err(_))
            | Answer::Taken(_)
            | Answer::Settled(Err(_))
            | Answer::Idled(Err(_))
            | Answer::Next(_) => {}
        }
        count
    }
}
