//! The counts of jobs, and the words for them.
ghost use Rattle.std.specs.Prelude.{◌≡◌, ◌≤◌, ◌^◌, ◌++◌, OnOk, decimal};
ghost use Rattle.sched_report.specs.ReportText as model;
ghost use Rattle.sched_report.specs.Counts.{counts_in, counts_of_tally, AreAtMost};

use crate::task_tally::TaskTally;
use itoa::Buffer;
use std::alloc::AllocError;

// How many releases there were, how many of them were kept and how many dropped, and how many of the kept jobs were
// discarded, done and stopped.
#[derive(Clone, Copy, Debug, PartialEq, Eq)]
pub struct Counts {
    pub released: u32,
    pub kept: u32,
    pub dropped: u32,
    pub discarded: u32,
    pub done: u32,
    pub stopped: u32,
}

impl Counts {
    pub fn none() -> Counts
        ensures { result ≡ record { released = 0; kept = 0; dropped = 0; discarded = 0; done = 0; stopped = 0 } }
    {
        Counts {
            released: 0,
            kept: 0,
            dropped: 0,
            discarded: 0,
            done: 0,
            stopped: 0,
        }
    }

    // The counts of one task.
    pub fn of(task: &TaskTally) -> Counts
        ensures { counts_in result ≡ counts_of_tally task.now }
    {
        Counts {
            released: task.released,
            kept: task.kept,
            dropped: task.dropped,
            discarded: task.discarded,
            done: task.done,
            stopped: task.stopped,
        }
    }

    pub fn plus(self, other: Counts) -> Counts
        requires left { AreAtMost (2 ^ 31) self }
        requires right { AreAtMost (2 ^ 24) other }
        ensures { counts_in result ≡ model.plus (counts_in self) (counts_in other) }
    {
        Counts {
            released: self.released + other.released,
            kept: self.kept + other.kept,
            dropped: self.dropped + other.dropped,
            discarded: self.discarded + other.discarded,
            done: self.done + other.done,
            stopped: self.stopped + other.stopped,
        }
    }

    // Adds the counts to a text, each after its word.
    pub fn push_to(&self, text: &mut Vec<u8>) -> Result<(), AllocError>
        ensures { OnOk result (text.new.items ≡ text.old.items ++ model.counts_text (counts_in self.now)) }
    {
        push_count(text, "released ", self.released)?;
        push_count(text, " kept ", self.kept)?;
        push_count(text, " dropped ", self.dropped)?;
        push_count(text, " discarded ", self.discarded)?;
        push_count(text, " done ", self.done)?;
        push_count(text, " stopped ", self.stopped)?;
        Ok(())
    }
}

// Adds words and a number to a text.
pub fn push_count(text: &mut Vec<u8>, words: &str, count: u32) -> Result<(), AllocError>
    ensures { OnOk result (text.new.items ≡ text.old.items ++ (words.now ++ decimal count)) }
{
    let mut buffer = Buffer::new();
    text.extend_from_slice(words.as_bytes())?;
    text.extend_from_slice(buffer.format(count).as_bytes())?;
    Ok(())
}
