//! The line of a tick, which is kept for the next tick of its job.
ghost use Rattle.std.specs.Prelude.{◌≡◌, ◌+◌, ◌<◌, ◌^◌, ◌++◌, List, length, Some, true, OnOk};
ghost use Rattle.demand_test.specs.declared.demand.Demand.{Demand};
ghost use Rattle.demand_test.specs.TickLine.{tick_line, IsLine, IsLineOf};

use crate::DemandSet;
use crate::lines::push_job;
use itoa::Buffer;
use mc_task::JobId;
use std::alloc::{AllocError, Global};

// The line of a tick that was given to a job, if there was one. The line of the job's next tick differs from it in the
// tick's number, which is counted up where it stands.
#[derive(Drop)]
pub struct TickLine {
    pub bytes: Vec<u8>,
    // The index at which the tick's number ends.
    pub end: usize,
    pub tick: u64,
    pub job: Option<JobId>,
}

impl TickLine {
    // Before the first tick.
    pub fn new(alloc: Global) -> TickLine
        ensures { (set : List Demand) → IsLine set result }
    {
        TickLine {
            bytes: Vec::new(alloc),
            end: 0,
            tick: 0,
            job: None,
        }
    }

    // Adds the line of a tick that was given to the job.
    pub fn push(
        &mut self,
        out: &mut Vec<u8>,
        set: &DemandSet,
        tick: u64,
        job: JobId,
    ) -> Result<(), AllocError>
        requires small { tick + 1 < 2 ^ 64 }
        requires line { IsLine set.now self.old }
        ensures text { OnOk result (out.new.items ≡ out.old.items ++ tick_line set.now tick job) }
        ensures line { OnOk result (IsLine set.now self.new) }
    {
        self.show(set, tick, job)?;
        out.extend_from_slice(&self.bytes)
    }

    // Makes the line that of a tick of the job.
    fn show(&mut self, set: &DemandSet, tick: u64, job: JobId) -> Result<(), AllocError>
        requires small { tick + 1 < 2 ^ 64 }
        requires line { IsLine set.now self.old }
        ensures { OnOk result (IsLineOf set.now tick job self.new) }
    {
        if self.is_before(tick, job) && self.advance(set, job) {
            return Ok(());
        }
        self.write(set, tick, job)
    }

    // Whether the line is that of the tick before this one, and that was given to the job.
    fn is_before(&self, tick: u64, job: JobId) -> bool
        ensures job { result ≡ true → self.now.job ≡ Some job }
        ensures tick { result ≡ true → self.now.tick + 1 ≡ tick }
    {
        tick > 0 && self.tick == tick - 1 && self.job == Some(job)
    }

    // Makes the line that of the next tick. Returns `false` if the number of that tick has one more digit: the digits in the line
    // are spoilt then, and the caller writes the line again.
    fn advance(&mut self, set: &DemandSet, job: JobId) -> bool
        requires small { self.old.tick + 2 < 2 ^ 64 }
        requires line { IsLineOf set.now self.old.tick job self.old }
        ensures { result ≡ true → IsLineOf set.now (self.old.tick + 1) job self.new }
    {
        // The digits come after the five bytes of `tick `.
        if !count_up(&mut self.bytes[5..self.end]) {
            return false;
        }
        self.tick += 1;
        true
    }

    // Writes the line of a tick of the job.
    fn write(&mut self, set: &DemandSet, tick: u64, job: JobId) -> Result<(), AllocError>
        ensures { OnOk result (IsLineOf set.now tick job self.new) }
    {
        let mut buffer = Buffer::new();
        self.bytes.clear();
        self.bytes.extend_from_slice(b"tick ")?;
        self.bytes
            .extend_from_slice(buffer.format(tick).as_bytes())?;
        self.end = self.bytes.len();
        push_job(&mut self.bytes, set, job)?;
        self.bytes.extend_from_slice(b"\n")?;
        self.tick = tick;
        self.job = Some(job);
        Ok(())
    }
}

ghost use Rattle.demand_test.specs.TickLine.{IsNext};

// Counts a decimal number up by one. Returns `false` if the next number has one more digit: each digit is 0 then, and the number
// is lost.
#[inline(always)]
fn count_up(digits: &mut [u8]) -> bool
    ensures next { result ≡ true → IsNext digits.old digits.new }
    ensures length { length digits.new ≡ length digits.old }
{
    let mut at = digits.len();
    while at > 0 {
        at -= 1;
        let digit = digits[at];
        if digit < b'9' {
            digits[at] = digit + 1;
            return true;
        }
        if digit > b'9' {
            return false;
        }
        digits[at] = b'0';
    }
    false
}
