//! The tally of one task.
ghost use Rattle.std.specs.Prelude.{◌≡◌, ◌<◌, ◌≤◌, ◌^◌};
ghost use Rattle.sched_report.specs.TaskTally as model;

use mc_model::How;
use mc_task::Level;

// What is counted of one task. `response` is the greatest response time so far, in ticks; 0 if no job ended.
#[derive(Clone, Copy, Debug, PartialEq, Eq)]
pub struct TaskTally {
    pub level: Level,
    pub released: u32,
    pub kept: u32,
    pub dropped: u32,
    pub discarded: u32,
    pub done: u32,
    pub stopped: u32,
    pub ticks: u32,
    pub response: u32,
}

impl TaskTally {
    pub fn new(level: Level) -> TaskTally
        ensures { result ≡ record { level = level; released = 0; kept = 0; dropped = 0; discarded = 0; done = 0; stopped = 0; ticks = 0; response = 0 } }
    {
        TaskTally {
            level,
            released: 0,
            kept: 0,
            dropped: 0,
            discarded: 0,
            done: 0,
            stopped: 0,
            ticks: 0,
            response: 0,
        }
    }

    // The tally with one more release, kept or dropped.
    pub fn with_release(mut self, kept: bool) -> TaskTally
        requires { model.IsSmall self }
        ensures { result ≡ model.with_release kept self }
    {
        self.released += 1;
        if kept {
            self.kept += 1;
        } else {
            self.dropped += 1;
        }
        self
    }

    // The tally with one more tick of this outcome.
    pub fn with_tick(mut self, how: How) -> TaskTally
        requires { model.IsSmall self }
        ensures { result ≡ model.with_tick how self }
    {
        self.ticks += 1;
        match how {
            How::Done => self.done += 1,
            How::Stop => self.stopped += 1,
            How::More | How::Over => {}
        }
        self
    }

    // The tally with `length` more ticks after which the job goes on.
    pub fn with_more(mut self, length: u32) -> TaskTally
        requires small { model.IsSmall self }
        requires short { length ≤ 100000000 }
        ensures { result ≡ model.with_more length self }
    {
        self.ticks += length;
        self
    }

    // The tally with the response time of one more job, in ticks.
    pub fn with_response(mut self, response: u32) -> TaskTally
        ensures { result ≡ model.with_response response self }
    {
        self.response = self.response.max(response);
        self
    }

    // The tally after an overrun, which discards the kept jobs of a low task that have not ended.
    pub fn with_switch(mut self) -> TaskTally
        ensures { result ≡ model.with_switch self }
    {
        if self.level == Level::Low {
            self.discarded = self
                .kept
                .saturating_sub(self.done)
                .saturating_sub(self.stopped);
        }
        self
    }
}
