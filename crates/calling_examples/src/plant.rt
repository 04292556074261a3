//! A simulated device: a few numbers.
ghost use Rattle.std.specs.Prelude.{◌≡◌};

use crate::live::Machine;
use crate::schedule::Device;
use mc_task::{JobId, TaskNo};

/// A plant whose controller overruns: its job is released at 0 and needs 6 ticks. A job of the logger needs 5 ticks,
/// and is released at 0 and at 10.
#[derive(Clone, Copy, Debug)]
pub struct Plant {
    /// How many ticks the controller's job still needs.
    ctl: u32,
    /// How many ticks the logger's job still needs.
    log: u32,
    /// How many ticks were run.
    pub ran: u32,
}

impl Plant {
    /// A plant before its first tick.
    pub fn new() -> Plant {
        Plant {
            ctl: 0,
            log: 0,
            ran: 0,
        }
    }
}

impl Device for Plant {
    fn releases(&mut self, task: TaskNo, at: u64) -> bool {
        match (task.0, at) {
            (1, 0) => {
                self.ctl = 6;
                true
            }
            (2, 0 | 10) => {
                self.log = 5;
                true
            }
            _ => false,
        }
    }

    fn run(&mut self, job: JobId) -> bool {
        self.ran = self.ran.saturating_add(1);
        let left = if job.task.0 == 1 {
            &mut self.ctl
        } else {
            &mut self.log
        };
        *left = left.saturating_sub(1);
        *left == 0
    }
}

impl Machine for Plant {
    ghost is_off_before = { λ _ at. at ≡ 12 };

    fn is_off(&mut self, at: u64) -> bool {
        at == 12
    }
}
