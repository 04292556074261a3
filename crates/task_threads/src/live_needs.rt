//! The ticks that the jobs of a live run need.
ghost use Rattle.std.specs.Prelude.{◌≡◌};

use mc_task::Level::{High, Low};
use mc_task::Task;

// What the jobs of a task need, and how far apart it releases them, in ticks. Every fourth job of a high task needs its
// high budget.
#[derive(Clone, Copy)]
pub struct LiveNeeds {
    pub period: u32,
    pub low: u32,
    pub fourth: u32,
}

impl LiveNeeds {
    ghost use Rattle.std.specs.Prelude.{Some};
    ghost use Rattle.task_threads.specs.LivePasses.{need_by, AreNeedsOf};

    // The needs of a task's jobs.
    pub fn of(task: &Task) -> LiveNeeds
        ensures { AreNeedsOf (Some task.now) result }
    {
        LiveNeeds {
            period: task.period,
            low: task.low,
            fourth: match task.level {
                High => task.high,
                Low => task.low,
            },
        }
    }

    // How many ticks the job with this number needs.
    pub fn of_count(self, count: u32) -> u32
        ensures { result ≡ need_by self count }
    {
        if count % 4 == 0 {
            self.fourth
        } else {
            self.low
        }
    }
}
