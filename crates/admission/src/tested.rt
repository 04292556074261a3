//! The test, by the tasks of a set.
ghost use Rattle.std.specs.Prelude.{IfOk, IfErr, IfSome};
ghost use Rattle.mc_task.specs.TaskSet.{IsScale};
ghost use Rattle.admission.specs.Tested.{IsTested, IsNoRule};

use crate::test::admit_scaled;
use load_sum::{LoadFault, Loads, sum_loads};
use mc_task::{Rule, Scale, TaskNo, TaskSet};

/// The loads of a set, and the rule that the test gives it.
#[derive(Clone, Copy, Debug, PartialEq, Eq)]
pub struct Tested {
    pub loads: Loads,
    pub rule: Rule,
}

/// Why the test gives a set no rule.
#[derive(Clone, Copy, Debug, PartialEq, Eq)]
pub enum NoRule {
    /// The hyperperiod exceeds 2^60. The task is the first whose period takes the least common multiple past that.
    Range { task: TaskNo },
    /// The test admits no set with these loads.
    NotAdmitted { loads: Loads },
}

/// The loads and the rule of a set: the rule of the test with this scale, and without a scale that of the published test.
pub fn test_set(set: &TaskSet, scale: Option<Scale>) -> Result<Tested, NoRule>
    requires { IfSome scale IsScale }
    ensures tested { IfOk result (IsTested set.now.tasks scale) }
    ensures no_rule { IfErr result (IsNoRule set.now.tasks scale) }
{
    let loads = match sum_loads(set) {
        Ok(loads) => loads,
        Err(LoadFault::Range { task }) => return Err(NoRule::Range { task }),
    };
    match admit_scaled(&loads, scale) {
        Some(rule) => Ok(Tested { loads, rule }),
        None => Err(NoRule::NotAdmitted { loads }),
    }
}
