//! Sets with the rule that the test gives them.
ghost use Rattle.std.specs.Prelude.{◌≡◌, IfOk, map};
ghost use Rattle.worked_sets.specs.Lines.{task_of};
ghost use Rattle.mc_model.specs.Holds.{Fits, Holds};

use admission::admit;
use load_sum::sum_loads;
use mc_task::{Rule, TaskSet};
use std::alloc::Global;
use std::test::Fail;
use worked_sets::{Line, set_of};

/// The rule of the test for the set.
pub fn rule_of(set: &TaskSet) -> Result<Rule, Fail>
    ensures fits { IfOk result Fits }
    ensures holds { IfOk result (λ rule. Holds set.now.tasks rule) }
{
    Ok(admit(&sum_loads(set)?).ok_or("not admitted")?)
}

/// The set of these lines; fails if the test gives it another rule than this one.
pub fn set_under(alloc: Global, lines: &[Line], rule: Rule) -> Result<TaskSet, Fail>
    ensures tasks { IfOk result (λ set. set.tasks ≡ map task_of lines.now) }
    ensures fits { IfOk result (λ set. Fits rule) }
    ensures holds { IfOk result (λ set. Holds set.tasks rule) }
{
    let set = set_of(alloc, lines)?;
    if rule_of(&set)? == rule {
        Ok(set)
    } else {
        Err("another rule".into())
    }
}
