//! What a command's files give it: a set, the rule under which its jobs are ordered, the work for the set.
ghost use Rattle.std.specs.Prelude.{◌≡◌, IfErr};
ghost use Rattle.mc_model.specs.Holds.{Fits};
ghost use Rattle.replies.specs.Stop.{StopsBy, ReadsOrRefuses};
ghost use Rattle.command.specs.Admitted.{set_in, tested, admitted, set_with_rule, work_of};
ghost use Rattle.command.specs.Given.{IsGivenAs, IsSetWithRule, IsWorkOf};
ghost use Rattle.command.specs.Serves.{IsOwn};

use admission::{NoRule, Tested, test_set};
use load_sum::Loads;
use mc_task::{Rule, TaskSet};
use replies::{Stop, refused};
use std::alloc::Global;
use task_file::read_tasks;
use work_file::{Work, read_work};

/// The most bytes of a task file, and of a work file.
pub const MOST_TABLE_BYTES: usize = 1 << 24;

/// A set, and the rule under which its jobs are ordered.
#[derive(Drop)]
pub struct SetWithRule {
    pub set: TaskSet,
    pub rule: Rule,
}

/// A set that the test admits, with its loads and its rule.
#[derive(Drop)]
pub struct Admitted {
    pub set: TaskSet,
    pub loads: Loads,
    pub rule: Rule,
}

/// The set in a task file with these bytes, if the test admits it.
pub fn read_admitted(alloc: Global, bytes: &[u8]) -> Result<Admitted, Stop>
    ensures { ReadsOrRefuses IsGivenAs (admitted bytes.now) result }
{
    tested_set(alloc, read_set(alloc, bytes)?)
}

/// The set in a task file with these bytes.
pub fn read_set(alloc: Global, bytes: &[u8]) -> Result<TaskSet, Stop>
    ensures { ReadsOrRefuses (λ set given. given ≡ set) (set_in bytes.now) result }
{
    match read_tasks(alloc, bytes) {
        Ok(set) => Ok(set),
        Err(fault) => Err(refused::task_file(alloc, &fault)),
    }
}

#[tactic(auto, using(crate::proofs::RuleOf::rule_of_test))]
fn tested_set(alloc: Global, set: TaskSet) -> Result<Admitted, Stop>
    ensures { ReadsOrRefuses IsGivenAs (tested set) result }
{
    match test_set(&set, set.scale()) {
        Ok(Tested { loads, rule }) => Ok(Admitted { set, loads, rule }),
        Err(NoRule::Range { task }) => Err(refused::out_of_range(alloc, task)),
        Err(NoRule::NotAdmitted { loads }) => Err(refused::not_admitted(alloc, &loads)),
    }
}

/// The set in a task file with these bytes, under this rule.
pub fn read_set_with_rule(alloc: Global, rule: Rule, bytes: &[u8]) -> Result<SetWithRule, Stop>
    requires { Fits rule }
    ensures { ReadsOrRefuses IsSetWithRule (set_with_rule rule bytes.now) result }
{
    let set = read_set(alloc, bytes)?;
    Ok(SetWithRule { set, rule })
}

/// The work for the set in a work file with these bytes.
pub fn read_work_of(alloc: Global, set: &TaskSet, bytes: &[u8]) -> Result<Work, Stop>
    ensures work { ReadsOrRefuses (IsWorkOf set.now.tasks) (work_of set.now.tasks bytes.now) result }
    ensures own { IfErr result (StopsBy IsOwn) }
{
    match read_work(alloc, set, bytes) {
        Ok(work) => Ok(work),
        Err(fault) => Err(refused::work_file(alloc, &fault)),
    }
}
