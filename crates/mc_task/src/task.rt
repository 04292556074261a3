//! Tasks, jobs, and the rules by which jobs are ordered.
ghost use Rattle.std.specs.Prelude.{◌≡◌};
ghost use Rattle.mc_task.specs.Kinds as kind;

use crate::Name;

/// A criticality level: low for ordinary work, high for certified work.
#[derive(Clone, Copy, Debug, PartialEq, Eq)]
pub enum Level {
    Low,
    High,
}

/// A task's number in its set, from 1 in the order of the list.
#[derive(Clone, Copy, Debug, PartialEq, Eq)]
pub struct TaskNo(pub u32);

/// A job: its task, and its number among the releases of that task, from 1.
#[derive(Clone, Copy, Debug, PartialEq, Eq)]
pub struct JobId {
    pub task: TaskNo,
    pub count: u32,
}

/// A sporadic task with an implicit deadline: its deadline is its period (Baruah et al., ECRTS 2012).
///
/// Period and budgets are in ticks, from 1 to 4,294,967,295. `low` is the budget in low mode and `high` the one in high
/// mode, which is the task's own budget; a low task has `high` equal to `low`.
#[derive(Clone, Copy, Debug, PartialEq, Eq)]
pub struct Task {
    pub name: Name,
    pub level: Level,
    pub period: u32,
    pub low: u32,
    pub high: u32,
}

impl Task {
    /// Whether the task is high.
    pub fn is_high(&self) -> bool
        ensures { result ≡ kind.is_high self.now.level }
    {
        match self.level {
            Level::Low => false,
            Level::High => true,
        }
    }
}

/// The order of jobs: EDF by their deadlines, or EDF-VD (Baruah et al., ECRTS 2012), where in low mode the relative
/// deadlines of high tasks are scaled by `p/q`.
#[derive(Clone, Copy, Debug, PartialEq, Eq)]
pub enum Rule {
    Plain,
    Virtual { p: u64, q: u64 },
}

impl Rule {
    /// Whether the rule is EDF-VD, and not plain EDF.
    pub fn is_virtual(self) -> bool
        ensures { result ≡ kind.is_virtual self }
    {
        match self {
            Rule::Plain => false,
            Rule::Virtual { .. } => true,
        }
    }
}

/// A scaling factor `p/q` of the deadlines of high tasks, chosen for a set. It is valid (`IsScale`) if it is at most 1,
/// in lowest terms, and both numbers are from 1 to 4,294,967,295.
#[derive(Clone, Copy, Debug, PartialEq, Eq)]
pub struct Scale {
    pub p: u64,
    pub q: u64,
}
