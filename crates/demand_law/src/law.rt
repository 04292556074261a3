//! The deadline laws, each a function whose contract is the law. Its body computes nothing: it calls `len` so that the prover
//! learns that the tasks of the set are valid.
ghost use Rattle.std.specs.Prelude.{◌≡◌, true, false, reverse};
ghost use Rattle.mc_task.specs.declared.task.Rule.TheVariants.{Plain};
ghost use Rattle.mc_model.specs.Holds.{Fits, Holds};
ghost use Rattle.mc_task.specs.Kinds.{is_virtual};
ghost use Rattle.mc_model.specs.Mode.{high_mode};
ghost use Rattle.mc_model.specs.Legal.{Legal};
ghost use Rattle.demand_law.specs.Laws.{Everywhere, NoneLate, NoneDue};
ghost use Rattle.demand_law.specs.OneLive.{AtMostOne, NoneAtRelease};
ghost use Rattle.demand_law.specs.NoOver.{NoOver, NoDrop, EndedInTime};

use mc_model::Row;
use mc_task::{Rule, TaskSet};

/// Under plain EDF no job is late. Plain EDF is EDF-VD with no deadline scaled (Baruah et al., ECRTS 2012).
pub fn plain_law(set: &TaskSet, rule: Rule, rows: &[Row])
    requires plain { rule ≡ Plain }
    requires fits { Fits rule }
    requires holds { Holds set.now.tasks rule }
    requires legal { Legal set.now.tasks rule (reverse rows.now) }
    ensures here { NoneLate set.now.tasks (reverse rows.now) }
    ensures everywhere { Everywhere rule NoneLate }
{
    let _is_set = set.len();
}

/// Under EDF-VD in low mode, no virtual deadline of a pending job has come, by the condition on the low budgets (Baruah
/// et al., ECRTS 2012).
pub fn low_mode_law(set: &TaskSet, rule: Rule, rows: &[Row])
    requires scaled { is_virtual rule ≡ true }
    requires fits { Fits rule }
    requires holds { Holds set.now.tasks rule }
    requires legal { Legal set.now.tasks rule (reverse rows.now) }
    requires low { high_mode rule (reverse rows.now) ≡ false }
    ensures here { NoneDue set.now.tasks rule (reverse rows.now) }
    ensures everywhere { Everywhere rule (λ tasks h. high_mode rule h ≡ false → NoneDue tasks rule h) }
{
    let _is_set = set.len();
}

/// Under EDF-VD no job is late: neither in low mode, nor after an overrun, by the condition on the high budgets (Baruah
/// et al., ECRTS 2012), nor after an idle tick has brought low mode back.
pub fn switch_law(set: &TaskSet, rule: Rule, rows: &[Row])
    requires scaled { is_virtual rule ≡ true }
    requires fits { Fits rule }
    requires holds { Holds set.now.tasks rule }
    requires legal { Legal set.now.tasks rule (reverse rows.now) }
    ensures here { NoneLate set.now.tasks (reverse rows.now) }
    ensures everywhere { Everywhere rule NoneLate }
{
    let _is_set = set.len();
}

/// Each task has at most one pending job, and none at a boundary where its next release may come, since each deadline
/// is the earliest time of the next release.
pub fn one_live_law(set: &TaskSet, rule: Rule, rows: &[Row])
    requires fits { Fits rule }
    requires holds { Holds set.now.tasks rule }
    requires legal { Legal set.now.tasks rule (reverse rows.now) }
    ensures one { AtMostOne set.now.tasks (reverse rows.now) }
    ensures none { NoneAtRelease set.now.tasks (reverse rows.now) }
    ensures one_everywhere { Everywhere rule AtMostOne }
    ensures none_everywhere { Everywhere rule NoneAtRelease }
{
    let _is_set = set.len();
}

/// Without an overrun no release is dropped, and each kept job whose deadline has come had ended by then, jobs of low
/// tasks too.
pub fn no_over_law(set: &TaskSet, rule: Rule, rows: &[Row])
    requires fits { Fits rule }
    requires holds { Holds set.now.tasks rule }
    requires legal { Legal set.now.tasks rule (reverse rows.now) }
    requires calm { NoOver (reverse rows.now) }
    ensures kept { NoDrop (reverse rows.now) }
    ensures ended { EndedInTime set.now.tasks (reverse rows.now) }
    ensures kept_everywhere { Everywhere rule (λ tasks h. NoOver h → NoDrop h) }
    ensures ended_everywhere { Everywhere rule (λ tasks h. NoOver h → EndedInTime tasks h) }
{
    let _is_set = set.len();
}
