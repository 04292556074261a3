//! The schedulers that are opened, by the rows that they keep.
ghost use Rattle.std.specs.Prelude.{◌≡◌, ◌^◌, IfOk, IfErr};
ghost use Rattle.edfvd_c.specs.declared.handle.held.Held.TheVariants as held;
ghost use Rattle.mc_model.specs.Holds.{Fits, Holds};
ghost use Rattle.mode_core.specs.Events.{empty_state};
ghost use Rattle.restart.specs.Restarted.{opened};
ghost use Rattle.edfvd_c.specs.Status.{MEMORY};

use crate::handle::Held;
use crate::scheduler::latest::LatestRows;
use crate::sets::{NoSet, OUT_OF_MEMORY};
use mc_task::{Rule, TaskSet};
use mode_core::Core;
use restart::Restartable;
use std::alloc::Global;

/// A scheduler with this capacity in rows, which keeps all of them.
pub fn with_places(alloc: Global, set: TaskSet, rule: Rule, places: u32) -> Result<Box<Held>, NoSet>
    requires fits { Fits rule }
    requires holds { Holds set.tasks rule }
    ensures made { IfOk result (λ made. made.value ≡ held.Core (opened (empty_state set.tasks rule places))) }
    ensures memory { IfErr result (λ no. (no.status ≡ MEMORY) × (no.task ≡ 0)) }
{
    let Ok(core) = Core::new(alloc, set, rule, places as usize) else {
        return Err(OUT_OF_MEMORY);
    };
    let Ok(scheduler) = Restartable::new(alloc, core) else {
        return Err(OUT_OF_MEMORY);
    };
    match Box::new(alloc, Held::Core(scheduler)) {
        Ok(made) => Ok(made),
        Err(_) => Err(OUT_OF_MEMORY),
    }
}

/// A scheduler without an end, which keeps its latest rows.
pub fn without_end(alloc: Global, set: TaskSet, rule: Rule) -> Result<Box<Held>, NoSet>
    requires fits { Fits rule }
    requires holds { Holds set.tasks rule }
    ensures made { IfOk result (λ made. made.value ≡ held.Endless (opened (empty_state set.tasks rule (2 ^ 62)))) }
    ensures memory { IfErr result (λ no. (no.status ≡ MEMORY) × (no.task ≡ 0)) }
{
    let Ok(rows) = LatestRows::new(alloc) else {
        return Err(OUT_OF_MEMORY);
    };
    let Ok(core) = Core::with_recorder(alloc, set, rule, 1 << 62, rows) else {
        return Err(OUT_OF_MEMORY);
    };
    let Ok(scheduler) = Restartable::new(alloc, core) else {
        return Err(OUT_OF_MEMORY);
    };
    match Box::new(alloc, Held::Endless(scheduler)) {
        Ok(made) => Ok(made),
        Err(_) => Err(OUT_OF_MEMORY),
    }
}
