//! The jobs of a generated list of work, by release and then by task number.
ghost use Rattle.std.specs.Prelude.{◌≡◌, ◌≤◌, ◌<◌, ◌^◌, ◌++◌, ◌∷◌, [], IfOk, OnOk, length, slice_index};
ghost use Rattle.mc_task.specs.TaskSet.{IsIn, task_at};
ghost use Rattle.set_gen.specs.Words.{word, rest};
ghost use Rattle.set_gen.specs.GeneratedWork as spec;
ghost use Rattle.set_gen.specs.NextReleases.{AreGaps, IsNext, AreNext, Visit, Pass};

use crate::words::take;
use mc_model::WorkRow;
use mc_task::{TaskNo, TaskSet};
use rand_pcg::Lcg64Xsh32;
use std::alloc::{AllocError, Global};

// The jobs of the set below `ticks` ticks; the releases of task number i are the i-th gap apart.
pub fn jobs_of(
    alloc: Global,
    words: Lcg64Xsh32,
    set: &TaskSet,
    gaps: &[u32],
    ticks: u32,
) -> Result<Vec<WorkRow>, AllocError>
    requires gaps { AreGaps set.now.tasks gaps.now }
    requires ticks { ticks ≤ 1000000 }
    ensures { IfOk result (λ rows. rows.items ≡ spec.job_rows words set.now.tasks (spec.releases_below gaps.now ticks)) }
{
    let mut jobs = Jobs {
        words,
        next: vec![in alloc; 0; gaps.len()]?,
        rows: Vec::new(alloc),
    };
    let mut at = 0;
    while at < ticks {
        at = jobs.release(set, gaps, at, ticks)?;
    }
    Ok(jobs.rows)
}

// The jobs so far, the words that are left, and the next release of each task.
#[derive(Drop)]
struct Jobs {
    words: Lcg64Xsh32,
    next: Vec<u32>,
    rows: Vec<WorkRow>,
}

impl Jobs {
    // Adds the jobs that are released at boundary `at`. Returns the next boundary with a release, or `ticks` if there
    // is none below it.
    fn release(
        &mut self,
        set: &TaskSet,
        gaps: &[u32],
        at: u32,
        ticks: u32,
    ) -> Result<u32, AllocError>
        requires gaps { AreGaps set.now.tasks gaps.now }
        requires next { AreNext gaps.now at self.old.next.items }
        requires at { at < ticks }
        requires ticks { ticks ≤ 1000000 }
        ensures { IfOk result (λ next. Pass set.now.tasks gaps.now at ticks self.old self.new next) }
    {
        let mut least = ticks;
        for (i, gap) in gaps.iter().enumerate() {
            let next = self.visit(set, i, *gap, at)?;
            least = least.min(next);
        }
        Ok(least)
    }

    // Adds the job of the task at index i, if it is released at boundary `at`. Returns its next release after that.
    fn visit(&mut self, set: &TaskSet, i: usize, gap: u32, at: u32) -> Result<u32, AllocError>
        requires task { i < length set.now.tasks }
        requires count { length self.old.next.items ≡ length set.now.tasks }
        requires next { IsNext gap at (slice_index self.old.next.items i) }
        requires at { at < 1000000 }
        requires gap { 1 ≤ gap }
        requires small { gap < 2 ^ 16 }
        ensures { IfOk result (λ next. Visit set.now.tasks gap at i self.old self.new next) }
    {
        // There are at most 128 tasks, so `i + 1` is a number of 32 bits.
        let _few = set.len();
        let next = self.next[i];
        if next != at {
            return Ok(next);
        }
        self.add(set, TaskNo(i as u32 + 1), at)?;
        self.next[i] = at + gap;
        Ok(at + gap)
    }

    // Adds one job.
    #[tactic(auto, unfolding(crate::specs::GeneratedWork::job_row))]
    fn add(&mut self, set: &TaskSet, task: TaskNo, at: u32) -> Result<(), AllocError>
        requires { IsIn set.now.tasks task.0 }
        ensures rows { OnOk result (self.new.rows.items ≡ self.old.rows.items ++ spec.job_row set.now.tasks (record { task = task.0; at = at }) (word self.old.words) ∷ []) }
        ensures words { OnOk result (self.new.words ≡ rest self.old.words) }
        ensures next { self.new.next ≡ self.old.next }
    {
        let need = need(set, task, take(&mut self.words));
        self.rows.push(WorkRow {
            task,
            release: at,
            need,
        })?;
        Ok(())
    }
}

// The need of a job of the task, in ticks, by the job's word.
#[tactic(auto, unfolding(crate::specs::GeneratedWork::need_in))]
fn need(set: &TaskSet, task: TaskNo, word: u32) -> u32
    requires { IsIn set.now.tasks task.0 }
    ensures { result ≡ spec.need_in (task_at set.now.tasks task.0) word }
{
    // No budget is 0, as in every set.
    let _is_set = set.len();
    match set.get(task) {
        Some(task) => {
            if task.is_high() && word % 64 == 0 {
                task.high
            } else {
                1 + word % task.low
            }
        }
        None => unreachable!(),
    }
}
