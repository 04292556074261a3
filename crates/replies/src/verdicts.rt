//! The line of a verdict.
ghost use Rattle.std.specs.Prelude.{◌≡◌, ◌++◌, IfOk, codes};
ghost use Rattle.mc_task.specs.TaskSet.{task_at, name_in};
ghost use Rattle.mc_model.specs.VerdictText as spec;

use crate::task_lines::finished;
use mc_model::{Verdict, Why};
use mc_task::{JobId, TaskNo, TaskSet};
use std::alloc::{AllocError, Global};

/// The line of a verdict on a trace of the set.
#[tactic(auto, unfolding(mc_model::specs::VerdictText::verdict_line))]
pub fn verdict_line(alloc: Global, set: &TaskSet, verdict: Verdict) -> Result<Vec<u8>, AllocError>
    ensures { IfOk result (λ line. line.items ≡ spec.verdict_line set.now.tasks verdict) }
{
    match verdict {
        Verdict::Legal { late, first } => {
            let front = format!(in alloc; "legal late {late}")?;
            finished(front.into_bytes(), &first_words(alloc, set, first)?)
        }
        Verdict::Illegal { place, why } => {
            let word = why_word(why);
            Ok(format!(in alloc; "illegal row {place} {word}\n")?.into_bytes())
        }
    }
}

fn first_words(alloc: Global, set: &TaskSet, first: Option<JobId>) -> Result<Vec<u8>, AllocError>
    ensures { IfOk result (λ words. words.items ≡ spec.first_words set.now.tasks first) }
{
    let Some(job) = first else {
        return Ok(Vec::new(alloc));
    };
    let count = job.count;
    let end = format!(in alloc; " {count}")?;
    let mut words = first_name(alloc, set, job.task)?;
    words.extend_from_slice(end.as_bytes())?;
    Ok(words)
}

// The words before a job's count.
fn first_name(alloc: Global, set: &TaskSet, task: TaskNo) -> Result<Vec<u8>, AllocError>
    ensures { IfOk result (λ words. words.items ≡ codes " first " ++ name_in (task_at set.now.tasks task.0)) }
{
    let mut words = " first ".as_bytes().to_vec(alloc)?;
    if let Some(task) = set.get(task) {
        words.extend_from_slice(task.name.bytes())?;
    }
    Ok(words)
}

fn why_word(why: Why) -> &'static str
    ensures { result.now ≡ spec.why_word why }
{
    match why {
        Why::TooSoon => "too_soon",
        Why::WrongCount => "wrong_count",
        Why::WrongKept => "wrong_kept",
        Why::NotPending => "not_pending",
        Why::NotLeast => "not_least",
        Why::WrongHow => "wrong_how",
        Why::IdlePending => "idle_pending",
    }
}
