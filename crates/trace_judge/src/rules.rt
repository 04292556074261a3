//! What the rules allow at a tick, by which key a job is ordered, and when a deadline has come.
ghost use Rattle.std.specs.Prelude.{◌≡◌, ◌+◌, ◌<◌, ◌==◌, Some};
ghost use Rattle.mc_model.specs.Holds.{Fits};
ghost use Rattle.mc_model.specs.Key.{key_of};
ghost use Rattle.trace_judge.specs.Heads.{no_key};
ghost use Rattle.trace_judge.specs.Rules.{allows, overruns, budget, fitting, is_due_at};

use mc_model::How;
use mc_task::{Rule, Task};
use virtual_key::key;

// Whether the next tick of a job that has had `used` ticks is the last one of this budget.
fn is_last(used: u64, budget: u32) -> bool
    ensures { result ≡ (used + 1 == budget) }
{
    u64::from(budget).saturating_sub(used) == 1
}

// Whether the next tick of a job that has had `used` ticks is an overrun.
fn overruns(rule: Rule, high_mode: bool, task: &Task, used: u64) -> bool
    ensures { result ≡ overruns rule high_mode (Some task.now) (used + 1) }
{
    task.is_high() && rule.is_virtual() && !high_mode && is_last(used, task.low)
}

// The budget before which the ticks of a job of the task go on.
fn budget(rule: Rule, high_mode: bool, task: &Task) -> u32
    ensures { result ≡ budget rule high_mode (Some task.now) }
{
    if task.is_high() && rule.is_virtual() && !high_mode {
        task.low
    } else {
        task.high
    }
}

/// How many of the next `length` ticks of a job of the task may end in this way, if the job has had `used` ticks.
pub fn fitting(rule: Rule, high_mode: bool, task: &Task, used: u64, how: How, length: u32) -> u32
    ensures { result ≡ fitting rule high_mode (Some task.now) used how length }
{
    match how {
        How::More => {
            let left = u64::from(budget(rule, high_mode, task)).saturating_sub(used);
            u64::from(length).min(left.saturating_sub(1)) as u32
        }
        How::Done | How::Stop | How::Over => {
            if is_allowed(rule, high_mode, task, used, how) {
                length
            } else {
                0
            }
        }
    }
}

// Whether the next tick of a job of the task may end in this way, if the job has had `used` ticks.
fn is_allowed(rule: Rule, high_mode: bool, task: &Task, used: u64, how: How) -> bool
    ensures { result ≡ allows rule high_mode (Some task.now) (used + 1) how }
{
    let last = is_last(used, task.high);
    match how {
        How::Done => used < u64::from(task.high),
        How::Stop => last,
        How::Over => !last && overruns(rule, high_mode, task, used),
        How::More => !last && !overruns(rule, high_mode, task, used),
    }
}

/// Whether the deadline of a job of the task that was released at this boundary has come at boundary `now`.
pub fn is_due(task: &Task, release: u64, now: u64) -> bool
    ensures { result ≡ is_due_at (Some task.now) release now }
{
    let period = u64::from(task.period);
    period <= now && release <= now - period
}

/// The key of a job of the task that was released at this boundary. It is less than the key of an empty queue.
pub fn key_at(rule: Rule, high_mode: bool, task: &Task, release: u64) -> u128
    requires { Fits rule }
    ensures key { result ≡ key_of rule high_mode (Some task.now) release }
    ensures below { result < no_key }
{
    // The period is a number of 32 bits, and the release one of 64 bits.
    let _period = task.period;
    let _release = release;
    key(rule, high_mode, task, release)
}
