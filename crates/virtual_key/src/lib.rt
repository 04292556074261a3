//! The key by which pending jobs are ordered.
#![tactic(auto)]

ghost use Rattle.std.specs.Prelude.{◌≡◌, Some};
ghost use Rattle.mc_model.specs.Key.{key_of};
ghost use Rattle.mc_model.specs.Holds.{Fits};

use mc_task::{Level, Rule, Task};

/// The key of a job of this task that was released at this boundary; the job with the least key runs (Baruah et al.,
/// ECRTS 2012).
///
/// With release r, period T and the scale p/q (q = 1 under `Plain`), in units of 1/q tick, so that nothing is rounded:
///
/// | rule, mode | high task | low task |
/// |---|---|---|
/// | `Plain`, either | r + T | r + T |
/// | `Virtual`, low | q * r + p * T | q * (r + T) |
/// | `Virtual`, high | q * (r + T) | q * (r + T) |
///
/// In high mode no job of a low task is pending. It allocates nothing and cannot fail.
pub fn key(rule: Rule, high_mode: bool, task: &Task, release: u64) -> u128
    requires fits { Fits rule }
    ensures { result ≡ key_of rule high_mode (Some task.now) release }
{
    let release = u128::from(release);
    let period = u128::from(task.period);
    match rule {
        Rule::Plain => release + period,
        Rule::Virtual { p, q } => {
            let scale = if high_mode || task.level == Level::Low {
                u128::from(q)
            } else {
                u128::from(p)
            };
            u128::from(q) * release + scale * period
        }
    }
}
