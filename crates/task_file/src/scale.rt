//! The scale of a task file.
ghost use Rattle.std.specs.Prelude.{◌≡◌, ◌<◌, ◌≤◌, ◌^◌, option_map, IfOk, IfSome};
ghost use Rattle.toml.specs.Data.{array};
ghost use Rattle.toml.specs.View.{view, items_view};
ghost use Rattle.mc_task.specs.TaskSet.{IsScale};
ghost use Rattle.task_file.specs.ScaleArray as file;
ghost use Rattle.task_file.specs.Reads.{Reads};

use crate::{KeyName, TaskFault};
use mc_task::Scale;
use tick_frac::Ratio;
use toml::Value;

// The scale under the key `scale`, in lowest terms, or none if the key is absent.
#[tactic(auto, unfolding(crate::specs::ScaleArray::scale_in))]
pub fn scale_in(value: Option<&Value>) -> Result<Option<Scale>, TaskFault>
    ensures value { Reads (λ x. x) result (file.scale_in (option_map (λ v. view v.now) value.entry)) }
    ensures scale { IfOk result (λ x. IfSome x IsScale) }
{
    let Some(value) = value else {
        return Ok(None);
    };
    let Some((p, q)) = numbers_of(value) else {
        return Err(TaskFault::WrongKind {
            task: 0,
            key: KeyName::Scale,
        });
    };
    match scale_of(p, q) {
        Some(scale) => Ok(Some(scale)),
        None => Err(TaskFault::OutOfRange {
            task: 0,
            key: KeyName::Scale,
        }),
    }
}

#[tactic(auto, using(crate::proofs::ScaleLemmas::array_of_numbers))]
fn numbers_of(value: &Value) -> Option<(i64, i64)>
    ensures { result ≡ file.numbers_of (view value.now) }
{
    numbers_in(value.as_array()?)
}

#[tactic(auto, using(crate::proofs::ScaleLemmas::few_numbers, crate::proofs::ScaleLemmas::many_numbers))]
fn numbers_in(values: &[Value]) -> Option<(i64, i64)>
    ensures { result ≡ file.numbers_of (array (items_view values.now)) }
{
    let [p, q] = values else {
        return None;
    };
    Some((p.as_integer()?, q.as_integer()?))
}

fn scale_of(p: i64, q: i64) -> Option<Scale>
    ensures value { result ≡ file.scale_of p q }
    ensures scale { IfSome result IsScale }
{
    if p < 1 || q < p || 1 << 32 <= q {
        return None;
    }
    Some(lowest_scale(p as u64, q as u64))
}

fn lowest_scale(p: u64, q: u64) -> Scale
    requires some { 1 ≤ p }
    requires order { p ≤ q }
    requires small { q < 2 ^ 32 }
    ensures value { result ≡ file.lowest_scale p q }
    ensures scale { IsScale result }
{
    let x = Ratio::new(u128::from(p), u128::from(q));
    Scale {
        p: x.num() as u64,
        q: x.den() as u64,
    }
}
