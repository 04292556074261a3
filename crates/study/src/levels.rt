//! The number of the eleven percentages at which the test admits a random set.
//!
//! All periods of random sets divide 20000, so a set needs neither names nor its hyperperiod here, and nothing is
//! allocated.
ghost use Rattle.std.specs.Prelude.{◌≡◌, ◌≤◌, length};
ghost use Rattle.std.specs.List.{AllByRecursion};
ghost use Rattle.mc_model.specs.Sums.{total};
ghost use Rattle.set_gen.specs.Words as words;
ghost use Rattle.set_gen.specs.GeneratedSet.{generated_set};
ghost use Rattle.study.specs.Loads.{AdmitsUpTo};
ghost use Rattle.study.specs.Acceptance.{generated_stretch};
ghost use Rattle.study.specs.Levels as spec;

use arrayvec::ArrayVec;
use mc_task::Level;
use set_gen::{draw_numbers, words_of};

// A number of ticks that each period of a random set divides.
const SPAN: u32 = 20000;

// A high budget, in ticks, and the number of jobs of its task in the span.
#[derive(Clone, Copy, Default)]
pub struct High {
    budget: u32,
    jobs: u32,
}

// What the low tasks of a set ask for of the span, what the high ones ask for by their low budgets, and each high task.
#[derive(Drop)]
pub struct Sums {
    low_low: u32,
    high_low: u32,
    highs: ArrayVec<High, 32>,
}

// At how many of 100, 110 and so on to 200 percent the test admits the set generated from this number.
pub fn levels_passed(number: u64, tasks: u32) -> u32
    requires some_tasks { 2 ≤ tasks }
    requires few_tasks { tasks ≤ 32 }
    ensures { spec.IsReached (generated_stretch number tasks) result }
{
    let sums = sums_of(number, tasks);
    match most_of(sums.low_low, sums.high_low) {
        Some(most) => admitted(sums.highs.as_slice(), most),
        None => 0,
    }
}

// The sums of the set generated from this number.
fn sums_of(number: u64, tasks: u32) -> Sums
    requires some_tasks { 2 ≤ tasks }
    requires few_tasks { tasks ≤ 32 }
    ensures { spec.AreSumsOf (generated_set (words.words_of number) tasks) result }
{
    let mut words = words_of(number);
    let mut low_low = 0;
    let mut high_low = 0;
    let mut highs = ArrayVec::new();
    for i in 0..tasks {
        let (numbers, _gap) = draw_numbers(&mut words, tasks, i + 1);
        let jobs = SPAN / numbers.period;
        match numbers.level {
            Level::Low => low_low += numbers.low * jobs,
            Level::High => {
                high_low += numbers.low * jobs;
                highs.push(High {
                    budget: numbers.high,
                    jobs,
                });
            }
        }
    }
    Sums {
        low_low,
        high_low,
        highs,
    }
}

// The greatest sum of high budgets that the test admits, if the low tasks ask for `a` ticks of the span and the high
// ones for `b` by their low budgets.
fn most_of(a: u32, b: u32) -> Option<u32>
    ensures { AdmitsUpTo 20000 a b result }
{
    if SPAN < a || SPAN - a < b {
        return None;
    }
    let rest = SPAN - a;
    if rest == 0 {
        return Some(0);
    }
    Some((SPAN * rest - a * b) / rest)
}

// At how many of the percentages, from 100 on, the high tasks ask for at most `most` ticks of the span.
fn admitted(highs: &[High], most: u32) -> u32
    requires few { length highs.now ≤ 32 }
    requires small { AllByRecursion spec.IsSmall highs.now }
    ensures { spec.IsUpTo highs.now most result }
{
    for step in 0..11 {
        if most < asked(highs, 100 + 10 * step) {
            return step;
        }
    }
    11
}

// What the high tasks ask for, of the span, at `s` percent of their high budgets.
fn asked(highs: &[High], s: u32) -> u32
    requires few { length highs.now ≤ 32 }
    requires small { AllByRecursion spec.IsSmall highs.now }
    requires most { s ≤ 200 }
    ensures { result ≡ total (spec.asks_at s) highs.now }
{
    let mut sum = 0;
    for high in highs {
        sum += high.budget * s / 100 * high.jobs;
    }
    sum
}
