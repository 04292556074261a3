//! The tasks of a generated set, and the gaps between their releases.
ghost use Rattle.std.specs.Prelude.{◌≡◌, ◌≤◌, ℕ, List, IfOk, OnOk};
ghost use Rattle.set_gen.specs.Words.{after};
ghost use Rattle.set_gen.specs.GeneratedSet as spec;
ghost use Rattle.set_gen.specs.GeneratedNumbers.{AreOf, AreSmall};

use crate::words::take;
use mc_task::{Level, Name, Task};
use rand_pcg::Lcg64Xsh32;
use std::alloc::{AllocError, Global};

// The periods, in ticks. Their least common multiple is 20000.
const PERIODS: [u32; 12] = [
    200, 250, 400, 500, 800, 1000, 1250, 2000, 2500, 4000, 5000, 10000,
];

// The tasks in order of their numbers, and for each the gap between its releases, in ticks.
#[derive(Drop)]
pub struct Drawn {
    pub tasks: Vec<Task>,
    pub gaps: Vec<u32>,
}

/// The numbers of a generated task, in ticks: all of it except its name.
#[derive(Clone, Copy)]
pub struct Numbers {
    pub level: Level,
    pub period: u32,
    pub low: u32,
    pub high: u32,
}

// Generates `count` tasks.
pub fn draw(alloc: Global, words: &mut Lcg64Xsh32, count: u32) -> Result<Drawn, AllocError>
    requires some { 2 ≤ count }
    requires few { count ≤ 32 }
    ensures tasks { IfOk result (λ drawn. drawn.tasks.items ≡ spec.generated_set words.old count) }
    ensures gaps { IfOk result (λ drawn. drawn.gaps.items ≡ spec.generated_gaps words.old count) }
    ensures words { OnOk result (words.new ≡ after (spec.words_before count) words.old) }
{
    let mut tasks = Vec::new(alloc);
    let mut gaps = Vec::new(alloc);
    for i in 0..count {
        let (task, gap) = draw_one(alloc, words, count, i + 1)?;
        tasks.push(task)?;
        gaps.push(gap)?;
    }
    Ok(Drawn { tasks, gaps })
}

// Generates the task with this number, and its gap.
fn draw_one(
    alloc: Global,
    words: &mut Lcg64Xsh32,
    count: u32,
    number: u32,
) -> Result<(Task, u32), AllocError>
    requires some { 2 ≤ count }
    requires few { count ≤ 32 }
    ensures task { IfOk result (λ drawn. drawn.0 ≡ spec.generated_task words.old count number) }
    ensures gap { IfOk result (λ drawn. drawn.1 ≡ spec.generated_gap words.old number) }
    ensures words { OnOk result (words.new ≡ after (spec.words_taken number) words.old) }
{
    let name = name_of(alloc, number)?;
    let (numbers, gap) = draw_numbers(words, count, number);
    let task = Task {
        name,
        level: numbers.level,
        period: numbers.period,
        low: numbers.low,
        high: numbers.high,
    };
    Ok((task, gap))
}

/// Draws the numbers of task `number` of `count`, 2 to 32, from the next words, and the gap between its releases, in
/// ticks. It allocates nothing.
pub fn draw_numbers(words: &mut Lcg64Xsh32, count: u32, number: u32) -> (Numbers, u32)
    requires some { 2 ≤ count }
    requires few { count ≤ 32 }
    ensures task { AreOf (spec.generated_task words.old count number) result.0 }
    ensures small { AreSmall result.0 }
    ensures gap { result.1 ≡ spec.generated_gap words.old number }
    ensures words { words.new ≡ after (spec.words_taken number) words.old }
{
    let period = period(take(words));
    let numbers = if number % 2 == 1 {
        high_task(period, count.div_ceil(2), take(words))
    } else {
        low_task(period, count / 2)
    };
    let extra_gap = take(words) % 16;
    (numbers, period + extra_gap)
}

#[tactic(auto, unfolding(crate::specs::GeneratedSet::task_name))]
fn name_of(alloc: Global, number: u32) -> Result<Name, AllocError>
    ensures { IfOk result (λ name. name ≡ spec.task_name number) }
{
    let text = format!(in alloc; "t{number}")?;
    match Name::new(text.as_bytes()) {
        Some(name) => Ok(name),
        None => unreachable!(),
    }
}

#[tactic(auto, unfolding(crate::specs::GeneratedSet::period, crate::specs::GeneratedSet::periods))]
fn period(word: u32) -> u32
    ensures value { result ≡ spec.period word }
    ensures least { 200 ≤ result }
    ensures most { result ≤ 10000 }
{
    PERIODS[(word % 12) as usize]
}

// One of `count` high tasks.
fn high_task(period: u32, count: u32, word: u32) -> Numbers
    requires least { 200 ≤ period }
    requires most { period ≤ 10000 }
    requires some { 1 ≤ count }
    requires few { count ≤ 16 }
    ensures task { (name : List ℕ) → AreOf (spec.high_task name period count word) result }
    ensures small { AreSmall result }
{
    Numbers {
        level: Level::High,
        period,
        low: 1 + word % (period / (4 * count)),
        high: 3 * period / (4 * count),
    }
}

// One of `count` low tasks.
fn low_task(period: u32, count: u32) -> Numbers
    requires least { 200 ≤ period }
    requires most { period ≤ 10000 }
    requires some { 1 ≤ count }
    requires few { count ≤ 16 }
    ensures task { (name : List ℕ) → AreOf (spec.low_task name period count) result }
    ensures small { AreSmall result }
{
    let budget = period / (2 * count);
    Numbers {
        level: Level::Low,
        period,
        low: budget,
        high: budget,
    }
}
