//! Tests of generated workloads. Expected values come from an independent program, written in Python from the
//! description of the workloads and from PCG's reference generator, whose first words for the state 42 and the stream
//! 54 are known.
ghost use Rattle.std.specs.Prelude.{◌≤◌};

use mc_model::WorkRow;
use mc_task::{Level, Rule, Task, TaskNo, TaskSet};
use set_gen::{Made, make};
use std::alloc::{AllocError, Global};
use std::test::Fail;

// A task as `name level period low high`.
fn task_line(alloc: Global, task: &Task) -> Result<String, AllocError> {
    let mut line = String::new(alloc);
    for byte in task.name.bytes() {
        line.push(char::from(*byte))?;
    }
    let level = if task.level == Level::Low {
        "low"
    } else {
        "high"
    };
    let numbers = format!(in alloc; " {level} {} {} {}\n", task.period, task.low, task.high)?;
    line.push_str(numbers.as_str())?;
    Ok(line)
}

// The tasks of a set.
fn set_text(alloc: Global, set: &TaskSet) -> Result<String, AllocError> {
    let mut text = String::new(alloc);
    for number in 1..33 {
        if let Some(task) = set.get(TaskNo(number)) {
            text.push_str(task_line(alloc, &task)?.as_str())?;
        }
    }
    Ok(text)
}

// The scale of a rule.
fn rule_text(alloc: Global, rule: Rule) -> Result<String, AllocError> {
    match rule {
        Rule::Plain => format!(in alloc; "plain"),
        Rule::Virtual { p, q } => format!(in alloc; "{p}/{q}"),
    }
}

// The first jobs, each as `task@release+need`.
fn jobs_text(alloc: Global, rows: &[WorkRow]) -> Result<String, AllocError> {
    let mut text = String::new(alloc);
    for row in rows.iter().take(24) {
        let row = format!(in alloc; "{}@{}+{} ", row.task.0, row.release, row.need)?;
        text.push_str(row.as_str())?;
    }
    Ok(text)
}

// One number that depends on all jobs and on their order.
fn digest(rows: &[WorkRow]) -> u64 {
    let mut digest = 0u64;
    for row in rows {
        let task = u64::from(row.task.0).wrapping_mul(7);
        let release = u64::from(row.release).wrapping_mul(13);
        let need = u64::from(row.need).wrapping_mul(17);
        let job = task.wrapping_add(release).wrapping_add(need);
        digest = digest.wrapping_mul(31).wrapping_add(job) % 1_000_000_007;
    }
    digest
}

// What a test compares: the set, the rule, the first jobs, the number of jobs, and their digest.
#[derive(Drop)]
struct Seen {
    set: String,
    rule: String,
    jobs: String,
    count: usize,
    digest: u64,
}

// Whether the rule and the first jobs are these.
fn begins_with(seen: &Seen, rule: &str, jobs: &str) -> bool {
    seen.rule.as_str() == rule && seen.jobs.as_str() == jobs
}

fn workload(alloc: Global, number: u64, tasks: u32, ticks: u64) -> Result<Seen, Fail>
    requires some { 2 ≤ tasks }
    requires few { tasks ≤ 32 }
    requires first { 1 ≤ ticks }
    requires last { ticks ≤ 1000000 }
{
    match make(alloc, number, tasks, ticks) {
        Ok(made) => Ok(look_at(alloc, &made)?),
        Err(_) => Err("memory".into()),
    }
}

fn look_at(alloc: Global, made: &Made) -> Result<Seen, AllocError> {
    let rows = made.work.rows();
    Ok(Seen {
        set: set_text(alloc, &made.set)?,
        rule: rule_text(alloc, made.rule)?,
        jobs: jobs_text(alloc, rows)?,
        count: rows.len(),
        digest: digest(rows),
    })
}

#[test]
fn a_workload_is_the_one_that_its_number_says(rt: HostRuntime) -> Result<(), Fail> {
    let seen = workload(rt.alloc(), 7, 8, 20000)?;
    let set =
        "t1 high 2000 79 375\nt2 low 400 50 50\nt3 high 2000 82 375\nt4 low 2000 250 250\nt5 high 200 3 37\nt6 low 1250 156 156\nt7 high 1000 2 187\nt8 low 1250 156 156\n";
    let jobs =
        "1@0+46 2@0+21 3@0+53 4@0+47 5@0+2 6@0+78 7@0+2 8@0+108 5@214+2 2@408+9 5@428+1 5@642+3 2@816+6 5@856+1 7@1010+1 5@1070+2 2@1224+11 6@1256+20 8@1259+30 5@1284+1 5@1498+3 2@1632+34 5@1712+2 5@1926+1 ";
    let is_begun = seen.set.as_str() == set && begins_with(&seen, "325/1668", jobs);
    assert!(rt; is_begun && seen.count == 226 && seen.digest == 467_134_338);
    Ok(())
}

#[test]
fn a_high_task_rarely_needs_its_high_budget(rt: HostRuntime) -> Result<(), Fail> {
    let seen = workload(rt.alloc(), 2, 3, 700)?;
    let set = "t1 high 200 19 75\nt2 low 10000 5000 5000\nt3 high 200 22 75\n";
    // The jobs of task 3 with the need 75 need the high budget.
    let jobs = "1@0+12 2@0+712 3@0+22 1@204+17 3@213+17 1@408+8 3@426+75 1@612+3 3@639+75 ";
    assert!(rt; seen.set.as_str() == set && begins_with(&seen, "41/100", jobs));
    Ok(())
}

#[test]
fn the_limits_are_within(rt: HostRuntime) -> Result<(), Fail> {
    let least = workload(rt.alloc(), 0, 2, 1)?;
    assert!(rt; begins_with(&least, "321/1250", "1@0+770 2@0+2263 "));
    let most = workload(rt.alloc(), u64::MAX, 32, 1_000_000)?;
    let is_counted = most.count == 30191 && most.digest == 854_208_913;
    assert!(rt; most.rule.as_str() == "3160/10067" && is_counted);
    Ok(())
}
