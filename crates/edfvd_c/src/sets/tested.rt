//! A task set tested.
ghost use Rattle.std.specs.Prelude.{◌≡◌, ◌≢◌, ◌^◌, ◌/◌, ◌%◌};
ghost use Rattle.edfvd_c.specs.Sets.Refused.{IsRefused};
ghost use Rattle.edfvd_c.specs.Sets.Tested as spec;
ghost use Rattle.edfvd_c.specs.Status.{OK};

use crate::sets::given::CTask;
use crate::sets::loaded::{SetAndLoads, set_and_loads};
use crate::status;
use admission::admit;
use load_sum::Loads;
use mc_task::Rule;
use std::alloc::Global;

/// The loads over the least common multiple of the periods, each in two halves, and the rule: 0 for none, 1 for plain EDF,
/// 2 for EDF-VD with the scale `p/q`.
#[repr(C)]
#[derive(Clone, Copy)]
pub struct CTest {
    pub rule: u32,
    pub task: u32,
    pub p: u64,
    pub q: u64,
    pub lcm: u64,
    pub low_low_top: u64,
    pub low_low: u64,
    pub high_low_top: u64,
    pub high_low: u64,
    pub high_high_top: u64,
    pub high_high: u64,
}

const UNTESTED: CTest = CTest {
    rule: 0,
    task: 0,
    p: 0,
    q: 0,
    lcm: 0,
    low_low_top: 0,
    low_low: 0,
    high_low_top: 0,
    high_low: 0,
    high_high_top: 0,
    high_high: 0,
};

/// Tests the tasks by the published test. More than 128 tasks are refused with TOO_MANY. Any other refusal has the status
/// of its cause, and `task` is the task that it is about, or 0.
#[unsafe(no_mangle)]
pub extern "C" fn edfvd_raw_check(alloc: Global, given: &[CTask], tested: &mut CTest) -> u32
    ensures tested { result ≡ OK → spec.IsTested given.now tested.new }
    ensures refused { result ≢ OK → IsRefused given.now result tested.new.task }
    ensures zeros { result ≢ OK → tested.new ≡ spec.refused_at tested.new.task }
{
    match set_and_loads(alloc, given) {
        Ok(SetAndLoads { loads, .. }) => {
            *tested = in_numbers(loads, admit(&loads));
            status::OK
        }
        Err(no) => {
            *tested = CTest {
                task: no.task,
                ..UNTESTED
            };
            no.status
        }
    }
}

fn in_numbers(loads: Loads, rule: Option<Rule>) -> CTest
    ensures loads { spec.loads_of result ≡ loads }
    ensures rule { spec.HasRule rule result }
    ensures task { result.task ≡ 0 }
{
    let (number, p, q) = match rule {
        None => (0, 0, 0),
        Some(Rule::Plain) => (1, 0, 0),
        Some(Rule::Virtual { p, q }) => (2, p, q),
    };
    CTest {
        rule: number,
        task: 0,
        p,
        q,
        lcm: loads.lcm,
        low_low_top: top(loads.low_low),
        low_low: rest(loads.low_low),
        high_low_top: top(loads.high_low),
        high_low: rest(loads.high_low),
        high_high_top: top(loads.high_high),
        high_high: rest(loads.high_high),
    }
}

fn top(n: u128) -> u64
    ensures { result ≡ n / 2 ^ 64 }
{
    (n / 18446744073709551616) as u64
}

fn rest(n: u128) -> u64
    ensures { result ≡ n % 2 ^ 64 }
{
    (n % 18446744073709551616) as u64
}
