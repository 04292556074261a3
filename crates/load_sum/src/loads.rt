//! The loads of a task set: its utilisations, exactly.
ghost use Rattle.std.specs.Prelude.{◌≡◌, ◌<◌, ◌≤◌, ◌^◌, ◌*◌, ◌/◌, ◌↔◌, Some, None, IfOk, IfErr, IsOk, length, slice_get, List};
ghost use Rattle.mc_task.specs.TaskSet.{AreTasks};
ghost use Rattle.mc_task.specs.declared.task.Task.{Task};
ghost use Rattle.mc_model.specs.Loads as model;
ghost use Rattle.load_sum.specs.Belong.{BelongTo, fault_task};

use mc_task::{Level, Task, TaskNo, TaskSet};
use tick_frac::lcm_within;

/// The greatest hyperperiod that is within range.
const MOST_LCM: u64 = 1 << 60;

/// The utilisations of a set as numerators over `lcm`, the hyperperiod in ticks: U_LL is `low_low / lcm`, U_HL is
/// `high_low / lcm` and U_HH is `high_high / lcm`.
#[derive(Clone, Copy, Debug, PartialEq, Eq)]
pub struct Loads {
    pub lcm: u64,
    pub low_low: u128,
    pub high_low: u128,
    pub high_high: u128,
}

/// Why a set has no loads.
#[derive(Clone, Copy, Debug, PartialEq, Eq)]
pub enum LoadFault {
    /// The hyperperiod exceeds 2^60. The task is the first whose period takes the least common multiple past that.
    Range { task: TaskNo },
}

/// The utilisations of a set (Baruah et al., ECRTS 2012); `Err` exactly if its hyperperiod exceeds 2^60.
pub fn sum_loads(set: &TaskSet) -> Result<Loads, LoadFault>
    ensures ok { IfOk result (λ loads. BelongTo set.now.tasks loads × (model.range_fault set.now.tasks ≡ None)) }
    ensures range { IfErr result (λ fault. model.range_fault set.now.tasks ≡ Some (fault_task fault)) }
    ensures within { IsOk result ↔ model.IsWithinRange set.now.tasks }
    // `hyperperiod` computes; this clause says that it is the least common multiple of the periods.
    ensures law { (tasks : List Task) → model.IsLeastCommon tasks (model.hyperperiod tasks) }
{
    let lcm = common_multiple(set)?;
    Ok(loads_over(set, lcm))
}

fn common_multiple(set: &TaskSet) -> Result<u64, LoadFault>
    ensures ok { IfOk result (λ lcm. (model.range_fault set.now.tasks ≡ None) × (lcm ≡ model.lcm_from 1 set.now.tasks) × (0 < lcm) × (lcm ≤ 2 ^ 60)) }
    ensures range { IfErr result (λ e. model.range_fault set.now.tasks ≡ Some (fault_task e)) }
    ensures set { AreTasks set.now.tasks }
{
    let count = set.len();
    let mut lcm = 1;
    for i in 0..count {
        let t = task_at(set, i);
        match lcm_within(lcm, u64::from(t.period), MOST_LCM) {
            Some(multiple) => lcm = multiple,
            None => {
                return Err(LoadFault::Range {
                    task: TaskNo(i + 1),
                });
            }
        }
    }
    Ok(lcm)
}

fn loads_over(set: &TaskSet, lcm: u64) -> Loads
    requires { lcm ≤ 2 ^ 60 }
    ensures lcm { result.lcm ≡ lcm }
    ensures low_low { result.low_low ≡ model.load model.low_low lcm set.now.tasks }
    ensures high_low { result.high_low ≡ model.load model.high_low lcm set.now.tasks }
    ensures high_high { result.high_high ≡ model.load model.high_high lcm set.now.tasks }
{
    let count = set.len();
    let mut low_low = 0;
    let mut high_low = 0;
    let mut high_high = 0;
    for i in 0..count {
        let t = task_at(set, i);
        low_low += share(by_level(t.level, t.low, 0), lcm, t.period);
        high_low += share(by_level(t.level, 0, t.low), lcm, t.period);
        high_high += share(by_level(t.level, 0, t.high), lcm, t.period);
    }
    Loads {
        lcm,
        low_low,
        high_low,
        high_high,
    }
}

fn task_at(set: &TaskSet, i: u32) -> Task
    requires within { i < length set.now.tasks }
    requires few { i < 128 }
    ensures { slice_get set.now.tasks i ≡ Some result }
{
    set.get(TaskNo(i + 1)).unwrap()
}

fn by_level(level: Level, low: u32, high: u32) -> u32
    ensures { result ≡ model.by_level level low high }
{
    match level {
        Level::Low => low,
        Level::High => high,
    }
}

fn share(budget: u32, lcm: u64, period: u32) -> u128
    requires lcm { lcm ≤ 2 ^ 60 }
    requires period { 0 < period }
    ensures value { result ≡ budget * (lcm / period) }
    ensures small { result ≤ 2 ^ 92 }
{
    u128::from(budget) * u128::from(lcm / u64::from(period))
}
