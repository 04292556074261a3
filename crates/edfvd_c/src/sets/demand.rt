//! Tasks with deadlines of at most their periods, tested under plain EDF.
ghost use Rattle.std.specs.Prelude.{◌≡◌, ◌≢◌, ◌<◌, ◌≤◌, IfOk, IfErr, length};
ghost use Rattle.edfvd_c.specs.Sets.DemandTested as spec;
ghost use Rattle.edfvd_c.specs.Sets.Named as named;
ghost use Rattle.edfvd_c.specs.Status.{OK, MEMORY};

use crate::sets::given::{NoSet, name_of};
use crate::status;
use demand_test::{Demand, DemandCause, DemandSet, Fit, RefusedTask, check_demand};
use std::alloc::Global;

/// A task's period, deadline and budget, in ticks.
#[repr(C)]
#[derive(Clone, Copy)]
pub struct CDemandTask {
    pub period: u32,
    pub deadline: u32,
    pub budget: u32,
}

/// The result of the test. `past` is 0 if plain EDF schedules the tasks; then `length` is their hyperperiod in ticks. If `past`
/// is 1, `length` is the least length of time in which the tasks ask for more ticks than it has, and `demand` is what they ask
/// for. `task` is the task of a refusal, or 0.
#[repr(C)]
#[derive(Clone, Copy)]
pub struct CDemandTest {
    pub past: u32,
    pub task: u32,
    pub length: u64,
    pub demand: u64,
}

/// Tests the tasks under plain EDF by the processor-demand test (Baruah, Mok and Rosier, RTSS 1990). More than 128 tasks are
/// refused with TOO_MANY. Any other refusal has the status of its cause, and `task` is the first task at fault, or 0 if there is
/// no task.
#[unsafe(no_mangle)]
pub extern "C" fn edfvd_raw_demand(
    alloc: Global,
    given: &[CDemandTask],
    tested: &mut CDemandTest,
) -> u32
    ensures tested { result ≡ OK → spec.IsDemandTested given.now tested.new }
    ensures refused { result ≢ OK → spec.IsRefused given.now result tested.new.task }
    ensures zeros { result ≢ OK → tested.new ≡ spec.refused_at tested.new.task }
{
    match test_demand(alloc, given) {
        Ok(found) => {
            *tested = found;
            status::OK
        }
        Err(no) => {
            *tested = CDemandTest {
                past: 0,
                task: no.task,
                length: 0,
                demand: 0,
            };
            no.status
        }
    }
}

fn test_demand(alloc: Global, given: &[CDemandTask]) -> Result<CDemandTest, NoSet>
    ensures tested { IfOk result (spec.IsDemandTested given.now) }
    ensures refused { IfErr result (λ no. spec.IsRefused given.now no.status no.task) }
    ensures status { IfErr result (λ no. no.status ≢ OK) }
{
    if given.len() > 128 {
        return Err(NoSet {
            status: status::TOO_MANY,
            task: 0,
        });
    }
    let set = demand_set_of(alloc, given)?;
    match check_demand(alloc, &set) {
        Ok(fit) => Ok(in_numbers(fit)),
        Err(_) => Err(NoSet {
            status: status::MEMORY,
            task: 0,
        }),
    }
}

fn in_numbers(fit: Fit) -> CDemandTest
    ensures { result ≡ spec.in_numbers fit }
{
    let (past, length, demand) = match fit {
        Fit::Within { length } => (0, length, 0),
        Fit::Past { length, demand } => (1, length, demand),
    };
    CDemandTest {
        past,
        task: 0,
        length,
        demand,
    }
}

// The set of the tasks, which are named by their numbers.
fn demand_set_of(alloc: Global, given: &[CDemandTask]) -> Result<DemandSet, NoSet>
    requires { length given.now ≤ 128 }
    ensures tasks { IfOk result (λ set. spec.AreOf given.now set) }
    ensures refused { IfErr result (λ no. spec.IsRefused given.now no.status no.task) }
    ensures status { IfErr result (λ no. no.status ≢ OK) }
{
    let mut tasks = Vec::new(alloc);
    for place in 0..given.len() {
        if tasks
            .push(demand_of(given[place], place as u32 + 1))
            .is_err()
        {
            return Err(NoSet {
                status: status::MEMORY,
                task: 0,
            });
        }
    }
    match DemandSet::new(tasks) {
        Ok(set) => Ok(set),
        Err(RefusedTask { task, cause }) => Err(NoSet {
            status: status_of(cause),
            task: task.0,
        }),
    }
}

fn demand_of(given: CDemandTask, number: u32) -> Demand
    requires { number < 1000 }
    ensures numbers { spec.numbers_of result ≡ given }
    ensures name { result.name ≡ named.name_of number }
{
    Demand {
        name: name_of(number),
        period: given.period,
        deadline: given.deadline,
        budget: given.budget,
    }
}

fn status_of(cause: DemandCause) -> u32
    ensures value { result ≡ spec.status_of cause }
    ensures fault { result ≢ OK }
    ensures enough { result ≢ MEMORY }
{
    match cause {
        DemandCause::Empty => status::EMPTY,
        DemandCause::TooMany => status::TOO_MANY,
        DemandCause::SameName => status::SAME_NAME,
        DemandCause::ZeroNumber => status::ZERO_NUMBER,
        DemandCause::DeadlineOrder => status::DEADLINE_ORDER,
        DemandCause::Range => status::PERIODS,
        DemandCause::Header
        | DemandCause::BadRecord
        | DemandCause::BadName
        | DemandCause::BadNumber => status::ARGUMENT,
    }
}
