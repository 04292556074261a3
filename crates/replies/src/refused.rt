//! The replies that refuse, each with its status and its line.
ghost use Rattle.std.specs.Prelude.{◌≡◌, ◌≢◌, List, IfOk, IsErr};
ghost use Rattle.mc_task.specs.declared.task.Task.{Task};
ghost use Rattle.csv_records.specs.declared.fault.Fault.TheVariants.{Memory};
ghost use Rattle.load_sum.specs.Belong.{BelongTo, AreOfSomeSet};
ghost use Rattle.replies.specs.Reply.{reply_of};
ghost use Rattle.replies.specs.Stop.{StopsBy, Refuses};
ghost use Rattle.replies.specs.Refusal.{refuse, line_of, ReadFault, Longer, TaskFile, OutOfRange, NotAdmitted, WorkFile, Trace, BadTrace, LongChart, DemandFile, NoRoom};

use crate::load_text::not_admitted_text;
use crate::reply::Reply;
use crate::row_lines::fault_line;
use crate::stop::Stop;
use crate::task_lines::{finished, range_line, task_fault_line};
use crate::verdicts::verdict_line;
use demand_test::DemandFault;
use load_sum::Loads;
use mc_model::Verdict;
use mc_task::{Name, TaskNo, TaskSet};
use std::alloc::{AllocError, Global};
use task_file::TaskFault;
use trace_format::TraceFault;
use work_file::WorkFault;

/// Status 1: the test gives the set of these loads no rule.
pub fn not_admitted(alloc: Global, loads: &Loads) -> Stop
    requires { AreOfSomeSet loads.now }
    ensures { StopsBy (λ reply. (set : List Task) → BelongTo set loads.now → reply ≡ refuse (NotAdmitted set)) result }
{
    stop(1, not_admitted_text(alloc, loads))
}

/// Status 3: the task file is refused. Out of memory is no refusal.
pub fn task_file(alloc: Global, fault: &TaskFault) -> Stop
    ensures reply { Refuses (TaskFile fault.now) result }
    ensures memory { fault.now ≡ TaskFault.Memory → result ≡ Stop.Memory }
{
    stop(3, task_fault_line(alloc, fault))
}

/// Status 3: the periods are out of range from this task on.
pub fn out_of_range(alloc: Global, task: TaskNo) -> Stop
    ensures { Refuses (OutOfRange task.0) result }
{
    stop(3, range_line(alloc, task))
}

/// Status 4: the work file is refused. Out of memory is no refusal.
pub fn work_file(alloc: Global, fault: &WorkFault) -> Stop
    ensures reply { Refuses (WorkFile fault.now) result }
    ensures memory { fault.now ≡ Memory → result ≡ Stop.Memory }
{
    stop(4, fault_line(alloc, "work file", *fault))
}

/// Status 5: the trace is refused. Out of memory is no refusal.
pub fn trace(alloc: Global, fault: TraceFault) -> Stop
    ensures reply { Refuses (Trace fault) result }
    ensures memory { fault ≡ Memory → result ≡ Stop.Memory }
{
    stop(5, fault_line(alloc, "trace", fault))
}

/// Status 5: a chart would have this many ticks.
pub fn long_chart(alloc: Global, ticks: u64) -> Stop
    ensures { Refuses (LongChart ticks) result }
{
    let line = format!(in alloc; "trace has {ticks} ticks, a chart has at most 2000000\n");
    stop(5, line.map(String::into_bytes))
}

/// Status 6: a row of the trace does not fit, or a job is late.
pub fn bad_trace(alloc: Global, set: &TaskSet, verdict: Verdict) -> Stop
    ensures { Refuses (BadTrace set.now.tasks verdict) result }
{
    stop(6, verdict_line(alloc, set, verdict))
}

/// Status 7: file number `file` could not be read.
pub fn read_fault(alloc: Global, file: u32) -> Stop
    ensures { Refuses (ReadFault file) result }
{
    let line = format!(in alloc; "read fault on file {file}\n");
    stop(7, line.map(String::into_bytes))
}

/// Status 7: file number `file` is longer than its limit.
pub fn longer(alloc: Global, file: u32, limit: usize) -> Stop
    ensures { Refuses (Longer file limit) result }
{
    let line = format!(in alloc; "file {file} is longer than {limit} bytes\n");
    stop(7, line.map(String::into_bytes))
}

/// Status 11: the demand file is refused. Out of memory is no refusal.
pub fn demand_file(alloc: Global, fault: DemandFault) -> Stop
    ensures reply { Refuses (DemandFile fault) result }
    ensures memory { fault ≡ Memory → result ≡ Stop.Memory }
{
    stop(11, fault_line(alloc, "demand file", fault))
}

/// Status 12: the task of this name fits on none of this many processors.
pub fn no_room(alloc: Global, name: &Name, processors: u32) -> Stop
    ensures { Refuses (NoRoom name.now processors) result }
{
    stop(12, no_room_line(alloc, name, processors))
}

fn no_room_line(alloc: Global, name: &Name, processors: u32) -> Result<Vec<u8>, AllocError>
    ensures { IfOk result (λ line. line.items ≡ line_of (NoRoom name.now processors)) }
{
    let mut line = "not partitioned: task ".as_bytes().to_vec(alloc)?;
    line.extend_from_slice(name.bytes())?;
    let rest = format!(in alloc; " fits on none of {processors}")?;
    finished(line, rest.as_bytes())
}

// The reply with this line, or out of memory if there is no line.
fn stop(status: u8, line: Result<Vec<u8>, AllocError>) -> Stop
    requires written { status ≢ 8 }
    requires made { status ≢ 9 }
    ensures line { IfOk line (λ line. result ≡ Stop.Refused (reply_of status line.items)) }
    ensures memory { IsErr line → result ≡ Stop.Memory }
{
    match line {
        Ok(line) => Stop::Refused(Reply::new(status, line)),
        Err(AllocError) => Stop::Memory,
    }
}
