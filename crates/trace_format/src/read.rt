//! Traces, read.
ghost use Rattle.std.specs.Prelude.{[], All, IfOk, IfErr};
ghost use Rattle.csv_records.specs.Reads.{Reads, Takes, TakesBefore};
ghost use Rattle.mc_model.specs.Runs.{IsRunOfSet, AreRuns};
ghost use Rattle.trace_format.specs.TraceFile.{trace_file, accepted_runs};

use crate::record::{record_run, version_of, wrong_width};
use crate::run_list::RunList;
use crate::takes_runs::TakesRuns;
use crate::version::Version;
use crate::write::tick_after;
use crate::{TraceCause, TraceFault};
use csv::ByteRecord;
use csv_records::{TakesRows, take_rows};
use mc_model::{How, Run};
use mc_task::{TaskNo, TaskSet};
use std::alloc::{AllocError, Global};

/// Reads a trace. The first record is the header of version 1, `event,tick,task,job,how`, or of version 2,
/// `event,tick,length,task,job,how`. Each other record is a run; in version 1, a run of one row. Records are as csv's
/// reader returns them, with commas and double quotes.
///
/// `Memory` may be returned at any point. Any other error is the trace's first refusal: `Header` at line 1, and then
/// for each record in turn `TooMany`, the 2,000,001st after the header; `BadRecord` or `NotSix`, by the version;
/// `UnknownEvent`; `UnknownTask`; `BadNumber`; `WrongTick`; `BadLength`; `TooManyTicks`.
pub fn read_trace(alloc: Global, set: &TaskSet, bytes: &[u8]) -> Result<Vec<Run>, TraceFault>
    ensures file { Reads (λ runs. runs.items) result (trace_file set.now.tasks bytes.now) }
    ensures runs { IfOk result (λ runs. AreRuns runs.items) }
    ensures tasks { IfOk result (λ runs. All (IsRunOfSet set.now.tasks) runs.items) }
{
    let mut runs = Vec::new(alloc);
    match read_runs(alloc, set, bytes, &RunList, &mut runs) {
        Ok(()) => Ok(runs),
        Err(fault) => Err(fault),
    }
}

/// Reads a trace as `read_trace` does, and hands over one run after another. If the trace is refused, the runs before the
/// refusal were handed over, and no others; if memory runs out, no clause says which.
pub fn read_runs<T: TakesRuns>(
    alloc: Global,
    set: &TaskSet,
    bytes: &[u8],
    taker: &T,
    runs: &mut T::Runs,
) -> Result<(), TraceFault>
    requires { T.took taker.now runs.old set.now.tasks [] }
    ensures runs { Takes (λ done. T.took taker.now runs.new set.now.tasks) result (trace_file set.now.tasks bytes.now) }
    ensures before { IfErr result (TakesBefore (T.took taker.now runs.new set.now.tasks) (accepted_runs set.now.tasks bytes.now)) }
{
    let records = TraceRecords { set, taker };
    match take_rows(alloc, bytes, TraceCause::Header, &records, runs) {
        Ok(_) => Ok(()),
        Err(fault) => Err(fault),
    }
}

// What is done with the records of a trace of this set: their runs are handed to the taker.
#[derive(Drop)]
struct TraceRecords<'a, T> {
    set: &'a TaskSet,
    taker: &'a T,
}

// The version of the records, the number of runs so far, the number of the next tick, and the task that the next record
// likely names.
#[derive(Clone, Copy)]
pub struct Reading {
    pub version: Version,
    pub count: u32,
    pub due: u32,
    pub likely: TaskNo,
}

// The task that the next record likely names: this run's task if its job goes on, otherwise the task after it. This
// decides only how fast a task is found.
fn likely_after(set: &TaskSet, likely: TaskNo, run: Run) -> TaskNo {
    match run {
        Run::Ticks {
            job,
            how: How::More,
            ..
        } => job.task,
        Run::Release { job, .. } | Run::Ticks { job, .. } => set.task_after(job.task),
        Run::Idles { .. } => likely,
    }
}

impl<'a, T: TakesRuns> TakesRows for TraceRecords<'a, T> {
    ghost use Rattle.std.specs.Prelude.{[]};
    ghost use Rattle.std.proofs.Common.{arith};
    ghost use Rattle.std.proofs.lemmas.Bool.Decides.{nat_tests};
    ghost use Rattle.csv_records.proofs.WordLemmas.{words_length};
    ghost use Rattle.trace_format.specs.Reading.{AreRead};
    ghost use Rattle.trace_format.specs.TraceFile.{after_header, record_run};

    type Row = Run;

    type Cause = TraceCause;

    type State = Reading;

    type Rows = T::Runs;

    ghost header = { λ trace. after_header trace.set.now.tasks };

    ghost means = { λ trace reading. record_run trace.set.now.tasks reading.version };

    ghost handed = { λ trace runs taken. T.took trace.taker.now runs trace.set.now.tasks taken };

    ghost took = { λ trace reading runs taken. AreRead taken reading × T.took trace.taker.now runs trace.set.now.tasks taken };

    fn header(&self, fields: &ByteRecord) -> Option<Reading> {
        let version = version_of(fields)?;
        Some(Reading {
            version,
            count: 0,
            due: 0,
            likely: TaskNo(1),
        })
    }

    fn row(
        &self,
        reading: &mut Reading,
        runs: &mut T::Runs,
        fields: &ByteRecord,
    ) -> Result<Option<TraceCause>, AllocError> {
        let Reading {
            version,
            count,
            due,
            likely,
        } = *reading;
        match record_run(self.set, version, count, due, likely, fields) {
            Ok(run) => {
                self.taker.take(runs, run)?;
                *reading = Reading {
                    version,
                    count: count + 1,
                    due: tick_after(due, run),
                    likely: likely_after(self.set, likely, run),
                };
                Ok(None)
            }
            Err(cause) => Ok(Some(cause)),
        }
    }

    #[tactic(auto, unfolding(crate::specs::TraceFile::record_run))]
    fn too_wide(&self, reading: &Reading, _: &T::Runs) -> TraceCause {
        if reading.count >= 2_000_000 {
            TraceCause::TooMany
        } else {
            wrong_width(reading.version)
        }
    }

    ghost narrow = { λ trace fields wide. Prim.grind (arith, nat_tests, words_length) };

    ghost hands = { λ trace reading runs taken took. took.1 };

    ghost few = { λ trace reading runs taken took. let few = took.0.few in let count = took.0.count in Prim.omega (arith, few, count) };
}
