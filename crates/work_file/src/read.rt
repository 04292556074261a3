//! Work files, read.
ghost use Rattle.std.specs.Prelude.{◌≤◌, IfOk, length};
ghost use Rattle.csv_records.specs.Reads.{Reads};
ghost use Rattle.mc_model.specs.Work.{IsWork};
ghost use Rattle.work_file.specs.WorkFile.{work_in};

use crate::next::NextReleases;
use crate::record::{is_header, record_row};
use crate::{Work, WorkCause, WorkFault};
use csv::ByteRecord;
use csv_records::{RowReader, read_rows};
use mc_model::WorkRow;
use mc_task::TaskSet;
use std::alloc::Global;

/// Reads a work file: records of three fields. The first is the header `task,release,need`; each other record has a
/// task's name, its release and its need, in ticks. Records are as csv's reader returns them, with commas and double
/// quotes.
///
/// `Memory` may be returned at any point. Any other error is the file's first refusal: `Header` at line 1, and then for
/// each record in turn `TooMany`, the 1,000,001st row; `BadRecord`; `UnknownTask`; `BadNumber`; `ZeroNeed`; `Unsorted`;
/// `TooSoon`.
pub fn read_work(alloc: Global, set: &TaskSet, bytes: &[u8]) -> Result<Work, WorkFault>
    ensures file { Reads (λ work. work) result (work_in set.now.tasks bytes.now) }
    ensures work { IfOk result (λ work. IsWork set.now.tasks work) }
    ensures few { IfOk result (λ work. length work ≤ 1000000) }
{
    let records = WorkRecords { set };
    let (rows, _) = read_rows(alloc, bytes, WorkCause::Header, &records)?;
    Ok(Work::from_rows(rows))
}

// What the records of a work file for this set mean.
#[derive(Drop)]
struct WorkRecords<'a> {
    set: &'a TaskSet,
}

impl<'a> RowReader for WorkRecords<'a> {
    ghost use Rattle.std.proofs.Common.{arith};
    ghost use Rattle.std.proofs.lemmas.Bool.Decides.{nat_tests};
    ghost use Rattle.csv_records.proofs.WordLemmas.{words_length};
    ghost use Rattle.work_file.specs.Reading.{AreRead};
    ghost use Rattle.work_file.specs.WorkFile.{after_header, record_row};

    type Row = WorkRow;

    type Cause = WorkCause;

    type State = NextReleases;

    ghost header = { λ file. after_header file.set.now.tasks };

    ghost means = { λ file next. record_row file.set.now.tasks };

    ghost is_state_of = { λ file next rows. AreRead file.set.now.tasks rows next };

    fn header(&self, fields: &ByteRecord) -> Option<NextReleases> {
        if is_header(fields) {
            Some(NextReleases::new())
        } else {
            None
        }
    }

    fn row(
        &self,
        next: &mut NextReleases,
        before: &[WorkRow],
        fields: &ByteRecord,
    ) -> Result<WorkRow, WorkCause> {
        record_row(next, self.set, before, fields)
    }

    #[tactic(auto, unfolding(crate::specs::WorkFile::record_row))]
    fn too_wide(&self, _: &NextReleases, before: &[WorkRow]) -> WorkCause {
        if before.len() >= 1_000_000 {
            WorkCause::TooMany
        } else {
            WorkCause::BadRecord
        }
    }

    ghost narrow = { λ file fields wide. Prim.grind (arith, nat_tests, words_length) };

    ghost few = { λ file next rows read. let few = read.few in Prim.omega (arith, few) };
}
