//! Demand files, read.
ghost use Rattle.std.specs.Prelude.{IfOk};
ghost use Rattle.csv_records.specs.Reads.{Reads};
ghost use Rattle.demand_test.specs.DemandFile.{demands_in, some_tasks};
ghost use Rattle.demand_test.specs.DemandSet.{IsDemandSet};
ghost use Rattle.demand_test.specs.SoFar.{IsSoFar};

use crate::record::{is_header, record_task};
use crate::{Demand, DemandCause, DemandFault, DemandSet};
use csv::ByteRecord;
use csv_records::{RowReader, read_rows};
use std::alloc::Global;

/// Reads a demand file: records of four fields. The first is the header `task,period,deadline,budget`; each other
/// record has a task's name, its period, its deadline and its budget, in ticks. Records are as csv's reader returns
/// them, with commas and double quotes.
///
/// `Memory` may be returned at any point. Any other error is the file's first refusal: `Header` or `Empty` at line 1,
/// and then for each record in turn `TooMany`, the 129th task; `BadRecord`; `BadName`; `SameName`; `BadNumber`;
/// `ZeroNumber`; `DeadlineOrder`; `Range`.
pub fn read_demands(alloc: Global, bytes: &[u8]) -> Result<DemandSet, DemandFault>
    ensures file { Reads (λ set. set) result (demands_in bytes.now) }
    ensures set { IfOk result (λ set. IsDemandSet set) }
{
    let (tasks, multiple) = read_rows(alloc, bytes, DemandCause::Header, &DemandRecords)?;
    set_of(tasks, multiple)
}

// The set of these tasks, which have this hyperperiod; at least one task is needed.
fn set_of(tasks: Vec<Demand>, multiple: u32) -> Result<DemandSet, DemandFault>
    requires { IsSoFar tasks.items multiple }
    ensures file { Reads (λ set. set) result (some_tasks tasks.items) }
    ensures set { IfOk result (λ set. IsDemandSet set) }
{
    if tasks.is_empty() {
        return Err(DemandFault::At {
            line: 1,
            cause: DemandCause::Empty,
        });
    }
    Ok(DemandSet::from_tasks(tasks, multiple))
}

// What the records of a demand file mean. The reader keeps the hyperperiod of the tasks so far.
#[derive(Drop)]
struct DemandRecords;

impl RowReader for DemandRecords {
    ghost use Rattle.std.proofs.Common.{arith};
    ghost use Rattle.std.proofs.lemmas.Bool.Decides.{nat_tests};
    ghost use Rattle.csv_records.proofs.WordLemmas.{words_length};
    ghost use Rattle.demand_test.specs.DemandFile.{after_header, record_task};
    ghost use Rattle.demand_test.specs.SoFar.{IsSoFar};

    type Row = Demand;

    type Cause = DemandCause;

    type State = u32;

    ghost header = { λ file. after_header };

    ghost means = { λ file multiple. record_task };

    ghost is_state_of = { λ file multiple tasks. IsSoFar tasks multiple };

    fn header(&self, fields: &ByteRecord) -> Option<u32> {
        if is_header(fields) { Some(1) } else { None }
    }

    fn row(
        &self,
        multiple: &mut u32,
        before: &[Demand],
        fields: &ByteRecord,
    ) -> Result<Demand, DemandCause> {
        record_task(before, multiple, fields)
    }

    #[tactic(auto, unfolding(crate::specs::DemandFile::record_task))]
    fn too_wide(&self, _: &u32, before: &[Demand]) -> DemandCause {
        if before.len() >= 128 {
            DemandCause::TooMany
        } else {
            DemandCause::BadRecord
        }
    }

    ghost narrow = { λ file fields wide. Prim.grind (arith, nat_tests, words_length) };

    ghost few = { λ file multiple tasks read. let few = read.few in Prim.omega (arith, few) };
}
