//! The error messages for a work file, a trace or a demand file: each names a line of the file.
ghost use Rattle.std.specs.Prelude.{◌≡◌, IfOk, IsErr, string_bytes};
ghost use Rattle.csv_records.specs.declared.fault.Fault.TheVariants.{Memory};
ghost use Rattle.replies.specs.RowLines as spec;

use csv_records::Fault;
use demand_test::DemandCause;
use std::alloc::{AllocError, Global};
use trace_format::TraceCause;
use work_file::WorkCause;

/// The error message for a work file, a trace or a demand file; `file` is its first words. Out of memory has none.
pub fn fault_line<C: Words>(
    alloc: Global,
    file: &str,
    fault: Fault<C>,
) -> Result<Vec<u8>, AllocError>
    ensures line { IfOk result (λ line. line.items ≡ spec.fault_line file.now C.words fault) }
    ensures memory { fault ≡ Memory → IsErr result }
{
    match fault {
        Fault::Memory => Err(AllocError),
        Fault::At { line, cause } => {
            let words = cause.text(alloc)?;
            Ok(format!(in alloc; "{file} line {line}: {words}")?.into_bytes())
        }
    }
}

/// Why a record is refused, in words.
pub trait Words: Copy {
    ghost use Rattle.std.specs.Prelude.{◌≡◌, ℕ, List, IfOk, string_bytes};

    /// The words, and the end of the line.
    ghost words: { Self → List ℕ };

    /// The words as a text.
    fn text(self, alloc: Global) -> Result<String, AllocError>
        ensures { IfOk result (λ text. string_bytes text ≡ words self) };
}

impl Words for WorkCause {
    ghost words = { spec.work_cause_words };

    fn text(self, alloc: Global) -> Result<String, AllocError> {
        match self {
            WorkCause::BadRecord => String::from_str(alloc, "not three fields\n"),
            WorkCause::Header => String::from_str(alloc, "header is not task,release,need\n"),
            WorkCause::UnknownTask => String::from_str(alloc, "unknown task\n"),
            WorkCause::BadNumber => String::from_str(alloc, "bad number\n"),
            WorkCause::ZeroNeed => String::from_str(alloc, "need is 0\n"),
            WorkCause::Unsorted => String::from_str(alloc, "release before the last one\n"),
            WorkCause::TooSoon { next } => format!(in alloc; "too soon, next {next}\n"),
            WorkCause::TooMany => String::from_str(alloc, "more than 1000000 rows\n"),
        }
    }
}

impl Words for TraceCause {
    ghost words = { spec.trace_cause_words };

    fn text(self, alloc: Global) -> Result<String, AllocError> {
        let words = match self {
            TraceCause::BadRecord => "not five fields\n",
            TraceCause::Header => "header is of no trace version\n",
            TraceCause::UnknownEvent => "unknown event\n",
            TraceCause::UnknownTask => "unknown task\n",
            TraceCause::BadNumber => "bad number\n",
            TraceCause::WrongTick => "wrong tick\n",
            TraceCause::TooMany => "more than 2000000 rows\n",
            TraceCause::BadLength => "bad length\n",
            TraceCause::TooManyTicks => "more than 100000000 ticks\n",
            TraceCause::NotSix => "not six fields\n",
        };
        String::from_str(alloc, words)
    }
}

impl Words for DemandCause {
    ghost words = { spec.demand_cause_words };

    fn text(self, alloc: Global) -> Result<String, AllocError> {
        let words = match self {
            DemandCause::Header => "header is not task,period,deadline,budget\n",
            DemandCause::Empty => "no tasks\n",
            DemandCause::TooMany => "more than 128 tasks\n",
            DemandCause::BadRecord => "not four fields\n",
            DemandCause::BadName => "bad name\n",
            DemandCause::SameName => "name used before\n",
            DemandCause::BadNumber => "bad number\n",
            DemandCause::ZeroNumber => "number is 0\n",
            DemandCause::DeadlineOrder => "deadline after period\n",
            DemandCause::Range => "periods out of range\n",
        };
        String::from_str(alloc, words)
    }
}
