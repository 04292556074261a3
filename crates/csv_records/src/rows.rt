//! The rows of a text, by what its records mean.
ghost use Rattle.std.specs.Prelude.{[], IfOk, IfErr};
ghost use Rattle.csv_records.specs.Reads.{Reads, Takes, TakesBefore};
ghost use Rattle.csv_records.specs.Rows.{EachIsRead, accepted_from, accepted_in, rows_from, rows_in};

use crate::fault::Fault;
use crate::records::{Next, Records};
use crate::row_list::RowList;
use crate::row_reader::RowReader;
use crate::takes_rows::TakesRows;
use csv::ByteRecord;
use std::alloc::Global;

/// Reads the rows of a text, with what the reader keeps of them, or reports its first refusal. The first record is the
/// header; if it is absent or is not a header, line 1 is refused for the cause `no_header`.
#[tactic(auto, using(crate::proofs::RowLemmas::each_is_read))]
pub fn read_rows<M: RowReader>(
    alloc: Global,
    text: &[u8],
    no_header: M::Cause,
    reader: &M,
) -> Result<(Vec<M::Row>, M::State), Fault<M::Cause>>
    ensures rows { Reads (λ read. read.0.items) result (rows_in (M.header reader.now) no_header text.now) }
    ensures state { IfOk result (λ read. M.is_state_of reader.now read.1 read.0.items) }

    // `rows_in` computes; this clause says that the records after the header are read one by one.
    ensures law { EachIsRead M.Row M.Cause }
{
    let mut rows = Vec::new(alloc);
    match take_rows(alloc, text, no_header, &RowList { reader }, &mut rows) {
        Ok(state) => Ok((rows, state)),
        Err(fault) => Err(fault),
    }
}

/// Reads the rows of a text and hands over one after another, or reports the text's first refusal. The first record is
/// the header; if it is absent or is not a header, line 1 is refused for the cause `no_header`. If the text is refused, the
/// rows before the refusal were handed over, and no others; if memory runs out, no clause says which.
pub fn take_rows<T: TakesRows>(
    alloc: Global,
    text: &[u8],
    no_header: T::Cause,
    taker: &T,
    rows: &mut T::Rows,
) -> Result<T::State, Fault<T::Cause>>
    requires { T.handed taker.now rows.old [] }
    ensures rows { Takes (λ state. T.took taker.now state rows.new) result (rows_in (T.header taker.now) no_header text.now) }
    ensures before { IfErr result (TakesBefore (T.handed taker.now rows.new) (accepted_in (T.header taker.now) text.now)) }
{
    let mut records = Records::new(alloc, text);
    // One record buffer for all records, so that a row allocates nothing here.
    let mut fields = ByteRecord::new(alloc);
    let header = match records.next(&mut fields)? {
        Next::Record => taker.header(&fields),
        Next::Wide | Next::End => None,
    };
    match header {
        Some(state) => take_after_header(&mut records, &mut fields, taker, state, rows),
        None => Err(Fault::At {
            line: 1,
            cause: no_header,
        }),
    }
}

// Reads the rows after the header.
fn take_after_header<T: TakesRows>(
    records: &mut Records,
    fields: &mut ByteRecord,
    taker: &T,
    state: T::State,
    rows: &mut T::Rows,
) -> Result<T::State, Fault<T::Cause>>
    requires { T.took taker.now state rows.old [] }
    ensures rows { Takes (λ state. T.took taker.now state rows.new) result (rows_from (T.means taker.now state) records.old []) }
    ensures before { IfErr result (TakesBefore (T.handed taker.now rows.new) (accepted_from (T.means taker.now state) records.old [])) }
{
    let mut state = state;
    let mut line: u32 = 2;
    'records: loop {
        match records.next(fields)? {
            Next::End => return Ok(state),
            Next::Wide => {
                let cause = taker.too_wide(&state, rows);
                return Err(Fault::At { line, cause });
            }
            Next::Record => match taker.row(&mut state, rows, fields)? {
                None => line += 1,
                Some(cause) => return Err(Fault::At { line, cause }),
            },
        }
    }
}
