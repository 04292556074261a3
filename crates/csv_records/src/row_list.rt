//! The rows of a text, kept in a list.
use crate::row_reader::RowReader;
use crate::takes_rows::TakesRows;
use csv::ByteRecord;
use std::alloc::AllocError;

// Takes the rows into a list, from which the reader of a record sees the rows before it.
#[derive(Drop)]
pub struct RowList<'a, M> {
    pub reader: &'a M,
}

impl<'a, M: RowReader> TakesRows for RowList<'a, M> {
    ghost use Rattle.std.specs.Prelude.{◌≡◌, ◌≤◌, List, length};
    ghost use Rattle.std.proofs.Common.{subst};

    type Row = M::Row;

    type Cause = M::Cause;

    type State = M::State;

    type Rows = Vec<M::Row>;

    ghost header = { λ list. M.header list.reader.now };

    ghost means = { λ list. M.means list.reader.now };

    ghost handed = { λ list rows taken. rows.items ≡ taken };

    ghost took = { λ list state rows taken. (rows.items ≡ taken) × M.is_state_of list.reader.now state rows.items };

    fn header(&self, fields: &ByteRecord) -> Option<M::State> {
        self.reader.header(fields)
    }

    fn row(
        &self,
        state: &mut M::State,
        rows: &mut Vec<M::Row>,
        fields: &ByteRecord,
    ) -> Result<Option<M::Cause>, AllocError> {
        match self.reader.row(state, rows.as_slice(), fields) {
            Ok(row) => {
                rows.push(row)?;
                Ok(None)
            }
            Err(cause) => Ok(Some(cause)),
        }
    }

    fn too_wide(&self, state: &M::State, rows: &Vec<M::Row>) -> M::Cause {
        self.reader.too_wide(state, rows.as_slice())
    }

    ghost narrow = { λ list fields wide. M.narrow list.reader.now fields wide };

    ghost hands = { λ list state rows taken took. took.0 };

    ghost few = { λ list state rows taken took. subst (λ (r : List M.Row). length r ≤ 2000000) took.0 (M.few list.reader.now state rows.items took.1) };
}
