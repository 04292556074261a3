//! The trait that says what is done with the records of a text.
use csv::ByteRecord;
use std::alloc::AllocError;

/// What is done with the records of a text: the first is a header, and each other record is a row, which is taken after
/// the rows before it, or is refused. The rows themselves need not be kept.
pub trait TakesRows {
    ghost use Rattle.std.specs.Prelude.{◌≡◌, ◌<◌, ◌≤◌, [], ℕ, List, length, Option, None, Some, IfNone, IfSome, IfOk, Err};
    ghost use Rattle.csv.specs.Records.{fields_of};
    ghost use Rattle.csv_records.specs.Rows.{IsTaken, Means};
    ghost use Rattle.csv_records.specs.Width.{most_fields};

    /// A row.
    type Row;

    /// Why a record is refused.
    type Cause: Drop;

    /// What the reader keeps of the header and of the rows so far.
    type State: Drop;

    /// What the rows are handed to.
    type Rows;

    /// What the records after this one mean, if it is a header.
    ghost header: { Self → List (List ℕ) → Option (Means Self.Row Self.Cause) };

    /// What records mean, by what the reader keeps.
    ghost means: { Self → Self.State → Means Self.Row Self.Cause };

    /// Whether these rows were handed over.
    ghost handed: { Self → Self.Rows → List Self.Row → Type 0 };

    /// Whether these rows were taken, by what the reader keeps of them and by what they were handed to.
    ghost took: { Self → Self.State → Self.Rows → List Self.Row → Type 0 };

    /// What the reader keeps of a header, before the first row; `None` if the record is not a header.
    fn header(&self, fields: &ByteRecord) -> Option<Self::State>
        ensures none { IfNone result (header self.now (fields_of fields.now) ≡ None) }
        ensures some { IfSome result (λ state. header self.now (fields_of fields.now) ≡ Some (means self.now state)) }
        ensures took { IfSome result (λ state. (rows : Self.Rows) → handed self.now rows [] → took self.now state rows []) };

    /// Takes the row that a record means, or returns why the record is refused. A record that is refused hands nothing over.
    /// Fails if an allocation fails.
    fn row(
        &self,
        state: &mut Self::State,
        rows: &mut Self::Rows,
        fields: &ByteRecord,
    ) -> Result<Option<Self::Cause>, AllocError>
        requires { (before : List Self.Row) × took self.now state.old rows.old before }
        ensures row { IfOk result (λ refused. (before : List Self.Row) → took self.now state.old rows.old before → IsTaken (took self.now state.new rows.new) before refused (means self.now state.old before (fields_of fields.now))) }
        ensures refused { IfOk result (λ refused. IfSome refused (λ _. (before : List Self.Row) → took self.now state.old rows.old before → handed self.now rows.new before)) }
        ensures same { IfOk result (λ refused. IfNone refused (means self.now state.new ≡ means self.now state.old)) };

    /// Why a record with more than 6 fields is refused after these rows, whatever its fields are.
    fn too_wide(&self, state: &Self::State, rows: &Self::Rows) -> Self::Cause
        requires { (before : List Self.Row) × took self.now state.now rows.now before }
        ensures { (before : List Self.Row) (fields : List (List ℕ)) → took self.now state.now rows.now before → most_fields < length fields → means self.now state.now before fields ≡ Err result };

    /// A header has at most 6 fields.
    ghost narrow: { (taker : Self) (fields : List (List ℕ)) → most_fields < length fields → header taker fields ≡ None };

    /// Rows that were taken were handed over.
    ghost hands: { (taker : Self) (state : Self.State) (rows : Self.Rows) (taken : List Self.Row) → took taker state rows taken → handed taker rows taken };

    /// There are at most 2,000,000 rows, so that the number of a line has 32 bits.
    ghost few: { (taker : Self) (state : Self.State) (rows : Self.Rows) (taken : List Self.Row) → took taker state rows taken → length taken ≤ 2000000 };
}
