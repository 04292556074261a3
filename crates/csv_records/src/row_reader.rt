//! The trait that says what the records of a text mean.
use csv::ByteRecord;

/// What the records of a text mean: the first is a header, and each other record is a row, read after the rows before
/// it, or is refused.
pub trait RowReader {
    ghost use Rattle.std.specs.Prelude.{◌≡◌, ◌<◌, ◌≤◌, ◌++◌, ◌∷◌, [], ℕ, List, length, Option, None, Some, IfNone, IfSome, Err, OnOk, IfOk};
    ghost use Rattle.csv.specs.Records.{fields_of};
    ghost use Rattle.csv_records.specs.Rows.{Means};
    ghost use Rattle.csv_records.specs.Width.{most_fields};

    /// A row.
    type Row: Drop;

    /// Why a record is refused.
    type Cause: Drop;

    /// What the reader keeps of the header and of the rows so far.
    type State: Drop;

    /// What the records after this one mean, if it is a header.
    ghost header: { Self → List (List ℕ) → Option (Means Self.Row Self.Cause) };

    /// What records mean, by what the reader keeps.
    ghost means: { Self → Self.State → Means Self.Row Self.Cause };

    /// Whether the reader keeps this of these rows.
    ghost is_state_of: { Self → Self.State → List Self.Row → Type 0 };

    /// What the reader keeps of a header, before the first row; `None` if the record is not a header.
    fn header(&self, fields: &ByteRecord) -> Option<Self::State>
        ensures none { IfNone result (header self.now (fields_of fields.now) ≡ None) }
        ensures some { IfSome result (λ state. header self.now (fields_of fields.now) ≡ Some (means self.now state)) }
        ensures state { IfSome result (λ state. is_state_of self.now state []) };

    /// The row that a record means after these rows, or why it is refused. A row returned counts as one of the rows
    /// from then on.
    fn row(
        &self,
        state: &mut Self::State,
        before: &[Self::Row],
        fields: &ByteRecord,
    ) -> Result<Self::Row, Self::Cause>
        requires { is_state_of self.now state.old before.now }
        ensures row { result ≡ means self.now state.old before.now (fields_of fields.now) }
        ensures same { OnOk result (means self.now state.new ≡ means self.now state.old) }
        ensures state { IfOk result (λ row. is_state_of self.now state.new (before.now ++ row ∷ [])) };

    /// Why a record with more than 6 fields is refused after these rows, whatever its fields are.
    fn too_wide(&self, state: &Self::State, before: &[Self::Row]) -> Self::Cause
        requires { is_state_of self.now state.now before.now }
        ensures { (fields : List (List ℕ)) → most_fields < length fields → means self.now state.now before.now fields ≡ Err result };

    /// A header has at most 6 fields.
    ghost narrow: { (reader : Self) (fields : List (List ℕ)) → most_fields < length fields → header reader fields ≡ None };

    /// There are at most 2,000,000 rows, so that the number of a line has 32 bits.
    ghost few: { (reader : Self) (state : Self.State) (rows : List Self.Row) → is_state_of reader state rows → length rows ≤ 2000000 };
}
