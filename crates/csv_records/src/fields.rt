//! The fields of a record, and the words that they may be.
ghost use Rattle.std.specs.Prelude.{◌≡◌};
ghost use Rattle.std.specs.Str.{bytes_eq};
ghost use Rattle.csv.specs.Records.{fields_of};
ghost use Rattle.csv_records.specs.Fields as spec;

use csv::ByteRecord;

/// The field in this column, from 0; empty if there is none.
#[inline(always)]
pub fn field(fields: &ByteRecord, column: usize) -> &[u8]
    ensures { result.now ≡ spec.field (fields_of fields.now) column }
{
    match fields.get(column) {
        Some(field) => field,
        None => b"",
    }
}

/// Whether the field is this word. If both have four bytes, they are compared as one number.
#[inline(always)]
pub fn is(field: &[u8], word: &str) -> bool
    ensures { result ≡ bytes_eq field.now word.now }
{
    match (
        <[u8; 4]>::try_from(field),
        <[u8; 4]>::try_from(word.as_bytes()),
    ) {
        (Ok(field), Ok(word)) => are_same(field, word),
        _ => is_long(field, word),
    }
}

// Whether the four bytes are equal, compared as one number.
#[inline(always)]
fn are_same(bytes: [u8; 4], others: [u8; 4]) -> bool
    ensures { result ≡ bytes_eq bytes others }
{
    u32::from_le_bytes(bytes) == u32::from_le_bytes(others)
}

// A word is short and its length is known here, so `starts_with` becomes a few inlined comparisons, while `==` is a
// call.
#[inline(always)]
fn is_long(field: &[u8], word: &str) -> bool
    ensures { result ≡ bytes_eq field.now word.now }
{
    field.len() == word.len() && field.starts_with(word.as_bytes())
}
