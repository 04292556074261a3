//! Tests of the records of a text.
ghost use Rattle.std.specs.Prelude.{◌==◌, ◌≤◌, nat_lt, nat_le, ◌&&◌, if◌then◌else◌, length, Some, None, Ok, Err};
ghost use Rattle.std.proofs.Common.{arith};
ghost use Rattle.std.proofs.lemmas.Bool.Decides.{nat_tests};

use csv::ByteRecord;
use csv_records::{Next, Records, RowReader, read_rows};
use std::alloc::{AllocError, Global};
use std::test::Fail;

// Whether the record has this number of fields, and these are the first of them.
fn has(record: &ByteRecord, len: usize, first: &[&[u8]]) -> bool {
    for (place, field) in first.iter().enumerate() {
        if record.get(place) != Some(*field) {
            return false;
        }
    }
    record.len() == len
}

// Whether a record comes next with this number of fields, of which these are the first.
fn is_next(records: &mut Records, fields: &mut ByteRecord, len: usize, first: &[&[u8]]) -> bool {
    records.next(fields) == Ok(Next::Record) && has(fields, len, first)
}

#[test]
fn records_are_given_in_order(rt: HostRuntime) {
    let alloc = rt.alloc();
    // A byte order mark, quotes, an empty line, both line ends, and a last record without one.
    let text = b"\xEF\xBB\xBFa,b\n\"c,\"\"d\",\r\n\ne";
    let mut records = Records::new(alloc, text);
    let mut fields = ByteRecord::new(alloc);
    let expected: [&[&[u8]]; 3] = [&[b"a", b"b"], &[b"c,\"d", b""], &[b"e"]];
    for (line, record) in expected.into_iter().enumerate() {
        assert!(rt;
            is_next(&mut records, &mut fields, record.len(), record),
            "{line}"
        );
    }
    assert!(rt; records.next(&mut fields) == Ok(Next::End));
}

// A record of two fields, the first of them with seven commas, two quotes and a line feed; then six fields; then seven.
fn long_text(alloc: Global) -> Result<Vec<u8>, AllocError> {
    let mut text = Vec::new(alloc);
    text.extend_from_slice(b"\xEF\xBB\xBF")?;
    for _ in 0..10_000u32 {
        text.extend_from_slice(b"\"a,,,\"\",,\n,,\"\"\",b\r\n")?;
    }
    text.extend_from_slice(b"1,2,3,4,5,\"6\"\n\"1\",2,3,4,5,6,7\n8\n")?;
    Ok(text)
}

// How many steps through the long text give what they should, up to the first that does not: its 10,001 records, and
// the wide one twice.
fn right_steps(records: &mut Records, fields: &mut ByteRecord) -> u32 {
    for step in 0..10_000u32 {
        if !is_next(records, fields, 2, &[b"a,,,\",,\n,,\""]) {
            return step;
        }
    }
    if !is_next(records, fields, 6, &[]) {
        return 10_000;
    }
    for step in 10_001..10_003u32 {
        if records.next(fields) != Ok(Next::Wide) {
            return step;
        }
    }
    10_003
}

#[test]
fn a_wide_record_of_a_long_text_is_reported_and_not_read(rt: HostRuntime) -> Result<(), Fail> {
    let alloc = rt.alloc();
    let text = long_text(alloc)?;
    let mut records = Records::new(alloc, &text);
    let mut fields = ByteRecord::new(alloc);
    let steps = right_steps(&mut records, &mut fields);
    assert_eq!(rt; steps, 10_003);
    Ok(())
}

// A header of one field, and at most three records after it, of one or two fields each. A row is its number of fields,
// and the cause of a refusal is the number of rows before it.
#[derive(Drop)]
struct Widths;

impl RowReader for Widths {
    type Row = usize;

    type Cause = usize;

    type State = ();

    ghost header = { λ widths fields. if length fields == 1
        then Some (λ before fields. if nat_lt (length before) 3 && nat_le (length fields) 2 then Ok (length fields) else Err (length before))
        else None };

    ghost means = { λ widths state before fields. if nat_lt (length before) 3 && nat_le (length fields) 2 then Ok (length fields) else Err (length before) };

    ghost is_state_of = { λ widths state rows. length rows ≤ 3 };

    fn header(&self, fields: &ByteRecord) -> Option<()> {
        if fields.len() == 1 { Some(()) } else { None }
    }

    fn row(&self, _: &mut (), before: &[usize], fields: &ByteRecord) -> Result<usize, usize> {
        if before.len() < 3 && fields.len() <= 2 {
            Ok(fields.len())
        } else {
            Err(before.len())
        }
    }

    fn too_wide(&self, _: &(), before: &[usize]) -> usize {
        before.len()
    }

    ghost narrow = { λ widths fields wide. Prim.grind (arith, nat_tests) };

    ghost few = { λ widths state rows three. Prim.omega (arith, three) };
}

// Whether reading the text gives these rows, or this refusal.
fn is_read_as(alloc: Global, text: &str, expected: &str) -> Result<bool, AllocError> {
    let got = match read_rows(alloc, text.as_bytes(), 9, &Widths) {
        Ok((rows, _)) => format!(in alloc; "{rows:?}")?,
        Err(fault) => format!(in alloc; "{fault}")?,
    };
    Ok(got.as_str() == expected)
}

static TEXTS: [(&str, &str); 7] = [
    ("", "line 1: 9"),
    ("a,b\nc\n", "line 1: 9"),
    ("h", "[]"),
    ("\u{feff}h\n\n\"a,\n\"\r\nb,c\n", "[1, 2]"),
    ("h\na\nb\nc\n", "[1, 1, 1]"),
    ("h\na\n1,2,3\nb\n", "line 3: 1"),
    ("h\na\nb\nc\nd\n1,2,3\n", "line 5: 3"),
];

#[test]
fn a_text_is_read_as_its_rows_or_its_first_refusal(rt: HostRuntime) -> Result<(), Fail> {
    for (text, expected) in &TEXTS {
        assert!(rt; is_read_as(rt.alloc(), text, expected)?, "{text}");
    }
    Ok(())
}
