//! The first record of a text that has more fields than any record that is read.
ghost use Rattle.std.specs.Prelude.{◌≡◌, ◌<◌, ◌≤◌, ◌+◌, ◌-◌, ◌^◌, ◌∷◌, ℕ, List, true, IfSome, drop, length};
ghost use Rattle.csv.specs.Machine as machine;
ghost use Rattle.csv.specs.Reading.{default_config, records, strip_bom};
ghost use Rattle.csv_records.specs.Width.{StartsWide, CountsFields, csv_state_of, ends_of, has_mark};

use memchr::memchr;

// The most fields of a record that is read: those of the widest header.
pub const MOST_FIELDS: usize = 6;

// A record of this many bytes needs a few MiB at most, however many fields it has.
const FEW_BYTES: usize = 131_072;

// The state of csv's machine with its defaults.
#[derive(Clone, Copy, PartialEq, Eq, Debug)]
pub enum ParserState {
    StartRecord,
    AfterCr,
    StartField,
    InField,
    InQuoted,
    AfterQuote,
}

// What a byte ends.
#[derive(Clone, Copy, PartialEq, Eq, Debug)]
pub enum Ends {
    Nothing,
    Field,
    Record,
}

// What is known after some bytes of a text: how many records ended, how many fields of the current record ended, and
// the parser's state.
#[derive(Clone, Copy, PartialEq, Eq, Debug)]
pub struct FieldCount {
    pub records: usize,
    pub fields: usize,
    pub state: ParserState,
}

// The number of records before the first one with more than `MOST_FIELDS` fields; `None` if each record has few fields
// or few bytes.
pub fn narrow_records(text: &[u8]) -> Option<usize>
    ensures { IfSome result (λ n. StartsWide (drop n (records default_config (strip_bom text.now)))) }
{
    if may_be_wide(text) {
        first_wide(without_mark(text))
    } else {
        None
    }
}

// Whether a record may have many bytes. A text without a quote, and with a line feed in each part of `FEW_BYTES` bytes,
// has none.
fn may_be_wide(text: &[u8]) -> bool {
    if text.len() <= FEW_BYTES {
        return false;
    }
    memchr(b'"', text).is_some()
        || text
            .chunks(FEW_BYTES)
            .any(|part| memchr(b'\n', part).is_none())
}

// The text without a byte order mark at its start.
fn without_mark(text: &[u8]) -> &[u8]
    ensures { result.now ≡ strip_bom text.now }
{
    if has_mark(text) { &text[3..] } else { text }
}

fn has_mark(text: &[u8]) -> bool
    ensures mark { result ≡ has_mark text.now }
    ensures long { result ≡ true → 3 ≤ length text.now }
{
    text.len() >= 3 && text[0] == 0xEF && text[1] == 0xBB && text[2] == 0xBF
}

// The number of records before the first one with more than `MOST_FIELDS` fields, if there is one. Each byte is looked
// at once, and none is stored.
fn first_wide(text: &[u8]) -> Option<usize>
    ensures { IfSome result (λ n. StartsWide (drop n (records default_config text.now))) }
{
    let mut count = FieldCount {
        records: 0,
        fields: 0,
        state: ParserState::StartRecord,
    };
    for b in text {
        count = counted(count, *b);
        if count.fields >= MOST_FIELDS {
            return Some(count.records);
        }
    }
    None
}

// The count after one more byte.
fn counted(count: FieldCount, b: u8) -> FieldCount
    requires fields { count.fields < 6 }
    requires records { count.records < 2 ^ 64 - 1 }
    ensures { (text : List ℕ) (i : ℕ) → drop i text ≡ b ∷ drop (i + 1) text → CountsFields text i count → CountsFields text (i + 1) result }
{
    let (state, ends) = step(count.state, b);
    match ends {
        Ends::Nothing => FieldCount {
            records: count.records,
            fields: count.fields,
            state,
        },
        Ends::Field => FieldCount {
            records: count.records,
            fields: count.fields + 1,
            state,
        },
        Ends::Record => FieldCount {
            records: count.records + 1,
            fields: 0,
            state,
        },
    }
}

// The parser's state after a byte, and what the byte ends.
fn step(state: ParserState, b: u8) -> (ParserState, Ends)
    ensures state { csv_state_of result.0 ≡ (machine.step default_config (csv_state_of state) b).0 }
    ensures ends { result.1 ≡ ends_of (machine.step default_config (csv_state_of state) b).1 }
{
    match state {
        ParserState::StartRecord => start_record(b),
        ParserState::AfterCr => {
            if b == b'\n' {
                (ParserState::StartRecord, Ends::Nothing)
            } else {
                start_record(b)
            }
        }
        ParserState::StartField => start_field(b),
        ParserState::InField => in_field(b),
        ParserState::InQuoted => {
            if b == b'"' {
                (ParserState::AfterQuote, Ends::Nothing)
            } else {
                (ParserState::InQuoted, Ends::Nothing)
            }
        }
        ParserState::AfterQuote => {
            if b == b'"' {
                (ParserState::InQuoted, Ends::Nothing)
            } else {
                in_field(b)
            }
        }
    }
}

fn start_record(b: u8) -> (ParserState, Ends)
    ensures state { csv_state_of result.0 ≡ (machine.start_record default_config b).0 }
    ensures ends { result.1 ≡ ends_of (machine.start_record default_config b).1 }
{
    if b == b'\r' || b == b'\n' {
        (ParserState::StartRecord, Ends::Nothing)
    } else {
        start_field(b)
    }
}

fn start_field(b: u8) -> (ParserState, Ends)
    ensures state { csv_state_of result.0 ≡ (machine.start_field default_config b).0 }
    ensures ends { result.1 ≡ ends_of (machine.start_field default_config b).1 }
{
    if b == b'"' {
        (ParserState::InQuoted, Ends::Nothing)
    } else {
        in_field(b)
    }
}

fn in_field(b: u8) -> (ParserState, Ends)
    ensures state { csv_state_of result.0 ≡ (machine.in_field default_config b).0 }
    ensures ends { result.1 ≡ ends_of (machine.in_field default_config b).1 }
{
    if b == b',' {
        (ParserState::StartField, Ends::Field)
    } else if b == b'\r' {
        (ParserState::AfterCr, Ends::Record)
    } else if b == b'\n' {
        (ParserState::StartRecord, Ends::Record)
    } else {
        (ParserState::InField, Ends::Nothing)
    }
}
