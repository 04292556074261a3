//! All records of a text, however wide, one after another.
ghost use Rattle.std.specs.Prelude.{◌≡◌, ◌∷◌, [], true, false, Ok, OnErr};
ghost use Rattle.csv.specs.Reading.{default_config, error_kind, records, strip_bom};
ghost use Rattle.csv.specs.Records.{fields_of};
ghost use Rattle.csv_records.specs.Left.{IsOfReader};

use csv::{ByteRecord, Error, ErrorKind, Reader, ReaderBuilder};
use std::alloc::{AllocError, Global};
use std::marker::Model;

// The records of a text that are still to be read. In contracts they are a list of records, each a list of fields.
#[derive(Drop)]
pub struct AllRecords<'a> {
    reader: Reader<&'a [u8]>,
    is_dropped: bool,
}

impl<'a> Model for AllRecords<'a> {
    ghost use Rattle.std.specs.Prelude.{List, ℕ};
    ghost use Rattle.csv_records.specs.Left.{records_left, ReadsText};

    ghost Value = { List (List (List ℕ)) };

    ghost view = { λ a. records_left a.is_dropped a.reader };

    ghost invariant = { λ a. ReadsText a.is_dropped a.reader };
}

impl<'a> AllRecords<'a> {
    // All records of a text, without a byte order mark at its start.
    pub fn new(alloc: Global, text: &'a [u8]) -> AllRecords<'a>
        ensures { result ≡ records default_config (strip_bom text.now) }
    {
        let reader = ReaderBuilder::new()
            .has_headers(false)
            .flexible(true)
            .from_reader(alloc, text);
        AllRecords {
            reader,
            is_dropped: false,
        }
    }

    // Reads the next record into `fields`; returns `false` if none is left. If an allocation fails, no records are
    // left.
    pub fn next(&mut self, fields: &mut ByteRecord) -> Result<bool, AllocError>
        ensures record { result ≡ Ok true → self.old ≡ fields_of fields.new ∷ self.new }
        ensures none { result ≡ Ok false → self.old ≡ [] }
        ensures ended { result ≡ Ok false → self.new ≡ [] }
        ensures memory { OnErr result (self.new ≡ []) }
    {
        if self.is_dropped {
            return Ok(false);
        }
        match self.reader.read_byte_record(fields) {
            Ok(true) => Ok(true),
            Ok(false) => {
                self.is_dropped = true;
                Ok(false)
            }
            Err(error) => {
                self.is_dropped = true;
                Err(out_of_memory(&error))
            }
        }
    }
}

// Each error of reading bytes in memory, with records of any lengths, is a failed allocation. A slice's reader cannot
// fail otherwise, but none of its clauses says so.
fn out_of_memory(error: &Error) -> AllocError
    requires { IsOfReader (error_kind error.now) }
{
    match error.kind() {
        ErrorKind::OutOfMemory | ErrorKind::Io(_) => AllocError,
        _ => unreachable!(),
    }
}
