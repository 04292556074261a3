//! The records of a text; the first one with too many fields is reported and not read.
ghost use Rattle.std.specs.Prelude.{◌≡◌, ◌∷◌, [], Ok, OnErr};
ghost use Rattle.csv.specs.Reading.{default_config, records, strip_bom};
ghost use Rattle.csv.specs.Records.{fields_of};
ghost use Rattle.csv_records.specs.Width.{StartsWide};
ghost use Rattle.csv_records.specs.declared.records.Next.TheVariants as next;

use crate::all::AllRecords;
use crate::width::narrow_records;
use csv::ByteRecord;
use std::alloc::{AllocError, Global};
use std::marker::Model;

/// What a text has next.
#[derive(Clone, Copy, Debug, PartialEq, Eq)]
pub enum Next {
    /// A record, which was read.
    Record,
    /// A record with more than 6 fields. None of them is stored.
    Wide,
    /// The end of the text.
    End,
}

/// The records of a text that are still to be read, as csv's reader returns them: fields between commas, with double
/// quotes. In contracts they are a list of records, each a list of fields.
#[derive(Drop)]
pub struct Records<'a> {
    all: AllRecords<'a>,
    // How many records stand before the first one with too many fields, if that is known.
    narrow: Option<usize>,
}

impl<'a> Model for Records<'a> {
    ghost use Rattle.std.specs.Prelude.{List, ℕ};
    ghost use Rattle.csv_records.specs.Width.{KnowsWide};

    ghost Value = { List (List (List ℕ)) };

    ghost view = { λ a. a.all };

    ghost invariant = { λ a. KnowsWide a.narrow a.all };
}

impl<'a> Records<'a> {
    /// All records of a text, without a byte order mark at its start.
    pub fn new(alloc: Global, text: &'a [u8]) -> Records<'a>
        ensures { result ≡ records default_config (strip_bom text.now) }
    {
        Records {
            all: AllRecords::new(alloc, text),
            narrow: narrow_records(text),
        }
    }

    /// Reads the next record into `fields`, if it has at most 6 fields. In a long text a wider record is reported
    /// before it is read, and again by each later call; otherwise it is read too. If an allocation fails, no records
    /// are left.
    // Inlined: the call would cost about as much as reading a short record.
    #[inline(always)]
    pub fn next(&mut self, fields: &mut ByteRecord) -> Result<Next, AllocError>
        ensures record { result ≡ Ok next.Record → self.old ≡ fields_of fields.new ∷ self.new }
        ensures wide { result ≡ Ok next.Wide → StartsWide self.old }
        ensures wide_stays { result ≡ Ok next.Wide → self.new ≡ self.old }
        ensures end { result ≡ Ok next.End → self.old ≡ [] }
        ensures ended { result ≡ Ok next.End → self.new ≡ [] }
        ensures memory { OnErr result (self.new ≡ []) }
    {
        // A single test, which mostly fails: mostly no wide record is known.
        if let Some(count) = self.narrow {
            if count == 0 {
                return Ok(Next::Wide);
            }
            self.narrow = Some(count - 1);
        }
        match self.all.next(fields) {
            Ok(true) => Ok(Next::Record),
            Ok(false) => {
                self.narrow = None;
                Ok(Next::End)
            }
            Err(_) => {
                self.narrow = None;
                Err(AllocError)
            }
        }
    }
}
