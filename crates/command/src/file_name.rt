//! The name of a file.
ghost use Rattle.std.specs.Prelude.{◌≡◌};

use std::marker::Model;

/// The name of a file, which is a word of the command line. Clauses see its bytes.
#[derive(Drop)]
pub struct FileName<'a> {
    text: &'a str,
}

impl<'a> Model for FileName<'a> {
    ghost use Rattle.std.specs.Prelude.{List, ℕ};

    ghost Value = { List ℕ };

    ghost view = { λ name. name.text.now };
}

impl<'a> FileName<'a> {
    /// This word as a file's name.
    pub fn new(text: &'a str) -> FileName<'a>
        ensures { result ≡ text.entry.now }
    {
        FileName { text }
    }

    /// The name.
    pub fn text(&self) -> &'a str
        ensures { result.now ≡ self.now }
    {
        self.text
    }
}
