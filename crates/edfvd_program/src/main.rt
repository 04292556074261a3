//! edfvd: tests and schedules task sets by EDF with virtual deadlines.
#![tactic(auto)]

ghost use Rattle.std.specs.Prelude.{◌≡◌, length, map, string_bytes, take};
ghost use Rattle.command_line.specs.Form.{form_in, form_of};
ghost use Rattle.edfvd_program.specs.Words.{text_at};

mod edfvd;
#[cfg(test)]
mod tests;

use edfvd::{Call, edfvd};
use executive::QuietGate;
use mc_world::{FileShelf, StdoutSink};
use std::alloc::AllocError;
use std::process::ExitCode;
use std::rt::Env;
use std::{env, io};

fn main(rt: HostRuntime) -> ExitCode {
    let Ok(texts) = texts_of(&rt) else {
        return ExitCode::from(9);
    };
    let words = first_words(&texts);
    let count = texts.len().min(words.len());
    let mut call = Call {
        words: &words[..count],
        shelf: FileShelf::new(&rt),
        out: StdoutSink::new(&rt),
    };
    ExitCode::from(edfvd(&rt, rt.alloc(), &mut call, &QuietGate))
}

// The first six texts, one more than a command has words, with empty ones after the last. If there are more than six, the six
// and all of them have no form.
fn first_words(texts: &[String]) -> [&str; 6]
    ensures form { form_in (take (length texts.now) result) ≡ form_of (map string_bytes texts.now) }
{
    [
        word(texts, 0),
        word(texts, 1),
        word(texts, 2),
        word(texts, 3),
        word(texts, 4),
        word(texts, 5),
    ]
}

fn word(texts: &[String], place: usize) -> &str
    ensures { result.now ≡ text_at texts.now place }
{
    match texts.get(place) {
        Some(text) => text.as_str(),
        None => "",
    }
}

// The words after the program's name. Where they are no text there are none, and that is no form of the command line.
fn texts_of<R: Env + AllocGlobal>(rt: &R) -> Result<Vec<String>, AllocError> {
    match env::args(rt) {
        Ok(args) => args.skip(1).collect(rt.alloc()),
        Err(error) if error.kind() == io::ErrorKind::OutOfMemory => Err(AllocError),
        Err(_) => Ok(Vec::new(rt.alloc())),
    }
}
