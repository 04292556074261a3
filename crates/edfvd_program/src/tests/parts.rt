//! Texts of many like lines.
use super::outside::{Outside, ends};
use executive::{Gate, QuietGate};
use std::alloc::{AllocError, Global};
use std::sync::Wait;
use std::thread::Threads;

/// A piece of a text: it stands once, or once for each number from the first one up to the last one, which is left out. There
/// `$` stands for the number, and `@` for the one before it.
#[derive(Clone, Copy)]
pub enum Part {
    Once(&'static str),
    Each(&'static str, u32, u32),
}

fn push_line(text: &mut String, line: &str, number: u32) -> Result<(), AllocError> {
    for c in line.chars() {
        match c {
            '$' => write!(text, "{number}")?,
            '@' => write!(text, "{}", number.saturating_sub(1))?,
            c => text.push(c)?,
        }
    }
    Ok(())
}

fn push_part(text: &mut String, part: Part) -> Result<(), AllocError> {
    match part {
        Part::Once(piece) => text.push_str(piece)?,
        Part::Each(line, first, end) => {
            for number in first..end {
                push_line(text, line, number)?;
            }
        }
    }
    Ok(())
}

pub fn push_parts(text: &mut String, parts: &[Part]) -> Result<(), AllocError> {
    for part in parts {
        push_part(text, *part)?;
    }
    Ok(())
}

pub fn text_of(alloc: Global, parts: &[Part]) -> Result<String, AllocError> {
    let mut text = String::new(alloc);
    push_parts(&mut text, parts)?;
    Ok(text)
}

/// The words, the two files, and the status and the text that they give.
pub type LongCase = (
    &'static [&'static str],
    &'static [Part],
    &'static [Part],
    u8,
    &'static [Part],
);

/// Whether the case ends as it says. The threads call the gate.
pub fn long_ends_as<R: Threads + Wait + Sync, G: Gate + Sync>(
    rt: &R,
    alloc: Global,
    case: &LongCase,
    gate: &G,
) -> Result<bool, AllocError> {
    let (words, tasks, second, status, text) = *case;
    let tasks = text_of(alloc, tasks)?;
    let second = text_of(alloc, second)?;
    let text = text_of(alloc, text)?;
    let outside = Outside::new(&tasks, &second);
    Ok(ends(rt, alloc, words, &outside, gate, status, &text))
}

/// The index of the first case that does not end as it says.
pub fn first_long_wrong<R: Threads + Wait + Sync>(
    rt: &R,
    alloc: Global,
    cases: &[LongCase],
) -> Option<usize> {
    for (index, case) in cases.iter().enumerate() {
        if long_ends_as(rt, alloc, case, &QuietGate) != Ok(true) {
            return Some(index);
        }
    }
    None
}
