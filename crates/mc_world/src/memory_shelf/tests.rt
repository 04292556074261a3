//! Tests of a shelf in memory.
use super::*;
use crate::tests::fetch_returns;
use std::alloc::AllocError;

// A shelf with one file, and fetches from it: each with its name, its limit and its result.
struct Case {
    shows: &'static str,
    bytes: &'static str,
    fails: &'static [u64],
    fetches: &'static [(&'static str, u32, Result<&'static str, FetchFault>)],
    faults: u64,
}

static CASES: [Case; 3] = [
    Case {
        shows: "it fails at its second fetch alone",
        bytes: "abc",
        fails: &[2],
        fetches: &[
            ("s.toml", 10, Ok("abc")),
            ("s.toml", 10, Err(FetchFault::Failed)),
            ("s.toml", 10, Ok("abc")),
        ],
        faults: 1,
    },
    Case {
        shows: "an absent name is a fault",
        bytes: "abc",
        fails: &[],
        fetches: &[("s", 10, Err(FetchFault::Failed))],
        faults: 1,
    },
    Case {
        shows: "a file may be as long as the limit",
        bytes: "abcd",
        fails: &[],
        fetches: &[
            ("s.toml", 4, Ok("abcd")),
            ("s.toml", 3, Err(FetchFault::TooLong)),
        ],
        faults: 0,
    },
];

fn shelf_with(alloc: Global, bytes: &str, fails: &[u64]) -> Result<MemoryShelf, AllocError> {
    let mut files = Vec::new(alloc);
    files.push((
        String::from_str(alloc, "s.toml")?,
        bytes.as_bytes().to_vec(alloc)?,
    ))?;
    Ok(MemoryShelf::new(alloc, files, fails.to_vec(alloc)?))
}

fn two_files(alloc: Global) -> Result<MemoryShelf, AllocError> {
    let mut files = Vec::new(alloc);
    files.push((String::from_str(alloc, "s")?, b"set".to_vec(alloc)?))?;
    files.push((String::from_str(alloc, "w")?, b"work".to_vec(alloc)?))?;
    Ok(MemoryShelf::new(alloc, files, Vec::new(alloc)))
}

fn is_met(alloc: Global, case: &Case) -> bool {
    match shelf_with(alloc, case.bytes, case.fails) {
        Ok(mut shelf) => serves(&mut shelf, alloc, case),
        Err(_) => false,
    }
}

fn serves(shelf: &mut MemoryShelf, alloc: Global, case: &Case) -> bool {
    for (name, limit, answer) in case.fetches {
        if !fetch_returns(shelf, alloc, name, *limit, *answer) {
            return false;
        }
    }
    shelf.faults == case.faults && shelf.fetches.len() == case.fetches.len()
}

fn keeps_two_files_apart(alloc: Global) -> bool {
    match two_files(alloc) {
        Ok(mut shelf) => {
            fetch_returns(&mut shelf, alloc, "w", 4, Ok("work"))
                && fetch_returns(&mut shelf, alloc, "s", 4, Ok("set"))
        }
        Err(_) => false,
    }
}

#[test]
fn fails_where_listed_and_at_an_absent_name(rt: HostRuntime) {
    for case in &CASES {
        assert!(rt; is_met(rt.alloc(), case), "{}", case.shows);
    }
    assert!(rt; keeps_two_files_apart(rt.alloc()));
}
