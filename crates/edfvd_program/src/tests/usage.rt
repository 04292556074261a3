//! Words of no command.
use super::CONTROL;
use super::outside::{Faults, NO_FAULTS, Outside, ended};
use command_line::usage_line;
use executive::QuietGate;
use std::alloc::Global;
use std::sync::Wait;
use std::thread::Threads;

static CASES: &[&[&str]] = &[
    &[],
    &["check"],
    &["check", "tasks.toml", "tasks.toml"],
    &["Check", "tasks.toml"],
    &["run", "tasks.toml", "work.csv"],
    &["run", "tasks.toml", "work.csv", "0"],
    &["run", "tasks.toml", "work.csv", "1000001"],
    &["run", "tasks.toml", "work.csv", "18446744073709551617"],
    &["run", "tasks.toml", "work.csv", "1e3"],
    &["run", "tasks.toml", "work.csv", ""],
    &["judge", "tasks.toml"],
    &["judge", "tasks.toml", "trace.csv", "1"],
    &["judge", "tasks.toml", "trace.csv", "0", "1"],
    &["judge", "tasks.toml", "trace.csv", "2", "1"],
    &["judge", "tasks.toml", "trace.csv", "1", "4294967296"],
    &["judge", "tasks.toml", "trace.csv", "1", "1", "1"],
    &["Judge", "tasks.toml", "trace.csv"],
    &["chart", "tasks.toml"],
    &["soak", "7", "1", "100"],
    &["soak", "7", "33", "100"],
    &["soak", "7", "8", "0"],
    &["soak", "18446744073709551616", "8", "100"],
    &["soak", "7", "8"],
    &["report", "tasks.toml", "trace.csv", "1"],
    &["migrate", "tasks.toml"],
    &["live", "tasks.toml"],
    &["live", "tasks.toml", "0"],
    &["live", "tasks.toml", "100001"],
    &["--help"],
    &["partition", "tasks.toml"],
    &["partition", "tasks.toml", "0"],
    &["partition", "tasks.toml", "17"],
    &["partition", "tasks.toml", "2", "2"],
    &["runall", "tasks.toml", "second.csv", "5"],
    &["runall", "tasks.toml", "second.csv", "0", "2"],
    &["runall", "tasks.toml", "second.csv", "1000001", "2"],
    &["runall", "tasks.toml", "second.csv", "5", "17"],
    // The last number of a set is below 2^64 - 1.
    &["accept", "18446744073709551615", "1", "2"],
    &["accept", "1", "0", "8"],
    &["accept", "1", "10001", "8"],
    &["accept", "1", "50", "1"],
    &["accept", "1", "50", "33"],
];

// Whether the words get status 2 and the usage line, where the first fetch would fail.
fn get_the_usage_line<R: Threads + Wait + Sync>(rt: &R, alloc: Global, words: &[&str]) -> bool {
    let outside = Outside {
        faults: Faults {
            fetches: &[1],
            ..NO_FAULTS
        },
        ..Outside::new(CONTROL, "")
    };
    let Ok(line) = usage_line(alloc) else {
        return false;
    };
    match ended(rt, alloc, words, &outside, &QuietGate) {
        Some((status, written)) => status == 2 && written.as_slice() == line.as_slice(),
        None => false,
    }
}

#[test]
fn words_of_no_form_get_the_usage_line(rt: HostRuntime) {
    for (index, words) in CASES.iter().enumerate() {
        assert!(rt; get_the_usage_line(&rt, rt.alloc(), words), "{index}");
    }
}
