//! Files that cannot be read, and writes that fail.
use super::outside::{Faults, NO_FAULTS, Outside, calm_status, ends};
use super::{
    CHECK, CONTROL, CONTROL_TEXT, HEADER, JUDGE, LONG_PERIODS, LOW_FIRST, OVERLOADED, OVERRUN_WORK,
    PLANT, PLANT_WORK, RUN_ALL, UNDER_HALF, UNDER_ONE,
};
use crate::edfvd::{Call, edfvd};
use executive::QuietGate;
use mc_world::{CalmSink, FetchFault, Shelf};
use std::alloc::Global;

const RUN: &[&str] = &["run", "tasks.toml", "second.csv", "12"];

const ONE_TICK: &[&str] = &["run", "tasks.toml", "second.csv", "1"];

const NO_WORK: &str = "task,release,need\n";

const NO_FIRST: Faults<'static> = Faults {
    fetches: &[1],
    ..NO_FAULTS
};

const NO_SECOND: Faults<'static> = Faults {
    fetches: &[2],
    ..NO_FAULTS
};

const NO_WRITE: Faults<'static> = Faults {
    writes: &[1],
    ..NO_FAULTS
};

// The words, the two files, what goes wrong, and the status and the text.
type FaultCase = (
    &'static [&'static str],
    &'static str,
    &'static str,
    Faults<'static>,
    u8,
    &'static str,
);

static CASES: &[FaultCase] = &[
    (CHECK, CONTROL, "", NO_FIRST, 7, "read fault on file 1\n"),
    (
        &["check", "absent.toml"],
        CONTROL,
        "",
        NO_FAULTS,
        7,
        "read fault on file 1\n",
    ),
    (
        JUDGE,
        CONTROL,
        HEADER,
        NO_FIRST,
        7,
        "read fault on file 1\n",
    ),
    (
        UNDER_HALF,
        CONTROL,
        HEADER,
        NO_SECOND,
        7,
        "read fault on file 2\n",
    ),
    (
        UNDER_ONE,
        CONTROL,
        LOW_FIRST,
        NO_SECOND,
        7,
        "read fault on file 2\n",
    ),
    (
        ONE_TICK,
        CONTROL,
        NO_WORK,
        NO_FIRST,
        7,
        "read fault on file 1\n",
    ),
    (
        ONE_TICK,
        CONTROL,
        NO_WORK,
        NO_SECOND,
        7,
        "read fault on file 2\n",
    ),
    (
        RUN_ALL,
        PLANT,
        PLANT_WORK,
        NO_SECOND,
        7,
        "read fault on file 2\n",
    ),
    // The second file is not asked for.
    (CHECK, CONTROL, "", NO_SECOND, 0, CONTROL_TEXT),
    (
        JUDGE,
        OVERLOADED,
        HEADER,
        NO_SECOND,
        1,
        "not admitted: U_LL 1/2 U_HL 1/4 U_HH 1/1\n",
    ),
    (
        JUDGE,
        LONG_PERIODS,
        HEADER,
        NO_SECOND,
        3,
        "task file: task 2: periods out of range\n",
    ),
    (
        ONE_TICK,
        "task = [{name='a', level='low', period=1, low=2}]",
        NO_WORK,
        NO_SECOND,
        1,
        "not admitted: U_LL 2/1 U_HL 0/1 U_HH 0/1\n",
    ),
    (
        &["runall", "tasks.toml", "second.csv", "5", "1"],
        PLANT,
        PLANT_WORK,
        NO_SECOND,
        12,
        "not partitioned: task log fits on none of 1\n",
    ),
    // A write fails or takes nothing.
    (CHECK, OVERLOADED, "", NO_WRITE, 8, ""),
    (
        RUN,
        CONTROL,
        OVERRUN_WORK,
        Faults {
            fetches: &[2],
            ..NO_WRITE
        },
        8,
        "",
    ),
    (
        CHECK,
        CONTROL,
        "",
        Faults {
            writes: &[2],
            most: 8,
            ..NO_FAULTS
        },
        8,
        "tasks 2\n",
    ),
    (
        CHECK,
        CONTROL,
        "",
        Faults {
            stops: &[2],
            most: 8,
            ..NO_FAULTS
        },
        8,
        "tasks 2\n",
    ),
    // A write that both fails and is to take nothing fails, and no write comes after a fault.
    (
        CHECK,
        CONTROL,
        "",
        Faults {
            writes: &[3],
            stops: &[3],
            most: 8,
            ..NO_FAULTS
        },
        8,
        "tasks 2\nU_LL 1/2",
    ),
    // The fetch and the write after the last one are never made.
    (
        CHECK,
        CONTROL,
        "",
        Faults {
            fetches: &[2],
            writes: &[3],
            stops: &[3],
            most: 27,
        },
        0,
        CONTROL_TEXT,
    ),
];

#[test]
fn each_fault_has_its_status_and_keeps_what_was_written(rt: HostRuntime) {
    for (index, (words, tasks, second, faults, status, text)) in CASES.iter().enumerate() {
        let outside = Outside {
            tasks,
            second,
            faults: *faults,
        };
        assert!(rt;
            ends(&rt, rt.alloc(), words, &outside, &QuietGate, *status, text),
            "{index}"
        );
    }
}

#[test]
fn a_sink_of_single_bytes_keeps_those_before_the_fault(rt: HostRuntime) {
    for done in 0..54usize {
        let next = [done as u64 + 1];
        let fails = Faults {
            writes: &next,
            most: 1,
            ..NO_FAULTS
        };
        let stops = Faults {
            stops: &next,
            most: 1,
            ..NO_FAULTS
        };
        let text = CONTROL_TEXT.get(..done).unwrap_or(CONTROL_TEXT);
        for faults in [fails, stops] {
            let outside = Outside {
                faults,
                ..Outside::new(CONTROL, "")
            };
            assert!(rt;
                ends(&rt, rt.alloc(), CHECK, &outside, &QuietGate, 8, text),
                "{done}"
            );
        }
    }
}

// A name that the shelf lacks holds no bytes: as a task file it has no tasks, as a list of work no header.
static CALM_CASES: &[(&[&str], u8)] = &[
    (CHECK, 0),
    (RUN, 0),
    (&["check", "absent.toml"], 3),
    (&["run", "tasks.toml", "absent.csv", "12"], 4),
];

#[test]
fn nothing_fails_over_a_calm_shelf_and_a_calm_sink(rt: HostRuntime) {
    let outside = Outside::new(CONTROL, OVERRUN_WORK);
    for (words, status) in CALM_CASES {
        let ended = calm_status(&rt, rt.alloc(), words, &outside);
        assert!(rt; ended == Some(*status), "{words:?}");
    }
}

// A shelf on which each fetch runs out of memory.
#[derive(Drop)]
struct NoMemory;

impl Shelf for NoMemory {
    ghost use Rattle.std.specs.Prelude.{None, ◌^◌, ◌-◌};

    // Its count of such fetches is the greatest of its type.
    ghost state = { λ s. record { holds = None; fetches = None; faults = 0; memory_faults = 2 ^ 64 - 1; bytes_read = 0 } };

    fn fetch(&mut self, _: Global, _: &str, _: usize) -> Result<Vec<u8>, FetchFault> {
        Err(FetchFault::Memory)
    }
}

#[test]
fn a_fetch_that_runs_out_of_memory_has_a_status_of_its_own(rt: HostRuntime) {
    let mut call = Call {
        words: CHECK,
        shelf: NoMemory,
        out: CalmSink::new(),
    };
    assert_eq!(rt; edfvd(&rt, rt.alloc(), &mut call, &QuietGate), 9);
}
