//! Tests of demand files, the processor-demand test and counterexamples.
use demand_test::Fit::{Past, Within};
use demand_test::{
    Demand, DemandCause, DemandFault, DemandSet, Fit, check_demand, counter, read_demands,
};
use mc_task::{Name, TaskNo};
use std::alloc::{AllocError, Global};
use std::test::Fail;

const HEADER: &str = "task,period,deadline,budget\n";

// The set of these records.
fn set_of(alloc: Global, records: &str) -> Result<DemandSet, Fail> {
    let text = format!(in alloc; "{HEADER}{records}")?;
    Ok(read_demands(alloc, text.as_bytes())?)
}

macro_rules! past {
    ($length:expr, $demand:expr) => {
        Past {
            length: $length,
            demand: $demand,
        }
    };
}

// Sets of tasks with a name, a period, a deadline and a budget. The expected lengths, and what is asked for in them,
// were added up by hand and by model.py.
static SETS: [(&str, Fit); 18] = [
    ("a,4,2,1\nb,6,3,2\n", Within { length: 12 }),
    ("a,4,2,1\nb,6,3,3\n", past!(3, 4)),
    // Buttazzo, Hard Real-Time Computing Systems, on EDF with deadlines below periods: 16 ticks ask for 16.
    ("a,6,4,2\nb,8,5,2\nc,9,7,3\n", Within { length: 72 }),
    ("a,6,4,2\nb,8,5,2\nc,9,7,4\n", past!(7, 8)),
    // Burns and Wellings, Real-Time Systems and Programming Languages, on deadline-monotonic priorities; then with
    // more and more for the last task.
    (
        "a,20,5,3\nb,15,7,3\nc,10,10,4\nd,20,20,3\n",
        Within { length: 60 },
    ),
    ("a,20,5,3\nb,15,7,3\nc,10,10,4\nd,20,20,5\n", past!(40, 41)),
    ("a,20,5,3\nb,15,7,3\nc,10,10,4\nd,20,20,6\n", past!(22, 23)),
    ("a,20,5,3\nb,15,7,3\nc,10,10,4\nd,20,20,7\n", past!(20, 21)),
    // The budgets over their deadlines add up to more than 1, and the tasks fit.
    ("a,4,1,1\nb,4,2,1\nc,4,3,1\nd,4,4,1\n", Within { length: 4 }),
    ("a,3,2,1\nb,4,4,2\n", Within { length: 12 }),
    // In the second set 6 and 8 ticks are used up, and at 13 both of its tasks have one more deadline.
    ("a,5,3,2\nb,7,6,3\n", Within { length: 35 }),
    ("a,5,3,2\nb,7,6,4\n", past!(13, 14)),
    // Full use, with each deadline equal to the period.
    ("a,2,2,1\nb,3,3,1\nc,6,6,1\n", Within { length: 6 }),
    // Past only at the hyperperiod itself.
    ("a,2,2,1\nb,3,3,1\nc,6,6,2\n", past!(6, 7)),
    ("a,1,1,1\n", Within { length: 1 }),
    ("a,1,1,4294967295\n", past!(1, 4_294_967_295)),
    ("a,500000,500000,500000\n", Within { length: 500_000 }),
    (
        "a,500000,1,1\nb,500000,499999,499999\n",
        past!(499_999, 500_000),
    ),
];

// The result of the test on the set of these records.
fn fit(alloc: Global, records: &str) -> Result<Fit, Fail> {
    let set = set_of(alloc, records)?;
    Ok(check_demand(alloc, &set)?)
}

#[test]
fn a_set_is_within_or_past_at_its_least_length(rt: HostRuntime) -> Result<(), Fail> {
    let alloc = rt.alloc();
    for (records, expected) in &SETS {
        assert!(rt; fit(alloc, records)? == *expected, "{records}");
    }
    Ok(())
}

// Adds the record of the task with this number.
fn push_record(
    alloc: Global,
    text: &mut String,
    number: u32,
    rest: &str,
) -> Result<(), AllocError> {
    let record = format!(in alloc; "t{number},{rest}\n")?;
    text.push_str(record.as_str())
}

// The records of 128 tasks, the last of which has another budget.
fn many(alloc: Global, usual: &str, last: &str) -> Result<String, AllocError> {
    let mut records = String::new(alloc);
    for number in 1..128u32 {
        push_record(alloc, &mut records, number, usual)?;
    }
    push_record(alloc, &mut records, 128, last)?;
    Ok(records)
}

// Whether the set has 128 tasks, and this is the result of the test on it.
fn is_full(alloc: Global, set: &DemandSet, expected: Fit) -> Result<bool, Fail> {
    Ok(set.len() == 128 && check_demand(alloc, set)? == expected)
}

// The set of the records of 128 tasks, the last of which has another budget.
fn many_set(alloc: Global, usual: &str, last: &str) -> Result<DemandSet, Fail> {
    let records = many(alloc, usual, last)?;
    set_of(alloc, records.as_str())
}

// Whether the set of these 128 tasks has this result.
fn is_many_full(alloc: Global, usual: &str, last: &str, expected: Fit) -> Result<bool, Fail> {
    let set = many_set(alloc, usual, last)?;
    is_full(alloc, &set, expected)
}

// The records of the first 127 tasks, that of the last one, and the result of the test.
static LIMITS: [(&str, &str, Fit); 4] = [
    (
        "500000,500000,3906",
        "500000,500000,3938",
        Within { length: 500_000 },
    ),
    (
        "500000,500000,3906",
        "500000,500000,3939",
        past!(500_000, 500_001),
    ),
    (
        "500000,1,4294967295",
        "500000,1,4294967295",
        past!(1, 549_755_813_760),
    ),
    (
        "1,1,4294967295",
        "1,1,4294967295",
        past!(1, 549_755_813_760),
    ),
];

#[test]
fn a_set_at_the_limits_is_answered(rt: HostRuntime) -> Result<(), Fail> {
    for (usual, last, expected) in &LIMITS {
        assert!(rt; is_many_full(rt.alloc(), usual, last, *expected)?, "{last}");
    }
    Ok(())
}

#[test]
fn a_set_has_the_tasks_of_its_file(rt: HostRuntime) -> Result<(), Fail> {
    let set = set_of(rt.alloc(), "a,4,2,1\nb-2,500000,4,4294967295\n")?;
    let is_first = is_task(set.get(TaskNo(1)), b"a", (4, 2, 1));
    let is_second = is_task(set.get(TaskNo(2)), b"b-2", (500_000, 4, u32::MAX));
    let is_none = set.get(TaskNo(0)).is_none() && set.get(TaskNo(3)).is_none();
    assert_eq!(rt;
        (set.len(), is_first, is_second, is_none),
        (2, true, true, true)
    );
    Ok(())
}

fn is_task(task: Option<Demand>, name: &[u8], numbers: (u32, u32, u32)) -> bool {
    match task {
        Some(task) => {
            task.name.bytes() == name && (task.period, task.deadline, task.budget) == numbers
        }
        None => false,
    }
}

// Sets that are past, each with its counterexample.
static COUNTEREXAMPLES: [(&str, &str); 5] = [
    (
        "a,4,2,1\nb,6,3,3\n",
        "release a 1 at 0\nrelease b 1 at 0\ntick 0 a 1\ntick 1 b 1\ntick 2 b 1\nlate b 1\n",
    ),
    // Of equal deadlines the lowest task number runs first. Both b and a are late; b was released first.
    (
        "z,4,4,1\na,2,2,1\nb,4,4,1\nc,4,3,2\n",
        "release z 1 at 0\nrelease a 1 at 0\nrelease b 1 at 0\nrelease c 1 at 0\ntick 0 a 1\ntick 1 c 1\nrelease a 2 at 2\ntick 2 c 1\ntick 3 z 1\nlate b 1\n",
    ),
    (
        "a,2,2,1\nb,3,3,1\nc,6,6,2\n",
        "release a 1 at 0\nrelease b 1 at 0\nrelease c 1 at 0\ntick 0 a 1\ntick 1 b 1\nrelease a 2 at 2\ntick 2 a 2\nrelease b 2 at 3\ntick 3 b 2\nrelease a 3 at 4\ntick 4 a 3\ntick 5 c 1\nlate c 1\n",
    ),
    // b goes on when a is released with a later deadline, and lacks a tick when both have the deadline 13.
    (
        "a,5,3,2\nb,7,6,4\n",
        "release a 1 at 0\nrelease b 1 at 0\ntick 0 a 1\ntick 1 a 1\ntick 2 b 1\ntick 3 b 1\ntick 4 b 1\nrelease a 2 at 5\ntick 5 b 1\ntick 6 a 2\nrelease b 2 at 7\ntick 7 a 2\ntick 8 b 2\ntick 9 b 2\nrelease a 3 at 10\ntick 10 a 3\ntick 11 a 3\ntick 12 b 2\nlate b 2\n",
    ),
    (
        "a,1,1,4294967295\n",
        "release a 1 at 0\ntick 0 a 1\nlate a 1\n",
    ),
];

// The counterexample of the set of these records if it is past, or `None` if it is not.
fn counterexample(alloc: Global, records: &str) -> Result<Option<Vec<u8>>, Fail> {
    let set = set_of(alloc, records)?;
    match check_demand(alloc, &set)? {
        Past { length, .. } => Ok(Some(counter(alloc, &set, length)?)),
        Within { .. } => Ok(None),
    }
}

// Whether the set of these records has this counterexample.
fn is_shown(alloc: Global, records: &str, expected: &str) -> Result<bool, Fail> {
    match counterexample(alloc, records)? {
        Some(shown) => Ok(shown.as_slice() == expected.as_bytes()),
        None => Ok(false),
    }
}

#[test]
fn a_counterexample_ends_in_its_first_late_job(rt: HostRuntime) -> Result<(), Fail> {
    let alloc = rt.alloc();
    for (records, expected) in &COUNTEREXAMPLES {
        assert!(rt; is_shown(alloc, records, expected)?, "{records}");
    }
    Ok(())
}

const LONGEST: &str = "a,500000,500000,500000\nb,500000,500000,1\n";

// Whether `LONGEST` has its counterexample: two releases of 17 bytes, 500,000 ticks of 10 bytes and their digits,
// 2,888,890, and 9 bytes of the late job.
fn is_longest_shown(alloc: Global) -> Result<bool, Fail> {
    match counterexample(alloc, LONGEST)? {
        Some(shown) => Ok(
            shown.len() == 34 + 5_000_000 + 2_888_890 + 9
                && shown.ends_with(b"tick 499999 a 1\nlate b 1\n"),
        ),
        None => Ok(false),
    }
}

#[test]
fn a_counterexample_of_the_greatest_length_is_shown(rt: HostRuntime) -> Result<(), Fail> {
    let expected = past!(500_000, 500_001);
    assert!(rt; fit(rt.alloc(), LONGEST)? == expected);
    assert!(rt; is_longest_shown(rt.alloc())?);
    Ok(())
}

// Files, each with its tasks as `name period deadline budget;`, or with its first refusal.
static FILES: [(&str, &str); 14] = [
    ("", "line 1: Header"),
    ("\n\n", "line 1: Header"),
    ("task,period,deadline\n", "line 1: Header"),
    ("task,period,deadline,budget,\n", "line 1: Header"),
    ("task,deadline,period,budget\na,4,2,1\n", "line 1: Header"),
    ("Task,period,deadline,budget\na,4,2,1\n", "line 1: Header"),
    ("task, period,deadline,budget\na,4,2,1\n", "line 1: Header"),
    ("a,4,2,1\n", "line 1: Header"),
    ("task,period,deadline,budget", "line 1: Empty"),
    ("task,period,deadline,budget\r\n\r\n", "line 1: Empty"),
    (
        "task,period,deadline,budget\ntask,period,deadline,budget\n",
        "line 2: BadNumber",
    ),
    (
        "\u{feff}\"task\",period,deadline,budget\r\n\n\"a\",4,\"2\",1",
        "a 4 2 1;",
    ),
    (
        "\n\ntask,period,deadline,budget\n\n\na,4,2,1\n\nb,4,5,1",
        "line 3: DeadlineOrder",
    ),
    (
        "task,period,deadline,budget\n\"a\nb\",4,2,1\n",
        "line 2: BadName",
    ),
];

// Records after the header, separated by spaces, each list with its tasks or its first refusal.
static RECORDS: [(&str, &str); 34] = [
    ("a,4,2", "line 2: BadRecord"),
    ("a,4,2,1,", "line 2: BadRecord"),
    ("a,4,2,1,1", "line 2: BadRecord"),
    ("a", "line 2: BadRecord"),
    ("a,4,2,1 b,4,2", "line 3: BadRecord"),
    (",4,2,1", "line 2: BadName"),
    ("a.b,4,2,1", "line 2: BadName"),
    ("a,4,2,1 a,6,3,2", "line 3: SameName"),
    ("a,4,2,1 b,6,3,2 a,4,2,1", "line 4: SameName"),
    ("a,+4,2,1", "line 2: BadNumber"),
    ("a,4,-2,1", "line 2: BadNumber"),
    ("a,4,2,", "line 2: BadNumber"),
    ("a,4,2,1x", "line 2: BadNumber"),
    ("a,00000000004,2,1", "line 2: BadNumber"),
    ("a,0000000004,2,1", "a 4 2 1;"),
    ("a,4,2,4294967296", "line 2: BadNumber"),
    ("a,4,2,4294967295", "a 4 2 4294967295;"),
    ("a,0,2,1", "line 2: ZeroNumber"),
    ("a,4,0,1", "line 2: ZeroNumber"),
    ("a,4,2,0", "line 2: ZeroNumber"),
    ("a,4,5,1", "line 2: DeadlineOrder"),
    ("a,4,4,1", "a 4 4 1;"),
    ("a,500000,1,1", "a 500000 1 1;"),
    ("a,500001,1,1", "line 2: Range"),
    ("a,4294967295,1,1", "line 2: Range"),
    ("a,1000,1,1 b,501,1,1", "line 3: Range"),
    ("a,500000,1,1 b,250000,1,1 c,3,1,1", "line 4: Range"),
    // If several causes apply, the first in their order is reported.
    ("a.b,4", "line 2: BadRecord"),
    ("a.b,x,2,1", "line 2: BadName"),
    ("a,4,2,1 a,x,3,2", "line 3: SameName"),
    ("a,0,x,1", "line 2: BadNumber"),
    ("a,4,5,0", "line 2: ZeroNumber"),
    ("a,600000,600001,1", "line 2: DeadlineOrder"),
    ("a,500001,1,1 b,4,2", "line 2: Range"),
];

// The tasks of a set.
fn tasks_text(alloc: Global, set: &DemandSet) -> Result<String, AllocError> {
    let mut text = String::new(alloc);
    for i in 0..set.len() {
        if let Some(task) = set.get(TaskNo(i + 1)) {
            push_demand(alloc, &mut text, &task)?;
        }
    }
    Ok(text)
}

fn push_demand(alloc: Global, text: &mut String, task: &Demand) -> Result<(), AllocError> {
    for byte in task.name.bytes() {
        text.push(char::from(*byte))?;
    }
    let numbers = format!(in alloc; " {} {} {};", task.period, task.deadline, task.budget)?;
    text.push_str(numbers.as_str())
}

// Whether reading the bytes gives these tasks, or this refusal.
fn is_answered(alloc: Global, bytes: &[u8], expected: &str) -> Result<bool, AllocError> {
    let text = match read_demands(alloc, bytes) {
        Ok(set) => tasks_text(alloc, &set)?,
        Err(fault) => format!(in alloc; "{fault}")?,
    };
    Ok(text.as_str() == expected)
}

// Whether reading these records after the header, separated by spaces, gives this result.
fn are_answered(alloc: Global, records: &str, expected: &str) -> Result<bool, AllocError> {
    let lines = records.replace(alloc, " ", "\n")?;
    let text = format!(in alloc; "{HEADER}{lines}\n")?;
    is_answered(alloc, text.as_bytes(), expected)
}

#[test]
fn a_file_gives_its_tasks_or_its_first_refusal(rt: HostRuntime) -> Result<(), Fail> {
    let alloc = rt.alloc();
    for (text, expected) in &FILES {
        assert!(rt; is_answered(alloc, text.as_bytes(), expected)?, "{text}");
    }
    for (records, expected) in &RECORDS {
        assert!(rt; are_answered(alloc, records, expected)?, "{records}");
    }
    Ok(())
}

// A file of 128 tasks.
fn full_file(alloc: Global) -> Result<String, AllocError> {
    let records = many(alloc, "1,1,1", "1,1,1")?;
    format!(in alloc; "{HEADER}{records}")
}

// The refusal of a text, if any.
fn refusal(alloc: Global, text: &[u8]) -> Option<DemandFault> {
    read_demands(alloc, text).err()
}

// The refusal of a file of 128 tasks with this after it, if any.
fn full_refusal(alloc: Global, last: &str) -> Result<Option<DemandFault>, AllocError> {
    let mut text = full_file(alloc)?;
    text.push_str(last)?;
    Ok(refusal(alloc, text.as_bytes()))
}

#[test]
fn there_are_at_most_128_tasks(rt: HostRuntime) -> Result<(), Fail> {
    let too_many = DemandFault::At {
        line: 130,
        cause: DemandCause::TooMany,
    };
    assert!(rt; full_refusal(rt.alloc(), "")?.is_none());
    assert!(rt; full_refusal(rt.alloc(), "t1")? == Some(too_many));
    Ok(())
}

// A task's name, period, deadline and budget.
type Listed = (&'static str, u32, u32, u32);

// Adds the task to the list.
fn push_listed(tasks: &mut Vec<Demand>, listed: Listed) -> Result<(), Fail> {
    let (name, period, deadline, budget) = listed;
    let name = Name::new(name.as_bytes()).ok_or("a name")?;
    tasks.push(Demand {
        name,
        period,
        deadline,
        budget,
    })?;
    Ok(())
}

// The tasks of the set of this list as `name period deadline budget;`, or the list's first refusal.
fn listed_text(alloc: Global, tasks: Vec<Demand>) -> Result<String, AllocError> {
    match DemandSet::new(tasks) {
        Ok(set) => tasks_text(alloc, &set),
        Err(refused) => format!(in alloc; "task {}: {:?}", refused.task.0, refused.cause),
    }
}

// Whether the set of these tasks is this, or the list has this refusal.
fn is_listed(alloc: Global, listed: &[Listed], expected: &str) -> Result<bool, Fail> {
    let mut tasks = Vec::new(alloc);
    for task in listed {
        push_listed(&mut tasks, *task)?;
    }
    Ok(listed_text(alloc, tasks)?.as_str() == expected)
}

// Lists of tasks, each with its tasks or its first refusal.
static LISTS: [(&[Listed], &str); 17] = [
    (&[], "task 0: Empty"),
    (&[("a", 4, 2, 1)], "a 4 2 1;"),
    (
        &[("a", 4, 4, u32::MAX), ("b-2", 500_000, 4, 1)],
        "a 4 4 4294967295;b-2 500000 4 1;",
    ),
    (&[("a", 4, 2, 1), ("a", 6, 3, 2)], "task 2: SameName"),
    (&[("a", 0, 2, 1)], "task 1: ZeroNumber"),
    (&[("a", 4, 0, 1)], "task 1: ZeroNumber"),
    (&[("a", 4, 2, 0)], "task 1: ZeroNumber"),
    (&[("a", 4, 5, 1)], "task 1: DeadlineOrder"),
    (&[("a", 500_001, 1, 1)], "task 1: Range"),
    (&[("a", 1000, 1, 1), ("b", 501, 1, 1)], "task 2: Range"),
    (
        &[("a", 500_000, 1, 1), ("b", 250_000, 1, 1), ("c", 3, 1, 1)],
        "task 3: Range",
    ),
    // If several causes apply, the first in their order is reported, and of several tasks the first.
    (&[("a", 4, 2, 1), ("a", 0, 5, 0)], "task 2: SameName"),
    (&[("a", 4, 5, 0)], "task 1: ZeroNumber"),
    (&[("a", 600_000, 600_001, 1)], "task 1: DeadlineOrder"),
    (&[("a", 500_001, 1, 1), ("a", 0, 0, 0)], "task 1: Range"),
    (
        &[("a", 4, 2, 1), ("b", 4, 0, 1), ("a", 4, 2, 1)],
        "task 2: ZeroNumber",
    ),
    (
        &[("a", 4, 2, 1), ("b", 6, 3, 2), ("a", 4, 2, 1)],
        "task 3: SameName",
    ),
];

#[test]
fn a_list_of_tasks_is_a_set_or_has_a_first_refusal(rt: HostRuntime) -> Result<(), Fail> {
    for (listed, expected) in &LISTS {
        assert!(rt; is_listed(rt.alloc(), listed, expected)?, "{expected}");
    }
    Ok(())
}

// The tasks of a set of 128 tasks, in a list.
fn full_list(alloc: Global) -> Result<Vec<Demand>, Fail> {
    let set = many_set(alloc, "1,1,1", "1,1,2")?;
    let mut tasks = Vec::new(alloc);
    for i in 0..set.len() {
        if let Some(task) = set.get(TaskNo(i + 1)) {
            tasks.push(task)?;
        }
    }
    Ok(tasks)
}

// Whether the list of 128 tasks is a set with the result of the test on it.
fn is_full_list_set(alloc: Global) -> Result<bool, Fail> {
    match DemandSet::new(full_list(alloc)?) {
        Ok(set) => is_full(alloc, &set, past!(1, 129)),
        Err(_) => Ok(false),
    }
}

// Whether the 129th task is refused before its name and its numbers are looked at.
fn is_129th_refused(alloc: Global) -> Result<bool, Fail> {
    let mut tasks = full_list(alloc)?;
    push_listed(&mut tasks, ("t1", 0, 0, 0))?;
    Ok(listed_text(alloc, tasks)?.as_str() == "task 129: TooMany")
}

#[test]
fn a_list_has_at_most_128_tasks(rt: HostRuntime) -> Result<(), Fail> {
    assert!(rt; is_full_list_set(rt.alloc())?);
    assert!(rt; is_129th_refused(rt.alloc())?);
    Ok(())
}

#[test]
fn bytes_that_are_no_text_are_refused(rt: HostRuntime) {
    let cases: [(&[u8], u32, DemandCause); 3] = [
        (b"\xff\xfe\x00", 1, DemandCause::Header),
        (
            b"task,period,deadline,budget\n\xff,4,2,1\n",
            2,
            DemandCause::BadName,
        ),
        (
            b"task,period,deadline,budget\na,4,2,\xb2\n",
            2,
            DemandCause::BadNumber,
        ),
    ];
    for (bytes, line, cause) in cases {
        let refused = DemandFault::At { line, cause };
        assert_eq!(rt; refusal(rt.alloc(), bytes), Some(refused));
    }
}

// Whether reading a record of 200,000 commas after this text gives this result.
fn is_wide_answered(alloc: Global, before: &str, expected: &str) -> Result<bool, AllocError> {
    let mut file = Vec::new(alloc);
    file.extend_from_slice(before.as_bytes())?;
    for _ in 0..200_000u32 {
        file.push(b',')?;
    }
    is_answered(alloc, &file, expected)
}

#[test]
fn a_wide_record_of_a_long_file_is_refused_by_its_width(rt: HostRuntime) -> Result<(), Fail> {
    let alloc = rt.alloc();
    let full = full_file(alloc)?;
    let cases = [
        ("", "line 1: Header"),
        (HEADER, "line 2: BadRecord"),
        (
            "task,period,deadline,budget\n\"a\",4,2,1\n",
            "line 3: BadRecord",
        ),
        (full.as_str(), "line 130: TooMany"),
    ];
    for (before, expected) in cases {
        assert!(rt; is_wide_answered(alloc, before, expected)?, "{expected}");
    }
    Ok(())
}
