//! Tests of work files and lists of work.
use mc_model::WorkRow;
use mc_task::{Level, TaskSet};
use std::alloc::{AllocError, Global};
use std::test::Fail;
use work_file::{Work, WorkCause, WorkFault, read_work};
use worked_sets::{CONTROL, Job, set_of, work_row, work_rows};

// The rows as `task@release+need`.
fn rows_text(alloc: Global, rows: &[WorkRow]) -> Result<String, AllocError> {
    let mut text = String::new(alloc);
    for row in rows {
        push_row(alloc, &mut text, *row)?;
    }
    Ok(text)
}

fn push_row(alloc: Global, text: &mut String, row: WorkRow) -> Result<(), AllocError> {
    let row = format!(in alloc; "{}@{}+{} ", row.task.0, row.release, row.need)?;
    text.push_str(row.as_str())
}

// The rows of the file, or its refusal.
fn answer(alloc: Global, set: &TaskSet, bytes: &[u8]) -> Result<String, AllocError> {
    match read_work(alloc, set, bytes) {
        Ok(work) => rows_text(alloc, work.rows()),
        Err(fault) => format!(in alloc; "{fault}"),
    }
}

// Whether reading the file gives these rows, or this refusal.
fn is_answered(alloc: Global, bytes: &[u8], expected: &str) -> Result<bool, Fail> {
    let set = set_of(alloc, &CONTROL)?;
    Ok(answer(alloc, &set, bytes)?.as_str() == expected)
}

const HEADER: &str = "task,release,need\n";

// Whether reading these records after the header, separated by spaces, gives this result.
fn are_answered(alloc: Global, records: &str, expected: &str) -> Result<bool, Fail> {
    let lines = records.replace(alloc, " ", "\n")?;
    let text = format!(in alloc; "{HEADER}{lines}\n")?;
    is_answered(alloc, text.as_bytes(), expected)
}

// Files, each with its rows or its first refusal.
static FILES: [(&str, &str); 16] = [
    ("", "line 1: Header"),
    ("\n\n", "line 1: Header"),
    ("task,release", "line 1: Header"),
    ("task,release,need,", "line 1: Header"),
    ("task,need,release", "line 1: Header"),
    ("Task,release,need", "line 1: Header"),
    ("ctl,0,6", "line 1: Header"),
    ("task,release,need", ""),
    ("task,release,need\r\n", ""),
    ("\u{feff}task,release,need\nctl,0,6", "1@0+6 "),
    (
        "\n\ntask,release,need\n\n\nctl,0,6\n\nbob,1,1",
        "line 3: UnknownTask",
    ),
    (
        "task,release,need\r\nctl,0,6\r\nlog,3,1\r\n",
        "1@0+6 2@3+1 ",
    ),
    (
        "\"task\",\"release\",\"need\"\n\"ctl\",\"0\",\"6\"",
        "1@0+6 ",
    ),
    (
        "task,release,need\nlog,4294967295,4294967295",
        "2@4294967295+4294967295 ",
    ),
    (
        "task,release,need\nctl,0,6\nlog,0,5\nlog,10,1\nctl,10,1",
        "1@0+6 2@0+5 2@10+1 1@10+1 ",
    ),
    ("task, release,need", "line 1: Header"),
];

// Records after the header, separated by spaces, each list with its rows or its first refusal.
static RECORDS: [(&str, &str); 27] = [
    ("ctl,0,6 ctl,9,1", "line 3: TooSoon { next: 10 }"),
    ("ctl,0,6 log,2,1 ctl,9,1", "line 4: TooSoon { next: 10 }"),
    (
        "ctl,4294967295,1 ctl,4294967295,1",
        "line 3: TooSoon { next: 4294967305 }",
    ),
    ("bob,0,1", "line 2: UnknownTask"),
    (",0,1", "line 2: UnknownTask"),
    ("ctl,0,0", "line 2: ZeroNeed"),
    ("log,5,1 ctl,4,1", "line 3: Unsorted"),
    ("ctl,0", "line 2: BadRecord"),
    ("ctl,0,1,1", "line 2: BadRecord"),
    ("ctl,0,1,", "line 2: BadRecord"),
    ("ctl,+1,1", "line 2: BadNumber"),
    ("ctl,-1,1", "line 2: BadNumber"),
    ("ctl,,1", "line 2: BadNumber"),
    ("ctl,0,", "line 2: BadNumber"),
    ("ctl,1x,1", "line 2: BadNumber"),
    ("ctl,0,x1", "line 2: BadNumber"),
    ("ctl,00000000001,1", "line 2: BadNumber"),
    ("ctl,0000000001,1", "1@1+1 "),
    ("ctl,4294967296,1", "line 2: BadNumber"),
    ("ctl,0,9999999999", "line 2: BadNumber"),
    ("bob,0", "line 2: BadRecord"),
    ("bob,x,0", "line 2: UnknownTask"),
    ("ctl,x,0", "line 2: BadNumber"),
    ("log,9,1 ctl,5,0", "line 3: ZeroNeed"),
    ("ctl,8,1 ctl,7,1", "line 3: Unsorted"),
    ("ctl,0,6 bob,1,1 ctl,0,0", "line 3: UnknownTask"),
    (
        "ctl,0,1 ctl,10,1 log,15,1 ctl,20,1",
        "1@0+1 1@10+1 2@15+1 1@20+1 ",
    ),
];

#[test]
fn a_file_gives_its_rows_or_its_first_refusal(rt: HostRuntime) -> Result<(), Fail> {
    let alloc = rt.alloc();
    for (text, expected) in &FILES {
        assert!(rt; is_answered(alloc, text.as_bytes(), expected)?, "{text}");
    }
    for (records, expected) in &RECORDS {
        assert!(rt; are_answered(alloc, records, expected)?, "{records}");
    }
    Ok(())
}

// Lists of rows, each row a task, a release and a need, with the first refusal of each list.
static LISTS: [(&[Job], Option<(usize, WorkCause)>); 11] = [
    (&[], None),
    (&[(1, 0, 6), (2, 0, 5), (1, 10, 1)], None),
    (&[(0, 0, 1)], Some((0, WorkCause::UnknownTask))),
    (&[(1, 0, 1), (3, 0, 0)], Some((1, WorkCause::UnknownTask))),
    (&[(1, 9, 1), (2, 5, 0)], Some((1, WorkCause::ZeroNeed))),
    (&[(1, 9, 1), (1, 5, 1)], Some((1, WorkCause::Unsorted))),
    (&[(2, 5, 1), (1, 4, 1)], Some((1, WorkCause::Unsorted))),
    (
        &[(1, 0, 6), (1, 9, 1)],
        Some((1, WorkCause::TooSoon { next: 10 })),
    ),
    (
        &[(1, 0, 1), (2, 0, 1), (1, 10, 1), (2, 10, 1), (1, 19, 1)],
        Some((4, WorkCause::TooSoon { next: 20 })),
    ),
    (
        &[(1, 0, 1), (2, 5, 1), (2, 9, 1), (1, 1, 0)],
        Some((2, WorkCause::TooSoon { next: 15 })),
    ),
    (&[(1, u32::MAX, u32::MAX)], None),
];

// Whether these are the rows of the list.
fn are_rows(rows: &[WorkRow], list: &[Job]) -> bool {
    for (place, (task, release, need)) in list.iter().enumerate() {
        if rows.get(place) != Some(&work_row(*task, *release, *need)) {
            return false;
        }
    }
    rows.len() == list.len()
}

// Whether the list is a list of work with these rows, or has this first bad row.
fn is_judged(
    alloc: Global,
    list: &[Job],
    expected: Option<(usize, WorkCause)>,
) -> Result<bool, Fail> {
    let set = set_of(alloc, &CONTROL)?;
    match Work::new(&set, work_rows(alloc, list)?) {
        Ok(work) => Ok(expected.is_none() && are_rows(work.rows(), list)),
        Err(bad) => Ok(expected == Some((bad.index, bad.cause))),
    }
}

#[test]
fn a_list_is_work_or_has_a_first_bad_row(rt: HostRuntime) -> Result<(), Fail> {
    for (place, (list, expected)) in LISTS.iter().enumerate() {
        assert!(rt; is_judged(rt.alloc(), list, *expected)?, "{place}");
    }
    Ok(())
}

// A million rows of one task.
fn million_rows(alloc: Global) -> Result<Vec<WorkRow>, AllocError> {
    let mut rows = Vec::new(alloc);
    for release in 0..1_000_000u32 {
        rows.push(work_row(1, release, 1))?;
    }
    Ok(rows)
}

// The file of a million rows.
fn million_records(alloc: Global) -> Result<String, AllocError> {
    let mut text = String::from_str(alloc, HEADER)?;
    for release in 0..1_000_000u32 {
        push_record(alloc, &mut text, release)?;
    }
    Ok(text)
}

fn push_record(alloc: Global, text: &mut String, release: u32) -> Result<(), AllocError> {
    let record = format!(in alloc; "a,{release},1\n")?;
    text.push_str(record.as_str())
}

// Whether the file has these rows.
fn has_rows(alloc: Global, set: &TaskSet, text: &str, rows: &[WorkRow]) -> bool {
    match read_work(alloc, set, text.as_bytes()) {
        Ok(work) => work.rows() == rows,
        Err(_) => false,
    }
}

// Whether the file of a million rows is read as these rows.
fn are_a_million_read(alloc: Global, set: &TaskSet) -> Result<bool, AllocError> {
    let rows = million_rows(alloc)?;
    let text = million_records(alloc)?;
    Ok(has_rows(alloc, set, text.as_str(), &rows))
}

// The refusal of the file with one more record.
fn fault_of_more_records(alloc: Global, set: &TaskSet) -> Result<Option<WorkFault>, AllocError> {
    let mut text = million_records(alloc)?;
    text.push_str("none")?;
    Ok(read_work(alloc, set, text.as_bytes()).err())
}

// Whether the list with one more row is refused at this row.
fn is_one_more_refused(alloc: Global, set: &TaskSet) -> Result<bool, AllocError> {
    let mut rows = million_rows(alloc)?;
    rows.push(work_row(2, 0, 0))?;
    match Work::new(set, rows) {
        Ok(_) => Ok(false),
        Err(bad) => Ok(bad.index == 1_000_000 && bad.cause == WorkCause::TooMany),
    }
}

#[test]
fn there_are_at_most_a_million_rows(rt: HostRuntime) -> Result<(), Fail> {
    let alloc = rt.alloc();
    let set = set_of(alloc, &[("a", Level::Low, 1, 1, 1)])?;
    let too_many = WorkFault::At {
        line: 1_000_002,
        cause: WorkCause::TooMany,
    };
    assert!(rt; are_a_million_read(alloc, &set)?);
    assert!(rt; fault_of_more_records(alloc, &set)? == Some(too_many));
    assert!(rt; is_one_more_refused(alloc, &set)?);
    Ok(())
}

// Whether reading a record of 200,000 commas after this text gives this result.
fn is_wide_answered(alloc: Global, before: &str, expected: &str) -> Result<bool, Fail> {
    let mut file = Vec::new(alloc);
    file.extend_from_slice(before.as_bytes())?;
    for _ in 0..200_000u32 {
        file.push(b',')?;
    }
    is_answered(alloc, &file, expected)
}

#[test]
fn a_wide_record_of_a_long_file_is_refused_by_its_width(rt: HostRuntime) -> Result<(), Fail> {
    let cases = [
        ("", "line 1: Header"),
        (HEADER, "line 2: BadRecord"),
        (
            "task,release,need\n\"ctl\",\"0\",\"6\"\n",
            "line 3: BadRecord",
        ),
    ];
    for (before, expected) in cases {
        assert!(rt; is_wide_answered(rt.alloc(), before, expected)?, "{before}");
    }
    Ok(())
}
