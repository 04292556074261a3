//! Tests of task files.
use mc_task::{Level, Name, Scale, Task, TaskNo, TaskSet};
use std::alloc::{AllocError, Global};
use std::test::Fail;
use task_file::{KeyText, TaskFault, print_tasks, read_tasks};

const CONTROL: &str = "
[[task]]
name = \"ctl\"
level = \"high\"
period = 10
low = 2
high = 6

[[task]]
name = \"log\"
level = \"low\"
period = 10
low = 5
";

// The text of the refusal, with the key that it shows.
fn refusal(alloc: Global, fault: &TaskFault) -> Result<String, AllocError> {
    match fault {
        TaskFault::TopKey { key } | TaskFault::KeyUnknown { key, .. } => {
            let key = String::from_utf8_lossy(alloc, key.bytes())?;
            format!(in alloc; "{fault} {key}")
        }
        _ => format!(in alloc; "{fault}"),
    }
}

// Why the file is refused, if it is.
fn fault_of(alloc: Global, bytes: &[u8]) -> Option<TaskFault> {
    read_tasks(alloc, bytes).err()
}

// Whether reading the file gives the refusal with this text, or succeeds if the text is `ok`.
fn is_answered(alloc: Global, bytes: &[u8], expected: &str) -> Result<bool, AllocError> {
    let Some(fault) = fault_of(alloc, bytes) else {
        return Ok(expected == "ok");
    };
    let text = refusal(alloc, &fault)?;
    Ok(text.as_str() == expected)
}

// Files, each with its first fault.
static DOCUMENTS: [(&str, &str); 36] = [
    ("", "no tasks"),
    ("task", "not TOML"),
    ("version = 9223372036854775808", "not TOML"),
    ("zeta = 1\nalpha = 1\nversion = 3", "unknown key alpha"),
    ("\"\u{e9} \\x7F~\" = 1", "unknown key ????~"),
    ("'' = 1", "unknown key "),
    (
        "'123456789-123456789-123456789-123' = 1",
        "unknown key 123456789-123456789-123456789-12",
    ),
    ("version = 3\ntask = 3", "unknown version"),
    ("version = 0", "unknown version"),
    ("version = 1.0", "unknown version"),
    ("version = '1'", "unknown version"),
    ("scale = [1, 2]", "unknown key scale"),
    ("version = 1\nscale = [1, 2]", "unknown key scale"),
    ("version = 3\nscale = [1, 2]", "unknown key scale"),
    ("version = 2.0\nscale = [1, 2]", "unknown key scale"),
    ("version = 2\nscale = 1", "task 0: wrong kind of Scale"),
    ("version = 2\nscale = []", "task 0: wrong kind of Scale"),
    ("version = 2\nscale = [1]", "task 0: wrong kind of Scale"),
    (
        "version = 2\nscale = [1, 2, 3]",
        "task 0: wrong kind of Scale",
    ),
    (
        "version = 2\nscale = [1, 2.0]",
        "task 0: wrong kind of Scale",
    ),
    (
        "version = 2\nscale = ['1', 2]",
        "task 0: wrong kind of Scale",
    ),
    ("version = 2\nscale = [0, 2]", "task 0: out of range Scale"),
    ("version = 2\nscale = [-1, 2]", "task 0: out of range Scale"),
    ("version = 2\nscale = [3, 2]", "task 0: out of range Scale"),
    (
        "version = 2\nscale = [1, 4294967296]",
        "task 0: out of range Scale",
    ),
    ("version = 2\nscale = [4294967295, 4294967295]", "no tasks"),
    (
        "version = 2\nscale = [1, 1]\ntask = 3",
        "task 0: wrong kind of Task",
    ),
    ("version = 1", "no tasks"),
    ("version = 2", "no tasks"),
    ("version = 1\ntask = []", "no tasks"),
    ("task = 3", "task 0: wrong kind of Task"),
    ("[task]\nname = 'a'", "task 0: wrong kind of Task"),
    ("task = [[], 1]", "task 1: wrong kind of Task"),
    (
        "task = [{ name = 'a', level = 'low', period = 1, low = 1 }, { x = 1, b = 2 }]",
        "task 2: unknown key b",
    ),
    (
        "task = [{ name = '', level = 'low', period = 1, low = 1 }, 1]",
        "task 1: bad name",
    ),
    (
        "task = [{ name = 'a', level = 'low', period = 1, low = 1 }, { name = 'a', level = 'low', period = 1, low = 1 }]",
        "SameName { first: TaskNo(1), second: TaskNo(2) }",
    ),
];

// Whether reading the tasks, in a file of this version, gives this result.
fn is_answered_in(alloc: Global, version: u32, expected: &str) -> Result<bool, AllocError> {
    let text = format!(in alloc; "version = {version}\n{CONTROL}")?;
    is_answered(alloc, text.as_bytes(), expected)
}

#[test]
fn the_first_fault_of_a_document_is_the_answer(rt: HostRuntime) -> Result<(), Fail> {
    let alloc = rt.alloc();
    for (text, expected) in &DOCUMENTS {
        assert!(rt; is_answered(alloc, text.as_bytes(), expected)?, "{text}");
    }
    assert!(rt; is_answered(alloc, &[b'#', 0xFF], "not TOML")?);
    for (version, expected) in [(1, "ok"), (2, "ok"), (3, "unknown version")] {
        assert!(rt;
            is_answered_in(alloc, version, expected)?,
            "version {version}"
        );
    }
    Ok(())
}

// The lines of one task, each with the file's first fault.
const TASKS: &str = "\
level = 1, period = 1, low = 1, extra = 1 => task 1: unknown key extra
high = 1, level = 1, period = 1, low = 1 => task 1: missing key Name
name = 1 => task 1: missing key Level
name = 1, level = 1, low = 1 => task 1: missing key Period
name = 1, level = 1, period = '' => task 1: missing key Low
name = 1, level = 1, period = '', low = '', high = '' => task 1: wrong kind of Name
name = '', level = 1, period = '', low = '', high = '' => task 1: wrong kind of Level
name = '', level = '', period = 1.0, low = '', high = '' => task 1: wrong kind of Period
name = '', level = '', period = 0, low = true, high = '' => task 1: wrong kind of Low
name = '', level = '', period = 0, low = 0, high = [] => task 1: wrong kind of High
name = '', level = '', period = 0, low = 0, high = 0 => task 1: bad name
name = 'a b', level = '', period = 0, low = 0, high = 0 => task 1: bad name
name = '123456789_123456789_123456789_123', level = '', period = 0, low = 0 => task 1: bad name
name = '123456789_123456789_123456789-Az', level = 'low', period = 1, low = 1 => ok
name = 'a', level = 'mid', period = 0, low = 0, high = 0 => task 1: out of range Level
name = 'a', level = 'low', period = 0, low = 0, high = 0 => task 1: out of range Period
name = 'a', level = 'low', period = -1, low = 0, high = 0 => task 1: out of range Period
name = 'a', level = 'low', period = 4294967296, low = 1 => task 1: out of range Period
name = 'a', level = 'low', period = 4294967295, low = 4294967295 => ok
name = 'a', level = 'low', period = 9223372036854775808, low = 1 => not TOML
name = 'a', level = 'low', period = 1, low = 0, high = 0 => task 1: out of range Low
name = 'a', level = 'low', period = 1, low = 1, high = 0 => task 1: out of range High
name = 'a', level = 'low', period = 1, low = 1, high = 1 => task 1: high budget on a low task
name = 'a', level = 'high', period = 1, low = 1 => task 1: missing key High
name = 'a', level = 'high', period = 9, low = 3, high = 2 => BudgetOrder { task: TaskNo(1) }
name = 'a', level = 'high', period = 1, low = 3, high = 3 => ok
 => task 1: missing key Name
";

// Whether reading the file of one task gives the result at the end of the line.
fn is_line_answered(alloc: Global, line: &str) -> Result<bool, AllocError> {
    let Some((fields, expected)) = line.split_once(" => ") else {
        return Ok(false);
    };
    let text = format!(in alloc; "task = [{{{fields}}}]")?;
    is_answered(alloc, text.as_bytes(), expected)
}

#[test]
fn the_first_fault_of_a_task_is_the_answer(rt: HostRuntime) -> Result<(), Fail> {
    let alloc = rt.alloc();
    for line in TASKS.lines() {
        assert!(rt; is_line_answered(alloc, line)?, "{line}");
    }
    Ok(())
}

// This number of low tasks with different names, after the head of their file.
fn many_tasks(alloc: Global, head: &str, count: u32) -> Result<String, AllocError> {
    let mut text = String::from_str(alloc, head)?;
    for k in 0..count {
        push_task(alloc, &mut text, k)?;
    }
    Ok(text)
}

fn push_task(alloc: Global, text: &mut String, k: u32) -> Result<(), AllocError> {
    let task = format!(in alloc; "[[task]]\nname = 't{k}'\nlevel = 'low'\nperiod = 10\nlow = 1\n")?;
    text.push_str(task.as_str())
}

// Whether reading a file of this number of tasks gives this result.
fn are_answered(alloc: Global, count: u32, expected: &str) -> Result<bool, AllocError> {
    let text = many_tasks(alloc, "", count)?;
    is_answered(alloc, text.as_bytes(), expected)
}

#[test]
fn a_file_has_at_most_128_tasks(rt: HostRuntime) -> Result<(), Fail> {
    assert!(rt; are_answered(rt.alloc(), 128, "ok")?);
    assert!(rt; are_answered(rt.alloc(), 129, "TooMany { count: 129 }")?);
    Ok(())
}

const PRINTED: &str = "\
version = 2

[[task]]
high = 6
level = \"high\"
low = 2
name = \"ctl\"
period = 10

[[task]]
level = \"low\"
low = 5
name = \"log\"
period = 10
";

// Whether this is the set's file.
fn is_printed(alloc: Global, set: &TaskSet, expected: &str) -> Result<bool, Fail> {
    Ok(print_tasks(alloc, set)?.as_slice() == expected.as_bytes())
}

// The set that is read from the set's file.
fn read_back(alloc: Global, set: &TaskSet) -> Result<TaskSet, Fail> {
    let text = print_tasks(alloc, set)?;
    Ok(read_tasks(alloc, &text)?)
}

fn task(name: &str, level: Level, period: u32, low: u32, high: u32) -> Option<Task> {
    let name = Name::new(name.as_bytes())?;
    Some(Task {
        name,
        level,
        period,
        low,
        high,
    })
}

// Whether the set has the two tasks of `CONTROL` and no third one.
fn is_control(set: &TaskSet) -> bool {
    set.get(TaskNo(1)) == task("ctl", Level::High, 10, 2, 6)
        && set.get(TaskNo(2)) == task("log", Level::Low, 10, 5, 5)
        && set.get(TaskNo(3)).is_none()
}

#[test]
fn a_printed_set_is_read_back(rt: HostRuntime) -> Result<(), Fail> {
    let alloc = rt.alloc();
    let set = read_tasks(alloc, CONTROL.as_bytes())?;
    assert!(rt; is_printed(alloc, &set, PRINTED)?);
    assert!(rt; is_control(&set));
    assert!(rt; is_control(&read_back(alloc, &set)?));
    Ok(())
}

const HALF: Option<Scale> = Some(Scale { p: 1, q: 2 });

// Whether the set has this number of tasks and the scale one half.
fn is_half(set: &TaskSet, len: u32) -> bool {
    set.len() == len && set.scale() == HALF
}

// The set of `CONTROL` with a scale.
fn scaled(alloc: Global) -> Result<TaskSet, Fail> {
    let text = format!(in alloc; "version = 2\nscale = [2, 4]\n{CONTROL}")?;
    Ok(read_tasks(alloc, text.as_bytes())?)
}

// Whether the set's file is that of `CONTROL` with the scale one half.
fn is_scale_printed(alloc: Global, set: &TaskSet) -> Result<bool, Fail> {
    let expected = format!(in alloc; "scale = [1, 2]\n{PRINTED}")?;
    is_printed(alloc, set, expected.as_str())
}

#[test]
fn a_printed_scale_is_read_back(rt: HostRuntime) -> Result<(), Fail> {
    let alloc = rt.alloc();
    let set = scaled(alloc)?;
    assert!(rt; is_scale_printed(alloc, &set)?);
    assert!(rt; is_half(&set, 2));
    assert!(rt; is_half(&read_back(alloc, &set)?, 2));
    Ok(())
}

// Whether the task with this number is the one that `many_tasks` names by k.
fn has_task(alloc: Global, set: &TaskSet, number: u32, k: u32) -> Result<bool, AllocError> {
    let name = format!(in alloc; "t{k}")?;
    Ok(set.get(TaskNo(number)) == task(name.as_str(), Level::Low, 10, 1, 1))
}

// The number of the set's first tasks that are those of `many_tasks`, up to 128.
fn right_tasks(alloc: Global, set: &TaskSet) -> Result<u32, AllocError> {
    for k in 0..128u32 {
        if !has_task(alloc, set, k + 1, k)? {
            return Ok(k);
        }
    }
    Ok(128)
}

// The set of 128 tasks and a scale that is read from its file.
fn many_read_back(alloc: Global) -> Result<TaskSet, Fail> {
    let text = many_tasks(alloc, "version = 2\nscale = [2, 4]\n", 128)?;
    let set = read_tasks(alloc, text.as_bytes())?;
    read_back(alloc, &set)
}

#[test]
fn a_printed_set_of_128_tasks_is_read_back(rt: HostRuntime) -> Result<(), Fail> {
    let alloc = rt.alloc();
    let set = many_read_back(alloc)?;
    assert!(rt; is_half(&set, 128));
    assert_eq!(rt; right_tasks(alloc, &set)?, 128);
    Ok(())
}

// Keys, and how a refusal shows them: the first 32 bytes, with a question mark for each that is no visible ASCII character.
const KEYS: [(&str, &str); 5] = [
    ("", ""),
    ("prio", "prio"),
    ("a b~!\n\u{7f}", "a?b~!??"),
    ("\u{e9}", "??"),
    (
        "0123456789abcdef0123456789ABCDEFx",
        "0123456789abcdef0123456789ABCDEF",
    ),
];

#[test]
fn a_key_is_shown_by_its_first_32_bytes(rt: HostRuntime) {
    for (key, shown) in KEYS {
        let text = KeyText::new(key.as_bytes());
        assert_eq!(rt; text.bytes(), shown.as_bytes(), "{key}");
    }
}
