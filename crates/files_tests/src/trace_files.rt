//! Tests of traces as text.
use mc_model::How::{Done, More, Over, Stop};
use mc_model::{Row, Run, are_of_set};
use mc_task::TaskSet;
use std::alloc::{AllocError, Global};
use std::test::Fail;
use trace_format::{
    TraceFault, how_word, kept_word, merge, pack, read_trace, write_rows, write_trace,
};
use worked_sets::{CONTROL, OVERRUN_RUNS, dropped, kept, release, set_of, tick, ticks};

const HEADER: &str = "event,tick,task,job,how\n";

const SECOND_HEADER: &str = "event,tick,length,task,job,how\n";

// A job of ctl overruns its low budget and runs to its end; log's job is discarded, and log's next job runs.
const OVERRUN: &str = "\
event,tick,task,job,how
release,0,ctl,1,kept
release,0,log,1,kept
tick,0,ctl,1,more
tick,1,ctl,1,over
tick,2,ctl,1,more
tick,3,ctl,1,more
tick,4,ctl,1,more
tick,5,ctl,1,done
idle,6,,,
idle,7,,,
idle,8,,,
idle,9,,,
release,10,log,2,kept
tick,10,log,2,more
tick,11,log,2,more
";

// The trace `OVERRUN` in version 2.
const PACKED: &str = "\
event,tick,length,task,job,how
release,0,,ctl,1,kept
release,0,,log,1,kept
tick,0,1,ctl,1,more
tick,1,1,ctl,1,over
tick,2,3,ctl,1,more
tick,5,1,ctl,1,done
idle,6,4,,,
release,10,,log,2,kept
tick,10,2,log,2,more
";

// The runs of a trace, one for each record.
fn read(alloc: Global, text: &str) -> Result<Vec<Run>, Fail> {
    let set = set_of(alloc, &CONTROL)?;
    Ok(read_trace(alloc, &set, text.as_bytes())?)
}

// Whether the runs of the trace, merged, are these.
fn is_merged(alloc: Global, set: &TaskSet, text: &str, expected: &[Run]) -> Result<bool, Fail> {
    let runs = read_trace(alloc, set, text.as_bytes())?;
    Ok(merge(alloc, &runs)?.as_slice() == expected)
}

// Whether the trace that is written of the trace's runs is the same text.
fn is_written(alloc: Global, set: &TaskSet, text: &str) -> Result<bool, Fail> {
    let runs = read_trace(alloc, set, text.as_bytes())?;
    Ok(write_trace(alloc, set, &runs)?.as_slice() == text.as_bytes())
}

// Whether there are `len` runs, with this run at index `place`.
fn has(runs: &[Run], len: usize, place: usize, run: Run) -> bool {
    runs.len() == len && runs.get(place) == Some(&run)
}

// Whether the runs have the release, the overrun and the idle tick of `OVERRUN` at their places.
fn has_overrun(runs: &[Run]) -> bool {
    has(runs, 15, 1, release!(2, 1, true))
        && has(runs, 15, 3, ticks!(1, 1, Over, 1))
        && has(runs, 15, 11, Run::Idles { length: 1 })
}

#[test]
fn an_overrun_is_read_and_merged(rt: HostRuntime) -> Result<(), Fail> {
    let alloc = rt.alloc();
    assert!(rt; has_overrun(&read(alloc, OVERRUN)?));
    let set = set_of(alloc, &CONTROL)?;
    assert!(rt; is_merged(alloc, &set, OVERRUN, &OVERRUN_RUNS)?);
    Ok(())
}

#[test]
fn merged_runs_are_written_in_version_2(rt: HostRuntime) -> Result<(), Fail> {
    let alloc = rt.alloc();
    assert!(rt; read(alloc, PACKED)?.as_slice() == OVERRUN_RUNS.as_slice());
    let set = set_of(alloc, &CONTROL)?;
    assert!(rt; is_written(alloc, &set, PACKED)?);
    Ok(())
}

const ROWS: [Row; 9] = [
    Row::Idle,
    kept!(1, 1),
    Row::Idle,
    Row::Idle,
    tick!(1, 1, More),
    tick!(1, 1, More),
    tick!(1, 2, More),
    tick!(1, 2, Done),
    Row::Idle,
];

const PACKED_ROWS: [Run; 7] = [
    Run::Idles { length: 1 },
    release!(1, 1, true),
    Run::Idles { length: 2 },
    ticks!(1, 1, More, 2),
    ticks!(1, 2, More, 1),
    ticks!(1, 2, Done, 1),
    Run::Idles { length: 1 },
];

#[test]
fn equal_rows_that_stand_together_are_packed(rt: HostRuntime) -> Result<(), Fail> {
    let runs = pack(rt.alloc(), &ROWS)?;
    assert!(rt; runs.as_slice() == PACKED_ROWS.as_slice());
    Ok(())
}

// The trace of `ROWS`, whose ticks and lengths are counted by hand.
const ROWS_TEXT: &str = "\
event,tick,length,task,job,how
idle,0,1,,,
release,1,,ctl,1,kept
idle,1,2,,,
tick,3,2,ctl,1,more
tick,5,1,ctl,2,more
tick,6,1,ctl,2,done
idle,7,1,,,
";

// Rows that repeat each other although they are no run, and jobs of two tasks that have the same number.
const APART: [Row; 9] = [
    dropped!(2, 1),
    dropped!(2, 1),
    tick!(1, 1, Stop),
    tick!(1, 1, Stop),
    tick!(1, 1, More),
    tick!(2, 1, More),
    tick!(2, 1, More),
    tick!(2, 1, More),
    tick!(2, 1, Over),
];

const APART_TEXT: &str = "\
event,tick,length,task,job,how
release,0,,log,1,dropped
release,0,,log,1,dropped
tick,0,1,ctl,1,stop
tick,1,1,ctl,1,stop
tick,2,1,ctl,1,more
tick,3,3,log,1,more
tick,6,1,log,1,over
";

// Whether these rows are written as this text.
fn are_written(alloc: Global, rows: &[Row], text: &str) -> Result<bool, Fail> {
    let set = set_of(alloc, &CONTROL)?;
    if rows.len() > 2_000_000 || !are_of_set(&set, rows) {
        return Ok(false);
    }
    Ok(write_rows(alloc, &set, rows)?.as_slice() == text.as_bytes())
}

#[test]
fn rows_are_written_as_the_text_of_their_runs(rt: HostRuntime) -> Result<(), Fail> {
    let alloc = rt.alloc();
    assert!(rt; are_written(alloc, &[], SECOND_HEADER)?);
    assert!(rt; are_written(alloc, &ROWS, ROWS_TEXT)?);
    assert!(rt; are_written(alloc, &APART, APART_TEXT)?);
    Ok(())
}

// The text of the refusal, or the number of runs.
fn outcome(alloc: Global, set: &TaskSet, text: &str) -> Result<String, AllocError> {
    match read_trace(alloc, set, text.as_bytes()) {
        Ok(runs) => format!(in alloc; "{} runs", runs.len()),
        Err(TraceFault::Memory) => Err(AllocError),
        Err(fault) => format!(in alloc; "{fault}"),
    }
}

fn is_answered(alloc: Global, text: &str, expected: &str) -> Result<bool, Fail> {
    let set = set_of(alloc, &CONTROL)?;
    Ok(outcome(alloc, &set, text)?.as_str() == expected)
}

// Whether reading records after this header gives the result at the end of their line, in which the records are
// separated by spaces.
fn is_line_answered(alloc: Global, header: &str, line: &str) -> Result<bool, Fail> {
    let Some((records, expected)) = line.split_once(" => ") else {
        return Ok(false);
    };
    let lines = records.replace(alloc, " ", "\n")?;
    let text = format!(in alloc; "{header}{lines}\n")?;
    is_answered(alloc, text.as_str(), expected)
}

// Texts without a header, or with a wrong one, each with the expected result.
static HEADERS: [(&str, &str); 10] = [
    ("", "line 1: Header"),
    ("\n\n", "line 1: Header"),
    ("event,tick,task,job,how\n", "0 runs"),
    ("event,tick,task,job,how", "0 runs"),
    ("\u{feff}event,tick,task,job,how\r\n", "0 runs"),
    ("event,tick,task,job\n", "line 1: Header"),
    ("event,tick,task,job,how,\n", "line 1: Header"),
    ("idle,0,,,\n", "line 1: Header"),
    ("event,tick,length,task,job,how", "0 runs"),
    ("event,tick,length,task,job\n", "line 1: Header"),
];

// Records after the header, and the expected result.
const RECORDS: &str = "\
release,0,ctl,1,kept tick,0,ct => line 3: BadRecord
release,0,ctl,1,kept tick,0,ctl,1,mor => line 3: UnknownEvent
idle,0,,, idle,0,,, => line 3: WrongTick
idle,1,,, => line 2: WrongTick
idle,0,,, idle,1,,, => 2 runs
\"idle\",0,\"\",,  idle,1,,, => 2 runs
release,0,ctl,1,kept, => line 2: BadRecord
release,0,,ctl,1,kept => line 2: BadRecord
release,0,ctl,1 => line 2: BadRecord
Release,0,ctl,1,kept => line 2: UnknownEvent
release,0,ctl,1,more => line 2: UnknownEvent
tick,0,ctl,1,kept => line 2: UnknownEvent
tick,0,ctl,1, => line 2: UnknownEvent
idle,0,ctl,, => line 2: UnknownEvent
idle,0,,1, => line 2: UnknownEvent
idle,0,,,more => line 2: UnknownEvent
idle,x,ctl,1, => line 2: UnknownEvent
tick,x,nix,x,mor => line 2: UnknownEvent
tick,x,nix,x,more => line 2: UnknownTask
tick,0,,1,more => line 2: UnknownTask
tick,1,ctl,x,more => line 2: BadNumber
tick,,ctl,1,more => line 2: BadNumber
tick,+0,ctl,1,more => line 2: BadNumber
idle,,,, => line 2: BadNumber
tick,1,ctl,1,more => line 2: WrongTick
tick,0,ctl,4294967295,more tick,0000000001,log,0000000000,done => 2 runs
tick,0,ctl,4294967296,more => line 2: BadNumber
tick,0,ctl,9999999999,more => line 2: BadNumber
tick,0,ctl,00000000001,more => line 2: BadNumber
tick,00000000000,ctl,1,more => line 2: BadNumber
";

#[test]
fn another_header_is_refused(rt: HostRuntime) -> Result<(), Fail> {
    for (text, expected) in &HEADERS {
        assert!(rt; is_answered(rt.alloc(), text, expected)?, "{text}");
    }
    Ok(())
}

#[test]
fn the_first_refusal_of_the_records_is_the_answer(rt: HostRuntime) -> Result<(), Fail> {
    for line in RECORDS.lines() {
        assert!(rt; is_line_answered(rt.alloc(), HEADER, line)?, "{line}");
    }
    Ok(())
}

// Records after the header of version 2, and the expected result.
const SECOND: &str = "\
idle,0,1,, => line 2: NotSix
release,0,ctl,1,kept => line 2: NotSix
x,x,x,x => line 2: NotSix
tick,x,x,nix,x,mor => line 2: UnknownEvent
release,0,1,ctl,1,kept => line 2: UnknownEvent
release,0,0,nix,x,kept => line 2: UnknownEvent
idle,0,1,ctl,, => line 2: UnknownEvent
idle,0,1,,1, => line 2: UnknownEvent
idle,0,1,,,more => line 2: UnknownEvent
tick,x,x,nix,x,more => line 2: UnknownTask
release,1,,nix,1,kept => line 2: UnknownTask
tick,1,x,ctl,1,more => line 2: BadNumber
tick,1,1,ctl,x,more => line 2: BadNumber
tick,0,,ctl,1,more => line 2: BadNumber
tick,0,4294967296,ctl,1,more => line 2: BadNumber
release,,,ctl,1,kept => line 2: BadNumber
idle,x,1,,, => line 2: BadNumber
idle,0,,,, => line 2: BadNumber
idle,0,+1,,, => line 2: BadNumber
idle,0,00000000001,,, => line 2: BadNumber
idle,1,0,,, => line 2: WrongTick
tick,1,2,ctl,1,done => line 2: WrongTick
idle,0,3,,, idle,1,1,,, => line 3: WrongTick
idle,0,3,,, release,4,,ctl,1,kept => line 3: WrongTick
idle,0,0,,, => line 2: BadLength
tick,0,0,ctl,1,more => line 2: BadLength
tick,0,0,ctl,1,done => line 2: BadLength
tick,0,2,ctl,1,over => line 2: BadLength
tick,0,2,ctl,1,stop => line 2: BadLength
release,0,,ctl,1,kept tick,0,2,ctl,1,done => line 3: BadLength
tick,0,100000001,ctl,1,done => line 2: BadLength
idle,0,100000001,,, => line 2: TooManyTicks
idle,0,4294967295,,, => line 2: TooManyTicks
idle,0,99999999,,, tick,99999999,2,ctl,1,more => line 3: TooManyTicks
idle,0,100000000,,, idle,100000000,1,,, => line 3: TooManyTicks
idle,0,100000000,,, => 1 runs
idle,0,100000000,,, release,100000000,,ctl,1,kept => 2 runs
idle,0,99999999,,, idle,99999999,1,,, => 2 runs
idle,0,0000000003,,, idle,3,1,,, => 2 runs
release,0,,ctl,1,kept tick,0,2,ctl,1,more => 2 runs
release,0,,ctl,1,kept tick,0,1,ctl,1,done => 2 runs
";

#[test]
fn the_first_refusal_of_version_2_is_the_answer(rt: HostRuntime) -> Result<(), Fail> {
    for line in SECOND.lines() {
        assert!(rt;
            is_line_answered(rt.alloc(), SECOND_HEADER, line)?,
            "{line}"
        );
    }
    Ok(())
}

// A record of version 2 with quotes.
const QUOTED: &str = "\"release\",0,,\"ctl\",\"1\",kept\n";

// A header, a text that is repeated this many times after it, the last text, and the expected result.
type LongText = (&'static str, u32, &'static str, &'static str, &'static str);

static LONG_TEXTS: [LongText; 9] = [
    ("", 200_000, ",", "\n", "line 1: Header"),
    (HEADER, 200_000, ",", "", "line 2: BadRecord"),
    (SECOND_HEADER, 200_000, ",", "", "line 2: NotSix"),
    // Quotes, and line feeds within them.
    (SECOND_HEADER, 50_000, "\"\n\",", "", "line 2: NotSix"),
    (SECOND_HEADER, 50_000, "\"\"\"\",", "", "line 2: NotSix"),
    (
        SECOND_HEADER,
        10_000,
        QUOTED,
        "x,,,,,,\n",
        "line 10002: NotSix",
    ),
    (
        SECOND_HEADER,
        10_000,
        QUOTED,
        "\"x\",,,,,\n",
        "line 10002: UnknownEvent",
    ),
    (
        SECOND_HEADER,
        10_000,
        QUOTED,
        "\",,,,,,\",,,,,\n",
        "line 10002: UnknownEvent",
    ),
    (SECOND_HEADER, 10_000, QUOTED, "", "10000 runs"),
];

// A long text, whose records have their fields counted before they are read: a header, the first text `count` times,
// and the last text.
fn long_text(
    alloc: Global,
    header: &str,
    count: u32,
    first: &str,
    last: &str,
) -> Result<String, AllocError> {
    let mut text = String::new(alloc);
    text.push_str(header)?;
    for _ in 0..count {
        text.push_str(first)?;
    }
    text.push_str(last)?;
    Ok(text)
}

// Whether reading the long text gives its result.
fn is_long_answered(alloc: Global, case: &LongText) -> Result<bool, Fail> {
    let (header, count, first, last, expected) = *case;
    let text = long_text(alloc, header, count, first, last)?;
    is_answered(alloc, text.as_str(), expected)
}

#[test]
fn a_wide_record_of_a_long_text_is_refused_by_its_width(rt: HostRuntime) -> Result<(), Fail> {
    for (place, case) in LONG_TEXTS.iter().enumerate() {
        assert!(rt; is_long_answered(rt.alloc(), case)?, "{place}");
    }
    Ok(())
}

// A trace of this number of jobs.
fn many_jobs(alloc: Global, count: u32) -> Result<String, AllocError> {
    let mut text = String::from_str(alloc, SECOND_HEADER)?;
    for k in 0..count {
        push_tick(alloc, &mut text, k)?;
    }
    Ok(text)
}

fn push_tick(alloc: Global, text: &mut String, k: u32) -> Result<(), AllocError> {
    let row = format!(in alloc; "tick,{k},1,ctl,{},done\n", k.wrapping_add(1))?;
    text.push_str(row.as_str())
}

// Whether the trace of 50,000 jobs is read as its runs.
fn are_many_read(alloc: Global) -> Result<bool, Fail> {
    let text = many_jobs(alloc, 50_000)?;
    let runs = read(alloc, text.as_str())?;
    Ok(has(&runs, 50_000, 49_999, ticks!(1, 50_000, Done, 1)))
}

// Whether the trace of 50,000 jobs is written as it was read.
fn are_many_written(alloc: Global) -> Result<bool, Fail> {
    let set = set_of(alloc, &CONTROL)?;
    let text = many_jobs(alloc, 50_000)?;
    is_written(alloc, &set, text.as_str())
}

#[test]
fn a_text_of_many_runs_is_read_and_written(rt: HostRuntime) -> Result<(), Fail> {
    assert!(rt; are_many_read(rt.alloc())?);
    assert!(rt; are_many_written(rt.alloc())?);
    Ok(())
}

// The words of docs/FORMATS.md for a release that is kept or dropped, and for each way in which a tick ends.
#[test]
fn a_release_and_a_tick_have_the_words_of_the_format(rt: HostRuntime) {
    assert_eq!(rt; (kept_word(true), kept_word(false)), ("kept", "dropped"));
    assert_eq!(rt; (how_word(More), how_word(Done)), ("more", "done"));
    assert_eq!(rt; (how_word(Stop), how_word(Over)), ("stop", "over"));
}
