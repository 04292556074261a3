//! A record of a trace as a run.
ghost use Rattle.std.specs.Prelude.{◌≡◌, ◌+◌, ◌≤◌, List, length, option_map};
ghost use lib.Pointwise.{pointwise};
ghost use Rattle.std.specs.Str.{bytes_eq};
ghost use Rattle.csv.specs.Records.{fields_of};
ghost use Rattle.csv_records.specs.Fields.{field};
ghost use Rattle.numeral.specs.Numeral as text;
ghost use Rattle.mc_task.specs.Faults.{named};
ghost use Rattle.mc_model.specs.Sums.{total};
ghost use Rattle.mc_model.specs.Runs.{length_of};
ghost use Rattle.mc_model.specs.declared.run.Run.{Run};
ghost use Rattle.trace_format.specs.Events as events;
ghost use Rattle.trace_format.specs.TraceFile as file;

use crate::TraceCause;
use crate::event::Event;
use crate::version::Version;
use csv::ByteRecord;
use csv_records::{field, is};
use mc_model::{How, Run};
use mc_task::{JobId, TaskNo, TaskSet};
use numeral::number;

// The version that the record is the header of.
pub fn version_of(fields: &ByteRecord) -> Option<Version>
    ensures { result ≡ file.version_of (fields_of fields.now) }
{
    if is_first_header(fields) {
        Some(Version::One)
    } else if is_second_header(fields) {
        Some(Version::Two)
    } else {
        None
    }
}

// Whether the record is `event,tick,task,job,how`.
#[tactic(auto, using(csv_records::proofs::WordLemmas::words_by_column))]
fn is_first_header(fields: &ByteRecord) -> bool
    ensures { result ≡ pointwise bytes_eq (fields_of fields.now) (file.header_words Version.One) }
{
    fields.len() == 5
        && (is(field(fields, 0), "event")
            && (is(field(fields, 1), "tick")
                && (is(field(fields, 2), "task")
                    && (is(field(fields, 3), "job") && is(field(fields, 4), "how")))))
}

// Whether the record is `event,tick,length,task,job,how`.
#[tactic(auto, using(csv_records::proofs::WordLemmas::words_by_column))]
fn is_second_header(fields: &ByteRecord) -> bool
    ensures { result ≡ pointwise bytes_eq (fields_of fields.now) (file.header_words Version.Two) }
{
    fields.len() == 6
        && (is(field(fields, 0), "event")
            && (is(field(fields, 1), "tick")
                && (is(field(fields, 2), "length")
                    && (is(field(fields, 3), "task")
                        && (is(field(fields, 4), "job") && is(field(fields, 5), "how"))))))
}

// The refusal of a record with another number of fields.
pub fn wrong_width(version: Version) -> TraceCause
    ensures { result ≡ file.wrong_width version }
{
    match version {
        Version::One => TraceCause::BadRecord,
        Version::Two => TraceCause::NotSix,
    }
}

// The run of a record after this number of runs, if its tick is the next one; or why it is refused. The likely task is
// tried first. Inlined, so that the loop over the records makes no call for a record.
#[inline(always)]
#[tactic(auto, unfolding(crate::specs::TraceFile::record_run))]
pub fn record_run(
    set: &TaskSet,
    version: Version,
    count: u32,
    due: u32,
    likely: TaskNo,
    fields: &ByteRecord,
) -> Result<Run, TraceCause>
    requires { due ≤ 100000000 }
    ensures { (before : List Run) → count ≡ length before → due ≡ total length_of before → result ≡ file.record_run set.now.tasks version before (fields_of fields.now) }
{
    if count >= 2_000_000 {
        return Err(TraceCause::TooMany);
    }
    if fields.len() != version.columns().width {
        return Err(wrong_width(version));
    }
    match event_of(version, fields) {
        Some(Event::Release { kept }) => {
            let event = Event::Release { kept };
            run_at(set, version, due, likely, fields, event)
        }
        Some(Event::Tick { how }) => {
            let event = Event::Tick { how };
            run_at(set, version, due, likely, fields, event)
        }
        Some(Event::Idle) => run_at(set, version, due, likely, fields, Event::Idle),
        None => Err(TraceCause::UnknownEvent),
    }
}

// The run of a record that says this event, if its tick is the next one. The caller calls it once for each kind of
// event, so that the inlined code tests no event twice.
#[inline(always)]
fn run_at(
    set: &TaskSet,
    version: Version,
    due: u32,
    likely: TaskNo,
    fields: &ByteRecord,
    event: Event,
) -> Result<Run, TraceCause>
    requires { due ≤ 100000000 }
    ensures { result ≡ file.run_at set.now.tasks version due (fields_of fields.now) event }
{
    let Some(task) = task_in(set, version, likely, fields, event) else {
        return Err(TraceCause::UnknownTask);
    };
    let Some(numbers) = numbers_in(version, fields, event) else {
        return Err(TraceCause::BadNumber);
    };
    if numbers.tick != due {
        return Err(TraceCause::WrongTick);
    }
    if !is_length(event, numbers.length) {
        return Err(TraceCause::BadLength);
    }
    if u64::from(due) + u64::from(numbers.length) > 100_000_000 {
        return Err(TraceCause::TooManyTicks);
    }
    Ok(run_from(event, task, numbers))
}

// The number of the task of a release or a tick; 0, the number of no task, for an idle record.
#[inline(always)]
fn task_in(
    set: &TaskSet,
    version: Version,
    likely: TaskNo,
    fields: &ByteRecord,
    event: Event,
) -> Option<TaskNo>
    ensures { option_map (λ task. task.0) result ≡ file.task_in set.now.tasks version (fields_of fields.now) event }
{
    match event {
        Event::Release { .. } | Event::Tick { .. } => {
            find_likely(set, field(fields, version.columns().task), likely)
        }
        Event::Idle => Some(TaskNo(0)),
    }
}

// The task with this name; the likely one is tried first.
#[inline(always)]
fn find_likely(set: &TaskSet, name: &[u8], likely: TaskNo) -> Option<TaskNo>
    ensures { option_map (λ task. task.0) result ≡ named name.now set.now.tasks }
{
    // The names differ, so no other task has the name of the likely one.
    let _is_set = set.len();
    if set.is_named(likely, name) {
        return Some(likely);
    }
    set.find_near(name, set.task_after(likely))
}

// The tick, the length and the job's number of a record.
#[derive(Clone, Copy, Debug, PartialEq, Eq)]
pub struct RecordNumbers {
    pub tick: u32,
    pub length: u32,
    pub count: u32,
}

// The numbers of a record; `None` if one of its fields is not a number.
#[inline(always)]
fn numbers_in(version: Version, fields: &ByteRecord, event: Event) -> Option<RecordNumbers>
    ensures { result ≡ file.numbers_in version (fields_of fields.now) event }
{
    match event {
        Event::Release { .. } => Some(RecordNumbers {
            tick: tick_in(fields)?,
            length: 0,
            count: count_in(version, fields)?,
        }),
        Event::Tick { .. } => Some(RecordNumbers {
            tick: tick_in(fields)?,
            length: length_in(version, fields)?,
            count: count_in(version, fields)?,
        }),
        Event::Idle => Some(RecordNumbers {
            tick: tick_in(fields)?,
            length: length_in(version, fields)?,
            count: 0,
        }),
    }
}

// The tick of a record.
#[inline(always)]
fn tick_in(fields: &ByteRecord) -> Option<u32>
    ensures { result ≡ text.number (field (fields_of fields.now) 1) }
{
    number(field(fields, 1))
}

// The job's number of a record.
#[inline(always)]
fn count_in(version: Version, fields: &ByteRecord) -> Option<u32>
    ensures { result ≡ text.number (field (fields_of fields.now) (events.task_column version + 1)) }
{
    number(field(fields, version.columns().task + 1))
}

// Whether a record that says this event may have this number of ticks.
#[inline(always)]
fn is_length(event: Event, length: u32) -> bool
    ensures { result ≡ file.is_length event length }
{
    match event {
        Event::Release { .. } => true,
        Event::Tick { how } => length == 1 || (length > 1 && matches!(how, How::More)),
        Event::Idle => length >= 1,
    }
}

#[inline(always)]
fn run_from(event: Event, task: TaskNo, numbers: RecordNumbers) -> Run
    ensures { result ≡ file.run_from event task.0 numbers }
{
    let job = JobId {
        task,
        count: numbers.count,
    };
    let length = numbers.length;
    match event {
        Event::Release { kept } => Run::Release { job, kept },
        Event::Tick { how } => Run::Ticks { job, how, length },
        Event::Idle => Run::Idles { length },
    }
}

// The number of ticks of a tick or idle record.
#[inline(always)]
fn length_in(version: Version, fields: &ByteRecord) -> Option<u32>
    ensures { result ≡ file.length_in version (fields_of fields.now) }
{
    match version.columns().length {
        Some(column) => number(field(fields, column)),
        None => Some(1),
    }
}

#[inline(always)]
#[tactic(auto, unfolding(crate::specs::Events::event_of))]
fn event_of(version: Version, fields: &ByteRecord) -> Option<Event>
    ensures { result ≡ events.event_of version (fields_of fields.now) }
{
    let word = field(fields, 0);
    let column = version.columns().task;
    if is(word, "release") {
        if has_no_length(version, fields) {
            return release_event(field(fields, column + 2));
        }
        return None;
    }
    if is(word, "tick") {
        return tick_event(field(fields, column + 2));
    }
    if is(word, "idle") {
        let task = field(fields, column);
        let job = field(fields, column + 1);
        return idle_event(task, job, field(fields, column + 2));
    }
    None
}

#[inline(always)]
fn has_no_length(version: Version, fields: &ByteRecord) -> bool
    ensures { result ≡ events.has_no_length version (fields_of fields.now) }
{
    match version.columns().length {
        Some(column) => field(fields, column).is_empty(),
        None => true,
    }
}

#[inline(always)]
#[tactic(auto, unfolding(crate::specs::Events::release_event))]
fn release_event(how: &[u8]) -> Option<Event>
    ensures { result ≡ events.release_event how.now }
{
    if is(how, "kept") {
        Some(Event::Release { kept: true })
    } else if is(how, "dropped") {
        Some(Event::Release { kept: false })
    } else {
        None
    }
}

#[inline(always)]
#[tactic(auto, unfolding(crate::specs::Events::tick_event))]
fn tick_event(how: &[u8]) -> Option<Event>
    ensures { result ≡ events.tick_event how.now }
{
    if is(how, "more") {
        Some(Event::Tick { how: How::More })
    } else if is(how, "done") {
        Some(Event::Tick { how: How::Done })
    } else if is(how, "stop") {
        Some(Event::Tick { how: How::Stop })
    } else if is(how, "over") {
        Some(Event::Tick { how: How::Over })
    } else {
        None
    }
}

#[inline(always)]
#[tactic(auto, unfolding(crate::specs::Events::idle_event))]
fn idle_event(task: &[u8], job: &[u8], how: &[u8]) -> Option<Event>
    ensures { result ≡ events.idle_event task.now job.now how.now }
{
    if task.len() == 0 && job.len() == 0 && how.len() == 0 {
        Some(Event::Idle)
    } else {
        None
    }
}
