//! The error messages for a task file.
ghost use Rattle.std.specs.Prelude.{◌≡◌, ◌++◌, IfOk, IsErr, codes, string_bytes};
ghost use Rattle.replies.specs.TaskLines as lines;

use mc_task::{SetFault, TaskNo};
use std::alloc::{AllocError, Global};
use task_file::TaskFault;

/// The error message for a set whose periods are out of range from this task on.
pub fn range_line(alloc: Global, task: TaskNo) -> Result<Vec<u8>, AllocError>
    ensures { IfOk result (λ line. line.items ≡ lines.range_line task.0) }
{
    short_task_line(alloc, u64::from(task.0), ": periods out of range\n")
}

/// The error message for a task file. Out of memory has none.
pub fn task_fault_line(alloc: Global, fault: &TaskFault) -> Result<Vec<u8>, AllocError>
    ensures line { IfOk result (λ line. line.items ≡ lines.task_fault_line fault.now) }
    ensures memory { fault.now ≡ TaskFault.Memory → IsErr result }
{
    match fault {
        TaskFault::Memory => Err(AllocError),
        TaskFault::NotToml => plain(alloc, "task file: not TOML\n"),
        TaskFault::TopKey { key } => {
            finished(plain(alloc, "task file: unknown key ")?, key.bytes())
        }
        TaskFault::BadVersion => plain(alloc, "task file: unknown version\n"),
        TaskFault::NoTasks => plain(alloc, "task file: no tasks\n"),
        TaskFault::KeyMissing { task, key } => {
            task_line(alloc, *task, ": missing key ", key.text().as_bytes())
        }
        TaskFault::KeyUnknown { task, key } => {
            task_line(alloc, *task, ": unknown key ", key.bytes())
        }
        TaskFault::WrongKind { task, key } => {
            task_line(alloc, *task, ": wrong kind of ", key.text().as_bytes())
        }
        TaskFault::OutOfRange { task, key } => {
            task_line(alloc, *task, ": out of range ", key.text().as_bytes())
        }
        TaskFault::BadName { task } => short_task_line(alloc, *task, ": bad name\n"),
        TaskFault::HighOnLow { task } => {
            short_task_line(alloc, *task, ": high budget on a low task\n")
        }
        TaskFault::Set(fault) => set_fault_line(alloc, fault),
    }
}

fn set_fault_line(alloc: Global, fault: &SetFault) -> Result<Vec<u8>, AllocError>
    ensures { IfOk result (λ line. line.items ≡ lines.set_fault_line fault.now) }
{
    match *fault {
        SetFault::Empty => plain(alloc, "task file: no tasks\n"),
        SetFault::TooMany { count } => {
            Ok(format!(in alloc; "task file: {count} tasks, at most 128\n")?.into_bytes())
        }
        SetFault::ZeroNumber { task } => {
            short_task_line(alloc, u64::from(task.0), ": a number is 0\n")
        }
        SetFault::BudgetOrder { task } => short_task_line(
            alloc,
            u64::from(task.0),
            ": high budget below low budget\n",
        ),
        SetFault::SameName { first, second } => {
            let (first, second) = (first.0, second.0);
            let line = format!(in alloc; "task file: tasks {first} and {second} have one name\n")?;
            Ok(line.into_bytes())
        }
    }
}

fn plain(alloc: Global, line: &str) -> Result<Vec<u8>, AllocError>
    ensures { IfOk result (λ bytes. bytes.items ≡ line.now) }
{
    line.as_bytes().to_vec(alloc)
}

fn task_line(alloc: Global, task: u64, words: &str, text: &[u8]) -> Result<Vec<u8>, AllocError>
    ensures { IfOk result (λ line. line.items ≡ lines.task_line task words.now text.now) }
{
    finished(short_task_line(alloc, task, words)?, text)
}

fn short_task_line(alloc: Global, task: u64, words: &str) -> Result<Vec<u8>, AllocError>
    ensures { IfOk result (λ line. line.items ≡ lines.short_task_line task words.now) }
{
    Ok(format!(in alloc; "task file: task {task}{words}")?.into_bytes())
}

/// The front, the text, and a line feed.
pub fn finished(mut front: Vec<u8>, text: &[u8]) -> Result<Vec<u8>, AllocError>
    ensures { IfOk result (λ line. line.items ≡ front.items ++ (text.now ++ codes "\n")) }
{
    front.extend_from_slice(text)?;
    front.push(b'\n')?;
    Ok(front)
}
