//! The command `partition`.
ghost use Rattle.std.specs.Prelude.{◌≡◌, ◌≤◌, ◌++◌, IfOk, OnOk, length};
ghost use Rattle.command.specs.Serves.{Serves};
ghost use Rattle.part_commands.specs.Partition as spec;
ghost use Rattle.part_commands.specs.Partition.{partition};
ghost use Rattle.part_commands.specs.Planned.{parted_of};

use crate::parted::{Parted, Processors, read_parted};
use command::{FileName, MOST_TABLE_BYTES, fetch};
use mc_task::Task;
use mc_world::Shelf;
use part_fit::part;
use replies::{Reply, Stop};
use std::alloc::{AllocError, Global};

/// `partition TASKS M`.
#[derive(Drop)]
pub struct PartitionCommand<'a> {
    pub tasks: FileName<'a>,
    pub processors: Processors,
}

impl<'a> PartitionCommand<'a> {
    /// The reply: on which processor each task of the set in the file is.
    pub fn reply<S: Shelf>(&self, alloc: Global, shelf: &mut S) -> Result<Reply, Stop>
        ensures { Serves 1 (partition self.now.tasks self.now.processors) (S.state shelf.old) (S.state shelf.new) result }
    {
        let bytes = fetch(alloc, shelf, 1, &self.tasks, MOST_TABLE_BYTES)?;
        let parted = read_parted(alloc, &bytes, &self.processors)?;
        let processors = self.processors.get() as u32;
        Ok(Reply::new(0, partition_text(alloc, &parted, processors)?))
    }
}

// The lines of the processors.
fn partition_text(alloc: Global, parted: &Parted, processors: u32) -> Result<Vec<u8>, AllocError>
    requires tasks { length parted.now.parts ≡ length parted.now.set.tasks }
    requires few { processors ≤ 16 }
    ensures { IfOk result (λ text. text.items ≡ spec.partition_text processors (parted_of parted.now)) }
{
    let mut text = Vec::new(alloc);
    for processor in 1..processors + 1 {
        text.extend_from_slice(&processor_line(alloc, parted, processor)?)?;
    }
    Ok(text)
}

// The processor, and the names of its tasks.
fn processor_line(alloc: Global, parted: &Parted, processor: u32) -> Result<Vec<u8>, AllocError>
    requires { length parted.now.parts ≡ length parted.now.set.tasks }
    ensures { IfOk result (λ line. line.items ≡ spec.processor_line (parted_of parted.now) processor) }
{
    let mut line = format!(in alloc; "processor {processor}")?.into_bytes();
    match part(alloc, &parted.set, &parted.parts, processor) {
        Ok(Some(tasks)) => add_names(&mut line, tasks.as_slice())?,
        Ok(None) => {}
        Err(_) => return Err(AllocError),
    }
    line.push(b'\n')?;
    Ok(line)
}

// Adds the names of the tasks, each after a space.
fn add_names(line: &mut Vec<u8>, tasks: &[Task]) -> Result<(), AllocError>
    ensures { OnOk result (line.new.items ≡ line.old.items ++ spec.spaced_names tasks.now) }
{
    for task in tasks {
        line.push(b' ')?;
        line.extend_from_slice(task.name.bytes())?;
    }
    Ok(())
}
