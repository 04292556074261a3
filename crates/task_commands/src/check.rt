//! The command `check`.
ghost use Rattle.command.specs.Serves.{Serves};
ghost use Rattle.task_commands.specs.Check.{check};

use crate::check_lines::check_text;
use command::{Admitted, FileName, MOST_TABLE_BYTES, fetch, read_admitted};
use mc_world::Shelf;
use replies::{Reply, Stop};
use std::alloc::Global;

/// `check TASKS`.
#[derive(Drop)]
pub struct CheckCommand<'a> {
    pub tasks: FileName<'a>,
}

impl<'a> CheckCommand<'a> {
    /// The reply: the loads of the set in the file, and its rule, if the test admits it.
    pub fn reply<S: Shelf>(&self, alloc: Global, shelf: &mut S) -> Result<Reply, Stop>
        ensures { Serves 1 (check self.now.tasks) (S.state shelf.old) (S.state shelf.new) result }
    {
        let bytes = fetch(alloc, shelf, 1, &self.tasks, MOST_TABLE_BYTES)?;
        let Admitted { set, loads, rule } = read_admitted(alloc, &bytes)?;
        Ok(Reply::new(0, check_text(alloc, &set, &loads, rule)?))
    }
}
