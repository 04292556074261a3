//! The command `accept`.
ghost use Rattle.std.specs.Prelude.{◌≡◌, ◌≤◌, ◌<◌, ◌+◌, ◌^◌, IfOk, length};
ghost use Rattle.command.specs.Serves.{ServesAlone};
ghost use Rattle.study_commands.specs.Accept as spec;
ghost use Rattle.study_commands.specs.Accept.{accept};

use command::{TaskCount, Within};
use replies::{Reply, Stop};
use std::alloc::{AllocError, Global};
use std::thread::Threads;
use study::{table, table_alone};

/// How many sets a study has, 1 to 10,000.
pub type SetCount = Within<1, 10_000>;

/// `accept NUMBER SETS TASKCOUNT`.
#[derive(Drop)]
pub struct AcceptCommand {
    /// The number of the first set; that of the one after the last is below 2^64.
    pub number: u64,
    pub sets: SetCount,
    /// How many tasks each set has.
    pub tasks: TaskCount,
}

impl AcceptCommand {
    /// The reply, which needs no file: how many of the sets have each stretch. Several threads try the sets, and none of them waits.
    pub fn reply<R: Threads + Sync>(&self, rt: &R, alloc: Global) -> Result<Reply, Stop>
        requires { self.now.number + self.now.sets < 2 ^ 64 }
        ensures { ServesAlone (accept self.now.number self.now.sets self.now.tasks) result }
    {
        let (sets, tasks) = (self.sets.get() as u32, self.tasks.get() as u32);
        let counts = table(rt, alloc, self.number, sets, tasks)?;
        Ok(Reply::new(0, table_text(alloc, &counts)?))
    }

    /// The reply that [`AcceptCommand::reply`] gives, by the caller's thread alone.
    pub fn reply_alone(&self, alloc: Global) -> Result<Reply, Stop>
        requires { self.now.number + self.now.sets < 2 ^ 64 }
        ensures { ServesAlone (accept self.now.number self.now.sets self.now.tasks) result }
    {
        let (sets, tasks) = (self.sets.get() as u32, self.tasks.get() as u32);
        let alone = table_alone(self.number, sets, tasks);
        Ok(Reply::new(0, table_text(alloc, &alone)?))
    }
}

// A line for each percentage.
fn table_text(alloc: Global, counts: &[u32]) -> Result<Vec<u8>, AllocError>
    requires { length counts.now ≤ 11 }
    ensures { IfOk result (λ text. text.items ≡ spec.table_text counts.now) }
{
    let mut text = Vec::new(alloc);
    let mut s = 100u32;
    for count in counts {
        let line = format!(in alloc; "{s} {count}\n")?;
        text.extend_from_slice(line.as_bytes())?;
        s += 10;
    }
    Ok(text)
}
