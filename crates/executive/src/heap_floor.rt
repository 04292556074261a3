//! A floor in a heap block of its own with the last call, so that a turn moves only a pointer.
ghost use Rattle.std.specs.Prelude.{◌≡◌, ◌≤◌, ◌^◌, IfOk, IfErr};
ghost use Rattle.mc_task.specs.TaskSet.{IsIn};
ghost use Rattle.executive.specs.Histories.{MayCall, answer_to, after_call, entry};
ghost use Rattle.executive.specs.Stands.{IsKept};
ghost use Rattle.executive.specs.Shows.{shown_of};

use crate::entry::{Answer, Call, Entry};
use mc_task::TaskNo;
use status_board::Shown;
use std::alloc::Global;
use std::marker::Model;
use timetable::Floor;

/// A floor, and the last call.
#[derive(Drop)]
pub struct CalledFloor {
    pub floor: Floor,
    pub last: Entry,
}

/// A floor on the heap, and the last call. In contracts it is both of these.
#[derive(Drop)]
pub struct HeapFloor {
    block: Box<CalledFloor>,
}

impl Model for HeapFloor {
    ghost use Rattle.executive.specs.declared.heap_floor.CalledFloor.{CalledFloor};

    ghost Value = { CalledFloor };

    ghost view = { λ f. f.block.value };
}

impl CalledFloor {
    fn into_floor(self) -> Floor
        ensures { result ≡ self.floor }
    {
        let CalledFloor { floor, last: _ } = self;
        floor
    }
}

impl HeapFloor {
    // Puts the floor on the heap, where no call was made yet. If an allocation fails, the floor comes back.
    pub(crate) fn new(alloc: Global, floor: Floor) -> Result<HeapFloor, Floor>
        ensures ok { IfOk result (λ called. called.floor ≡ floor) }
        ensures memory { IfErr result (λ f. f ≡ floor) }
    {
        let last = Entry::NONE;
        match Box::new(alloc, CalledFloor { floor, last }) {
            Ok(block) => Ok(HeapFloor { block }),
            Err(failed) => Err(failed.value.into_floor()),
        }
    }

    // The floor, taken off the heap.
    pub(crate) fn into_floor(self) -> Floor
        ensures { result ≡ self.floor }
    {
        Box::into_inner(self.block).into_floor()
    }

    // The number of ticks that ended, and the mode.
    #[tactic(auto, using(crate::proofs::Shows::few_ticks))]
    pub(crate) fn shown(&self) -> Shown
        ensures shown { result ≡ shown_of self.now.floor }
        ensures few { result.ticks ≤ 2 ^ 62 }
    {
        let core = self.block.floor.core();
        Shown {
            ticks: core.ticks(),
            high_mode: core.high_mode(),
        }
    }

    // Makes a call of a task, which is then the last one, and returns its answer.
    #[inline(always)]
    pub(crate) fn answer(&mut self, task: TaskNo, call: Call) -> Answer
        requires in_set { IsIn self.old.floor.core.set task.0 }
        requires may { MayCall self.old.floor task.0 call }
        ensures answer { result ≡ answer_to self.old.floor task.0 call }
        ensures floor { self.new.floor ≡ after_call self.old.floor task.0 call }
        ensures last { self.new.last ≡ entry task.0 call result }
        ensures kept { IsKept self.new.floor }
    {
        let answer = answered(&mut self.block.floor, task, call);
        self.block.last = Entry { task, call, answer };
        answer
    }
}

// Makes the call on the floor.
#[inline(always)]
fn answered(floor: &mut Floor, task: TaskNo, call: Call) -> Answer
    requires in_set { IsIn floor.old.core.set task.0 }
    requires may { MayCall floor.old task.0 call }
    ensures answer { result ≡ answer_to floor.old task.0 call }
    ensures floor { floor.new ≡ after_call floor.old task.0 call }
    ensures kept { IsKept floor.new }
{
    let answer = match call {
        Call::Release => Answer::Released(floor.release(task)),
        Call::Take => Answer::Taken(floor.grant(task)),
        Call::Outcome(done) => match floor.core().out() {
            Some(job) => Answer::Settled(floor.outcome(job, done)),
            None => unreachable!(),
        },
        Call::Idle => Answer::Idled(floor.idle()),
        Call::Look => Answer::Next(floor.next_act()),
    };
    let _sound = floor.core().ticks();
    answer
}
