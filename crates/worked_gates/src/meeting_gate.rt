//! A gate that stops each of two threads until the other has come too.
use crate::awaited::Awaited;
use executive::{Gate, Grant, TaskPass};

/// Holds the first task's thread until the second's is there, and the second's until the first's is.
#[derive(Drop)]
pub struct MeetingGate {
    tasks: (u32, u32),
    first: Awaited,
    second: Awaited,
}

impl MeetingGate {
    /// A gate at which the threads of the tasks with these numbers meet.
    pub fn of(first: u32, second: u32) -> MeetingGate {
        MeetingGate {
            tasks: (first, second),
            first: Awaited::new(),
            second: Awaited::new(),
        }
    }

    /// Whether both threads came, and neither gave up.
    pub fn is_kept(&self) -> bool {
        self.first.is_kept() && self.second.is_kept()
    }
}

impl Gate for MeetingGate {
    fn enter(&self, task: u32, _pass: &TaskPass) {
        if task == self.tasks.0 {
            self.first.comes();
            self.second.hold();
        } else if task == self.tasks.1 {
            self.second.comes();
            self.first.hold();
        }
    }

    fn released(&self, _task: u32, _pass: &TaskPass) {}

    fn step(&self, _task: u32, _grant: &Grant) {}
}
