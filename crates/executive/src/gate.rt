//! What a caller may observe of the threads that take the ticks of a floor.
ghost use Rattle.executive.specs.Gates.{HasReleased};
ghost use Rattle.executive.specs.Passes.{of_pass, IsOut};

use crate::pass::{Grant, TaskPass};

/// Is called when a task's thread acts. The calls lend passes and grants, which only an executive makes, and change
/// nothing of it.
///
/// `task` is the task's number, from 1.
pub trait Gate {
    /// The task's thread begins, before its first look.
    fn enter(&self, task: u32, pass: &TaskPass);

    /// A release of the task was taken; it is the newest call of the pass.
    fn released(&self, task: u32, pass: &TaskPass)
        requires { HasReleased (of_pass pass.now) };

    /// A tick of the task is granted; its step runs during this call.
    fn step(&self, task: u32, grant: &Grant)
        requires { IsOut grant.now };
}

/// A gate that does nothing.
#[derive(Clone, Copy, Debug)]
pub struct QuietGate;

impl Gate for QuietGate {
    fn enter(&self, _task: u32, _pass: &TaskPass) {}

    fn released(&self, _task: u32, _pass: &TaskPass) {}

    fn step(&self, _task: u32, _grant: &Grant) {}
}
