//! A gate that sees each task by its number in a whole set.
use executive::{Gate, Grant, TaskPass};
use mc_task::TaskNo;

/// Calls the gate for task `k` with the `k`-th of these numbers, and not for a task that has none.
#[derive(Drop)]
pub struct Numbered<'a, G> {
    pub gate: &'a G,
    pub numbers: &'a [TaskNo],
}

impl<'a, G: Gate> Gate for Numbered<'a, G> {
    fn enter(&self, task: u32, pass: &TaskPass) {
        if let Some(number) = number_of(self.numbers, task) {
            self.gate.enter(number, pass);
        }
    }

    fn released(&self, task: u32, pass: &TaskPass) {
        if let Some(number) = number_of(self.numbers, task) {
            self.gate.released(number, pass);
        }
    }

    fn step(&self, task: u32, grant: &Grant) {
        if let Some(number) = number_of(self.numbers, task) {
            self.gate.step(number, grant);
        }
    }
}

fn number_of(numbers: &[TaskNo], task: u32) -> Option<u32> {
    let place = task.checked_sub(1)?;
    Some(numbers.get(place as usize)?.0)
}
