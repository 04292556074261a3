//! Tests of the scheduler: keys, what it keeps of each task, its events, plans, and the laws of a trace.
#![tactic(auto)]

#[cfg(test)]
mod budgets;
#[cfg(test)]
mod cores;
#[cfg(test)]
mod endless;
#[cfg(test)]
mod floors;
#[cfg(test)]
mod keys;
#[cfg(test)]
mod laws;
#[cfg(test)]
mod queues;
#[cfg(test)]
mod releases;
pub mod rules;
