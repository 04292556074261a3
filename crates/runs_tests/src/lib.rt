//! Tests of a scheduler that is driven event by event: runs of many ticks in one call, and counts that start anew.
#![tactic(auto)]

#[cfg(test)]
mod restarts;
#[cfg(test)]
mod runs;
