//! Calls for C: task sets tested, traces judged, and a scheduler driven event by event. Numbers alone cross, and no text.
#![tactic(auto)]

mod event_numbers;
mod handle;
mod row;
mod scheduler;
mod sets;
mod status;
mod traces;
