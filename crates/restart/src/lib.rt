//! A scheduler whose counts can start anew, while each task's earliest next release stays.
#![tactic(auto)]

mod restartable;

pub use restartable::{RestartFault, Restartable};
