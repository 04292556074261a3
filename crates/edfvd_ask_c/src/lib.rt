//! One call for C: each command of the program that starts no thread, asked in process.
#![tactic(auto)]

mod asked;
mod status;
