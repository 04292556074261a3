//! Tests of the crates on sets of tasks: fractions, sets, the tests of admission, what may change in a set, several
//! processors, random sets, studies.
#![tactic(auto)]

#[cfg(test)]
mod admitting;
#[cfg(test)]
mod changes;
#[cfg(test)]
mod fitting;
#[cfg(test)]
mod fractions;
#[cfg(test)]
mod studies;
#[cfg(test)]
mod tasks;
#[cfg(test)]
mod workloads;
