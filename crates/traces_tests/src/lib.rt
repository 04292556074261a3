//! Tests of the crates that judge and describe traces: the judge and its monitor, charts and reports.
#![tactic(auto)]

#[cfg(test)]
mod charts;
#[cfg(test)]
mod judging;
#[cfg(test)]
mod reports;
