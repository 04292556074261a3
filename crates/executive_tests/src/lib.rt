//! Tests of an executive, of a turnstile, of a status board and of plans in threads, on one thread and on several.
#![tactic(auto)]

#[cfg(test)]
mod boards;
#[cfg(test)]
mod executives;
#[cfg(test)]
mod floors;
#[cfg(test)]
mod plans;
#[cfg(test)]
mod turns;
