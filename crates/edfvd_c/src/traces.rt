//! Rows of a caller's own, judged all at once, or by a monitor as they come.
mod judged;
mod monitor;
