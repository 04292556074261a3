//! The command line: which words ask for what.
#![tactic(auto)]

mod form;

pub use form::{Form, form_of, usage_line};
