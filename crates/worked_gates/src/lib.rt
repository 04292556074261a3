//! Gates for tests of threads, which hold calls until other calls have come.
#![tactic(auto)]

mod awaited;
mod meeting_gate;

pub use awaited::Awaited;
pub use meeting_gate::MeetingGate;
