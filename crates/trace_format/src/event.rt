//! What a record of a trace says, without its job.
use mc_model::How;

// What a record says, without its job.
#[derive(Clone, Copy, Debug, PartialEq, Eq)]
pub enum Event {
    Release { kept: bool },
    Tick { how: How },
    Idle,
}
