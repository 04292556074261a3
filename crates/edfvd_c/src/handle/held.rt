//! What an open handle holds in its box: a scheduler or a monitor, which C never sees.
use crate::scheduler::LatestRows;
use restart::Restartable;
use trace_judge::Monitor;

#[derive(Drop)]
pub enum Held {
    /// A scheduler that keeps all its rows.
    Core(Restartable),
    /// A scheduler without an end, which keeps its latest rows.
    Endless(Restartable<LatestRows>),
    Monitor(Monitor),
}

/// The body of a call that may change the scheduler in the handle, whichever rows it keeps. `$call` gives a status and what is
/// stored; if the handle holds no scheduler, these are CLOSED and `$nothing`.
macro_rules! on_scheduler {
    ($handle:expr, $scheduler:ident => $call:expr, $stored:expr, $nothing:expr) => {{
        let Some(held) = $handle.held() else {
            *$stored = $nothing;
            return crate::status::CLOSED;
        };
        let (ended, found) = match held {
            crate::handle::Held::Core($scheduler) => $call,
            crate::handle::Held::Endless($scheduler) => $call,
            crate::handle::Held::Monitor(_) => (crate::status::CLOSED, $nothing),
        };
        *$stored = found;
        ended
    }};
}

/// The body of a call that only reads the scheduler in the handle, and otherwise does as `on_scheduler!`.
macro_rules! read_scheduler {
    ($handle:expr, $scheduler:ident => $call:expr, $stored:expr, $nothing:expr) => {{
        let Some(held) = $handle.held() else {
            *$stored = $nothing;
            return crate::status::CLOSED;
        };
        let (ended, found) = match &*held {
            crate::handle::Held::Core($scheduler) => $call,
            crate::handle::Held::Endless($scheduler) => $call,
            crate::handle::Held::Monitor(_) => (crate::status::CLOSED, $nothing),
        };
        *$stored = found;
        ended
    }};
}

pub(crate) use on_scheduler;
pub(crate) use read_scheduler;
