//! A call that others wait for.
use std::sync::atomic::AtomicBool;
use std::sync::atomic::Ordering::SeqCst;
use std::thread::yield_now;

// How often a held call looks, at most, for the call that it waits for.
const LOOKS: u32 = 20_000_000;

/// A call that others wait for.
#[derive(Drop)]
pub struct Awaited {
    came: AtomicBool,
    missed: AtomicBool,
}

impl Awaited {
    /// A call that has not come.
    pub fn new() -> Awaited {
        Awaited {
            came: AtomicBool::new(false),
            missed: AtomicBool::new(false),
        }
    }

    /// The call comes.
    pub fn comes(&self) {
        self.came.store(true, SeqCst);
    }

    /// Holds the caller until the call has come, or gives up after a limit of looks: the call is then missed.
    pub fn hold(&self) {
        for _look in 0..LOOKS {
            if self.came.load(SeqCst) {
                return;
            }
            yield_now();
        }
        self.missed.store(true, SeqCst);
    }

    /// Whether the call came before any caller gave up.
    pub fn is_kept(&self) -> bool {
        self.came.load(SeqCst) && !self.missed.load(SeqCst)
    }
}
