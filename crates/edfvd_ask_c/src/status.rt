//! The status that a call returns: 0 where it did what it says, and otherwise why not.

pub const OK: u32 = 0;

pub const MEMORY: u32 = 9;

pub const ARGUMENT: u32 = 43;

pub const SHORT_BUFFER: u32 = 44;

pub const THREADS: u32 = 45;
