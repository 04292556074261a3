//! The status that a call returns: 0 where it did what it says, and otherwise why not.

pub const OK: u32 = 0;

pub const EMPTY: u32 = 1;

pub const TOO_MANY: u32 = 2;

pub const ZERO_NUMBER: u32 = 3;

pub const BUDGET_ORDER: u32 = 4;

pub const SAME_NAME: u32 = 5;

pub const LEVEL: u32 = 6;

pub const PERIODS: u32 = 7;

pub const NOT_ADMITTED: u32 = 8;

pub const MEMORY: u32 = 9;

pub const NO_TASK: u32 = 10;

pub const DEADLINE_ORDER: u32 = 11;

pub const CLOSED: u32 = 12;

pub const OPEN: u32 = 13;

pub const RUNNING: u32 = 20;

pub const TOO_SOON: u32 = 21;

pub const FULL: u32 = 22;

pub const TICK_OUT: u32 = 23;

pub const NOT_CHOSEN: u32 = 24;

pub const NOT_OUT: u32 = 25;

pub const PENDING: u32 = 26;

pub const NO_ROW: u32 = 27;

pub const NO_PERCENTAGE: u32 = 28;

pub const NO_PROCESSOR: u32 = 29;

pub const GONE: u32 = 30;

pub const PAST: u32 = 31;

pub const ARGUMENT: u32 = 43;

pub const SHORT_BUFFER: u32 = 44;
