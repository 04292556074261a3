//! The numbers of events: what came of an event, and what a row records.

pub const KEPT: u32 = 1;

pub const DROPPED: u32 = 2;

pub const HELD: u32 = 3;

pub const GIVEN: u32 = 4;

pub const MORE: u32 = 5;

pub const DONE: u32 = 6;

pub const STOP: u32 = 7;

pub const OVER: u32 = 8;

pub const IDLE: u32 = 9;
