//! The pairs that are shown, and what a token knows of them.
use std::collections::LinkedList;

/// How many ticks have ended, and the mode after them.
#[derive(Clone, Copy, Debug, PartialEq, Eq)]
pub struct Shown {
    pub ticks: u64,
    pub high_mode: bool,
}

/// The name of a board, which is that of its table. No value of this type is ever made.
pub struct BoardId {
    pub words: u64,
    pub slots: u64,
    pub views_name: u64,
    pub atom: u64,
    pub block: u64,
    pub offset: u64,
    pub slot_names: LinkedList<u64>,
}

/// What a token knows. No value of this type is ever made.
pub struct TokenView {
    /// Whether the token is the writer's.
    pub writes: bool,
    /// Whether the token was not joined into another.
    pub live: bool,
    /// The pairs that the token showed or saw.
    pub list: LinkedList<Shown>,
    /// The lists that the token learned from others since it last saw the board.
    pub learned: LinkedList<LinkedList<Shown>>,
}
