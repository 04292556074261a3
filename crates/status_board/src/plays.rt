//! The rule, and the result of each kind of step. These types are used in proofs alone.
ghost use Rattle.status_board.specs.Rule.{Orderly};
ghost use Rattle.status_board.specs.Views.{writer_view, watcher_view, both_views, spent_view};
ghost use Rattle.status_board.specs.Steps.{Shows, Looks};

use crate::shown::TokenView;
use atomic_table::{Join, Play, Split, TableRule};

/// The rule that each step keeps.
pub struct BoardRule;

impl TableRule<(), TokenView, ()> for BoardRule {
    ghost holds = { λ _. Orderly };

    ghost first = { λ _. writer_view };
}

/// A step that shows a pair.
pub struct Show;

impl Play<(), TokenView> for Show {
    ghost then = { Shows };
}

/// A look at the board.
pub struct LoadWord;

impl Play<(), TokenView> for LoadWord {
    ghost then = { Looks };
}

/// A step that copies what the writer showed into a note for a watcher.
pub struct SplitToken;

impl Split<TokenView> for SplitToken {
    ghost left = { λ v. v };

    ghost right = { watcher_view };
}

/// A step that takes a note into a watcher.
pub struct JoinToken;

impl Join<TokenView> for JoinToken {
    ghost both = { both_views };

    ghost spent = { spent_view };
}
