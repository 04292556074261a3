//! The tokens that threads own: the right to show, and the right to read.
ghost use Rattle.std.specs.Prelude.{◌≡◌, true, false};
ghost use Rattle.status_board.specs.Logs.{IsLog, IsLog-prop};

use crate::shown::TokenView;
use atomic_table::Seat;

/// The right to show on one board. In contracts, `shown` is what it showed: pairs from (0, low) on, each with one tick
/// more. It has no bytes.
#[derive(Drop)]
pub struct Writer {
    pub(crate) seat: Seat<(), TokenView>,
    ghost writes: { (seat.me.0.writes ≡ true) × (seat.me.0.live ≡ true) },
    pub ghost log: { IsLog seat.me.0.list } by { IsLog-prop seat.me.0.list },
}

/// The right to read one board. In contracts, `seen` is what it has seen: pairs from (0, low) on, each with one tick
/// more. It has no bytes.
#[derive(Drop)]
pub struct Watcher {
    pub(crate) seat: Seat<(), TokenView>,
    ghost reads: { (seat.me.0.writes ≡ false) × (seat.me.0.live ≡ true) },
    pub ghost log: { IsLog seat.me.0.list } by { IsLog-prop seat.me.0.list },
}
