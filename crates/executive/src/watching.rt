//! The calls of watchers of the board.
ghost use Rattle.std.specs.Prelude.{◌≡◌};
ghost use Rattle.status_board.specs.Logs.{IsLog, start, last_of};
ghost use Rattle.status_board.specs.Tokens.{seen};
ghost use Rattle.turnstile.specs.History.{StartsWith};
ghost use Rattle.timetable.specs.declared.acts.Act.{Act as TheAct};
ghost use Rattle.executive.specs.declared.entry.Call.TheVariants as call;
ghost use Rattle.executive.specs.declared.entry.Answer.TheVariants as answer;
ghost use Rattle.executive.specs.Passes.{IsCountedSeatOf, IsPassOf, of_counted_seat, of_pass, Calls};
ghost use Rattle.executive.specs.Shows.{shows};
ghost use Rattle.executive.specs.Watching.{IsWatcherOf};

use crate::entry::Call;
use crate::executive::Executive;
use crate::pass::{CountedSeat, Resting, TaskPass};
use status_board::{Shown, Watcher};
use std::marker::Brand;
use std::sync::Wait;

impl Executive {
    /// The number of ticks that ended, and the mode. It never waits; ticks that end at the same time may be seen or
    /// not.
    pub fn watch(&self, watcher: &mut Watcher) -> Shown
        requires { IsWatcherOf self.now watcher.old }
        ensures of { IsWatcherOf self.now watcher.new }
        ensures begins { StartsWith (seen watcher.new) (seen watcher.old) }
        // What the watcher has seen are pairs from (0, low) on, each with one tick more.
        ensures log { IsLog (seen watcher.new) }
        ensures last { result ≡ last_of start (seen watcher.new) }
    {
        match &self.board {
            Some(board) => board.read(watcher),
            None => unreachable!(),
        }
    }

    /// From now on the watcher sees no less than what the board showed after all that the pass has then seen. It is one
    /// call of the pass, a look, and may wait for other calls.
    pub fn tell<R: Wait>(&self, rt: &R, pass: &mut TaskPass, watcher: &mut Watcher)
        requires pass { IsPassOf self.now pass.old }
        requires watcher { IsWatcherOf self.now watcher.old }
        ensures of { IsPassOf self.now pass.new × IsWatcherOf self.now watcher.new }
        ensures calls { (act : TheAct) × Calls call.Look (answer.Next act) (of_pass pass.old) (of_pass pass.new) }
        ensures begins { StartsWith (seen watcher.new) (seen watcher.old) }
        ensures learned { StartsWith (seen watcher.new) (shows (of_pass pass.new).lists.opening (of_pass pass.new).lists.seen) }
    {
        let Resting { counted_seat } = pass.resting.take().unwrap();
        let counted_seat = self.tell_watcher(rt, counted_seat, watcher);
        pass.resting = Some(Resting { counted_seat });
    }

    // Makes a look, in whose turn the watcher is brought up to date.
    fn tell_watcher<R: Wait>(
        &self,
        rt: &R,
        counted_seat: CountedSeat,
        watcher: &mut Watcher,
    ) -> CountedSeat
        requires of { IsCountedSeatOf self.now counted_seat }
        requires watcher { IsWatcherOf self.now watcher.old }
        ensures of { IsCountedSeatOf self.now result × IsWatcherOf self.now watcher.new }
        ensures calls { (act : TheAct) × Calls call.Look (answer.Next act) (of_counted_seat counted_seat) (of_counted_seat result) }
        ensures begins { StartsWith (seen watcher.new) (seen watcher.old) }
        ensures learned { StartsWith (seen watcher.new) (shows (of_counted_seat result).lists.opening (of_counted_seat result).lists.seen) }
    {
        let CountedSeat { task, count, seat } = counted_seat;
        let (mut turn, answer) = self.begin(rt, seat, task, Call::Look);
        turn.state().tell(&self.board, watcher);
        CountedSeat::counted(task, count, self.turns.leave::<Brand>(turn), &answer)
    }
}
