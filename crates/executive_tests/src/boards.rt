//! Tests of a board on one thread, and on two threads of which one shows and one reads.
ghost use Rattle.std.specs.Prelude.{◌≡◌, ◌≤◌, ◌^◌, ◌∷◌, []};
ghost use Rattle.status_board.specs.Logs.{start};
ghost use Rattle.status_board.specs.Tokens.{shown, IsWriterOf, IsWatcherOf};

use status_board::{Board, Shown, Watcher, Writer};
use std::test::Fail;
use std::thread::join;

fn pair(ticks: u64, high_mode: bool) -> Shown
    ensures { (result.ticks ≡ ticks) × (result.high_mode ≡ high_mode) }
{
    Shown { ticks, high_mode }
}

// Shows the ticks from 1 on; every third one in high mode.
#[tactic(auto, using(status_board::proofs::Lists::last_more))]
fn show_all(board: &Board, mut writer: Writer, ticks: u64)
    requires writer { IsWriterOf board.now writer × (shown writer ≡ start ∷ []) }
    requires few { ticks ≤ 1_000_000 }
{
    for tick in 1..=ticks {
        board.show(&mut writer, pair(tick, tick % 3 == 0));
    }
}

// Whether the ticks never fell, and the mode was always that of its tick.
fn read_all(board: &Board, mut watcher: Watcher, reads: u32) -> bool
    requires { IsWatcherOf board.now watcher }
{
    let mut last = 0;
    for _read in 0..reads {
        let now = board.read(&mut watcher);
        if now.ticks < last || now.high_mode != (now.ticks > 0 && now.ticks % 3 == 0) {
            return false;
        }
        last = now.ticks;
    }
    true
}

#[test]
fn a_watcher_reads_what_was_shown_last(rt: HostRuntime) -> Result<(), Fail> {
    let Ok((board, mut writer, mut watchers)) = Board::new(rt.alloc(), 2) else {
        return Err("memory".into());
    };
    let mut second = watchers.pop().unwrap();
    let mut first = watchers.pop().unwrap();
    let before = board.read(&mut first);
    board.show(&mut writer, pair(1, false));
    board.show(&mut writer, pair(2, true));
    let switched = board.read(&mut first);
    board.show(&mut writer, pair(3, false));
    board.tell(&mut writer, &mut second);
    let told = board.read(&mut second);
    let last = board.read(&mut first);
    assert!(rt; before == pair(0, false) && switched == pair(2, true));
    assert!(rt; told == pair(3, false) && last == pair(3, false));
    Ok(())
}

#[test]
fn watchers_are_made_in_the_number_asked_for(rt: HostRuntime) -> Result<(), Fail> {
    for watchers in [1, 2, 128] {
        let Ok((_board, _writer, list)) = Board::new(rt.alloc(), watchers) else {
            return Err("memory".into());
        };
        assert!(rt; list.len() == watchers as usize, "{watchers} watchers");
    }
    Ok(())
}

#[test]
fn what_is_read_beside_a_thread_that_shows_never_goes_back(rt: HostRuntime) -> Result<(), Fail> {
    let Ok((board, writer, mut watchers)) = Board::new(rt.alloc(), 1) else {
        return Err("memory".into());
    };
    let watcher = watchers.pop().unwrap();
    let board = &board;
    let ((), steady) = join(
        &rt,
        move || -> ()
            requires { IsWriterOf board.now writer × (shown writer ≡ start ∷ []) }
        { show_all(board, writer, 100_000) },
        move || -> bool
            requires { IsWatcherOf board.now watcher }
        { read_all(board, watcher, 100_000) },
    );
    assert!(rt; steady);
    Ok(())
}
