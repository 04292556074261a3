//! Tests of turns of few seats and of many, on one thread and with a thread for each seat.
mod counters;
mod rounds;

use rounds::{closed, counted, opened, turn_of_each};

#[test]
fn a_turn_of_each_of_two_seats_leaves_both_entries(rt: HostRuntime) {
    let (turns, mut players, list) = opened(&rt, rt.alloc(), 2);
    turn_of_each(&rt, &turns, &mut players);
    let counters = closed(turns, players, list, 1).counters;
    assert!(rt; counters.as_slice() == [1, 1].as_slice());
}

#[test]
fn the_state_is_as_it_came_where_no_turn_was_taken(rt: HostRuntime) {
    let (turns, players, list) = opened(&rt, rt.alloc(), 3);
    let counters = closed(turns, players, list, 0).counters;
    assert!(rt; counters.as_slice() == [0, 0, 0].as_slice());
}

#[test]
fn two_threads_of_a_thousand_turns_count_a_thousand_each(rt: HostRuntime) {
    let counters = counted(&rt, rt.alloc(), 2, 1000).counters;
    assert!(rt; counters.as_slice() == [1000, 1000].as_slice());
}

#[test]
fn each_of_many_threads_has_its_turns_once(rt: HostRuntime) {
    for (seats, each) in [(1, 1), (16, 500), (128, 20)] {
        let counters = counted(&rt, rt.alloc(), seats, each).counters;
        assert!(rt; counters.len() == seats as usize, "{seats} seats");
        for counter in &counters {
            assert!(rt; *counter == each as u64, "{seats} seats");
        }
    }
}
