//! Live runs, and threads that nobody wakes or that could not be started. The tests of plans in threads are in executive_tests.
mod apart;
mod floors;
mod live;
