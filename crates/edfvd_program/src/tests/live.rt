//! Live runs: tasks that release when they may.
use super::CONTROL;
use super::outside::{Case, Outside, ended, first_wrong};
use worked_gates::MeetingGate;

const TEN_TICKS: &[&str] = &["live", "tasks.toml", "10"];

const ONE_TASK: &str = "task = [{name='a', level='low', period=1, low=1}]";

// The only live run of the control set for 10 ticks in which both tasks are released first, in their order.
const FIRST_TICKS: &str = "event,tick,length,task,job,how
release,0,,ctl,1,kept
release,0,,log,1,kept
tick,0,1,ctl,1,more
tick,1,1,ctl,1,done
tick,2,4,log,1,more
tick,6,1,log,1,done
idle,7,3,,,
";

// The live run of one task which is always due again.
const EACH_TICK: &str = "event,tick,length,task,job,how
release,0,,a,1,kept
tick,0,1,a,1,done
release,1,,a,2,kept
tick,1,1,a,2,done
release,2,,a,3,kept
tick,2,1,a,3,done
";

static CASES: &[Case] = &[
    (TEN_TICKS, CONTROL, "", 0, FIRST_TICKS),
    (&["live", "tasks.toml", "3"], ONE_TASK, "", 0, EACH_TICK),
];

#[test]
fn each_task_is_released_first_and_again(rt: HostRuntime) {
    assert_eq!(rt; first_wrong(&rt, rt.alloc(), CASES), None);
}

#[test]
fn the_threads_of_a_live_run_meet(rt: HostRuntime) {
    let gate = MeetingGate::of(1, 2);
    let outside = Outside::new(CONTROL, "");
    let ended = ended(&rt, rt.alloc(), TEN_TICKS, &outside, &gate);
    assert!(rt; matches!(ended, Some((0, _))) && gate.is_kept());
}
