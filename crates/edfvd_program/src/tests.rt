// A job of a trace, as a gate counts it.
macro_rules! traced {
    ($task:expr, $own:expr, $count:expr, $ticks:expr) => {
        TracedJob {
            task: $task,
            own: $own,
            count: $count,
            ticks: $ticks,
        }
    };
}

mod alone;
mod at_size;
mod chart;
mod check;
mod demand;
mod faults;
mod gates;
mod hostile;
mod judge;
mod limits;
mod live;
mod outside;
mod parts;
mod processors;
mod room;
mod run;
mod runs;
mod soak;
mod threads;
mod usage;
mod written;

const CHECK: &[&str] = &["check", "tasks.toml"];

const STRETCH: &[&str] = &["stretch", "tasks.toml"];

const DEMAND: &[&str] = &["demand", "tasks.toml"];

const JUDGE: &[&str] = &["judge", "tasks.toml", "second.csv"];

const UNDER_HALF: &[&str] = &["judge", "tasks.toml", "second.csv", "1", "2"];

const UNDER_ONE: &[&str] = &["judge", "tasks.toml", "second.csv", "1", "1"];

const CHART: &[&str] = &["chart", "tasks.toml", "second.csv"];

const REPORT: &[&str] = &["report", "tasks.toml", "second.csv"];

const MIGRATE: &[&str] = &["migrate", "tasks.toml", "second.csv"];

// On two processors, for 5 ticks.
const RUN_ALL: &[&str] = &["runall", "tasks.toml", "second.csv", "5", "2"];

const CONTROL: &str =
    "[[task]]\nname = \"ctl\"\nlevel = \"high\"\nperiod = 10\nlow = 2\nhigh = 6\n\n[[task]]\nname = \"log\"\nlevel = \"low\"\nperiod = 10\nlow = 5\n";

// What `check` writes of it, 54 bytes.
const CONTROL_TEXT: &str = "tasks 2\nU_LL 1/2\nU_HL 1/5\nU_HH 3/5\nrule virtual\nx 2/5\n";

const AVIONICS: &str = "task = [
    {name='attitude', level='high', period=5000, low=400, high=900},
    {name='gyro', level='high', period=10000, low=600, high=1500},
    {name='engine', level='high', period=20000, low=1500, high=4000},
    {name='nav', level='high', period=50000, low=3000, high=7000},
    {name='display', level='low', period=16667, low=2500},
    {name='radio', level='low', period=25000, low=2000},
    {name='log', level='low', period=100000, low=8000},
    {name='maint', level='low', period=200000, low=10000},
]";

const TAP_AND_ARM: &str = "task = [
    {name='tap', level='low', period=2, low=1},
    {name='arm', level='high', period=4, low=1, high=3},
]";

// Those two tasks, and a third one that does not fit on their processor.
const PLANT: &str = "task = [
    {name='tap', level='low', period=2, low=1},
    {name='arm', level='high', period=4, low=1, high=3},
    {name='log', level='low', period=10, low=5},
]";

const PLANT_WORK: &str = "task,release,need\ntap,0,1\narm,0,3\nlog,0,5\ntap,2,1\ntap,4,1\n";

const OVERLOADED: &str = "task = [
    {name='tap', level='low', period=2, low=1},
    {name='arm', level='high', period=4, low=1, high=4},
]";

const LONG_PERIODS: &str = "task = [
    {name='a', level='low', period=4294967295, low=1},
    {name='b', level='low', period=4294967294, low=1},
]";

const QUARTER_SCALE: &str = "task = [
    {name='a', level='low', period=5, low=3},
    {name='b', level='high', period=10, low=1, high=6},
]";

const TWO_HIGH_TASKS: &str = "task = [
    {name='ctl', level='high', period=10, low=2, high=6},
    {name='fix', level='high', period=10, low=1, high=1},
    {name='log', level='low', period=10, low=4},
]";

const PLAIN_PAIR: &str = "task = [
    {name='hi', level='high', period=4, low=1, high=2},
    {name='lo', level='low', period=4, low=2},
]";

// A trace without rows.
const HEADER: &str = "event,tick,task,job,how\n";

// A trace of the control set: an overrun ends the low job, until an idle tick.
const OVERRUN: &str = "event,tick,task,job,how
release,0,ctl,1,kept
release,0,log,1,kept
tick,0,ctl,1,more
tick,1,ctl,1,over
tick,2,ctl,1,more
tick,3,ctl,1,more
tick,4,ctl,1,more
tick,5,ctl,1,done
idle,6,,,
idle,7,,,
idle,8,,,
idle,9,,,
release,10,log,2,kept
tick,10,log,2,more
tick,11,log,2,more
";

// The trace with the overrun, with equal ticks in one record.
const OVERRUN_RUNS: &str = "event,tick,length,task,job,how
release,0,,ctl,1,kept
release,0,,log,1,kept
tick,0,1,ctl,1,more
tick,1,1,ctl,1,over
tick,2,3,ctl,1,more
tick,5,1,ctl,1,done
idle,6,4,,,
release,10,,log,2,kept
tick,10,2,log,2,more
";

// The work of the trace with the overrun, which has 12 ticks.
const OVERRUN_WORK: &str = "task,release,need\nctl,0,6\nlog,0,5\nlog,10,5\n";

// Both jobs are released at 0, and the low task runs first.
const LOW_FIRST: &str = "event,tick,task,job,how
release,0,ctl,1,kept
release,0,log,1,kept
tick,0,log,1,more
tick,1,log,1,more
tick,2,log,1,more
tick,3,log,1,more
tick,4,log,1,done
tick,5,ctl,1,more
tick,6,ctl,1,over
tick,7,ctl,1,more
tick,8,ctl,1,more
tick,9,ctl,1,more
tick,10,ctl,1,done
";
