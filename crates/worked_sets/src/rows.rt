//! Macros that write jobs, rows and runs in a few words.
//!
//! They are macros, since a constant's value cannot call a function, and since contracts know a function's result only
//! by its clauses.

/// The job of this task with this number.
#[macro_export]
macro_rules! job {
    ($task:expr, $count:expr) => {
        $crate::JobId {
            task: $crate::TaskNo($task),
            count: $count,
        }
    };
}

/// The row of a kept release of this job.
#[macro_export]
macro_rules! kept {
    ($task:expr, $count:expr) => {
        $crate::Row::Release {
            job: $crate::job!($task, $count),
            kept: true,
        }
    };
}

/// The row of a dropped release of this job.
#[macro_export]
macro_rules! dropped {
    ($task:expr, $count:expr) => {
        $crate::Row::Release {
            job: $crate::job!($task, $count),
            kept: false,
        }
    };
}

/// The row of a tick of this job with this outcome.
#[macro_export]
macro_rules! tick {
    ($task:expr, $count:expr, $how:expr) => {
        $crate::Row::Tick {
            job: $crate::job!($task, $count),
            how: $how,
        }
    };
}

/// The run of a release of this job, kept or dropped.
#[macro_export]
macro_rules! release {
    ($task:expr, $count:expr, $kept:expr) => {
        $crate::Run::Release {
            job: $crate::job!($task, $count),
            kept: $kept,
        }
    };
}

/// The run of this number of ticks of this job, each with this outcome.
#[macro_export]
macro_rules! ticks {
    ($task:expr, $count:expr, $how:expr, $length:expr) => {
        $crate::Run::Ticks {
            job: $crate::job!($task, $count),
            how: $how,
            length: $length,
        }
    };
}
