//! The two versions of a trace file.
ghost use Rattle.std.specs.Prelude.{◌≡◌, ◌≤◌, length};
ghost use Rattle.trace_format.specs.Events.{task_column, length_column};
ghost use Rattle.trace_format.specs.TraceFile.{header_words};

#[derive(Clone, Copy, Debug, PartialEq, Eq)]
pub enum Version {
    One,
    Two,
}

/// Where the fields of a record are: its event is in column 0, and its tick in column 1.
#[derive(Clone, Copy, Debug)]
pub struct Columns {
    // The number of fields.
    pub width: usize,
    // The column of the length, if the version has one.
    pub length: Option<usize>,
    // The column of the task; those of the job and of the outcome come after it.
    pub task: usize,
}

impl Version {
    /// Where the fields of its records are.
    #[inline(always)]
    pub fn columns(self) -> Columns
        ensures width { result.width ≡ length (header_words self) }
        ensures length { result.length ≡ length_column self }
        ensures task { result.task ≡ task_column self }
        ensures few { result.task ≤ 3 }
    {
        match self {
            Version::One => Columns {
                width: 5,
                length: None,
                task: 2,
            },
            Version::Two => Columns {
                width: 6,
                length: Some(2),
                task: 3,
            },
        }
    }
}
