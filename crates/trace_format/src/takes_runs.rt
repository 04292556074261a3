//! The trait that says what is done with the runs of a trace.
use mc_model::Run;
use std::alloc::AllocError;

/// What is done with the runs of a trace, one after another. The runs themselves need not be kept.
pub trait TakesRuns {
    ghost use Rattle.std.specs.Prelude.{◌++◌, ◌∷◌, [], List, OnOk};
    ghost use Rattle.mc_task.specs.declared.task.Task.{Task};
    ghost use Rattle.mc_model.specs.declared.run.Run.{Run};
    ghost use Rattle.trace_format.specs.Reading.{MayComeNext};

    /// What the runs are handed to.
    type Runs;

    /// Whether these runs of a set of these tasks were taken.
    ghost took: { Self → Self.Runs → List Task → List Run → Type 0 };

    /// Takes one more run. Fails if an allocation fails.
    fn take(&self, runs: &mut Self::Runs, run: Run) -> Result<(), AllocError>
        requires { (tasks : List Task) × (before : List Run) × took self.now runs.old tasks before × MayComeNext tasks before run }
        ensures { OnOk result ((tasks : List Task) (before : List Run) → took self.now runs.old tasks before → took self.now runs.new tasks (before ++ run ∷ [])) };
}
