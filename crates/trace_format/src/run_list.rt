//! The runs of a trace, kept in a list.
use crate::takes_runs::TakesRuns;
use mc_model::Run;
use std::alloc::AllocError;

// Takes the runs into a list.
#[derive(Drop)]
pub struct RunList;

impl TakesRuns for RunList {
    ghost use Rattle.std.specs.Prelude.{◌≡◌};

    type Runs = Vec<Run>;

    ghost took = { λ list runs tasks taken. runs.items ≡ taken };

    fn take(&self, runs: &mut Vec<Run>, run: Run) -> Result<(), AllocError> {
        runs.push(run)?;
        Ok(())
    }
}
