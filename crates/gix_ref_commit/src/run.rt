//! The run of the plan of a commit.
ghost use Rattle.std.specs.Prelude.{◌<◌, length};
ghost use Rattle.gix_ref_commit.specs.Cleared.{cleared, folder_lists};
ghost use Rattle.gix_ref_commit.specs.Entries.{entries};
ghost use Rattle.gix_ref_commit.specs.Unfinished.{IsStepAt, RunsOnly, RunsTo};

use crate::folders::{EmptyDirs, clear};
use crate::plan::About;
use gix_ref_files::files::{FileError, Files};
use gix_ref_files::steps::{Cause, Ended, Planned, run_steps};
use std::alloc::Global;

/// Why the plan of a commit was not run to its end.
#[derive(Clone, Copy, PartialEq, Eq)]
pub enum Unfinished {
    /// There was no memory for the plan. Nothing was done.
    Memory,
    /// A step ended the run. Those before it are done, and none after it was begun.
    Step {
        /// What the step is about.
        about: About,
        /// Why it ended the run.
        cause: Cause,
    },
}

/// The step at which a run ended.
fn step_of_end(plan: &[Planned<'_, About>], ended: Ended) -> Unfinished
    requires { ended.at < length plan.now }
    ensures { IsStepAt plan.now ended result }
{
    Unfinished::Step {
        about: plan[ended.at].about,
        cause: ended.cause,
    }
}

/// Runs the steps of a plan, each after the removals of the folders that are in its way, up to the first that fails or finds something in
/// its way. Takes memory before the first step alone, and none where no folder is in the way. (`commit` of `git update-ref --stdin`)
pub fn run_plan<'p, F: Files>(
    alloc: Global,
    files: &mut F,
    plan: Vec<Planned<'p, About>>,
    ways: &'p [EmptyDirs],
) -> Result<(), Unfinished>
    ensures ended { RunsTo F.honest F.means F.faults
        (cleared (folder_lists ways.now) (entries plan.entry.items)) files.old files.new result }
    ensures runs { RunsOnly F.honest F.means F.faults
        (cleared (folder_lists ways.now) (entries plan.entry.items)) files.old files.new }
{
    let Ok(steps) = clear(alloc, plan, ways) else {
        return Err(Unfinished::Memory);
    };
    match run_steps(files, &steps) {
        Ok(()) => Ok(()),
        Err(ended) => Err(step_of_end(&steps, ended)),
    }
}
