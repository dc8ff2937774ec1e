//! The plan of a commit of references, its steps in the order in which they reach the disk, and its run. `gix_ref_store` makes a
//! transaction of them.
//!
//! # What is proved
//!
//! - the new text is in the lock of `packed-refs`, synced, before the first write, and no other file has changed:
//!   `decide::decide_packed` (`DecidesPacked`, `OnlyFillsPacked` in `Decided.antt`)
//! - the steps, in their order: for each edit the folders of its log, its line and its rename, then the removals of logs, then
//!   `packed-refs`, then the removals of loose files. Each with its syncs: a removal with that of its folder, a line and a rename
//!   with those up to the git folder or the common folder. The folders of a log are synced with its line: `plan::plan_commit`
//!   (`planned_entries` in `Entries.antt`)
//! - every stop and every loss of power in the run of these steps is one among them; a run that ended says at which step and why:
//!   `run::run_plan` (`RunsOnly`, `StopsEarly` in `Unfinished.antt`)
//! - before each step that writes a file one of two holds. No folder is removed; then a folder at its path holds a file or a
//!   folder of the store, unless it was seen before that none is there. Or the folder at the path is removed and each one below
//!   it, each before the one that it lies in, and none of them holds a file or leads to a folder of the store:
//!   `folders::find_empty_dirs_in_the_way`, `decide::decide_folders` (`AreInWay` in `Cleared.antt`)
//! - above what is deleted only empty folders go, below `logs` or a second component of `refs`, and none that leads to a folder
//!   of the store. Then no loss of power leaves a file that none could leave before: `tidy::remove_empty_folders` (`FoldersGo`,
//!   `LosesNoMore`)
//! - the error names the edit, its log, or `packed-refs`, of the step at which the run ended: `failure::failure`
#![tactic(auto)]

pub mod decide;
pub mod error;
pub mod failure;
pub mod folders;
pub mod plan;
pub mod run;
pub mod tidy;
