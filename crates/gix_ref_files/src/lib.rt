//! Files: what calls on them mean, one kind on the disk, locks and steps over any kind, and what a loss of power leaves.
//!
//! # What is proved
//!
//! - for honest files: each call's answer by the tree, the tree afterwards for every answer, and exactly what a stop could have
//!   left: each call of the trait `Files`
//! - for honest files: which disks a stop or a loss of power in a call finds, and the disk after each answer: the same, clauses
//!   `passes`, `disk`, `adds_disks`; what `sync_file` and `sync_folder` make sure of: clause `answer` of these
//! - what a loss of power leaves: a well formed tree; of a settled disk all files but locks; what a stop leaves, or less; syncs
//!   only make sure; a climb settles its path; two wrong orders refuted: `theorems::losses_of_power`
//! - for all files: which faults are counted, each by its kind, who can return `Memory`, what a buffer holds: the same, and
//!   `ReadAt`
//! - the disk counts its faults; it claims no honesty, since no program can know it: `Disk`
//! - a run of steps leaves, at any stop, the tree after some of them with perhaps a beginning of the next; where and why it
//!   ended; where only a sync failed its step is done: `run_steps`
//! - the same of disks: at any loss of power some steps are done with their syncs, and the next is perhaps begun, or done with
//!   some of its syncs. Where a call failed it is perhaps begun, where a sync failed it is done: `run_steps`, clauses `passes`,
//!   `synced`, `ended_on`
//! - a lock is one new file beside its place, synced once it is written, and one rename to it. Each call says the disk that it
//!   leaves, and those that a stop or a loss of power in it finds; a fault hands it back: `Lock::acquire`, `write`, `commit`,
//!   `remove`
#![tactic(auto)]

mod clean;
pub mod disk;
pub mod faults;
pub mod files;
pub mod lock;
mod made;
pub mod paths;
pub mod steps;
pub mod theorems;
