//! Tests of files, and of reflogs over files.
//!
//! - `files`: files in memory and on the disk.
//! - `log`: reflogs.
//!
//! `publish` has what a crate above the files can state by their public contracts alone.
#![tactic(auto)]

#[cfg(test)]
mod files;
#[cfg(test)]
mod log;
pub mod publish;
