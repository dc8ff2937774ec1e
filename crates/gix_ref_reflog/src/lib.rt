//! The log lines of a commit of references, which are decided before the commit writes anything (`git reflog`).
//!
//! # What is proved
//!
//! - what becomes of the log of each edit: that of a deletion goes, and that of an update gains the line that is due, with its
//!   previous and its new id, the committer and the message. A log is there, or is made, as the mode, the force flag and its name
//!   say, and as earlier lines of the same list leave it: `decide::decide_logs`, clause `logs` (`log_outcomes` in
//!   `DueLines.antt`, `makes_log` in `MadeLogs.antt`)
//! - where it succeeds each due line has a committer, can be written, and has no file in the path of its log. Else the first
//!   cause is returned, edit by edit, or a fault that was counted, or `Memory`; no file changes, and nothing of an edit but its
//!   log: the same, clauses `passed`, `refused` (`LineCauses.antt`), `reads`, `counted`, `but_logs`
//! - the path of a log is a folder, `/logs/`, and what the rule for making logs is asked for: `laws::logs_end_below_logs`
#![tactic(auto)]

pub mod create_or_update;
pub mod decide;
pub mod error;
pub mod ids;
pub mod laws;
mod leaves;
mod line;
pub mod logs;
mod names;
mod place;
mod rules;
pub mod write_reflog;
