//! What the program `refs` does: its words, its commands and what it prints.
//!
//! # What is proved
//!
//! - edits from their preparation to their commit: what `prepare` and `commit` say of them, put together: the edits are
//!   committed, or why not; the lines, the folders and the locks; every stop and every loss of power: `update::update`
//!   (`Updates.antt`)
//! - `update`, `symbolic` and `delete` are a transaction of the one edit that they ask for, and a line of a script one of all that
//!   its commands ask for, in their order: it is made, and the status is 0. Or it is refused or fails, with its cause, and the
//!   status is 1, and where a name is no full one nothing is begun: `run::run` (`WriteComes` in `Writes.antt`)
//! - a script: its file is read once, before the first transaction; its lines are made one after the other, each over the store
//!   that the one before it left. 0 is the status exactly where all were made. At the first that is refused, or fails, or is no
//!   list of commands, it ends with 1, and none after it is begun; the outcomes are printed in their order. All this unless the
//!   writer fails: `run::run` (`ScriptEnds` in `Scripts.antt`)
//! - at every stop of a script of any length, and after every loss of power in it, there are stores, each made of the one before by
//!   the next line. And the files are as a stop or a loss in the transaction of the line that follows leaves them, or as the last
//!   store has them, where none follows: `run::run` (`IsScriptStop`, `IsScriptLoss`); for any steps
//!   `gix_ref_theory/proofs/Sequences.antt`
//! - after a transaction that was made `packed-refs` is well formed where it was, all is at rest where it was, and names mean the
//!   same: so the promises of the next one hold: `update::update`
//! - `show` prints what a lookup in the store finds, or the error with which it fails; the clauses are those of the lookup:
//!   `run::run`
//! - `list` prints the items of the listing of the prefix over a well-formed `packed-refs`, in their order, and the status is 1
//!   exactly where one is a fault. Over any other that can be opened each item is of a loose reference, a record that begins a
//!   line, or a line that is no record. Where names ascend and each item is a reference none is lacking (`FollowFiles` in
//!   `ListedItems.antt`); why there is no listing; where the writer fails nothing is said of what was written: `run::run`,
//!   `list::print_items` (`ListRan` in `Runs.antt`)
//! - `log` prints the items of `reflog_iter_rev` through 4,096 bytes, in their order, and the status is 1 exactly where one is a
//!   fault. A fault of reading is one that was counted; where the writer fails nothing is said of what was written: `run::run`,
//!   `log::print_items`
//! - arguments are a command exactly where they have its form: `words::parse`
//! - invalid arguments print `wrong words`, exit with 2 and change nothing, unless there is no memory for them, which is printed,
//!   with 1. A valid command prints its result and any leftover locks, and exits with 0 or 1, or returns the writer's error. At
//!   every stop the files are as a stop in the command may leave them, and after every loss of power in one that writes: `run::run`
#![tactic(auto)]

mod block;
mod edit;
pub mod list;
pub mod log;
pub mod open;
pub mod outcome;
pub mod refusal;
pub mod run;
mod script;
mod script_lines;
mod transact;
pub mod update;
pub mod words;
