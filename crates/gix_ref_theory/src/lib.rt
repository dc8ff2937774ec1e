//! What a reference store means, and the theorems about it that need no code of the store: places, readings, edits, the
//! plan of a commit, and what every stop and every loss of power inside it leaves.
//! The theorems about a commit have an example, two updates and a deletion. For scripts there are sequences of steps, each begun only
//! where the one before was done.
//!
//! # What is proved
//!
//! - every stop inside a commit's plan leaves each reference as before or as edited; where loose files are kept, no deletion shows
//!   before every update, and the updates show in order. The whole plan commits: `theorems::every_stop`; on trees with folders and
//!   locks `theorems::every_tree`
//! - every loss of power inside a commit whose steps with their syncs carry out its plan leaves the same, but that a log may have
//!   other bytes in place of the line that was being written. After the whole run a loss leaves what was committed:
//!   `theorems::every_loss`; for any list of writes `theorems::every_synced_run`
//! - the table of places is the one that is computed, and keeps the laws that this needs; names of one place have one key or none,
//!   and one log. Each place lies in the namespace, is settled by the syncs of its folders up to its root, and no lock lies below
//!   another one: `theorems::places_keep_the_laws`
//! - the worked example: four rows and no others, three wrong orders refuted, and what the removing mode does not keep:
//!   `theorems::worked_example`
#![tactic(auto)]

pub mod example;
pub mod theorems;
