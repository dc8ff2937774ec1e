//! What a Git reference store keeps of names: where they are kept, and the targets of references.
//!
//! # What is proved
//!
//! - where a name is kept: its loose file, its log and its key, by one table: `layout::RefLayout::loose`, `log`, `packed_key`,
//!   `layout::packed_key`, `location_of`
//! - targets lent and owned are the same value; `id` requires that it is an object: the calls of `Target` and `TargetRef`
#![tactic(auto)]

pub mod laws;
pub mod layout;
pub mod target;
