//! Ids, names, targets and lists of edits.

mod doubled;
mod edits;
mod ids;
mod lookups;
pub mod made;
mod names;
mod namespaces;
mod random;
mod splits;
mod targets;
