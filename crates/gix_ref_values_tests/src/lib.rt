//! Tests of values, and of `packed-refs` by itself.
//!
//! - `values`: ids, names, targets and lists of edits.
//! - `packed`: `packed-refs`, and references as values.
//!
//! Two callers have what a crate above can state by public contracts alone: `uses` of names, `over_tables` of splits of edits.
#![tactic(auto)]

#[cfg(test)]
mod made;
#[cfg(test)]
mod over_tables;
#[cfg(test)]
mod packed;
pub mod uses;
#[cfg(test)]
mod values;
