//! Tests of the store and of the layers above it, without those of transactions.
//!
//! - `store`: folders, loose texts, lookups and listings.
//! - `follow`: following and peeling references, and their reflogs.
//! - `program`: runs of `refs` over the disk and in memory, a writer that fails, and what errors display.
#![tactic(auto)]

#[cfg(test)]
mod follow;
#[cfg(test)]
mod program;
#[cfg(test)]
mod store;
#[cfg(test)]
mod texts;
