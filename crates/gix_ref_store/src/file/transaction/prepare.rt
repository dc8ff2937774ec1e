//! Preparing a transaction: its checks and locks, from a store.
pub(crate) mod begin;
mod compose;

pub use gix_ref_transaction::prepare::Error;
