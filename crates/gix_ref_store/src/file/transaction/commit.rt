//! Committing a prepared transaction, from a store.
pub(crate) mod carry_out;
pub(crate) mod decide;

pub use gix_ref_commit::error::Error;
