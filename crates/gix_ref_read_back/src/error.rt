//! Why edits were not committed.
use gix_ref_object::object::{Find, Never};
use gix_ref_store::file::transaction::{Failed, Refused};
use std::fmt;
use thiserror::Error;

/// Edits that were not committed.
#[derive(Drop, Error)]
pub enum Error<T: Find = Never> {
    /// They were not prepared.
    #[error("{0}")]
    Prepare(Refused<T>),
    /// Their commit failed.
    #[error("{0}")]
    Commit(Failed<T>),
}

impl<T: Find> fmt::Debug for Error<T> {
    fn fmt<W: fmt::Write>(&self, f: &mut fmt::Formatter<W>) -> fmt::Result {
        match self {
            Error::Prepare(refused) => write!(f, "Prepare({refused:?})"),
            Error::Commit(failed) => write!(f, "Commit({failed:?})"),
        }
    }
}
