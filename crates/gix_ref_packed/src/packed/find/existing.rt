//! Why a reference that must be there is not found.
use crate::packed::find;
use thiserror::Error;

/// Why `Buffer::find` has no record.
#[derive(Clone, Copy, Debug, PartialEq, Eq, Error)]
pub enum Error {
    /// The search failed.
    #[error("{0}")]
    Find(find::Error),
    /// There is no record of the name.
    #[error("packed-refs has no record of the name")]
    NotFound,
}
