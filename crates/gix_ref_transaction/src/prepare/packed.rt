//! Why the objects of updates cannot be put into `packed-refs`.
use gix_ref_files::files::FileError;
use gix_ref_object::object::FindError;
use std::alloc::{AllocError, AllocFailed};
use thiserror::Error;

/// Why edits of `packed-refs` are not taken. As `prepare::Error` of gix-ref's `packed::transaction`.
#[derive(Debug, Drop, Error)]
pub enum Error {
    /// The lock could not be closed. Never returned: a lock is no open file.
    #[error("the lock of packed-refs could not be closed: {0}")]
    CloseLock(FileError),
    /// The object of an update is missing, or is a tag that names no object.
    #[error("an object is missing, or is a tag that names none")]
    Resolve,
    /// The object of an update is at the end of more than 1,000 tags.
    #[error("there are more than 1000 tags in a row")]
    TagChainTooLong,
    /// An object could not be read.
    #[error("{0}")]
    Find(FindError),
    /// The object at the end of tags is not of the kind of the file's ids.
    #[error("an id is of another kind than those of packed-refs")]
    OtherHashKind,
    /// There was no memory.
    #[error("out of memory")]
    Memory,
}

impl From<AllocError> for Error {
    ghost use Rattle.std.specs.Prelude.{◌≡◌};
    ghost use Rattle.gix_ref_transaction.specs.declared.prepare.packed.Error.TheVariants.{Memory};

    ghost from_gives = { λ _ e. e ≡ Memory };

    fn from(_error: AllocError) -> Error {
        Error::Memory
    }
}

/// Drops the value that found no memory.
impl<T: Drop> From<AllocFailed<T>> for Error {
    ghost use Rattle.std.specs.Prelude.{◌≡◌};
    ghost use Rattle.gix_ref_transaction.specs.declared.prepare.packed.Error.TheVariants.{Memory};

    ghost from_gives = { λ _ e. e ≡ Memory };

    fn from(_error: AllocFailed<T>) -> Error {
        Error::Memory
    }
}
