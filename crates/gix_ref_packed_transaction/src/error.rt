//! Why there is no new `packed-refs`.
use gix_ref_files::files::FileError;
use std::alloc::{AllocError, AllocFailed};
use thiserror::Error;

/// Why there is no new `packed-refs`. As `commit::Error` of gix-ref's `packed::Transaction`.
#[derive(Debug, Drop, Error)]
pub enum Error {
    /// The new file could not be put in place. Not returned by `repack`, which changes no file.
    #[error("packed-refs could not be put in place: {0}")]
    Commit(FileError),
    /// This line of the old file, from 1, is no record. Where the file begins with `#` and has no header, it is the first.
    #[error("line {line_number} of packed-refs is no record")]
    Iteration { line_number: u64 },
    /// The old file could not be read.
    #[error("packed-refs cannot be read: {0}")]
    Io(FileError),
    /// An allocation was refused.
    #[error("there was no memory for packed-refs")]
    Memory,
}

impl From<AllocError> for Error {
    ghost use Rattle.std.specs.Prelude.{◌≡◌};
    ghost use Rattle.gix_ref_packed_transaction.specs.declared.error.Error.TheVariants.{Memory};

    ghost from_gives = { λ _ e. e ≡ Memory };

    fn from(_error: AllocError) -> Error {
        Error::Memory
    }
}

/// Drops the value that found no memory.
impl<T: Drop> From<AllocFailed<T>> for Error {
    ghost use Rattle.std.specs.Prelude.{◌≡◌};
    ghost use Rattle.gix_ref_packed_transaction.specs.declared.error.Error.TheVariants.{Memory};

    ghost from_gives = { λ _ e. e ≡ Memory };

    fn from(_error: AllocFailed<T>) -> Error {
        Error::Memory
    }
}
