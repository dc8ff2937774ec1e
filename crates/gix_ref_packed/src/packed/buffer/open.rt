//! Why a `packed-refs` cannot be opened.
use gix_ref_files::files::FileError;
use std::alloc::{AllocError, AllocFailed};
use thiserror::Error;

/// Why a `packed-refs` cannot be opened.
#[derive(Clone, Copy, Debug, PartialEq, Eq, Error)]
pub enum Error {
    /// Its records are to be sorted, and this line of the file, from 1, is no record.
    #[error("line {line_number} of packed-refs is no record")]
    Iter { line_number: u64 },
    /// It begins with `#` and has no header.
    #[error("the header of packed-refs cannot be read")]
    HeaderParsing,
    /// It cannot be read.
    #[error("packed-refs cannot be read: {0}")]
    Io(FileError),
    /// An allocation was refused.
    #[error("there was no memory for packed-refs")]
    Memory,
}

impl From<AllocError> for Error {
    ghost use Rattle.std.specs.Prelude.{◌≡◌};
    ghost use Rattle.gix_ref_packed.specs.declared.packed.buffer.open.Error.TheVariants.{Memory};

    ghost from_gives = { λ _ e. e ≡ Memory };

    fn from(_error: AllocError) -> Error {
        Error::Memory
    }
}

/// Drops the value that found no memory.
impl<T: Drop> From<AllocFailed<T>> for Error {
    ghost use Rattle.std.specs.Prelude.{◌≡◌};
    ghost use Rattle.gix_ref_packed.specs.declared.packed.buffer.open.Error.TheVariants.{Memory};

    ghost from_gives = { λ _ e. e ≡ Memory };

    fn from(_error: AllocFailed<T>) -> Error {
        Error::Memory
    }
}
