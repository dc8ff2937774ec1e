//! Why a lookup fails.
use crate::loose;
use gix_ref_files::files::FileError;
use gix_ref_name::name;
use gix_ref_packed::packed;
use std::alloc::AllocError;
use thiserror::Error;

/// Why the file of a reference is not read.
#[derive(Clone, Copy, Debug, PartialEq, Eq, Error)]
pub enum ReadError {
    /// The files could not read it.
    #[error("{0}")]
    File(FileError),
    /// A component of its path is the name of a Windows device, as `CON`, and the store prohibits these.
    #[error("a component of its path is the name of a Windows device")]
    DeviceName,
}

/// The errors of a lookup.
#[derive(Debug, Drop, Error)]
pub enum Error {
    /// A text is not a valid name: for callers who convert one first. No lookup returns this.
    #[error("the name of a reference is not valid: {0}")]
    RefnameValidation(name::Error),
    /// The file at the place of a candidate, which is the path, could not be read.
    #[error("the file of a reference could not be read: {source}")]
    ReadFileContents {
        source: ReadError,
        path: Vec<u8>,
    },
    /// The file of a candidate, whose name is the relative path, holds no target.
    #[error("the file of a reference holds no target: {source}")]
    ReferenceCreation {
        source: loose::Error,
        relative_path: Vec<u8>,
    },
    /// The search in `packed-refs` failed: a malformed line was met and nothing was found, or the record that was found
    /// cannot be read.
    #[error("a search in packed-refs failed: {0}")]
    PackedRef(packed::find::Error),
    /// `packed-refs` could not be opened or read.
    #[error("packed-refs could not be opened: {0}")]
    PackedOpen(packed::buffer::open::Error),
    /// There was no memory for a copy.
    #[error("out of memory")]
    Memory,
}

impl From<AllocError> for Error {
    ghost use Rattle.std.specs.Prelude.{◌≡◌};
    ghost use Rattle.gix_ref_lookup.specs.declared.find.error.Error.TheVariants.{Memory};

    ghost from_gives = { λ _ e. e ≡ Memory };

    fn from(_error: AllocError) -> Error {
        Error::Memory
    }
}

impl From<name::Error> for Error {
    ghost use Rattle.std.specs.Prelude.{◌≡◌};
    ghost use Rattle.gix_ref_lookup.specs.declared.find.error.Error.TheVariants.{RefnameValidation};

    ghost from_gives = { λ error e. e ≡ RefnameValidation error };

    fn from(error: name::Error) -> Error {
        Error::RefnameValidation(error)
    }
}
