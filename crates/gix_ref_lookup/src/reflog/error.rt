//! Why a reflog is not read.
use gix_ref_files::files::FileError;
use gix_ref_log::log::iter::EmptyBuffer;
use gix_ref_name::name;
use std::alloc::AllocError;
use thiserror::Error;

/// The errors of reading the reflog of a name.
#[derive(Clone, Copy, Debug, PartialEq, Eq, Error)]
pub enum Error {
    /// A text is not a valid name: for callers who convert one first. No call here returns this.
    #[error("the name of a reference is not valid: {0}")]
    RefnameValidation(name::Error),
    /// The log could not be read.
    #[error("the reflog could not be read: {0}")]
    Io(FileError),
    /// A component of its path is the name of a Windows device, as `CON`, and the store prohibits these.
    #[error("a component of the path of the reflog is the name of a Windows device")]
    DeviceName,
    /// The buffer for reading it from its end has no room for a byte.
    #[error("the buffer for reading a reflog from its end is empty")]
    EmptyBuffer,
    /// There was no memory for its path or its bytes.
    #[error("out of memory")]
    Memory,
}

impl From<AllocError> for Error {
    ghost use Rattle.std.specs.Prelude.{◌≡◌};
    ghost use Rattle.gix_ref_lookup.specs.declared.reflog.error.Error.TheVariants.{Memory};

    ghost from_gives = { λ _ e. e ≡ Memory };

    fn from(_error: AllocError) -> Error {
        Error::Memory
    }
}

impl From<name::Error> for Error {
    ghost use Rattle.std.specs.Prelude.{◌≡◌};
    ghost use Rattle.gix_ref_lookup.specs.declared.reflog.error.Error.TheVariants.{RefnameValidation};

    ghost from_gives = { λ error e. e ≡ RefnameValidation error };

    fn from(error: name::Error) -> Error {
        Error::RefnameValidation(error)
    }
}

impl From<FileError> for Error {
    ghost use Rattle.std.specs.Prelude.{◌≡◌};
    ghost use Rattle.gix_ref_lookup.specs.Reflogs.{of_files};

    ghost from_gives = { λ error e. e ≡ of_files error };

    fn from(error: FileError) -> Error {
        match error {
            FileError::Memory => Error::Memory,
            other => Error::Io(other),
        }
    }
}

impl From<EmptyBuffer> for Error {
    ghost use Rattle.std.specs.Prelude.{◌≡◌};
    ghost use Rattle.gix_ref_lookup.specs.declared.reflog.error.Error.TheVariants.{EmptyBuffer};

    ghost from_gives = { λ _ e. e ≡ EmptyBuffer };

    fn from(_error: EmptyBuffer) -> Error {
        Error::EmptyBuffer
    }
}
