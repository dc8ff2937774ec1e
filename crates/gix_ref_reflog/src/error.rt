//! Why the log lines of a commit are not decided.
use crate::create_or_update;
use std::alloc::{AllocError, AllocFailed};
use thiserror::Error;

/// Why the log lines of a commit are not decided. Nothing was written.
#[derive(Debug, Drop, Error)]
pub enum Error {
    /// A line is due that cannot be added. As `CreateOrUpdateRefLog` of gix-ref's `file::transaction::commit::Error`.
    #[error("{0}")]
    CreateOrUpdateRefLog(create_or_update::Error),
    /// An allocation was refused.
    #[error("out of memory")]
    Memory,
}

impl From<create_or_update::Error> for Error {
    ghost use Rattle.std.specs.Prelude.{◌≡◌};
    ghost use Rattle.gix_ref_reflog.specs.declared.error.Error.TheVariants.{CreateOrUpdateRefLog};

    ghost from_gives = { λ error e. e ≡ CreateOrUpdateRefLog error };

    fn from(error: create_or_update::Error) -> Error {
        Error::CreateOrUpdateRefLog(error)
    }
}

impl From<AllocError> for Error {
    ghost use Rattle.std.specs.Prelude.{◌≡◌};
    ghost use Rattle.gix_ref_reflog.specs.declared.error.Error.TheVariants.{Memory};

    ghost from_gives = { λ _ e. e ≡ Memory };

    fn from(_error: AllocError) -> Error {
        Error::Memory
    }
}

/// Drops the value that found no memory.
impl<T: Drop> From<AllocFailed<T>> for Error {
    ghost use Rattle.std.specs.Prelude.{◌≡◌};
    ghost use Rattle.gix_ref_reflog.specs.declared.error.Error.TheVariants.{Memory};

    ghost from_gives = { λ _ e. e ≡ Memory };

    fn from(_error: AllocFailed<T>) -> Error {
        Error::Memory
    }
}
