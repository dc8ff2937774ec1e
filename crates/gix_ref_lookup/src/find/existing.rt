//! Why a lookup that has to find something fails.
use crate::find;
use gix_ref_name::name::PartialName;
use std::alloc::AllocError;
use thiserror::Error;

/// The errors of a lookup that has to find something.
#[derive(Debug, Drop, Error)]
pub enum Error {
    /// The lookup failed.
    #[error("{0}")]
    Find(find::Error),
    /// There is no such reference.
    #[error("there is no reference {name}")]
    NotFound { name: PartialName },
}

impl From<find::Error> for Error {
    ghost use Rattle.std.specs.Prelude.{◌≡◌};
    ghost use Rattle.gix_ref_lookup.specs.declared.find.existing.Error.TheVariants.{Find};

    ghost from_gives = { λ error e. e ≡ Find error };

    fn from(error: find::Error) -> Error {
        Error::Find(error)
    }
}

impl From<AllocError> for Error {
    ghost use Rattle.std.specs.Prelude.{◌≡◌};
    ghost use Rattle.gix_ref_lookup.specs.declared.find.error.Error.TheVariants.{Memory};
    ghost use Rattle.gix_ref_lookup.specs.declared.find.existing.Error.TheVariants.{Find};

    ghost from_gives = { λ _ e. e ≡ Find Memory };

    fn from(_error: AllocError) -> Error {
        Error::Find(find::Error::Memory)
    }
}
