//! Why a reference is not followed to an object.
use gix_ref_store::file::find::existing;
use std::alloc::AllocError;
use thiserror::Error;

/// The errors of following a reference to an object.
#[derive(Debug, Drop, Error)]
pub enum Error {
    /// The next reference was not found.
    #[error("a symbolic reference could not be followed: {0}")]
    Follow(existing::Error),
    /// The next reference is one that an earlier step reached. The path is the place of the reference that leads there.
    #[error("a symbolic reference leads back to one before it")]
    Cycle { start_absolute: Vec<u8> },
    /// The following took this many steps, one more than may lead to an object.
    #[error("a symbolic reference leads on for {max_depth} steps or more")]
    DepthLimitExceeded { max_depth: usize },
    /// There was no memory for a name or a path.
    #[error("out of memory")]
    Memory,
}

impl From<AllocError> for Error {
    ghost use Rattle.std.specs.Prelude.{◌≡◌};
    ghost use Rattle.gix_ref_follow.specs.declared.peel.to_object.Error.TheVariants.{Memory};

    ghost from_gives = { λ _ e. e ≡ Memory };

    fn from(_error: AllocError) -> Error {
        Error::Memory
    }
}

impl From<existing::Error> for Error {
    ghost use Rattle.std.specs.Prelude.{◌≡◌};
    ghost use Rattle.gix_ref_follow.specs.declared.peel.to_object.Error.TheVariants.{Follow};

    ghost from_gives = { λ error e. e ≡ Follow error };

    fn from(error: existing::Error) -> Error {
        Error::Follow(error)
    }
}
