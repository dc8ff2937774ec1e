//! Why the bytes of a loose file are no target.
use gix_ref_name::name;
use std::alloc::AllocError;
use thiserror::Error;

/// The errors of decoding a loose file.
#[derive(Debug, Drop, Error)]
pub enum Error {
    /// The text is neither an id of the store's kind nor a symbolic reference.
    #[error("a loose file is neither an id nor a symbolic reference")]
    Parse { content: Vec<u8> },
    /// The path of a symbolic reference is not a full name.
    #[error("the path of a symbolic reference is no full name: {source}")]
    RefnameValidation { source: name::Error, path: Vec<u8> },
    /// There was no memory for a copy.
    #[error("out of memory")]
    Memory,
}

impl From<AllocError> for Error {
    ghost use Rattle.std.specs.Prelude.{◌≡◌};
    ghost use Rattle.gix_ref_lookup.specs.declared.loose.error.Error.TheVariants.{Memory};

    ghost from_gives = { λ _ e. e ≡ Memory };

    fn from(_error: AllocError) -> Error {
        Error::Memory
    }
}
