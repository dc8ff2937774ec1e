//! Why a text is no name (`git check-ref-format`).
use std::alloc::{AllocError, AllocFailed};
use thiserror::Error;

/// The first rule that a name breaks, in the order of the variants, or that a copy found no memory.
#[derive(Clone, Copy, Debug, PartialEq, Eq, Error)]
pub enum Error {
    #[error("a reference name must not be empty")]
    Empty,
    #[error("the byte {byte} is not allowed in a reference name")]
    InvalidByte { byte: u8 },
    #[error("a reference name must not hold an asterisk")]
    Asterisk,
    #[error("a reference name must not start with a slash")]
    StartsWithSlash,
    #[error("a reference name must not end with a slash")]
    EndsWithSlash,
    #[error("a reference name must not hold two slashes in a row")]
    RepeatedSlash,
    #[error("no component of a reference name may start with a dot")]
    StartsWithDot,
    #[error("a reference name must not end with a dot")]
    EndsWithDot,
    #[error("a reference name must not hold two dots in a row")]
    RepeatedDot,
    #[error("no component of a reference name may end with `.lock`")]
    LockFileSuffix,
    #[error("a reference name must not hold `@{{`")]
    ReflogPortion,
    #[error("a reference name must not be `@`")]
    SingleAt,
    #[error("a full name without a slash has only the letters A to Z and underscores")]
    SomeLowercase,
    #[error("there was no memory for a copy of the name")]
    Memory,
}

impl From<AllocError> for Error {
    ghost use Rattle.std.specs.Prelude.{◌≡◌};
    ghost use Rattle.gix_ref_name.specs.declared.name.error.Error.TheVariants.{Memory};

    ghost from_gives = { λ _ e. e ≡ Memory };

    fn from(_error: AllocError) -> Error {
        Error::Memory
    }
}
