//! Why a text of records cannot be rewritten.
use std::alloc::AllocError;
use thiserror::Error;

/// Why a text of records cannot be rewritten. As `commit::Error` of gix-ref's `packed::Transaction`, as far as it is of the
/// text.
#[derive(Clone, Copy, Debug, PartialEq, Eq, Error)]
pub enum Error {
    /// This line of the file, from 1, is no record.
    #[error("line {line_number} of packed-refs is no record")]
    Iteration { line_number: u64 },
    /// An allocation was refused.
    #[error("there was no memory for packed-refs")]
    Memory,
}

impl From<AllocError> for Error {
    ghost use Rattle.std.specs.Prelude.{◌≡◌};
    ghost use Rattle.gix_ref_packed_text.specs.declared.error.Error.TheVariants.{Memory};

    ghost from_gives = { λ _ e. e ≡ Memory };

    fn from(_error: AllocError) -> Error {
        Error::Memory
    }
}
