//! Why a list of edits is refused.
use gix_ref_name::name::FullName;
use std::alloc::{AllocError, AllocFailed};
use thiserror::Error;

/// The errors of `assure_one_name_has_one_edit`.
#[derive(Debug, Drop, Error)]
pub enum EditError {
    /// More than one edit has this name; it is the least such name.
    #[error("the reference {0} has more than one edit")]
    DoubledName(FullName),
    /// There was no memory.
    #[error("there was no memory for the names of the edits")]
    Memory,
}

/// The errors of `extend_with_splits_of_symbolic_refs` and `pre_process`, over the errors of the finder.
#[derive(Debug, Drop, Error)]
#[error_bound(E: std::fmt::Display)]
pub enum SplitError<E> {
    /// The finder failed.
    #[error("{0}")]
    Find(E),
    /// A fifth round split edits: a chain of symbolic references is too long, or a cycle.
    #[error("the edits still follow symbolic references after {rounds} rounds")]
    TooManySplits { rounds: usize },
    /// More than one edit has this name; it is the least such name.
    #[error("the reference {0} has more than one edit")]
    DoubledName(FullName),
    /// There was no memory.
    #[error("there was no memory for the splits of the edits")]
    Memory,
}

impl From<AllocError> for EditError {
    ghost use Rattle.std.specs.Prelude.{◌≡◌};
    ghost use Rattle.gix_ref_edits.specs.declared.transaction.ext.error.EditError.TheVariants.{Memory};

    ghost from_gives = { λ _ e. e ≡ Memory };

    fn from(_error: AllocError) -> EditError {
        EditError::Memory
    }
}

impl<E> From<AllocError> for SplitError<E> {
    ghost use Rattle.std.specs.Prelude.{◌≡◌};
    ghost use Rattle.gix_ref_edits.specs.declared.transaction.ext.error.SplitError.TheVariants.{Memory};

    ghost from_gives = { λ _ e. e ≡ Memory };

    fn from(_error: AllocError) -> SplitError<E> {
        SplitError::Memory
    }
}

impl<T: Drop, E> From<AllocFailed<T>> for SplitError<E> {
    ghost use Rattle.std.specs.Prelude.{◌≡◌};
    ghost use Rattle.gix_ref_edits.specs.declared.transaction.ext.error.SplitError.TheVariants.{Memory};

    ghost from_gives = { λ _ e. e ≡ Memory };

    fn from(_error: AllocFailed<T>) -> SplitError<E> {
        SplitError::Memory
    }
}

impl<E> From<EditError> for SplitError<E> {
    ghost use Rattle.std.specs.Prelude.{◌≡◌};
    ghost use Rattle.gix_ref_edits.specs.SplitErrors.{as_split_error};

    ghost from_gives = { λ error e. e ≡ as_split_error error };

    fn from(error: EditError) -> SplitError<E> {
        match error {
            EditError::DoubledName(name) => SplitError::DoubledName(name),
            EditError::Memory => SplitError::Memory,
        }
    }
}
