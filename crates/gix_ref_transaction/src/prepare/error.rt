//! Why a transaction is not prepared.
use gix_ref_edits::transaction::SplitError;
use gix_ref_files::files::FileError;
use gix_ref_lookup::loose;
use gix_ref_name::name::FullName;
use gix_ref_packed::packed;
use gix_ref_target::target::Target;
use std::alloc::AllocError;
use std::convert::Infallible;
use thiserror::Error;

/// The causes of a refusal, in the order in which `prepare` reports them: the first five of each edit by itself, then the split
/// list, then the lock of `packed-refs`, that file and its records, then the objects that are put into it, edit by edit; the others edit by
/// edit. `Io` and `Memory` can come anywhere.
#[derive(Debug, Drop, Error)]
pub enum Error {
    /// The name of an edit neither begins with `refs/` nor has a category, so it may lie where Git keeps something else.
    #[error("the name of an edit may not be that of a reference")]
    UnsafeName,
    /// A component of the place of an edit's reference is the name of a Windows device, as `CON`, and the store prohibits these.
    #[error("a component of the name of an edit is the name of a Windows device")]
    DeviceName,
    /// A deletion expects that there is no reference.
    #[error("a deletion expects that the reference does not exist")]
    DeleteMustNotExist,
    /// The new target of an edit is the name of a reference, and no full name.
    #[error("the name of a new symbolic target is no full name")]
    TargetNotFull,
    /// An id of an edit, new or expected, is not of the store's kind; or, in its turn after the records, the object at the end of the
    /// tags of one that is put into `packed-refs` is not.
    #[error("an id of an edit is of another kind than those of the store")]
    OtherHashKind,
    /// The list of edits is refused: `source` is `TooManySplits` where symbolic references lead on for more than four steps, or
    /// `DoubledName` with the least name that more than one edit has. It is neither `Find` nor `Memory`.
    #[error("{source}")]
    PreprocessingFailed {
        source: SplitError<Infallible>,
    },
    /// `packed-refs` may change, and its lock exists already or a file is in the path of it.
    #[error("packed-refs is locked")]
    PackedTransactionAcquire,
    /// `packed-refs` could not be opened or read, or it is malformed where it is read as a whole.
    #[error("packed-refs could not be opened: {0}")]
    Packed(packed::buffer::open::Error),
    /// The record of an edit's reference cannot be read, or a malformed line was met in the search for it.
    #[error("a search in packed-refs failed: {0}")]
    PackedFind(packed::find::Error),
    /// The object of an update that is put into `packed-refs` cannot be peeled: it is missing, or a tag that names no object (`Resolve`),
    /// it is at the end of more than 1,000 tags (`TagChainTooLong`), or the finder could not read it (`Find`). It has no other variant.
    #[error("{0}")]
    PackedTransactionPrepare(crate::prepare::packed::Error),
    /// A file is in the path of the edit's lock.
    #[error("a file is in the path of the lock of {full_name}")]
    PathCollision {
        full_name: FullName,
    },
    /// Something is at the path of the edit's lock already.
    #[error("the lock of {full_name} exists already")]
    LockAcquire {
        full_name: FullName,
    },
    /// The reference is not there, and a deletion expects it.
    #[error("the reference {full_name} does not exist, and is to be deleted")]
    DeleteReferenceMustExist {
        full_name: FullName,
    },
    /// The reference is not there, and an update expects it. Where it expects no certain target, that is the null id.
    #[error("the reference {full_name} does not exist")]
    MustExist {
        full_name: FullName,
        expected: Target,
    },
    /// The reference is there with another target than the new one, and an update expects that it is not.
    #[error("the reference {full_name} exists with the target {actual}")]
    MustNotExist {
        full_name: FullName,
        actual: Target,
        new: Target,
    },
    /// The reference has another target than the edit expects.
    #[error("the reference {full_name} has the target {actual} in place of {expected}")]
    ReferenceOutOfDate {
        full_name: FullName,
        expected: Target,
        actual: Target,
    },
    /// Never returned: a loose file that cannot be decoded counts as absent, as in gix-ref, which has this variant.
    #[error("{0}")]
    ReferenceDecode(loose::Error),
    /// A call of files failed.
    #[error("{0}")]
    Io(FileError),
    /// An allocation was refused.
    #[error("out of memory")]
    Memory,
}

impl From<FileError> for Error {
    ghost use Rattle.std.specs.Prelude.{◌≡◌};
    ghost use Rattle.gix_ref_transaction.specs.Causes.{cause_of};

    ghost from_gives = { λ error cause. cause ≡ cause_of error };

    fn from(error: FileError) -> Error {
        match error {
            FileError::Memory => Error::Memory,
            FileError::Device(kind) => Error::Io(FileError::Device(kind)),
            FileError::NotUtf8 => Error::Io(FileError::NotUtf8),
        }
    }
}

impl From<AllocError> for Error {
    ghost use Rattle.std.specs.Prelude.{◌≡◌};
    ghost use Rattle.gix_ref_transaction.specs.declared.prepare.error.Error.TheVariants.{Memory};

    ghost from_gives = { λ _ cause. cause ≡ Memory };

    fn from(_error: AllocError) -> Error {
        Error::Memory
    }
}
