//! Causes of a refusal and of a failed commit, with what they report.
use crate::made::{To, is_target};
use gix_ref_edits::transaction::SplitError;
use gix_ref_name::name::FullName;
use gix_ref_packed_transaction::error::Error as RepackError;
use gix_ref_reflog::create_or_update;
use gix_ref_store::file::transaction::commit;
use gix_ref_store::file::transaction::prepare::Error;
use gix_ref_transaction::prepare::packed;

/// Why `prepare` refuses edits, with the name of the edit, what it expects or sets, and what is there.
#[derive(Clone, Copy, Debug, PartialEq, Eq)]
pub enum Cause {
    UnsafeName,
    DeviceName,
    DeleteMustNotExist,
    TargetNotFull,
    OtherHashKind,
    TooManySplits,
    DoubledName(&'static str),
    PackedTransactionAcquire,
    Packed,
    PackedFind,
    /// The object of an update that is put into `packed-refs` is missing.
    Resolve,
    PathCollision(&'static str),
    LockAcquire(&'static str),
    DeleteReferenceMustExist(&'static str),
    MustExist(&'static str, To),
    MustNotExist(&'static str, To, To),
    ReferenceOutOfDate(&'static str, To, To),
}

/// Why a commit fails, with the path that it reports.
#[derive(Debug, Drop)]
pub enum Failure {
    MissingCommitter,
    MessageWithNewlines,
    SignatureUnwritable,
    FileInPath(String),
    BadLine,
    FolderInPlace(String),
}

fn is(name: &FullName, want: &str) -> bool {
    name.eq_bytes(want.as_bytes())
}

/// Whether an error is a cause of the locks and the expectations, which names its edit.
fn is_named(error: &Error, want: Cause) -> bool {
    match (error, want) {
        (Error::PathCollision { full_name }, Cause::PathCollision(name))
        | (Error::LockAcquire { full_name }, Cause::LockAcquire(name))
        | (Error::DeleteReferenceMustExist { full_name }, Cause::DeleteReferenceMustExist(name)) =>
            is(full_name, name),
        (
            Error::MustExist {
                full_name,
                expected,
            },
            Cause::MustExist(name, to),
        ) => is(full_name, name) && is_target(expected, to),
        (
            Error::MustNotExist {
                full_name,
                actual,
                new,
            },
            Cause::MustNotExist(name, found, to),
        ) => is(full_name, name) && is_target(actual, found) && is_target(new, to),
        (
            Error::ReferenceOutOfDate {
                full_name,
                expected,
                actual,
            },
            Cause::ReferenceOutOfDate(name, to, found),
        ) => is(full_name, name) && is_target(expected, to) && is_target(actual, found),
        _ => false,
    }
}

/// Whether an error is this cause.
pub fn is_cause(error: &Error, want: Cause) -> bool {
    match error {
        Error::UnsafeName => want == Cause::UnsafeName,
        Error::DeviceName => want == Cause::DeviceName,
        Error::DeleteMustNotExist => want == Cause::DeleteMustNotExist,
        Error::TargetNotFull => want == Cause::TargetNotFull,
        Error::OtherHashKind => want == Cause::OtherHashKind,
        Error::PreprocessingFailed { source } => match source {
            SplitError::TooManySplits { .. } => want == Cause::TooManySplits,
            SplitError::DoubledName(full_name) => match want {
                Cause::DoubledName(name) => is(full_name, name),
                _ => false,
            },
            _ => false,
        },
        Error::PackedTransactionAcquire => want == Cause::PackedTransactionAcquire,
        Error::Packed(_) => want == Cause::Packed,
        Error::PackedFind(_) => want == Cause::PackedFind,
        Error::PackedTransactionPrepare(packed::Error::Resolve) => want == Cause::Resolve,
        _ => is_named(error, want),
    }
}

/// Whether a line is refused for this.
fn is_line_failure(error: &create_or_update::Error, want: &Failure) -> bool {
    match error {
        create_or_update::Error::MissingCommitter => matches!(want, Failure::MissingCommitter),
        create_or_update::Error::MessageWithNewlines => {
            matches!(want, Failure::MessageWithNewlines)
        }
        create_or_update::Error::SignatureUnwritable => {
            matches!(want, Failure::SignatureUnwritable)
        }
        create_or_update::Error::CreateLeadingDirectories {
            source: None,
            reflog_directory,
        } => match want {
            Failure::FileInPath(path) => reflog_directory.as_slice() == path.as_bytes(),
            _ => false,
        },
        _ => false,
    }
}

/// Whether a commit failed for this.
pub fn is_failure(error: &commit::Error, want: &Failure) -> bool {
    match error {
        commit::Error::CreateOrUpdateRefLog(error) => is_line_failure(error, want),
        commit::Error::PackedTransactionCommit(RepackError::Iteration { .. }) => {
            matches!(want, Failure::BadLine)
        }
        commit::Error::FolderInPlace { path } => match want {
            Failure::FolderInPlace(want) => path.as_slice() == want.as_bytes(),
            _ => false,
        },
        _ => false,
    }
}
