//! Why a transaction is not committed.
use gix_ref_edits::transaction::SplitError;
use gix_ref_files::files::FileError;
use gix_ref_name::name::FullName;
use gix_ref_reflog::create_or_update;
use std::convert::Infallible;
use thiserror::Error;

/// Why a commit ended. As `commit::Error` of gix-ref's `file::transaction`.
#[derive(Debug, Drop, Error)]
pub enum Error {
    /// `packed-refs` could not be changed: a call of files failed where it was read, where its new text was put into its lock,
    /// or where that was put in place (`Io`); or a line of it is no record (`Iteration`), and then nothing but locks has
    /// changed.
    #[error("packed-refs could not be changed: {0}")]
    PackedTransactionCommit(gix_ref_packed_transaction::error::Error),
    /// A log line could not be added. It was refused before the first write, and nothing but locks has changed: `MissingCommitter`,
    /// `MessageWithNewlines`, `SignatureUnwritable`, or `CreateLeadingDirectories`. Or a call of files failed where the folders of the
    /// log were made (`CreateLeadingDirectories` with its source), or where the line was added or synced (`Append`); then the edits
    /// before this one are done, its reference reads as before, and the log may have any beginning of the line. Or a folder in the way of the
    /// log could not be listed (`Append`), and nothing but locks has changed.
    #[error("{0}")]
    CreateOrUpdateRefLog(create_or_update::Error),
    /// A call of files failed where the lock of the reference was renamed to its place, or where the folders above it were
    /// synced then. The reference reads as before or as edited, the edits before it are done, and none after it is begun.
    #[error("the lock of {full_name} could not be renamed: {source}")]
    LockCommit {
        source: FileError,
        full_name: FullName,
    },
    /// A call of files failed where the loose file of a deleted reference was removed. All updates are done, and so is
    /// `packed-refs`.
    #[error("{full_name} could not be removed: {err}")]
    DeleteReference {
        full_name: FullName,
        err: FileError,
    },
    /// A call of files failed where the log of a deletion was removed. All updates are done, and no reference is removed yet.
    #[error("the log of {full_name} could not be removed: {source}")]
    DeleteReflog {
        full_name: FullName,
        source: FileError,
    },
    /// A folder with a file below it is where the loose file of a reference, its log, or `packed-refs` goes. Empty folders are removed.
    #[error("a folder is in the place of a reference, of its log, or of packed-refs")]
    FolderInPlace {
        path: Vec<u8>,
    },
    /// Never returned: the list of edits is split and compared by `prepare`. As the variant of gix-ref, which returns it as little.
    #[error("{source}")]
    PreprocessingFailed {
        source: SplitError<Infallible>,
    },
    /// An allocation was refused. Nothing but locks has changed.
    #[error("out of memory")]
    Memory,
}
