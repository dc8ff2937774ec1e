//! Why a log line is not added.
use gix_ref_files::files::FileError;
use thiserror::Error;

/// Why a log line is not added to its log. As gix-ref's `file::log::create_or_update::Error`.
#[derive(Debug, Drop, Error)]
pub enum Error {
    /// The folders that lead to the log cannot be made: a file is in its path, or files failed in the search for it.
    #[error("the folders that lead to a reflog cannot be made")]
    CreateLeadingDirectories {
        /// The fault of files; `None` for a file in the path.
        source: Option<FileError>,
        /// The folder of the log, as a path.
        reflog_directory: Vec<u8>,
    },
    /// The line could not be added, or folders in the way of the log could not be listed.
    #[error("a line could not be added to a reflog: {source}")]
    Append {
        /// The fault of files.
        source: FileError,
        /// The path of the log.
        reflog_path: Vec<u8>,
    },
    /// A line is due, and its message holds LF.
    #[error("the message of a log line must not hold a line feed")]
    MessageWithNewlines,
    /// A line is due, and no committer was given.
    #[error("a log line is due, and there is no committer for it")]
    MissingCommitter,
    /// A line is due, and the signature of the committer cannot be written.
    #[error("the signature of a log line cannot be written")]
    SignatureUnwritable,
}
