//! The errors of reading a log from its end.
use super::decode;
use gix_ref_files::files::FileError;
use thiserror::Error;

/// The buffer has no room for a byte.
#[derive(Clone, Copy, Debug, PartialEq, Eq, Error)]
#[error("the buffer for reading a log from its end is empty")]
pub struct EmptyBuffer;

/// Why a line was not given. After any of these but `Decode` the iterator has ended.
#[derive(Clone, Copy, Debug, PartialEq, Eq, Error)]
pub enum ReverseError {
    /// The log could not be read.
    #[error("the log could not be read: {0}")]
    Io(FileError),
    /// A line is not in the form of one.
    #[error(transparent)]
    Decode(decode::Error),
    /// A line is longer than the buffer.
    #[error("a line of the log is longer than the buffer")]
    BufferTooSmall,
    /// There was no memory for a line.
    #[error("out of memory")]
    Memory,
}
