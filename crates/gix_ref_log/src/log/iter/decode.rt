//! The report of a line of a log that cannot be read.
use thiserror::Error;

/// The number of a line, from 1.
#[derive(Clone, Copy, Debug, PartialEq, Eq)]
pub enum LineNumber {
    /// Counted from the first line of the file.
    FromStart(u64),
    /// Counted from the last line of the file.
    FromEnd(u64),
}

/// A line of a log that is not in the form of one.
#[derive(Clone, Copy, Debug, PartialEq, Eq, Error)]
#[error("line {line:?} is no line of a reflog")]
pub struct Error {
    /// Which line.
    pub line: LineNumber,
}
