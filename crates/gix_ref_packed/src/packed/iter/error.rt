//! Faults among the items of packed references.
use thiserror::Error;

/// A fault, with the line that is no record, or the first line that is no header. Lines are lent from the text.
#[derive(Clone, Copy, Debug, PartialEq, Eq, Error)]
pub enum Error<'a> {
    /// The text begins with `#` and has no header; its first line, without its LF or CRLF.
    #[error("the header of packed-refs cannot be read")]
    Header {
        invalid_first_line: &'a [u8],
    },
    /// A line that is no record, without its LF but with a CR, and its number in the file, from 1.
    #[error("line {line_number} of packed-refs is no record")]
    Reference {
        invalid_line: &'a [u8],
        line_number: u64,
    },
}
