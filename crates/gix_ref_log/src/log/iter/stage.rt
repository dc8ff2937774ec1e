//! Where the reading of a log from its end is.

/// Where the iterator is.
#[derive(Clone, Copy, PartialEq, Eq)]
pub enum Stage {
    /// Nothing was read.
    Unread,
    /// The line feed after the window was passed.
    Reading,
    /// The end.
    Done,
}

/// Where a line is in the buffer.
#[derive(Clone, Copy)]
pub(super) struct Place {
    /// Its first byte.
    pub(super) start: usize,
    /// The byte after its last.
    pub(super) end: usize,
    /// Whether a line feed follows it.
    pub(super) ends: bool,
    /// Its number from the end.
    pub(super) number: u64,
}
