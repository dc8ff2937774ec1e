//! What is left of a text of records.
ghost use Rattle.std.specs.Prelude.{◌<◌, ◌+◌, ◌^◌, length};

/// What follows some records of a text, and the number of its first line in the file.
#[derive(Clone, Copy)]
pub struct Ahead<'a> {
    /// The records that are left.
    pub rest: &'a [u8],
    /// The number of the next line, from 1.
    pub line: u64,
    pub ghost fits: { line + length rest.now < 2 ^ 64 },
}
