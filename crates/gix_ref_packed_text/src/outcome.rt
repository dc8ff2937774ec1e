//! The result of a rewrite of `packed-refs`.

/// What becomes of `packed-refs` by edits of its records.
#[derive(Drop)]
pub enum Rewrite {
    /// No edit puts a record or finds one: the file stays as it is.
    Unchanged,
    /// No record is left: the file is to be removed.
    Removed,
    /// The new text of the file.
    Text(Vec<u8>),
}
