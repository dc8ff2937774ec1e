//! What an edit leaves of a text of records.
use crate::ahead::Ahead;

/// What is left after an edit, and whether it altered the records.
#[derive(Clone, Copy)]
pub struct Applied<'a> {
    /// The records that are left.
    pub ahead: Ahead<'a>,
    /// It removed a record, or put one.
    pub alters: bool,
}
