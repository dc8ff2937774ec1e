//! Edits of the records of `packed-refs`.
use gix_ref_hash::hash::ObjectId;

/// The ids of a record that is put into `packed-refs`. As the record of an update in gix-ref's `packed::Transaction`.
#[derive(Clone, Copy, PartialEq, Eq)]
pub struct NewRecord {
    /// The object.
    pub target: ObjectId,
    /// The object at the end of its tags, where that is another one.
    pub peeled: Option<ObjectId>,
}

/// An edit of the record of a key. As `Edit` of gix-ref's `packed::Transaction`.
#[derive(Clone, Copy)]
pub struct RecordEdit<'a> {
    /// The full name that the record has in `packed-refs`.
    pub key: &'a [u8],
    /// What is put in place of the record, or added where there is none; `None` removes the record.
    pub put: Option<NewRecord>,
}
