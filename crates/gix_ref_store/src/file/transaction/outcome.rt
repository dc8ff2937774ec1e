//! What a transaction returns: refused, committed, failed or given up.
use crate::file::transaction::packed_refs::PackedRefs;
use crate::file::transaction::{commit, prepare};
use gix_ref_edits::transaction::RefEdit;
use gix_ref_object::object::{Find, Never};
use std::fmt;
use thiserror::Error;

/// A transaction that was not prepared.
#[derive(Drop, Error)]
#[error("the transaction was refused: {error}")]
pub struct Refused<T: Find = Never> {
    /// The first cause that applies.
    pub error: prepare::Error,
    /// As they were given, for another try.
    pub edits: Vec<RefEdit>,
    /// As it was given.
    pub packed_refs: PackedRefs<T>,
    /// The paths of locks that could not be removed again.
    pub locks_left: Vec<Vec<u8>>,
}

/// A transaction that was committed.
#[derive(Drop)]
pub struct Done<T: Find = Never> {
    /// The edits as they were prepared.
    pub edits: Vec<RefEdit>,
    /// As it was given.
    pub packed_refs: PackedRefs<T>,
    /// The paths of locks that could not be removed.
    pub locks_left: Vec<Vec<u8>>,
}

/// A transaction whose commit failed on its way.
#[derive(Drop, Error)]
#[error("the transaction failed: {error}")]
pub struct Failed<T: Find = Never> {
    /// Why it ended.
    pub error: commit::Error,
    /// As it was given.
    pub packed_refs: PackedRefs<T>,
    /// The paths of locks that could not be removed.
    pub locks_left: Vec<Vec<u8>>,
}

/// A transaction that was given up.
#[derive(Drop)]
pub struct RolledBack<T: Find = Never> {
    /// The edits as they were prepared; none where nothing was.
    pub edits: Vec<RefEdit>,
    /// As it was given.
    pub packed_refs: PackedRefs<T>,
    /// The paths of locks that could not be removed.
    pub locks_left: Vec<Vec<u8>>,
}

impl<T: Find> fmt::Debug for Refused<T> {
    fn fmt<W: fmt::Write>(&self, f: &mut fmt::Formatter<W>) -> fmt::Result {
        write!(f, "Refused {:?}", self.error)
    }
}

impl<T: Find> fmt::Debug for Done<T> {
    fn fmt<W: fmt::Write>(&self, f: &mut fmt::Formatter<W>) -> fmt::Result {
        write!(f, "Done {:?}", self.edits)
    }
}

impl<T: Find> fmt::Debug for Failed<T> {
    fn fmt<W: fmt::Write>(&self, f: &mut fmt::Formatter<W>) -> fmt::Result {
        write!(f, "Failed {:?}", self.error)
    }
}

impl<T: Find> fmt::Debug for RolledBack<T> {
    fn fmt<W: fmt::Write>(&self, f: &mut fmt::Formatter<W>) -> fmt::Result {
        write!(f, "RolledBack {:?}", self.edits)
    }
}
