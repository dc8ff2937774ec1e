//! What becomes of `packed-refs` by the edits of a transaction whose locks are held: the records of deleted references are
//! removed, the objects of updates that are packed are put, and all others stay as they are written (`git pack-refs`). The caller
//! puts the new text in place, or removes the file. And a transaction of `packed-refs` alone.
//!
//! # What is proved
//!
//! - what becomes of `packed-refs`: where it is well formed, its records without those of deleted references and with those that
//!   updates put, the others byte for byte, in a text that is read as them again. The file is removed where none is left, and
//!   stays where no edit puts a record or deletes one that is there: `repack::repack`, clause `repacked` (`IsRepack` in
//!   `Repacks.antt`)
//! - of a well-formed one it fails only by a fault of files or for want of memory. Of any text the line that is reported is no
//!   record, and no line that is no record is passed over where an edit puts a record or deletes a reference of which one was
//!   found. No file changes, and none is looked at where no edit does: the same, clauses `sound`, `refused`, `whole`, `idle`,
//!   `reads`, `counted`
//! - what it puts are the objects of the updates of references, each with the object at the end of its tags by what the finder
//!   claims, and what it removes are the records of the names that the edits delete. An edit of a log alone and a symbolic update
//!   change none. The first object of another kind, or that cannot be peeled, is reported; edits that are refused leave it as it
//!   was. Where each name is a full one, what is put can be read again: `Transaction::prepare` (`AreSortedChangesOf`,
//!   `IsFirstNotTaken` in `RecordChanges.antt`)
//! - where its lock is held and empty, the buffer has records in the order of their names, and no two edits have one name: a
//!   commit that succeeds leaves the text of the buffer with these changes. Where no record is left there is no file, and where
//!   nothing was put or removed the file is as it was. Of any buffer: the lock is gone, and no other file has changed:
//!   `Transaction::commit`, clause `committed` (`IsMadeOf`, `IsRewritten` in `PackedTransactions.antt`)
//! - at every stop, and where it fails, the file is the old one or that one, and no other file but its lock has changed: the
//!   same, clause `leaves`
//! - where the lock is as `Lock::acquire` makes it, and the file and its folders were settled before, the file is the old one or
//!   that one after every loss of power inside it. Every other file that was settled is as before, except for the lock; a commit
//!   that succeeds leaves the file settled, so that no later loss undoes it: the same, clauses `lost`, `settled` (`IsReadyOn`,
//!   `IsLostOf`, `SettlesPackedRefs` in `PackedLosses.antt`)
//! - it fails by a call of files that failed, by a folder at the place, by a line that is no record, or for want of memory, and
//!   one that succeeds passed over no such line. A lock that is left is named, and only where a call of files failed: the same,
//!   clauses `why`, `read`, `named`
//! - a rollback removes the lock, or names it, and changes nothing else; nor does a loss of power inside it change a file that
//!   was settled: `Transaction::rollback`
#![tactic(auto)]

pub mod changed;
pub mod changes;
pub mod error;
pub mod fill;
pub mod repack;
pub mod transaction;

pub use transaction::Transaction;
