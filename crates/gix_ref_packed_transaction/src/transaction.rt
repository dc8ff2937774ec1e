//! A transaction of `packed-refs` alone, for a caller who holds its lock: records are put into it and removed from it, and all others stay
//! as they are written. As gix-ref's `packed::Transaction`.
ghost use Rattle.std.specs.Prelude.{◌≡◌, ◌⊎◌, [], Some, None, false, Option, OnOk, OnErr, IfErr, MatchOption};
ghost use Rattle.std.specs.List.{All};
ghost use Rattle.gix_ref_name.specs.NameGrammar.{IsFullName};
ghost use Rattle.gix_ref_edits.specs.RefEdits.{name_of};
ghost use Rattle.gix_ref_packed_transaction.specs.Changes.{AreReadable};
ghost use Rattle.gix_ref_files.specs.DiskCalls.{RemovingFileOn};
ghost use Rattle.gix_ref_files.specs.Files.{AtEveryStop, Loses, OnEveryDisk, HasRisen, disk_of, NoFewer};
ghost use Rattle.gix_ref_files.specs.Lock.{lock_of};
ghost use Rattle.gix_ref_files.specs.Tree.{is_file};
ghost use Rattle.gix_ref_packed_transaction.specs.PackedTransactions.{OnlyLockGoes};

mod changes;
pub mod commit;
pub mod prepare;

use crate::changes::KeyChange;
use crate::transaction::changes::sorted_changes;
use crate::transaction::commit::{put_rewrite, rewritten};
use gix_ref_edits::transaction::RefEdit;
use gix_ref_files::files::Files;
use gix_ref_files::lock::{Lock, LockFile};
use gix_ref_hash::hash::Kind;
use gix_ref_object::object::Find;
use gix_ref_packed::packed::Buffer;
use std::alloc::Global;
use std::fmt;
use thiserror::Error;

/// A transaction of `packed-refs`, which holds its lock. It must be spent, by `commit` or `rollback`.
pub struct Transaction {
    buffer: Option<Buffer>,
    lock: LockFile,
    kind: Kind,
    changes: Vec<KeyChange>,
}

/// Removes a lock: its path, where it could not be removed.
fn remove<F: Files>(files: &mut F, lock: LockFile) -> Option<Vec<u8>>
    ensures leaves { F.honest → AtEveryStop F.means files.old files.new (OnlyLockGoes lock) }
    ensures passes { F.honest → OnEveryDisk F.means files.old files.new
        (λ D. RemovingFileOn D (lock_of lock)) }
    ensures named { MatchOption result (F.honest →
        is_file ((F.means files.new).tree (lock_of lock)) ≡ false)
        (λ path. (path.items ≡ lock_of lock) × HasRisen (F.faults files.old) (F.faults files.new)) }
    ensures no_fewer { NoFewer (F.faults files.old) (F.faults files.new) }
{
    match files.remove_file(lock.path()) {
        Ok(_) => None,
        Err(_) => Some(lock.into_parts().1),
    }
}

/// Removes the lock after a failure.
fn release<F: Files>(files: &mut F, lock: LockFile, error: commit::Error) -> Failed
    ensures error { result.error ≡ error }
    ensures leaves { F.honest → AtEveryStop F.means files.old files.new (OnlyLockGoes lock) }
    ensures passes { F.honest → OnEveryDisk F.means files.old files.new
        (λ D. RemovingFileOn D (lock_of lock)) }
    ensures named { MatchOption result.lock_left
        (F.honest → is_file ((F.means files.new).tree (lock_of lock)) ≡ false)
        (λ path. (path.items ≡ lock_of lock) × HasRisen (F.faults files.old) (F.faults files.new)) }
    ensures no_fewer { NoFewer (F.faults files.old) (F.faults files.new) }
{
    Failed {
        error,
        lock_left: remove(files, lock),
    }
}

/// A transaction that was not committed.
#[derive(Debug, Drop, Error)]
#[error("packed-refs was not changed: {error}")]
pub struct Failed {
    /// Why it ended.
    pub error: commit::Error,
    /// The path of the lock, where it could not be removed.
    pub lock_left: Option<Vec<u8>>,
}

impl Transaction {
    ghost use Rattle.gix_ref_transaction.specs.declared.prepare.packed.Error.TheVariants.{Memory as no_memory};
    ghost use Rattle.gix_ref_packed_transaction.specs.RecordChanges.{AreSortedChangesOf, IsFirstNotTaken};
    ghost use Rattle.gix_ref_packed_transaction.specs.PackedLosses.{IsLostBy, IsReadyOn, OnlyLockIsLost, SettlesPackedRefs};
    ghost use Rattle.gix_ref_packed_transaction.specs.PackedTransactions.{IsForSameFile, records_of, transaction_place, transaction_kind, changes_of, CommitsBy, IsBeforeOrCommitted, LockIsGoneOrNamed, IsLockEmpty, IsReadBuffer, IsUnbegun, SaysWhyPacked};

    /// A transaction of the file whose lock is held, and whose records these are: `None` where there is no such file. The ids of the file
    /// are of the kind. Not public in gix-ref.
    ///
    /// ```text
    /// if let Acquire::Held(lock) = Lock::acquire(alloc, &mut files, b".git/packed-refs")? {
    ///     let buffer = Buffer::open(alloc, &mut files, b".git/packed-refs", 32_768, Kind::Sha1)?;
    ///     let mut transaction = Transaction::new(alloc, buffer, lock, Kind::Sha1);
    ///     transaction.prepare(alloc, &edits, &objects)?;
    ///     transaction.commit(alloc, &mut files)?;
    /// }
    /// ```
    pub fn new(alloc: Global, buffer: Option<Buffer>, lock: Lock, kind: Kind) -> Transaction
        ensures records { records_of result ≡ buffer }
        ensures place { transaction_place result ≡ lock }
        ensures kind { transaction_kind result ≡ kind }
        ensures changes { changes_of result ≡ [] }
    {
        Transaction {
            buffer,
            lock: lock.into_file(),
            kind,
            changes: Vec::new(alloc),
        }
    }

    /// The records that it was made with. As gix-ref's `packed::Transaction::buffer`.
    pub fn buffer(&self) -> Option<&Buffer>
        ensures { MatchOption result (records_of self.now ≡ None)
            (λ buffer. records_of self.now ≡ Some buffer.now) }
    {
        self.buffer.as_ref()
    }

    /// Takes the edits whose records `commit` changes, each under its full name: an update of a reference to an object puts that, with the
    /// object at the end of its tags, which the finder leads to, where that is another one; a deletion of a reference removes
    /// its record. Edits of logs alone and updates to other references are passed over. The edits of an earlier call are given
    /// up. No two edits may have one name, and each name is to be a full one. As gix-ref's `packed::Transaction::prepare`.
    ///
    /// The first edit at fault is reported: `OtherHashKind` for an object, or one at the end of its tags, whose id is not of the kind of the
    /// file's ids; `Resolve` for one that is missing, or that is a tag which names no object; `TagChainTooLong` for one at the end of
    /// more than 1,000 tags, `Find` for one that could not be read. `Memory` can come anywhere. After an error all is as it was.
    pub fn prepare<T: Find>(
        &mut self,
        alloc: Global,
        edits: &[RefEdit],
        objects: &T,
    ) -> Result<(), prepare::Error>
        ensures changes { OnOk result (AreSortedChangesOf (T.claims objects.now)
            (T.meaning objects.now) (transaction_kind self.old) edits.now (changes_of self.new)) }
        ensures readable { All (λ edit. IsFullName (name_of edit)) edits.now → OnOk result
            (AreReadable (transaction_kind self.old) (changes_of self.new)) }
        ensures same_file { IsForSameFile self.old self.new }
        ensures kept { OnErr result (self.new ≡ self.old) }
        ensures refused { T.claims objects.now → IfErr result
            (λ error. (error ≡ no_memory) ⊎ IsFirstNotTaken (transaction_kind self.old)
            (T.meaning objects.now) [] edits.now error) }
    {
        self.changes = sorted_changes(alloc, objects, self.kind, edits)?;
        Ok(())
    }

    /// Puts and removes the records: the new text, with the header that `git pack-refs` writes and all other records as they were, goes
    /// into the lock, which is synced and renamed to the file; where no record is left the file is removed, and where none is
    /// put or removed it stays as it is. The folder of the file is synced. Then the lock is gone.
    ///
    /// `Iteration` reports a line of the records that is no record, and `Memory` that there was none for the text; then nothing but
    /// the lock has changed. `Io` and `Commit` report a call of files that failed, `Commit` the rename, also onto a folder. At every
    /// stop, and after every loss of power, the file is the old one or the new one; a commit that succeeded is not lost. After a failure
    /// the lock is removed, unless it was renamed. As gix-ref's
    /// `packed::Transaction::commit`.
    pub fn commit<F: Files>(self, alloc: Global, files: &mut F) -> Result<(), Failed>
        ensures committed { F.honest → IsLockEmpty (transaction_place self)
            (F.means files.old).tree → OnOk result
            (CommitsBy self (F.means files.old).tree (F.means files.new).tree) }
        ensures read { OnOk result (IsReadBuffer (transaction_kind self) (records_of self)) }
        ensures leaves { F.honest → IsLockEmpty (transaction_place self) (F.means files.old).tree →
            AtEveryStop F.means files.old files.new (IsBeforeOrCommitted self) }
        ensures lost { F.honest → IsReadyOn (transaction_place self) (disk_of (F.means files.old)) →
            Loses (F.means files.old) (F.means files.new)
            (IsLostBy self (disk_of (F.means files.old))) }
        ensures settled { F.honest → IsReadyOn (transaction_place self)
            (disk_of (F.means files.old)) → OnOk result (SettlesPackedRefs (transaction_place self)
            (disk_of (F.means files.old)) (disk_of (F.means files.new))) }
        ensures why { IfErr result (λ f. SaysWhyPacked F.honest (transaction_kind self)
            (records_of self) (transaction_place self) (F.faults files.old) (F.faults files.new)
            (F.means files.new).tree f.error) }
        ensures kept { F.honest → IfErr result (λ f. IsUnbegun f.error → OnlyLockGoes
            (transaction_place self) (F.means files.old).tree (F.means files.new).tree) }
        ensures named { IfErr result (λ f. LockIsGoneOrNamed F.honest self f.lock_left
            (F.faults files.old) (F.faults files.new) (F.means files.new).tree) }
    {
        let Transaction {
            buffer,
            lock,
            kind,
            changes,
        } = self;
        let rewrite = match rewritten(alloc, &buffer, kind, &changes) {
            Ok(rewrite) => rewrite,
            Err(error) => return Err(release(files, lock, error)),
        };
        let mut renamed = false;
        match put_rewrite(files, &lock, &rewrite, &mut renamed) {
            Ok(()) => Ok(()),
            // Another may hold the lock by now.
            Err(error) if renamed => Err(Failed {
                error,
                lock_left: None,
            }),
            Err(error) => Err(release(files, lock, error)),
        }
    }

    /// Gives the transaction up, and removes the lock: the path of the lock, where it could not be removed. As the drop of gix-ref's
    /// `packed::Transaction`.
    pub fn rollback<F: Files>(self, files: &mut F) -> Option<Vec<u8>>
        ensures leaves { F.honest → AtEveryStop F.means files.old files.new
            (OnlyLockGoes (transaction_place self)) }
        ensures lost { F.honest → Loses (F.means files.old) (F.means files.new)
            (OnlyLockIsLost (transaction_place self) (disk_of (F.means files.old))) }
        ensures named { LockIsGoneOrNamed F.honest self result (F.faults files.old)
            (F.faults files.new) (F.means files.new).tree }
    {
        let Transaction {
            buffer: _,
            lock,
            kind: _,
            changes: _,
        } = self;
        remove(files, lock)
    }
}

impl fmt::Debug for Transaction {
    fn fmt<W: fmt::Write>(&self, f: &mut fmt::Formatter<W>) -> fmt::Result {
        f.write_str("Transaction")
    }
}
