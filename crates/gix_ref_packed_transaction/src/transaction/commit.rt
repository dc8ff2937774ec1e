//! The commit of a transaction of `packed-refs`: the new text goes into the lock, which is synced and then renamed to the file; or, where no
//! record is left, the file is removed.
ghost use Rattle.std.specs.Prelude.{◌≡◌, ◌⊎◌, OnOk, IfOk, IfErr, true, false};
ghost use Rattle.gix_ref_files.specs.Calls.{Renaming, Unchanged};
ghost use Rattle.gix_ref_files.specs.Disk.{folder_of, folder_synced};
ghost use Rattle.gix_ref_files.specs.DiskCalls.{RemovingFileOn, RenamingOn, SyncingOn};
ghost use Rattle.gix_ref_files.specs.Files.{AtEveryStop, OnEveryDisk, disk_of, DiskBecomes, NoFewer};
ghost use Rattle.gix_ref_files.specs.Lock.{lock_of};
ghost use Rattle.gix_ref_files.specs.Tree.{is_file, is_folder, moved};
ghost use Rattle.gix_ref_packed_transaction.specs.Changes.{change_values};
ghost use Rattle.gix_ref_packed_transaction.specs.PackedLosses.{IsReadyOn, SettlesPackedRefs};
ghost use Rattle.gix_ref_packed_transaction.specs.PackedTransactions.{IsLockEmpty, IsMadeOf, IsOldOrRewritten, IsReadBuffer, IsRewritten, IsStuckBuffer, OnlyLockGoes};
ghost use Rattle.gix_ref_packed_transaction.specs.internal.Keeping.{IsMoved, KeepsSettled};
ghost use Rattle.gix_ref_packed_transaction.specs.internal.LockSteps.{IsUnlocked, IsWhyNotPut};

use crate::changed::{changed, made};
use crate::changes::KeyChange;
pub use crate::error::Error;
use crate::fill::write_text;
use gix_ref_files::files::{FileError, Files, Rename};
use gix_ref_files::lock::LockFile;
use gix_ref_files::paths::folder;
use gix_ref_hash::hash::Kind;
use gix_ref_packed::packed::Buffer;
use gix_ref_packed_text::outcome::Rewrite;
use std::alloc::Global;
use std::io::ErrorKind;

/// What becomes of the records by the changes, which are in the order of their keys; of none, where there is no buffer.
pub(crate) fn rewritten(
    alloc: Global,
    buffer: &Option<Buffer>,
    kind: Kind,
    changes: &[KeyChange],
) -> Result<Rewrite, Error>
    ensures made { IfOk result (IsMadeOf kind buffer.now (change_values changes.now)) }
    ensures read { OnOk result (IsReadBuffer kind buffer.now) }
    ensures refused { IfErr result (IsStuckBuffer kind buffer.now) }
{
    match buffer {
        Some(buffer) => changed(alloc, buffer, kind, changes),
        None => made(alloc, kind, changes),
    }
}

/// Removes the lock.
fn unlock<F: Files>(files: &mut F, lock: &LockFile) -> Result<(), Error>
    ensures done { F.honest →
        OnOk result (IsUnlocked lock.now (F.means files.old).tree (F.means files.new).tree) }
    ensures leaves { F.honest → AtEveryStop F.means files.old files.new (OnlyLockGoes lock.now) }
    ensures passes { F.honest → OnEveryDisk F.means files.old files.new
        (λ D. RemovingFileOn D (lock_of lock.now)) }
    ensures why { IfErr result (IsWhyNotPut F.honest lock.now (F.faults files.old)
        (F.faults files.new) (F.means files.new).tree) }
    ensures no_fewer { NoFewer (F.faults files.old) (F.faults files.new) }
{
    match files.remove_file(lock.path()) {
        Ok(_) => Ok(()),
        Err(error) => Err(Error::Io(error)),
    }
}

/// Syncs the folder of the file.
fn settle<F: Files>(files: &mut F, lock: &LockFile) -> Result<(), Error>
    ensures leaves { F.honest → AtEveryStop F.means files.old files.new Unchanged }
    ensures passes { F.honest → OnEveryDisk F.means files.old files.new (λ D. SyncingOn (is_folder
        ((F.means files.old).tree (folder_of lock.now))) D (folder_synced D (folder_of lock.now))) }
    ensures synced { F.honest → is_folder ((F.means files.old).tree (folder_of lock.now)) ≡ true →
        OnOk result
        (DiskBecomes F.means files.old files.new (λ D. folder_synced D (folder_of lock.now))) }
    ensures why { IfErr result (IsWhyNotPut F.honest lock.now (F.faults files.old)
        (F.faults files.new) (F.means files.new).tree) }
    ensures no_fewer { NoFewer (F.faults files.old) (F.faults files.new) }
{
    match files.sync_folder(folder(lock.place())) {
        Ok(_) => Ok(()),
        Err(error) => Err(Error::Io(error)),
    }
}

/// Removes the file, and then the lock.
fn remove_both<F: Files>(files: &mut F, lock: &LockFile) -> Result<(), Error>
    ensures done { F.honest → OnOk result
        (IsRewritten Rewrite.Removed lock.now (F.means files.old).tree (F.means files.new).tree) }
    ensures leaves { F.honest → AtEveryStop F.means files.old files.new
        (IsOldOrRewritten Rewrite.Removed lock.now) }
    ensures passes { F.honest → IsReadyOn lock.now (disk_of (F.means files.old)) →
        OnEveryDisk F.means files.old files.new (KeepsSettled Rewrite.Removed lock.now) }
    ensures settled { F.honest → IsReadyOn lock.now (disk_of (F.means files.old)) → OnOk result
        (SettlesPackedRefs lock.now (disk_of (F.means files.old)) (disk_of (F.means files.new))) }
    ensures why { IfErr result (IsWhyNotPut F.honest lock.now (F.faults files.old)
        (F.faults files.new) (F.means files.new).tree) }
    ensures no_fewer { NoFewer (F.faults files.old) (F.faults files.new) }
{
    if let Err(error) = files.remove_file(lock.place()) {
        return Err(Error::Io(error));
    }
    settle(files, lock)?;
    unlock(files, lock)
}

/// Renames the lock to the file.
fn move_lock<F: Files>(files: &mut F, lock: &LockFile) -> Result<(), Error>
    ensures moved { F.honest → OnOk result ((F.means files.new).tree
        ≡ moved (F.means files.old).tree (lock_of lock.now) lock.now) }
    ensures leaves { F.honest → AtEveryStop F.means files.old files.new
        (λ T. Renaming T (lock_of lock.now) lock.now) }
    ensures moved_on { F.honest → OnOk result
        (IsMoved lock.now (disk_of (F.means files.old)) (disk_of (F.means files.new))) }
    ensures passes { F.honest → OnEveryDisk F.means files.old files.new
        (λ D. RenamingOn D (lock_of lock.now) lock.now) }
    ensures why { IfErr result (IsWhyNotPut F.honest lock.now (F.faults files.old)
        (F.faults files.new) (F.means files.new).tree) }
    ensures no_fewer { NoFewer (F.faults files.old) (F.faults files.new) }
{
    match files.rename(lock.path(), lock.place()) {
        Ok(Rename::Moved) => Ok(()),
        Ok(Rename::FolderStands) => {
            Err(Error::Commit(FileError::Device(ErrorKind::IsADirectory)))
        }
        Err(error) => Err(Error::Commit(error)),
    }
}

/// Puts a text into the lock, which is empty, and the lock in the place of the file. `renamed` is true once the lock was renamed.
fn put_text<F: Files>(
    files: &mut F,
    lock: &LockFile,
    text: &Vec<u8>,
    renamed: &mut bool,
) -> Result<(), Error>
    ensures done { F.honest → IsLockEmpty lock.now (F.means files.old).tree →
        OnOk result (IsRewritten (Rewrite.Text text.now) lock.now (F.means files.old).tree
        (F.means files.new).tree) }
    ensures leaves { F.honest → IsLockEmpty lock.now (F.means files.old).tree → AtEveryStop F.means
        files.old files.new (IsOldOrRewritten (Rewrite.Text text.now) lock.now) }
    ensures passes { F.honest → IsReadyOn lock.now (disk_of (F.means files.old)) →
        OnEveryDisk F.means files.old files.new (KeepsSettled (Rewrite.Text text.now) lock.now) }
    ensures settled { F.honest → IsReadyOn lock.now (disk_of (F.means files.old)) → OnOk result
        (SettlesPackedRefs lock.now (disk_of (F.means files.old)) (disk_of (F.means files.new))) }
    ensures why { IfErr result (IsWhyNotPut F.honest lock.now (F.faults files.old)
        (F.faults files.new) (F.means files.new).tree) }
    ensures renamed { F.honest → renamed.new ≡ true → (renamed.old ≡ true)
        ⊎ (is_file ((F.means files.new).tree (lock_of lock.now)) ≡ false) }
    ensures no_fewer { NoFewer (F.faults files.old) (F.faults files.new) }
{
    if let Err(error) = write_text(files, lock, text) {
        return Err(Error::Io(error));
    }
    move_lock(files, lock)?;
    *renamed = true;
    settle(files, lock)
}

/// Carries a rewrite out, and removes the lock or renames it. `renamed` is true once it was renamed.
pub(crate) fn put_rewrite<F: Files>(
    files: &mut F,
    lock: &LockFile,
    rewrite: &Rewrite,
    renamed: &mut bool,
) -> Result<(), Error>
    ensures done { F.honest → IsLockEmpty lock.now (F.means files.old).tree → OnOk result
        (IsRewritten rewrite.now lock.now (F.means files.old).tree (F.means files.new).tree) }
    ensures leaves { F.honest → IsLockEmpty lock.now (F.means files.old).tree →
        AtEveryStop F.means files.old files.new (IsOldOrRewritten rewrite.now lock.now) }
    ensures passes { F.honest → IsReadyOn lock.now (disk_of (F.means files.old)) →
        OnEveryDisk F.means files.old files.new (KeepsSettled rewrite.now lock.now) }
    ensures settled { F.honest → IsReadyOn lock.now (disk_of (F.means files.old)) → OnOk result
        (SettlesPackedRefs lock.now (disk_of (F.means files.old)) (disk_of (F.means files.new))) }
    ensures why { IfErr result (IsWhyNotPut F.honest lock.now (F.faults files.old)
        (F.faults files.new) (F.means files.new).tree) }
    ensures renamed { F.honest → renamed.new ≡ true → (renamed.old ≡ true)
        ⊎ (is_file ((F.means files.new).tree (lock_of lock.now)) ≡ false) }
    ensures no_fewer { NoFewer (F.faults files.old) (F.faults files.new) }
{
    match rewrite {
        Rewrite::Unchanged => unlock(files, lock),
        Rewrite::Removed => remove_both(files, lock),
        Rewrite::Text(text) => put_text(files, lock, text, renamed),
    }
}
