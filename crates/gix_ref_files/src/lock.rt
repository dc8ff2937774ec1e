//! Locks: a text is written to a file beside its place and then renamed to the place, so that the place holds the old
//! text or the whole new one at every moment.
ghost use Rattle.std.specs.Prelude.{◌≡◌, IfOk, OnOk, IsErrOf, MatchResult};
ghost use Rattle.gix_ref_files.specs.Files.{AtEveryStop, Adds, OnEveryDisk, CountsCall, count_after, DiskBecomes};
ghost use Rattle.gix_ref_files.specs.DiskCalls.{after_create, CreatingOn, after_synced_append, WritingOn, RenamingOn, after_removal, RemovingFileOn};
ghost use Rattle.gix_ref_files.specs.Calls.{Creates, Creating, Appends, Appending, Renaming, RemovesFile, RemovingFile};
ghost use Rattle.gix_ref_files.specs.Lock.{lock_of, Readies, Readying, after_readying, ReadyingOn, MakesLock, after_locking, LockingOn, Acquires, Acquiring, after_acquire, Commits, after_commit, GivesBack};

use crate::files::{Create, FileError, Files, Rename};
use crate::paths::folder_end;
use std::alloc::{AllocError, Global};
use std::marker::Model;

/// The file of a lock, held or not: the path of its place, and that of the file, with `.lock` after it. A contract sees it as the
/// place. It is made before the lock is taken, so that to take it, to write to it and to remove it takes no memory.
#[derive(Debug, Drop)]
pub struct LockFile {
    place: Vec<u8>,
    lock: Vec<u8>,
}

impl Model for LockFile {
    ghost use Rattle.std.specs.Prelude.{ℕ, List, ◌≡◌, ◌++◌, codes};

    ghost Value = { List ℕ };

    ghost view = { λ a. a.place.items };

    ghost invariant = { λ a. a.lock.items ≡ a.place.items ++ codes ".lock" };
}

/// A lock that is held. A contract sees it as the path of its place. It must be spent by `commit` or `remove`.
#[derive(Debug)]
pub struct Lock {
    file: LockFile,
}

impl Model for Lock {
    ghost use Rattle.std.specs.Prelude.{ℕ, List, ⊤};

    ghost Value = { List ℕ };

    ghost view = { λ a. a.file };

    ghost invariant = { λ a. ⊤ };
}

/// The results of `Lock::acquire`.
#[derive(Debug)]
pub enum Acquire {
    /// The lock was made, and is held.
    Held(Lock),
    /// Something is at the lock's path.
    Standing,
    /// A file is in the path.
    Blocked,
}

/// The results of `Lock::commit`.
#[derive(Debug)]
pub enum Commit {
    /// The lock is now the file at the place.
    Moved,
    /// A folder is at the place. The lock is still held.
    FolderStands(Lock),
}

/// A lock whose last call failed. The lock's file may be gone.
#[derive(Debug)]
pub struct Unspent {
    /// Why it failed.
    pub error: FileError,
    /// The lock, which must still be spent.
    pub lock: Lock,
}

/// Makes the folders that lead to a path; false where a file is in it.
fn ready<F: Files>(files: &mut F, path: &[u8]) -> Result<bool, FileError>
    ensures answer { F.honest →
        IfOk result (Readies (F.means files.old).tree path.now (F.means files.new).tree) }
    ensures disk { F.honest → IfOk result
        (λ made. DiskBecomes F.means files.old files.new (λ D. after_readying D path.now made)) }
    ensures passes { F.honest → OnEveryDisk F.means files.old files.new
        (λ D. ReadyingOn D path.now) }
    ensures count { CountsCall result (F.faults files.old) (F.faults files.new) }
{
    let end = folder_end(path);
    if end == 0 {
        return Ok(true);
    }
    files.make_folders(&path[..end])
}

impl LockFile {
    /// The file of the lock of a place. Nothing is done on disk.
    pub fn at(place: Vec<u8>) -> Result<LockFile, AllocError>
        ensures { IfOk result (λ file. file ≡ place.items) }
    {
        let ending = b".lock";
        let room = place.len().saturating_add(ending.len());
        let mut lock = Vec::with_capacity(*place.allocator(), room)?;
        lock.extend_from_slice(&place)?;
        lock.extend_from_slice(ending)?;
        Ok(LockFile { place, lock })
    }

    /// The path of the place.
    pub fn place(&self) -> &[u8]
        ensures { result.now ≡ self.now }
    {
        &self.place
    }

    /// The path of the file of the lock.
    pub fn path(&self) -> &[u8]
        ensures { result.now ≡ lock_of self.now }
    {
        &self.lock
    }

    /// The path of the place, and that of the file of the lock. Takes no memory.
    pub fn into_parts(self) -> (Vec<u8>, Vec<u8>)
        ensures place { result.0.items ≡ self }
        ensures path { result.1.items ≡ lock_of self }
    {
        (self.place, self.lock)
    }

    /// Takes the lock: makes the folders that lead to the place, and then the file. An error leaves no lock; folders may have
    /// been made. The caller sees to the removal of the lock.
    pub fn take<F: Files>(&self, files: &mut F) -> Result<Create, FileError>
        ensures answer { F.honest → MatchResult result
            (MakesLock (F.means files.old).tree self.now (F.means files.new).tree)
            (λ _. Readying (F.means files.old).tree self.now (F.means files.new).tree) }
        ensures leaves { F.honest → AtEveryStop F.means files.old files.new
            (λ T. Acquiring T self.now) }
        ensures disk { F.honest → IfOk result (λ create. DiskBecomes F.means files.old files.new
            (λ D. after_locking D self.now create)) }
        ensures passes { F.honest → OnEveryDisk F.means files.old files.new
            (λ D. LockingOn D self.now) }
        ensures count { CountsCall result (F.faults files.old) (F.faults files.new) }
    {
        make_lock(files, &self.place, &self.lock)
    }

    /// Makes the file alone, for a caller who knows that folders lead to the place (`File::create_new`).
    pub fn create<F: Files>(&self, files: &mut F) -> Result<Create, FileError>
        ensures answer { F.honest → MatchResult result
            (Creates (F.means files.old).tree (lock_of self.now) (F.means files.new).tree)
            (λ _. (F.means files.new).tree ≡ (F.means files.old).tree) }
        ensures leaves { F.honest → AtEveryStop F.means files.old files.new
            (λ T. Creating T (lock_of self.now)) }
        ensures disk { F.honest → IfOk result (λ create. DiskBecomes F.means files.old files.new
            (λ D. after_create D (lock_of self.now) create)) }
        ensures passes { F.honest → OnEveryDisk F.means files.old files.new
            (λ D. CreatingOn D (lock_of self.now)) }
        ensures count { CountsCall result (F.faults files.old) (F.faults files.new) }
    {
        files.create_new(&self.lock)
    }

    /// Adds bytes to the file of the lock and syncs it, so that a loss of power leaves them all once the lock is renamed;
    /// false where it does not exist. A fault leaves any beginning of them there.
    pub fn write<F: Files>(&self, files: &mut F, bytes: &[u8]) -> Result<bool, FileError>
        ensures answer { F.honest → IfOk result (Appends (F.means files.old).tree
            (lock_of self.now) bytes.now (F.means files.new).tree) }
        ensures leaves { F.honest → AtEveryStop F.means files.old files.new
            (λ T. Appending T (lock_of self.now) bytes.now) }
        ensures adds { F.honest → OnOk result (Adds (F.means files.old) (F.means files.new)
            (Appending (F.means files.old).tree (lock_of self.now) bytes.now)) }
        ensures disk { F.honest → IfOk result (λ there. DiskBecomes F.means files.old files.new
            (λ D. after_synced_append D (lock_of self.now) bytes.now there)) }
        ensures passes { F.honest → OnEveryDisk F.means files.old files.new
            (λ D. WritingOn D (lock_of self.now) bytes.now) }
        ensures count { CountsCall result (F.faults files.old) (F.faults files.new) }
    {
        if !files.append(&self.lock, bytes)? {
            return Ok(false);
        }
        files.sync_file(&self.lock)
    }
}

/// Makes the folders that lead to a path, and the file of its lock. An error leaves no lock.
fn make_lock<F: Files>(files: &mut F, path: &[u8], lock: &[u8]) -> Result<Create, FileError>
    requires { lock.now ≡ lock_of path.now }
    ensures answer { F.honest → MatchResult result
        (MakesLock (F.means files.old).tree path.now (F.means files.new).tree)
        (λ _. Readying (F.means files.old).tree path.now (F.means files.new).tree) }
    ensures disk { F.honest → IfOk result
        (λ create. DiskBecomes F.means files.old files.new (λ D. after_locking D path.now create)) }
    ensures passes { F.honest → OnEveryDisk F.means files.old files.new
        (λ D. LockingOn D path.now) }
    ensures count { CountsCall result (F.faults files.old) (F.faults files.new) }
{
    if !ready(files, path)? {
        return Ok(Create::Blocked);
    }
    files.create_new(lock)
}

/// The file of the lock of a path that is lent.
fn file_at(alloc: Global, path: &[u8]) -> Result<LockFile, AllocError>
    ensures { IfOk result (λ file. file ≡ path.now) }
{
    LockFile::at(path.to_vec(alloc)?)
}

impl Lock {
    /// Takes the lock of a path: makes the folders that lead there, and then the file with `.lock` after the path.
    /// `Memory` where an allocation was refused, before anything was done. After another error folders may have been made. As
    /// `File::acquire_to_update_resource` of gix-lock, with `Fail::Immediately`.
    ///
    /// ```text
    /// match Lock::acquire(alloc, &mut files, b".git/refs/heads/a")? {
    ///     Acquire::Held(lock) => {
    ///         lock.write(&mut files, b"1111111111111111111111111111111111111111\n")?;
    ///         lock.commit(&mut files)
    ///     }
    ///     // another process holds it, or a file is in the path
    ///     _ => return Ok(()),
    /// }
    /// ```
    pub fn acquire<F: Files>(
        alloc: Global,
        files: &mut F,
        path: &[u8],
    ) -> Result<Acquire, FileError>
        // An error leaves no lock, and no more than a beginning of the folders that lead to it.
        ensures answer { F.honest → MatchResult result
            (Acquires (F.means files.old).tree path.now (F.means files.new).tree)
            (λ _. Readying (F.means files.old).tree path.now (F.means files.new).tree) }

        ensures leaves { F.honest → AtEveryStop F.means files.old files.new
            (λ T. Acquiring T path.now) }
        ensures disk { F.honest → IfOk result (λ acquire. DiskBecomes F.means files.old files.new
            (λ D. after_acquire D path.now acquire)) }
        ensures passes { F.honest → OnEveryDisk F.means files.old files.new
            (λ D. LockingOn D path.now) }
        ensures count { F.faults files.new ≡ count_after result (F.faults files.old) }
        ensures memory { IsErrOf result FileError.Memory → files.new ≡ files.old }
    {
        let Ok(file) = file_at(alloc, path) else {
            return Err(FileError::Memory);
        };
        match file.take(files)? {
            Create::Made => Ok(Acquire::Held(Lock { file })),
            Create::Standing => Ok(Acquire::Standing),
            Create::Blocked => Ok(Acquire::Blocked),
        }
    }

    /// Adds bytes to the file of the lock and syncs it, so that a loss of power leaves them all once the lock is renamed;
    /// false where it does not exist. A fault leaves any beginning of them there, and the lock held. As `File::write` of gix-lock.
    pub fn write<F: Files>(&self, files: &mut F, bytes: &[u8]) -> Result<bool, FileError>
        ensures answer { F.honest → IfOk result (Appends (F.means files.old).tree
            (lock_of self.now) bytes.now (F.means files.new).tree) }
        ensures leaves { F.honest → AtEveryStop F.means files.old files.new
            (λ T. Appending T (lock_of self.now) bytes.now) }
        ensures adds { F.honest → OnOk result (Adds (F.means files.old) (F.means files.new)
            (Appending (F.means files.old).tree (lock_of self.now) bytes.now)) }
        ensures disk { F.honest → IfOk result (λ there. DiskBecomes F.means files.old files.new
            (λ D. after_synced_append D (lock_of self.now) bytes.now there)) }
        ensures passes { F.honest → OnEveryDisk F.means files.old files.new
            (λ D. WritingOn D (lock_of self.now) bytes.now) }
        ensures count { CountsCall result (F.faults files.old) (F.faults files.new) }
    {
        self.file.write(files, bytes)
    }

    /// Renames the file of the lock to the place. A fault gives the lock back; its file is where it was, or at
    /// the place. As `File::commit` of gix-lock.
    pub fn commit<F: Files>(self, files: &mut F) -> Result<Commit, Unspent>
        ensures answer { F.honest → IfOk result
            (Commits (F.means files.old).tree self (F.means files.new).tree) }
        ensures leaves { F.honest → AtEveryStop F.means files.old files.new
            (λ T. Renaming T (lock_of self) self) }
        ensures disk { F.honest → IfOk result
            (λ commit. DiskBecomes F.means files.old files.new (λ D. after_commit D self commit)) }
        ensures passes { F.honest → OnEveryDisk F.means files.old files.new
            (λ D. RenamingOn D (lock_of self) self) }
        ensures back { GivesBack self result (F.faults files.old) (F.faults files.new) }
    {
        match files.rename(self.file.path(), self.file.place()) {
            Ok(Rename::Moved) => {
                let Lock { file: _ } = self;
                Ok(Commit::Moved)
            }
            Ok(Rename::FolderStands) => Ok(Commit::FolderStands(self)),
            Err(error) => Err(Unspent { error, lock: self }),
        }
    }

    /// Removes the file of the lock; false where it does not exist. A fault gives the lock back; its file exists, or
    /// it is gone. As the drop of a `File` of gix-lock.
    pub fn remove<F: Files>(self, files: &mut F) -> Result<bool, Unspent>
        ensures answer { F.honest → IfOk result
            (RemovesFile (F.means files.old).tree (lock_of self) (F.means files.new).tree) }
        ensures leaves { F.honest → AtEveryStop F.means files.old files.new
            (λ T. RemovingFile T (lock_of self)) }
        ensures disk { F.honest → IfOk result (λ removed. DiskBecomes F.means files.old files.new
            (λ D. after_removal D (lock_of self) removed)) }
        ensures passes { F.honest → OnEveryDisk F.means files.old files.new
            (λ D. RemovingFileOn D (lock_of self)) }
        ensures back { GivesBack self result (F.faults files.old) (F.faults files.new) }
    {
        match files.remove_file(self.file.path()) {
            Ok(removed) => {
                let Lock { file: _ } = self;
                Ok(removed)
            }
            Err(error) => Err(Unspent { error, lock: self }),
        }
    }

    /// Gives the lock up as its file, which stays: the caller sees to its removal.
    pub fn into_file(self) -> LockFile
        ensures { result ≡ self }
    {
        let Lock { file } = self;
        file
    }

    /// Gives the lock up and leaves its file as it is: for a lock that could not be removed, whose path is reported.
    pub fn into_path(self) -> Vec<u8>
        ensures { result.items ≡ lock_of self }
    {
        let Lock { file } = self;
        file.into_parts().1
    }
}
