//! The lock files of a store: those of its references, and that of `packed-refs`.
ghost use Rattle.std.specs.Prelude.{◌≡◌, IfOk, IfErr, OnOk, Vec, ℕ, List};
ghost use Rattle.std.specs.declared.alloc.Global.{Global};
ghost use Rattle.std.specs.List.{All};
ghost use Rattle.gix_ref_files.specs.ReadOnly.{OnlyReads};
ghost use Rattle.gix_ref_lookup.specs.Lookups.{meaning_in};
ghost use Rattle.gix_ref_locks.specs.LockFiles.{packed_lock, AddsOnlyLocks, AreLockFiles, IsLockFile, IsLockFailure, HasPath};
ghost use Rattle.gix_ref_locks.specs.LockWalks.{StaysFound};

use crate::search::search_in;
use crate::walk::keep;
use gix_ref_files::files::{FileError, Files, Node};
use gix_ref_lookup::settings::Settings;
use std::alloc::{AllocError, Global};
use std::collections::BTreeSet;
use thiserror::Error;

/// Why the lock files of a store were not listed.
#[derive(Debug, Drop, Error)]
pub enum Error {
    /// The folder at this path could not be listed, or it could not be found out what is at the path of `packed-refs.lock`.
    #[error("the locks of references could not be listed: {source}")]
    Io { path: Vec<u8>, source: FileError },
    /// There was no memory for the paths.
    #[error("out of memory")]
    Memory,
}

impl From<AllocError> for Error {
    ghost use Rattle.std.specs.Prelude.{◌≡◌};
    ghost use Rattle.gix_ref_locks.specs.declared.locks.Error.TheVariants.{Memory};

    ghost from_gives = { λ _ e. e ≡ Memory };

    fn from(_error: AllocError) -> Error {
        Error::Memory
    }
}

/// The path of the lock of `packed-refs`.
fn packed_lock_path(alloc: Global, settings: Settings<'_>) -> Result<Vec<u8>, AllocError>
    ensures { IfOk result (λ path. path.items ≡ packed_lock (meaning_in settings.entry)) }
{
    let mut path = settings.packed_refs_path(alloc)?;
    path.extend_from_slice(b".lock")?;
    Ok(path)
}

/// Looks for the lock of `packed-refs`. One call of files.
fn look_for_packed_lock<F: Files>(
    alloc: Global,
    files: &mut F,
    settings: Settings<'_>,
    found: &mut BTreeSet<Vec<u8>>,
) -> Result<(), Error>
    ensures stays { OnOk result (StaysFound found.old.keys found.new.keys) }
    ensures finds { F.honest → OnOk result (IsLockFile (meaning_in settings.entry)
        (F.means files.old).tree (packed_lock (meaning_in settings.entry)) →
        HasPath (packed_lock (meaning_in settings.entry)) found.new.keys) }
    ensures only { F.honest → OnOk result (AddsOnlyLocks (meaning_in settings.entry)
        (F.means files.old).tree found.old.keys found.new.keys) }
    ensures looks { OnlyReads F.honest F.means F.faults files.old files.new }
    ensures failed { IfErr result
        (IsLockFailure settings.entry (F.faults files.old) (F.faults files.new)) }
{
    let Ok(path) = packed_lock_path(alloc, settings) else {
        return Err(Error::Memory);
    };
    match files.kind(&path) {
        Ok(Node::File) => Ok(keep(found, path)?),
        Ok(Node::Folder | Node::Nothing | Node::Blocked) => Ok(()),
        Err(source) => Err(Error::Io { path, source }),
    }
}

/// Looks for all locks of a store.
fn find_locks<F: Files>(
    alloc: Global,
    files: &mut F,
    settings: Settings<'_>,
) -> Result<BTreeSet<Vec<u8>>, Error>
    ensures each { F.honest → IfOk result (λ found. (path : List ℕ) →
        IsLockFile (meaning_in settings.entry) (F.means files.old).tree path →
        HasPath path found.keys) }
    ensures only { F.honest → IfOk result (λ found. All (λ p.
        IsLockFile (meaning_in settings.entry) (F.means files.old).tree p.items) found.keys) }
    ensures looks { OnlyReads F.honest F.means F.faults files.old files.new }
    ensures failed { IfErr result
        (IsLockFailure settings.entry (F.faults files.old) (F.faults files.new)) }
{
    let mut found = BTreeSet::new(alloc);
    look_for_packed_lock(alloc, files, settings, &mut found)?;
    let common = settings.dirs.common();
    search_in(alloc, files, settings, common, &mut found)?;
    if settings.dirs.git_dir.as_slice() == common {
        return Ok(found);
    }
    match search_in(alloc, files, settings, &settings.dirs.git_dir, &mut found) {
        Ok(()) => Ok(found),
        Err(error) => Err(error),
    }
}

/// The paths of the lock files of a store: of each file that is the lock of a reference, of this worktree, of the main one or of a
/// linked one, or of `packed-refs`; by ascending bytes, each once. `Io` where a folder could not be listed, and `Memory`.
///
/// Costs one call of files for each folder in which references are, and one for `packed-refs.lock`.
pub fn list_locks<F: Files>(
    alloc: Global,
    files: &mut F,
    settings: Settings<'_>,
) -> Result<Vec<Vec<u8>>, Error>
    ensures lists { F.honest → IfOk result (λ paths. AreLockFiles (meaning_in settings.entry)
        (F.means files.old).tree paths.items) }
    ensures looks { OnlyReads F.honest F.means F.faults files.old files.new }
    ensures failed { IfErr result
        (IsLockFailure settings.entry (F.faults files.old) (F.faults files.new)) }
{
    let found = find_locks(alloc, files, settings)?;
    match found.into_iter().collect(alloc) {
        Ok(paths) => Ok(paths),
        Err(_) => Err(Error::Memory),
    }
}
