//! The locks of references below a folder, found level by level.
ghost use Rattle.std.specs.Prelude.{◌≡◌, ◌≢◌, ◌↔◌, ◌++◌, ◌∷◌, [], IfOk, IfErr, OnOk, IsTrue, MatchOption, Vec, ℕ, List, true};
ghost use Rattle.std.specs.declared.alloc.Global.{Global};
ghost use Rattle.std.specs.List.{All};
ghost use Rattle.gix_ref_hash.specs.Bytes.{BeginsWith};
ghost use Rattle.gix_ref_files.specs.Tree.{Tree, is_file};
ghost use Rattle.gix_ref_files.specs.Lock.{lock_of};
ghost use Rattle.gix_ref_theory.specs.Readings.{Store};
ghost use Rattle.gix_ref_files.specs.ReadOnly.{OnlyReads};
ghost use Rattle.gix_ref_lookup.specs.Lookups.{meaning_in};
ghost use Rattle.gix_ref_listing.specs.Walks.{AddsFolders, IsFolderPath, IsInnerPath, IsRootPath, IsBelow};
ghost use Rattle.gix_ref_locks.specs.LockFiles.{AddsOnlyLocks, IsLockOf, IsLockFile, HasPath};
ghost use Rattle.gix_ref_locks.specs.LockWalks.{FindsLock, FindsLocks, IsStemOf, StaysFound, IsTaken, Reaches, IsFileIn, FailsBelow};

use crate::locks::Error;
use gix_ref_files::files::{Entry, FileError, Files};
use gix_ref_hash::bytes::strip_front;
use gix_ref_lookup::settings::Settings;
use gix_ref_name::name::FullNameRef;
use gix_ref_target::layout::location_of;
use std::alloc::{AllocError, Global};
use std::collections::BTreeSet;

/// Where a walk looks for the locks of references.
#[derive(Clone, Copy)]
pub(crate) struct LockRoot<'a> {
    /// What comes before each name in its path: a folder of the store, a slash, and the namespace.
    pub(crate) front: &'a [u8],
    /// The settings of the store.
    pub(crate) settings: Settings<'a>,
}

/// Two texts, one after the other.
fn joined(alloc: Global, front: &[u8], end: &[u8]) -> Result<Vec<u8>, AllocError>
    ensures { IfOk result (λ text. text.items ≡ front.now ++ end.now) }
{
    let mut text = Vec::with_capacity(alloc, front.len().saturating_add(end.len()))?;
    text.extend_from_slice(front)?;
    text.extend_from_slice(end)?;
    Ok(text)
}

/// Whether a text is these two, one after the other.
fn is_joined(text: &[u8], front: &[u8], end: &[u8]) -> bool
    ensures { IsTrue result ↔ (text.now ≡ front.now ++ end.now) }
{
    match strip_front(text, front) {
        Some(rest) => rest == end,
        None => false,
    }
}

/// What is before `.lock` at the end of a path; `None` where it does not end so.
fn stem_of(path: &[u8]) -> Option<&[u8]>
    ensures { MatchOption result ((stem : List ℕ) → path.now ≢ lock_of stem)
        (λ stem. path.now ≡ lock_of stem.now) }
{
    path.strip_suffix(b".lock")
}

/// The path of a folder that is below a front, without the last slash.
fn folder_path(alloc: Global, front: &[u8], folder: &[u8]) -> Result<Vec<u8>, AllocError>
    ensures { IfOk result (λ path. (p : List ℕ) → front.now ++ folder.now ≡ p ++ 47 ∷ [] →
        path.items ≡ p) }
{
    let mut path = joined(alloc, front, folder)?;
    path.pop();
    Ok(path)
}

/// The list of one folder.
fn one_folder(alloc: Global, folder: &[u8]) -> Result<Vec<Vec<u8>>, AllocError>
    ensures { IfOk result (λ folders. (f : Vec ℕ Global) × (f.items ≡ folder.now)
        × (folders.items ≡ f ∷ [])) }
{
    let mut folders = Vec::with_capacity(alloc, 1)?;
    folders.push(folder.to_vec(alloc)?)?;
    Ok(folders)
}

/// Keeps a path.
pub(crate) fn keep(found: &mut BTreeSet<Vec<u8>>, path: Vec<u8>) -> Result<(), AllocError>
    ensures stays { OnOk result (StaysFound found.old.keys found.new.keys) }
    ensures kept { OnOk result (HasPath path.items found.new.keys) }
    ensures only { OnOk result ((s : Store) (T : Tree) → IsLockFile s T path.items →
        AddsOnlyLocks s T found.old.keys found.new.keys) }
{
    found.insert(path)?;
    Ok(())
}

impl LockRoot<'_> {
    /// Whether the lock of the reference with this name is at a path.
    fn is_lock_of(self, alloc: Global, name: &[u8], path: &[u8]) -> Result<bool, AllocError>
        ensures { IfOk result (λ is. IsTrue is
            ↔ IsLockOf (meaning_in self.entry.settings) name.now path.now) }
    {
        let Some(name) = FullNameRef::from_path(name) else {
            return Ok(false);
        };
        if location_of(name).is_none() {
            return Ok(false);
        }
        let place = self.settings.place(alloc, name)?;
        Ok(is_joined(path, &place, b".lock"))
    }

    /// Whether a lock is at a path: that of the reference with this name, as it is or as a name of the main worktree.
    fn is_lock(self, alloc: Global, stem: &[u8], path: &[u8]) -> Result<bool, AllocError>
        ensures { IfOk result (λ is. IsTrue is
            ↔ IsStemOf (meaning_in self.entry.settings) stem.now path.now) }
    {
        if self.is_lock_of(alloc, stem, path)? {
            return Ok(true);
        }
        let main = joined(alloc, b"main-worktree/", stem)?;
        self.is_lock_of(alloc, &main, path)
    }

    /// Takes a file: it is found, where it is the lock of a reference.
    fn take_file(
        self,
        alloc: Global,
        file: &[u8],
        found: &mut BTreeSet<Vec<u8>>,
    ) -> Result<(), AllocError>
        ensures stays { OnOk result (StaysFound found.old.keys found.new.keys) }
        ensures finds { OnOk result (FindsLock (meaning_in self.entry.settings)
            self.entry.front.now file.now found.new.keys) }
        ensures only { OnOk result ((T : Tree) →
            is_file (T (self.entry.front.now ++ file.now)) ≡ true →
            AddsOnlyLocks (meaning_in self.entry.settings) T found.old.keys found.new.keys) }
    {
        let Some(stem) = stem_of(file) else {
            return Ok(());
        };
        let path = joined(alloc, self.front, file)?;
        if self.is_lock(alloc, stem, &path)? {
            keep(found, path)?;
        }
        Ok(())
    }

    /// Takes an entry of a folder: a file is looked at, and a folder is walked next.
    fn take_entry(
        self,
        alloc: Global,
        folder: &[u8],
        entry: &Entry,
        found: &mut BTreeSet<Vec<u8>>,
        next: &mut Vec<Vec<u8>>,
    ) -> Result<(), AllocError>
        ensures stays { OnOk result (StaysFound found.old.keys found.new.keys) }
        ensures adds { OnOk result (AddsFolders next.old.items next.new.items) }
        ensures taken { OnOk result (IsTaken (meaning_in self.entry.settings) self.entry.front.now
            folder.now found.new.keys next.new.items entry.now) }
        ensures only { OnOk result ((T : Tree) →
            IsFileIn T self.entry.front.now folder.now entry.now →
            AddsOnlyLocks (meaning_in self.entry.settings) T found.old.keys found.new.keys) }
    {
        let mut path = joined(alloc, folder, &entry.name)?;
        if entry.is_folder {
            path.push(b'/')?;
            next.push(path)?;
            return Ok(());
        }
        self.take_file(alloc, &path, found)?;
        Ok(())
    }

    /// Takes the entries of a folder.
    fn take_entries(
        self,
        alloc: Global,
        folder: &[u8],
        entries: &[Entry],
        found: &mut BTreeSet<Vec<u8>>,
        next: &mut Vec<Vec<u8>>,
    ) -> Result<(), AllocError>
        ensures stays { OnOk result (StaysFound found.old.keys found.new.keys) }
        ensures adds { OnOk result (AddsFolders next.old.items next.new.items) }
        ensures taken { OnOk result (All (IsTaken (meaning_in self.entry.settings)
            self.entry.front.now folder.now found.new.keys next.new.items) entries.now) }
        ensures only { OnOk result ((T : Tree) →
            All (IsFileIn T self.entry.front.now folder.now) entries.now →
            AddsOnlyLocks (meaning_in self.entry.settings) T found.old.keys found.new.keys) }
    {
        for entry in entries {
            self.take_entry(alloc, folder, entry, found, next)?;
        }
        Ok(())
    }

    /// Walks a folder: the locks in it are found, and its folders are to be walked next. One call of files.
    pub(crate) fn walk_folder<F: Files>(
        self,
        alloc: Global,
        files: &mut F,
        folder: &[u8],
        found: &mut BTreeSet<Vec<u8>>,
        next: &mut Vec<Vec<u8>>,
    ) -> Result<(), Error>
        requires root { IsRootPath self.front.now }
        requires path { IsFolderPath folder.now }
        ensures stays { OnOk result (StaysFound found.old.keys found.new.keys) }
        ensures adds { OnOk result (AddsFolders next.old.items next.new.items) }
        ensures reaches { F.honest → OnOk result (Reaches (meaning_in self.entry.settings)
            self.entry.front.now (F.means files.old).tree (λ stem. BeginsWith stem folder.now)
            found.new.keys next.new.items) }
        ensures only { F.honest → OnOk result (AddsOnlyLocks (meaning_in self.entry.settings)
            (F.means files.old).tree found.old.keys found.new.keys) }
        ensures looks { OnlyReads F.honest F.means F.faults files.old files.new }
        ensures failed { IfErr result
            (FailsBelow self.entry.front.now (F.faults files.old) (F.faults files.new)) }
    {
        let Ok(path) = folder_path(alloc, self.front, folder) else {
            return Err(Error::Memory);
        };
        match files.list(alloc, &path) {
            Ok(Some(entries)) => match self.take_entries(alloc, folder, &entries, found, next) {
                Ok(()) => Ok(()),
                Err(_) => Err(Error::Memory),
            },
            Ok(None) => Ok(()),
            Err(FileError::Memory) => Err(Error::Memory),
            Err(source) => Err(Error::Io { path, source }),
        }
    }

    /// Walks the folders of one level, and returns those of the next.
    fn walk_level<F: Files>(
        self,
        alloc: Global,
        files: &mut F,
        folders: &[Vec<u8>],
        found: &mut BTreeSet<Vec<u8>>,
    ) -> Result<Vec<Vec<u8>>, Error>
        requires root { IsRootPath self.front.now }
        requires paths { All (λ f. IsFolderPath f.items) folders.now }
        ensures stays { OnOk result (StaysFound found.old.keys found.new.keys) }
        ensures reaches { F.honest → IfOk result (λ next. Reaches (meaning_in self.entry.settings)
            self.entry.front.now (F.means files.old).tree (IsBelow folders.now)
            found.new.keys next.items) }
        ensures paths { IfOk result (λ next. All (λ f. IsInnerPath f.items) next.items) }
        ensures only { F.honest → OnOk result (AddsOnlyLocks (meaning_in self.entry.settings)
            (F.means files.old).tree found.old.keys found.new.keys) }
        ensures looks { OnlyReads F.honest F.means F.faults files.old files.new }
        ensures failed { IfErr result
            (FailsBelow self.entry.front.now (F.faults files.old) (F.faults files.new)) }
    {
        let mut next = Vec::new(alloc);
        for folder in folders {
            self.walk_folder(alloc, files, folder, found, &mut next)?;
        }
        Ok(next)
    }

    /// Walks a folder and all folders below it: adds each lock of a reference. One call of files for each folder.
    pub(crate) fn walk<F: Files>(
        self,
        alloc: Global,
        files: &mut F,
        start: &[u8],
        found: &mut BTreeSet<Vec<u8>>,
    ) -> Result<(), Error>
        requires root { IsRootPath self.front.now }
        requires path { IsFolderPath start.now }
        ensures stays { OnOk result (StaysFound found.old.keys found.new.keys) }
        ensures finds { F.honest → OnOk result (FindsLocks (meaning_in self.entry.settings)
            self.entry.front.now (F.means files.old).tree (λ stem. BeginsWith stem start.now)
            found.new.keys) }
        ensures only { F.honest → OnOk result (AddsOnlyLocks (meaning_in self.entry.settings)
            (F.means files.old).tree found.old.keys found.new.keys) }
        ensures looks { OnlyReads F.honest F.means F.faults files.old files.new }
        ensures failed { IfErr result
            (FailsBelow self.entry.front.now (F.faults files.old) (F.faults files.new)) }
    {
        let Ok(mut folders) = one_folder(alloc, start) else {
            return Err(Error::Memory);
        };
        for _ in 0..u64::MAX {
            if folders.is_empty() {
                return Ok(());
            }
            folders = self.walk_level(alloc, files, &folders, found)?;
        }
        // No path is that long.
        Err(Error::Memory)
    }
}
