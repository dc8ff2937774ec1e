//! The files of names below a folder of a store, found level by level.
ghost use Rattle.std.specs.Prelude.{◌≡◌, ◌≢◌, [], ◌++◌, ◌⊎◌, List, ℕ, IfOk, IfErr, OnOk, MatchOption, IsTrue, ◌↔◌, codes, ◌∷◌, IsSome, Vec};
ghost use Rattle.std.specs.declared.alloc.Global.{Global};
ghost use Rattle.std.specs.List.{All};
ghost use Rattle.gix_ref_hash.specs.Bytes.{BeginsWith};
ghost use Rattle.gix_ref_name.specs.NameGrammar.{IsPartialName};
ghost use Rattle.gix_ref_name.specs.Names.{full_bytes, full_ref_bytes};
ghost use Rattle.gix_ref_files.specs.Files.{FaultCounts, IsMet};
ghost use Rattle.gix_ref_files.specs.declared.files.FileError.TheVariants.{Memory};
ghost use Rattle.gix_ref_theory.specs.OnRealTrees.{contents};
ghost use Rattle.gix_ref_theory.specs.Views.{View};
ghost use Rattle.gix_ref_lookup.specs.Lookups.{name_asked, Among};
ghost use Rattle.gix_ref_files.specs.ReadOnly.{OnlyReads};
ghost use Rattle.gix_ref_listing.specs.Walks.{AddsFolders, AddsOnly, AddsOnlyFiles, AddsOnlyMet, AddsOnlyThere, FindsEach, Holds, IsBelow, IsFileOf, IsFileOrMet, IsFolderPath, IsInnerPath, IsListedName, IsLooseName, IsOwnFile, IsOwnName, IsRootPath, IsTaken, LeadsInto, Reaches, StaysFound};

use crate::found::{Found, FoundByKey};
use gix_ref_files::files::{Entry, FileError, Files};
use gix_ref_hash::bytes::{begins_with, cut_last, strip_front};
use gix_ref_lookup::find::composed::composed_name;
use gix_ref_lookup::settings::Settings;
use gix_ref_name::name::{FullName, FullNameRef, PartialNameRef};
use std::alloc::{AllocError, Global};

/// Where a walk looks for names.
#[derive(Clone, Copy)]
pub struct Root<'a> {
    /// What comes before each name in its path: a folder of the store, a slash, and the namespace.
    pub path: &'a [u8],
    /// What the names begin with.
    pub prefix: &'a [u8],
    /// The settings of the store.
    pub settings: Settings<'a>,
}

/// Two texts, one after the other.
pub(crate) fn joined(alloc: Global, front: &[u8], end: &[u8]) -> Result<Vec<u8>, AllocError>
    ensures { IfOk result (λ text. text.items ≡ front.now ++ end.now) }
{
    let mut text = Vec::with_capacity(alloc, front.len().saturating_add(end.len()))?;
    text.extend_from_slice(front)?;
    text.extend_from_slice(end)?;
    Ok(text)
}

/// Whether a text is these two, one after the other.
fn is_joined(text: &[u8], front: &[u8], end: &[u8]) -> bool
    ensures { IsTrue result ↔ (text.now ≡ front.now ++ end.now) }
{
    match strip_front(text, front) {
        Some(rest) => rest == end,
        None => false,
    }
}

/// Whether a valid name may have this component before others.
fn may_lead(alloc: Global, component: &[u8]) -> Result<bool, AllocError>
    ensures { IfOk result (λ may. IsTrue may ↔ IsPartialName (component.now ++ codes "/x")) }
{
    let name = joined(alloc, component, b"/x")?;
    Ok(PartialNameRef::try_from(&name).is_ok())
}

/// The name of a file with this name on disk: the same, composed where names are composed. `None` where that is no valid
/// partial name.
fn name_on_disk(alloc: Global, composes: bool, disk: &[u8]) -> Result<Option<FullName>, AllocError>
    ensures { IfOk result (λ r. MatchOption r (IsPartialName disk.now → ⊥)
        (λ name. full_bytes name ≡ name_asked composes disk.now)) }
{
    let Ok(partial) = PartialNameRef::try_from(disk) else {
        return Ok(None);
    };
    let composed = composed_name(alloc, composes, partial)?;
    let name = match &composed {
        Some(composed) => FullNameRef::from_path(composed.as_ref().to_partial_path()),
        None => FullNameRef::from_path(disk),
    };
    match name {
        Some(name) => Ok(Some(name.to_owned(alloc)?)),
        None => Ok(None),
    }
}

/// The file of a name.
struct OwnFile {
    name: FullName,
    path: Vec<u8>,
}

/// Whether one of two texts begins with the other.
fn is_front(left: &[u8], right: &[u8]) -> bool
    ensures { IsTrue result ↔ (BeginsWith left.now right.now ⊎ BeginsWith right.now left.now) }
{
    begins_with(left, right) || begins_with(right, left)
}

/// The path of a folder that names begin with: without the last slash.
fn folder_path(alloc: Global, front: &[u8], folder: &[u8]) -> Result<Vec<u8>, AllocError>
    ensures { IfOk result (λ path. (p : List ℕ) → front.now ++ folder.now ≡ p ++ 47 ∷ [] →
        path.items ≡ p) }
{
    let mut path = joined(alloc, front, folder)?;
    path.pop();
    Ok(path)
}

/// The folder in which the names of a prefix lie: the prefix up to its last slash.
fn folder_of(prefix: &[u8]) -> &[u8]
    ensures path { IsFolderPath result.now }
    ensures front { BeginsWith prefix.now result.now }
{
    match cut_last(prefix, b'/') {
        Some((folder, _)) => &prefix[..folder.len() + 1],
        None => b"",
    }
}

/// The list of one folder.
fn one_folder(alloc: Global, folder: &[u8]) -> Result<Vec<Vec<u8>>, AllocError>
    ensures { IfOk result (λ folders. (f : Vec ℕ Global) × (f.items ≡ folder.now)
        × (folders.items ≡ f ∷ [])) }
{
    let mut folders = Vec::with_capacity(alloc, 1)?;
    folders.push(folder.to_vec(alloc)?)?;
    Ok(folders)
}

/// Keeps a folder that could not be listed, at this path.
fn keep_unlisted(
    alloc: Global,
    folder: &[u8],
    path: Vec<u8>,
    error: FileError,
    found: &mut FoundByKey,
) -> Result<(), AllocError>
    ensures stays { StaysFound found.old.entries found.new.entries }
    ensures holds { OnOk result (FindsEach (λ name. BeginsWith name folder.now)
        found.new.entries) }
    ensures there { (root : Root) (view : View) → error ≢ Memory →
        path.items ++ 47 ∷ [] ≡ root.path.now ++ folder.now →
        AddsOnlyThere root view found.old.entries found.new.entries }
    ensures files { (before now : FaultCounts) → IsMet error before now →
        AddsOnly (IsFileOrMet before now) found.old.entries found.new.entries }
{
    let source = error;
    found.insert(folder.to_vec(alloc)?, Found::Unlisted { path, source })?;
    Ok(())
}

impl Root<'_> {
    /// Whether a name is to be listed where a file is there: it has the prefix, and its own place is in this folder.
    fn is_own(self, alloc: Global, name: FullNameRef<'_>) -> Result<bool, AllocError>
        ensures { IfOk result (λ own. IsTrue own
            ↔ IsOwnName self.entry (full_ref_bytes name.entry)) }
    {
        if !begins_with(name.to_path(), self.prefix) {
            return Ok(false);
        }
        let place = self.settings.place(alloc, name)?;
        Ok(is_joined(&place, self.path, name.to_path()))
    }

    /// The name and the path of a file with this name on disk, where it is the file of a name.
    fn own_file(self, alloc: Global, disk: &[u8]) -> Result<Option<OwnFile>, AllocError>
        ensures { IfOk result (λ r. MatchOption r (IsListedName self.entry disk.now → ⊥)
            (IsOwnFile self.entry disk.now)) }
    {
        let Some(name) = name_on_disk(alloc, self.settings.precompose_unicode, disk)? else {
            return Ok(None);
        };
        if !self.is_own(alloc, name.as_ref())? {
            return Ok(None);
        }
        let path = joined(alloc, self.path, disk)?;
        Ok(Some(OwnFile { name, path }))
    }

    /// Takes a file of a folder: it is found, where it is the file of a name.
    fn take_file(self, alloc: Global, disk: &[u8], found: &mut FoundByKey) -> Result<(), AllocError>
        ensures stays { StaysFound found.old.entries found.new.entries }
        ensures holds { OnOk result (IsListedName self.entry disk.now →
            Among (Holds disk.now) found.new.entries) }
        ensures files { AddsOnlyFiles found.old.entries found.new.entries }
        ensures there { (view : View) → IsSome (view (self.entry.path.now ++ disk.now)) →
            AddsOnlyThere self.entry view found.old.entries found.new.entries }
    {
        let Some(OwnFile { name, path }) = self.own_file(alloc, disk)? else {
            return Ok(());
        };
        let key = name.to_path().to_vec(alloc)?;
        if !found.contains_key(&key) {
            found.insert(key, Found::File { name, path })?;
        }
        Ok(())
    }

    /// Takes a folder of a folder: it is walked next, where names may be in it.
    fn take_folder(
        self,
        alloc: Global,
        folder: &[u8],
        component: &[u8],
        next: &mut Vec<Vec<u8>>,
    ) -> Result<(), AllocError>
        ensures adds { AddsFolders next.old.items next.new.items }
        ensures leads { OnOk result
            (LeadsInto self.entry folder.now component.now next.new.items) }
    {
        if !may_lead(alloc, component)? {
            return Ok(());
        }
        let mut path = joined(alloc, folder, component)?;
        path.push(b'/')?;
        if self.settings.precompose_unicode || is_front(&path, self.prefix) {
            next.push(path)?;
        }
        Ok(())
    }

    /// Takes an entry of a folder.
    fn take_entry(
        self,
        alloc: Global,
        folder: &[u8],
        entry: &Entry,
        found: &mut FoundByKey,
        next: &mut Vec<Vec<u8>>,
    ) -> Result<(), AllocError>
        ensures stays { StaysFound found.old.entries found.new.entries }
        ensures adds { AddsFolders next.old.items next.new.items }
        ensures taken { OnOk result
            (IsTaken self.entry folder.now found.new.entries next.new.items entry.now) }
        ensures files { AddsOnlyFiles found.old.entries found.new.entries }
        ensures there { (view : View) → IsFileOf self.entry view folder.now entry.now →
            AddsOnlyThere self.entry view found.old.entries found.new.entries }
    {
        if entry.is_folder {
            return self.take_folder(alloc, folder, &entry.name, next);
        }
        let disk = joined(alloc, folder, &entry.name)?;
        self.take_file(alloc, &disk, found)
    }

    /// Takes the entries of a folder.
    fn take_entries(
        self,
        alloc: Global,
        folder: &[u8],
        entries: &[Entry],
        found: &mut FoundByKey,
        next: &mut Vec<Vec<u8>>,
    ) -> Result<(), AllocError>
        ensures stays { OnOk result (StaysFound found.old.entries found.new.entries) }
        ensures adds { OnOk result (AddsFolders next.old.items next.new.items) }
        ensures taken { OnOk result
            (All (IsTaken self.entry folder.now found.new.entries next.new.items) entries.now) }
        ensures files { OnOk result (AddsOnlyFiles found.old.entries found.new.entries) }
        ensures there { OnOk result ((view : View) →
            All (IsFileOf self.entry view folder.now) entries.now →
            AddsOnlyThere self.entry view found.old.entries found.new.entries) }
    {
        for entry in entries {
            self.take_entry(alloc, folder, entry, found, next)?;
        }
        Ok(())
    }

    /// Walks a folder: its files are found, and its folders are to be walked next. One call of files. The error says that
    /// there was no memory.
    pub(crate) fn walk_folder<F: Files>(
        self,
        alloc: Global,
        files: &mut F,
        folder: &[u8],
        found: &mut FoundByKey,
        next: &mut Vec<Vec<u8>>,
    ) -> Result<(), FileError>
        requires { IsRootPath self.path.now }
        ensures stays { OnOk result (StaysFound found.old.entries found.new.entries) }
        ensures adds { OnOk result (AddsFolders next.old.items next.new.items) }
        ensures reaches { F.honest → IfOk result
            (λ _. IsFolderPath folder.now → Reaches self.entry (contents F.means files.old)
            (λ name. BeginsWith name folder.now) found.new.entries next.new.items) }
        ensures files { OnOk result (AddsOnlyMet (F.faults files.old) (F.faults files.new)
            found.old.entries found.new.entries) }
        ensures there { F.honest → IfOk result
            (λ _. IsFolderPath folder.now → AddsOnlyThere self.entry (contents F.means files.old)
            found.old.entries found.new.entries) }
        ensures looks { OnlyReads F.honest F.means F.faults files.old files.new }
        ensures memory { IfErr result (λ error. error ≡ Memory) }
    {
        let Ok(path) = folder_path(alloc, self.path, folder) else {
            return Err(FileError::Memory);
        };
        match files.list(alloc, &path) {
            Ok(Some(entries)) => match self.take_entries(alloc, folder, &entries, found, next) {
                Ok(()) => Ok(()),
                Err(_) => Err(FileError::Memory),
            },
            Ok(None) => Ok(()),
            Err(FileError::Memory) => Err(FileError::Memory),
            Err(error) => match keep_unlisted(alloc, folder, path, error, found) {
                Ok(()) => Ok(()),
                Err(_) => Err(FileError::Memory),
            },
        }
    }

    /// Walks the folders of one level, and returns those of the next. The error says that there was no memory.
    fn walk_level<F: Files>(
        self,
        alloc: Global,
        files: &mut F,
        folders: &[Vec<u8>],
        found: &mut FoundByKey,
    ) -> Result<Vec<Vec<u8>>, FileError>
        requires root { IsRootPath self.path.now }
        requires paths { All (λ f. IsFolderPath f.items) folders.now }
        ensures stays { OnOk result (StaysFound found.old.entries found.new.entries) }
        ensures reaches { F.honest → IfOk result (λ next. Reaches self.entry
            (contents F.means files.old) (IsBelow folders.now) found.new.entries next.items) }
        ensures paths { IfOk result (λ next. All (λ f. IsInnerPath f.items) next.items) }
        ensures files { OnOk result (AddsOnlyMet (F.faults files.old) (F.faults files.new)
            found.old.entries found.new.entries) }
        ensures there { F.honest → OnOk result (AddsOnlyThere self.entry
            (contents F.means files.old) found.old.entries found.new.entries) }
        ensures looks { OnlyReads F.honest F.means F.faults files.old files.new }
        ensures memory { IfErr result (λ error. error ≡ Memory) }
    {
        let mut next = Vec::new(alloc);
        for folder in folders {
            self.walk_folder(alloc, files, folder, found, &mut next)?;
        }
        Ok(next)
    }

    /// Walks the folder in which the names of the prefix lie, and all folders below it that such names may be in: adds each
    /// file of a name, and each folder that could not be listed. One call of files for each folder. The error says that there
    /// was no memory.
    pub fn walk<F: Files>(
        self,
        alloc: Global,
        files: &mut F,
        found: &mut FoundByKey,
    ) -> Result<(), FileError>
        requires { IsRootPath self.path.now }
        ensures stays { OnOk result (StaysFound found.old.entries found.new.entries) }
        ensures finds { F.honest → OnOk result (FindsEach (IsLooseName self.entry
            (contents F.means files.old)) found.new.entries) }
        ensures files { OnOk result (AddsOnlyMet (F.faults files.old) (F.faults files.new)
            found.old.entries found.new.entries) }
        ensures there { F.honest → OnOk result (AddsOnlyThere self.entry
            (contents F.means files.old) found.old.entries found.new.entries) }
        ensures looks { OnlyReads F.honest F.means F.faults files.old files.new }
        ensures memory { IfErr result (λ error. error ≡ Memory) }
    {
        let Ok(mut folders) = one_folder(alloc, folder_of(self.prefix)) else {
            return Err(FileError::Memory);
        };
        for _ in 0..u64::MAX {
            if folders.is_empty() {
                return Ok(());
            }
            folders = self.walk_level(alloc, files, &folders, found)?;
        }
        // No path is that long.
        Err(FileError::Memory)
    }
}
