//! Empty folders that are in the way of what a commit writes: they are sought before its first write, and each is removed before the
//! write that it is in the way of.
ghost use Rattle.std.specs.Prelude.{◌≡◌, ◌≢◌, ◌∷◌, ◌++◌, [], IfOk, IfErr, OnOk, Some, None, true, false};
ghost use Rattle.std.specs.List.{All};
ghost use Rattle.gix_ref_files.specs.Calls.{IsEntryOf};
ghost use Rattle.gix_ref_files.specs.ReadOnly.{OnlyReads};
ghost use Rattle.gix_ref_files.specs.Settled.{IsIn};
ghost use Rattle.gix_ref_files.specs.Steps.{step_of};
ghost use Rattle.gix_ref_files.specs.Tree.{Tree, Path, fronts};
ghost use Rattle.gix_ref_transaction.specs.OwnLocks.{paths_of};
ghost use Rattle.gix_ref_commit.specs.Cleared.{roots_of, folder_lists, ClearsNothing, AllInWay, AreInWay, AreInWayOf, IsAtOrBelow, IsOfStore, cleared, is_seen, removals, written_at};
ghost use Rattle.gix_ref_commit.specs.Entries.{entries};
ghost use Rattle.gix_ref_commit.specs.internal.Walks.{AddsAll, AddsFolder, AddsFolders, AreClosedFolders, FailsBefore, FailsToList, IsCountedFault, IsWalked, OnlyMore, StopsFor};

use crate::plan::About;
use crate::run::Unfinished;
use gix_ref_files::files::{Entry, FileError, Files, Node};
use gix_ref_files::steps::{Action, Cause, Planned, Settle};
use gix_ref_lookup::folders::{Dirs, rest_below};
use gix_ref_transaction::edit::Edit;
use std::alloc::{AllocError, Global};

/// The folders that are removed before a step, each after those in it.
#[derive(Drop)]
pub struct EmptyDirs {
    pub folders: Vec<Vec<u8>>,
}

/// Whether a folder is this one, or above it.
fn is_on_way(root: &[u8], folder: &[u8]) -> bool
    ensures outside { result ≡ false → IsIn folder.now (fronts root.now ++ root.now ∷ []) → ⊥ }
    ensures inside { result ≡ true → IsAtOrBelow folder.now root.now }
{
    match rest_below(root, folder) {
        Some(_) => true,
        None => root == folder,
    }
}

/// Whether a folder is one of the store, or above one. Such a folder is never removed.
pub fn leads_to_store(dirs: &Dirs, folder: &[u8]) -> bool
    ensures outside { result ≡ false → IsIn folder.now (roots_of dirs.now) → ⊥ }
    ensures inside { result ≡ true → (root : Path) × IsOfStore dirs.now root
        × IsAtOrBelow folder.now root }
{
    let git_dir = dirs.git_dir.as_slice();
    is_on_way(git_dir, folder) || is_on_way(dirs.common(), folder)
}

/// The path of an entry of a folder.
fn entry_path(alloc: Global, folder: &[u8], name: &[u8]) -> Result<Vec<u8>, AllocError>
    ensures { IfOk result (λ path. path.items ≡ folder.now ++ 47 ∷ name.now) }
{
    let mut path = Vec::with_capacity(
        alloc,
        folder.len().saturating_add(name.len()).saturating_add(1),
    )?;
    path.extend_from_slice(folder)?;
    path.push(b'/')?;
    path.extend_from_slice(name)?;
    Ok(path)
}

/// Adds the folder of an entry. False where the entry is a file, or a folder that leads to the store.
fn add_entry(
    alloc: Global,
    dirs: &Dirs,
    folder: &[u8],
    entry: &Entry,
    found: &mut Vec<Vec<u8>>,
) -> Result<bool, AllocError>
    ensures more { OnlyMore dirs.now folder.now (paths_of found.old.items)
        (paths_of found.new.items) }
    ensures stops { (T : Tree) → IsEntryOf T folder.now entry.now →
        IfOk result (StopsFor dirs.now T folder.now) }
    ensures adds { IfOk result (λ all. all ≡ true →
        AddsFolder folder.now entry.now (paths_of found.old.items) (paths_of found.new.items)) }
{
    if !entry.is_folder {
        return Ok(false);
    }
    let path = entry_path(alloc, folder, &entry.name)?;
    if leads_to_store(dirs, &path) {
        return Ok(false);
    }
    found.push(path)?;
    Ok(true)
}

/// Adds the folders among the entries of a folder. False where there is anything else.
fn add_entries(
    alloc: Global,
    dirs: &Dirs,
    folder: &[u8],
    entries: &[Entry],
    found: &mut Vec<Vec<u8>>,
) -> Result<bool, AllocError>
    ensures more { OnlyMore dirs.now folder.now (paths_of found.old.items)
        (paths_of found.new.items) }
    ensures stops { (T : Tree) → All (IsEntryOf T folder.now) entries.now →
        IfOk result (StopsFor dirs.now T folder.now) }
    ensures adds { IfOk result (λ all. all ≡ true →
        AddsAll folder.now entries.now (paths_of found.old.items) (paths_of found.new.items)) }
{
    for entry in entries {
        if !add_entry(alloc, dirs, folder, entry, found)? {
            return Ok(false);
        }
    }
    Ok(true)
}

/// Adds the folders in a folder. False where anything else is in it. One call of files.
fn add_folders<F: Files>(
    alloc: Global,
    files: &mut F,
    dirs: &Dirs,
    folder: &[u8],
    found: &mut Vec<Vec<u8>>,
) -> Result<bool, FileError>
    ensures more { OnlyMore dirs.now folder.now (paths_of found.old.items)
        (paths_of found.new.items) }
    ensures stops { F.honest → IfOk result (StopsFor dirs.now (F.means files.old).tree folder.now) }
    ensures adds { F.honest → IfOk result (λ all. all ≡ true → AddsFolders
        (F.means files.old).tree folder.now (paths_of found.old.items) (paths_of found.new.items)) }
    ensures reads { OnlyReads F.honest F.means F.faults files.old files.new }
    ensures counted { IfErr result (IsCountedFault (F.faults files.old) (F.faults files.new)) }
{
    let Some(entries) = files.list(alloc, folder)? else {
        return Ok(true);
    };
    match add_entries(alloc, dirs, folder, &entries, found) {
        Ok(all) => Ok(all),
        Err(_) => Err(FileError::Memory),
    }
}

/// A list of one path.
fn one_path(alloc: Global, path: &[u8]) -> Result<Vec<Vec<u8>>, AllocError>
    ensures { IfOk result (λ paths. paths_of paths.items ≡ path.now ∷ []) }
{
    let mut paths = Vec::with_capacity(alloc, 1)?;
    paths.push(path.to_vec(alloc)?)?;
    Ok(paths)
}

/// Adds the folders in each of these folders, and in those that are added, until there is no more. False where anything else is in one of
/// them. One call of files for each folder.
#[tactic(auto, using(crate::proofs::Whole::search_starts))]
fn walk<F: Files>(
    alloc: Global,
    files: &mut F,
    dirs: &Dirs,
    top: &[u8],
    found: &mut Vec<Vec<u8>>,
) -> Result<bool, FileError>
    requires folders { IsWalked dirs.now top.now (paths_of found.old.items) }
    requires alone { paths_of found.old.items ≡ top.now ∷ [] }
    ensures walked { IsWalked dirs.now top.now (paths_of found.new.items) }
    ensures stops { F.honest → IfOk result (StopsFor dirs.now (F.means files.old).tree top.now) }
    ensures whole { F.honest → IfOk result (λ all. all ≡ true →
        AreClosedFolders (F.means files.old).tree (paths_of found.new.items)) }
    ensures reads { OnlyReads F.honest F.means F.faults files.old files.new }
    ensures counted { IfErr result (IsCountedFault (F.faults files.old) (F.faults files.new)) }
{
    for next in 0..usize::MAX {
        let Some(folder) = found.get(next) else {
            return Ok(true);
        };
        let Ok(folder) = folder.as_slice().to_vec(alloc) else {
            return Err(FileError::Memory);
        };
        if !add_folders(alloc, files, dirs, &folder, found)? {
            return Ok(false);
        }
    }
    // No list is that long.
    Err(FileError::Memory)
}

/// The folder at a path and those in it, each after those in it, if nothing else is there; else none.
fn folders_at<F: Files>(
    alloc: Global,
    files: &mut F,
    dirs: &Dirs,
    path: &[u8],
) -> Result<Vec<Vec<u8>>, FileError>
    ensures in_way { F.honest → IfOk result (λ folders. AreInWay dirs.now
        (F.means files.old).tree false path.now (paths_of folders.items)) }
    ensures reads { OnlyReads F.honest F.means F.faults files.old files.new }
    ensures counted { IfErr result (IsCountedFault (F.faults files.old) (F.faults files.new)) }
{
    if leads_to_store(dirs, path) {
        return Ok(Vec::new(alloc));
    }
    let Ok(mut found) = one_path(alloc, path) else {
        return Err(FileError::Memory);
    };
    if !walk(alloc, files, dirs, path, &mut found)? {
        return Ok(Vec::new(alloc));
    }
    found.reverse();
    Ok(found)
}

/// The folders that are in the way of a file at a path.
fn in_way<F: Files>(
    alloc: Global,
    files: &mut F,
    dirs: &Dirs,
    path: &[u8],
) -> Result<EmptyDirs, FileError>
    ensures in_way { F.honest → IfOk result (λ way. AreInWay dirs.now
        (F.means files.old).tree false path.now (paths_of way.folders.items)) }
    ensures reads { OnlyReads F.honest F.means F.faults files.old files.new }
    ensures counted { IfErr result (IsCountedFault (F.faults files.old) (F.faults files.new)) }
{
    if files.kind(path)? != Node::Folder {
        return Ok(EmptyDirs {
            folders: Vec::new(alloc),
        });
    }
    let folders = folders_at(alloc, files, dirs, path)?;
    Ok(EmptyDirs { folders })
}

/// The folders that are in the way of a step: of one that writes a file.
fn in_way_of<F: Files>(
    alloc: Global,
    files: &mut F,
    dirs: &Dirs,
    action: &Action<'_>,
) -> Result<EmptyDirs, FileError>
    ensures in_way { F.honest → IfOk result (λ way. AreInWayOf dirs.now (F.means files.old).tree
        false (written_at (step_of action.now)) (paths_of way.folders.items)) }
    ensures writes { IfErr result (λ error. written_at (step_of action.now) ≢ None) }
    ensures reads { OnlyReads F.honest F.means F.faults files.old files.new }
    ensures counted { IfErr result (IsCountedFault (F.faults files.old) (F.faults files.new)) }
{
    match *action {
        Action::Line { path, .. } => in_way(alloc, files, dirs, path),
        Action::Rename { to, .. } => in_way(alloc, files, dirs, to),
        Action::Create { .. }
        | Action::Append { .. }
        | Action::RemoveFile { .. }
        | Action::MakeFolders { .. }
        | Action::RemoveFolder { .. }
        | Action::End => Ok(EmptyDirs {
            folders: Vec::new(alloc),
        }),
    }
}

/// Why a search for folders ended, before the step about this.
fn unlisted(about: About, source: FileError) -> Unfinished
    ensures memory { source ≡ FileError.Memory → result ≡ Unfinished.Memory }
    ensures fault { (source ≡ FileError.Memory → ⊥) →
        result ≡ Unfinished.Step about (Cause.File source) }
{
    match source {
        FileError::Memory => Unfinished::Memory,
        FileError::Device(_) | FileError::NotUtf8 => Unfinished::Step {
            about,
            cause: Cause::File(source),
        },
    }
}

/// Whether the path that a step about this writes was seen, and no folder was there: a file at the place of an edit, or whatever is at its log.
fn is_seen(edits: &[Edit], about: About) -> bool
    ensures { result ≡ is_seen edits.now about }
{
    match about {
        About::Rename { edit } => edits.get(edit).is_some_and(|edit| edit.has_file),
        About::Line { edit } => edits
            .get(edit)
            .is_some_and(|edit| edit.has_no_folder_at_log()),
        About::Folders { .. } | About::LogRemoval { .. } | About::Packed | About::Removal { .. } =>
            false,
    }
}

/// The folders that are in the way of a step of a plan. None is sought where it was seen that none is there.
fn empty_dirs_before<F: Files>(
    alloc: Global,
    files: &mut F,
    dirs: &Dirs,
    edits: &[Edit],
    planned: &Planned<'_, About>,
) -> Result<EmptyDirs, Unfinished>
    ensures in_way { F.honest → IfOk result
        (λ way. AreInWayOf dirs.now (F.means files.old).tree (is_seen edits.now planned.now.about)
        (written_at (step_of planned.now.action)) (paths_of way.folders.items)) }
    ensures failed { IfErr result
        (FailsBefore planned.now (F.faults files.old) (F.faults files.new)) }
    ensures reads { OnlyReads F.honest F.means F.faults files.old files.new }
{
    if is_seen(edits, planned.about) {
        return Ok(EmptyDirs {
            folders: Vec::new(alloc),
        });
    }
    match in_way_of(alloc, files, dirs, &planned.action) {
        Ok(way) => Ok(way),
        Err(source) => Err(unlisted(planned.about, source)),
    }
}

/// The folders that are in the way of each step of a plan. The error names the step before which a folder could not be listed. One call of
/// files for each step that writes a file where it was not seen that no folder is there, and one for each folder in its way.
pub fn find_empty_dirs_in_the_way<F: Files>(
    alloc: Global,
    files: &mut F,
    dirs: &Dirs,
    edits: &[Edit],
    plan: &[Planned<'_, About>],
) -> Result<Vec<EmptyDirs>, Unfinished>
    ensures in_way { F.honest → IfOk result (λ ways. AllInWay edits.now dirs.now
        (F.means files.old).tree (folder_lists ways.items) (entries plan.now)) }
    ensures failed { IfErr result
        (FailsToList (entries plan.now) (F.faults files.old) (F.faults files.new)) }
    ensures reads { OnlyReads F.honest F.means F.faults files.old files.new }
{
    let Ok(mut ways) = Vec::with_capacity(alloc, plan.len()) else {
        return Err(Unfinished::Memory);
    };
    for planned in plan {
        let way = match empty_dirs_before(alloc, files, dirs, edits, planned) {
            Ok(way) => way,
            Err(unfinished) => return Err(unfinished),
        };
        let Ok(()) = ways.push(way) else {
            return Err(Unfinished::Memory);
        };
    }
    Ok(ways)
}

/// Adds the removals of these folders, about what the step after them is about.
fn add_removals<'p>(
    steps: &mut Vec<Planned<'p, About>>,
    folders: &'p [Vec<u8>],
    about: About,
) -> Result<(), AllocError>
    ensures { OnOk result (entries steps.new.items
        ≡ entries steps.old.items ++ removals about (paths_of folders.now)) }
{
    for folder in folders {
        steps.push(Planned {
            action: Action::RemoveFolder { path: folder },
            settle: Settle::Nothing,
            about,
        })?;
    }
    Ok(())
}

/// Whether no folder is in the way of any step.
fn none_in_way(ways: &[EmptyDirs]) -> bool
    ensures { result ≡ true → ClearsNothing (folder_lists ways.now) }
{
    for way in ways {
        if !way.folders.as_slice().is_empty() {
            return false;
        }
    }
    true
}

/// A new list of the steps of a plan, each after the removals of the folders that are in its way.
fn with_removals<'p>(
    alloc: Global,
    plan: &[Planned<'p, About>],
    ways: &'p [EmptyDirs],
) -> Result<Vec<Planned<'p, About>>, AllocError>
    ensures { IfOk result (λ steps. entries steps.items
        ≡ cleared (folder_lists ways.now) (entries plan.now)) }
{
    let mut steps = Vec::with_capacity(alloc, plan.len())?;
    for (at, planned) in plan.iter().enumerate() {
        if let Some(way) = ways.get(at) {
            add_removals(&mut steps, &way.folders, planned.about)?;
        }
        steps.push(*planned)?;
    }
    Ok(steps)
}

/// The steps of a plan, each after the removals of the folders that are in its way. Where there is no such folder it is the plan itself,
/// and takes no memory.
pub fn clear<'p>(
    alloc: Global,
    plan: Vec<Planned<'p, About>>,
    ways: &'p [EmptyDirs],
) -> Result<Vec<Planned<'p, About>>, AllocError>
    ensures { IfOk result (λ steps. entries steps.items
        ≡ cleared (folder_lists ways.now) (entries plan.entry.items)) }
{
    if none_in_way(ways) {
        return Ok(plan);
    }
    with_removals(alloc, &plan, ways)
}
