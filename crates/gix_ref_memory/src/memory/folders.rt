//! Folders that are made in memory.
ghost use Rattle.std.specs.Prelude.{◌≡◌, ◌≤◌, Some, OnOk, OnErr, IfOk, take, length, true, false, [], ◌∷◌, ◌++◌};
ghost use Rattle.gix_ref_files.specs.Tree.{IsShaped, no_tree, put, has_folders, fronts, folders_to, with_folders};
ghost use Rattle.gix_ref_files.specs.Tree.Content.{Folder};
ghost use Rattle.gix_ref_files.specs.Files.{Passes};
ghost use Rattle.gix_ref_files.specs.Calls.{MakesFolders, is_in_the_way};
ghost use Rattle.gix_ref_files.specs.DiskCalls.{BeforeOrAfterOn, after_folders, MakingFoldersOn};
ghost use Rattle.gix_ref_memory.specs.Calls.{PassesEach};
ghost use Rattle.gix_ref_memory.specs.Turns.{IsDone};
ghost use Rattle.gix_ref_memory.specs.Changes.{after_changes, meaning_after, MakingFrontsOn, tree_after, disk_after, with_folder_as, with_folders_as};
ghost use Rattle.gix_ref_memory.specs.internal.Edits.{LeadTo, MakesAllFronts};

use super::changes::{Change, Stored, is_below_file, is_file_at, is_folder_at};
use std::alloc::{AllocError, Global};

/// Makes a folder, if it does not exist; a new one counts as synced, or not.
fn make_folder(
    alloc: Global,
    changes: &mut Vec<Change>,
    path: &[u8],
    synced: bool,
) -> Result<(), AllocError>
    ensures made { OnOk result (LeadTo changes.new.items
        (put (tree_after changes.old) path.now (Some Folder))
        (with_folder_as synced (disk_after changes.old) path.now)) }
    ensures failed { OnErr result (changes.new.items ≡ changes.old.items) }
    ensures kept { take (length changes.old.items) changes.new.items ≡ changes.old.items }
    ensures shape { has_folders (tree_after changes.old) path.now ≡ true →
        IsShaped (tree_after changes.old) → IsShaped (tree_after changes.new) }
    ensures passes { Passes (meaning_after changes.old.items) (meaning_after changes.new.items)
        (BeforeOrAfterOn (disk_after changes.old) (Unit {0})
        (with_folder_as synced (disk_after changes.old) path.now)) }
{
    if is_folder_at(changes, path) {
        return Ok(());
    }
    let path = path.to_vec(alloc)?;
    let stored = Some(Stored::Folder);
    changes.push(Change::Put {
        path,
        stored,
        synced,
    })?;
    Ok(())
}

/// Makes folders at the first so many proper fronts of a path; new ones count as synced, or not.
pub fn make_fronts(
    alloc: Global,
    changes: &mut Vec<Change>,
    path: &[u8],
    most: usize,
    synced: bool,
) -> Result<(), AllocError>
    ensures made { OnOk result (LeadTo changes.new.items
        (with_folders (tree_after changes.old) (take most (fronts path.now)))
        (with_folders_as synced (disk_after changes.old) (take most (fronts path.now)))) }
    ensures kept { take (length changes.old.items) changes.new.items ≡ changes.old.items }
    ensures shape { IsShaped (tree_after changes.old) → IsShaped (tree_after changes.new) }
    ensures passes { Passes (meaning_after changes.old.items) (meaning_after changes.new.items)
        (MakingFrontsOn synced (disk_after changes.old) (fronts path.now)) }
    ensures all { length (fronts path.now) ≤ most → OnOk result (MakesAllFronts synced
        changes.old.items changes.new.items path.now) }
{
    let mut left = most;
    for i in 1..path.len() {
        if path[i] == b'/' {
            if left == 0 {
                return Ok(());
            }
            make_folder(alloc, changes, &path[..i], synced)?;
            left -= 1;
        }
    }
    Ok(())
}

/// Whether a file is at a path or in it.
fn is_file_in_the_way(changes: &[Change], path: &[u8]) -> bool
    ensures { result ≡ is_in_the_way (after_changes changes.now no_tree) path.now }
{
    is_file_at(changes, path) || is_below_file(changes, path)
}

/// The path with one slash more, whose fronts are the folders that lead to the path, and the path.
fn slashed(alloc: Global, path: &[u8]) -> Result<Vec<u8>, AllocError>
    ensures { IfOk result (λ folders. folders.items ≡ path.now ++ 47 ∷ []) }
{
    let mut folders = path.to_vec(alloc)?;
    folders.push(b'/')?;
    Ok(folders)
}

/// Makes the folders that lead to a path, and one there; false where a file is in the way.
pub fn make_folders_now(
    alloc: Global,
    changes: &mut Vec<Change>,
    path: &[u8],
) -> Result<bool, AllocError>
    ensures answer { IfOk result
        (MakesFolders (tree_after changes.old) path.now (tree_after changes.new)) }
    ensures shape { IsShaped (tree_after changes.old) → IsShaped (tree_after changes.new) }
    ensures disk { IfOk result (λ made. disk_after changes.new
        ≡ after_folders (disk_after changes.old) path.now made) }
    ensures passes { PassesEach (meaning_after changes.old.items) (meaning_after changes.new.items)
        (MakingFoldersOn (disk_after changes.old) path.now) result }
{
    if is_file_in_the_way(changes, path) {
        return Ok(false);
    }
    let folders = slashed(alloc, path)?;
    make_fronts(alloc, changes, &folders, folders.len(), false)?;
    Ok(true)
}

/// Makes the first so many of these folders, unless a file is in the way.
pub fn make_some_folders(
    alloc: Global,
    changes: &mut Vec<Change>,
    path: &[u8],
    most: usize,
) -> Result<(), AllocError>
    ensures done { OnOk result (IsDone (tree_after changes.old)
        (is_in_the_way (tree_after changes.old) path.now ≡ false) (with_folders
        (tree_after changes.old) (take most (folders_to path.now))) (tree_after changes.new)) }
    ensures shape { IsShaped (tree_after changes.old) → IsShaped (tree_after changes.new) }
    ensures passes { Passes (meaning_after changes.old.items) (meaning_after changes.new.items)
        (MakingFoldersOn (disk_after changes.old) path.now) }
{
    if is_file_in_the_way(changes, path) {
        return Ok(());
    }
    let folders = slashed(alloc, path)?;
    make_fronts(alloc, changes, &folders, most, false)
}
