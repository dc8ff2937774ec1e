//! What the calls of files in memory change: each adds its changes at the end of those that there were.
ghost use Rattle.std.specs.Prelude.{◌≡◌, if◌then◌else◌, Some, false, IfOk, IfSome, OnOk, OnErr, MatchOption, take, length};
ghost use Rattle.gix_ref_files.specs.Tree.{IsShaped, no_tree, put, appended, is_file, is_folder, fronts, with_folders};
ghost use Rattle.gix_ref_files.specs.Disk.{file_synced, folder_synced};
ghost use Rattle.gix_ref_files.specs.DiskCalls.{after_append, AppendingOn, after_rename, RenamingOn, after_create, CreatingOn, after_removal, RemovingFileOn, RemovingFolderOn, Syncs, SyncingOn};
ghost use Rattle.gix_ref_files.specs.Files.{Passes};
ghost use Rattle.gix_ref_files.specs.Calls.{Appends, Renames, IsMovable, RemovesFile, RemovesFolder, Creates};
ghost use Rattle.gix_ref_files.specs.Tree.Content.{File};
ghost use Rattle.gix_ref_memory.specs.Changes.{after_changes, meaning_after, Puts, tree_after, disk_after, placed_on};
ghost use Rattle.gix_ref_memory.specs.Calls.{PassesEach};
ghost use Rattle.gix_ref_memory.specs.Turns.{HasNoWay};
ghost use Rattle.gix_ref_memory.specs.internal.Edits.{IfNoAnswer};

use super::changes::{
    Change, Present, Stored, find, is_below_file, is_file_at, is_folder_at, is_in_folders, item_at,
};
use super::folders::make_fronts;
use super::listing::has_below;
use gix_ref_files::files::{Create, Rename};
use std::alloc::{AllocError, Global};

/// Adds bytes to a file.
pub fn append_now(
    alloc: Global,
    changes: &mut Vec<Change>,
    path: &[u8],
    bytes: &[u8],
) -> Result<bool, AllocError>
    ensures answer { IfOk result
        (Appends (tree_after changes.old) path.now bytes.now (tree_after changes.new)) }
    ensures failed { OnErr result (changes.new.items ≡ changes.old.items) }
    ensures shape { IsShaped (tree_after changes.old) → IsShaped (tree_after changes.new) }
    ensures disk { IfOk result (λ there. disk_after changes.new
        ≡ after_append (disk_after changes.old) path.now bytes.now there) }
    ensures passes { PassesEach (meaning_after changes.old.items) (meaning_after changes.new.items)
        (AppendingOn (disk_after changes.old) path.now bytes.now) result }
{
    match find(changes, path) {
        Some(Present::FileOf(old)) => {
            let had = old.len();
            let mut whole = old.to_vec(alloc)?;
            whole.extend_from_slice(bytes)?;
            let path = path.to_vec(alloc)?;
            changes.push(Change::Append { path, whole, had })?;
            Ok(true)
        }
        _ => Ok(false),
    }
}

/// Adds at most the first `most` of these bytes to a file, if there is one.
pub fn append_some(
    alloc: Global,
    changes: &mut Vec<Change>,
    path: &[u8],
    bytes: &[u8],
    most: usize,
) -> Result<(), AllocError>
    ensures done { OnOk result (after_changes changes.new.items no_tree
        ≡ appended (tree_after changes.old) path.now (take most bytes.now)) }
    ensures shape { IsShaped (tree_after changes.old) → IsShaped (tree_after changes.new) }
    ensures passes { Passes (meaning_after changes.old.items) (meaning_after changes.new.items)
        (AppendingOn (disk_after changes.old) path.now bytes.now) }
{
    let part = &bytes[..most.min(bytes.len())];
    append_now(alloc, changes, path, part)?;
    Ok(())
}

/// Moves a file; `None` where the tree allows no result.
pub fn rename_now(
    alloc: Global,
    changes: &mut Vec<Change>,
    from: &[u8],
    to: &[u8],
) -> Result<Option<Rename>, AllocError>
    ensures answer { IfOk result (λ answer. MatchOption answer
        (IsMovable (tree_after changes.old) from.now to.now → ⊥)
        (Renames (tree_after changes.old) from.now to.now (tree_after changes.new))) }
    ensures same { IfNoAnswer result (changes.new.items ≡ changes.old.items) }
    ensures shape { IsShaped (tree_after changes.old) → IsShaped (tree_after changes.new) }
    ensures disk { IfOk result (λ answer. IfSome answer (λ rename. disk_after changes.new
        ≡ after_rename (disk_after changes.old) from.now to.now rename)) }
    ensures passes { Passes (meaning_after changes.old.items) (meaning_after changes.new.items)
        (RenamingOn (disk_after changes.old) from.now to.now) }
{
    match find(changes, from) {
        Some(Present::FileOf(old)) => {
            if is_folder_at(changes, to) {
                return Ok(Some(Rename::FolderStands));
            }
            if !is_in_folders(changes, to) {
                return Ok(None);
            }
            let bytes = old.to_vec(alloc)?;
            let synced = item_at(changes, from).synced;
            let from = from.to_vec(alloc)?;
            let to = to.to_vec(alloc)?;
            changes.push(Change::Move {
                from,
                to,
                bytes,
                synced,
            })?;
            Ok(Some(Rename::Moved))
        }
        _ => Ok(None),
    }
}

/// Removes a file.
pub fn remove_file_now(
    alloc: Global,
    changes: &mut Vec<Change>,
    path: &[u8],
) -> Result<bool, AllocError>
    ensures answer { IfOk result
        (RemovesFile (tree_after changes.old) path.now (tree_after changes.new)) }
    ensures failed { OnErr result (changes.new.items ≡ changes.old.items) }
    ensures shape { IsShaped (tree_after changes.old) → IsShaped (tree_after changes.new) }
    ensures disk { IfOk result (λ removed. disk_after changes.new
        ≡ after_removal (disk_after changes.old) path.now removed) }
    ensures passes { Passes (meaning_after changes.old.items) (meaning_after changes.new.items)
        (RemovingFileOn (disk_after changes.old) path.now) }
{
    if !is_file_at(changes, path) {
        return Ok(false);
    }
    let path = path.to_vec(alloc)?;
    changes.push(Change::Put {
        path,
        stored: None,
        synced: false,
    })?;
    Ok(true)
}

/// Makes an empty file; `None` where a folder on the way is missing.
pub fn create_now(
    alloc: Global,
    changes: &mut Vec<Change>,
    path: &[u8],
) -> Result<Option<Create>, AllocError>
    ensures answer { IfOk result (λ answer. MatchOption answer
        (HasNoWay (tree_after changes.old) path.now)
        (Creates (tree_after changes.old) path.now (tree_after changes.new))) }
    ensures same { IfNoAnswer result (changes.new.items ≡ changes.old.items) }
    ensures shape { IsShaped (tree_after changes.old) → IsShaped (tree_after changes.new) }
    ensures disk { IfOk result (λ answer. IfSome answer (λ create. disk_after changes.new
        ≡ after_create (disk_after changes.old) path.now create)) }
    ensures passes { Passes (meaning_after changes.old.items) (meaning_after changes.new.items)
        (CreatingOn (disk_after changes.old) path.now) }
{
    if find(changes, path).is_some() {
        return Ok(Some(Create::Standing));
    }
    if is_below_file(changes, path) {
        return Ok(Some(Create::Blocked));
    }
    if !is_in_folders(changes, path) {
        return Ok(None);
    }
    let path = path.to_vec(alloc)?;
    let stored = Some(Stored::Bytes(Vec::new(alloc)));
    changes.push(Change::Put {
        path,
        stored,
        synced: false,
    })?;
    Ok(Some(Create::Made))
}

/// Removes an empty folder.
pub fn remove_folder_now(
    alloc: Global,
    changes: &mut Vec<Change>,
    path: &[u8],
) -> Result<bool, AllocError>
    ensures answer { IfOk result
        (RemovesFolder (tree_after changes.old) path.now (tree_after changes.new)) }
    ensures failed { OnErr result (changes.new.items ≡ changes.old.items) }
    ensures shape { IsShaped (tree_after changes.old) → IsShaped (tree_after changes.new) }
    ensures disk { IfOk result (λ removed. disk_after changes.new
        ≡ after_removal (disk_after changes.old) path.now removed) }
    ensures passes { Passes (meaning_after changes.old.items) (meaning_after changes.new.items)
        (RemovingFolderOn (disk_after changes.old) path.now) }
{
    if !is_folder_at(changes, path) || has_below(changes, path) {
        return Ok(false);
    }
    let path = path.to_vec(alloc)?;
    changes.push(Change::Put {
        path,
        stored: None,
        synced: false,
    })?;
    Ok(true)
}

/// Puts a file with these bytes at a path, and folders at its fronts, all of it synced. A failure may leave folders.
fn place_file(
    alloc: Global,
    changes: &mut Vec<Change>,
    path: &[u8],
    bytes: &[u8],
) -> Result<(), AllocError>
    ensures placed { OnOk result (after_changes changes.new.items no_tree ≡ put (with_folders
        (tree_after changes.old) (fronts path.now)) path.now (Some (File bytes.now))) }
    ensures disk { OnOk result (disk_after changes.new
        ≡ placed_on (disk_after changes.old) path.now bytes.now) }
    ensures kept { OnErr result (take (length changes.old.items) changes.new.items
        ≡ changes.old.items) }
    ensures shape { is_folder (after_changes changes.old.items no_tree path.now) ≡ false →
        IsShaped (tree_after changes.old) → OnOk result (IsShaped (tree_after changes.new)) }
{
    make_fronts(alloc, changes, path, path.len(), true)?;
    let path = path.to_vec(alloc)?;
    let bytes = bytes.to_vec(alloc)?;
    let stored = Some(Stored::Bytes(bytes));
    changes.push(Change::Put {
        path,
        stored,
        synced: true,
    })?;
    Ok(())
}

/// Puts a file with these bytes at a path, and folders at its fronts, all of it synced; false where a folder is at the
/// path or a file in it.
pub fn put_now(
    alloc: Global,
    changes: &mut Vec<Change>,
    path: &[u8],
    bytes: &[u8],
) -> Result<bool, AllocError>
    ensures answer { IfOk result
        (Puts (tree_after changes.old) path.now bytes.now (tree_after changes.new)) }
    ensures disk { IfOk result (λ put. disk_after changes.new ≡ (if put then placed_on
        (disk_after changes.old) path.now bytes.now else disk_after changes.old)) }
    ensures failed { OnErr result (changes.new.items ≡ changes.old.items) }
    ensures shape { IsShaped (tree_after changes.old) → IsShaped (tree_after changes.new) }
{
    if is_folder_at(changes, path) || is_below_file(changes, path) {
        return Ok(false);
    }
    let len = changes.len();
    match place_file(alloc, changes, path, bytes) {
        Ok(()) => Ok(true),
        Err(error) => {
            changes.truncate(len);
            Err(error)
        }
    }
}

/// Syncs the bytes of a file.
pub fn sync_file_now(
    alloc: Global,
    changes: &mut Vec<Change>,
    path: &[u8],
) -> Result<bool, AllocError>
    ensures answer { Syncs (is_file (tree_after changes.old path.now)) (disk_after changes.old)
        (file_synced (disk_after changes.old) path.now) (disk_after changes.new) result }
    ensures same { tree_after changes.new ≡ tree_after changes.old }
    ensures passes { Passes (meaning_after changes.old.items) (meaning_after changes.new.items)
        (SyncingOn (is_file (tree_after changes.old path.now)) (disk_after changes.old)
        (file_synced (disk_after changes.old) path.now)) }
{
    if !is_file_at(changes, path) {
        return Ok(false);
    }
    let path = path.to_vec(alloc)?;
    changes.push(Change::SyncFile { path })?;
    Ok(true)
}

/// Syncs the entries of a folder.
pub fn sync_folder_now(
    alloc: Global,
    changes: &mut Vec<Change>,
    path: &[u8],
) -> Result<bool, AllocError>
    ensures answer { Syncs (is_folder (tree_after changes.old path.now)) (disk_after changes.old)
        (folder_synced (disk_after changes.old) path.now) (disk_after changes.new) result }
    ensures same { tree_after changes.new ≡ tree_after changes.old }
    ensures passes { Passes (meaning_after changes.old.items) (meaning_after changes.new.items)
        (SyncingOn (is_folder (tree_after changes.old path.now)) (disk_after changes.old)
        (folder_synced (disk_after changes.old) path.now)) }
{
    if !is_folder_at(changes, path) {
        return Ok(false);
    }
    let path = path.to_vec(alloc)?;
    changes.push(Change::SyncFolder { path })?;
    Ok(true)
}
