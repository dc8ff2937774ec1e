//! What a loss of power leaves of files in memory, by a choice for each unsynced entry and each unsynced end of a file.
ghost use Rattle.std.specs.Prelude.{◌≡◌, ◌++◌, ◌-◌, IfOk, OnOk, take, length, replicate, false};
ghost use Rattle.gix_ref_files.specs.Tree.{Path, no_tree, put, IsShaped};
ghost use Rattle.gix_ref_files.specs.Disk.{reachable, Lost};
ghost use Rattle.gix_ref_files.specs.Files.{disk_of};
ghost use Rattle.gix_ref_files.specs.Losing.{kept, lost_by, all_synced};
ghost use Rattle.gix_ref_memory.specs.Changes.{after_changes, content_of, found_item, meaning_after};
ghost use Rattle.gix_ref_memory.specs.internal.Power.{IsChoice, IsReachable, Names, Fills, AreSynced};

use super::births::{Birth, all_births, births_of, keeps};
use super::changes::{Change, Known, Present, Stored, find, is_in_folders, place};
use super::sure::sure_at;
use std::alloc::{AllocError, Global};

/// The synced bytes, and as many bytes 0x3F as there are others.
fn lost_bytes(alloc: Global, bytes: &[u8], synced: usize) -> Result<Vec<u8>, AllocError>
    ensures { IfOk result (λ left. left.items
        ≡ take synced bytes.now ++ replicate (length bytes.now - synced) 63) }
{
    let kept = synced.min(bytes.len());
    let mut left = bytes[..kept].to_vec(alloc)?;
    for _at in kept..bytes.len() {
        left.push(b'?')?;
    }
    Ok(left)
}

/// What is left of what is known: its bytes, or in place of those that were not synced other ones.
fn kept(alloc: Global, known: Known<'_>, end: bool) -> Result<Option<Stored>, AllocError>
    ensures { IfOk result (λ stored. content_of stored ≡ kept end (found_item known.entry)) }
{
    match known.content {
        None => Ok(None),
        Some(Present::FolderOf) => Ok(Some(Stored::Folder)),
        Some(Present::FileOf(bytes)) => {
            let left = if end {
                bytes.to_vec(alloc)?
            } else {
                lost_bytes(alloc, bytes, known.synced)?
            };
            Ok(Some(Stored::Bytes(left)))
        }
    }
}

/// What a loss of power leaves of an entry.
fn left_at(
    alloc: Global,
    changes: &[Change],
    births: &[Birth],
    path: &[u8],
    pick: u64,
) -> Result<Option<Stored>, AllocError>
    ensures { IfOk result (λ stored. IsChoice changes.now pick path.now (content_of stored)) }
{
    let sure = sure_at(changes, path);
    let of = births_of(changes, path);
    let entry = keeps(pick, births, of.entry);
    let (known, birth) = if entry || !sure.is_new {
        (sure.now, of.end)
    } else {
        (sure.last, of.last_end)
    };
    kept(alloc, known, keeps(pick, births, birth))
}

/// Puts this at a path, as synced.
fn put_synced(
    alloc: Global,
    left: &mut Vec<Change>,
    path: &[u8],
    stored: Option<Stored>,
) -> Result<(), AllocError>
    ensures tree { OnOk result (after_changes left.new.items no_tree
        ≡ put (after_changes left.old.items no_tree) path.now (content_of stored)) }
    ensures synced { OnOk result (AreSynced left.old.items → AreSynced left.new.items) }
{
    let path = path.to_vec(alloc)?;
    left.push(Change::Put {
        path,
        stored,
        synced: true,
    })?;
    Ok(())
}

/// Puts what a loss of power leaves of an entry.
fn leave(
    alloc: Global,
    left: &mut Vec<Change>,
    changes: &[Change],
    births: &[Birth],
    path: &[u8],
    pick: u64,
) -> Result<(), AllocError>
    ensures { OnOk result
        (Fills (IsChoice changes.now pick) (λ q. path.now ≡ q) left.old.items left.new.items) }
{
    let stored = left_at(alloc, changes, births, path, pick)?;
    put_synced(alloc, left, path, stored)
}

/// The same for each entry that a change names.
fn leave_named(
    alloc: Global,
    left: &mut Vec<Change>,
    changes: &[Change],
    births: &[Birth],
    change: &Change,
    pick: u64,
) -> Result<(), AllocError>
    ensures { OnOk result
        (Fills (IsChoice changes.now pick) (Names change.now) left.old.items left.new.items) }
{
    match change {
        Change::Put { path, .. } => leave(alloc, left, changes, births, path, pick),
        Change::Append { path, .. } => leave(alloc, left, changes, births, path, pick),
        Change::Move { from, to, .. } => {
            leave(alloc, left, changes, births, from, pick)?;
            leave(alloc, left, changes, births, to, pick)
        }
        Change::SyncFile { path } => leave(alloc, left, changes, births, path, pick),
        Change::SyncFolder { path } => leave(alloc, left, changes, births, path, pick),
    }
}

/// What is left of each entry, by a choice for each.
fn left_entries(alloc: Global, changes: &[Change], pick: u64) -> Result<Vec<Change>, AllocError>
    ensures { IfOk result (λ left. (q : Path) →
        IsChoice changes.now pick q (after_changes left.items no_tree q)) }
{
    let births = all_births(alloc, changes)?;
    let mut left = Vec::new(alloc);
    for change in changes {
        leave_named(alloc, &mut left, changes, &births, change, pick)?;
    }
    Ok(left)
}

/// Puts what is at a path, if it can be reached.
fn reach(
    alloc: Global,
    left: &mut Vec<Change>,
    entries: &[Change],
    path: &[u8],
) -> Result<(), AllocError>
    ensures { OnOk result (Fills (IsReachable (after_changes entries.now no_tree))
        (λ q. path.now ≡ q) left.old.items left.new.items) }
{
    let stored = if is_in_folders(entries, path) {
        let content = find(entries, path);
        kept(alloc, Known { content, synced: 0 }, true)?
    } else {
        None
    };
    put_synced(alloc, left, path, stored)
}

/// What can be reached of the entries: with a folder's own entry goes all below it.
fn reachable_entries(alloc: Global, entries: &[Change]) -> Result<Vec<Change>, AllocError>
    ensures tree { IfOk result (λ left. after_changes left.items no_tree
        ≡ reachable (after_changes entries.now no_tree)) }
    ensures synced { IfOk result (λ left. AreSynced left.items) }
{
    let mut left = Vec::new(alloc);
    for entry in entries {
        reach(alloc, &mut left, entries, place(entry))?;
    }
    Ok(left)
}

/// The changes that make what a loss of power leaves, all of it synced.
pub fn left_by_loss(alloc: Global, changes: &[Change], pick: u64) -> Result<Vec<Change>, AllocError>
    ensures lost { IfOk result
        (λ left. Lost (disk_of (meaning_after changes.now)) (after_changes left.items no_tree)) }
    ensures none { pick ≡ 0 → IfOk result (λ left. after_changes left.items no_tree
        ≡ lost_by (λ p. false) (λ p. false) (disk_of (meaning_after changes.now))) }
    ensures settled { IfOk result (λ left. disk_of (meaning_after left.items)
        ≡ all_synced (after_changes left.items no_tree)) }
    ensures shape { IfOk result (λ left. IsShaped (after_changes left.items no_tree)) }
{
    let entries = left_entries(alloc, changes, pick)?;
    reachable_entries(alloc, &entries)
}
