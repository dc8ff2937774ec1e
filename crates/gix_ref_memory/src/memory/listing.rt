//! What a folder in memory contains.
ghost use Rattle.std.specs.Prelude.{◌≡◌, ◌∷◌, ◌++◌, List, ℕ, None, true, false, bytes_eq, IfOk, OnOk, IsSome, MatchOption};
ghost use Rattle.std.specs.List.{list_any};
ghost use Rattle.gix_ref_files.specs.Tree.{no_tree};
ghost use Rattle.gix_ref_files.specs.Calls.{ListsFolder, IsEntryName, entry_name};
ghost use Rattle.gix_ref_memory.specs.Changes.{after_changes};
ghost use Rattle.gix_ref_memory.specs.internal.Listing.{AddsEntries};

use super::changes::{Change, find, place};
use gix_ref_files::files::Entry;
use std::alloc::{AllocError, Global};

/// The rest of a path that lies below a folder.
fn below<'a>(folder: &[u8], path: &'a [u8]) -> Option<&'a [u8]>
    ensures { MatchOption result ((rest : List ℕ) → path.now ≡ folder.now ++ 47 ∷ rest → ⊥)
        (λ rest. path.now ≡ folder.now ++ 47 ∷ rest.now) }
{
    let end = folder.len();
    if end < path.len() && &path[..end] == folder && path[end] == b'/' {
        Some(&path[end + 1..])
    } else {
        None
    }
}

/// The name of a path that lies right in a folder.
fn child<'a>(folder: &[u8], path: &'a [u8]) -> Option<&'a [u8]>
    ensures { MatchOption result ((name : List ℕ) → IsEntryName name → path.now ≡ folder.now ++ 47
        ∷ name → ⊥) (λ name. IsEntryName name.now × (path.now ≡ folder.now ++ 47 ∷ name.now)) }
{
    match below(folder, path) {
        Some(name) if !name.is_empty() && !name.contains(&b'/') => Some(name),
        _ => None,
    }
}

/// Whether something is below a path.
pub fn has_below(changes: &[Change], path: &[u8]) -> bool
    ensures some { result ≡ true → (rest : List ℕ)
        × IsSome (after_changes changes.now no_tree (path.now ++ 47 ∷ rest)) }
    ensures none { result ≡ false → (rest : List ℕ) →
        after_changes changes.now no_tree (path.now ++ 47 ∷ rest) ≡ None }
{
    for change in changes {
        let at = place(change);
        if below(path, at).is_some() && find(changes, at).is_some() {
            return true;
        }
    }
    false
}

/// An entry has this name.
fn is_listed(entries: &[Entry], name: &[u8]) -> bool
    ensures { result ≡ list_any (λ entry. bytes_eq (entry_name entry) name.now) entries.now }
{
    entries.iter().any(|entry| entry.name.as_slice() == name)
}

/// Adds the entry of a name in a folder, if something is there and it is not listed yet.
fn add_entry(
    alloc: Global,
    changes: &[Change],
    folder: &[u8],
    path: &[u8],
    name: &[u8],
    entries: &mut Vec<Entry>,
) -> Result<(), AllocError>
    requires name { IsEntryName name.now }
    requires path { path.now ≡ folder.now ++ 47 ∷ name.now }
    ensures { OnOk result (AddsEntries (after_changes changes.now no_tree) folder.now name.now
        entries.old.items entries.new.items) }
{
    if is_listed(entries, name) {
        return Ok(());
    }
    let Some(present) = find(changes, path) else {
        return Ok(());
    };
    let is_folder = present.is_folder();
    let name = name.to_vec(alloc)?;
    entries.push(Entry { name, is_folder })?;
    Ok(())
}

/// The entries of a folder, in the order in which they were first made.
pub fn list_now(alloc: Global, changes: &[Change], folder: &[u8]) -> Result<Vec<Entry>, AllocError>
    ensures { IfOk result
        (λ entries. ListsFolder (after_changes changes.now no_tree) folder.now entries.items) }
{
    let mut entries = Vec::new(alloc);
    for change in changes {
        let at = place(change);
        if let Some(name) = child(folder, at) {
            add_entry(alloc, changes, folder, at, name, &mut entries)?;
        }
    }
    Ok(entries)
}
