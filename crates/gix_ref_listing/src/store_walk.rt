//! The loose references of a store.
ghost use Rattle.std.specs.Prelude.{◌≡◌, ◌≢◌, [], IfOk, IfErr, OnOk};
ghost use Rattle.std.specs.List.{All};
ghost use Rattle.gix_ref_target.specs.Layout.{below};
ghost use Rattle.gix_ref_files.specs.declared.files.FileError.TheVariants.{Memory};
ghost use Rattle.gix_ref_theory.specs.OnRealTrees.{contents};
ghost use Rattle.gix_ref_lookup.specs.StoreLayout.{namespace_text};
ghost use Rattle.gix_ref_listing.specs.Walks.{AddsOnly, AddsOnlyMet, FindsEach, IsFileOrMet, IsFolderPath, IsRootPath, StaysFound};
ghost use Rattle.gix_ref_listing.specs.LooseListings.{front_in, IsFront, IsLooseListed, IsFoundIn, LooseIn};
ghost use Rattle.gix_ref_files.specs.ReadOnly.{OnlyReads};

use crate::found::FoundByKey;
use crate::walk::Root;
use gix_ref_files::files::{FileError, Files};
use gix_ref_lookup::settings::Settings;
use gix_ref_name::namespace::Namespace;
use std::alloc::{AllocError, Global};
use std::collections::BTreeMap;

/// The text in front of names: the namespace, or nothing.
pub(crate) fn text_of(namespace: &Option<Namespace>) -> &[u8]
    ensures text { result.now ≡ namespace_text namespace.now }
    ensures ends { IsFolderPath result.now }
{
    match namespace {
        Some(namespace) => namespace.to_path(),
        None => b"",
    }
}

/// What comes before the names in a folder of the store in their paths: the folder, a slash and the namespace.
pub(crate) fn front_of(
    alloc: Global,
    folder: &[u8],
    namespace: &Option<Namespace>,
) -> Result<Vec<u8>, AllocError>
    requires { folder.now ≢ [] }
    ensures front { IfOk result (λ front. front.items
        ≡ below folder.now (namespace_text namespace.now)) }
    ensures root { IfOk result (λ front. IsRootPath front.items) }
{
    let namespace = text_of(namespace);
    let mut front = Vec::with_capacity(alloc, folder.len().saturating_add(1))?;
    front.extend_from_slice(folder)?;
    front.push(b'/')?;
    front.extend_from_slice(namespace)?;
    Ok(front)
}

/// Walks one folder of the store. The error says that there was no memory.
fn walk_in<F: Files>(
    alloc: Global,
    files: &mut F,
    settings: Settings<'_>,
    folder: &[u8],
    prefix: &[u8],
    found: &mut FoundByKey,
) -> Result<(), FileError>
    requires folder { folder.now ≢ [] }
    requires front { IsFront settings (front_in settings folder.now) }
    ensures stays { OnOk result (StaysFound found.old.entries found.new.entries) }
    ensures finds { F.honest → OnOk result (FindsEach
        (LooseIn settings.entry (contents F.means files.old) prefix.now
        (front_in settings.entry folder.now)) found.new.entries) }
    ensures files { OnOk result (AddsOnlyMet (F.faults files.old) (F.faults files.new)
        found.old.entries found.new.entries) }
    ensures there { F.honest → OnOk result (AddsOnly
        (IsFoundIn settings.entry (contents F.means files.old) prefix.now)
        found.old.entries found.new.entries) }
    ensures looks { OnlyReads F.honest F.means F.faults files.old files.new }
    ensures memory { IfErr result (λ error. error ≡ Memory) }
{
    let Ok(path) = front_of(alloc, folder, settings.namespace) else {
        return Err(FileError::Memory);
    };
    let root = Root {
        path: &path,
        prefix,
        settings,
    };
    root.walk(alloc, files, found)?;
    Ok(())
}

/// The loose references of a store whose names begin with the prefix, in the folder of its own references and in the common
/// folder, and the folders that could not be listed. One call of files for each folder that such names may be in. The error
/// says that there was no memory.
pub fn walk_store<F: Files>(
    alloc: Global,
    files: &mut F,
    settings: Settings<'_>,
    prefix: &[u8],
) -> Result<FoundByKey, FileError>
    ensures finds { F.honest → IfOk result (λ found. FindsEach
        (IsLooseListed settings.entry (contents F.means files.old) prefix.now) found.entries) }
    ensures files { IfOk result (λ found. All (IsFileOrMet (F.faults files.old)
        (F.faults files.new)) found.entries) }
    ensures there { F.honest → IfOk result (λ found. All
        (IsFoundIn settings.entry (contents F.means files.old) prefix.now) found.entries) }
    ensures looks { OnlyReads F.honest F.means F.faults files.old files.new }
    ensures memory { IfErr result (λ error. error ≡ Memory) }
{
    let mut found = BTreeMap::new(alloc);
    let common = settings.dirs.common();
    walk_in(alloc, files, settings, common, prefix, &mut found)?;
    if settings.dirs.git_dir.as_slice() == common {
        return Ok(found);
    }
    walk_in(
        alloc,
        files,
        settings,
        &settings.dirs.git_dir,
        prefix,
        &mut found,
    )?;
    Ok(found)
}
