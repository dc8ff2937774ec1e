//! The locks of references in one folder of a store.
ghost use Rattle.std.specs.Prelude.{◌≡◌, ◌≢◌, [], IfOk, IfErr, OnOk, Vec};
ghost use Rattle.std.specs.declared.alloc.Global.{Global};
ghost use Rattle.gix_ref_target.specs.Layout.{below};
ghost use Rattle.gix_ref_files.specs.ReadOnly.{OnlyReads};
ghost use Rattle.gix_ref_lookup.specs.Lookups.{meaning_in};
ghost use Rattle.gix_ref_lookup.specs.StoreLayout.{namespace_text};
ghost use Rattle.gix_ref_listing.specs.Walks.{IsFolderPath, IsRootPath};
ghost use Rattle.gix_ref_listing.specs.LooseListings.{front_in, IsFront};
ghost use Rattle.gix_ref_locks.specs.LockFiles.{AddsOnlyLocks, IsLockFailure};
ghost use Rattle.gix_ref_locks.specs.LockWalks.{FindsLocks, IsSought, StaysFound, FailsBelow};

use crate::locks::Error;
use crate::walk::LockRoot;
use gix_ref_files::files::Files;
use gix_ref_lookup::settings::Settings;
use gix_ref_name::namespace::Namespace;
use std::alloc::{AllocError, Global};
use std::collections::BTreeSet;

/// The text in front of names: the namespace, or nothing.
fn text_of(namespace: &Option<Namespace>) -> &[u8]
    ensures text { result.now ≡ namespace_text namespace.now }
    ensures ends { IsFolderPath result.now }
{
    match namespace {
        Some(namespace) => namespace.to_path(),
        None => b"",
    }
}

/// What comes before the names in a folder of the store in their paths: the folder, a slash and the namespace.
fn front_of(
    alloc: Global,
    folder: &[u8],
    namespace: &Option<Namespace>,
) -> Result<Vec<u8>, AllocError>
    requires { folder.now ≢ [] }
    ensures front { IfOk result (λ front. front.items
        ≡ below folder.now (namespace_text namespace.now)) }
    ensures root { IfOk result (λ front. IsRootPath front.items) }
{
    let namespace = text_of(namespace);
    let mut front = Vec::with_capacity(alloc, folder.len().saturating_add(1))?;
    front.extend_from_slice(folder)?;
    front.push(b'/')?;
    front.extend_from_slice(namespace)?;
    Ok(front)
}

impl LockRoot<'_> {
    /// Looks for the locks directly in the folder, and then below `refs/` and below the folders of linked worktrees.
    fn search<F: Files>(
        self,
        alloc: Global,
        files: &mut F,
        found: &mut BTreeSet<Vec<u8>>,
    ) -> Result<(), Error>
        requires { IsRootPath self.front.now }
        ensures stays { OnOk result (StaysFound found.old.keys found.new.keys) }
        ensures finds { F.honest → OnOk result (FindsLocks (meaning_in self.entry.settings)
            self.entry.front.now (F.means files.old).tree IsSought found.new.keys) }
        ensures only { F.honest → OnOk result (AddsOnlyLocks (meaning_in self.entry.settings)
            (F.means files.old).tree found.old.keys found.new.keys) }
        ensures looks { OnlyReads F.honest F.means F.faults files.old files.new }
        ensures failed { IfErr result
            (FailsBelow self.entry.front.now (F.faults files.old) (F.faults files.new)) }
    {
        let mut inner = Vec::new(alloc);
        self.walk_folder(alloc, files, b"", found, &mut inner)?;
        self.walk(alloc, files, b"refs/", found)?;
        self.walk(alloc, files, b"worktrees/", found)?;
        Ok(())
    }
}

/// Looks for the locks of references in a folder of the store.
pub(crate) fn search_in<F: Files>(
    alloc: Global,
    files: &mut F,
    settings: Settings<'_>,
    folder: &[u8],
    found: &mut BTreeSet<Vec<u8>>,
) -> Result<(), Error>
    requires folder { folder.now ≢ [] }
    requires front { IsFront settings (front_in settings folder.now) }
    ensures stays { OnOk result (StaysFound found.old.keys found.new.keys) }
    ensures finds { F.honest → OnOk result (FindsLocks (meaning_in settings.entry)
        (front_in settings.entry folder.now) (F.means files.old).tree IsSought found.new.keys) }
    ensures only { F.honest → OnOk result (AddsOnlyLocks (meaning_in settings.entry)
        (F.means files.old).tree found.old.keys found.new.keys) }
    ensures looks { OnlyReads F.honest F.means F.faults files.old files.new }
    ensures failed { IfErr result
        (IsLockFailure settings.entry (F.faults files.old) (F.faults files.new)) }
{
    let Ok(front) = front_of(alloc, folder, settings.namespace) else {
        return Err(Error::Memory);
    };
    let root = LockRoot {
        front: &front,
        settings,
    };
    root.search(alloc, files, found)?;
    Ok(())
}
