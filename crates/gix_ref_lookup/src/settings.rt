//! The settings of a store: where it keeps names, and what it reads.
ghost use Rattle.std.specs.Prelude.{◌≡◌, []};
ghost use Rattle.gix_ref_hash.specs.Bytes.{without_front};
ghost use Rattle.gix_ref_target.specs.Layout.{below};

use crate::folders::{Dirs, rest_below};
use crate::layout::layout_in;
use gix_ref_hash::hash::Kind;
use gix_ref_name::name::device::has_device_name;
use gix_ref_name::name::{FullName, FullNameRef};
use gix_ref_name::namespace::Namespace;
use std::alloc::{AllocError, Global};

/// What lies below a folder in a path, or else the path.
fn below<'a>(path: &'a [u8], folder: &[u8]) -> &'a [u8]
    ensures { result.now ≡ without_front (below folder.now []) path.now }
{
    match rest_below(path, folder) {
        Some(rest) => rest,
        None => path,
    }
}

/// A store without its files.
#[derive(Clone, Copy, Debug)]
pub struct Settings<'a> {
    /// Its folders.
    pub dirs: &'a Dirs,
    /// The namespace in which all names are read, if there is one (`gitnamespaces`).
    pub namespace: &'a Option<Namespace>,
    /// The kind of its ids.
    pub kind: Kind,
    /// Whether a reference with a component such as `CON` is a fault.
    pub prohibit_windows_device_names: bool,
    /// Whether a name is asked in composed Unicode where records are asked (`core.precomposeUnicode` of `git config`).
    pub precompose_unicode: bool,
}

impl Settings<'_> {
    ghost use Rattle.std.specs.Prelude.{◌≡◌, Some, IfOk, MatchOption, vec_items};
    ghost use Rattle.std.specs.Bool.{OnTrue};
    ghost use Rattle.std.specs.Option.{option_map};
    ghost use Rattle.gix_ref_name.specs.Names.{full_bytes, full_ref_bytes};
    ghost use Rattle.gix_ref_theory.specs.ConcreteStore.{below_folders};
    ghost use Rattle.gix_ref_lookup.specs.StoreLayout.{folders_of};
    ghost use Rattle.gix_ref_lookup.specs.Lookups.{meaning_in, HasNoKey};

    /// The path of the loose file of a name. The error reports that there was no memory for it.
    pub fn place(self, alloc: Global, name: FullNameRef<'_>) -> Result<Vec<u8>, AllocError>
        ensures { IfOk result (λ place. place.items
            ≡ (meaning_in self.entry).place (full_ref_bytes name.entry)) }
    {
        layout_in(self.dirs, self.namespace).loose(alloc, name)
    }

    /// The path of the log of a name. The error reports that there was no memory for it.
    pub fn log(self, alloc: Global, name: FullNameRef<'_>) -> Result<Vec<u8>, AllocError>
        ensures { IfOk result (λ path. path.items
            ≡ (meaning_in self.entry).log (full_ref_bytes name.entry)) }
    {
        layout_in(self.dirs, self.namespace).log(alloc, name)
    }

    /// The name of the record of a name in `packed-refs`; `None` where each worktree has its own reference. The error
    /// reports that there was no memory for it.
    pub fn packed_key(
        self,
        alloc: Global,
        name: FullNameRef<'_>,
    ) -> Result<Option<Vec<u8>>, AllocError>
        ensures { IfOk result (λ key. option_map vec_items key
            ≡ (meaning_in self.entry).key (full_ref_bytes name.entry)) }
    {
        layout_in(self.dirs, self.namespace).packed_key(alloc, name)
    }

    /// Whether `packed-refs` is asked for a name as it is. Where this is false, the record may still have the same name.
    pub fn key_is_name(self, name: FullNameRef<'_>) -> bool
        ensures { OnTrue result ((meaning_in self.entry).key (full_ref_bytes name.entry)
            ≡ Some (full_ref_bytes name.entry)) }
    {
        layout_in(self.dirs, self.namespace).key_is_name(name)
    }

    /// The key of a name, as a name; `None` where it has none, or one that is no full name. The error reports that there was
    /// no memory for it.
    pub fn key_name(
        self,
        alloc: Global,
        name: FullNameRef<'_>,
    ) -> Result<Option<FullName>, AllocError>
        ensures { IfOk result (λ found. MatchOption found
            (HasNoKey (meaning_in self.entry) (full_ref_bytes name.entry)) (λ key.
            (meaning_in self.entry).key (full_ref_bytes name.entry) ≡ Some (full_bytes key))) }
    {
        let Some(key) = self.packed_key(alloc, name)? else {
            return Ok(None);
        };
        match FullName::try_from(key) {
            Ok(key) => Ok(Some(key)),
            Err(_) => Ok(None),
        }
    }

    /// What lies below the common folder in a path, or else below the git folder, or else the path.
    fn below_folders(self, path: &[u8]) -> &[u8]
        ensures { result.now
            ≡ below_folders (folders_of self.entry.dirs.now self.entry.namespace.now) path.now }
    {
        match rest_below(path, self.dirs.common()) {
            Some(rest) => rest,
            None => below(path, &self.dirs.git_dir),
        }
    }

    /// Whether a reference at this place is a fault: the store prohibits device names, and a component below its folders is
    /// one.
    pub fn is_prohibited(self, place: &[u8]) -> bool
        ensures { result ≡ (meaning_in self.entry).is_prohibited place.now }
    {
        self.prohibit_windows_device_names && has_device_name(self.below_folders(place))
    }

    /// The path of `packed-refs`. The error reports that there was no memory for it.
    pub fn packed_refs_path(self, alloc: Global) -> Result<Vec<u8>, AllocError>
        ensures { IfOk result (λ path. path.items ≡ (meaning_in self.entry).packed_path) }
    {
        let common = self.dirs.common();
        let mut path = Vec::with_capacity(alloc, common.len().saturating_add(12))?;
        path.extend_from_slice(common)?;
        path.extend_from_slice(b"/packed-refs")?;
        Ok(path)
    }
}
