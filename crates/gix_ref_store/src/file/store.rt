//! The file store: its folders, and its options.
ghost use Rattle.std.specs.Prelude.{◌≡◌};
ghost use Rattle.gix_ref_lookup.specs.CleanPaths.{are_clean};

use crate::store::{Options, WriteReflog};
use gix_ref_hash::hash::Kind;
use gix_ref_lookup::folders::{Dirs, dirs_are_compatible, is_clean_path, resolved};
use gix_ref_lookup::layout::layout_in;
use gix_ref_name::name::FullNameRef;
use gix_ref_name::namespace::Namespace;
use std::alloc::{AllocError, Global};
use std::fmt::Debug;
use thiserror::Error;

/// The threshold of a new store, in bytes.
const PACKED_MMAP_THRESHOLD: u64 = 32_768;

/// A store of references in files: loose files below the git folder and the common folder. As gix-ref's `file::Store`.
#[derive(Drop)]
pub struct Store<F> {
    /// When log lines are written.
    pub write_reflog: WriteReflog,
    /// The namespace in which all names are read and written, if there is one (`gitnamespaces`).
    pub namespace: Option<Namespace>,
    /// Whether references with a component such as `CON` are faults, and edits of them refused.
    pub prohibit_windows_device_names: bool,
    /// Whether lookups that ask records, listings and the names of edits use composed Unicode (`core.precomposeUnicode` of
    /// `git config`).
    pub precompose_unicode: bool,
    pub(crate) files: F,
    pub(crate) dirs: Dirs,
    pub(crate) object_hash: Kind,
    pub(crate) packed_mmap_threshold: u64,
}

/// Why there is no store in these folders. The files are handed back.
#[derive(Debug, Drop, Error)]
#[error_bound(F: Debug)]
pub enum Error<F> {
    /// A folder is not a clean path: it is empty, ends with a slash, or has a NUL, an empty component except for one leading
    /// slash, or a component `.` or `..`.
    #[error("a folder of the repository is not a clean path")]
    PathNotClean { files: F },
    /// One of the folders lies in the other, and the git folder is not that of a linked worktree,
    /// `<common folder>/worktrees/<one component>`.
    #[error("one folder of the repository lies in the other")]
    FoldersMeet { files: F },
}

/// Whether both folders are clean.
fn are_clean_paths(git_dir: &Vec<u8>, common_dir: &Option<Vec<u8>>) -> bool
    ensures { result ≡ are_clean git_dir.now common_dir.now }
{
    is_clean_path(git_dir) && is_clean_path(resolved(git_dir, common_dir))
}

impl<F> Store<F> {
    ghost use Rattle.std.specs.Prelude.{◌≡◌, IfOk, MatchResult, Some, None};
    ghost use Rattle.gix_ref_target.specs.Layout.{packed_refs};
    ghost use Rattle.gix_ref_name.specs.Names.{full_ref_bytes};
    ghost use Rattle.std.specs.Option.{option_map};
    ghost use Rattle.gix_ref_store.specs.Options.{default_options};
    ghost use Rattle.gix_ref_store.specs.Store.{files_of, folders, given_common, meaning_of, IsMade, AreDirs, HasNoStore};

    /// The store in a git folder that is the common folder too, with the default options. The folder is bytes with
    /// slashes; `object_hash` is the kind of all ids. `PathNotClean` hands the files back. As gix-ref's
    /// `file::Store::at`.
    ///
    /// ```text
    /// let store = Store::at(Disk::new(rt.clone()?), b".git".to_vec(alloc)?, Kind::Sha1)?;
    /// ```
    pub fn at(files: F, git_dir: Vec<u8>, object_hash: Kind) -> Result<Store<F>, Error<F>>
        ensures made { IfOk result (IsMade files git_dir None object_hash default_options) }
        ensures found { MatchResult result (λ _. AreDirs git_dir None)
            (HasNoStore files git_dir None) }
    {
        Store::at_opts(files, git_dir, object_hash, Options::default())
    }

    /// As `at`, with options: `PathNotClean` hands the files back. As gix-ref's `file::Store::at_opts`.
    ///
    /// ```text
    /// let options = Options { write_reflog: WriteReflog::Disable, ..Options::default() };
    /// let store = Store::at_opts(files, b".git".to_vec(alloc)?, Kind::Sha1, options)?;
    /// ```
    pub fn at_opts(
        files: F,
        git_dir: Vec<u8>,
        object_hash: Kind,
        options: Options,
    ) -> Result<Store<F>, Error<F>>
        ensures made { IfOk result (IsMade files git_dir None object_hash options) }
        ensures found { MatchResult result (λ _. AreDirs git_dir None)
            (HasNoStore files git_dir None) }
    {
        Store::in_dirs(files, git_dir, None, object_hash, options)
    }

    /// The store of a linked worktree, whose git folder is `<common_dir>/worktrees/<one component>`, or apart from the
    /// common folder, with the default options (`git worktree`). `PathNotClean` and `FoldersMeet` hand the files back.
    /// As gix-ref's `file::Store::for_linked_worktree`.
    ///
    /// ```text
    /// let git_dir = b".git/worktrees/fix".to_vec(alloc)?;
    /// let store = Store::for_linked_worktree(files, git_dir, b".git".to_vec(alloc)?, Kind::Sha1)?;
    /// ```
    pub fn for_linked_worktree(
        files: F,
        git_dir: Vec<u8>,
        common_dir: Vec<u8>,
        object_hash: Kind,
    ) -> Result<Store<F>, Error<F>>
        ensures made { IfOk result
            (IsMade files git_dir (Some common_dir) object_hash default_options) }
        ensures found { MatchResult result (λ _. AreDirs git_dir (Some common_dir))
            (HasNoStore files git_dir (Some common_dir)) }
    {
        Store::for_linked_worktree_opts(files, git_dir, common_dir, object_hash, Options::default())
    }

    /// As `for_linked_worktree`, with options: `PathNotClean` and `FoldersMeet` hand the files back. As gix-ref's
    /// `file::Store::for_linked_worktree_opts`.
    pub fn for_linked_worktree_opts(
        files: F,
        git_dir: Vec<u8>,
        common_dir: Vec<u8>,
        object_hash: Kind,
        options: Options,
    ) -> Result<Store<F>, Error<F>>
        ensures made { IfOk result (IsMade files git_dir (Some common_dir) object_hash options) }
        ensures found { MatchResult result (λ _. AreDirs git_dir (Some common_dir))
            (HasNoStore files git_dir (Some common_dir)) }
    {
        Store::in_dirs(files, git_dir, Some(common_dir), object_hash, options)
    }

    /// The store in these folders.
    fn in_dirs(
        files: F,
        git_dir: Vec<u8>,
        common_dir: Option<Vec<u8>>,
        object_hash: Kind,
        options: Options,
    ) -> Result<Store<F>, Error<F>>
        ensures made { IfOk result (IsMade files git_dir common_dir object_hash options) }
        ensures found { MatchResult result (λ _. AreDirs git_dir common_dir)
            (HasNoStore files git_dir common_dir) }
    {
        if !are_clean_paths(&git_dir, &common_dir) {
            return Err(Error::PathNotClean { files });
        }
        if !dirs_are_compatible(&git_dir, resolved(&git_dir, &common_dir)) {
            return Err(Error::FoldersMeet { files });
        }
        Ok(Store {
            write_reflog: options.write_reflog,
            namespace: None,
            prohibit_windows_device_names: options.prohibit_windows_device_names,
            precompose_unicode: options.precompose_unicode,
            files,
            dirs: Dirs {
                git_dir,
                common_dir,
            },
            object_hash,
            packed_mmap_threshold: PACKED_MMAP_THRESHOLD,
        })
    }

    /// Ends the store, and gives its files back. Not in gix-ref.
    pub fn into_files(self) -> F
        ensures { result ≡ files_of self }
    {
        let Store {
            write_reflog: _,
            namespace: _,
            prohibit_windows_device_names: _,
            precompose_unicode: _,
            files,
            dirs: _,
            object_hash: _,
            packed_mmap_threshold: _,
        } = self;
        files
    }

    /// The git folder, with the files that belong to this worktree alone (`git rev-parse --git-dir`). As gix-ref's
    /// `file::Store::git_dir`.
    pub fn git_dir(&self) -> &[u8]
        ensures { result.now ≡ (folders self.now).git }
    {
        &self.dirs.git_dir
    }

    /// The common folder, where one was given. As gix-ref's `file::Store::common_dir`.
    pub fn common_dir(&self) -> Option<&[u8]>
        ensures { option_map (λ dir. dir.now) result ≡ given_common self.now }
    {
        match &self.dirs.common_dir {
            Some(dir) => Some(dir.as_slice()),
            None => None,
        }
    }

    /// The common folder of all worktrees: the one that was given, else the git folder.
    /// (`git rev-parse --git-common-dir`, gix-ref's `file::Store::common_dir_resolved`)
    pub fn common_dir_resolved(&self) -> &[u8]
        ensures { result.now ≡ (folders self.now).common }
    {
        self.dirs.common()
    }

    /// The path of `packed-refs` (`git pack-refs`). The error says that there was no memory for it. As gix-ref's
    /// `file::Store::packed_refs_path`.
    pub fn packed_refs_path(&self, alloc: Global) -> Result<Vec<u8>, AllocError>
        ensures { IfOk result (λ path. path.items ≡ packed_refs (folders self.now)) }
    {
        let mut path = self.dirs.common().to_vec(alloc)?;
        path.extend_from_slice(b"/packed-refs")?;
        Ok(path)
    }

    /// The path of the loose file of a name (`git rev-parse --git-path`). The error says that there was no memory for it.
    /// As gix-ref's private `file::Store::reference_path`.
    pub fn reference_path(
        &self,
        alloc: Global,
        name: FullNameRef<'_>,
    ) -> Result<Vec<u8>, AllocError>
        ensures { IfOk result (λ path. path.items
            ≡ (meaning_of self.now).place (full_ref_bytes name.entry)) }
    {
        layout_in(&self.dirs, &self.namespace).loose(alloc, name)
    }
}
