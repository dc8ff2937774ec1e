//! Where a store keeps a name: its loose file, its log, and its key in `packed-refs` (`git worktree`, `gitnamespaces`).
ghost use Rattle.std.specs.Prelude.{◌≡◌, ◌≢◌, ◌++◌, ◌∷◌, List, ℕ, IfOk, MatchOption, Some, None, true, false, codes};
ghost use Rattle.std.specs.Bool.{OnTrue};
ghost use Rattle.std.specs.Option.{option_map};
ghost use Rattle.gix_ref_name.specs.Names.{full_ref_bytes};
ghost use Rattle.gix_ref_name.specs.Categories.{HasCategory};
ghost use Rattle.gix_ref_target.specs.Layout.{Layout, below, paths_in, is_private_ref};
ghost use Rattle.gix_ref_target.specs.Locations.{is_safe, paths_at, row_of, key_outside, NoFrontOfCategory};
ghost use Rattle.gix_ref_target.specs.Locations.Location.{Common as CommonName};
ghost use Rattle.gix_ref_target.specs.RefLayout.{location_value};

use gix_ref_name::name::{Category, FullNameRef};
use std::alloc::{AllocError, Global};

/// Which worktrees a name belongs to, and the name that is kept there (`git worktree`, "REFS").
#[derive(Clone, Copy, Debug, PartialEq, Eq)]
pub enum Location<'a> {
    /// Shared by all worktrees.
    Common(&'a [u8]),
    /// Of the worktree from which it is asked.
    ThisWorktree(&'a [u8]),
    /// Of the main worktree.
    MainWorktree(&'a [u8]),
    /// Of a linked worktree.
    LinkedWorktree { worktree: &'a [u8], name: &'a [u8] },
}

/// Whether each worktree has its own reference of this name below `refs/`.
fn is_private(short: &[u8]) -> bool
    ensures { result ≡ is_private_ref short.now }
{
    short.starts_with(b"refs/bisect/")
        || short.starts_with(b"refs/rewritten/")
        || short.starts_with(b"refs/worktree/")
}

/// The location of a name by its category and its short name.
fn location_in<'a>(category: Category<'a>, name: &'a [u8], short: &'a [u8]) -> Location<'a>
    requires { HasCategory name.now category short.now }
    ensures { (f : Layout) → paths_in f category.entry name.now short.now
        ≡ row_of f (location_value result) }
{
    match category {
        Category::Tag | Category::LocalBranch | Category::RemoteBranch | Category::Note => {
            Location::Common(name)
        }
        Category::PseudoRef | Category::Bisect | Category::Rewritten | Category::WorktreePrivate =>
            { Location::ThisWorktree(name) }
        Category::MainPseudoRef => Location::MainWorktree(short),
        Category::MainRef => if is_private(short) {
            Location::MainWorktree(short)
        } else {
            Location::Common(short)
        },
        Category::LinkedPseudoRef { name: worktree } => Location::LinkedWorktree {
            worktree,
            name: short,
        },
        Category::LinkedRef { name: worktree } => if is_private(short) {
            Location::LinkedWorktree {
                worktree,
                name: short,
            }
        } else {
            Location::Common(short)
        },
    }
}

/// The location of a safe name: one that begins with `refs/` or has a category. `None` for any other name, such as
/// `logs/HEAD`. As the worktree rules of gix-ref's `file::Store` (`git worktree`, "REFS").
pub fn location_of(name: FullNameRef<'_>) -> Option<Location<'_>>
    ensures { MatchOption result (is_safe (full_ref_bytes name.entry) ≡ false)
        (λ at. (is_safe (full_ref_bytes name.entry) ≡ true)
        × ((f : Layout) → paths_at f (full_ref_bytes name.entry) ≡ row_of f (location_value at))) }
{
    if let Some((category, short)) = name.category_and_short_name() {
        return Some(location_in(category, name.to_path(), short));
    }
    if name.to_path().starts_with(b"refs/") {
        return Some(Location::Common(name.to_path()));
    }
    None
}

/// Whether two bytes of what follows `refs/` in a name show that all worktrees share its reference.
fn is_shared_below_refs(rest: &[u8]) -> bool
    ensures { OnTrue result (is_private_ref (codes "refs/" ++ rest.now) ≡ false) }
{
    if rest.len() < 3 {
        return false;
    }
    rest[0] != b'b' && rest[0] != b'w' && rest[2] != b'w'
}

/// Whether the first byte of a name that is not below `refs/` shows that it has no category.
fn is_elsewhere(name: &[u8]) -> bool
    ensures { OnTrue result (NoFrontOfCategory name.now) }
{
    match name.first() {
        Some(b'm' | b'w' | b'_' | b'A'..=b'Z') => false,
        Some(_) => true,
        None => false,
    }
}

/// What follows `refs/` in a name that begins with it.
fn below_refs(name: &[u8]) -> Option<&[u8]>
    ensures { MatchOption result ((rest : List ℕ) → name.now ≢ codes "refs/" ++ rest)
        (λ rest. name.now ≡ codes "refs/" ++ rest.now) }
{
    match name {
        [b'r', b'e', b'f', b's', b'/', rest @ ..] => Some(rest),
        _ => None,
    }
}

/// Whether some bytes of a name show that all worktrees share its reference under the same name: so they do for most
/// names, and then no category need be looked for.
fn is_shared(name: &[u8]) -> bool
    ensures { OnTrue result ((f : Layout) → paths_at f name.now ≡ row_of f (CommonName name.now)) }
{
    match below_refs(name) {
        Some(rest) => is_shared_below_refs(rest),
        None => is_elsewhere(name),
    }
}

/// The location of any name: one that is not safe is shared, under the same name. As `location_of` for safe names.
pub fn location_or_common(name: FullNameRef<'_>) -> Location<'_>
    ensures { (f : Layout) → paths_at f (full_ref_bytes name.entry)
        ≡ row_of f (location_value result) }
{
    if is_shared(name.to_path()) {
        return Location::Common(name.to_path());
    }
    match location_of(name) {
        Some(location) => location,
        None => Location::Common(name.to_path()),
    }
}

/// The name under which `packed-refs` may have a record of this one, outside of any namespace; `None` where each
/// worktree has its own reference. As gix-ref's `packed::Buffer::try_find` finds it.
///
/// ```text
/// packed_key(FullNameRef::try_from("worktrees/a/refs/heads/x")?) // Some(b"refs/heads/x")
/// packed_key(FullNameRef::try_from("HEAD")?)                     // None
/// ```
pub fn packed_key(name: FullNameRef<'_>) -> Option<&[u8]>
    ensures { option_map (λ key. key.now) result ≡ key_outside (full_ref_bytes name.entry) }
{
    match location_or_common(name) {
        Location::Common(key) => Some(key),
        Location::ThisWorktree(_) => None,
        Location::MainWorktree(_) => None,
        Location::LinkedWorktree { .. } => None,
    }
}

/// A path in a folder: the folder, a slash, and the three parts.
fn path_in(
    alloc: Global,
    folder: &[u8],
    front: &[u8],
    namespace: &[u8],
    name: &[u8],
) -> Result<Vec<u8>, AllocError>
    ensures { IfOk result (λ path. path.items
        ≡ below folder.now (front.now ++ (namespace.now ++ name.now))) }
{
    let room = folder.len().saturating_add(1).saturating_add(front.len());
    let rest = namespace.len().saturating_add(name.len());
    let mut path = Vec::with_capacity(alloc, room.saturating_add(rest))?;
    path.extend_from_slice(folder)?;
    path.push(b'/')?;
    path.extend_from_slice(front)?;
    path.extend_from_slice(namespace)?;
    path.extend_from_slice(name)?;
    Ok(path)
}

/// What lies below the common folder for a linked worktree: `worktrees/`, its name, a slash, and the three parts.
fn path_in_worktree(
    alloc: Global,
    worktree: &[u8],
    front: &[u8],
    namespace: &[u8],
    name: &[u8],
) -> Result<Vec<u8>, AllocError>
    ensures { IfOk result (λ path. path.items
        ≡ codes "worktrees/" ++ (worktree.now ++ 47 ∷ (front.now ++ (namespace.now ++ name.now)))) }
{
    let folder = b"worktrees/".to_vec(alloc)?;
    let tail = path_in(alloc, worktree, front, namespace, name)?;
    joined(folder, &tail)
}

/// A text and what follows it.
fn joined(mut text: Vec<u8>, tail: &[u8]) -> Result<Vec<u8>, AllocError>
    ensures { IfOk result (λ path. path.items ≡ text.items ++ tail.now) }
{
    text.extend_from_slice(tail)?;
    Ok(text)
}

/// Two texts, one after the other.
fn concatenated(alloc: Global, front: &[u8], rest: &[u8]) -> Result<Vec<u8>, AllocError>
    ensures { IfOk result (λ text. text.items ≡ front.now ++ rest.now) }
{
    let mut text = Vec::with_capacity(alloc, front.len().saturating_add(rest.len()))?;
    text.extend_from_slice(front)?;
    text.extend_from_slice(rest)?;
    Ok(text)
}

/// The folders in which a store keeps its references, and its namespace: all that decides where a name is kept.
#[derive(Clone, Copy, Debug)]
pub struct RefLayout<'a> {
    /// The git folder, where this worktree keeps its own references.
    pub git_dir: &'a [u8],
    /// The common folder of all worktrees.
    pub common_dir: &'a [u8],
    /// The namespace with its last slash, or nothing.
    pub namespace: &'a [u8],
}

impl<'a> RefLayout<'a> {
    ghost use Rattle.std.specs.Prelude.{◌≡◌, IfOk, Some, vec_items};
    ghost use Rattle.std.specs.Bool.{OnTrue};
    ghost use Rattle.std.specs.Option.{option_map};
    ghost use Rattle.gix_ref_name.specs.Names.{full_ref_bytes};
    ghost use Rattle.gix_ref_target.specs.Locations.{paths_at, row_of};
    ghost use Rattle.gix_ref_target.specs.RefLayout.{layout_of, location_value};

    /// The path of the loose file of a name (`gitrepository-layout`). The error says that there was no memory for it.
    /// As gix-ref's private `file::Store::reference_path`.
    ///
    /// ```text
    /// let layout = RefLayout { git_dir: b"/r", common_dir: b"/r", namespace: b"" };
    /// layout.loose(alloc, FullNameRef::try_from("refs/heads/x")?)? // /r/refs/heads/x
    /// ```
    pub fn loose(self, alloc: Global, name: FullNameRef<'_>) -> Result<Vec<u8>, AllocError>
        ensures { IfOk result (λ path. path.items
            ≡ (paths_at (layout_of self.entry) (full_ref_bytes name.entry)).place) }
    {
        self.loose_in(alloc, location_or_common(name))
    }

    /// The path of the log of a name (`git reflog`). The error says that there was no memory for it. As gix-ref's
    /// private `file::Store::reflog_path`.
    ///
    /// ```text
    /// layout.log(alloc, FullNameRef::try_from("HEAD")?)? // /r/logs/HEAD
    /// ```
    pub fn log(self, alloc: Global, name: FullNameRef<'_>) -> Result<Vec<u8>, AllocError>
        ensures { IfOk result (λ path. path.items
            ≡ (paths_at (layout_of self.entry) (full_ref_bytes name.entry)).log) }
    {
        self.log_in(alloc, location_or_common(name))
    }

    /// The name under which `packed-refs` may have a record of this one, with the namespace in front; `None` where each
    /// worktree has its own reference. The error says that there was no memory for it. As the function `packed_key`, in
    /// a namespace.
    pub fn packed_key(
        self,
        alloc: Global,
        name: FullNameRef<'_>,
    ) -> Result<Option<Vec<u8>>, AllocError>
        ensures { IfOk result (λ key. option_map vec_items key
            ≡ (paths_at (layout_of self.entry) (full_ref_bytes name.entry)).key) }
    {
        self.key_in(alloc, location_or_common(name))
    }

    /// Whether `packed-refs` is asked for a name as it is. Where this is false, the record may still have the same name.
    /// As `packed_key` of the name, compared with it.
    pub fn key_is_name(self, name: FullNameRef<'_>) -> bool
        ensures { OnTrue result ((paths_at (layout_of self.entry) (full_ref_bytes name.entry)).key
            ≡ Some (full_ref_bytes name.entry)) }
    {
        if !self.namespace.is_empty() {
            return false;
        }
        is_shared(name.to_path())
    }

    /// The path of the loose file of a location.
    fn loose_in(self, alloc: Global, location: Location<'_>) -> Result<Vec<u8>, AllocError>
        ensures { IfOk result (λ path. path.items
            ≡ (row_of (layout_of self.entry) (location_value location.entry)).place) }
    {
        match location {
            Location::Common(name) | Location::MainWorktree(name) => {
                path_in(alloc, self.common_dir, b"", self.namespace, name)
            }
            Location::ThisWorktree(name) => path_in(alloc, self.git_dir, b"", self.namespace, name),
            Location::LinkedWorktree { worktree, name } => {
                let tail = path_in_worktree(alloc, worktree, b"", b"", name)?;
                path_in(alloc, self.common_dir, b"", self.namespace, &tail)
            }
        }
    }

    /// The path of the log of a location.
    fn log_in(self, alloc: Global, location: Location<'_>) -> Result<Vec<u8>, AllocError>
        ensures { IfOk result (λ path. path.items
            ≡ (row_of (layout_of self.entry) (location_value location.entry)).log) }
    {
        match location {
            Location::Common(name) | Location::MainWorktree(name) => {
                path_in(alloc, self.common_dir, b"logs/", self.namespace, name)
            }
            Location::ThisWorktree(name) => {
                path_in(alloc, self.git_dir, b"logs/", self.namespace, name)
            }
            Location::LinkedWorktree { worktree, name } => {
                let tail = path_in_worktree(alloc, worktree, b"logs/", self.namespace, name)?;
                path_in(alloc, self.common_dir, b"", b"", &tail)
            }
        }
    }

    /// The key of a location.
    fn key_in(self, alloc: Global, location: Location<'_>) -> Result<Option<Vec<u8>>, AllocError>
        ensures { IfOk result (λ key. option_map vec_items key
            ≡ (row_of (layout_of self.entry) (location_value location.entry)).key) }
    {
        match location {
            Location::Common(name) => Ok(Some(concatenated(alloc, self.namespace, name)?)),
            Location::ThisWorktree(_)
            | Location::MainWorktree(_)
            | Location::LinkedWorktree { .. } => Ok(None),
        }
    }
}
