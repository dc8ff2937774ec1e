//! What a partial name may be short for, and the order of a lookup (`gitrevisions`).
ghost use Rattle.std.specs.Prelude.{◌≡◌, ◌++◌, IfOk, IfSome, codes, if◌then◌else◌, map, ◌||◌, nat_eq};
ghost use Rattle.std.specs.List.{Contains};
ghost use Rattle.std.specs.Option.{option_map};
ghost use Rattle.std.specs.Cmp.Lexicographic.{pointwise};
ghost use Rattle.gix_ref_name.specs.NameGrammar.{IsFullName};
ghost use Rattle.gix_ref_name.specs.Names.{partial_ref_bytes, full_bytes};
ghost use Rattle.gix_ref_name.specs.Candidates.{is_full_ref_path as rooted, lookup_prefixes as fronts, remote_head as head_of_remote};

use crate::name::{FullName, PartialNameRef, is_pseudo_name};
use std::alloc::{AllocError, Global};

/// What is put in front of a pseudo name.
static PSEUDO_FRONTS: [&[u8]; 5] = [
    b"",
    b"refs/",
    b"refs/tags/",
    b"refs/heads/",
    b"refs/remotes/",
];

/// What is put in front of a name that begins with `refs/`, `main-worktree/` or `worktrees/`.
static ROOTED_FRONTS: [&[u8]; 4] = [b"", b"tags/", b"heads/", b"remotes/"];

/// What is put in front of any other name.
static OTHER_FRONTS: [&[u8]; 4] = [b"refs/", b"refs/tags/", b"refs/heads/", b"refs/remotes/"];

/// Whether a name begins with `refs/`, `main-worktree/` or `worktrees/`, and so is looked up as it is before anything is put in front
/// of it (`gitrevisions`).
pub fn is_full_ref_path(name: &[u8]) -> bool
    ensures { result ≡ rooted name.now }
{
    name.starts_with(b"refs/")
        || name.starts_with(b"main-worktree/")
        || name.starts_with(b"worktrees/")
}

/// Whether a name is `refs`, `main-worktree` or `worktrees`.
fn is_root(name: &[u8]) -> bool
    ensures { result ≡ (pointwise nat_eq name.now (codes "refs") || pointwise nat_eq name.now
        (codes "main-worktree") || pointwise nat_eq name.now (codes "worktrees")) }
{
    name == b"refs".as_slice()
        || name == b"main-worktree".as_slice()
        || name == b"worktrees".as_slice()
}

/// What goes in front of a name with `/HEAD` after it.
fn remotes_front(name: &[u8]) -> &'static [u8]
    ensures { let whole = name.now ++ codes "/HEAD" in result.now
        ≡ (if rooted whole then codes "remotes/" else codes "refs/remotes/") }
{
    if is_full_ref_path(name) || is_root(name) {
        b"remotes/"
    } else {
        b"refs/remotes/"
    }
}

/// What a lookup puts in front of a partial name, in the order of the lookup (`gitrevisions`). A name of only `A` to
/// `Z` and underscores, as `HEAD`, is looked up as it is first, and then below `refs/`, `refs/tags/`, `refs/heads/` and
/// `refs/remotes/`; a name below `refs/`, `main-worktree/` or `worktrees/` as it is first, and then below `tags/`,
/// `heads/` and `remotes/`; any other name below `refs/`, `refs/tags/`, `refs/heads/` and `refs/remotes/`. As the rules
/// of gix-ref's `file::Store::try_find`.
///
/// ```text
/// lookup_prefixes(PartialNameRef::try_from("main")?) // refs/, refs/tags/, refs/heads/, refs/remotes/
/// ```
pub fn lookup_prefixes(name: PartialNameRef<'_>) -> &'static [&'static [u8]]
    ensures { map (λ f. f.now) result.now ≡ fronts (partial_ref_bytes name.entry) }
{
    let path = name.to_partial_path();
    if is_pseudo_name(path) {
        &PSEUDO_FRONTS
    } else if is_full_ref_path(path) {
        &ROOTED_FRONTS
    } else {
        &OTHER_FRONTS
    }
}

/// The full name that a partial name has after one of the prefixes of its lookup. The error says that there was no memory. As
/// `format!` of both.
pub fn with_prefix(
    alloc: Global,
    front: &[u8],
    name: PartialNameRef<'_>,
) -> Result<FullName, AllocError>
    requires { Contains (fronts (partial_ref_bytes name)) front.now }
    ensures bytes { IfOk result (λ n. full_bytes n ≡ front.now ++ partial_ref_bytes name.entry) }
    ensures valid { IfOk result (λ n. IsFullName (full_bytes n)) }
{
    let path = name.to_partial_path();
    let mut bytes = Vec::with_capacity(alloc, front.len() + path.len())?;
    bytes.extend_from_slice(front)?;
    bytes.extend_from_slice(path)?;
    Ok(FullName { bytes })
}

/// The `HEAD` of the remote that the partial name may be (`gitrevisions`): `refs/remotes/`, the name and `/HEAD`;
/// without `refs/` in front where the name is `refs`, `main-worktree` or `worktrees`, or begins with one of them and a
/// slash. `None` for the name `HEAD`. The error says that there was no memory. As the last rule of gix-ref's
/// `file::Store::try_find`.
pub fn remote_head(alloc: Global, name: PartialNameRef<'_>) -> Result<Option<FullName>, AllocError>
    ensures bytes { IfOk result (λ r. option_map full_bytes r
        ≡ head_of_remote (partial_ref_bytes name.entry)) }
    ensures valid { IfOk result (λ r. IfSome r (λ n. IsFullName (full_bytes n))) }
{
    let path = name.to_partial_path();
    if path == b"HEAD".as_slice() {
        return Ok(None);
    }
    let front = remotes_front(path);
    let mut bytes = Vec::with_capacity(alloc, front.len() + path.len() + 5)?;
    bytes.extend_from_slice(front)?;
    bytes.extend_from_slice(path)?;
    bytes.extend_from_slice(b"/HEAD")?;
    Ok(Some(FullName { bytes }))
}
