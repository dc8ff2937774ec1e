//! The part of a log's path below `logs/`, and the logs that are made without being asked for.
ghost use Rattle.std.specs.Prelude.{◌≡◌, ◌++◌, ◌∷◌, [], IfOk};
ghost use Rattle.gix_ref_target.specs.RefLayout.{location_value};
ghost use Rattle.gix_ref_name.specs.Names.{full_ref_bytes};
ghost use Rattle.gix_ref_reflog.specs.MadeLogs.{begins_with, below_logs, is_logged_by_default, location_name};

use gix_ref_name::name::FullNameRef;
use gix_ref_target::layout::{Location, location_or_common};
use std::alloc::{AllocError, Global};

/// The name under which a worktree keeps a reference.
fn location_name(location: Location<'_>) -> &[u8]
    ensures { result.now ≡ location_name (location_value location.entry) }
{
    match location {
        Location::Common(name) | Location::ThisWorktree(name) | Location::MainWorktree(name) =>
            name,
        Location::LinkedWorktree { name, .. } => name,
    }
}

/// The path of the log of a name below `logs/`, in the namespace with this text. The error reports that there was no memory
/// for it.
pub fn below_logs(
    alloc: Global,
    namespace: &[u8],
    name: FullNameRef<'_>,
) -> Result<Vec<u8>, AllocError>
    ensures { IfOk result (λ path. path.items
        ≡ below_logs namespace.now (full_ref_bytes name.entry)) }
{
    let own = location_name(location_or_common(name));
    let mut path = Vec::with_capacity(alloc, namespace.len().saturating_add(own.len()))?;
    path.extend_from_slice(namespace)?;
    path.extend_from_slice(own)?;
    Ok(path)
}

/// Whether the log of a name, in the namespace with this text, is made where log lines are written as usual. The error reports that
/// there was no memory for its path in a namespace.
pub fn makes_log_by_default(
    alloc: Global,
    namespace: &[u8],
    name: FullNameRef<'_>,
) -> Result<bool, AllocError>
    ensures { IfOk result (λ makes. makes
        ≡ is_logged_by_default (below_logs namespace.now (full_ref_bytes name.entry))) }
{
    if namespace.is_empty() {
        return Ok(is_logged_by_default(location_name(location_or_common(name))));
    }
    Ok(is_logged_by_default(&below_logs(alloc, namespace, name)?))
}

/// Whether a path is a folder, or begins with it and a slash.
fn is_or_is_below(path: &[u8], folder: &[u8], with_slash: &[u8]) -> bool
    requires { with_slash.now ≡ folder.now ++ 47 ∷ [] }
    ensures { result ≡ begins_with path.now folder.now }
{
    path == folder || path.starts_with(with_slash)
}

/// Whether a log at this path below `logs/` is made where log lines are written as usual: that of `HEAD`, of a branch, of a
/// remote branch, of a note, or of a reference of a worktree.
pub fn is_logged_by_default(path: &[u8]) -> bool
    ensures { result ≡ is_logged_by_default path.now }
{
    path == b"HEAD".as_slice()
        || is_or_is_below(path, b"refs/heads", b"refs/heads/")
        || is_or_is_below(path, b"refs/remotes", b"refs/remotes/")
        || is_or_is_below(path, b"refs/notes", b"refs/notes/")
        || is_or_is_below(path, b"refs/worktree", b"refs/worktree/")
}
