//! `locks` and `locks --remove`.
ghost use Rattle.std.specs.Prelude.{◌≡◌, ◌++◌, IfOk, codes};
ghost use Rattle.gix_ref_store.specs.Lookup.{LooksUp};
ghost use Rattle.gix_ref_store.specs.Locks.{Unlocks};
ghost use Rattle.gix_ref_store.specs.Store.{IsSameStore};
ghost use Rattle.gix_ref_queries.specs.Answers.{path_lines, FailsAfter, IsUnlistedBy, LocksAnswer, RemovesAnswer};

use crate::answer::{Answer, fatal, said};
use gix_ref_files::files::Files;
use gix_ref_store::file::Store;
use gix_ref_store::file::locks::{Error, RemoveError};
use std::alloc::{AllocError, Global};

/// A line for each path.
pub(crate) fn lines(alloc: Global, paths: &[Vec<u8>]) -> Result<Vec<u8>, AllocError>
    ensures { IfOk result (λ text. text.items ≡ path_lines paths.now) }
{
    let mut text = Vec::new(alloc);
    for path in paths {
        text.extend_from_slice(path)?;
        text.extend_from_slice(b"\n")?;
    }
    Ok(text)
}

/// Why the lock files were not listed.
fn unlisted(alloc: Global, error: Error) -> Result<Answer, AllocError>
    ensures { IfOk result (IsUnlistedBy error) }
{
    match error {
        Error::Io { path, .. } => fatal(alloc, b"cannot look at '", &path, b"'"),
        Error::Memory => Err(AllocError),
    }
}

/// Why a lock file was not removed, after the lines of those that were.
fn failed_after(alloc: Global, text: Vec<u8>, path: &[u8]) -> Result<Answer, AllocError>
    ensures { IfOk result
        (FailsAfter text.items (codes "cannot remove '" ++ (path.now ++ codes "'"))) }
{
    let Answer { errors, status, .. } = fatal(alloc, b"cannot remove '", path, b"'")?;
    Ok(Answer {
        text,
        errors,
        status,
    })
}

/// `locks`: a line for each lock file.
pub fn list_locks<F: Files>(alloc: Global, store: &mut Store<F>) -> Result<Answer, AllocError>
    ensures answers { IfOk result
        (LocksAnswer F.means F.faults F.honest store.old store.new) }
    ensures unchanged { LooksUp F.honest F.means store.old store.new }
{
    match store.locks(alloc) {
        Ok(paths) => Ok(said(alloc, lines(alloc, &paths)?, 0)),
        Err(error) => unlisted(alloc, error),
    }
}

/// `locks --remove`: a line for each lock file that was removed.
pub fn remove_locks<F: Files>(alloc: Global, store: &mut Store<F>) -> Result<Answer, AllocError>
    ensures answers { IfOk result
        (RemovesAnswer F.means F.faults F.honest store.old store.new) }
    ensures leaves { F.honest → Unlocks F.means store.old store.new }
    ensures same { IsSameStore store.old store.new }
{
    match store.remove_locks(alloc) {
        Ok(paths) => Ok(said(alloc, lines(alloc, &paths)?, 0)),
        Err(RemoveError::List(error)) => unlisted(alloc, error),
        Err(RemoveError::RemoveFile { removed, path, .. }) => {
            let text = lines(alloc, &removed)?;
            let answer = failed_after(alloc, text, &path)?;
            Ok(answer)
        }
    }
}
