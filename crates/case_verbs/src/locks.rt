//! The verbs of lock files: `locks`, a line for each lock file, and `remove-locks`, such a line for each that was removed.
use anyhow::Result;
use bstr::ByteSlice;
use case_world::transactions::{Said, line};
use case_world::twice::Twice;
use case_world::world::World;
use gix_ref_store::file::Store;
use gix_ref_store::file::locks::{Error, RemoveError};
use std::alloc::Global;

/// What is said where the lock files could not be listed.
fn not_listed(alloc: Global, error: &Error) -> Result<Said> {
    match error {
        Error::Io { path, source } => {
            let path = path.as_slice().as_bstr();
            line(
                alloc,
                format!(in alloc; "refused: {path}: {source}")?.as_str(),
            )
        }
        Error::Memory => line(alloc, "refused: out of memory"),
    }
}

/// Lists the lock files.
fn listed(alloc: Global, store: &mut Store<Twice>) -> Result<Said> {
    match store.locks(alloc) {
        Ok(paths) => Ok(paths),
        Err(error) => not_listed(alloc, &error),
    }
}

/// Removes the lock files.
fn removed(alloc: Global, store: &mut Store<Twice>) -> Result<Said> {
    match store.remove_locks(alloc) {
        Ok(paths) => Ok(paths),
        Err(RemoveError::List(error)) => not_listed(alloc, &error),
        Err(
            RemoveError::RemoveFile {
                removed,
                path,
                source,
            },
        ) => {
            let mut said = removed;
            let path = path.as_slice().as_bstr();
            let text = format!(in alloc; "failed: {path}: {source}")?;
            said.push(text.as_bytes().to_vec(alloc)?)?;
            Ok(said)
        }
    }
}

/// Plays `locks` or `remove-locks`.
pub fn lock_verb(world: &mut World, word: &str) -> Result<Said> {
    let alloc = world.alloc;
    let mut store = world.open()?;
    let said = if word == "locks" {
        listed(alloc, &mut store)
    } else {
        removed(alloc, &mut store)
    };
    world.files = store.into_files();
    said
}
