//! The removal of the lock files of a store.
ghost use Rattle.std.specs.Prelude.{◌≡◌, ◌≢◌, ◌<◌, OnOk, IfOk, IfErr, length, Vec};
ghost use Rattle.std.specs.declared.alloc.Global.{Global};
ghost use Rattle.gix_ref_files.specs.Files.{AtEveryStop, IsMet, NoFewer};
ghost use Rattle.gix_ref_files.specs.declared.files.FileError.TheVariants.{Memory};
ghost use Rattle.gix_ref_lookup.specs.Lookups.{meaning_in};
ghost use Rattle.gix_ref_locks.specs.Removals.{without, IsPartlyWithout, EndsAt, IsPartlyUnlocked, IsStoppedAt, IsUnlocked, IsLeftLocked, IsUnlockFailure};

use crate::locks::{self, list_locks};
use gix_ref_files::files::{FileError, Files};
use gix_ref_lookup::settings::Settings;
use std::alloc::Global;
use thiserror::Error;

/// Why the lock files of a store were not all removed.
#[derive(Debug, Drop, Error)]
pub enum Error {
    /// They could not be listed. Nothing was removed.
    #[error("{0}")]
    List(locks::Error),
    /// The lock file at `path` could not be removed: it is there, or it is gone. Those of `removed` were removed, and no others.
    #[error("the lock of a reference could not be removed: {source}")]
    RemoveFile {
        removed: Vec<Vec<u8>>,
        path: Vec<u8>,
        source: FileError,
    },
}

/// Where a removal of files ended, and why.
#[derive(Clone, Copy, Debug)]
struct Stopped {
    /// The place of the file that could not be removed, from 0. Those before it are removed.
    at: usize,
    /// Why it could not be removed. It is there, or it is gone.
    source: FileError,
}

/// Removes the files at these paths, in order, up to the first that could not be removed. A path where there is no file is passed.
/// One call of files for each. Takes no memory.
fn remove_files<F: Files>(files: &mut F, paths: &[Vec<u8>]) -> Result<(), Stopped>
    ensures removed { F.honest → OnOk result
        ((F.means files.new).tree ≡ without (F.means files.old).tree paths.now) }
    ensures ended { F.honest → IfErr result
        (EndsAt paths.now (F.means files.old).tree (F.means files.new).tree) }
    ensures leaves { F.honest → AtEveryStop F.means files.old files.new
        (IsPartlyWithout paths.now) }
    ensures failed { IfErr result (λ stopped. (stopped.at < length paths.now)
        × (stopped.source ≢ Memory)
        × IsMet stopped.source (F.faults files.old) (F.faults files.new)) }
    ensures no_fewer { NoFewer (F.faults files.old) (F.faults files.new) }
{
    for (at, path) in paths.iter().enumerate() {
        if let Err(source) = files.remove_file(path) {
            return Err(Stopped { at, source });
        }
    }
    Ok(())
}

/// The error of a removal that ended at one of these paths.
fn stopped_at(mut paths: Vec<Vec<u8>>, stopped: Stopped) -> Error
    requires { stopped.at < length paths.items }
    ensures { IsStoppedAt paths.items stopped result }
{
    let path = paths.remove(stopped.at);
    paths.truncate(stopped.at);
    Error::RemoveFile {
        removed: paths,
        path,
        source: stopped.source,
    }
}

/// Removes the lock files of a store, in the order of their paths, and returns the paths of those that were removed. `List` where
/// they could not be listed, and `RemoveFile` where one could not be removed, with those that were removed before it.
///
/// Costs one call of files for each lock, beside those of `list_locks`.
pub fn remove_locks<F: Files>(
    alloc: Global,
    files: &mut F,
    settings: Settings<'_>,
) -> Result<Vec<Vec<u8>>, Error>
    ensures removed { F.honest → IfOk result (λ paths. IsUnlocked (meaning_in settings.entry)
        (F.means files.old).tree (F.means files.new).tree paths.items) }
    ensures stopped { F.honest → IfErr result (IsLeftLocked (meaning_in settings.entry)
        (F.means files.old).tree (F.means files.new).tree) }
    ensures leaves { F.honest → AtEveryStop F.means files.old files.new
        (IsPartlyUnlocked (meaning_in settings.entry)) }
    ensures failed { IfErr result
        (IsUnlockFailure settings.entry (F.faults files.old) (F.faults files.new)) }
    ensures no_fewer { NoFewer (F.faults files.old) (F.faults files.new) }
{
    let paths = match list_locks(alloc, files, settings) {
        Ok(paths) => paths,
        Err(error) => return Err(Error::List(error)),
    };
    match remove_files(files, &paths) {
        Ok(()) => Ok(paths),
        Err(stopped) => Err(stopped_at(paths, stopped)),
    }
}
