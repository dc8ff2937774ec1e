//! What a commit reports that ended early.
ghost use Rattle.std.specs.Prelude.{◌≡◌, ◌<◌, ℕ, IfOk, vec_len, if◌then◌else◌, None, Some};
ghost use Rattle.gix_ref_transaction.specs.CommitRenames.{path_in};
ghost use Rattle.gix_ref_commit.specs.Entries.{done_of, packed_done, IsOfEdit};
ghost use Rattle.gix_ref_commit.specs.Entries.{renames_packed};
ghost use Rattle.gix_ref_commit.specs.Failures.{SaysWhy, SaysFault, SaysFile, SaysInWay, SaysLogFault, SaysUnlisted, SaysWhyUnlisted, AllOfEdits, AllWrite, IsWriteOf, of_lines, of_repack};
ghost use Rattle.gix_ref_commit.specs.Unfinished.{tried_after};
ghost use Rattle.gix_ref_commit.specs.declared.plan.About.TheVariants.{Folders};
ghost use Rattle.gix_ref_files.specs.Disk.{folder_of};

use crate::error::Error;
use crate::plan::About;
use crate::run::Unfinished;
use gix_ref_edits::transaction::RefEdit;
use gix_ref_files::files::FileError;
use gix_ref_files::lock::LockFile;
use gix_ref_files::paths::folder_end;
use gix_ref_files::steps::Cause;
use gix_ref_packed_text::outcome::Rewrite;
use gix_ref_reflog::create_or_update;
use gix_ref_transaction::edit::{Edit, LogEffect};
use std::alloc::{AllocError, Global};

impl Unfinished {
    /// How many edits, from the first of n on, have the locks renamed that are written: that of the step at which the run ended too,
    /// where only a sync after its rename failed.
    pub fn done(self, edits: usize) -> usize
        requires { AllOfEdits edits self }
        ensures { result ≡ done_of edits self }
    {
        match self {
            Unfinished::Memory => 0,
            Unfinished::Step {
                about: About::Rename { edit },
                cause: Cause::Sync(_),
            } => edit + 1,
            Unfinished::Step { about, cause: _ } => about.done(edits),
        }
    }

    /// Whether the lock of `packed-refs` was renamed, where this becomes of that.
    pub fn is_packed_renamed(self, rewrite: &Rewrite) -> bool
        ensures { result ≡ packed_done rewrite.now self }
    {
        match self {
            Unfinished::Memory => false,
            Unfinished::Step {
                about: About::Removal { .. },
                cause: _,
            } => is_renamed(rewrite),
            Unfinished::Step {
                about: About::Packed,
                cause: Cause::Sync(_),
            } => is_renamed(rewrite),
            Unfinished::Step { .. } => false,
        }
    }

    /// Of the paths of what a plan removes, those above which empty folders are tried: all, or none where no step was begun.
    pub fn tried(self, removed: &[Vec<u8>]) -> &[Vec<u8>]
        ensures { result.now ≡ tried_after self removed.now }
    {
        match self {
            Unfinished::Memory => &removed[..0],
            Unfinished::Step { .. } => removed,
        }
    }
}

impl About {
    ghost use Rattle.std.specs.Prelude.{◌≡◌};
    ghost use Rattle.gix_ref_commit.specs.Entries.{done_before};

    /// How many edits, from the first of n on, have the locks renamed that are written, before this step.
    fn done(self, edits: usize) -> usize
        ensures { result ≡ done_before edits self }
    {
        match self {
            About::Folders { edit } | About::Line { edit } | About::Rename { edit } => edit,
            About::LogRemoval { .. } | About::Packed | About::Removal { .. } => edits,
        }
    }
}

/// Whether the lock of `packed-refs` is renamed by a commit that is done.
pub fn is_renamed(rewrite: &Rewrite) -> bool
    ensures { result ≡ renames_packed rewrite.now }
{
    match rewrite {
        Rewrite::Text(_) => true,
        Rewrite::Unchanged | Rewrite::Removed => false,
    }
}

/// The lock of `packed-refs`, unless it was renamed: another may hold it by then.
pub fn still_held(packed: Option<LockFile>, renamed: bool) -> Option<LockFile>
    ensures { result ≡ (if renamed then None else packed) }
{
    if renamed { None } else { packed }
}

/// The folder of a path.
fn folder_in(mut path: Vec<u8>) -> Vec<u8>
    ensures { result.items ≡ folder_of path.items }
{
    let end = folder_end(&path);
    path.truncate(end);
    path
}

/// The error of a log whose folders could not be made: by a fault of files, or without one for a file in its path.
fn no_folders(source: Option<FileError>, log: Vec<u8>) -> create_or_update::Error
    ensures fault { (given : FileError) → source ≡ Some given → (at : ℕ) →
        SaysLogFault (Folders at) log.items given result }
    ensures file { source ≡ None → SaysFile log.items result }
{
    create_or_update::Error::CreateLeadingDirectories {
        source,
        reflog_directory: folder_in(log),
    }
}

/// The error of a step at which a call of files failed; `log` is the path of the log of its edit.
fn fault(mut edits: Vec<RefEdit>, log: Vec<u8>, about: About, source: FileError) -> Error
    requires { IsOfEdit (vec_len edits) about }
    ensures { SaysFault edits.items log.items about source result }
{
    match about {
        About::Folders { .. } => Error::CreateOrUpdateRefLog(no_folders(Some(source), log)),
        About::Line { .. } => Error::CreateOrUpdateRefLog(create_or_update::Error::Append {
            source,
            reflog_path: log,
        }),
        About::Rename { edit } => Error::LockCommit {
            source,
            full_name: edits.swap_remove(edit).name,
        },
        About::LogRemoval { edit } => Error::DeleteReflog {
            full_name: edits.swap_remove(edit).name,
            source,
        },
        About::Packed => Error::PackedTransactionCommit(
            gix_ref_packed_transaction::error::Error::Io(source),
        ),
        About::Removal { edit } => Error::DeleteReference {
            full_name: edits.swap_remove(edit).name,
            err: source,
        },
    }
}

/// The error of a step that found something in its way: a file in the path of a log, or a folder at the place of its edit, at its
/// log, or at `packed-refs`.
fn in_way(about: About, place: Vec<u8>, log: Vec<u8>, packed: Vec<u8>) -> Error
    ensures { SaysInWay place.items log.items packed.items about result }
{
    match about {
        About::Folders { .. } => Error::CreateOrUpdateRefLog(no_folders(None, log)),
        About::Line { .. } => Error::FolderInPlace { path: log },
        About::Packed => Error::FolderInPlace { path: packed },
        About::Rename { .. } | About::LogRemoval { .. } | About::Removal { .. } => {
            Error::FolderInPlace { path: place }
        }
    }
}

/// The error of a commit that ended at a step, or before its first. `place` and `log` are those of the edit at which it ended,
/// `packed` the path of `packed-refs`.
pub fn failure(
    edits: Vec<RefEdit>,
    place: Vec<u8>,
    log: Vec<u8>,
    packed: Vec<u8>,
    unfinished: Unfinished,
) -> Error
    requires { AllOfEdits (vec_len edits) unfinished }
    ensures { SaysWhy edits.items place.items log.items packed.items unfinished result }
{
    let Unfinished::Step { about, cause } = unfinished else {
        return Error::Memory;
    };
    match cause {
        Cause::File(source) | Cause::Sync(source) => fault(edits, log, about, source),
        Cause::Unexpected | Cause::Asked => in_way(about, place, log, packed),
    }
}

/// The error of a commit that could not decide its log lines.
pub fn unlogged(error: gix_ref_reflog::error::Error) -> Error
    ensures { result ≡ of_lines error }
{
    match error {
        gix_ref_reflog::error::Error::CreateOrUpdateRefLog(error) => {
            Error::CreateOrUpdateRefLog(error)
        }
        gix_ref_reflog::error::Error::Memory => Error::Memory,
    }
}

/// The error of a commit that could not decide what becomes of `packed-refs`.
pub fn undecided(error: gix_ref_packed_transaction::error::Error) -> Error
    ensures { result ≡ of_repack error }
{
    match error {
        gix_ref_packed_transaction::error::Error::Memory => Error::Memory,
        error => Error::PackedTransactionCommit(error),
    }
}

/// The path of the log of an edit that changes it.
fn log_path(alloc: Global, log: &LogEffect) -> Result<Vec<u8>, AllocError>
    ensures { IfOk result (λ path. path.items ≡ path_in log.now) }
{
    match log {
        LogEffect::Append { log, .. } | LogEffect::Remove { log } => log.as_slice().to_vec(alloc),
        LogEffect::Keep => Ok(Vec::new(alloc)),
    }
}

/// The error of a step, in whose way a folder could not be listed: that of the write.
fn unlisted_step(
    alloc: Global,
    edits: &[Edit],
    about: About,
    source: FileError,
) -> Result<Error, AllocError>
    requires { IsWriteOf edits.now about }
    ensures { IfOk result (SaysUnlisted edits.now about source) }
{
    match about {
        About::Line { edit } => {
            let reflog_path = log_path(alloc, &edits[edit].log)?;
            Ok(Error::CreateOrUpdateRefLog(create_or_update::Error::Append {
                source,
                reflog_path,
            }))
        }
        About::Rename { edit } => {
            let full_name = edits[edit].update.name.as_ref().to_owned(alloc)?;
            Ok(Error::LockCommit { source, full_name })
        }
        About::Packed => Ok(Error::PackedTransactionCommit(
            gix_ref_packed_transaction::error::Error::Io(source),
        )),
        About::Folders { .. } | About::LogRemoval { .. } | About::Removal { .. } => unreachable!(),
    }
}

/// The error of a commit that could not list a folder in the way of one of its writes.
pub fn unlisted(alloc: Global, edits: &[Edit], unfinished: Unfinished) -> Error
    requires { AllWrite edits.now unfinished }
    ensures { SaysWhyUnlisted edits.now unfinished result }
{
    let Unfinished::Step {
        about,
        cause: Cause::File(source),
    } = unfinished
    else {
        return Error::Memory;
    };
    match unlisted_step(alloc, edits, about, source) {
        Ok(error) => error,
        Err(_) => Error::Memory,
    }
}
