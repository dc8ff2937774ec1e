//! What a commit decides of `packed-refs` before its first write.
ghost use Rattle.std.specs.Prelude.{◌≡◌, ◌≢◌, None, Some, IfOk, IfErr};
ghost use Rattle.gix_ref_files.specs.ReadOnly.{OnlyReads};
ghost use Rattle.gix_ref_transaction.specs.PrepareSteps.{setting_of};
ghost use Rattle.gix_ref_commit.specs.Cleared.{AllInWay, folder_lists};
ghost use Rattle.gix_ref_commit.specs.Decided.{DecidesPacked, LeavesUndecided, OnlyFillsPacked};
ghost use Rattle.gix_ref_commit.specs.Entries.{IsPlanOf, entries};
ghost use Rattle.gix_ref_commit.specs.Failures.{IsOfListing};

use crate::error as commit;
use crate::failure::unlisted;
use crate::folders::{EmptyDirs, find_empty_dirs_in_the_way};
use crate::plan::About;
use gix_ref_files::files::Files;
use gix_ref_files::lock::LockFile;
use gix_ref_files::steps::Planned;
use gix_ref_lookup::folders::Dirs;
use gix_ref_lookup::settings::Settings;
use gix_ref_packed_text::outcome::Rewrite;
use gix_ref_packed_transaction::error::Error;
use gix_ref_packed_transaction::fill::write_text;
use gix_ref_packed_transaction::repack::repack;
use gix_ref_transaction::edit::Edit;
use std::alloc::Global;

/// What becomes of `packed-refs`.
#[derive(Drop)]
pub struct NewPacked {
    /// What becomes of it. A new text is in its lock already.
    pub rewrite: Rewrite,
    /// Its path, where its lock is held; empty where it is not.
    pub path: Vec<u8>,
}

/// What becomes of `packed-refs`, whose lock is held and empty. A new text is put into the lock and synced.
fn rewrite_packed<F: Files>(
    alloc: Global,
    files: &mut F,
    settings: &Settings<'_>,
    edits: &[Edit],
    lock: &LockFile,
) -> Result<Rewrite, Error>
    ensures decided { IfOk result (DecidesPacked F.honest settings.now (Some lock.now) edits.now
        (F.means files.old) (F.means files.new)) }
    ensures undecided { IfErr result (LeavesUndecided F.honest settings.now edits.now
        (F.means files.old) (F.faults files.old) (F.faults files.new)) }
    ensures fills { OnlyFillsPacked F.honest F.means F.faults (Some lock.now) files.old files.new }
{
    let rewrite = repack(alloc, files, settings, edits)?;
    if let Rewrite::Text(text) = &rewrite {
        if let Err(error) = write_text(files, lock, text) {
            return Err(Error::Io(error));
        }
    }
    Ok(rewrite)
}

/// What becomes of `packed-refs` by edits whose locks are held, where its lock is held too. A new text is put into that lock
/// and synced, before anything else of a commit is written; no other file changes.
pub fn decide_packed<F: Files>(
    alloc: Global,
    files: &mut F,
    settings: &Settings<'_>,
    edits: &[Edit],
    packed: &Option<LockFile>,
) -> Result<NewPacked, Error>
    ensures decided { IfOk result (λ new. DecidesPacked F.honest settings.now packed.now edits.now
        (F.means files.old) (F.means files.new) new.rewrite) }
    ensures path { IfOk result (λ new. packed.now ≢ None →
        new.path.items ≡ (setting_of settings.now).packed_path) }
    ensures undecided { IfErr result (LeavesUndecided F.honest settings.now edits.now
        (F.means files.old) (F.faults files.old) (F.faults files.new)) }
    ensures fills { OnlyFillsPacked F.honest F.means F.faults packed.now files.old files.new }
{
    match packed {
        None => Ok(NewPacked {
            rewrite: Rewrite::Unchanged,
            path: Vec::new(alloc),
        }),
        Some(lock) => {
            let path = settings.packed_refs_path(alloc)?;
            let rewrite = rewrite_packed(alloc, files, settings, edits, lock)?;
            Ok(NewPacked { rewrite, path })
        }
    }
}

/// The folders that are in the way of what a commit writes, whose plan is made: before each of its steps those that are removed first. No
/// file changes.
pub fn decide_folders<F: Files>(
    alloc: Global,
    files: &mut F,
    dirs: &Dirs,
    edits: &[Edit],
    plan: &[Planned<'_, About>],
) -> Result<Vec<EmptyDirs>, commit::Error>
    requires { IsPlanOf dirs.now edits.now (entries plan.now) }
    ensures in_way { F.honest → IfOk result (λ ways. AllInWay edits.now dirs.now
        (F.means files.old).tree (folder_lists ways.items) (entries plan.now)) }
    ensures failed { IfErr result
        (IsOfListing edits.now (F.faults files.old) (F.faults files.new)) }
    ensures reads { OnlyReads F.honest F.means F.faults files.old files.new }
{
    match find_empty_dirs_in_the_way(alloc, files, dirs, edits, plan) {
        Ok(ways) => Ok(ways),
        Err(unfinished) => Err(unlisted(alloc, edits, unfinished)),
    }
}
