//! What a commit decides before its first write, and the run of its steps, from a store.
ghost use Rattle.std.specs.Prelude.{◌≡◌, IfOk, IfErr};
ghost use Rattle.gix_ref_reflog.specs.AskedEdits.{all_but_logs};
ghost use Rattle.gix_ref_commit.specs.Decided.{OnlyFillsPacked};
ghost use Rattle.gix_ref_store.specs.Decisions.{IsPublished, IsUndecided, TextsAreDecided};
ghost use Rattle.gix_ref_store.specs.Store.{files_of, with_files};

use crate::file::settings::settings;
use crate::file::store::Store;
use gix_ref_commit::decide::{NewPacked, decide_folders, decide_packed};
use gix_ref_commit::error::Error;
use gix_ref_commit::failure::{undecided, unlogged};
use gix_ref_commit::plan::plan_commit;
use gix_ref_commit::run::{Unfinished, run_plan};
use gix_ref_commit::tidy::removed_paths;
use gix_ref_files::files::Files;
use gix_ref_files::lock::LockFile;
use gix_ref_log::actor::SignatureRef;
use gix_ref_packed_text::outcome::Rewrite;
use gix_ref_reflog::decide::decide_logs;
use gix_ref_transaction::edit::Edit;
use std::alloc::Global;

/// A commit whose steps were run: what was decided of it before its first write, and how the run ended.
#[derive(Drop)]
pub(crate) struct Published {
    /// What became of `packed-refs`. A new text was in its lock before the run.
    pub rewrite: Rewrite,
    /// The path of `packed-refs`, where its lock is held; empty where it is not.
    pub path: Vec<u8>,
    /// The paths of the logs and loose files that are removed.
    pub removed: Vec<Vec<u8>>,
    /// Why the steps were not run to their end, if they were not.
    pub ended: Result<(), Unfinished>,
}

impl<F: Files> Store<F> {
    /// Decides what becomes of the log of each edit, and of `packed-refs`, whose new text is put into its lock. No other file
    /// changes.
    fn decide_texts(
        &mut self,
        alloc: Global,
        committer: Option<SignatureRef<'_>>,
        edits: &mut Vec<Edit>,
        packed: &Option<LockFile>,
    ) -> Result<NewPacked, Error>
        ensures alike { all_but_logs edits.new.items ≡ all_but_logs edits.old.items }
        ensures decided { IfOk result
            (λ new. TextsAreDecided F.honest F.means F.faults self.old self.new committer.entry
            packed.now edits.old.items edits.new.items new.rewrite new.path.items) }
        ensures failed { IfErr result (IsUndecided F.honest F.means F.faults self.old self.new
            committer.entry edits.old.items) }
        ensures fills { OnlyFillsPacked F.honest F.means F.faults packed.now (files_of self.old)
            (files_of self.new) }
        ensures same { self.new ≡ with_files self.old (files_of self.new) }
    {
        let settings = settings!(self);
        let mode = self.write_reflog;
        if let Err(error) = decide_logs(alloc, &mut self.files, &settings, mode, committer, edits) {
            return Err(unlogged(error));
        }
        match decide_packed(alloc, &mut self.files, &settings, edits, packed) {
            Ok(new_packed) => Ok(new_packed),
            Err(error) => Err(undecided(error)),
        }
    }

    /// Decides all of a commit before its first write: what becomes of the log of each edit, and of `packed-refs`, whose new text is put into
    /// its lock, and which folders are in the way of its writes. Then it runs the steps, up to the first that fails or finds something in its
    /// way. Where the decisions fail, no other file has changed.
    pub(crate) fn publish(
        &mut self,
        alloc: Global,
        committer: Option<SignatureRef<'_>>,
        edits: &mut Vec<Edit>,
        packed: &Option<LockFile>,
    ) -> Result<Published, Error>
        ensures alike { all_but_logs edits.new.items ≡ all_but_logs edits.old.items }
        ensures published { IfOk result (IsPublished F.honest F.means F.faults self.old self.new
            committer.entry packed.now edits.old.items edits.new.items) }
        ensures failed { IfErr result (IsUndecided F.honest F.means F.faults self.old self.new
            committer.entry edits.old.items) }
        ensures fills { IfErr result (λ _. OnlyFillsPacked F.honest F.means F.faults packed.now
            (files_of self.old) (files_of self.new)) }
        ensures same { self.new ≡ with_files self.old (files_of self.new) }
    {
        let NewPacked { rewrite, path } = self.decide_texts(alloc, committer, edits, packed)?;
        let Ok(removed) = removed_paths(alloc, edits) else {
            return Err(Error::Memory);
        };
        let Ok(plan) = plan_commit(alloc, &self.dirs, edits, packed, &rewrite) else {
            return Err(Error::Memory);
        };
        let ways = match decide_folders(alloc, &mut self.files, &self.dirs, edits, &plan) {
            Ok(ways) => ways,
            Err(error) => return Err(error),
        };
        let ended = run_plan(alloc, &mut self.files, plan, &ways);
        Ok(Published {
            rewrite,
            path,
            removed,
            ended,
        })
    }
}
