//! A commit from its decisions to the release of its locks, from a store.
ghost use Rattle.std.specs.Prelude.{◌≡◌, MatchResult};
ghost use Rattle.gix_ref_transaction.specs.LeftLocks.{HasRoom};
ghost use Rattle.gix_ref_transaction.specs.OwnLocks.{paths_of};
ghost use Rattle.gix_ref_store.specs.CommitOutcomes.{HasSucceeded, HasEndedEarly, EveryMomentIsSafe, KeepsTheRest};
ghost use Rattle.gix_ref_store.specs.Decisions.{left_in};
ghost use Rattle.gix_ref_store.specs.Store.{files_of, with_files};

use crate::file::store::Store;
use crate::file::transaction::commit::decide::Published;
use gix_ref_commit::error::Error;
use gix_ref_commit::failure::{failure, is_renamed, still_held};
use gix_ref_commit::tidy::remove_empty_folders;
use gix_ref_files::files::Files;
use gix_ref_files::lock::LockFile;
use gix_ref_log::actor::SignatureRef;
use gix_ref_transaction::edit::Edit;
use gix_ref_transaction::release::{Failure, Remains, release_all};
use std::alloc::Global;

impl<F: Files> Store<F> {
    /// Decides what becomes of logs and of `packed-refs`, and which folders are in the way, and runs the steps. Then, whether the run failed
    /// or not, it removes the locks that were not renamed, and the empty folders above what is deleted.
    pub(crate) fn carry_out(
        &mut self,
        alloc: Global,
        committer: Option<SignatureRef<'_>>,
        mut edits: Vec<Edit>,
        packed: Option<LockFile>,
        remains: Remains,
    ) -> Result<Remains, Failure<Error>>
        requires room { HasRoom edits remains }
        ensures ended { MatchResult result
            (λ r. HasSucceeded F.honest F.means F.faults self.old self.new committer.entry packed
            edits.items r.edits.items (paths_of r.left.items))
            (λ e. HasEndedEarly F.honest F.means F.faults self.old self.new committer.entry packed
            edits.items e.error) }
        ensures safe { EveryMomentIsSafe F.honest F.means F.faults self.old self.new committer.entry
            packed edits.items (left_in result) }
        ensures kept { KeepsTheRest F.honest F.means F.faults self.old self.new committer.entry
            packed edits.items (left_in result) }
        ensures same { self.new ≡ with_files self.old (files_of self.new) }
    {
        let Published {
            rewrite,
            path,
            removed,
            ended,
        } = match self.publish(alloc, committer, &mut edits, &packed) {
            Ok(published) => published,
            Err(error) => {
                let remains = release_all(&mut self.files, 0, packed, edits, remains);
                return Err(Failure {
                    error,
                    locks_left: remains.left,
                });
            }
        };
        if let Err(unfinished) = ended {
            let done = unfinished.done(edits.len());
            let packed = still_held(packed, unfinished.is_packed_renamed(&rewrite));
            let Remains {
                edits,
                left,
                place,
                log,
            } = release_all(&mut self.files, done, packed, edits, remains);
            remove_empty_folders(&mut self.files, &self.dirs, unfinished.tried(&removed));
            return Err(Failure {
                error: failure(edits, place, log, path, unfinished),
                locks_left: left,
            });
        }
        let done = edits.len();
        let packed = still_held(packed, is_renamed(&rewrite));
        let released = release_all(&mut self.files, done, packed, edits, remains);
        remove_empty_folders(&mut self.files, &self.dirs, &removed);
        Ok(released)
    }
}
