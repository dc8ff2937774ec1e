//! Updates and deletions from their preparation to their commit.
ghost use Rattle.std.specs.Prelude.{◌≡◌, None, IfSome};
ghost use Rattle.gix_ref_files.specs.Files.{Leaves};
ghost use Rattle.gix_ref_packed.specs.OpenFiles.{HasReadFault};
ghost use Rattle.gix_ref_transaction.specs.OwnLocks.{paths_of};
ghost use Rattle.gix_ref_store.specs.CommitResult.{left_of, mode_handed_back};
ghost use Rattle.gix_ref_store.specs.Prepared.{HasGoodRecords, IsAtRest};
ghost use Rattle.gix_ref_store.specs.Store.{files_of, IsSameStore};
ghost use Rattle.gix_ref_program.specs.Updates.{UpdateMade, IsStopOf, IsLossOf, IsUpdateError, LosesFromRest, error_of};

use gix_ref_edits::transaction::RefEdit;
use gix_ref_files::files::Files;
use gix_ref_log::actor::SignatureRef;
use gix_ref_store::file::Store;
use gix_ref_store::file::transaction::{Done, Failed, PackedRefs, Refused, commit, prepare};
use std::alloc::Global;
use thiserror::Error;

/// Why an update was not made.
#[derive(Debug, Drop, Error)]
pub enum UpdateError {
    /// It was not prepared.
    #[error("{0}")]
    Prepare(prepare::Error),
    /// Its commit failed.
    #[error("{0}")]
    Commit(commit::Error),
}

/// What became of an update.
#[derive(Drop)]
pub struct UpdateReport {
    /// Why it was not made; none where it was.
    pub error: Option<UpdateError>,
    /// What the transaction was to do with `packed-refs`.
    pub packed_refs: PackedRefs,
    /// The paths of locks that could not be removed.
    pub locks_left: Vec<Vec<u8>>,
}

/// Prepares edits, and commits them in their order, with the log lines that are due.
///
/// The result says why they were not made: the first cause against them, or what stopped their commit. Each lock that could
/// not be removed is named. Costs what `prepare` and `commit` do: two calls of files for `packed-refs` and its lock, or five where
/// that file exists; five for a reference that changes, or six for a new one, the sync of its lock, and one sync for each folder from
/// that of its file up to the git folder; and for a log line two, or three where its log is made, its sync, and that of the folders of
/// the log.
/// (`git update-ref`)
pub fn update<F: Files>(
    alloc: Global,
    store: &mut Store<F>,
    packed_refs: PackedRefs,
    committer: Option<SignatureRef<'_>>,
    edits: Vec<RefEdit>,
) -> UpdateReport
    ensures done { result.error ≡ None → UpdateMade F.honest F.means F.faults packed_refs
        store.old store.new committer.entry edits.items (paths_of result.locks_left.items) }
    ensures error { IfSome result.error
        (λ why. IsUpdateError F.honest F.means F.faults packed_refs (HasReadFault F.Reader.faults)
        store.old store.new committer.entry edits.items why (paths_of result.locks_left.items)) }
    ensures leaves { F.honest → Leaves (F.means (files_of store.old)) (F.means (files_of store.new))
        (IsStopOf F.honest F.means F.faults packed_refs store.old committer.entry edits.items) }
    ensures lost { F.honest → LosesFromRest F.means store.old store.new
        (IsLossOf F.honest F.means F.faults packed_refs store.old committer.entry edits.items) }
    ensures settled { F.honest → result.error ≡ None → IsAtRest F.means store.old →
        IsAtRest F.means store.new }
    ensures good { F.honest → result.error ≡ None → HasGoodRecords F.means store.old →
        HasGoodRecords F.means store.new }
    ensures packed_refs { result.packed_refs ≡ packed_refs }
    ensures same { IsSameStore store.old store.new }
{
    match store
        .transaction()
        .packed_refs(packed_refs)
        .prepare(alloc, edits)
    {
        Err(refused) => {
            let Refused {
                error,
                edits: _edits,
                packed_refs,
                locks_left,
            } = refused;
            UpdateReport {
                error: Some(UpdateError::Prepare(error)),
                packed_refs,
                locks_left,
            }
        }
        Ok(prepared) => report_of_commit(prepared.commit(alloc, committer)),
    }
}

/// The report of a commit by its result.
fn report_of_commit(answer: Result<Done, Failed>) -> UpdateReport
    ensures error { result.error ≡ error_of answer }
    ensures packed_refs { result.packed_refs ≡ mode_handed_back answer }
    ensures left { paths_of result.locks_left.items ≡ left_of answer }
{
    match answer {
        Ok(done) => {
            let Done {
                edits: _edits,
                packed_refs,
                locks_left,
            } = done;
            UpdateReport {
                error: None,
                packed_refs,
                locks_left,
            }
        }
        Err(failed) => {
            let Failed {
                error,
                packed_refs,
                locks_left,
            } = failed;
            UpdateReport {
                error: Some(UpdateError::Commit(error)),
                packed_refs,
                locks_left,
            }
        }
    }
}
