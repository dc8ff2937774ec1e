//! Edits from their preparation to their commit.
ghost use Rattle.std.specs.Prelude.{IfOk, IfErr};
ghost use Rattle.gix_ref_packed.specs.OpenFiles.{HasReadFault};
ghost use Rattle.gix_ref_files.specs.Files.{LossesLeave, StopsLeave};
ghost use Rattle.gix_ref_store.specs.Prepared.{HasGoodRecords, IsAtRest};
ghost use Rattle.gix_ref_store.specs.Store.{files_of, IsSameStore};
ghost use Rattle.gix_ref_read_back.specs.PlainPromises.{EachReadsOldOrNew};
ghost use Rattle.gix_ref_read_back.specs.WholeRuns.{MakesEdited, IsNotMade};

use crate::error::Error;
use gix_ref_edits::transaction::RefEdit;
use gix_ref_files::files::Files;
use gix_ref_log::actor::SignatureRef;
use gix_ref_object::object::Find;
use gix_ref_store::file::Store;
use gix_ref_store::file::transaction::{Done, PackedRefs};
use std::alloc::Global;

/// Prepares the edits and commits them, with this use of `packed-refs`: each reference then reads as edited, and does so after every
/// later loss of power. A stop at any moment since the call began, and a loss of power, leaves each reference as before or as edited,
/// whatever becomes of the call (clauses `stops`, `losses`). Returns what `Prepared::commit` returns: the edits as they were prepared, the use of `packed-refs` as it was
/// given, and the locks that could not be removed.
///
/// `Prepare` where the edits are refused, and `Commit` where their commit fails; both hand the use of `packed-refs` back, and the finder
/// in it, if there is one.
pub fn make<F: Files, T: Find>(
    alloc: Global,
    store: &mut Store<F>,
    packed_refs: PackedRefs<T>,
    edits: Vec<RefEdit>,
    committer: Option<SignatureRef<'_>>,
) -> Result<Done<T>, Error<T>>
    ensures made { IfOk result (MakesEdited F.honest F.means F.faults T.claims T.meaning packed_refs
        store.old store.new committer.entry edits.items) }
    ensures not_made { IfErr result
        (IsNotMade F.honest F.means F.faults T.claims T.meaning packed_refs
        (HasReadFault F.Reader.faults) store.old store.new
        committer.entry edits.items) }
    ensures stops { F.honest → HasGoodRecords F.means store.old →
        StopsLeave (F.means (files_of store.old)) (F.means (files_of store.new))
        (EachReadsOldOrNew F.honest F.means F.faults store.old edits.items) }
    ensures losses { F.honest → HasGoodRecords F.means store.old → IsAtRest F.means store.old →
        LossesLeave (F.means (files_of store.old)) (F.means (files_of store.new))
        (EachReadsOldOrNew F.honest F.means F.faults store.old edits.items) }
    ensures same { IsSameStore store.old store.new }
{
    match store.transaction_with(packed_refs).prepare(alloc, edits) {
        Err(refused) => Err(Error::Prepare(refused)),
        Ok(prepared) => match prepared.commit(alloc, committer) {
            Err(failed) => Err(Error::Commit(failed)),
            Ok(done) => Ok(done),
        },
    }
}
