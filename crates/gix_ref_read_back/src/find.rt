//! A lookup after a transaction.
ghost use Rattle.std.specs.Prelude.{IfOk, IfErr};
ghost use Rattle.gix_ref_name.specs.Names.{partial_ref_bytes};
ghost use Rattle.gix_ref_packed.specs.OpenFiles.{HasReadFault};
ghost use Rattle.gix_ref_read_back.specs.WholeRuns.{FindsAfter, IsNotMade};

use crate::error::Error;
use crate::make::make;
use gix_ref_edits::transaction::RefEdit;
use gix_ref_files::files::Files;
use gix_ref_log::actor::SignatureRef;
use gix_ref_name::name::PartialNameRef;
use gix_ref_object::object::{Find, Never};
use gix_ref_store::file::Store;
use gix_ref_store::file::find::existing;
use gix_ref_store::file::transaction::{Done, PackedRefs};
use gix_ref_store::raw::Reference;
use std::alloc::Global;

/// Edits that were committed, and what was found after them.
#[derive(Debug, Drop)]
pub struct Found<T: Find = Never> {
    /// What the commit returned.
    pub done: Done<T>,
    /// What the lookup returned.
    pub found: Result<Reference, existing::Error>,
}

/// Prepares the edits, commits them, and looks the name up in the store that the commit left: a full name that is looked up as itself
/// has what the edits made of it.
///
/// `Prepare` where the edits are refused, and `Commit` where their commit fails; then nothing is looked up.
pub fn commit_then_find<F: Files, T: Find>(
    alloc: Global,
    store: &mut Store<F>,
    packed_refs: PackedRefs<T>,
    edits: Vec<RefEdit>,
    committer: Option<SignatureRef<'_>>,
    name: PartialNameRef<'_>,
) -> Result<Found<T>, Error<T>>
    ensures found { IfOk result
        (λ r. FindsAfter F.honest F.means F.faults T.claims T.meaning packed_refs
        F.Reader.ReadAt store.old store.new committer.entry edits.items
        r.done (partial_ref_bytes name.entry) r.found) }
    ensures not_made { IfErr result
        (IsNotMade F.honest F.means F.faults T.claims T.meaning packed_refs
        (HasReadFault F.Reader.faults) store.old store.new
        committer.entry edits.items) }
{
    match make(alloc, store, packed_refs, edits, committer) {
        Ok(done) => {
            let found = store.find(alloc, name);
            Ok(Found { done, found })
        }
        Err(error) => Err(error),
    }
}
