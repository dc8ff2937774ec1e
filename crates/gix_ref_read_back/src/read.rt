//! A lookup and a listing after a transaction.
ghost use Rattle.std.specs.Prelude.{IfOk, IfErr};
ghost use Rattle.gix_ref_name.specs.Names.{partial_ref_bytes};
ghost use Rattle.gix_ref_packed.specs.OpenFiles.{HasReadFault};
ghost use Rattle.gix_ref_read_back.specs.WholeRuns.{ReadsAfter, IsNotMade};

use crate::error::Error;
use crate::list::list;
use crate::make::make;
use gix_ref_edits::transaction::RefEdit;
use gix_ref_files::files::Files;
use gix_ref_log::actor::SignatureRef;
use gix_ref_name::name::PartialNameRef;
use gix_ref_object::object::{Find, Never};
use gix_ref_store::file::Store;
use gix_ref_store::file::find::existing;
use gix_ref_store::file::iter::{self, loose_then_packed};
use gix_ref_store::file::transaction::{Done, PackedRefs};
use gix_ref_store::raw::Reference;
use std::alloc::Global;

/// Edits that were committed, and what was found and listed after them.
#[derive(Debug, Drop)]
pub struct Read<T: Find = Never> {
    /// What the commit returned.
    pub done: Done<T>,
    /// What the lookup returned.
    pub found: Result<Reference, existing::Error>,
    /// The items of the listing, or why there is none.
    pub items: Result<Vec<Result<Reference, loose_then_packed::Error>>, iter::Error>,
}

/// Prepares the edits, commits them, looks the name up and lists the names that begin with the prefix, as `commit_then_find` and
/// `commit_then_list` do: both answer of the same files, and so of the same edited references.
///
/// `Prepare` where the edits are refused, and `Commit` where their commit fails; then nothing is read.
pub fn commit_then_read<F: Files, T: Find>(
    alloc: Global,
    store: &mut Store<F>,
    packed_refs: PackedRefs<T>,
    edits: Vec<RefEdit>,
    committer: Option<SignatureRef<'_>>,
    name: PartialNameRef<'_>,
    prefix: &[u8],
) -> Result<Read<T>, Error<T>>
    ensures read { IfOk result
        (λ r. ReadsAfter F.honest F.means F.faults T.claims T.meaning packed_refs
        F.Reader.ReadAt store.old store.new committer.entry edits.items
        r.done (partial_ref_bytes name.entry) prefix.now r.found r.items) }
    ensures not_made { IfErr result
        (IsNotMade F.honest F.means F.faults T.claims T.meaning packed_refs
        (HasReadFault F.Reader.faults) store.old store.new
        committer.entry edits.items) }
{
    match make(alloc, store, packed_refs, edits, committer) {
        Ok(done) => {
            let found = store.find(alloc, name);
            let items = list(alloc, store, prefix);
            Ok(Read { done, found, items })
        }
        Err(error) => Err(error),
    }
}
