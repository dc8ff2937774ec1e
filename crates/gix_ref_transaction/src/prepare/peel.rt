//! The objects that updates put into `packed-refs`, each with the object at the end of its tags (`git pack-refs`).
ghost use Rattle.std.specs.Prelude.{◌≡◌, Some, IfOk, IfErr, MatchOption, OnOk, None};
ghost use Rattle.gix_ref_hash.specs.declared.hash.ObjectId.{ObjectId};
ghost use Rattle.gix_ref_edits.specs.RefEdits.{name_of, new_of};
ghost use Rattle.gix_ref_object.specs.Peeling.{peel};
ghost use Rattle.gix_ref_transaction.specs.Packing.{ends_of, finder_in, mode_in, new_object, peeled_in, put_by, OfFinder};
ghost use Rattle.gix_ref_transaction.specs.Peels.{cause_of_peeling, ArePutBy, EndsAt, FirstPutsNone, HasEnd, OrMemory, PutsNone, IsPeelError, IsPeeledOfKind, IsUnpeeled, reported_by_prepare};
ghost use Rattle.gix_ref_transaction.specs.PrepareSteps.{all_asked, ids_in, setting_of, updates};

use crate::edit::{Edit, PackedObject};
use crate::packing::{PackedRefs, is_packed};
use crate::prepare::{Error, packed};
use gix_ref_edits::transaction::Change;
use gix_ref_hash::hash::{Kind, ObjectId};
use gix_ref_lookup::settings::Settings;
use gix_ref_object::object::{Find, FindError};
use gix_ref_object::peel::{PeelError, peel_to_end};
use gix_ref_target::target::Target;
use std::alloc::Global;

/// How a fault of peeling is reported.
fn unpeeled(error: PeelError) -> packed::Error
    ensures { result ≡ cause_of_peeling error }
{
    match error {
        PeelError::NotFound { .. } => packed::Error::Resolve,
        PeelError::TagChainTooLong => packed::Error::TagChainTooLong,
        PeelError::Find => packed::Error::Find(FindError::Failed),
        PeelError::Memory => packed::Error::Memory,
    }
}

/// The object at the end of the tags of an id, which is to be of the kind; `None` where it is the id itself.
pub fn end_of<T: Find>(
    alloc: Global,
    finder: &T,
    kind: Kind,
    id: ObjectId,
) -> Result<Option<ObjectId>, packed::Error>
    ensures end { T.claims finder.now → IfOk result (HasEnd (T.meaning finder.now) id) }
    ensures kind { IfOk result (IsPeeledOfKind kind) }
    ensures refused { T.claims finder.now → IfErr result
        (IsUnpeeled kind id (peel (T.meaning finder.now) 1000 id)) }
{
    let end = match peel_to_end(alloc, finder, id) {
        Ok(end) => end,
        Err(error) => return Err(unpeeled(error)),
    };
    if end == id {
        return Ok(None);
    }
    if end.kind() != kind {
        return Err(packed::Error::OtherHashKind);
    }
    Ok(Some(end))
}

/// How `prepare` reports it that an object has no end that can be put.
fn reported(error: packed::Error) -> Error
    ensures reported { result ≡ reported_by_prepare error }
    ensures error { IsPeelError result }
{
    match error {
        packed::Error::OtherHashKind => Error::OtherHashKind,
        packed::Error::Memory => Error::Memory,
        error => Error::PackedTransactionPrepare(error),
    }
}

/// The object of an update to one.
fn object_of(change: &Change) -> Option<ObjectId>
    ensures { result ≡ new_object (new_of change.now) }
{
    match change {
        Change::Update { new, .. } => match new {
            Target::Object(id) => Some(*id),
            Target::Symbolic(_) => None,
        },
        Change::Delete { .. } => None,
    }
}

/// The finder of objects, if there is one.
fn finder_of<T: Find>(packed_refs: &PackedRefs<T>) -> Option<&T>
    ensures { MatchOption result (finder_in packed_refs.now ≡ None)
        (λ finder. finder_in packed_refs.now ≡ Some finder.now) }
{
    match packed_refs {
        PackedRefs::DeletionsOnly => None,
        PackedRefs::DeletionsAndNonSymbolicUpdates(finder) => Some(finder),
        PackedRefs::DeletionsAndNonSymbolicUpdatesRemoveLooseSourceReference(finder) => {
            Some(finder)
        }
    }
}

/// What an edit puts into `packed-refs`.
fn put_of<T: Find>(
    alloc: Global,
    settings: &Settings<'_>,
    packed_refs: &PackedRefs<T>,
    edit: &Edit,
) -> Result<Option<PackedObject>, Error>
    ensures put { IfOk result (λ put. put ≡ put_by (mode_in packed_refs.now)
        ((setting_of settings.now).key (name_of edit.now.update)) edit.now.update.change
        (peeled_in put)) }
    ensures kind { IfOk result (λ put. IsPeeledOfKind settings.now.kind (peeled_in put)) }
    ensures ends { OfFinder T.claims packed_refs.now →
        IfOk result (EndsAt (ends_of T.meaning packed_refs.now)) }
    ensures refused { OfFinder T.claims packed_refs.now → IfErr result (OrMemory
        (PutsNone T.claims T.meaning settings.now packed_refs.now edit.now.update)) }
    ensures error { IfErr result IsPeelError }
{
    if !is_packed(settings, packed_refs.packing(), &edit.update) {
        return Ok(None);
    }
    match (finder_of(packed_refs), object_of(&edit.update.change)) {
        (Some(finder), Some(target)) => {
            match end_of(alloc, finder, settings.kind, target) {
                Ok(peeled) => Ok(Some(PackedObject { target, peeled })),
                Err(error) => Err(reported(error)),
            }
        }
        _ => Ok(None),
    }
}

/// Decides what each edit puts into `packed-refs`: in the order of the edits, each object of an update that goes into it is peeled. Makes no
/// call of files. (`git pack-refs`)
pub fn peel_edits<T: Find>(
    alloc: Global,
    settings: &Settings<'_>,
    packed_refs: &PackedRefs<T>,
    edits: &mut [Edit],
) -> Result<(), Error>
    ensures asked { all_asked edits.new ≡ all_asked edits.old }
    ensures ids { ids_in edits.new ≡ ids_in edits.old }
    ensures put { OnOk result (ArePutBy T.claims T.meaning settings.now packed_refs.now edits.new) }
    ensures refused { OfFinder T.claims packed_refs.now → IfErr result (OrMemory
        (FirstPutsNone T.claims T.meaning settings.now packed_refs.now (updates edits.old))) }
    ensures error { IfErr result IsPeelError }
{
    for edit in edits.iter_mut() {
        edit.put = put_of(alloc, settings, packed_refs, edit)?;
    }
    Ok(())
}
