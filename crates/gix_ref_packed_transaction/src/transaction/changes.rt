//! The changes of records that edits make.
ghost use Rattle.std.specs.Prelude.{◌≡◌, ◌≢◌, ◌⊎◌, [], IfErr, IfOk, MatchBool};
ghost use Rattle.std.specs.List.{All};
ghost use Rattle.std.specs.Option.{option_map};
ghost use Rattle.gix_ref_hash.specs.Ids.{id_kind, IsWhole};
ghost use Rattle.gix_ref_name.specs.NameGrammar.{IsFullName};
ghost use Rattle.gix_ref_edits.specs.RefEdits.{name_of};
ghost use Rattle.gix_ref_object.specs.Peeling.{peel};
ghost use Rattle.gix_ref_packed_text.specs.Laws.{IsIdOf};
ghost use Rattle.gix_ref_packed_transaction.specs.Changes.{AreReadable, change_value, change_values};
ghost use Rattle.gix_ref_transaction.specs.Peels.{HasEnd, IsPeeledOfKind};
ghost use Rattle.gix_ref_packed_transaction.specs.RecordChanges.{AreChangesOf, AreSortedChangesOf, IsChangeOf, IsFirstNotTaken, IsNoPut, IsNotTaken, object_put};

use crate::changes::KeyChange;
use crate::transaction::prepare::Error;
use gix_ref_edits::transaction::{Change, RefEdit, RefLog};
use gix_ref_hash::hash::{Kind, ObjectId};
use gix_ref_object::object::Find;
use gix_ref_packed_text::edit::NewRecord;
use gix_ref_target::target::Target;
use gix_ref_transaction::edit::deletes_reference;
use gix_ref_transaction::prepare::peel::end_of;
use std::alloc::Global;

/// The object that a change puts: that of an update of the reference, and not of its log alone.
fn object_of(change: &Change) -> Option<ObjectId>
    ensures { result ≡ object_put change.now }
{
    match change {
        Change::Update { log, new, .. } => match (log.mode, new) {
            (RefLog::AndReference, Target::Object(id)) => Some(*id),
            _ => None,
        },
        Change::Delete { .. } => None,
    }
}

/// Whether an id is of the kind: it has as many bytes.
fn is_id_of(id: &ObjectId, kind: Kind) -> bool
    ensures of_kind { MatchBool result (id_kind id.now ≡ kind) (id_kind id.now ≢ kind) }
    ensures whole { IsWhole id.now }
{
    id.as_bytes().len() == kind.len_in_bytes()
}

/// The record of an object of the kind, with the one at the end of its tags.
fn record_of<T: Find>(
    alloc: Global,
    objects: &T,
    kind: Kind,
    target: ObjectId,
) -> Result<NewRecord, Error>
    ensures target { IfOk result (λ new. new.target ≡ target) }
    ensures kind { IfOk result (λ _. IsIdOf kind target) }
    ensures peeled { IfOk result (λ new. IsPeeledOfKind kind new.peeled) }
    ensures end { T.claims objects.now →
        IfOk result (λ new. HasEnd (T.meaning objects.now) target new.peeled) }
    ensures refused { T.claims objects.now →
        IfErr result (IsNoPut kind (T.meaning objects.now) target) }
{
    if !is_id_of(&target, kind) {
        return Err(Error::OtherHashKind);
    }
    let peeled = end_of(alloc, objects, kind, target)?;
    Ok(NewRecord { target, peeled })
}

/// The change of the record of an edit's name, if it changes that.
fn change_of<T: Find>(
    alloc: Global,
    objects: &T,
    kind: Kind,
    edit: &RefEdit,
) -> Result<Option<KeyChange>, Error>
    ensures change { IfOk result (λ change. IsChangeOf (T.claims objects.now)
        (T.meaning objects.now) kind edit.now (option_map change_value change)) }
    ensures refused { T.claims objects.now → IfErr result (λ error. (error ≡ Error.Memory)
        ⊎ IsNotTaken kind (T.meaning objects.now) edit.now error) }
{
    let put = match object_of(&edit.change) {
        Some(target) => Some(record_of(alloc, objects, kind, target)?),
        None => None,
    };
    if put.is_none() && !deletes_reference(&edit.change) {
        return Ok(None);
    }
    let key = edit.name.as_ref().as_bstr().as_bytes().to_vec(alloc)?;
    Ok(Some(KeyChange { key, put }))
}

/// The changes of records that edits make.
fn changes_of<T: Find>(
    alloc: Global,
    objects: &T,
    kind: Kind,
    edits: &[RefEdit],
) -> Result<Vec<KeyChange>, Error>
    ensures changes { IfOk result (λ changes. AreChangesOf (T.claims objects.now)
        (T.meaning objects.now) kind edits.now (change_values changes.items)) }
    ensures readable { All (λ edit. IsFullName (name_of edit)) edits.now →
        IfOk result (λ changes. AreReadable kind (change_values changes.items)) }
    ensures refused { T.claims objects.now → IfErr result (λ error. (error ≡ Error.Memory)
        ⊎ IsFirstNotTaken kind (T.meaning objects.now) [] edits.now error) }
{
    let mut changes = Vec::new(alloc);
    for edit in edits {
        if let Some(change) = change_of(alloc, objects, kind, edit)? {
            changes.push(change)?;
        }
    }
    Ok(changes)
}

/// The changes of records that edits make, in the order of their names.
pub fn sorted_changes<T: Find>(
    alloc: Global,
    objects: &T,
    kind: Kind,
    edits: &[RefEdit],
) -> Result<Vec<KeyChange>, Error>
    ensures changes { IfOk result (λ changes. AreSortedChangesOf (T.claims objects.now)
        (T.meaning objects.now) kind edits.now (change_values changes.items)) }
    ensures readable { All (λ edit. IsFullName (name_of edit)) edits.now →
        IfOk result (λ changes. AreReadable kind (change_values changes.items)) }
    ensures refused { T.claims objects.now → IfErr result (λ error. (error ≡ Error.Memory)
        ⊎ IsFirstNotTaken kind (T.meaning objects.now) [] edits.now error) }
{
    let mut changes = changes_of(alloc, objects, kind, edits)?;
    changes.sort_unstable_by(|a, b| a.key.as_slice().cmp(b.key.as_slice()));
    Ok(changes)
}
