//! The changes of records that the edits of a transaction make: the records of deleted references are removed, and the objects of
//! updates that are packed are put.
ghost use Rattle.std.specs.Prelude.{◌≡◌, IfOk};
ghost use Rattle.std.specs.Cmp.Lexicographic.{slice_cmp};
ghost use Rattle.std.specs.List.{list_any};
ghost use Rattle.std.specs.List.Sorted.{IsPermutation, IsSorted};
ghost use Rattle.std.specs.Option.{option_map};
ghost use Rattle.std.specs.Ordering.{nat_cmp};
ghost use Rattle.gix_ref_transaction.specs.PrepareSteps.{setting_of};
ghost use Rattle.gix_ref_packed_transaction.specs.Changes.{change_value, change_values, edit_values, keys_in};
ghost use Rattle.gix_ref_packed_transaction.specs.Repacks.{alters_record, new_put};
ghost use Rattle.gix_ref_packed_transaction.specs.internal.ChangedKeys.{key_change, key_changes};

use gix_ref_lookup::settings::Settings;
use gix_ref_packed_text::edit::{NewRecord, RecordEdit};
use gix_ref_transaction::edit::{Edit, PackedObject, deletes_reference};
use std::alloc::{AllocError, Global};

/// A change of the record of a key.
#[derive(Drop)]
pub struct KeyChange {
    /// The full name that the record has in `packed-refs`.
    pub key: Vec<u8>,
    /// What is put in place of the record, or added where there is none; `None` removes the record.
    pub put: Option<NewRecord>,
}

/// Whether an edit puts a record, or deletes a reference of which one was found.
fn alters(edit: &Edit) -> bool
    ensures { result ≡ alters_record edit.now }
{
    edit.put.is_some() || (deletes_reference(&edit.update.change) && edit.packed.is_some())
}

/// Whether one of these edits does.
pub fn alter_some(edits: &[Edit]) -> bool
    ensures { result ≡ list_any alters_record edits.now }
{
    edits.iter().any(alters)
}

/// The ids of the record of an object.
fn record_of(put: Option<PackedObject>) -> Option<NewRecord>
    ensures { result ≡ new_put put }
{
    match put {
        Some(object) => Some(NewRecord {
            target: object.target,
            peeled: object.peeled,
        }),
        None => None,
    }
}

/// The change of the record of an edit's key, if it changes that.
fn change_of(
    alloc: Global,
    settings: &Settings<'_>,
    edit: &Edit,
) -> Result<Option<KeyChange>, AllocError>
    ensures { IfOk result (λ change. option_map change_value change
        ≡ key_change (setting_of settings.now) edit.now) }
{
    if !alters(edit) {
        return Ok(None);
    }
    match settings.packed_key(alloc, edit.update.name.as_ref())? {
        Some(key) => Ok(Some(KeyChange {
            key,
            put: record_of(edit.put),
        })),
        None => Ok(None),
    }
}

/// The changes of records that edits make.
fn changes_of(
    alloc: Global,
    settings: &Settings<'_>,
    edits: &[Edit],
) -> Result<Vec<KeyChange>, AllocError>
    ensures { IfOk result (λ changes. change_values changes.items
        ≡ key_changes (setting_of settings.now) edits.now) }
{
    let mut changes = Vec::new(alloc);
    for edit in edits {
        if let Some(change) = change_of(alloc, settings, edit)? {
            changes.push(change)?;
        }
    }
    Ok(changes)
}

/// The changes of records that edits make, in the order of their keys.
pub fn sorted_changes(
    alloc: Global,
    settings: &Settings<'_>,
    edits: &[Edit],
) -> Result<Vec<KeyChange>, AllocError>
    ensures moved { IfOk result (λ changes. IsPermutation
        (key_changes (setting_of settings.now) edits.now) (change_values changes.items)) }
    ensures sorted { IfOk result (λ changes. IsSorted (slice_cmp nat_cmp)
        (keys_in (change_values changes.items))) }
{
    let mut changes = changes_of(alloc, settings, edits)?;
    changes.sort_unstable_by(|a, b| a.key.as_slice().cmp(b.key.as_slice()));
    Ok(changes)
}

/// The edits of records that make these changes.
pub fn record_edits<'a>(
    alloc: Global,
    changes: &'a [KeyChange],
) -> Result<Vec<RecordEdit<'a>>, AllocError>
    ensures { IfOk result (λ edits. edit_values edits.items ≡ change_values changes.now) }
{
    let mut edits = Vec::with_capacity(alloc, changes.len())?;
    for change in changes {
        edits.push(RecordEdit {
            key: &change.key,
            put: change.put,
        })?;
    }
    Ok(edits)
}
