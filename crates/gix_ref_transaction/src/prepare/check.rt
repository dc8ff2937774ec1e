//! What each edit has to meet by itself.
ghost use Rattle.std.specs.Prelude.{◌≡◌, ◌↔◌, ◌⊎◌, [], IsTrue, MatchBool, OnOk, IfOk, IfErr, Option, Some};
ghost use Rattle.std.specs.Option.{option_map};
ghost use Rattle.gix_ref_hash.specs.Ids.{id_kind, IsWhole};
ghost use Rattle.gix_ref_name.specs.Names.{full_ref_bytes};
ghost use Rattle.gix_ref_target.specs.Targets.{target_ref_value};
ghost use Rattle.gix_ref_transaction.specs.Causes.{IsValidEdit, IsInvalidEdit, IsWellNamed, IsMisnamed, AllValid, IsFirstInvalid, IsPossible, IsFullTarget, IsOfKind, IsWholeTarget, HasKind, IsNotIo, IsDoubling, names_of};
ghost use Rattle.gix_ref_transaction.specs.PrepareSteps.{setting_of};
ghost use Rattle.gix_ref_edits.specs.DoubledNames.{NoneDoubled};
ghost use Rattle.gix_ref_target.specs.Locations.{is_safe};
ghost use Rattle.gix_ref_edits.specs.RefEdits.{new_of};

use crate::prepare::Error;
use gix_ref_edits::transaction::{
    Change, EditError, PreviousValue, RefEdit, RefEditsExt, SplitError,
};
use gix_ref_hash::hash::{Kind, ObjectId};
use gix_ref_lookup::settings::Settings;
use gix_ref_name::name::FullNameRef;
use gix_ref_target::layout::location_of;
use gix_ref_target::target::TargetRef;
use std::alloc::{AllocError, Global};

/// Whether a change can be: a deletion does not expect that there is no reference.
fn is_possible(change: &Change) -> bool
    ensures { MatchBool result (IsPossible change.now) (IsPossible change.now → ⊥) }
{
    match change {
        Change::Delete {
            expected: PreviousValue::MustNotExist,
            ..
        } => false,
        Change::Delete { .. } | Change::Update { .. } => true,
    }
}

/// Whether the name of a new symbolic target is a full name.
fn is_full_target(new: Option<TargetRef<'_>>) -> bool
    ensures { IsTrue result ↔ IsFullTarget (option_map target_ref_value new.entry) }
{
    match new {
        Some(TargetRef::Symbolic(name)) => FullNameRef::try_from(name.to_path()).is_ok(),
        _ => true,
    }
}

/// Whether an id is of the kind: it has as many bytes.
fn is_id_of(id: &ObjectId, kind: Kind) -> bool
    ensures of_kind { IsTrue result ↔ (id_kind id.now ≡ kind) }
    ensures whole { IsWhole id.now }
{
    id.as_bytes().len() == kind.len_in_bytes()
}

/// Whether the id of a target is of the kind.
fn is_of_kind(target: Option<TargetRef<'_>>, kind: Kind) -> bool
    ensures of_kind { IsTrue result ↔ IsOfKind kind (option_map target_ref_value target.entry) }
    ensures whole { IsWholeTarget (option_map target_ref_value target.entry) }
{
    match target {
        Some(TargetRef::Object(id)) => is_id_of(&id, kind),
        _ => true,
    }
}

/// Whether both ids of an edit are of the kind.
fn has_kind(edit: &RefEdit, kind: Kind) -> bool
    ensures kinds { IsTrue result ↔ HasKind kind edit.now }
    ensures whole { IsWholeTarget (new_of edit.now.change) }
{
    is_of_kind(edit.change.new_value(), kind) && is_of_kind(edit.change.previous_value(), kind)
}

/// Whether a name may be that of a reference.
fn is_safe_name(name: FullNameRef<'_>) -> bool
    ensures { result ≡ is_safe (full_ref_bytes name.entry) }
{
    location_of(name).is_some()
}

/// Whether the store prohibits the place of a name. The error reports that there was no memory for it.
fn is_prohibited(
    alloc: Global,
    settings: &Settings<'_>,
    name: FullNameRef<'_>,
) -> Result<bool, AllocError>
    ensures { IfOk result (λ prohibited. prohibited ≡ (setting_of settings.now).is_prohibited
        ((setting_of settings.now).place (full_ref_bytes name.entry))) }
{
    if !settings.prohibit_windows_device_names {
        return Ok(false);
    }
    let place = settings.place(alloc, name)?;
    Ok(settings.is_prohibited(&place))
}

/// Whether references may have the name: it is safe, and its place is not prohibited. Takes memory only where the store
/// prohibits names.
pub fn check_name(
    alloc: Global,
    settings: &Settings<'_>,
    name: FullNameRef<'_>,
) -> Result<(), Error>
    ensures named { OnOk result
        (IsWellNamed (setting_of settings.now) (full_ref_bytes name.entry)) }
    ensures refused { IfErr result (λ error. (error ≡ Error.Memory)
        ⊎ IsMisnamed (setting_of settings.now) (full_ref_bytes name.entry) error) }
    ensures inside { IfErr result IsNotIo }
{
    if !is_safe_name(name) {
        return Err(Error::UnsafeName);
    }
    if is_prohibited(alloc, settings, name)? {
        return Err(Error::DeviceName);
    }
    Ok(())
}

fn check_edit(alloc: Global, settings: &Settings<'_>, edit: &RefEdit) -> Result<(), Error>
    ensures sound { OnOk result (IsValidEdit (setting_of settings.now) settings.now.kind edit.now) }
    ensures refused { IfErr result (λ error. (error ≡ Error.Memory)
        ⊎ IsInvalidEdit (setting_of settings.now) settings.now.kind edit.now error) }
    ensures inside { IfErr result IsNotIo }
{
    check_name(alloc, settings, edit.name.as_ref())?;
    if !is_possible(&edit.change) {
        return Err(Error::DeleteMustNotExist);
    }
    if !is_full_target(edit.change.new_value()) {
        return Err(Error::TargetNotFull);
    }
    if !has_kind(edit, settings.kind) {
        return Err(Error::OtherHashKind);
    }
    Ok(())
}

/// Each edit by itself, in order, up to the first that is not sound. Takes memory only where the store prohibits names.
pub fn check_edits(alloc: Global, settings: &Settings<'_>, edits: &[RefEdit]) -> Result<(), Error>
    ensures sound { OnOk result
        (AllValid (setting_of settings.now) settings.now.kind [] edits.now) }
    ensures refused { IfErr result (λ error. (error ≡ Error.Memory)
        ⊎ IsFirstInvalid (setting_of settings.now) settings.now.kind [] edits.now error) }
    ensures inside { IfErr result IsNotIo }
{
    for edit in edits {
        check_edit(alloc, settings, edit)?;
    }
    Ok(())
}

/// The names of all edits: no two are the same.
pub fn check_names(alloc: Global, edits: &Vec<RefEdit>) -> Result<(), Error>
    ensures single { OnOk result (NoneDoubled (names_of edits.now.items)) }
    ensures doubled { IfErr result (λ error. (error ≡ Error.Memory)
        ⊎ IsDoubling edits.now.items error) }
    ensures inside { IfErr result IsNotIo }
{
    match edits.assure_one_name_has_one_edit(alloc) {
        Ok(()) => Ok(()),
        Err(EditError::DoubledName(name)) => Err(Error::PreprocessingFailed {
            source: SplitError::DoubledName(name),
        }),
        Err(EditError::Memory) => Err(Error::Memory),
    }
}
