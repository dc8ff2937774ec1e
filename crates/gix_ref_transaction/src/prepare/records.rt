//! The records of the edits of a transaction in `packed-refs`.
ghost use Rattle.std.specs.Prelude.{◌≡◌, ◌⊎◌, ℕ, List, Option, None, true, OnOk, IfOk, IfErr, is_some};
ghost use Rattle.gix_ref_files.specs.Files.{count_after, FaultCounts};
ghost use Rattle.gix_ref_hash.specs.declared.hash.Kind.{Kind};
ghost use Rattle.gix_ref_name.specs.Names.{full_ref_bytes};
ghost use Rattle.gix_ref_target.specs.PackedRecords.{Record, record_named};
ghost use Rattle.gix_ref_files.specs.Tree.{Content};
ghost use Rattle.gix_ref_files.specs.ReadOnly.{OnlyReads};
ghost use Rattle.gix_ref_theory.specs.OnRealTrees.{contents};
ghost use Rattle.gix_ref_packed.specs.OpenFiles.{HasReadFault};
ghost use Rattle.gix_ref_edits.specs.RefEdits.{name_of};
ghost use Rattle.gix_ref_lookup.specs.Lookups.{AreAsked, AreHonest, ArePackedRecords, ArePackedRecordsWith, AreStillAsked, IsOpenableWith, IsOpenedText, IsReady, IsSearched, OfKey, SearchesNone, packed_refs_in};
ghost use Rattle.gix_ref_transaction.specs.Causes.{decoded, id_of_record, packed_id, AllWithIds, AreRecordIds, IsCounted, IsCountedWith, IsHidden, NotHidden, IsIoOrMemory, IsPackedRefusal, OfSomeKey};
ghost use Rattle.gix_ref_transaction.specs.internal.StuckRecords.{AreNotFound, IsAskedId, IsFindError, IsNamedId, IsSearchFault, IsSearchedId, IsStuckKey, is_held};
ghost use Rattle.gix_ref_transaction.specs.PackedCauses.{as_cause, ids_among};
ghost use Rattle.gix_ref_transaction.specs.PrepareSteps.{setting_of, updates, all_asked, ids_in, place_paths, places_of};

use crate::edit::{Edit, deletes_reference};
use crate::prepare::Error;
use gix_ref_files::files::{FileError, Files, ReadAt};
use gix_ref_hash::hash::{Kind, ObjectId};
use gix_ref_lookup::find;
use gix_ref_lookup::find::loose::{Loose, loose_at};
use gix_ref_lookup::find::records::Records;
use gix_ref_lookup::settings::Settings;
use gix_ref_name::name::FullNameRef;
use std::alloc::Global;

/// How a fault of `packed-refs` in a lookup is reported.
fn refused(error: find::Error) -> Error
    ensures { result ≡ as_cause error }
{
    match error {
        find::Error::PackedOpen(error) => Error::Packed(error),
        find::Error::PackedRef(error) => Error::PackedFind(error),
        _ => Error::Memory,
    }
}

/// The id of the record of a key, once `packed-refs` is open.
fn id_at<R: ReadAt + Drop>(
    records: &mut Records<'_, R>,
    key: FullNameRef<'_>,
) -> Result<Option<ObjectId>, Error>
    requires { IsReady records.now }
    ensures found { (kind : Kind) (rs : List Record) → AreAsked kind None records.old rs →
        IfOk result (λ id. id ≡ id_of_record (record_named (full_ref_bytes key.entry) rs)) }
    ensures read { AreHonest records.old → (kind : Kind) → IfOk result
        (IsSearchedId kind records.old (full_ref_bytes key.entry)) }
    ensures failed { IfErr result (IsSearchFault records.old
        (λ kind. IsStuckKey kind records.old (full_ref_bytes key.entry))) }
    ensures counted { (before now : FaultCounts) → IfErr result
        (IsCountedWith (AreHonest records.old) (HasReadFault R.faults) before now) }
    ensures still { (kind : Kind) → AreStillAsked kind None records.old records.new }
    ensures ready { IsReady records.new }
{
    match records.find(key) {
        Ok(Some(found)) => Ok(Some(found.target)),
        Ok(None) => Ok(None),
        Err(error) => Err(refused(error)),
    }
}

/// The id of the record of a name, once `packed-refs` is open.
fn id_of<R: ReadAt + Drop>(
    alloc: Global,
    settings: &Settings<'_>,
    name: FullNameRef<'_>,
    records: &mut Records<'_, R>,
) -> Result<Option<ObjectId>, Error>
    requires { IsReady records.now }
    ensures found { (kind : Kind) (rs : List Record) →
        AreAsked kind None records.old rs → IfOk result
        (λ id. id ≡ packed_id ((setting_of settings.now).key (full_ref_bytes name.entry)) rs) }
    ensures read { AreHonest records.old → (kind : Kind) → IfOk result (IsNamedId
        (setting_of settings.now) kind records.old (full_ref_bytes name.entry)) }
    ensures failed { IfErr result (IsSearchFault records.old (λ kind. OfKey
        (setting_of settings.now) (full_ref_bytes name.entry) (IsStuckKey kind records.old))) }
    ensures counted { (before now : FaultCounts) → IfErr result
        (IsCountedWith (AreHonest records.old) (HasReadFault R.faults) before now) }
    ensures still { (kind : Kind) → AreStillAsked kind None records.old records.new }
    ensures ready { IsReady records.new }
{
    if settings.key_is_name(name) {
        return id_at(records, name);
    }
    match settings.key_name(alloc, name)? {
        Some(key) => id_at(records, key.as_ref()),
        None => Ok(None),
    }
}

/// Whether a loose file was found that holds a target.
fn is_held(loose: &Loose) -> bool
    ensures { result ≡ is_held loose.now }
{
    match loose {
        Loose::Holds(_) => true,
        Loose::Nothing | Loose::Folder | Loose::Undecodable(_) => false,
    }
}

/// Whether a loose file at a place holds a target.
fn holds_target<F: Files>(
    alloc: Global,
    files: &mut F,
    settings: &Settings<'_>,
    place: &[u8],
) -> Result<bool, FileError>
    ensures holds { F.honest → IfOk result (λ holds. holds ≡ is_some (decoded
        (setting_of settings.now) (contents F.means files.old place.now))) }
    ensures count { F.faults files.new ≡ count_after result (F.faults files.old) }
    ensures reads { OnlyReads F.honest F.means F.faults files.old files.new }
{
    let loose = loose_at(alloc, files, place, settings.kind)?;
    Ok(is_held(&loose))
}

/// Passes over a search that failed for the record of an edit whose loose file holds a target, which hides the record; not that of a
/// deletion of the reference, which removes the record too. One call of files at the most.
fn ignore_if_hidden<F: Files>(
    alloc: Global,
    files: &mut F,
    settings: &Settings<'_>,
    edit: &Edit,
    error: Error,
) -> Result<(), Error>
    requires { edit.now.lock ≡ (setting_of settings.now).place (name_of edit.now.update) }
    ensures hidden { F.honest → OnOk result
        (IsHidden (setting_of settings.now) (contents F.means files.old) edit.now.update) }
    ensures asked { F.honest → IfErr result (λ e. IsFindError e →
        IsHidden (setting_of settings.now) (contents F.means files.old) edit.now.update → ⊥) }
    ensures unsound { OnOk result (IsIoOrMemory error → ⊥) }
    ensures sound { IsIoOrMemory error → IfErr result IsIoOrMemory }
    ensures refused { (of_kind : Kind) (packed : Option Content) →
        IsPackedRefusal of_kind packed error → IfErr result (IsPackedRefusal of_kind packed) }
    ensures counted { IfErr result (λ e. (e ≡ error)
        ⊎ IsCounted (F.faults files.old) (F.faults files.new) e) }
    ensures reads { OnlyReads F.honest F.means F.faults files.old files.new }
{
    if deletes_reference(&edit.update.change) || !matches!(&error, Error::PackedFind(_)) {
        return Err(error);
    }
    if holds_target(alloc, files, settings, edit.lock.place())? {
        Ok(())
    } else {
        Err(error)
    }
}

/// The id of the record of an edit, once `packed-refs` is open; `None` also where the record cannot be found and is hidden.
fn id_unless_hidden<F: Files>(
    alloc: Global,
    files: &mut F,
    settings: &Settings<'_>,
    edit: &Edit,
    records: &mut Records<'_, F::Reader>,
) -> Result<Option<ObjectId>, Error>
    requires ready { IsReady records.now }
    requires place { edit.now.lock ≡ (setting_of settings.now).place (name_of edit.now.update) }
    ensures found { (kind : Kind) (rs : List Record) →
        AreAsked kind None records.old rs → IfOk result
        (λ id. id ≡ packed_id ((setting_of settings.now).key (name_of edit.now.update)) rs) }
    ensures read { F.honest → AreHonest records.old → (kind : Kind) → IfOk result
        (IsAskedId (setting_of settings.now) kind (contents F.means files.old) records.old
        edit.now.update) }
    ensures failed { IfErr result (IsSearchFault records.old (λ kind. OfKey
        (setting_of settings.now) (name_of edit.now.update) (IsStuckKey kind records.old))) }
    ensures asked { F.honest → IfErr result (λ e. IsFindError e →
        IsHidden (setting_of settings.now) (contents F.means files.old) edit.now.update → ⊥) }
    ensures counted { IfErr result (IsCountedWith (AreHonest records.old)
        (HasReadFault F.Reader.faults) (F.faults files.old) (F.faults files.new)) }
    ensures still { (kind : Kind) → AreStillAsked kind None records.old records.new }
    ensures ready { IsReady records.new }
    ensures reads { OnlyReads F.honest F.means F.faults files.old files.new }
{
    match id_of(alloc, settings, edit.update.name.as_ref(), records) {
        Ok(id) => Ok(id),
        Err(error) => {
            ignore_if_hidden(alloc, files, settings, edit, error)?;
            Ok(None)
        }
    }
}

/// Gives each edit the id of its record, once `packed-refs` is open.
fn find_ids<F: Files>(
    alloc: Global,
    files: &mut F,
    settings: &Settings<'_>,
    edits: &mut [Edit],
    records: &mut Records<'_, F::Reader>,
) -> Result<(), Error>
    requires ready { IsReady records.old }
    requires places { place_paths edits.old ≡ places_of (setting_of settings.now)
        (updates edits.old) }
    ensures asked { all_asked edits.new ≡ all_asked edits.old }
    ensures found { (kind : Kind) (rs : List Record) →
        AreAsked kind None records.old rs → OnOk result
        (ids_in edits.new ≡ ids_among (setting_of settings.now) rs (updates edits.old)) }
    ensures read { F.honest → AreHonest records.old → (kind : Kind) → OnOk result
        (AllWithIds (IsAskedId (setting_of settings.now) kind (contents F.means files.old)
        records.old) (updates edits.old) (ids_in edits.new)) }
    ensures failed { IfErr result (IsSearchFault records.old (λ kind. OfSomeKey
        (NotHidden F.honest settings.now (contents F.means files.old))
        (IsStuckKey kind records.old) (setting_of settings.now) (updates edits.old))) }
    ensures counted { IfErr result (IsCountedWith (AreHonest records.old)
        (HasReadFault F.Reader.faults) (F.faults files.old) (F.faults files.new)) }
    ensures reads { OnlyReads F.honest F.means F.faults files.old files.new }
{
    for edit in edits.iter_mut() {
        edit.packed = id_unless_hidden(alloc, files, settings, edit, records)?;
    }
    Ok(())
}

/// The records of `packed-refs`, which is not open yet; none where it is known that there is no such file.
fn unopened<'b, R: ReadAt + Drop>(known_missing: bool) -> Records<'b, R>
    ensures asked { (kind : Kind) (file : Option (List ℕ)) (rs : List Record) →
        (known_missing ≡ true → file ≡ None) → ArePackedRecords kind file rs →
        AreAsked kind file result rs }
    ensures searched { (kind of_kind : Kind) (file : Option (List ℕ)) (text : List ℕ) →
        IsSearched kind file result of_kind text → IsOpenedText kind file of_kind text }
    ensures honest { AreHonest result }
    ensures none { (file : Option (List ℕ)) → (known_missing ≡ true → file ≡ None) →
        SearchesNone file result → file ≡ None }
{
    if known_missing {
        Records::None
    } else {
        Records::Unopened
    }
}

/// Opens `packed-refs`, if there is one, and gives each edit the id of its record: one search for each edit whose reference has a
/// key. A search that fails is passed over where the edit is no deletion of the reference and its loose file holds a target. Nothing
/// is opened where it is known that `packed-refs` is no file.
pub fn find_records<F: Files>(
    alloc: Global,
    files: &mut F,
    settings: &Settings<'_>,
    known_missing: bool,
    edits: &mut [Edit],
) -> Result<(), Error>
    requires absent { F.honest → known_missing ≡ true → packed_refs_in settings.now
        (F.means files.old) ≡ None }
    requires places { place_paths edits.old ≡ places_of (setting_of settings.now)
        (updates edits.old) }
    ensures asked { all_asked edits.new ≡ all_asked edits.old }
    ensures found { F.honest → (rs : List Record) → ArePackedRecordsWith settings.now
        (F.means files.old) rs → OnOk result (ids_in edits.new ≡ ids_among (setting_of settings.now)
        rs (updates edits.old)) }
    ensures opened { F.honest → OnOk result (IsOpenableWith settings.now (F.means files.old)) }
    ensures read { F.honest → OnOk result (AreRecordIds (setting_of settings.now)
        settings.now.kind (contents F.means files.old) (updates edits.old) (ids_in edits.new)) }
    ensures failed { IfErr result
        (AreNotFound F.honest (HasReadFault F.Reader.faults) F.means F.faults
        (setting_of settings.now) settings.now.kind (updates edits.old) files.old files.new) }
    ensures reads { OnlyReads F.honest F.means F.faults files.old files.new }
{
    let mut records = unopened(known_missing);
    match records.open(alloc, files, *settings) {
        Ok(()) => find_ids(alloc, files, settings, edits, &mut records),
        Err(error) => Err(refused(error)),
    }
}
