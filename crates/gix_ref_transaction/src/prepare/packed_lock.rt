//! The lock of `packed-refs`, which a transaction takes before it reads the records.
ghost use Rattle.std.specs.Prelude.{◌≡◌, ◌||◌, ◌∷◌, [], true, Some, None, IsSome, OnOk, IfOk, IfErr, MatchBool};
ghost use Rattle.std.specs.List.{list_any};
ghost use Rattle.gix_ref_files.specs.ReadOnly.{OnlyReads};
ghost use Rattle.gix_ref_files.specs.Lock.{lock_of};
ghost use Rattle.gix_ref_files.specs.Tree.{Tree, has_folders};
ghost use Rattle.gix_ref_theory.specs.OnRealTrees.{view_of};
ghost use Rattle.gix_ref_edits.specs.RefEdits.{is_of_reference, mode_of};
ghost use Rattle.gix_ref_theory.specs.Edits.{Mode};
ghost use Rattle.gix_ref_transaction.specs.Causes.{is_packable as may_have_record, packed_taken, packs_edit, IsInTheWay};
ghost use Rattle.gix_ref_transaction.specs.EditLocks.{TakesItsLock};
ghost use Rattle.gix_ref_transaction.specs.HeldLocks.{OnlyTakes};
ghost use Rattle.gix_ref_transaction.specs.PackedLock.{packed_locks_due, IsPackedFault, IsPackedTaken, TakesNoPackedLock, TakesPackedLock};
ghost use Rattle.gix_ref_transaction.specs.Packing.{mode_of_packing};
ghost use Rattle.gix_ref_transaction.specs.PrepareSteps.{setting_of, updates, packed_places};

use crate::edit::{Edit, take_lock as make_lock};
use crate::packing::{Packing, is_packed};
use crate::prepare::Error;
use gix_ref_edits::transaction::{Change, RefEdit, RefLog};
use gix_ref_files::files::{Create, Files, Node};
use gix_ref_files::lock::LockFile;
use gix_ref_lookup::settings::Settings;
use gix_ref_target::layout::packed_key;
use std::alloc::Global;

/// Whether a change is of the reference, and not of its log alone.
fn is_of_the_reference(change: &Change) -> bool
    ensures { result ≡ is_of_reference (mode_of change.now) }
{
    let mode = match change {
        Change::Update { log, .. } => log.mode,
        Change::Delete { log, .. } => *log,
    };
    mode == RefLog::AndReference
}

/// Whether an edit is of a reference that may have a record in `packed-refs`.
pub(crate) fn is_packable(settings: &Settings<'_>, update: &RefEdit) -> bool
    ensures { result ≡ may_have_record (setting_of settings.now) update.now }
{
    is_of_the_reference(&update.change) && packed_key(update.name.as_ref()).is_some()
}

/// Whether one of these edits is of a reference that may have a record in `packed-refs`.
fn may_touch_packed_refs(settings: &Settings<'_>, edits: &[Edit]) -> bool
    ensures { result
        ≡ list_any (λ edit. may_have_record (setting_of settings.now) edit.update) edits.now }
{
    edits.iter().any(|edit| is_packable(settings, &edit.update))
}

/// Whether one of these edits puts an object into `packed-refs`.
fn pack_some(settings: &Settings<'_>, packing: Packing, edits: &[Edit]) -> bool
    ensures { result ≡ list_any
        (λ edit. packs_edit (setting_of settings.now) (mode_of_packing packing) edit.update)
        edits.now }
{
    edits
        .iter()
        .any(|edit| is_packed(settings, packing, &edit.update))
}

/// Whether a file is there.
fn is_file_node(node: Node) -> bool
    ensures { MatchBool result (node ≡ Node.File) (node ≡ Node.File → ⊥) }
{
    match node {
        Node::File => true,
        Node::Folder | Node::Nothing | Node::Blocked => false,
    }
}

/// Whether `packed-refs` may change by these edits: it is there, or an object is put into it.
fn may_change(settings: &Settings<'_>, packing: Packing, edits: &[Edit], is_there: bool) -> bool
    ensures { result ≡ (is_there || list_any
        (λ edit. packs_edit (setting_of settings.now) (mode_of_packing packing) edit.update)
        edits.now) }
{
    is_there || pack_some(settings, packing, edits)
}

/// Takes the lock of `packed-refs`: where that is no file, the folders that lead to it are made first.
fn take_lock<F: Files>(
    files: &mut F,
    lock: LockFile,
    is_there: bool,
) -> Result<Option<LockFile>, Error>
    requires { F.honest → is_there ≡ true → has_folders (F.means files.old).tree lock ≡ true }
    ensures taken { IfOk result
        (λ packed. IsPackedTaken F.honest lock (F.means files.old) (F.means files.new) packed) }
    ensures refused { IfErr result (IsPackedFault F.honest F.means F.faults (lock_of lock ∷ [])
        (λ error. IsInTheWay (F.means files.old).tree (lock_of lock)
        × (error ≡ Error.PackedTransactionAcquire)) files.old files.new) }
    ensures takes { TakesItsLock F.honest F.means F.faults lock files.old files.new }
{
    match make_lock(files, &lock, is_there)? {
        Create::Made => Ok(Some(lock)),
        Create::Standing | Create::Blocked => Err(Error::PackedTransactionAcquire),
    }
}

/// Refused where something is at the path of the lock of `packed-refs`, where that is no file and the lock is not taken.
fn refuse_stale_lock<F: Files>(files: &mut F, lock: LockFile) -> Result<Option<LockFile>, Error>
    ensures none { IfOk result (λ packed. packed ≡ None) }
    ensures free { F.honest → OnOk result ((F.means files.old).tree (lock_of lock) ≡ None) }
    ensures refused { IfErr result (IsPackedFault F.honest F.means F.faults (lock_of lock ∷ [])
        (λ error. IsSome ((F.means files.old).tree (lock_of lock))
        × (error ≡ Error.PackedTransactionAcquire)) files.old files.new) }
    ensures reads { OnlyReads F.honest F.means F.faults files.old files.new }
{
    match files.kind(lock.path())? {
        Node::Nothing | Node::Blocked => Ok(None),
        Node::File | Node::Folder => Err(Error::PackedTransactionAcquire),
    }
}

/// Whether it is known that `packed-refs` is no file, where one of the edits may have a record in it and its lock was not taken.
pub fn known_missing(settings: &Settings<'_>, edits: &[Edit], packed: &Option<LockFile>) -> bool
    ensures { (mode : Mode) (T : Tree) → packed_places packed.now
        ≡ packed_taken (setting_of settings.now) mode T (updates edits.now) → result ≡ true →
        view_of T (setting_of settings.now).packed_path ≡ None }
{
    packed.is_none() && may_touch_packed_refs(settings, edits)
}

/// Takes the lock of `packed-refs`, where one of the edits may have a record in it, and that is a file or an object is put into it; `None`
/// where it is not taken. Three calls of files at the most. After a refusal it is not taken.
pub fn take_packed<F: Files>(
    alloc: Global,
    files: &mut F,
    settings: &Settings<'_>,
    packing: Packing,
    edits: &[Edit],
) -> Result<Option<LockFile>, Error>
    ensures taken { IfOk result (λ packed. TakesPackedLock F.honest settings.now packing edits.now
        (F.means files.old) (F.means files.new) packed) }
    ensures refused { IfErr result (TakesNoPackedLock F.honest F.means F.faults settings.now packing
        edits.now files.old files.new) }
    ensures takes { OnlyTakes F.honest F.means F.faults
        (packed_locks_due settings.now packing (F.means files.old) edits.now)
        files.old files.new }
{
    if !may_touch_packed_refs(settings, edits) {
        return Ok(None);
    }
    let lock = LockFile::at(settings.packed_refs_path(alloc)?)?;
    let is_there = is_file_node(files.kind(lock.place())?);
    if may_change(settings, packing, edits, is_there) {
        take_lock(files, lock, is_there)
    } else {
        refuse_stale_lock(files, lock)
    }
}
