//! All locks of a transaction, or none.
ghost use Rattle.std.specs.Prelude.{◌≡◌, ◌<◌, ◌≤◌, ℕ, List, [], None, true, OnOk, IfOk, IfErr, MatchResult, length, vec_len};
ghost use Rattle.std.specs.Vec.{vec_capacity};
ghost use Rattle.gix_ref_files.specs.Files.{disk_of};
ghost use Rattle.gix_ref_files.specs.Settled.{IsWholeAt};
ghost use Rattle.gix_ref_files.specs.Tree.{Path};
ghost use Rattle.gix_ref_packed.specs.OpenFiles.{HasReadFault};
ghost use Rattle.gix_ref_target.specs.PackedRecords.{Record};
ghost use Rattle.gix_ref_files.specs.ReadOnly.{OnlyReads};
ghost use Rattle.gix_ref_theory.specs.OnRealTrees.{contents};
ghost use Rattle.gix_ref_lookup.specs.Lookups.{ArePackedRecordsWith, IsOpenableWith, packed_refs_in};
ghost use Rattle.gix_ref_transaction.specs.Causes.{AreRecordIds};
ghost use Rattle.gix_ref_transaction.specs.HeldLocks.{HoldAllByIds, HoldAllFound, HoldAllDue, NoneIsHeld, RemovesAgain, RemovesDueAgain, due_locks, edit_locks, AreReady, HoldsPackedLock, IsTakingFault, OnlyTakes};
ghost use Rattle.gix_ref_transaction.specs.LeftLocks.{HasRoom};
ghost use Rattle.gix_ref_transaction.specs.Parents.{parents_in};
ghost use Rattle.gix_ref_transaction.specs.PackedCauses.{ids_among};
ghost use Rattle.gix_ref_transaction.specs.Packing.{mode_in, mode_of_packing};
ghost use Rattle.gix_ref_transaction.specs.Peels.{ArePutBy, CausesNoHold, CausesNoLock, CausesNoPut};
ghost use Rattle.gix_ref_transaction.specs.PrepareSteps.{setting_of, updates, all_asked, all_given, ids_in, place_paths, places_of};

use crate::edit::Edit;
use crate::packing::{PackedRefs, Packing};
use crate::prepare::Error;
use crate::prepare::packed_lock::{known_missing, take_packed};
use crate::prepare::peel::peel_edits;
use crate::prepare::records::find_records;
use crate::prepare::split::SplitEdits;
use crate::prepare::take::take_locks;
use crate::release::{Failure, Remains, give_back, release_packed, release_taken};
use gix_ref_edits::transaction::RefEdit;
use gix_ref_files::files::Files;
use gix_ref_files::lock::LockFile;
use gix_ref_lookup::settings::Settings;
use gix_ref_object::object::Find;
use std::alloc::{AllocError, Global};

/// Edits whose locks are held, and room for what remains of them.
#[derive(Drop)]
pub struct HeldEdits {
    pub edits: Vec<Edit>,
    pub remains: Remains,
}

/// All locks of a transaction, held.
#[derive(Drop)]
pub struct HeldLocks {
    /// The lock of `packed-refs`, where it is held.
    pub packed: Option<LockFile>,
    pub edits: Vec<Edit>,
    /// Room for what remains of them.
    pub remains: Remains,
}

/// Why locks are not held. The edits are handed back.
#[derive(Drop)]
pub struct NotHeld {
    pub failure: Failure<Error>,
    pub edits: Vec<RefEdit>,
}

/// The files of the locks of edits. Nothing is done on disk.
fn locks_at(
    alloc: Global,
    settings: &Settings<'_>,
    edits: &[RefEdit],
) -> Result<Vec<LockFile>, AllocError>
    ensures { IfOk result (λ locks. locks.items ≡ places_of (setting_of settings.now) edits.now) }
{
    let mut locks = Vec::with_capacity(alloc, edits.len())?;
    for edit in edits {
        let place = settings.place(alloc, edit.name.as_ref())?;
        locks.push(LockFile::at(place)?)?;
    }
    Ok(locks)
}

/// The edits of a split list that are not begun, with their parents and the files of their locks. There is room for them.
fn joined(split: SplitEdits, locks: Vec<LockFile>, mut edits: Vec<Edit>) -> Vec<Edit>
    requires lens { (vec_len split.parents ≡ vec_len split.edits)
        × (vec_len locks ≡ vec_len split.edits) }
    requires room { (vec_len split.edits ≤ vec_capacity edits) × (edits.items ≡ []) }
    ensures asked { updates result.items ≡ split.edits.items }
    ensures places { place_paths result.items ≡ locks.items }
    ensures parents { parents_in result.items ≡ split.parents.items }
{
    let SplitEdits {
        edits: given,
        parents,
    } = split;
    for (update, lock) in given.into_iter().zip(locks) {
        let parent = parents[edits.len()];
        edits.push_reserved(Edit::new(update, parent, lock));
    }
    edits
}

/// The files of the locks of edits, and room for the edits.
fn room_at(
    alloc: Global,
    settings: &Settings<'_>,
    edits: &[RefEdit],
) -> Result<(Vec<LockFile>, Vec<Edit>), AllocError>
    ensures locks { IfOk result (λ room. room.0.items
        ≡ places_of (setting_of settings.now) edits.now) }
    ensures room { IfOk result (λ room. (length edits.now ≤ vec_capacity room.1)
        × (room.1.items ≡ [])) }
{
    let locks = locks_at(alloc, settings, edits)?;
    Ok((locks, Vec::with_capacity(alloc, edits.len())?))
}

/// The edits of a split list that are not begun, with their parents and the paths of their locks. The error says that there was no
/// memory, and hands the edits back.
pub fn edits_at(
    alloc: Global,
    settings: &Settings<'_>,
    split: SplitEdits,
) -> Result<Vec<Edit>, Vec<RefEdit>>
    requires { vec_len split.parents ≡ vec_len split.edits }
    ensures asked { MatchResult result (λ edits. updates edits.items ≡ split.edits.items)
        (λ given. given ≡ split.edits) }
    ensures places { IfOk result (λ edits. place_paths edits.items
        ≡ places_of (setting_of settings.now) split.edits.items) }
    ensures parents { IfOk result (λ edits. parents_in edits.items ≡ split.parents.items) }
{
    match room_at(alloc, settings, &split.edits) {
        Ok((locks, edits)) => Ok(joined(split, locks, edits)),
        Err(_) => Err(split.edits),
    }
}

/// Takes all locks, or removes those that it took and hands back the edits. Each edit has the id of its record.
fn lock_all_or_none<F: Files>(
    alloc: Global,
    files: &mut F,
    settings: &Settings<'_>,
    packing: Packing,
    mut edits: Vec<Edit>,
    remains: Remains,
) -> Result<HeldEdits, NotHeld>
    requires ready { AreReady (setting_of settings.now) settings.now.kind edits.items }
    requires room { HasRoom edits remains }
    ensures held { IfOk result (λ held. HoldAllByIds F.honest settings.now (mode_of_packing packing)
        (F.means files.old) (F.means files.new) edits.items held.edits.items remains
        held.remains) }
    ensures given { IfOk result (λ held. all_given held.edits.items ≡ all_given edits.items) }
    ensures wholes { F.honest → (q : Path) (text : List ℕ) → IsWholeAt (disk_of (F.means files.old))
        q text → OnOk result (IsWholeAt (disk_of (F.means files.new)) q text) }
    ensures refused { IfErr result (λ r. IsTakingFault F.honest F.means F.faults
        (setting_of settings.now) settings.now.kind edits.items files.old files.new
        r.failure.error) }
    ensures removed { IfErr result (λ r. RemovesAgain F.honest F.means F.faults settings.now
        edits.items r.failure.locks_left files.old files.new) }
    ensures room { IfErr result
        (λ r. vec_len r.failure.locks_left < vec_capacity r.failure.locks_left) }
    ensures edits { IfErr result (λ r. r.edits.items ≡ updates edits.items) }
    ensures takes { OnlyTakes F.honest F.means F.faults (edit_locks settings.now edits.items)
        files.old files.new }
{
    let mut taken = 0;
    match take_locks(alloc, files, settings, packing, &mut edits, &mut taken) {
        Ok(()) => Ok(HeldEdits { edits, remains }),
        Err(error) => {
            let remains = release_taken(files, taken, edits, remains);
            let failure = Failure {
                error,
                locks_left: remains.left,
            };
            Err(NotHeld {
                failure,
                edits: remains.edits,
            })
        }
    }
}

/// Finds the records of all edits, and decides what each puts into `packed-refs`. That file is not opened where it is known to be none.
fn find_and_peel<F: Files, T: Find>(
    alloc: Global,
    files: &mut F,
    settings: &Settings<'_>,
    packed_refs: &PackedRefs<T>,
    known_missing: bool,
    edits: &mut [Edit],
) -> Result<(), Error>
    requires absent { F.honest → known_missing ≡ true → packed_refs_in settings.now
        (F.means files.old) ≡ None }
    requires places { place_paths edits.old ≡ places_of (setting_of settings.now)
        (updates edits.old) }
    ensures asked { all_asked edits.new ≡ all_asked edits.old }
    ensures opened { F.honest → OnOk result (IsOpenableWith settings.now (F.means files.old)) }
    ensures read { F.honest → OnOk result (AreRecordIds (setting_of settings.now)
        settings.now.kind (contents F.means files.old) (updates edits.old) (ids_in edits.new)) }
    ensures found { F.honest → (rs : List Record) → ArePackedRecordsWith settings.now
        (F.means files.old) rs → OnOk result (ids_in edits.new ≡ ids_among (setting_of settings.now)
        rs (updates edits.old)) }
    ensures put { OnOk result (ArePutBy T.claims T.meaning settings.now packed_refs.now edits.new) }
    ensures failed { IfErr result (NoneIsHeld F.honest F.means F.faults
        (HasReadFault F.Reader.faults) settings.now edits.old
        (CausesNoPut T.claims T.meaning settings.now packed_refs.now) files.old files.new) }
    ensures reads { OnlyReads F.honest F.means F.faults files.old files.new }
{
    find_records(alloc, files, settings, known_missing, edits)?;
    peel_edits(alloc, settings, packed_refs, edits)
}

/// Finds the records of all edits, and then takes all locks, or removes those that it took and hands back the edits. `packed-refs` is
/// not opened where it is known to be no file.
fn find_and_lock<F: Files, T: Find>(
    alloc: Global,
    files: &mut F,
    settings: &Settings<'_>,
    packed_refs: &PackedRefs<T>,
    known_missing: bool,
    mut edits: Vec<Edit>,
    remains: Remains,
) -> Result<HeldEdits, NotHeld>
    requires absent { F.honest → known_missing ≡ true →
        packed_refs_in settings.now (F.means files.old) ≡ None }
    requires ready { AreReady (setting_of settings.now) settings.now.kind edits.items }
    requires room { HasRoom edits remains }
    ensures held { IfOk result (λ held. HoldAllFound F.honest settings.now (mode_in packed_refs.now)
        (F.means files.old) (F.means files.new) edits.items held.edits.items remains
        held.remains) }
    ensures opened { F.honest → IfOk result (λ _. IsOpenableWith settings.now (F.means files.old)) }
    ensures read { F.honest → IfOk result (λ held. AreRecordIds (setting_of settings.now)
        settings.now.kind (contents F.means files.old) (updates edits.items)
        (ids_in held.edits.items)) }
    ensures put { IfOk result (λ held. ArePutBy T.claims T.meaning settings.now packed_refs.now
        held.edits.items) }
    ensures wholes { F.honest → (q : Path) (text : List ℕ) → IsWholeAt (disk_of (F.means files.old))
        q text → OnOk result (IsWholeAt (disk_of (F.means files.new)) q text) }
    ensures refused { IfErr result (λ r. NoneIsHeld F.honest F.means F.faults
        (HasReadFault F.Reader.faults) settings.now edits.items
        (CausesNoHold T.claims T.meaning settings.now packed_refs.now) files.old files.new
        r.failure.error) }
    ensures removed { IfErr result (λ r. RemovesAgain F.honest F.means F.faults settings.now
        edits.items r.failure.locks_left files.old files.new) }
    ensures room { IfErr result
        (λ r. vec_len r.failure.locks_left < vec_capacity r.failure.locks_left) }
    ensures edits { IfErr result (λ r. r.edits.items ≡ updates edits.items) }
    ensures takes { OnlyTakes F.honest F.means F.faults (edit_locks settings.now edits.items)
        files.old files.new }
{
    match find_and_peel(
        alloc,
        files,
        settings,
        packed_refs,
        known_missing,
        &mut edits,
    ) {
        Ok(()) => lock_all_or_none(
            alloc,
            files,
            settings,
            packed_refs.packing(),
            edits,
            remains,
        ),
        Err(error) => {
            let failure = Failure {
                error,
                locks_left: remains.left,
            };
            Err(NotHeld {
                failure,
                edits: give_back(edits, remains.edits),
            })
        }
    }
}

/// Takes the lock of `packed-refs` where it is due, finds the records of all edits, and takes the locks of these; or removes those
/// that it took, and hands back the edits.
pub fn lock_edits<F: Files, T: Find>(
    alloc: Global,
    files: &mut F,
    settings: &Settings<'_>,
    packed_refs: &PackedRefs<T>,
    edits: Vec<Edit>,
    remains: Remains,
) -> Result<HeldLocks, NotHeld>
    requires ready { AreReady (setting_of settings.now) settings.now.kind edits.items }
    requires room { HasRoom edits remains }
    ensures held { IfOk result (λ held. HoldAllDue F.honest settings.now (mode_in packed_refs.now)
        (F.means files.old) (F.means files.new) edits.items held.edits.items remains
        held.remains) }
    ensures opened { F.honest → IfOk result (λ _. IsOpenableWith settings.now (F.means files.old)) }
    ensures read { F.honest → IfOk result (λ held. AreRecordIds (setting_of settings.now)
        settings.now.kind (contents F.means files.old) (updates edits.items)
        (ids_in held.edits.items)) }
    ensures put { IfOk result (λ held. ArePutBy T.claims T.meaning settings.now packed_refs.now
        held.edits.items) }
    ensures packed { IfOk
        result (λ held. HoldsPackedLock F.honest (setting_of settings.now) (mode_in packed_refs.now)
        (F.means files.old).tree (F.means files.new).tree (updates edits.items) held.packed) }
    ensures refused { IfErr result (λ r. NoneIsHeld F.honest F.means F.faults
        (HasReadFault F.Reader.faults) settings.now edits.items
        (CausesNoLock T.claims T.meaning settings.now packed_refs.now) files.old files.new
        r.failure.error) }
    ensures removed { IfErr result (λ r. RemovesDueAgain F.honest F.means F.faults
        settings.now (mode_in packed_refs.now) edits.items r.failure.locks_left
        files.old files.new) }
    ensures edits { IfErr result (λ r. r.edits.items ≡ updates edits.items) }
    ensures takes { OnlyTakes F.honest F.means F.faults
        (due_locks settings.now (mode_in packed_refs.now) (F.means files.old).tree edits.items)
        files.old files.new }
{
    let packed = match take_packed(alloc, files, settings, packed_refs.packing(), &edits) {
        Ok(packed) => packed,
        Err(error) => {
            let failure = Failure {
                error,
                locks_left: remains.left,
            };
            return Err(NotHeld {
                failure,
                edits: give_back(edits, remains.edits),
            });
        }
    };
    let known_missing = known_missing(settings, &edits, &packed);
    match find_and_lock(
        alloc,
        files,
        settings,
        packed_refs,
        known_missing,
        edits,
        remains,
    ) {
        Ok(held) => {
            let HeldEdits { edits, remains } = held;
            Ok(HeldLocks {
                packed,
                edits,
                remains,
            })
        }
        Err(mut refused) => {
            release_packed(files, packed, &mut refused.failure.locks_left);
            Err(refused)
        }
    }
}
