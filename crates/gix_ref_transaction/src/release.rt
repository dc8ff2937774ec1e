//! The locks of a transaction, removed: those that a commit has not renamed, or all.
ghost use Rattle.std.specs.Prelude.{◌≡◌, ◌≤◌, ◌<◌, ◌+◌, ◌⊎◌, ℕ, [], ◌++◌, IfOk, IsTrue, true, false, not, ◌&&◌, map, take, drop, reverse, nat_lt, vec_len, if◌then◌else◌};
ghost use Rattle.std.specs.Vec.{vec_capacity};
ghost use Rattle.std.specs.Bool.{OnFalse};
ghost use Rattle.gix_ref_files.specs.Lock.{lock_of};
ghost use Rattle.gix_ref_files.specs.Tree.{Path, is_file};
ghost use Rattle.gix_ref_files.specs.Files.{OnEveryDisk, HasRisen, NoFewer};
ghost use Rattle.gix_ref_files.specs.DiskCalls.{RemovingFileOn};
ghost use Rattle.gix_ref_transaction.specs.OwnLocks.{paths_of, is_in};
ghost use Rattle.gix_ref_transaction.specs.CommitRenames.{log_at, path_in, place_at, stays_at};
ghost use Rattle.gix_ref_transaction.specs.Effects.{is_write};
ghost use Rattle.gix_ref_transaction.specs.LeftLocks.{OthersAreGone, AddsEdit, AreNamedOnce, HandsBack, HasRoom, HasRoomForEdits, NamesMore, OnlyReleases};
ghost use Rattle.gix_ref_transaction.specs.PrepareSteps.{held_locks, lock_paths, packed_places, updates};

use crate::edit::{Edit, LogEffect};
use gix_ref_edits::transaction::RefEdit;
use gix_ref_files::files::Files;
use gix_ref_files::lock::LockFile;
use std::alloc::{AllocError, Global};

/// Why a transaction ended early, and the paths of the locks that it could not remove again.
#[derive(Drop)]
pub struct Failure<E: Drop> {
    pub error: E,
    pub locks_left: Vec<Vec<u8>>,
}

/// What is left of a transaction once its locks are released. It is reserved before the first lock, so that the end of a transaction
/// takes no memory.
#[derive(Drop)]
pub struct Remains {
    /// Its edits, in their order.
    pub edits: Vec<RefEdit>,
    /// The paths of locks that could not be removed.
    pub left: Vec<Vec<u8>>,
    /// The place of the edit at which a commit ended; empty where there is none.
    pub place: Vec<u8>,
    /// The path of the log of that edit, where it gains a line or is removed.
    pub log: Vec<u8>,
}

impl Remains {
    /// Room for so many edits and locks.
    pub fn reserve(alloc: Global, edits: usize, locks: usize) -> Result<Remains, AllocError>
        ensures edits { IfOk result (λ r. (edits ≤ vec_capacity r.edits) × (r.edits.items ≡ [])) }
        ensures locks { IfOk result (λ r. (locks ≤ vec_capacity r.left) × (r.left.items ≡ [])) }
        ensures place { IfOk result (λ r. r.place.items ≡ []) }
    {
        Ok(Remains {
            edits: Vec::with_capacity(alloc, edits)?,
            left: Vec::with_capacity(alloc, locks)?,
            place: Vec::new(alloc),
            log: Vec::new(alloc),
        })
    }

    /// Keeps the place of an edit, and the path of its log where that gains a line or is removed.
    fn keep_paths(&mut self, place: Vec<u8>, log: LogEffect)
        ensures place { self.new.place.items ≡ place.items }
        ensures log { self.new.log.items ≡ path_in log }
        ensures edits { self.new.edits ≡ self.old.edits }
        ensures left { self.new.left ≡ self.old.left }
    {
        self.place = place;
        match log {
            LogEffect::Append { log, .. } => self.log = log,
            LogEffect::Remove { log } => self.log = log,
            LogEffect::Keep => self.log.clear(),
        }
    }

    /// Adds an edit, with the path of its lock where that could not be removed, and its place and the path of its log where the
    /// commit ended there.
    fn add(&mut self, edit: Edit, removed: bool, here: bool)
        requires room { vec_len self.old.left < vec_capacity self.old.left }
        requires room_for_edit { vec_len self.old.edits < vec_capacity self.old.edits }
        ensures adds { AddsEdit edit removed self.old self.new }
        ensures place { self.new.place.items ≡ (if here then edit.lock else self.old.place.items) }
        ensures log { self.new.log.items ≡ (if here then path_in edit.log else self.old.log.items) }
    {
        let Edit {
            update,
            parent: _,
            lock,
            packed: _,
            put: _,
            found: _,
            has_file: _,
            effect: _,
            log_seen: _,
            log,
        } = edit;
        let (place, path) = lock.into_parts();
        if here {
            self.keep_paths(place, log);
        }
        if !removed {
            self.left.push_reserved(path);
        }
        self.edits.push_reserved(update);
    }
}

/// Removes one lock; false where it could not.
fn remove_lock<F: Files>(files: &mut F, lock: &[u8]) -> bool
    ensures gone { F.honest → IsTrue result → is_file ((F.means files.new).tree lock.now) ≡ false }
    ensures passes { F.honest → OnEveryDisk F.means files.old files.new
        (λ D. RemovingFileOn D lock.now) }
    ensures no_fewer { NoFewer (F.faults files.old) (F.faults files.new) }
    ensures counted { OnFalse result (HasRisen (F.faults files.old) (F.faults files.new)) }
{
    match files.remove_file(lock) {
        Ok(_) => true,
        Err(_) => false,
    }
}

/// Removes the lock of `packed-refs`, where it is held, and adds its path after the others where it could not.
pub fn release_packed<F: Files>(files: &mut F, packed: Option<LockFile>, left: &mut Vec<Vec<u8>>)
    requires room { vec_len left.old < vec_capacity left.old }
    ensures gone { F.honest → (q : Path) → is_in (map lock_of (packed_places packed)) q ≡ true →
        is_in (paths_of left.new.items) q ≡ false → is_file ((F.means files.new).tree q) ≡ false }
    ensures left { (paths_of left.new.items ≡ paths_of left.old.items) ⊎ (paths_of left.new.items
        ≡ paths_of left.old.items ++ map lock_of (packed_places packed)) }
    ensures named { NamesMore (map lock_of (packed_places packed)) 1 left.old left.new
        (F.faults files.old) (F.faults files.new) }
    ensures releases { OnlyReleases F.honest F.means F.faults
        (map lock_of (packed_places packed)) files.old files.new }
{
    if let Some(lock) = packed {
        if !remove_lock(files, lock.path()) {
            left.push_reserved(lock.into_parts().1);
        }
    }
}

/// Removes the lock at a place of the list, unless it was renamed: another may hold it by now. False where it could not.
fn release<F: Files>(files: &mut F, done: usize, at: usize, edit: &Edit) -> bool
    ensures renamed { not (nat_lt at done && is_write edit.now.effect) ≡ false →
        files.new ≡ files.old }
    ensures gone { F.honest → not (nat_lt at done && is_write edit.now.effect) ≡ true →
        IsTrue result → is_file ((F.means files.new).tree (lock_of edit.now.lock)) ≡ false }
    ensures passes { F.honest → OnEveryDisk F.means files.old files.new
        (λ D. RemovingFileOn D (lock_of edit.now.lock)) }
    ensures no_fewer { NoFewer (F.faults files.old) (F.faults files.new) }
    ensures counted { OnFalse result (HasRisen (F.faults files.old) (F.faults files.new)) }
{
    if at < done && edit.effect.is_write() {
        return true;
    }
    remove_lock(files, edit.lock.path())
}

/// Removes the locks of these edits, the last first, except for those that were renamed, where the edits before `done` are done.
/// The edits are added to those that remain, in that order. There is room for them.
fn release_each<F: Files>(
    files: &mut F,
    done: usize,
    mut edits: Vec<Edit>,
    mut remains: Remains,
) -> Remains
    requires room { vec_len edits + vec_len remains.left ≤ vec_capacity remains.left }
    requires room_for_edits { vec_len edits + vec_len remains.edits ≤ vec_capacity remains.edits }
    ensures edits { result.edits.items ≡ remains.edits.items ++ reverse (updates edits.items) }
    ensures place { done < vec_len edits → result.place.items ≡ place_at edits.items done }
    ensures log { done < vec_len edits → result.log.items ≡ path_in (log_at edits.items done) }
    ensures renamed { ((k : ℕ) → k < vec_len edits → stays_at edits.items done k ≡ false) →
        files.new ≡ files.old }
    ensures gone { F.honest → OthersAreGone edits done result.left (F.means files.new).tree }
    ensures named { NamesMore (lock_paths edits.items) (vec_len edits) remains.left result.left
        (F.faults files.old) (F.faults files.new) }
    ensures releases { OnlyReleases F.honest F.means F.faults
        (lock_paths edits.items) files.old files.new }
{
    while let Some(edit) = edits.pop() {
        let at = edits.len();
        let removed = release(files, done, at, &edit);
        remains.add(edit, removed, at == done);
    }
    remains
}

/// Removes the locks of these edits except for those that were renamed, where the edits before `done` are done. Hands back the edits,
/// the place of the edit at `done` and the path of its log, and after the paths in `remains` the locks that could not be
/// removed. Takes no memory, and where all were renamed makes no call.
fn release_locks<F: Files>(
    files: &mut F,
    done: usize,
    edits: Vec<Edit>,
    remains: Remains,
) -> Remains
    requires room { HasRoomForEdits edits remains }
    ensures back { HandsBack edits done result }
    ensures renamed { ((k : ℕ) → k < vec_len edits → stays_at edits.items done k ≡ false) →
        files.new ≡ files.old }
    ensures gone { F.honest → OthersAreGone edits done result.left (F.means files.new).tree }
    ensures named { NamesMore (lock_paths edits.items) (vec_len edits) remains.left result.left
        (F.faults files.old) (F.faults files.new) }
    ensures releases { OnlyReleases F.honest F.means F.faults
        (lock_paths edits.items) files.old files.new }
{
    let mut remains = release_each(files, done, edits, remains);
    remains.edits.reverse();
    remains
}

/// Moves what the edits after the first `taken` ask for to the end of a list, the last first. There is room for it.
fn move_updates(edits: &mut Vec<Edit>, taken: usize, given: &mut Vec<RefEdit>)
    requires within { taken ≤ vec_len edits.old }
    requires room { vec_len edits.old + vec_len given.old ≤ vec_capacity given.old }
    ensures rest { edits.new.items ≡ take taken edits.old.items }
    ensures moved { given.new.items
        ≡ given.old.items ++ reverse (updates (drop taken edits.old.items)) }
    ensures room { (vec_capacity given.new ≡ vec_capacity given.old)
        × (vec_len edits.new + vec_len given.new ≡ vec_len edits.old + vec_len given.old) }
{
    while edits.len() > taken
        && let Some(edit) = edits.pop()
    {
        given.push_reserved(edit.into_update());
    }
}

/// What edits ask for of which no lock is taken, in the room for it.
pub(crate) fn give_back(mut edits: Vec<Edit>, mut room: Vec<RefEdit>) -> Vec<RefEdit>
    requires room { vec_len edits ≤ vec_capacity room }
    requires none { room.items ≡ [] }
    ensures { result.items ≡ updates edits.items }
{
    move_updates(&mut edits, 0, &mut room);
    room.reverse();
    room
}

/// Removes the locks of the first edits, so many; the others have none. Hands back all edits, and after the paths in `remains` the
/// locks that could not be removed. Takes no memory.
pub(crate) fn release_taken<F: Files>(
    files: &mut F,
    taken: usize,
    mut edits: Vec<Edit>,
    mut remains: Remains,
) -> Remains
    requires { (taken ≤ vec_len edits) × HasRoomForEdits edits remains }
    ensures edits { result.edits.items ≡ updates edits.items }
    ensures gone { F.honest → (q : Path) → is_in (lock_paths (take taken edits.items)) q ≡ true →
        is_in (paths_of result.left.items) q ≡ false → is_file ((F.means files.new).tree q)
        ≡ false }
    ensures named { NamesMore (lock_paths (take taken edits.items)) taken remains.left result.left
        (F.faults files.old) (F.faults files.new) }
    ensures releases { OnlyReleases F.honest F.means F.faults
        (lock_paths (take taken edits.items)) files.old files.new }
{
    move_updates(&mut edits, taken, &mut remains.edits);
    let mut remains = release_each(files, 0, edits, remains);
    remains.edits.reverse();
    remains
}

/// Removes the lock of `packed-refs`, where it is held, and then those of the edits, as `release_locks`.
pub fn release_all<F: Files>(
    files: &mut F,
    done: usize,
    packed: Option<LockFile>,
    edits: Vec<Edit>,
    mut remains: Remains,
) -> Remains
    requires room { HasRoom edits remains }
    ensures back { HandsBack edits done result }
    ensures gone { F.honest → OthersAreGone edits done result.left (F.means files.new).tree }
    ensures packed_gone { F.honest → (q : Path) → is_in (map lock_of (packed_places packed)) q
        ≡ true → is_in (paths_of result.left.items) q ≡ false →
        is_file ((F.means files.new).tree q) ≡ false }
    ensures named { AreNamedOnce (held_locks packed edits.items) result.left (F.faults files.old)
        (F.faults files.new) }
    ensures releases { OnlyReleases F.honest F.means F.faults
        (held_locks packed edits.items) files.old files.new }
{
    release_packed(files, packed, &mut remains.left);
    release_locks(files, done, edits, remains)
}
