//! An edit of a transaction, with its lock, what was found of its reference, and what becomes of the loose file.
ghost use Rattle.std.specs.Prelude.{◌≡◌, [], OnOk, IfOk, IfErr, MatchResult, IsSome, is_some, Some, true, false, if◌then◌else◌};
ghost use Rattle.std.specs.Option.{option_map};
ghost use Rattle.gix_ref_target.specs.Targets.{target_value};
ghost use Rattle.gix_ref_target.specs.Targets.TargetValue.{object_id};
ghost use Rattle.gix_ref_files.specs.ReadOnly.{OnlyReads};
ghost use Rattle.gix_ref_files.specs.Files.{disk_of, AtEveryStop, OnEveryDisk, CountsCall, DiskBecomes};
ghost use Rattle.gix_ref_files.specs.Lock.{lock_of, MakesLock, Readying, Acquiring, after_locking, LockingOn};
ghost use Rattle.gix_ref_files.specs.Settled.{IsWholeAt};
ghost use Rattle.gix_ref_files.specs.Tree.{Tree, Path, has_folders, is_blocked, put};
ghost use Rattle.gix_ref_files.specs.Tree.Content.{File};
ghost use Rattle.gix_ref_lookup.specs.StoreLayout.{namespace_text};
ghost use Rattle.gix_ref_theory.specs.OnRealTrees.{contents};
ghost use Rattle.gix_ref_edits.specs.RefEdits.{name_of, new_of, is_of_reference};
ghost use Rattle.gix_ref_transaction.specs.CommitRenames.{is_file_seen, is_no_folder_seen};
ghost use Rattle.gix_ref_transaction.specs.Causes.{deletes_reference, found, found_by, decoded, IsCounted, IsNotIo, IsIoOrMemory};
ghost use Rattle.gix_ref_transaction.specs.EditLocks.{GetsItsText, IsInPlace, IsLockTaken, IsNotAsExpected, IsNotAccepted, IsNotTaken, IsFileOrMemoryFault, IsWritten, OnlyFills, TakesItsLock};
ghost use Rattle.gix_ref_transaction.specs.Packing.{mode_of_packing};
ghost use Rattle.gix_ref_transaction.specs.PrepareSteps.{setting_of, value_of, text_of_new, decision, decision_of, given, is_new, is_damaged, is_loose_file, is_undecodable, target_by, IsSomeWhole, IsRefusedLock};

use crate::packing::{Packing, is_packed_alone};
use crate::prepare::Error;
use crate::prepare::expect::check_expected;
use gix_ref_edits::transaction::{Change, RefEdit, RefLog};
use gix_ref_files::files::{Create, FileError, Files, Node};
use gix_ref_files::lock::LockFile;
use gix_ref_hash::hash::ObjectId;
use gix_ref_lookup::find::loose::{Loose, loose_at};
use gix_ref_lookup::find::strip;
use gix_ref_lookup::loose::text_of;
use gix_ref_lookup::settings::Settings;
use gix_ref_name::namespace::Namespace;
use gix_ref_target::target::Target;
use std::alloc::{AllocError, Global};

/// What becomes of the loose file of a reference.
#[derive(Clone, Copy, PartialEq, Eq)]
pub enum Effect {
    /// It is written: the lock holds its new text, and is renamed to it.
    Write,
    /// It is removed.
    Remove,
    /// It stays as it is.
    Keep,
}

impl Effect {
    ghost use Rattle.gix_ref_transaction.specs.Effects.{is_write};

    /// Whether the loose file is written.
    pub fn is_write(self) -> bool
        ensures { result ≡ is_write self }
    {
        match self {
            Effect::Write => true,
            Effect::Remove | Effect::Keep => false,
        }
    }
}

/// What becomes of the log of a reference.
#[derive(Drop)]
pub enum LogEffect {
    /// It stays as it is.
    Keep,
    /// This line is added to it. The log is made where it is missing.
    Append { log: Vec<u8>, line: Vec<u8> },
    /// It is removed.
    Remove { log: Vec<u8> },
}

/// The object of an update that goes into `packed-refs`.
#[derive(Clone, Copy, Debug, PartialEq, Eq)]
pub struct PackedObject {
    /// The new object of the reference.
    pub target: ObjectId,
    /// The object at the end of its tags, where that is another one.
    pub peeled: Option<ObjectId>,
}

/// An edit of a transaction.
#[derive(Drop)]
pub struct Edit {
    /// What is asked for. Once it is prepared, it expects what was found.
    pub update: RefEdit,
    /// The place in the list of the edit that it was split from, from 0.
    pub parent: Option<usize>,
    /// The file of the lock of its place.
    pub lock: LockFile,
    /// The id of the reference's record in `packed-refs`.
    pub packed: Option<ObjectId>,
    /// What it puts into `packed-refs`: the object of an update that is packed. It is decided before any lock is taken.
    pub put: Option<PackedObject>,
    /// The target that was found: that of the loose file, or else the object of the record.
    pub found: Option<Target>,
    /// Whether there was a loose file, as the edit was compared with what was found.
    pub has_file: bool,
    /// What becomes of the loose file. It is decided once, as the edit is compared with what was found.
    pub effect: Effect,
    /// What was at the path of its log, as what becomes of that was decided: `None` where it was not looked at.
    pub log_seen: Option<Node>,
    /// What becomes of the log. A commit decides it before its first write.
    pub log: LogEffect,
}

/// Whether a change deletes its reference, and not its log alone.
pub fn deletes_reference(change: &Change) -> bool
    ensures { result ≡ deletes_reference change.now }
{
    match change {
        Change::Delete { log, .. } => *log == RefLog::AndReference,
        Change::Update { .. } => false,
    }
}

/// What there is of a reference before its edit.
#[derive(Drop)]
struct OldValue {
    /// Its target: that of its loose file, or else the object of its record.
    target: Option<Target>,
    /// Whether there is a loose file.
    has_file: bool,
    /// Whether there is one that holds no target.
    damaged: bool,
}

/// The target of the object of a record.
fn object_of(packed: Option<ObjectId>) -> Option<Target>
    ensures { value_of result ≡ option_map object_id packed }
{
    match packed {
        Some(id) => Some(Target::Object(id)),
        None => None,
    }
}

/// What there is of a reference, by its loose file and its record.
fn old_value_of(loose: Loose, packed: Option<ObjectId>, namespace: &Option<Namespace>) -> OldValue
    ensures target { value_of result.target
        ≡ target_by (namespace_text namespace.now) loose packed }
    ensures file { result.has_file ≡ is_loose_file loose }
    ensures damaged { result.damaged ≡ is_undecodable loose }
{
    match loose {
        Loose::Holds(mut target) => {
            strip(&mut target, namespace);
            OldValue {
                target: Some(target),
                has_file: true,
                damaged: false,
            }
        }
        Loose::Nothing | Loose::Folder => OldValue {
            target: object_of(packed),
            has_file: false,
            damaged: false,
        },
        Loose::Undecodable(_) => OldValue {
            target: object_of(packed),
            has_file: true,
            damaged: true,
        },
    }
}

/// What there is at a place, whose reference has this id in `packed-refs`: one call of files.
fn read_old_value<F: Files>(
    alloc: Global,
    files: &mut F,
    settings: &Settings<'_>,
    place: &[u8],
    packed: Option<ObjectId>,
) -> Result<OldValue, Error>
    ensures target { F.honest →
        IfOk result (λ was. value_of was.target ≡ found_by (setting_of settings.now)
        (decoded (setting_of settings.now) (contents F.means files.old place.now)) packed) }
    ensures file { F.honest →
        IfOk result (λ was. was.has_file ≡ is_some (contents F.means files.old place.now)) }
    ensures damaged { F.honest → IfOk result (λ was. was.damaged
        ≡ is_damaged (setting_of settings.now) (contents F.means files.old place.now)) }
    ensures refused { IfErr result (λ error. IsIoOrMemory error
        × IsCounted (F.faults files.old) (F.faults files.new) error) }
    ensures reads { OnlyReads F.honest F.means F.faults files.old files.new }
{
    let loose = loose_at(alloc, files, place, settings.kind)?;
    Ok(old_value_of(loose, packed, settings.namespace))
}

/// Whether an update changes the reference: it has not this object already, in a file that can be read.
fn is_change(new: &Target, was: &OldValue) -> bool
    ensures { result ≡ is_new (target_value new.now) (value_of was.now.target) was.now.damaged }
{
    if was.damaged {
        return true;
    }
    match (new, &was.target) {
        (Target::Object(new), Some(Target::Object(old))) => new != old,
        _ => true,
    }
}

/// What an update makes of the loose file, by what there was and whether it goes into `packed-refs` alone.
fn effect_of_update(mode: RefLog, new: &Target, alone: bool, was: &OldValue) -> Effect
    ensures { result ≡ (if is_of_reference mode then decision_of (Some (target_value new.now)) alone
        (value_of was.now.target) was.now.damaged else Effect.Keep) }
{
    match mode {
        RefLog::AndReference => {
            if alone {
                Effect::Remove
            } else if is_change(new, was) {
                Effect::Write
            } else {
                Effect::Keep
            }
        }
        RefLog::Only => Effect::Keep,
    }
}

/// What a deletion makes of it.
fn effect_of_deletion(mode: RefLog) -> Effect
    ensures { result ≡ (if is_of_reference mode then Effect.Remove else Effect.Keep) }
{
    match mode {
        RefLog::AndReference => Effect::Remove,
        RefLog::Only => Effect::Keep,
    }
}

/// What becomes of the loose file, by the change, whether it goes into `packed-refs` alone, and what there was.
fn effect_of(change: &Change, alone: bool, was: &OldValue) -> Effect
    ensures { result ≡ decision change.now alone (value_of was.now.target) was.now.damaged }
{
    match change {
        Change::Update { log, new, .. } => effect_of_update(log.mode, new, alone, was),
        Change::Delete { log, .. } => effect_of_deletion(*log),
    }
}

/// The text of the new target of a change.
fn text_of_change(alloc: Global, change: &Change) -> Result<Vec<u8>, AllocError>
    ensures { IfOk result (λ text. text.items ≡ text_of_new (new_of change.now)) }
{
    match change {
        Change::Update { new, .. } => text_of(alloc, new),
        Change::Delete { .. } => Ok(Vec::new(alloc)),
    }
}

/// The refusal of an edit whose lock exists already.
fn standing(edit: &RefEdit) -> Error
    ensures reported { (T : Tree) (lock : Path) → IsSome (T lock) →
        IsRefusedLock T (name_of edit.now) lock result }
    ensures inside { IsNotIo result }
{
    match edit.name.clone() {
        Ok(full_name) => Error::LockAcquire { full_name },
        Err(_) => Error::Memory,
    }
}

/// The refusal of an edit with a file in the path of its lock.
fn blocked(edit: &RefEdit) -> Error
    ensures reported { (T : Tree) (lock : Path) → is_blocked T lock ≡ true →
        IsRefusedLock T (name_of edit.now) lock result }
    ensures inside { IsNotIo result }
{
    match edit.name.clone() {
        Ok(full_name) => Error::PathCollision { full_name },
        Err(_) => Error::Memory,
    }
}

/// Makes the file of a lock, and first the folders that lead to its place, unless `is_ready` says that they are there.
pub(crate) fn take_lock<F: Files>(
    files: &mut F,
    lock: &LockFile,
    is_ready: bool,
) -> Result<Create, FileError>
    requires ready { F.honest → is_ready ≡ true →
        has_folders (F.means files.old).tree lock.now ≡ true }
    ensures answer { F.honest → MatchResult result
        (MakesLock (F.means files.old).tree lock.now (F.means files.new).tree)
        (λ _. Readying (F.means files.old).tree lock.now (F.means files.new).tree) }
    ensures leaves { F.honest → AtEveryStop F.means files.old files.new
        (λ T. Acquiring T lock.now) }
    ensures disk { F.honest → IfOk result
        (λ create. DiskBecomes F.means files.old files.new (λ D. after_locking D lock.now create)) }
    ensures passes { F.honest → OnEveryDisk F.means files.old files.new
        (λ D. LockingOn D lock.now) }
    ensures count { CountsCall result (F.faults files.old) (F.faults files.new) }
{
    if is_ready {
        lock.create(files)
    } else {
        lock.take(files)
    }
}

/// Puts the text into the lock, which is empty, and syncs it.
fn write_lock<F: Files>(files: &mut F, lock: &LockFile, text: &[u8]) -> Result<(), Error>
    ensures filled { F.honest → (F.means files.old).tree (lock_of lock.now) ≡ Some (File []) →
        OnOk result ((F.means files.new).tree
        ≡ put (F.means files.old).tree (lock_of lock.now) (Some (File text.now))) }
    ensures whole { F.honest → IsWholeAt (disk_of (F.means files.old)) (lock_of lock.now) [] →
        OnOk result (IsWholeAt (disk_of (F.means files.new)) (lock_of lock.now) text.now) }
    ensures failed { IfErr result (IsFileOrMemoryFault (F.faults files.old) (F.faults files.new)) }
    ensures fills { OnlyFills F.honest F.means F.faults (lock_of lock.now) files.old files.new }
{
    lock.write(files, text)?;
    Ok(())
}

impl Edit {
    /// An edit that is not begun, with the place of the edit that it was split from, and the file of its lock.
    pub fn new(update: RefEdit, parent: Option<usize>, lock: LockFile) -> Edit
        ensures update { result.update ≡ update }
        ensures parent { result.parent ≡ parent }
        ensures place { result.lock ≡ lock }
    {
        Edit {
            update,
            parent,
            lock,
            packed: None,
            put: None,
            found: None,
            has_file: false,
            effect: Effect::Keep,
            log_seen: None,
            log: LogEffect::Keep,
        }
    }

    /// What it asks for.
    pub fn into_update(self) -> RefEdit
        ensures { result ≡ self.update }
    {
        self.update
    }

    /// Whether its log was seen, and is a file.
    pub fn has_log(&self) -> bool
        ensures { result ≡ is_file_seen self.now.log_seen }
    {
        match self.log_seen {
            Some(Node::File) => true,
            Some(Node::Folder | Node::Nothing | Node::Blocked) | None => false,
        }
    }

    /// Whether the path of its log was seen, and no folder was there.
    pub fn has_no_folder_at_log(&self) -> bool
        ensures { result ≡ is_no_folder_seen self.now.log_seen }
    {
        match self.log_seen {
            Some(Node::File | Node::Nothing | Node::Blocked) => true,
            Some(Node::Folder) | None => false,
        }
    }

    /// Takes the lock. The folders that lead to its place are made first, unless `is_ready` says that they are there. After a refusal
    /// the lock is not taken.
    pub fn take<F: Files>(&self, files: &mut F, is_ready: bool) -> Result<(), Error>
        requires ready { F.honest → is_ready ≡ true →
            has_folders (F.means files.old).tree self.now.lock ≡ true }
        ensures taken { F.honest → OnOk result
            (IsLockTaken (F.means files.old) (F.means files.new) (lock_of self.now.lock)) }
        ensures refused { IfErr result (IsNotTaken F.honest F.means F.faults
            (name_of self.now.update) (lock_of self.now.lock) files.old files.new) }
        ensures takes { TakesItsLock F.honest F.means F.faults self.now.lock files.old files.new }
    {
        match take_lock(files, &self.lock, is_ready) {
            Ok(Create::Made) => Ok(()),
            Ok(Create::Standing) => Err(standing(&self.update)),
            Ok(Create::Blocked) => Err(blocked(&self.update)),
            Err(error) => Err(Error::from(error)),
        }
    }

    /// Keeps what there was, and decides what becomes of the loose file.
    fn decide(&mut self, alone: bool, was: OldValue)
        ensures given { given self.new ≡ given self.old }
        ensures found { self.new.found ≡ was.target }
        ensures file { self.new.has_file ≡ was.has_file }
        ensures effect { self.new.effect ≡ decision self.old.update.change alone
            (value_of was.target) was.damaged }
    {
        self.effect = effect_of(&self.update.change, alone, &was);
        self.has_file = was.has_file;
        self.found = was.target;
    }

    /// Gives the lock, which is empty, the text that is to be written.
    fn write<F: Files>(&self, alloc: Global, files: &mut F) -> Result<(), Error>
        ensures filled { F.honest → (F.means files.old).tree
            (lock_of self.now.lock) ≡ Some (File []) → OnOk result
            (GetsItsText self.now (F.means files.old).tree (F.means files.new).tree) }
        ensures whole { F.honest → IsWholeAt (disk_of (F.means files.old)) (lock_of self.now.lock)
            [] → OnOk result (IsSomeWhole (disk_of (F.means files.new)) (lock_of self.now.lock)) }
        ensures failed { IfErr result
            (IsFileOrMemoryFault (F.faults files.old) (F.faults files.new)) }
        ensures fills { OnlyFills F.honest F.means F.faults
            (lock_of self.now.lock) files.old files.new }
    {
        match self.effect {
            Effect::Write => {
                let text = text_of_change(alloc, &self.update.change)?;
                write_lock(files, &self.lock, &text)
            }
            Effect::Remove | Effect::Keep => Ok(()),
        }
    }

    /// Compares what there is with what the edit expects, decides what becomes of the loose file, and gives the lock, which is
    /// empty, its text. Makes one call of files, and two more for a text.
    pub fn compare_and_write<F: Files>(
        &mut self,
        alloc: Global,
        files: &mut F,
        settings: &Settings<'_>,
        packing: Packing,
    ) -> Result<(), Error>
        requires { IsInPlace (setting_of settings.now) self.old }
        ensures given { given self.new ≡ given self.old }
        ensures written { F.honest → OnOk result (IsWritten (setting_of settings.now)
            (mode_of_packing packing) (F.means files.old) (F.means files.new) self.old self.new) }
        ensures refused { IfErr result
            (IsNotAccepted F.honest F.means F.faults (setting_of settings.now) self.old
            (IsNotAsExpected settings.now (contents F.means files.old) self.old)
            files.old files.new) }
        ensures fills { OnlyFills F.honest F.means F.faults
            (lock_of self.old.lock) files.old files.new }
    {
        let was = read_old_value(alloc, files, settings, self.lock.place(), self.packed)?;
        check_expected(&self.update, &was.target, settings.kind)?;
        let alone = is_packed_alone(settings, packing, &self.update);
        self.decide(alone, was);
        self.write(alloc, files)
    }
}
