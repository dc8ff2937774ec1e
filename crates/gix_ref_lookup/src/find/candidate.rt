//! One candidate of a lookup: its loose file, or else its record in `packed-refs`.
ghost use Rattle.std.specs.Prelude.{◌≡◌, false, List, Option, None, IfOk, IfErr, OnOk, MatchResult};
ghost use Rattle.gix_ref_hash.specs.declared.hash.Kind.{Kind};
ghost use Rattle.gix_ref_name.specs.Names.{full_bytes, full_ref_bytes};
ghost use Rattle.gix_ref_name.specs.Namespaces.{stripped};
ghost use Rattle.gix_ref_target.specs.PackedRecords.{Record};
ghost use Rattle.gix_ref_target.specs.Targets.{target_value};
ghost use Rattle.gix_ref_target.specs.Targets.TargetValue.{object_id};
ghost use Rattle.gix_ref_theory.specs.OnRealTrees.{contents};
ghost use Rattle.gix_ref_lookup.specs.StoreLayout.{namespace_text};
ghost use Rattle.gix_ref_lookup.specs.Lookups.{AreAsked, AreHonest, IsFaultOrMemory, IsLooseTarget, IsNotReadAt, IsOfKey, IsReady, LeavesReady, SearchFails, SeesKey, Shows, meaning_in, target_seen};
ghost use Rattle.gix_ref_files.specs.ReadOnly.{OnlyReads};

use crate::find::lookup::Lookup;
use crate::find::loose::{Loose, loose_at};
use crate::find::records::Records;
use crate::find::{Error, ReadError, strip};
use crate::folders::rest_below;
use crate::settings::Settings;
use gix_ref_files::files::{FileError, Files, ReadAt};
use gix_ref_name::name::{FullName, FullNameRef};
use gix_ref_name::namespace::Namespace;
use gix_ref_packed::packed::Found;
use gix_ref_packed::raw::Reference;
use gix_ref_target::target::Target;
use std::alloc::Global;

/// What is at the path of a loose file.
#[derive(Drop)]
pub enum Look {
    /// Nothing is at this path, nor below it.
    Nothing(Vec<u8>),
    /// A folder is there.
    Folder,
    /// A file is there, which holds this target, less the namespace.
    Holds(Target),
}

/// What is at this path, which is looked at for a name. The errors are those of `read_at`.
fn look_at<F: Files>(
    alloc: Global,
    files: &mut F,
    settings: Settings<'_>,
    name: FullNameRef<'_>,
    path: Vec<u8>,
) -> Result<Look, Error>
    ensures found { F.honest → IfOk result (λ look. IsLooseTarget (meaning_in settings.entry)
        (contents F.means files.old path.items) (target_seen look)) }
    ensures there { F.honest → IfOk result (Shows (F.means files.old).tree path.items) }
    ensures allowed { OnOk result ((meaning_in settings.entry).is_prohibited path.items ≡ false) }
    ensures failed { IfErr result (IsNotReadAt F.honest settings.entry.kind
        (meaning_in settings.entry) (contents F.means files.old) (F.faults files.old)
        (F.faults files.new) (full_ref_bytes name.entry) path.items) }
    ensures reads { OnlyReads F.honest F.means F.faults files.old files.new }
    ensures no_fault { OnOk result (F.faults files.new ≡ F.faults files.old) }
{
    if settings.is_prohibited(&path) {
        return Err(Error::ReadFileContents {
            source: ReadError::DeviceName,
            path,
        });
    }
    match loose_at(alloc, files, &path, settings.kind) {
        Ok(Loose::Nothing) => Ok(Look::Nothing(path)),
        Ok(Loose::Folder) => Ok(Look::Folder),
        Ok(Loose::Holds(mut target)) => {
            strip(&mut target, settings.namespace);
            Ok(Look::Holds(target))
        }
        Ok(Loose::Undecodable(source)) => Err(Error::ReferenceCreation {
            source,
            relative_path: name.to_path().to_vec(alloc)?,
        }),
        Err(FileError::Memory) => Err(Error::Memory),
        Err(error) => Err(Error::ReadFileContents {
            source: ReadError::File(error),
            path,
        }),
    }
}

/// The target in the file at this path, which is read for a name, less the namespace; `None` where there is no file.
/// `ReadFileContents` where it cannot be read, or has the name of a device and the store prohibits these;
/// `ReferenceCreation` where it holds no target; and `Memory`.
pub fn read_at<F: Files>(
    alloc: Global,
    files: &mut F,
    settings: Settings<'_>,
    name: FullNameRef<'_>,
    path: Vec<u8>,
) -> Result<Option<Target>, Error>
    ensures found { F.honest → IfOk result
        (IsLooseTarget (meaning_in settings.entry) (contents F.means files.old path.items)) }
    ensures allowed { OnOk result ((meaning_in settings.entry).is_prohibited path.items ≡ false) }
    ensures failed { IfErr result (IsNotReadAt F.honest settings.entry.kind
        (meaning_in settings.entry) (contents F.means files.old) (F.faults files.old)
        (F.faults files.new) (full_ref_bytes name.entry) path.items) }
    ensures reads { OnlyReads F.honest F.means F.faults files.old files.new }
    ensures no_fault { OnOk result (F.faults files.new ≡ F.faults files.old) }
{
    match look_at(alloc, files, settings, name, path) {
        Ok(Look::Holds(target)) => Ok(Some(target)),
        Ok(Look::Nothing(_) | Look::Folder) => Ok(None),
        Err(error) => Err(error),
    }
}

/// Takes the namespace off a name.
fn strip_name(name: &mut FullName, namespace: &Option<Namespace>)
    ensures { full_bytes name.new
        ≡ stripped (namespace_text namespace.now) (full_bytes name.old) }
{
    if let Some(namespace) = namespace {
        name.strip_namespace(namespace);
    }
}

/// The reference of a record: its name less the namespace, and its ids.
fn packed_reference(namespace: &Option<Namespace>, mut name: FullName, found: Found) -> Reference
    ensures name { full_bytes result.name ≡ stripped (namespace_text namespace.now)
        (full_bytes name) }
    ensures target { target_value result.target ≡ object_id found.target }
    ensures peeled { result.peeled ≡ found.object }
{
    strip_name(&mut name, namespace);
    Reference {
        name,
        target: Target::Object(found.target),
        peeled: found.object,
    }
}

/// The reference of a key among the records, once these are ready.
fn find_key<R: ReadAt + Drop>(
    alloc: Global,
    namespace: &Option<Namespace>,
    records: &mut Records<'_, R>,
    key: FullNameRef<'_>,
) -> Result<Option<Reference>, Error>
    requires { IsReady records.now }
    ensures found { (kind : Kind) (rs : List Record) → AreAsked kind None records.old rs →
        MatchResult result (IsOfKey (namespace_text namespace.now) rs (full_ref_bytes key.entry))
        IsFaultOrMemory }
    ensures seen { AreHonest records.old → (kind : Kind) → IfOk result
        (SeesKey kind records.old (namespace_text namespace.now) (full_ref_bytes key.entry)) }
    ensures failed { (kind : Kind) → IfErr result
        (SearchFails kind records.old (full_ref_bytes key.entry)) }
    ensures leaves { LeavesReady records.old records.new }
{
    match records.find(key) {
        Ok(Some(found)) => Ok(Some(packed_reference(namespace, key.to_owned(alloc)?, found))),
        Ok(None) => Ok(None),
        Err(error) => Err(error),
    }
}

impl<F: Files> Lookup<'_, '_, '_, F> {
    ghost use Rattle.std.specs.Prelude.{◌≡◌, false, None, OnOk};
    ghost use Rattle.std.specs.Bool.{OnTrue};
    ghost use Rattle.gix_ref_files.specs.Tree.{IsShaped, Tree};
    ghost use Rattle.gix_ref_name.specs.Names.{full_ref_bytes};
    ghost use Rattle.gix_ref_lookup.specs.Lookups.{HasNothing, OfNames, meaning_in};
    ghost use Rattle.gix_ref_lookup.specs.LookupCalls.{FailsAtCandidate, FailsAtLoose, FailsAtRecord, FindsCandidate, FindsLoose, FindsRecord, IsAllowed, KeepsNothing, LooksOn, SeesCandidate, SeesRecord};

    /// Whether nothing is at a path, which the store allows, since it is below one at which nothing was.
    fn has_nothing_at(&self, path: &[u8]) -> bool
        ensures allowed { OnTrue result
            ((meaning_in self.now.settings).is_prohibited path.now ≡ false) }
        ensures nothing { OnTrue result ((T : Tree) → IsShaped T →
            HasNothing T self.now.nothing_at.now.items → T path.now ≡ None) }
    {
        if self.nothing_at.is_empty() {
            return false;
        }
        match rest_below(path, self.nothing_at) {
            Some(_) => !self.settings.is_prohibited(path),
            None => false,
        }
    }

    /// The reference of a name by its loose file, less the namespace; `None` where there is no such file. `ReadFileContents`
    /// where it cannot be read, or has the name of a device and the store prohibits these; `ReferenceCreation` where it holds
    /// no target; and `Memory`.
    #[tactic(auto, using(crate::proofs::Steps::kept_after))]
    pub(crate) fn find_loose(&mut self, name: FullNameRef<'_>) -> Result<Option<Reference>, Error>
        requires nothing { KeepsNothing F.honest F.means self.old }
        ensures found { FindsLoose F.honest F.means self.old (full_ref_bytes name.entry) result }
        ensures allowed { OnOk result (IsAllowed self.old.settings (full_ref_bytes name.entry)) }
        ensures failed { FailsAtLoose F.honest F.means F.faults self.old self.new
            (full_ref_bytes name.entry) result }
        ensures leaves { LooksOn F.honest F.means F.faults self.old self.new }
    {
        let place = self.settings.place(self.alloc, name)?;
        if self.has_nothing_at(&place) {
            return Ok(None);
        }
        match look_at(self.alloc, self.files, self.settings, name, place) {
            Ok(Look::Holds(target)) => Ok(Some(Reference {
                name: name.to_owned(self.alloc)?,
                target,
                peeled: None,
            })),
            Ok(Look::Nothing(path)) => {
                *self.nothing_at = path;
                Ok(None)
            }
            Ok(Look::Folder) => Ok(None),
            Err(error) => Err(error),
        }
    }

    /// The reference of a key, and so of each name that has it, among the records of `packed-refs`, which is opened if it is
    /// asked for the first time.
    #[tactic(auto, using(crate::proofs::Steps::kept_after))]
    fn find_at_key(&mut self, key: FullNameRef<'_>) -> Result<Option<Reference>, Error>
        ensures found { OfNames self.old.settings (full_ref_bytes key.entry)
            (λ name. FindsRecord F.honest F.means self.old name result) }
        ensures seen { OfNames self.old.settings (full_ref_bytes key.entry)
            (λ name. SeesRecord F.honest F.means self.old name result) }
        ensures failed { OfNames self.old.settings (full_ref_bytes key.entry)
            (λ name. FailsAtRecord F.honest F.means F.faults self.old self.new name result) }
        ensures leaves { LooksOn F.honest F.means F.faults self.old self.new }
    {
        match self.records.open(self.alloc, self.files, self.settings) {
            Ok(()) => find_key(self.alloc, self.settings.namespace, self.records, key),
            Err(error) => Err(error),
        }
    }

    /// The reference of a name by its record in `packed-refs`, which is opened if it is asked for the first time.
    fn find_packed(&mut self, name: FullNameRef<'_>) -> Result<Option<Reference>, Error>
        ensures found { FindsRecord F.honest F.means self.old (full_ref_bytes name.entry) result }
        ensures seen { SeesRecord F.honest F.means self.old (full_ref_bytes name.entry) result }
        ensures failed { FailsAtRecord F.honest F.means F.faults self.old self.new
            (full_ref_bytes name.entry) result }
        ensures leaves { LooksOn F.honest F.means F.faults self.old self.new }
    {
        if self.settings.key_is_name(name) {
            return self.find_at_key(name);
        }
        match self.settings.key_name(self.alloc, name)? {
            Some(key) => self.find_at_key(key.as_ref()),
            None => Ok(None),
        }
    }

    /// The reference of a candidate: by its loose file, and else by its record. `ReadFileContents` where the loose file cannot
    /// be read, `ReferenceCreation` where it holds no target, `PackedOpen` where `packed-refs` cannot be opened or read,
    /// `PackedRef` where a malformed line was met and nothing was found or the record cannot be read, and `Memory`.
    /// Nothing may be at the path `nothing_at`: none is kept in an empty buffer, and each lookup leaves it so.
    pub fn find_candidate(&mut self, name: FullNameRef<'_>) -> Result<Option<Reference>, Error>
        requires nothing { KeepsNothing F.honest F.means self.old }
        ensures found { FindsCandidate F.honest F.means self.old (full_ref_bytes name.entry)
            result }
        ensures seen { SeesCandidate F.honest F.means self.old (full_ref_bytes name.entry) result }
        ensures failed { FailsAtCandidate F.honest F.means F.faults self.old self.new
            (full_ref_bytes name.entry) result }
        ensures leaves { LooksOn F.honest F.means F.faults self.old self.new }
    {
        match self.find_loose(name) {
            Ok(None) => self.find_packed(name),
            Ok(Some(reference)) => Ok(Some(reference)),
            Err(error) => Err(error),
        }
    }
}
