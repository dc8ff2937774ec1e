//! The records that a lookup asks for a name: those of `packed-refs`, which is opened when the first name is asked for.
ghost use Rattle.std.specs.Prelude.{◌≡◌, List, Option, None, IfOk, MatchResult};
ghost use Rattle.gix_ref_hash.specs.declared.hash.Kind.{Kind};
ghost use Rattle.gix_ref_target.specs.PackedRecords.{Record};
ghost use Rattle.gix_ref_files.specs.ReadOnly.{OnlyReads};
ghost use Rattle.gix_ref_lookup.specs.Lookups.{AreAsked, ArePackedRecordsWith, IsFaultOf, IsFaultOrMemory, IsNotOpened, IsReady, OpensAsked, as_found, of_opening, of_search};

use crate::find::Error;
use crate::settings::Settings;
use gix_ref_files::files::{FileError, Files, ReadAt};
use gix_ref_name::name::FullNameRef;
use gix_ref_packed::packed;
use gix_ref_packed::packed::buffer::open;
use gix_ref_packed::packed::file::PackedFile;
use gix_ref_packed::packed::sorted_file::{FindError, ReadError};
use gix_ref_packed::packed::unsorted::find_in_order;
use gix_ref_packed::packed::{Buffer, Found};
use std::alloc::Global;
use std::io::ErrorKind;

/// The records that a lookup asks.
#[derive(Drop)]
pub enum Records<'b, R: ReadAt + Drop> {
    /// None.
    None,
    /// Those of a buffer of the caller.
    Held(&'b Buffer),
    /// Those of `packed-refs`, which is not open yet.
    Unopened,
    /// Those of `packed-refs`.
    Open(PackedFile<R>),
}

/// The error of a lookup for one of opening.
fn refused(error: open::Error) -> Error
    ensures { result ≡ of_opening error }
{
    match error {
        open::Error::Memory => Error::Memory,
        other => Error::PackedOpen(other),
    }
}

/// The error of a lookup for one of a search.
fn not_found(error: FindError) -> Error
    ensures { result ≡ of_search error }
{
    match error {
        FindError::Read(ReadError::Io(error)) => Error::PackedOpen(open::Error::Io(error)),
        FindError::Read(ReadError::Memory) => Error::Memory,
        FindError::Read(ReadError::Changed) => {
            Error::PackedOpen(open::Error::Io(FileError::Device(ErrorKind::InvalidData)))
        }
        FindError::Parse => Error::PackedRef(packed::find::Error::Parse),
    }
}

/// What a search found, with the error of a lookup.
fn said(found: Result<Option<Found>, FindError>) -> Result<Option<Found>, Error>
    ensures { result ≡ as_found found }
{
    match found {
        Ok(found) => Ok(found),
        Err(error) => Err(not_found(error)),
    }
}

/// Opens `packed-refs`.
fn open_records<'b, F: Files>(
    alloc: Global,
    files: &mut F,
    settings: Settings<'_>,
) -> Result<Records<'b, F::Reader>, Error>
    ensures ready { IfOk result IsReady }
    ensures asked { F.honest → (records : List Record) → ArePackedRecordsWith settings.entry
        (F.means files.old) records → MatchResult result
        (λ r. AreAsked settings.entry.kind None r records) IsFaultOrMemory }
    ensures opened { F.honest → IfOk result
        (OpensAsked settings.entry (F.means files.old) Records.Unopened) }
    ensures refused { MatchResult result (λ _. F.faults files.new ≡ F.faults files.old)
        (IsNotOpened F.honest (IsFaultOf F.Reader.faults (F.faults files.old) (F.faults files.new))
        settings.entry (F.means files.old).tree) }
    ensures reads { OnlyReads F.honest F.means F.faults files.old files.new }
{
    let path = settings.packed_refs_path(alloc)?;
    match PackedFile::open(alloc, files, &path, settings.kind) {
        Ok(Some(file)) => Ok(Records::Open(file)),
        Ok(None) => Ok(Records::None),
        Err(error) => Err(refused(error)),
    }
}

impl<R: ReadAt + Drop> Records<'_, R> {
    ghost use Rattle.std.specs.Prelude.{◌≡◌, List, OnOk, IfErr, IfOk, MatchOption, MatchResult, None};
    ghost use Rattle.gix_ref_name.specs.Names.{full_ref_bytes};
    ghost use Rattle.gix_ref_target.specs.PackedRecords.{Record, record_named};
    ghost use Rattle.gix_ref_hash.specs.declared.hash.Kind.{Kind};
    ghost use Rattle.gix_ref_packed_text.specs.Positions.{CannotRead};
    ghost use Rattle.gix_ref_packed_text.specs.Windows.{AreFound, HitsRecord};
    ghost use Rattle.gix_ref_lookup.specs.Lookups.{AreAsked, AreAskedWith, AreHonest, AreOfFile, AreStillAsked, FindsNone, IsFaultOf, IsFaultOrMemory, IsNotOpened, IsNotPacked, IsReadFault, IsReady, OfSearched, OpensAsked};

    /// Opens `packed-refs`, if it is asked for the first time. `PackedOpen` where it cannot be opened, and `Memory`.
    pub fn open<F: Files<Reader = R>>(
        &mut self,
        alloc: Global,
        files: &mut F,
        settings: Settings<'_>,
    ) -> Result<(), Error>
        ensures ready { MatchResult result (λ _. IsReady self.new)
            (λ _. (self.new ≡ self.old) × AreOfFile self.old) }
        ensures asked { F.honest → (records : List Record) → AreAskedWith settings.entry
            (F.means files.old) self.old records → MatchResult result
            (λ _. AreAsked settings.entry.kind None self.new records) IsFaultOrMemory }
        ensures opened { F.honest → OnOk result
            (OpensAsked settings.entry (F.means files.old) self.old self.new) }
        ensures refused { MatchResult result (λ _. F.faults files.new ≡ F.faults files.old)
            (IsNotOpened F.honest (IsFaultOf R.faults (F.faults files.old) (F.faults files.new))
            settings.entry (F.means files.old).tree) }
        ensures reads { OnlyReads F.honest F.means F.faults files.old files.new }
    {
        let Records::Unopened = self else {
            return Ok(());
        };
        match open_records(alloc, files, settings) {
            Ok(records) => {
                *self = records;
                Ok(())
            }
            Err(error) => Err(error),
        }
    }

    /// The ids of the record of a key, once `packed-refs` is open; `None` where there is no such record. `PackedOpen`
    /// where the file cannot be read, `PackedRef` where a malformed line was met and nothing was found, or the record that
    /// was found cannot be read, and `Memory`.
    pub fn find(&mut self, key: FullNameRef<'_>) -> Result<Option<Found>, Error>
        requires { IsReady self.now }
        ensures found { (kind : Kind) (records : List Record) →
            AreAsked kind None self.old records → MatchResult result
            (AreFound (record_named (full_ref_bytes key.entry) records)) IsFaultOrMemory }
        ensures seen { AreHonest self.old → (kind : Kind) →
            IfOk result (λ found. MatchOption found (FindsNone kind None self.old)
            (λ f. OfSearched kind None self.old
            (λ k text. HitsRecord k text (full_ref_bytes key.entry) f))) }
        ensures failed { (kind : Kind) → IfErr result
            (IsNotPacked (AreHonest self.old) (IsReadFault self.old) (OfSearched kind None self.old
            (λ k text. CannotRead k text (full_ref_bytes key.entry))) (λ error. ⊥)) }
        ensures still { (kind : Kind) → AreStillAsked kind None self.old self.new }
        ensures ready { IsReady self.new }
    {
        match self {
            Records::None | Records::Unopened => Ok(None),
            Records::Held(buffer) => said(find_in_order(buffer, key)),
            Records::Open(file) => said(file.find(key)),
        }
    }
}
