//! The records of a prefix, read from `packed-refs`.
ghost use Rattle.std.specs.Prelude.{◌≡◌, ℕ, List, IfOk, IfErr, OnOk, is_some};
ghost use Rattle.gix_ref_target.specs.PackedRecords.{Record};
ghost use Rattle.gix_ref_files.specs.Files.{FaultCounts};
ghost use Rattle.gix_ref_files.specs.ReadOnly.{OnlyReads};
ghost use Rattle.gix_ref_files.specs.Tree.{is_file};
ghost use Rattle.gix_ref_hash.specs.declared.hash.Kind.{Kind};
ghost use Rattle.gix_ref_packed.specs.Buffers.{HoldsRecords, IsRefusedBytes, IsRefusedFile, buffer_kind, buffer_text};
ghost use Rattle.gix_ref_packed_text.specs.Prefixes.{NamesAscend};
ghost use Rattle.gix_ref_packed.specs.FilePrefixes.{HoldsAsked, HoldsPrefix};
ghost use Rattle.gix_ref_packed.specs.OpenFiles.{CountsRefusal, packed_file_kind, packed_file_line, packed_file_text};
ghost use Rattle.gix_ref_lookup.specs.Lookups.{ArePackedRecordsWith, meaning_in, packed_refs_in};
ghost use Rattle.gix_ref_listing.specs.PrefixedRecords.{HoldsAskedOf, IsHeldFor, of_part};
ghost use Rattle.gix_ref_listing.specs.WholeListings.{HoldsFor, key_in};

use crate::store_walk::text_of;
use crate::walk::joined;
use gix_ref_files::files::{FileError, Files, ReadAt};
use gix_ref_lookup::settings::Settings;
use gix_ref_packed::packed::Buffer;
use gix_ref_packed::packed::buffer::open::Error;
use gix_ref_packed::packed::file::PackedFile;
use gix_ref_packed::packed::sorted_file::ReadError;
use std::alloc::Global;
use std::io::ErrorKind;

/// The error of opening for one of reading. A file that changes while it is read is a fault of the device.
fn of_part(error: ReadError) -> Error
    ensures { result ≡ of_part error }
{
    match error {
        ReadError::Io(error) => Error::Io(error),
        ReadError::Memory => Error::Memory,
        ReadError::Changed => Error::Io(FileError::Device(ErrorKind::InvalidData)),
    }
}

/// The records of a prefix in an open file.
fn read_part<R: ReadAt + Drop>(
    alloc: Global,
    file: PackedFile<R>,
    key: &[u8],
) -> Result<Buffer, Error>
    ensures holds { R.honest → (records : List Record) →
        HoldsRecords (packed_file_kind file) records (packed_file_text file) →
        IfOk result (λ b. HoldsFor (buffer_kind b) key.now records (buffer_text b)) }
    ensures part { R.honest → IfOk result (HoldsPrefix (packed_file_kind file)
        (packed_file_text file) (packed_file_line file) key.now) }
    ensures asked { R.honest → NamesAscend (packed_file_kind file) (packed_file_text file) →
        IfOk result (λ b. HoldsAsked (packed_file_kind file) (packed_file_text file) key.now
        (buffer_text b)) }
    ensures refused { R.honest → (kind : Kind) (bytes : List ℕ) →
        IfErr result (IsRefusedBytes kind bytes) }
    ensures failed { R.honest → (count : FaultCounts) →
        IfErr result (CountsRefusal R.faults count count) }
{
    match file.into_prefixed(alloc, key) {
        Ok(buffer) => Ok(buffer),
        Err(error) => Err(of_part(error)),
    }
}

/// The records of the prefix in the `packed-refs` of a store, for its listing of that prefix; `None` where there is no such
/// file. Of a file whose header says `sorted` only the lines of these records are read, and what halving looks at.
pub fn open_prefixed<F: Files>(
    alloc: Global,
    files: &mut F,
    settings: Settings<'_>,
    prefix: &[u8],
) -> Result<Option<Buffer>, Error>
    ensures holds { F.honest → (records : List Record) → ArePackedRecordsWith settings.entry
        (F.means files.old) records → IfOk result (λ found. IsHeldFor
        (key_in settings.entry prefix.now) found records) }
    ensures asked { F.honest → IfOk result (HoldsAskedOf settings.entry.kind
        (packed_refs_in settings.entry (F.means files.old)) (key_in settings.entry prefix.now)) }
    ensures there { F.honest → IfOk result (λ found. is_some found
        ≡ is_file ((F.means files.old).tree (meaning_in settings.entry).packed_path)) }
    ensures refused { F.honest → IfErr result (IsRefusedFile settings.entry.kind
        ((F.means files.old).tree (meaning_in settings.entry).packed_path)) }
    ensures no_fault { OnOk result (F.faults files.new ≡ F.faults files.old) }
    ensures failed { F.honest →
        IfErr result (CountsRefusal F.Reader.faults (F.faults files.old) (F.faults files.new)) }
    ensures reads { OnlyReads F.honest F.means F.faults files.old files.new }
{
    let path = settings.packed_refs_path(alloc)?;
    let key = joined(alloc, text_of(settings.namespace), prefix)?;
    match PackedFile::open(alloc, files, &path, settings.kind) {
        Ok(Some(file)) => match read_part(alloc, file, &key) {
            Ok(buffer) => Ok(Some(buffer)),
            Err(error) => Err(error),
        },
        Ok(None) => Ok(None),
        Err(error) => Err(error),
    }
}
