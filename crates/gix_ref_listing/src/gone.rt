//! A file that a walk found, and that is gone when its item is read: a program that packs references may have moved the reference
//! into `packed-refs` since (`git pack-refs`). So its name is asked for once more.
ghost use Rattle.std.specs.Prelude.{◌≡◌, List, IfOk, IfSome, OnOk};
ghost use Rattle.gix_ref_name.specs.Names.{full_bytes, full_ref_bytes};
ghost use Rattle.gix_ref_target.specs.PackedRecords.{Record, record_named};
ghost use Rattle.gix_ref_packed_text.specs.Windows.{AreFound};
ghost use Rattle.gix_ref_theory.specs.OnRealTrees.{contents};
ghost use Rattle.gix_ref_lookup.specs.Lookups.{ArePackedRecordsWith, meaning_in, packed_refs_in};
ghost use Rattle.gix_ref_files.specs.ReadOnly.{OnlyReads};
ghost use Rattle.gix_ref_listing.specs.GoneFiles.{HitsNow, IsAskedAgain, IsFoundNow, IsGone, IsPackedAgain, IsPackedUnread};

use crate::error::{Error, of_reading};
use gix_ref_files::files::{FileError, Files};
use gix_ref_lookup::find;
use gix_ref_lookup::find::ReadError;
use gix_ref_lookup::find::candidate::read_at;
use gix_ref_lookup::find::records::Records;
use gix_ref_lookup::settings::Settings;
use gix_ref_name::name::{FullName, FullNameRef};
use gix_ref_packed::packed::Found;
use gix_ref_packed::packed::buffer::open;
use gix_ref_packed::raw::Reference;
use gix_ref_target::target::Target;
use std::alloc::Global;
use std::io::ErrorKind;

/// The fault of a file that was removed since it was found.
fn gone(alloc: Global, settings: Settings<'_>, name: &FullName) -> Error
    ensures { IsGone ((meaning_in settings.entry).place (full_bytes name.now)) result }
{
    match settings.place(alloc, name.as_ref()) {
        Ok(path) => Error::ReadFileContents {
            source: ReadError::File(FileError::Device(ErrorKind::NotFound)),
            path,
        },
        Err(_) => Error::Memory,
    }
}

/// The fault of a `packed-refs` that could not be read.
fn unread(alloc: Global, settings: Settings<'_>, error: FileError) -> Error
    ensures { IsPackedUnread (meaning_in settings.entry).packed_path result }
{
    match settings.packed_refs_path(alloc) {
        Ok(path) => Error::ReadFileContents {
            source: ReadError::File(error),
            path,
        },
        Err(_) => Error::Memory,
    }
}

/// The fault of a `packed-refs` that could not be opened or searched. Where its text is the reason, it holds invalid data.
fn of_records(alloc: Global, settings: Settings<'_>, error: find::Error) -> Error
    ensures { IsPackedUnread (meaning_in settings.entry).packed_path result }
{
    match error {
        find::Error::PackedOpen(open::Error::Io(error)) => unread(alloc, settings, error),
        find::Error::PackedOpen(_) | find::Error::PackedRef(_) => {
            unread(alloc, settings, FileError::Device(ErrorKind::InvalidData))
        }
        find::Error::RefnameValidation(_)
        | find::Error::ReadFileContents { .. }
        | find::Error::ReferenceCreation { .. }
        | find::Error::Memory => Error::Memory,
    }
}

/// The ids of the record of a key in `packed-refs`, which is opened for it; `None` where it has none.
fn find_key<F: Files>(
    alloc: Global,
    files: &mut F,
    settings: Settings<'_>,
    key: FullNameRef<'_>,
) -> Result<Option<Found>, find::Error>
    ensures found { F.honest → (records : List Record) → ArePackedRecordsWith settings.entry
        (F.means files.old) records → IfOk result (AreFound
        (record_named (full_ref_bytes key.entry) records)) }
    ensures hit { F.honest → IfOk result (λ found. IfSome found (HitsNow settings.entry.kind
        (packed_refs_in settings.entry (F.means files.old)) (full_ref_bytes key.entry))) }
    ensures no_fault { OnOk result (F.faults files.new ≡ F.faults files.old) }
    ensures looks { OnlyReads F.honest F.means F.faults files.old files.new }
{
    let mut records = Records::Unopened;
    match records.open(alloc, files, settings) {
        Ok(()) => records.find(key),
        Err(error) => Err(error),
    }
}

/// The ids of the record of a name in `packed-refs`, which is opened for it; `None` where it has none.
fn find_record<F: Files>(
    alloc: Global,
    files: &mut F,
    settings: Settings<'_>,
    name: FullNameRef<'_>,
) -> Result<Option<Found>, find::Error>
    ensures found { F.honest → IfOk result
        (IsFoundNow settings.entry (contents F.means files.old) (full_ref_bytes name.entry)) }
    ensures no_fault { OnOk result (F.faults files.new ≡ F.faults files.old) }
    ensures looks { OnlyReads F.honest F.means F.faults files.old files.new }
{
    match settings.key_name(alloc, name)? {
        Some(key) => find_key(alloc, files, settings, key.as_ref()),
        None => Ok(None),
    }
}

/// The reference of a name by its record in `packed-refs`, which is opened for it; else the fault that its file is gone.
fn find_packed<F: Files>(
    alloc: Global,
    files: &mut F,
    settings: Settings<'_>,
    name: FullName,
) -> Result<Reference, Error>
    ensures item { IsPackedAgain F.honest settings.entry (contents F.means files.old) name result }
    ensures no_fault { OnOk result (F.faults files.new ≡ F.faults files.old) }
    ensures looks { OnlyReads F.honest F.means F.faults files.old files.new }
{
    match find_record(alloc, files, settings, name.as_ref()) {
        Ok(Some(found)) => Ok(Reference {
            name,
            target: Target::Object(found.target),
            peeled: found.object,
        }),
        Ok(None) => Err(gone(alloc, settings, &name)),
        Err(error) => Err(of_records(alloc, settings, error)),
    }
}

/// The reference of a name whose file was removed since a walk found it: by the file at its own place, or else by its record in
/// `packed-refs`, which is opened for it. Where it has neither, the fault is that its file is gone; where `packed-refs` cannot be
/// opened or searched, it is that this file could not be read.
pub(crate) fn find_again<F: Files>(
    alloc: Global,
    files: &mut F,
    settings: Settings<'_>,
    name: FullName,
) -> Result<Reference, Error>
    ensures item { IsAskedAgain F.honest settings.entry (contents F.means files.old)
        (F.faults files.old) (F.faults files.new) name result }
    ensures no_fault { OnOk result (F.faults files.new ≡ F.faults files.old) }
    ensures looks { OnlyReads F.honest F.means F.faults files.old files.new }
{
    let place = settings.place(alloc, name.as_ref())?;
    match read_at(alloc, files, settings, name.as_ref(), place) {
        Ok(Some(target)) => Ok(Reference {
            name,
            target,
            peeled: None,
        }),
        Ok(None) => find_packed(alloc, files, settings, name),
        Err(error) => Err(of_reading(error)),
    }
}
