//! One item of a listing.
ghost use Rattle.std.specs.Prelude.{◌≡◌, ◌≤◌, ◌+◌, List, IfErr, IfSome, IfNone, OnOk};
ghost use Rattle.std.specs.Option.{option_len};
ghost use Rattle.gix_ref_name.specs.Names.{full_ref_bytes};
ghost use Rattle.gix_ref_theory.specs.OnRealTrees.{contents};
ghost use Rattle.gix_ref_lookup.specs.Lookups.{meaning_in};
ghost use Rattle.gix_ref_files.specs.ReadOnly.{OnlyReads};
ghost use Rattle.gix_ref_listing.specs.OwnRecords.{own_of};
ghost use Rattle.gix_ref_listing.specs.GoneFiles.{IsFoundOrGone, IsTakenItem};
ghost use Rattle.gix_ref_listing.specs.Items.{IsAllowed, IsRecordFault, IsRecordItem};
ghost use Rattle.gix_ref_listing.specs.Listings.{Listed, IsNotLent, merge_left};
ghost use Rattle.gix_ref_listing.specs.PlainSettings.{plain};
ghost use Rattle.gix_ref_listing.specs.Steps.{AreYet, GivesNext, GivesRecord};
ghost use Rattle.gix_ref_listing.specs.declared.found.Found.TheVariants.{File};

use crate::error::{Error, of_line, of_reading};
use crate::found::Found;
use crate::gone::find_again;
use crate::merge::{Merge, Taken};
use crate::own_records::OwnRecord;
use gix_ref_files::files::Files;
use gix_ref_lookup::find::ReadError;
use gix_ref_lookup::find::candidate::read_at;
use gix_ref_lookup::settings::Settings;
use gix_ref_name::name::{FullName, FullNameRef};
use gix_ref_packed::raw::Reference;
use gix_ref_target::target::Target;
use std::alloc::Global;

/// The reference in the file of a name; where the file is gone, what the name reads now.
fn file_item<F: Files>(
    alloc: Global,
    files: &mut F,
    settings: Settings<'_>,
    name: FullName,
    path: Vec<u8>,
) -> Result<Reference, Error>
    ensures item { IsFoundOrGone F.honest settings.entry (contents F.means files.old)
        (F.faults files.old) (F.faults files.new) (File name path) result }
    ensures no_fault { OnOk result (F.faults files.new ≡ F.faults files.old) }
    ensures looks { OnlyReads F.honest F.means F.faults files.old files.new }
{
    match read_at(alloc, files, settings, name.as_ref(), path) {
        Ok(Some(target)) => Ok(Reference {
            name,
            target,
            peeled: None,
        }),
        Ok(None) => find_again(alloc, files, settings, name),
        Err(error) => Err(of_reading(error)),
    }
}

/// Refuses the record of a name whose place has the name of a device, where the store prohibits these, as a lookup of the name
/// does. Where it prohibits none, no path is made.
fn check_place(alloc: Global, settings: Settings<'_>, name: FullNameRef<'_>) -> Result<(), Error>
    ensures allowed { OnOk result
        (IsAllowed (meaning_in settings.entry) (full_ref_bytes name.entry)) }
    ensures refused { IfErr result
        (IsRecordFault (meaning_in settings.entry) (full_ref_bytes name.entry)) }
{
    if !settings.prohibit_windows_device_names {
        return Ok(());
    }
    let path = settings.place(alloc, name)?;
    if settings.is_prohibited(&path) {
        return Err(Error::ReadFileContents {
            source: ReadError::DeviceName,
            path,
        });
    }
    Ok(())
}

/// The reference of a record.
fn record_item(
    alloc: Global,
    settings: Settings<'_>,
    own: OwnRecord<'_>,
) -> Result<Reference, Error>
    ensures { IsRecordItem settings.entry (own_of own.entry) result }
{
    check_place(alloc, settings, own.name)?;
    Ok(Reference {
        name: own.name.to_owned(alloc)?,
        target: Target::Object(own.record.target()),
        peeled: own.record.peeled(),
    })
}

/// What was taken of a listing, as an item.
fn item<F: Files>(
    alloc: Global,
    files: &mut F,
    settings: Settings<'_>,
    taken: Taken<'_>,
) -> Result<Reference, Error>
    ensures item { IsTakenItem F.honest settings.entry (contents F.means files.old)
        (F.faults files.old) (F.faults files.new) taken.entry result }
    ensures no_fault { OnOk result (F.faults files.new ≡ F.faults files.old) }
    ensures looks { OnlyReads F.honest F.means F.faults files.old files.new }
{
    match taken {
        Taken::Walked(Found::File { name, path }) => file_item(alloc, files, settings, name, path),
        Taken::Walked(Found::Unlisted { path, source }) => Err(Error::Traversal { source, path }),
        Taken::Packed(Ok(own)) => record_item(alloc, settings, own),
        Taken::Packed(Err(error)) => Err(of_line(alloc, error)),
    }
}

/// The next of a listing, as an item.
fn take_item<F: Files>(
    alloc: Global,
    files: &mut F,
    settings: Settings<'_>,
    merge: &mut Merge<'_>,
) -> Option<Result<Reference, Error>>
    ensures next { GivesNext F.honest F.means F.faults settings.entry files.old files.new merge.old
        result merge.new }
    ensures left { option_len result + merge_left merge.new ≤ merge_left merge.old }
{
    match merge.take(settings) {
        Some(taken) => Some(item(alloc, files, settings, taken)),
        None => None,
    }
}

/// The next of a listing, as an item. Reads one file where it is a loose reference; where that file was removed since the walk
/// found it, its name is asked for once more, with `packed-refs` opened for it.
pub fn next_item<F: Files>(
    alloc: Global,
    files: &mut F,
    settings: Settings<'_>,
    merge: &mut Merge<'_>,
) -> Option<Result<Reference, Error>>
    ensures next { GivesNext F.honest F.means F.faults
        (plain settings.entry) files.old files.new merge.old result merge.new }
    ensures left { option_len result + merge_left merge.new ≤ merge_left merge.old }
{
    take_item(alloc, files, settings, merge)
}

/// The next of a listing, lent, where it is a record of `packed-refs`. `None` where it is anything else, which then stays the
/// next, and at the end; and always where the store prohibits device names, so that `next_item` gives the record, or why it is not
/// given. Takes no memory.
pub fn next_record<'p>(settings: Settings<'_>, merge: &mut Merge<'p>) -> Option<OwnRecord<'p>>
    ensures gives { IfSome result (GivesRecord (plain settings.entry) merge.old merge.new) }
    ensures none { IfNone result ((listed : List Listed) →
        AreYet (plain settings.entry) merge.old listed → IsNotLent settings.entry listed) }
    ensures stays { IfNone result (merge.new ≡ merge.old) }
    ensures left { option_len result + merge_left merge.new ≤ merge_left merge.old }
{
    merge.take_record(settings)
}
