//! Whether a store is as `git init` makes it.
ghost use Rattle.std.specs.Prelude.{◌≡◌, ◌↔◌, true, false, IsTrue, IfOk};
ghost use Rattle.gix_ref_name.specs.Names.{full_ref_bytes};
ghost use Rattle.gix_ref_target.specs.Targets.{target_value};
ghost use Rattle.gix_ref_target.specs.Targets.TargetValue.{symbolic_name};
ghost use Rattle.gix_ref_theory.specs.OnRealTrees.{contents};
ghost use Rattle.gix_ref_listing.specs.PlainSettings.{plain};
ghost use Rattle.gix_ref_listing.specs.PristineStores.{HasLoose, HasNoLoose, HasNoReferences, HasReferences, IsReading, SaysHead, SaysOfFiles, SaysPristine, SaysReadable, SaysReadableAmong, has_packed_refs};
ghost use Rattle.gix_ref_listing.specs.Walks.{IsAnyMet};
ghost use Rattle.gix_ref_listing.specs.declared.pristine.Reading.TheVariants.{Fault};
ghost use Rattle.gix_ref_files.specs.ReadOnly.{OnlyReads};

use crate::found::{Found, FoundByKey};
use crate::store_walk::walk_store;
use gix_ref_files::files::{Files, Node};
use gix_ref_lookup::find;
use gix_ref_lookup::find::ReadError;
use gix_ref_lookup::find::candidate::read_at;
use gix_ref_lookup::settings::Settings;
use gix_ref_name::name::FullNameRef;
use gix_ref_target::target::Target;
use std::alloc::{AllocError, Global};

/// What the file at a path is read as.
#[derive(Drop)]
enum Reading {
    /// This target, less the namespace.
    Is(Target),
    /// Nothing: there is no file, it holds no target, or it has the name of a device and the store prohibits these.
    Nothing,
    /// The file could not be read.
    Fault,
}

/// Reads the file at a path, for a name.
fn reading_at<F: Files>(
    alloc: Global,
    files: &mut F,
    settings: Settings<'_>,
    name: FullNameRef<'_>,
    path: Vec<u8>,
) -> Result<Reading, AllocError>
    ensures reads { F.honest →
        IfOk result (IsReading (plain settings.entry) (contents F.means files.old) path.items) }
    ensures fault { IfOk result (λ reading. reading ≡ Fault →
        IsAnyMet (F.faults files.old) (F.faults files.new)) }
    ensures looks { OnlyReads F.honest F.means F.faults files.old files.new }
{
    match read_at(alloc, files, settings, name, path) {
        Ok(Some(target)) => Ok(Reading::Is(target)),
        Ok(None) => Ok(Reading::Nothing),
        Err(find::Error::ReferenceCreation { .. }) => Ok(Reading::Nothing),
        Err(find::Error::ReadFileContents { source, .. }) => match source {
            ReadError::DeviceName => Ok(Reading::Nothing),
            ReadError::File(_) => Ok(Reading::Fault),
        },
        Err(_) => Err(AllocError),
    }
}

/// Whether a target is symbolic to a name.
fn points_to(target: &Target, name: FullNameRef<'_>) -> bool
    ensures { IsTrue result
        ↔ (target_value target.now ≡ symbolic_name (full_ref_bytes name.entry)) }
{
    match target {
        Target::Object(_) => false,
        Target::Symbolic(other) => other.eq_bytes(name.to_path()),
    }
}

/// Whether `HEAD` is symbolic to a name; `None` where it is read as nothing, or could not be read.
fn head_points_to<F: Files>(
    alloc: Global,
    files: &mut F,
    settings: Settings<'_>,
    name: FullNameRef<'_>,
) -> Result<Option<bool>, AllocError>
    ensures says { IfOk result (SaysHead F.honest (plain settings.entry)
        (contents F.means files.old) (F.faults files.old) (F.faults files.new)
        (full_ref_bytes name.entry)) }
    ensures looks { OnlyReads F.honest F.means F.faults files.old files.new }
{
    let Some(head) = FullNameRef::from_path(b"HEAD") else {
        return Ok(None);
    };
    let path = settings.place(alloc, head)?;
    match reading_at(alloc, files, settings, head, path)? {
        Reading::Is(target) => Ok(Some(points_to(&target, name))),
        Reading::Nothing => Ok(None),
        Reading::Fault => Ok(None),
    }
}

/// Whether `packed-refs` exists; `None` where that could not be found out.
fn has_packed_refs<F: Files>(
    alloc: Global,
    files: &mut F,
    settings: Settings<'_>,
) -> Result<Option<bool>, AllocError>
    ensures says { let there = has_packed_refs (plain settings.entry) (F.means files.old).tree in
        IfOk result (SaysOfFiles F.honest F.faults files.old files.new
        (there ≡ true) (there ≡ false)) }
    ensures looks { OnlyReads F.honest F.means F.faults files.old files.new }
{
    let path = settings.packed_refs_path(alloc)?;
    match files.kind(&path) {
        Ok(Node::File) => Ok(Some(true)),
        Ok(Node::Folder | Node::Nothing | Node::Blocked) => Ok(Some(false)),
        Err(_) => Ok(None),
    }
}

/// Whether what was found is a file that can be read, or another one was; `None` where it is a folder, or could not be read.
fn is_readable<F: Files>(
    alloc: Global,
    files: &mut F,
    settings: Settings<'_>,
    found: Found,
    other: bool,
) -> Result<Option<bool>, AllocError>
    ensures says { IfOk result (SaysReadable F.honest (plain settings.entry)
        (contents F.means files.old) (F.faults files.old) (F.faults files.new) found other) }
    ensures looks { OnlyReads F.honest F.means F.faults files.old files.new }
{
    match found {
        Found::Unlisted { .. } => Ok(None),
        Found::File { .. } if other => Ok(Some(true)),
        Found::File { name, path } => {
            match reading_at(alloc, files, settings, name.as_ref(), path)? {
                Reading::Is(_) => Ok(Some(true)),
                Reading::Nothing => Ok(Some(false)),
                Reading::Fault => Ok(None),
            }
        }
    }
}

/// Whether a file that was found can be read; `None` where a folder is among what was found, or a file could not be read. Of the
/// files those up to the first that can be read are read.
fn any_readable<F: Files>(
    alloc: Global,
    files: &mut F,
    settings: Settings<'_>,
    mut found: FoundByKey,
) -> Result<Option<bool>, AllocError>
    ensures says { IfOk result (SaysReadableAmong F.honest (plain settings.entry)
        (contents F.means files.old) (F.faults files.old) (F.faults files.new) found.entries) }
    ensures looks { OnlyReads F.honest F.means F.faults files.old files.new }
{
    let mut any = false;
    while let Some((_, one)) = found.pop_first() {
        match is_readable(alloc, files, settings, one, any)? {
            Some(is) => any = is,
            None => return Ok(None),
        }
    }
    Ok(Some(any))
}

/// Whether a loose reference with the prefix can be read; `None` where a folder could not be listed or a file not be read.
fn has_loose<F: Files>(
    alloc: Global,
    files: &mut F,
    settings: Settings<'_>,
    prefix: &[u8],
) -> Result<Option<bool>, AllocError>
    ensures says { let s = plain settings.entry in let view = contents F.means files.old in
        IfOk result (SaysOfFiles F.honest F.faults files.old files.new
        (HasLoose s view prefix.now) (HasNoLoose s view prefix.now)) }
    ensures looks { OnlyReads F.honest F.means F.faults files.old files.new }
{
    let Ok(found) = walk_store(alloc, files, settings, prefix) else {
        return Err(AllocError);
    };
    any_readable(alloc, files, settings, found)
}

/// Whether there is a `packed-refs` or a loose reference with the prefix that can be read; `None` where a fault came.
fn has_references<F: Files>(
    alloc: Global,
    files: &mut F,
    settings: Settings<'_>,
    prefix: &[u8],
) -> Result<Option<bool>, AllocError>
    ensures says { let s = plain settings.entry in let T = (F.means files.old).tree in
        IfOk result (SaysOfFiles F.honest F.faults files.old files.new
        (HasReferences s T prefix.now) (HasNoReferences s T prefix.now)) }
    ensures looks { OnlyReads F.honest F.means F.faults files.old files.new }
{
    match has_packed_refs(alloc, files, settings)? {
        Some(true) => Ok(Some(true)),
        Some(false) => has_loose(alloc, files, settings, prefix),
        None => Ok(None),
    }
}

/// Whether `HEAD` is symbolic to the name and no reference is there: no loose one with the prefix can be read, and there is no
/// `packed-refs`. `None` where `HEAD` is read as nothing, and where a fault came. The error says that there was no memory.
pub fn is_pristine<F: Files>(
    alloc: Global,
    files: &mut F,
    settings: Settings<'_>,
    prefix: &[u8],
    name: FullNameRef<'_>,
) -> Result<Option<bool>, AllocError>
    ensures says { IfOk result (SaysPristine F.honest (plain settings.entry)
        (F.means files.old).tree (F.faults files.old) (F.faults files.new) prefix.now
        (full_ref_bytes name.entry)) }
    ensures looks { OnlyReads F.honest F.means F.faults files.old files.new }
{
    match head_points_to(alloc, files, settings, name)? {
        Some(true) => match has_references(alloc, files, settings, prefix)? {
            Some(true) => Ok(Some(false)),
            Some(false) => Ok(Some(true)),
            None => Ok(None),
        },
        Some(false) => Ok(Some(false)),
        None => Ok(None),
    }
}
