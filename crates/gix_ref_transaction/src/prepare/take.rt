//! All locks of a transaction, one edit after the other.
ghost use Rattle.std.specs.Prelude.{◌≡◌, ◌<◌, ◌-◌, ℕ, List, [], OnOk, IfErr, true, length, get_or};
ghost use Rattle.gix_ref_files.specs.Tree.{Tree, Path, has_folders};
ghost use Rattle.gix_ref_files.specs.Files.{disk_of};
ghost use Rattle.gix_ref_files.specs.Settled.{IsWholeAt};
ghost use Rattle.gix_ref_transaction.specs.HeldLocks.{edit_locks, AreReady, AreTakenByIds, FirstAreTaken, IsTakingFault, OnlyTakes};
ghost use Rattle.gix_ref_transaction.specs.Packing.{mode_of_packing};
ghost use Rattle.gix_ref_transaction.specs.PrepareSteps.{setting_of, place_paths, all_given};

use crate::edit::Edit;
use crate::packing::Packing;
use crate::prepare::Error;
use gix_ref_files::files::Files;
use gix_ref_files::paths::folder_end;
use gix_ref_lookup::settings::Settings;
use std::alloc::Global;

/// Whether every folder that leads to a path leads to another path too: the other path is in the folder of the path, or below it.
fn shares_folders(path: &[u8], other: &[u8]) -> bool
    ensures { (T : Tree) → result ≡ true → has_folders T other.now ≡ true →
        has_folders T path.now ≡ true }
{
    let end = folder_end(path);
    if end == 0 {
        return true;
    }
    end < other.len() && other[end] == b'/' && other[..end] == path[..end]
}

/// Whether the folders that lead to the place of an edit are known to be there once the lock of the edit before it is taken.
fn is_led_to(edits: &[Edit], i: usize) -> bool
    requires within { i < length edits.now }
    ensures after { result ≡ true → 0 < i }
    ensures folders { (T : Tree) → result ≡ true →
        has_folders T (get_or (place_paths edits.now) (i - 1) []) ≡ true →
        has_folders T (get_or (place_paths edits.now) i []) ≡ true }
{
    if i == 0 {
        return false;
    }
    shares_folders(edits[i].lock.place(), edits[i - 1].lock.place())
}

/// Takes the lock of each edit and compares the edit with what there is, up to the first that is at fault; `taken` counts the locks.
/// Each edit has the id of its record. The folders that lead to a place are not made again where the place before it shares them.
pub fn take_locks<F: Files>(
    alloc: Global,
    files: &mut F,
    settings: &Settings<'_>,
    packing: Packing,
    edits: &mut [Edit],
    taken: &mut usize,
) -> Result<(), Error>
    requires ready { AreReady (setting_of settings.now) settings.now.kind edits.old }
    requires none { taken.old ≡ 0 }
    ensures given { all_given edits.new ≡ all_given edits.old }
    ensures first { FirstAreTaken F.honest (setting_of settings.now) edits.old taken.new
        (F.means files.old).tree (F.means files.new).tree }
    ensures every { OnOk result (taken.new ≡ length edits.old) }
    ensures taken { F.honest → OnOk result (AreTakenByIds F.honest settings.now
        (mode_of_packing packing) (F.means files.old) (F.means files.new) edits.old edits.new) }
    ensures wholes { F.honest → (q : Path) (text : List ℕ) → IsWholeAt (disk_of (F.means files.old))
        q text → OnOk result (IsWholeAt (disk_of (F.means files.new)) q text) }
    ensures refused { IfErr result (IsTakingFault F.honest F.means F.faults
        (setting_of settings.now) settings.now.kind edits.old files.old files.new) }
    ensures takes { OnlyTakes F.honest F.means F.faults (edit_locks settings.now edits.old)
        files.old files.new }
{
    for i in 0..edits.len() {
        let is_ready = is_led_to(edits, i);
        let edit = &mut edits[i];
        edit.take(files, is_ready)?;
        *taken = i + 1;
        edit.compare_and_write(alloc, files, settings, packing)?;
    }
    Ok(())
}
