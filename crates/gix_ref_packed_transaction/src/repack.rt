//! What becomes of `packed-refs` by the edits of a transaction.
ghost use Rattle.std.specs.Prelude.{◌≡◌, List, true, false, Ok, OnOk, IfOk, IfErr};
ghost use Rattle.std.specs.List.{list_any};
ghost use Rattle.gix_ref_target.specs.PackedRecords.{Record};
ghost use Rattle.gix_ref_files.specs.Calls.{Unchanged};
ghost use Rattle.gix_ref_files.specs.ReadOnly.{OnlyReads};
ghost use Rattle.gix_ref_lookup.specs.Lookups.{ArePackedRecordsWith};
ghost use Rattle.gix_ref_theory.specs.Between.{AreEdits};
ghost use Rattle.gix_ref_transaction.specs.Packing.{plan_edits};
ghost use Rattle.gix_ref_transaction.specs.PrepareSteps.{setting_of};
ghost use Rattle.gix_ref_packed_transaction.specs.Refusals.{IsCountedRefusal, IsRepackFault, IsReadFile, IsRefusedRewrite};
ghost use Rattle.gix_ref_packed_transaction.specs.Repacks.{alters_record, IsRepack, OfGoodEdits};

use crate::changed::file_changed;
use crate::changes::{alter_some, sorted_changes};
use crate::error::Error;
use gix_ref_files::files::Files;
use gix_ref_lookup::settings::Settings;
use gix_ref_packed_text::outcome::Rewrite;
use gix_ref_transaction::edit::Edit;
use std::alloc::Global;

/// What becomes of `packed-refs` by the edits of a transaction whose locks are held: the records of the references that are deleted are
/// removed, what edits put is put, and all others stay with their ids as they are written. An edit of a log alone changes no record.
/// The file is read once, as a whole, and only where an edit puts a record, or deletes a reference of which one was found; no file is
/// changed. As the text of `commit` of gix-ref's `packed::Transaction`.
///
/// ```text
/// match repack(alloc, &mut files, &settings, &edits)? {
///     Rewrite::Unchanged => {} // no reference that is deleted has a record, and nothing is put
///     Rewrite::Removed => {} // no record is left: the file is to be removed
///     Rewrite::Text(text) => lock.write(&mut files, &text)?,
/// }
/// ```
pub fn repack<F: Files>(
    alloc: Global,
    files: &mut F,
    settings: &Settings<'_>,
    edits: &[Edit],
) -> Result<Rewrite, Error>
    // Of a well-formed file, among whose records the edits have their ids, it is what the edits make of it, where no two have
    // one place, and each puts what it is to; and there is no fault but of files or of memory.
    ensures repacked { F.honest → OfGoodEdits settings.now (F.means files.old) edits.now
        (λ mode rs. IfOk result (IsRepack (setting_of settings.now) mode settings.now.kind rs
        (plan_edits edits.now))) }
    ensures sound { F.honest → AreEdits (setting_of settings.now) (plan_edits edits.now) →
        (rs : List Record) → ArePackedRecordsWith settings.now (F.means files.old) rs → IfErr result
        IsRepackFault }

    // Of any file, a line that is reported is no record, and where an edit alters a record each line is one. Where no edit alters
    // a record, no file is looked at.
    ensures whole { F.honest → list_any alters_record edits.now ≡ true →
        OnOk result (IsReadFile settings.now.kind
        ((F.means files.old).tree (setting_of settings.now).packed_path)) }
    ensures refused { F.honest → IfErr result (IsRefusedRewrite settings.now.kind
        ((F.means files.old).tree (setting_of settings.now).packed_path)) }
    ensures idle { list_any alters_record edits.now ≡ false → (files.new ≡ files.old)
        × (result ≡ Ok Rewrite.Unchanged) }
    ensures reads { OnlyReads F.honest F.means F.faults files.old files.new }
    ensures counted { IfErr result (IsCountedRefusal (F.faults files.old) (F.faults files.new)) }
{
    if !alter_some(edits) {
        return Ok(Rewrite::Unchanged);
    }
    let changes = sorted_changes(alloc, settings, edits)?;
    file_changed(alloc, files, settings, &changes)
}
