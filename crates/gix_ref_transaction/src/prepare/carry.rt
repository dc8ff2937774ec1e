//! Edits that carry what was found of them.
ghost use Rattle.std.specs.Prelude.{◌≡◌};
ghost use Rattle.gix_ref_transaction.specs.Parents.{parents_in};
ghost use Rattle.gix_ref_transaction.specs.PrepareSteps.{value_of, place_paths, puts_in, targets_of, effects_of, ids_in, seen_files, updates};
ghost use Rattle.gix_ref_transaction.specs.CarriedEdits.{IsCarried, AreCarried};

use crate::edit::Edit;
use gix_ref_edits::transaction::{Change, PreviousValue};

/// The edit whose reference was found expects just that.
fn record_old_value(edit: &mut Edit)
    ensures carried { IsCarried edit.old.update (value_of edit.old.found) edit.new.update }
    ensures place { edit.new.lock ≡ edit.old.lock }
    ensures parent { edit.new.parent ≡ edit.old.parent }
    ensures file { edit.new.has_file ≡ edit.old.has_file }
    ensures effect { edit.new.effect ≡ edit.old.effect }
    ensures id { edit.new.packed ≡ edit.old.packed }
    ensures put { edit.new.put ≡ edit.old.put }
{
    let Some(target) = edit.found.take() else {
        return;
    };
    match &mut edit.update.change {
        Change::Update { expected, .. } => *expected = PreviousValue::MustExistAndMatch(target),
        Change::Delete { expected, .. } => *expected = PreviousValue::MustExistAndMatch(target),
    }
}

/// Each edit whose reference was found expects just that.
pub fn record_old_values(edits: &mut [Edit])
    ensures carried { AreCarried (updates edits.old) (targets_of edits.old) (updates edits.new) }
    ensures places { place_paths edits.new ≡ place_paths edits.old }
    ensures parents { parents_in edits.new ≡ parents_in edits.old }
    ensures files { seen_files edits.new ≡ seen_files edits.old }
    ensures effects { effects_of edits.new ≡ effects_of edits.old }
    ensures ids { ids_in edits.new ≡ ids_in edits.old }
    ensures puts { puts_in edits.new ≡ puts_in edits.old }
{
    for edit in edits.iter_mut() {
        record_old_value(edit);
    }
}
