//! Whether what is prepared is what was asked for. An update of the branch that `HEAD` leads to is made through `HEAD`; where `HEAD` is
//! switched after that look and before its lock is taken, it would be an update of another branch.
ghost use Rattle.std.specs.Prelude.{◌≡◌, Decides, MatchOption, MatchResult, false, map};
ghost use Rattle.std.specs.Bool.{OnTrue};
ghost use Rattle.gix_ref_name.specs.Names.{full_bytes};
ghost use Rattle.gix_ref_store.specs.PreparedFields.{prepared_edits};
ghost use Rattle.gix_ref_session.specs.Named.{AreNamed, IsHeld, IsNamed, IsSwitched, IsSwitchedFor, IsUnnamed};

use crate::fatal::Fatal;
use crate::lead::updates;
use gix_ref_edits::transaction::RefEdit;
use gix_ref_files::files::Files;
use gix_ref_name::name::FullName;
use gix_ref_store::file::transaction::Prepared;
use std::alloc::Global;

/// Whether an edit of this name is held.
fn is_held(name: &FullName, held: &[&RefEdit]) -> bool
    ensures { Decides result (IsHeld (map (λ edit. edit.now) held.now) (full_bytes name.now)) }
{
    for edit in held {
        if edit.name.eq_bytes(name.to_path()) {
            return true;
        }
    }
    false
}

/// Whether the reference of an update is among those that are held; at its own place in the list, but for one that is led.
fn is_named(at: usize, edit: &RefEdit, held: &[&RefEdit]) -> bool
    ensures named { OnTrue result (IsNamed (map (λ edit. edit.now) held.now) edit.now) }
    ensures unnamed { result ≡ false → IsUnnamed (map (λ edit. edit.now) held.now) edit.now }
{
    if !updates(&edit.change) {
        return true;
    }
    if at < held.len() && held[at].name.eq_bytes(edit.name.to_path()) {
        return true;
    }
    is_held(&edit.name, held)
}

/// The name of the first update whose reference is not among those that are held.
fn first_unnamed<'e>(edits: &'e [RefEdit], held: &[&RefEdit]) -> Option<&'e FullName>
    ensures { MatchOption result (AreNamed (map (λ edit. edit.now) held.now) edits.now)
        (λ name. IsSwitched (map (λ edit. edit.now) held.now) edits.now (full_bytes name.now)) }
{
    for (at, edit) in edits.iter().enumerate() {
        if !is_named(at, edit, held) {
            return Some(&edit.name);
        }
    }
    None
}

/// Checks that each update is of the reference that it names. `Switched` where one is not, and `Memory`.
pub(crate) fn check_named<F: Files>(
    alloc: Global,
    edits: &[RefEdit],
    prepared: &Prepared<'_, F>,
) -> Result<(), Fatal>
    ensures { MatchResult result (λ _. AreNamed (prepared_edits prepared.now.plan) edits.now)
        (IsSwitchedFor (prepared_edits prepared.now.plan) edits.now) }
{
    let held = prepared.edits(alloc)?;
    match first_unnamed(edits, &held) {
        Some(name) => Err(Fatal::Switched(name.clone()?)),
        None => Ok(()),
    }
}
