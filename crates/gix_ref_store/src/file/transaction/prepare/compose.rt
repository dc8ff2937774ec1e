//! Edits whose names are composed (`core.precomposeUnicode` of `git config`).
ghost use Rattle.std.specs.Prelude.{◌≡◌, false, IfOk, IsOk, MatchOption};
ghost use Rattle.gix_ref_name.specs.Names.{full_bytes, full_ref_bytes};
ghost use Rattle.gix_ref_store.specs.ComposedEdits.{composed_full, IsComposedEdit, AreComposedEdits, AreAskedAs};

use gix_ref_edits::transaction::RefEdit;
use gix_ref_name::name::compose::compose;
use gix_ref_name::name::{FullName, FullNameRef};
use std::alloc::{AllocError, Global};

/// The composed form of a full name; `None` where the name stays as it is.
fn composed_name(alloc: Global, name: FullNameRef<'_>) -> Result<Option<FullName>, AllocError>
    ensures { let bytes = full_ref_bytes name.entry in IfOk result (λ r. MatchOption r
        (composed_full bytes ≡ bytes) (λ n. full_bytes n ≡ composed_full bytes)) }
{
    let Some(form) = compose(alloc, name.as_partial_name())? else {
        return Ok(None);
    };
    match FullNameRef::try_from(form.as_ref().to_partial_path()) {
        Ok(name) => Ok(Some(name.to_owned(alloc)?)),
        Err(_) => Ok(None),
    }
}

/// The same edit of the composed name.
fn compose_edit(alloc: Global, edit: RefEdit) -> Result<RefEdit, AllocError>
    ensures { IfOk result (IsComposedEdit edit) }
{
    match composed_name(alloc, edit.name.as_ref())? {
        Some(name) => Ok(RefEdit {
            change: edit.change,
            name,
            deref: edit.deref,
        }),
        None => Ok(edit),
    }
}

/// The same edits of the composed names.
fn compose_edits(alloc: Global, edits: Vec<RefEdit>) -> Result<Vec<RefEdit>, AllocError>
    ensures { IfOk result (λ asked. AreComposedEdits edits.items asked.items) }
{
    let mut asked = Vec::with_capacity(alloc, edits.len())?;
    for edit in edits {
        asked.push(compose_edit(alloc, edit)?)?;
    }
    Ok(asked)
}

/// The edits that a store is asked for: of the composed names, where it composes names. A name of ASCII bytes stays as it is.
/// The error says that there was no memory for the names.
pub(crate) fn compose_names(
    alloc: Global,
    composes: bool,
    edits: Vec<RefEdit>,
) -> Result<Vec<RefEdit>, AllocError>
    ensures asked { IfOk result (λ asked. AreAskedAs composes edits.items asked.items) }
    ensures as_given { composes ≡ false → IsOk result }
{
    if composes {
        compose_edits(alloc, edits)
    } else {
        Ok(edits)
    }
}
