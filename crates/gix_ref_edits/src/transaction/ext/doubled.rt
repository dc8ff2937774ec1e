//! Names that more than one edit of a list has. They are sorted, so that equal names are neighbours.
ghost use Rattle.std.specs.Prelude.{◌≡◌, map, MatchOption, OnOk, IfOk, IfErr};
ghost use Rattle.std.specs.List.Sorted.{IsSortedBy};
ghost use Rattle.gix_ref_name.specs.Names.{full_ref_bytes};
ghost use Rattle.gix_ref_edits.specs.DoubledNames.{NoneDoubled, IsLeastDoubled, is_below, entry_names};
ghost use Rattle.gix_ref_edits.specs.SplitErrors.{IsNameFault};

use crate::transaction::ext::{EditEntry, EditError};
use gix_ref_name::name::FullNameRef;
use std::alloc::{AllocError, Global};

/// The least of the names that occur twice, in a list of names that ascends.
fn least_doubled<'a>(names: &[FullNameRef<'a>]) -> Option<FullNameRef<'a>>
    requires { IsSortedBy (λ x y. is_below (full_ref_bytes x) (full_ref_bytes y)) names.now }
    ensures { MatchOption result (NoneDoubled (map full_ref_bytes names.now))
        (λ name. IsLeastDoubled (map full_ref_bytes names.now) (full_ref_bytes name)) }
{
    for at in 1..names.len() {
        if names[at - 1] == names[at] {
            return Some(names[at]);
        }
    }
    None
}

/// The names of the edits, in order.
fn names_of_entries<'a, T: EditEntry>(
    alloc: Global,
    entries: &'a [T],
) -> Result<Vec<FullNameRef<'a>>, AllocError>
    ensures { IfOk result (λ names. map full_ref_bytes names.items
        ≡ entry_names T.edit_of entries.now) }
{
    let mut names = Vec::with_capacity(alloc, entries.len())?;
    for entry in entries {
        names.push(entry.edit().name.as_ref())?;
    }
    Ok(names)
}

/// Refuses names that more than one edit has, and reports the least of them.
pub(crate) fn assure_single_names<T: EditEntry>(
    alloc: Global,
    entries: &[T],
) -> Result<(), EditError>
    ensures single { OnOk result (NoneDoubled (entry_names T.edit_of entries.now)) }
    ensures doubled { IfErr result
        (IsNameFault (IsLeastDoubled (entry_names T.edit_of entries.now))) }
{
    if entries.len() < 2 {
        return Ok(());
    }
    let mut names = names_of_entries(alloc, entries)?;
    names.sort_unstable();
    match least_doubled(&names) {
        None => Ok(()),
        Some(name) => Err(EditError::DoubledName(name.to_owned(alloc)?)),
    }
}
