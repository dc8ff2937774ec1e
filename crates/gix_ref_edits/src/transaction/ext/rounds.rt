//! Rounds of splits: each looks up the edits of one level that follow their references, and makes the next level of
//! their children.
ghost use Rattle.std.specs.Prelude.{◌≡◌, ◌+◌, ◌≤◌, [], ◌∷◌, length, take, drop, OnOk, IfOk, IfErr, option_to_list};
ghost use Rattle.gix_ref_edits.specs.EditValues.{edit_value};
ghost use Rattle.gix_ref_edits.specs.MadeEntries.{KeepsEdits, IsSameButEdit, edits_of};
ghost use Rattle.gix_ref_edits.specs.internal.Rounds.{HasRound, HasSplitLevel, IsLookUpFault, values_of_option};
ghost use Rattle.gix_ref_edits.specs.SplitErrors.{IsSplitFault};
ghost use Rattle.gix_ref_edits.specs.SplitResults.{HasSplits, HasTooManySplits};

use crate::transaction::RefEdit;
use crate::transaction::ext::{EditEntry, SplitError};
use gix_ref_name::name::PartialNameRef;
use gix_ref_target::target::Target;
use std::alloc::Global;

/// Looks up the reference of an entry's edit, where the edit follows it. Where it is symbolic, the entry for the child
/// is returned; `at` is the place of the entry in the list.
fn split_entry<T: EditEntry, E, F, M>(
    entry: &mut T,
    at: usize,
    find: &mut F,
    make_entry: &mut M,
) -> Result<Option<T>, SplitError<E>>
where
    F: FnMut(PartialNameRef<'_>) -> Result<Option<Target>, E>,
    M: FnMut(usize, RefEdit) -> T,
    requires find { F.IsAlwaysCallable find.old }
    requires make { M.IsAlwaysCallable make_entry.old }
    requires keeps { KeepsEdits T.edit_of M.step }
    ensures find { F.IsAlwaysCallable find.new }
    ensures make { M.IsAlwaysCallable make_entry.new }
    ensures round { IfOk result
        (λ made. HasSplitLevel F.step M.step T.edit_of T.with_edit at (find.old, make_entry.old)
        (entry.old ∷ []) (entry.new ∷ []) (option_to_list made) (find.new, make_entry.new)) }
    ensures fault { IfErr result (IsLookUpFault F.step find.old find.new) }
{
    match follow_entry(entry, find)? {
        Some(child) => Ok(Some(make_entry(at, child))),
        None => Ok(None),
    }
}

/// Looks up the reference of an entry's edit, where the edit follows it; the child is returned.
fn follow_entry<T: EditEntry, E, F>(
    entry: &mut T,
    find: &mut F,
) -> Result<Option<RefEdit>, SplitError<E>>
where
    F: FnMut(PartialNameRef<'_>) -> Result<Option<Target>, E>,
    requires { F.IsAlwaysCallable find.old }
    ensures callable { F.IsAlwaysCallable find.new }
    ensures round { IfOk result (λ child. HasRound F.step find.old (edit_value (T.edit_of entry.old)
        ∷ []) (edit_value (T.edit_of entry.new) ∷ []) (values_of_option child) find.new) }
    ensures fault { IfErr result (IsLookUpFault F.step find.old find.new) }
    ensures kept { IsSameButEdit T.with_edit entry.old entry.new }
{
    entry.edit_mut().follow(find)
}

/// One round over the edits of a level, the first of which is at the place `at` of the list. The entries for their
/// children are returned.
pub(crate) fn split_level<T: EditEntry, E, F, M>(
    alloc: Global,
    level: &mut [T],
    at: usize,
    find: &mut F,
    make_entry: &mut M,
) -> Result<Vec<T>, SplitError<E>>
where
    F: FnMut(PartialNameRef<'_>) -> Result<Option<Target>, E>,
    M: FnMut(usize, RefEdit) -> T,
    requires find { F.IsAlwaysCallable find.old }
    requires make { M.IsAlwaysCallable make_entry.old }
    requires keeps { KeepsEdits T.edit_of M.step }
    requires fits { at + length level.old ≤ usize.MAX }
    ensures find { F.IsAlwaysCallable find.new }
    ensures make { M.IsAlwaysCallable make_entry.new }
    ensures round { IfOk result (λ kids. HasSplitLevel F.step M.step T.edit_of T.with_edit at
        (find.old, make_entry.old) level.old level.new kids.items (find.new, make_entry.new)) }
    ensures fault { IfErr result (IsLookUpFault F.step find.old find.new) }
{
    let mut children = Vec::new(alloc);
    for place in 0..level.len() {
        match split_entry(&mut level[place], at + place, find, make_entry)? {
            Some(made) => children.push(made)?,
            None => {}
        }
    }
    Ok(children)
}

/// A round over the edits from the place `first` on. The entries for their children are returned.
fn split_from<T: EditEntry, E, F, M>(
    alloc: Global,
    edits: &mut Vec<T>,
    first: usize,
    find: &mut F,
    make_entry: &mut M,
) -> Result<Vec<T>, SplitError<E>>
where
    F: FnMut(PartialNameRef<'_>) -> Result<Option<Target>, E>,
    M: FnMut(usize, RefEdit) -> T,
    requires find { F.IsAlwaysCallable find.old }
    requires make { M.IsAlwaysCallable make_entry.old }
    requires keeps { KeepsEdits T.edit_of M.step }
    requires within { first ≤ length edits.old.items }
    ensures find { F.IsAlwaysCallable find.new }
    ensures make { M.IsAlwaysCallable make_entry.new }
    ensures len { length edits.new.items ≡ length edits.old.items }
    ensures front { take first edits.new.items ≡ take first edits.old.items }
    ensures round { IfOk result (λ kids. HasSplitLevel F.step M.step T.edit_of T.with_edit first
        (find.old, make_entry.old) (drop first edits.old.items)
        (drop first edits.new.items) kids.items (find.new, make_entry.new)) }
    ensures fault { IfErr result (IsLookUpFault F.step find.old find.new) }
{
    split_level(alloc, &mut edits[first..], first, find, make_entry)
}

/// How many rounds append children.
const APPENDING_ROUNDS: usize = 4;

/// Makes the split list of the edits: four rounds append children, and a fifth may have none.
pub(crate) fn extend_with_splits<T: EditEntry, E, F, M>(
    alloc: Global,
    edits: &mut Vec<T>,
    find: &mut F,
    make_entry: &mut M,
) -> Result<(), SplitError<E>>
where
    F: FnMut(PartialNameRef<'_>) -> Result<Option<Target>, E>,
    M: FnMut(usize, RefEdit) -> T,
    requires find { F.IsAlwaysCallable find.old }
    requires make { M.IsAlwaysCallable make_entry.old }
    requires keeps { KeepsEdits T.edit_of M.step }
    ensures find { F.IsAlwaysCallable find.new }
    ensures make { M.IsAlwaysCallable make_entry.new }
    ensures split { OnOk result (HasSplits F.step M.step T.edit_of T.with_edit
        (find.old, make_entry.old) edits.old.items edits.new.items (find.new, make_entry.new)) }
    ensures fault { IfErr result (IsSplitFault F.step find.old find.new
        (HasTooManySplits F.step find.old (edits_of T.edit_of edits.old.items) find.new) (λ _. ⊥)) }
{
    let mut first = 0;
    for _round in 0..APPENDING_ROUNDS {
        let mut children = split_from(alloc, edits, first, find, make_entry)?;
        first = edits.len();
        edits.append(&mut children)?;
    }
    let children = split_from(alloc, edits, first, find, make_entry)?;
    if children.is_empty() {
        Ok(())
    } else {
        Err(SplitError::TooManySplits {
            rounds: APPENDING_ROUNDS + 1,
        })
    }
}
