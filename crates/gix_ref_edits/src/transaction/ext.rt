//! Lists of edits: splits of edits that follow symbolic references, and names that have one edit each.
ghost use Rattle.std.specs.Prelude.{List, OnOk, IfErr};
ghost use Rattle.gix_ref_edits.specs.DoubledNames.{NoneDoubled, IsLeastDoubled, entry_names};
ghost use Rattle.gix_ref_edits.specs.MadeEntries.{KeepsEdits, edits_of};
ghost use Rattle.gix_ref_edits.specs.SplitErrors.{IsNameFault, IsSplitFault};
ghost use Rattle.gix_ref_edits.specs.SplitResults.{HasSplits, HasSplitsDoubling, HasTooManySplits};

use crate::transaction::RefEdit;
use doubled::assure_single_names;
use gix_ref_name::name::PartialNameRef;
use gix_ref_target::target::Target;
use rounds::extend_with_splits;
use std::alloc::Global;

mod doubled;
mod entry;
mod error;
mod rounds;
mod split;

pub use entry::EditEntry;
pub use error::{EditError, SplitError};

/// What a list of edits is put through before a transaction, in whatever store. As gix-ref's
/// `transaction::RefEditsExt`.
///
/// `find` returns the target of a reference, as far as it has one, and may fail. `make_entry` makes the entry for a
/// child, from the place of its parent in the list and the child's edit, which the entry has to have.
pub trait RefEditsExt<T: EditEntry> {
    // the entries of the list
    ghost entries: { Self → List T };

    /// Refuses a name that more than one edit has, and reports the least such name. As gix-ref's
    /// `RefEditsExt::assure_one_name_has_one_edit`.
    ///
    /// ```text
    /// match edits.assure_one_name_has_one_edit(alloc) {
    ///     Err(EditError::DoubledName(name)) => println!(rt; "{name} has two edits")?,
    ///     Err(EditError::Memory) => println!(rt; "no memory")?,
    ///     Ok(()) => {}
    /// }
    /// ```
    fn assure_one_name_has_one_edit(&self, alloc: Global) -> Result<(), EditError>
        ensures single { OnOk result (NoneDoubled (entry_names T.edit_of (entries self.now))) }
        ensures doubled { IfErr result
            (IsNameFault (IsLeastDoubled (entry_names T.edit_of (entries self.now)))) };

    /// Splits the edits that follow symbolic references (`deref`): the edit of the symbolic reference becomes one of its
    /// log alone, and an edit of the reference that it leads to is appended, which follows in turn. An update's
    /// expectation goes to that child, and a deletion has its expectation of both. At most four rounds append children.
    /// As gix-ref's `RefEditsExt::extend_with_splits_of_symbolic_refs`.
    ///
    /// After an error the edits may stay altered.
    fn extend_with_splits_of_symbolic_refs<E, F, M>(
        &mut self,
        alloc: Global,
        find: &mut F,
        make_entry: &mut M,
    ) -> Result<(), SplitError<E>>
    where
        F: FnMut(PartialNameRef<'_>) -> Result<Option<Target>, E>,
        M: FnMut(usize, RefEdit) -> T,
        requires find { F.IsAlwaysCallable find.old }
        requires make { M.IsAlwaysCallable make_entry.old }
        requires keeps { KeepsEdits T.edit_of M.step }
        ensures find { F.IsAlwaysCallable find.new }
        ensures make { M.IsAlwaysCallable make_entry.new }
        ensures split { OnOk result
            (HasSplits F.step M.step T.edit_of T.with_edit (find.old, make_entry.old)
            (entries self.old) (entries self.new) (find.new, make_entry.new)) }
        ensures fault { IfErr result (IsSplitFault F.step find.old find.new (HasTooManySplits F.step
            find.old (edits_of T.edit_of (entries self.old)) find.new) (λ _. ⊥)) };

    /// Splits the edits that follow symbolic references, and then refuses a name that more than one edit has. As
    /// gix-ref's `RefEditsExt::pre_process`.
    ///
    /// After an error the edits may stay altered.
    ///
    /// ```text
    /// // What a store finds for a name is its loose target; a child needs no record around its edit.
    /// edits.pre_process(alloc, &mut |name| targets.find(name), &mut |_parent, edit| edit)?;
    /// ```
    fn pre_process<E, F, M>(
        &mut self,
        alloc: Global,
        find: &mut F,
        make_entry: &mut M,
    ) -> Result<(), SplitError<E>>
    where
        F: FnMut(PartialNameRef<'_>) -> Result<Option<Target>, E>,
        M: FnMut(usize, RefEdit) -> T,
        requires find { F.IsAlwaysCallable find.old }
        requires make { M.IsAlwaysCallable make_entry.old }
        requires keeps { KeepsEdits T.edit_of M.step }
        ensures find { F.IsAlwaysCallable find.new }
        ensures make { M.IsAlwaysCallable make_entry.new }
        ensures split { OnOk result
            (HasSplits F.step M.step T.edit_of T.with_edit (find.old, make_entry.old)
            (entries self.old) (entries self.new) (find.new, make_entry.new)) }
        ensures single { OnOk result (NoneDoubled (entry_names T.edit_of (entries self.new))) }
        ensures fault { IfErr result (IsSplitFault F.step find.old find.new
            (HasTooManySplits F.step find.old (edits_of T.edit_of (entries self.old)) find.new)
            (HasSplitsDoubling F.step M.step T.edit_of T.with_edit (find.old, make_entry.old)
            (entries self.old) (entries self.new) (find.new, make_entry.new))) };
}

impl<T: EditEntry> RefEditsExt<T> for Vec<T> {
    ghost entries = { λ edits. edits.items };

    fn assure_one_name_has_one_edit(&self, alloc: Global) -> Result<(), EditError> {
        assure_single_names(alloc, self)
    }

    fn extend_with_splits_of_symbolic_refs<E, F, M>(
        &mut self,
        alloc: Global,
        find: &mut F,
        make_entry: &mut M,
    ) -> Result<(), SplitError<E>>
    where
        F: FnMut(PartialNameRef<'_>) -> Result<Option<Target>, E>,
        M: FnMut(usize, RefEdit) -> T,
    {
        extend_with_splits(alloc, self, find, make_entry)
    }

    fn pre_process<E, F, M>(
        &mut self,
        alloc: Global,
        find: &mut F,
        make_entry: &mut M,
    ) -> Result<(), SplitError<E>>
    where
        F: FnMut(PartialNameRef<'_>) -> Result<Option<Target>, E>,
        M: FnMut(usize, RefEdit) -> T,
    {
        extend_with_splits(alloc, self, find, make_entry)?;
        assure_single_names(alloc, self)?;
        Ok(())
    }
}
