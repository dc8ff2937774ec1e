//! What a list of edits may hold: edits, or records that have one.
ghost use Rattle.std.specs.Prelude.{◌≡◌};
ghost use Rattle.std.specs.Borrow.{sem, Lends};
ghost use Rattle.gix_ref_edits.specs.declared.transaction.RefEdit.{RefEdit};
ghost use Rattle.gix_ref_edits.specs.contracts.transaction.RefEdit.{the_row};

use crate::transaction::RefEdit;

/// An entry of a list of edits: an edit, or a record that has one (`BorrowMut<RefEdit>` in Rust).
pub trait EditEntry: Drop {
    // the entry's edit, and the entry with another edit
    ghost edit_of: { Self → RefEdit };

    ghost with_edit: { Self → RefEdit → Self };

    /// The edit.
    fn edit(&self) -> &RefEdit
        ensures { result.now ≡ edit_of self.now };

    /// The edit, to be changed.
    fn edit_mut(&mut self) -> &mut RefEdit
        ensures* writes_back { sem 𝓛
            (Lends Self.row the_row self.entry result (with_edit self.old)) }
        ensures value { result.now ≡ edit_of self.old };

    // An entry has the edit that was last written.
    ghost has_written: { (entry : Self) (edit : RefEdit) → edit_of (with_edit entry edit) ≡ edit };
}

impl EditEntry for RefEdit {
    ghost edit_of = { λ edit. edit };

    ghost with_edit = { λ _ edit. edit };

    fn edit(&self) -> &RefEdit {
        self
    }

    fn edit_mut(&mut self) -> &mut RefEdit {
        self
    }

    ghost has_written = { λ _ edit. Prim.search };
}
