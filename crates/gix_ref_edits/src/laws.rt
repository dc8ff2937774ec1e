//! The equality and the order of edits and their parts, each stated by a short caller of `==` and of `cmp`; split lists
//! of chains of references.
ghost use Rattle.std.specs.Prelude.{◌≡◌, ◌↔◌, IsTrue};
ghost use Rattle.gix_ref_edits.specs.RefEdits.{SameLog, SameExpectation, SameChange};
ghost use Rattle.gix_ref_edits.specs.EditOrders.{SameEdit, mode_cmp, log_cmp, expectation_cmp, change_cmp, edit_cmp};
ghost use Rattle.gix_ref_edits.specs.SplitChains.{ChainOfFourSplits, ChainOfFiveIsTooLong, EditThatStaysIsKept};

use crate::transaction::{Change, LogChange, PreviousValue, RefEdit, RefLog};
use std::cmp::Ordering;

/// Modes are equal where they are the same mode.
pub fn same_modes(a: RefLog, b: RefLog) -> bool
    ensures { IsTrue result ↔ (a ≡ b) }
{
    a == b
}

/// A change of a reference and its log comes before one of the log alone.
pub fn order_modes(a: RefLog, b: RefLog) -> Ordering
    ensures { result ≡ mode_cmp a b }
{
    a.cmp(&b)
}

/// Changes of logs are equal where their modes, flags and messages are.
pub fn same_log_changes(a: &LogChange, b: &LogChange) -> bool
    ensures { IsTrue result ↔ SameLog a.now b.now }
{
    a == b
}

/// Changes of logs are ordered by their mode, by whether a log is made by force, and by their message.
pub fn order_log_changes(a: &LogChange, b: &LogChange) -> Ordering
    ensures { result ≡ log_cmp a.now b.now }
{
    a.cmp(b)
}

/// Expectations are equal where the variant and the target are.
pub fn same_expectations(a: &PreviousValue, b: &PreviousValue) -> bool
    ensures { IsTrue result ↔ SameExpectation a.now b.now }
{
    a == b
}

/// Expectations are ordered as the variants are declared, and then by their targets.
pub fn order_expectations(a: &PreviousValue, b: &PreviousValue) -> Ordering
    ensures { result ≡ expectation_cmp a.now b.now }
{
    a.cmp(b)
}

/// Changes are equal where both are updates or both are deletions, and all fields are.
pub fn same_changes(a: &Change, b: &Change) -> bool
    ensures { IsTrue result ↔ SameChange a.now b.now }
{
    a == b
}

/// Updates come before deletions, and each are ordered by their fields.
pub fn order_changes(a: &Change, b: &Change) -> Ordering
    ensures { result ≡ change_cmp a.now b.now }
{
    a.cmp(b)
}

/// Edits are equal where their changes, their names and their flags are.
pub fn same_edits(a: &RefEdit, b: &RefEdit) -> bool
    ensures { IsTrue result ↔ SameEdit a.now b.now }
{
    a == b
}

/// Edits are ordered by their change, then by their name, then by whether a symbolic reference is followed.
pub fn order_edits(a: &RefEdit, b: &RefEdit) -> Ordering
    ensures { result ≡ edit_cmp a.now b.now }
{
    a.cmp(b)
}

/// An edit that follows a chain of four symbolic references has a split list of five edits, and one that follows a chain of
/// five has no split list; an edit that does not follow is its whole split list.
pub fn splits_of_chains()
    ensures four { ChainOfFourSplits }
    ensures five { ChainOfFiveIsTooLong }
    ensures none { EditThatStaysIsKept }
{}
