//! Edits of references: what a transaction is to change, and what it expects.
//!
//! # What is proved
//!
//! `RefEdit::update` and `RefEdit::delete` have each field of the edit in their clauses. For any list of entries, any finder and
//! any maker of entries that keeps the edits that it is given:
//!
//! - where each answer of the finder is that of one function from names to symbolic targets, the edits become the split list over
//!   it, levels 0 to 4 joined. Of each edit the message, the mode, the force flag, the expectation, the new target and `deref`
//!   are those of the definition: `transaction::RefEditsExt::extend_with_splits_of_symbolic_refs`, clause `split`
//! - the finder was called once for each edit that follows, in the order of the list, and the maker once for each child, with the
//!   place of its parent. Entries change in nothing but their edit; the states of finder and maker afterwards are those that
//!   these calls lead to: the same (`HasSplits`)
//! - it fails for a call of the finder that failed, with its fault; for an edit of level 4 that has a child; or for want of
//!   memory. After each of these, too, the finder's state is the one that its calls lead to: the same, clause `fault`
//! - a list is accepted only where no name occurs twice, and else the least doubled name is reported:
//!   `assure_one_name_has_one_edit`
//! - the splits come first, and then the doubled names of the list with its splits: `pre_process`
//! - over a chain of four symbolic references the split list has five edits, over one of five there is none; an edit that does
//!   not follow is its whole split list: `laws::splits_of_chains`
//!
//! What each call of a finder keeps, its calls in turn keep, whatever the outcome: lemmas for callers are in
//! `gix_ref_edits/proofs/Finders.antt`, and `gix_ref_values_tests/src/over_tables.rt` is such a caller, whose finder reads
//! through a `&mut`.
//!
//! After an error the edits may stay altered; that is not described. Of a finder that answers otherwise when it is asked a second
//! time for a name, only its calls are known.
#![tactic(auto)]

pub mod laws;
pub mod transaction;
