//! The steps of a transaction of references, over files: the checks of its edits, their locks, their renames, and how locks are
//! given up. `gix_ref_store` makes a transaction of them.
//!
//! # What is proved
//!
//! Of the steps of `prepare`, and of the release of locks, from which `gix_ref_store` has its public clauses:
//!
//! - which edits are valid by themselves and together, and else the first cause against them: `prepare::check` (`AllValid`,
//!   `IsFirstInvalid`, `IsDoubling` in `Causes.antt`)
//! - the split list of edits that follow symbolic references, and why it is refused: `prepare::split::split_edits` (`IsSplitOf`,
//!   `IsNotSplit` in `SplitOutcomes.antt`)
//! - the id of the record of each edit, and what each puts into `packed-refs`: `prepare::records::find_records` (`AreRecordIds` in
//!   `Causes.antt`), `prepare::peel::peel_edits` (`ArePut` in `Peels.antt`)
//! - all locks are held, each with its text, or none but those that are named, and why: `prepare::hold::lock_edits` (`HoldAllLocks`,
//!   `IsHeldBack`, `AreRemovedAgain` in `HeldLocks.antt`); nothing else changes, at each stop too (`OnlyTakes`)
//! - an edit is accepted just where what there is fits what it expects: `edit::Edit::compare_and_write` (`IsWritten`, `IsNotAccepted` in
//!   `EditLocks.antt`)
//! - locks that were not renamed are removed, or named: `release::release_all` (`HandsBack`, `AreNamedOnce` in `LeftLocks.antt`)
#![tactic(auto)]

pub mod edit;
pub mod packing;
pub mod prepare;
pub mod release;
