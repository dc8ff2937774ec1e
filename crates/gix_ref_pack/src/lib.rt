//! Packing of loose references into `packed-refs` (`git pack-refs`), without an object database: branches are commits by Git's own rule,
//! and of other objects a table says which are tags.
//!
//! # What is proved
//!
//! - what is packed: of the loose references to objects that a listing gives, below `refs/` and shared by all worktrees, with `--all` each,
//!   else the tags and those that have a record. Of these only those whose object is in the table, or is that of a branch among them. It is
//!   one transaction, and each of its edits gives a reference the object that it expects there: `pack::pack_refs`, clause `packs`
//!   (`IsPlanned`, `IsPut` in `Packings.antt`, `LooseObjects.antt`, `KeptObjects.antt`)
//! - that each reference reads as it did, whatever becomes of the call, and at each stop and after each loss of power meanwhile: the same,
//!   clauses `stays`, `stops`, `losses` (`EachReadsAsItDid`). `packed-refs` was well formed or missing; in a store that composes names
//!   those of its files are composed (`AreComposed`); and for losses of power the store was at rest (`IsAtRest`)
//! - the objects of a table, and the number of the first line that is no row of one: `objects::Objects::read` (`TableRows.antt`,
//!   `KnownObjects.antt`); so each record has the object at the end of its tags, as the table says (`ArePut` of the transaction)
//! - what the words of `git pack-refs` ask for, and that they are refused only where they have no reading: `words::parse`
//!   (`AsksToPack` in `PackWords.antt`)
#![tactic(auto)]

pub mod objects;
pub mod pack;
pub mod words;
