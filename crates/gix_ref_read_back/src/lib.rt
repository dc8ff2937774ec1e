//! What a store reads after a transaction: lookups and listings answer the edited references, and outside of its namespace all is as
//! before. Each function here calls `prepare` and `commit`, and most then `find` or a listing, in the mode of `packed-refs` that it is
//! given. Its contract is proved of their public contracts alone, with any finder.
//!
//! # What is proved
//!
//! `P`: the files are honest, and `packed-refs` was well formed or missing before.
//!
//! - the first promise in plain words: under `P`, whatever becomes of the call, a stop at any moment since it began leaves each reference
//!   as before or as edited. And so does a loss of power, where the store was at rest before: `make::make`, clauses `stops`, `losses`
//!   (`EachReadsOldOrNew` in `PlainPromises.antt`)
//! - under `P`, after a commit that succeeds `packed-refs` is well formed or missing again, and each reference reads as edited by
//!   the split list of the edits, which is the given list where none follows a symbolic reference: `make::make`, clause `made`;
//!   `find::commit_then_find`, clause `found`; `list::commit_then_list`, clause `listed`; `read::commit_then_read`, clause `read`
//!   (`ReadsEdited` in `WholeRuns.antt`)
//! - what that commit returned: the edits as they were prepared, under `P` each with the target that was found for it in the
//!   files before, and the mode that was given. Under `P` the files are those before with the edits made, and each log has gained
//!   the lines that are due by the files before, or none. Where the files are honest, each due line could be made, and no folder
//!   is gone but those in the way of a write and those above what was removed. A lock is named only where a call of files failed:
//!   the same (`HasCommitted` in `WholeRuns.antt`)
//! - a lookup after it, of any name, is one in the store that the commit left: what `Store::find` says there. Under `P` the first of the
//!   names that it may be short for that reads something, or `NotFound` where none does. On any `packed-refs`, an error is want of
//!   memory, or that of the first of them that is not passed: `commit_then_find`, clause `found`; `commit_then_read`, clause `read`
//!   (`FindsIn` in `FoundReferences.antt`)
//! - under `P`, what is found of a full name that is looked up as itself is its edited reading. Where it reads a target, that is found,
//!   or an error comes: there was no memory, its fault was counted in the lookup, or a read by a reader failed. Where it reads a fault,
//!   an error comes. Where it reads nothing, what the further names of the lookup give in the files that are left, or an error: the same
//!   (`IsFoundAs` in `EditedReadings.antt`)
//! - a listing after it, of any prefix, is one in the store that the commit left: under `P` all items of the listing, with a folder that
//!   could not be listed only with a fault that was counted. Or an error, where the prefix has no listing, `packed-refs` is not opened,
//!   for its text or by a fault, or there was no memory: `commit_then_list`, clause `listed`; `commit_then_read`, clause `read`
//!   (`ListsIn` in `ListedItems.antt`)
//! - under `P`, where such a listing of a prefix below `refs/` is no error, it gives just the names that read something as edited, by
//!   ascending bytes. Each is given with its edited target, or with an error: its file holds no target, and it reads a fault. It could
//!   not be read, by a fault that was counted as the item was made; the store prohibits its place; or there was no memory. This holds
//!   where no item is a folder that could not be listed and, in a store that composes names, its files have composed names: the same
//!   (`ListsReadings` in `ListedReadings.antt`)
//! - both at once, of the same files: the listing begins in the store that the lookup left: `commit_then_read`, clause `read`
//!   (`ReadsAfter` in `WholeRuns.antt`)
//! - under `P`, where the store was at rest before, each reference reads as edited after every loss of power on the disk that the
//!   commit left; the store is at rest again: `make::make`, clause `made` (`KeepsEdited` in `WholeRuns.antt`)
//! - under `P`, at every stop inside the commit, whether it succeeds or fails, each reference reads as before or as edited. In the two
//!   modes that keep loose files no deletion shows before every update, and updates show in their order. And so after every loss of
//!   power, where the store was at rest before: `make::make`, clauses `made`, `not_made` (`EveryStopFrom`, `EveryLossFrom` in
//!   `gix_ref_store/specs/CommitResult.antt`)
//! - under `P`, after a commit that succeeds each file outside of the namespace of the store is as before, except for locks that are
//!   named: each that is no place and no log in the namespace, and not `packed-refs`. And the record in `packed-refs` of each key outside
//!   of it is as before: the same, and after lookups and listings the clauses `found`, `listed`, `read` of the calls above (`outside` of
//!   `ReadsEdited`)
//! - under `P`, it is so at every stop from the beginning of `prepare` to the end of the commit, whether that succeeds or fails, except
//!   for the locks of the edits. And, where the store was at rest before, after every loss of power meanwhile, except for locks:
//!   `make::make`, clauses `made`, `not_made` (`StopsOutside`, `LossesOutside` in `WholeRuns.antt`); for stops also the clauses `found`,
//!   `listed`, `read`
//! - the place, the log and the key of each name lie in the namespace of its store. Where outside of it all is as before, each reference
//!   whose place and key are outside reads as before, and so does each one of another namespace of the same folders, where neither
//!   namespace begins with the other. The files at a stop or after a loss of power inside a commit are so in each mode, where the records
//!   that its edits put can be read again; in the mode of deletions they put none: `laws::outside_is_as_before` (`Outside.antt`)
//! - why the edits were not made: what `prepare` and `commit` say of it; and the mode is handed back: `make`, `commit_then_find`,
//!   `commit_then_list`, `commit_then_read`, clauses `not_made` (`IsNotMade` in `WholeRuns.antt`)
#![tactic(auto)]

pub mod error;
pub mod find;
pub mod laws;
pub mod list;
pub mod make;
pub mod read;
