//! The reference store: where names are kept, what they read, and transactions that change them.
//!
//! # What is proved
//!
//! A store finds references by partial names, loose and packed. A transaction has any number of edits, updates and deletions, of
//! references or of their logs alone, which may follow symbolic references. It is prepared, with all locks held, that of `packed-refs`
//! too, and rolled back, or committed, with the log lines that are due.
//!
//! In the contracts of `prepare` and `commit` a reading is Git's: by the loose file, or else by the record in `packed-refs`
//! (`meaning_of` in `gix_ref_store/specs/Store.antt`). What is said of causes, of what was found and of readings asks that
//! `packed-refs` is well formed or missing (`HasGoodRecords` in `Prepared.antt`). What is said of locks, of files outside of the
//! transaction in `prepare`, of the reasons of a failed commit and of settled disks holds on any text.
//!
//! - there is a store exactly in clean folders that do not meet, with the options that were given or the default ones; a refusal
//!   hands the files back: `file::Store::at`, `at_opts`, `for_linked_worktree`, `for_linked_worktree_opts`
//! - its folders, as they were given, that of references that all worktrees share, the path of `packed-refs`, the path of the
//!   loose file of a name; its files, which it hands back: `git_dir`, `common_dir`, `common_dir_resolved`, `packed_refs_path`,
//!   `reference_path`, `into_files`
//! - the clauses of a lookup (`gix_ref_lookup`), in the folders and the namespace of the store: `file::Store::try_find`, `find`
//! - the same over records that the caller keeps: `find_existing_among`; and of a full name as it is: `find_full`
//! - the same among loose files alone: `try_find_loose`, `find_loose`
//! - the same among the records of a buffer of the caller: `try_find_packed`, `find_packed`
//! - on any `packed-refs`, where nothing is found: no candidate has a loose file, and where one has a key, `packed-refs` is no
//!   file, or could be opened and does not consist of malformed lines alone: all of these, clause `seen`, among loose files alone
//!   `missing` (`SeesNothing` in `Lookup.antt`; `AreMissing` in `gix_ref_lookup/specs/Lookups.antt`)
//! - the `packed-refs` of the store in memory, or that there is no such file; why it is refused; a fault is counted where it
//!   could not be read and nowhere else: `open_packed_buffer`, `cached_packed_buffer`
//! - why `packed-refs` cannot be opened; a success says that it can, or that there is none, and counts no fault:
//!   `force_refresh_packed_buffer`
//! - the records of a prefix in the `packed-refs` of the store, or that there is no such file: `open_packed_prefixed`
//! - a listing of the store: whatever `next` gives are its first items, each as the files are; nothing changes; where a fault is
//!   counted the item is a fault. And it ends only where none is left: `iter_packed`, `iter_prefixed_packed`, `loose_iter`,
//!   `loose_iter_prefixed`, clause `lists` (`IteratesListing` in `Listings.antt`)
//! - the same of what a walk found earlier, in the store as it was then, of which only the count of faults has changed; no file
//!   is called for it: `walk_prefixed`, clause `walks` (`IsWalkedIn` in `Listings.antt`), `iter_walked`, clauses `lists`, `same`
//! - over any `packed-refs`, each item of a listing is of a loose reference or a folder that was found, of a record that begins a
//!   line, or a fault about a line that is no record, with its number. Where none is a fault, each loose reference of the prefix is
//!   among them, and, where the names of `packed-refs` or of a given buffer ascend, each name that is due by a line of a record's
//!   form: `iter_packed`, `iter_prefixed_packed`, `iter_walked`, `file::iter::Platform::all`, `prefixed`, clause `complete`
//!   (`LacksNoLoose`, `FollowsText`, `FollowsFile` in `Listings.antt`; `IsTextItem`, `IsDue` in `PackedTexts.antt`, `OwedNames.antt`
//!   of `gix_ref_listing`)
//! - a record that is lent is the next item, as `next` gives it. None is lent only where no record comes next or the store prohibits
//!   device names, and then nothing is taken: `file::iter::LooseThenPacked::next_record`, clauses `lends` (`LendsNext` in
//!   `Listings.antt`), `none`, `stays`
//! - the same of the pseudo references: `iter_pseudo`, clause `lists` (`IteratesPseudo` in `Listings.antt`)
//! - the listings of a platform are those over the records of a well-formed `packed-refs`. It is said why `packed-refs` is not opened;
//!   where `iter` succeeds, it could be, and where it does not, nothing has changed but the count of faults:
//!   `file::iter::Platform::all`, `prefixed`, clauses `lists`, `refused`; `pseudo`, clauses `made`, `lists`; `iter`, clauses `opened`,
//!   `rests`, `no_fault`
//! - whether the store is as `git init` makes it; nothing changes: `is_pristine`, clauses `says`, `unchanged`
//! - whether a reference has a reflog. Its lines, oldest first, or newest first through the buffer, are the items of `forward` and
//!   `reverse` over the file at the path of its log. The answer is `None` where there is none, before the buffer is looked at:
//!   `reflog_exists`, `reflog_iter`, `reflog_iter_rev`, `log::Platform::all`, `rev`
//! - why a log is not read; `EmptyBuffer` only where there is a log and no room; a fault is counted: the same, clause `failed`,
//!   and of the calls of a store clause `count`
//! - the lock files of the store (`gix_ref_locks`): `locks`, clauses `lists`, `failed`; their removal: `remove_locks`, clauses
//!   `removed`, `stopped`, `leaves`, `failed`
//! - the threshold is kept and returned: `set_packed_buffer_mmap_threshold`
//! - a refused `prepare` reports the first cause that holds, `Io` only with a fault that was counted. Every file is as before except
//!   for locks that it names, which are locks of its edits or that of `packed-refs`, each named once, and no fewer faults were
//!   counted: `file::transaction::Transaction::prepare`
//! - in the two modes that put updates into `packed-refs`, just the updates of references to objects that can have a record are put.
//!   Each has the object at the end of its tags, where that is another one, by what the finder claims. The first object that cannot be
//!   peeled is reported after the lock of `packed-refs` and its records and before any lock of an edit. A deletion, a symbolic update
//!   and an edit of a log alone put nothing, whatever the finder has: the same, clauses `prepared` (`put` of `PreparesGiven`), `rests`
//!   (`IsLockCause`, `IsPeelCause` in `gix_ref_transaction/specs/Peels.antt`)
//! - the lock of `packed-refs` is taken exactly where an edit of a reference may have a record in it, and it is a file or an update is
//!   put into it. It is empty while it is held, and one of the locks in all that is said of locks here: the same, clause `prepared`
//!   (`HoldsPacked` in `Prepared.antt`)
//! - on any `packed-refs`: `Packed` comes only of one that is refused or could not be read. `PackedFind`, which is `Parse`, comes only
//!   where the record of an edit is damaged, or was not found and a line that is no record was met. That edit deletes the reference or
//!   has no loose file with a target. Of a well-formed one `PackedFind` never comes, and `Packed` only as `Io`: the same, `opened`,
//!   `unread`, `counted`, `cause` of `RefusesFrom`
//! - on any `packed-refs`, of a transaction that is prepared: the file could be opened, or is none. And the id of each record that is
//!   asked for is that of a record which begins a line, or there is none by a search that met no fault: the same, clause `prepared`
//!   (`opened` of `HoldsFrom`, `read` of `PreparesFrom` in `Prepared.antt`)
//! - the edits are those that were given; where the store composes names they are of the composed names, and otherwise as given:
//!   the same, clauses `rests`, `prepared` (`AreAskedAs` in `ComposedEdits.antt`)
//! - device names are refused where the store prohibits them, after an unsafe name and before the other causes of an edit by
//!   itself: the same (`IsInvalidEdit` in `gix_ref_transaction/specs/Causes.antt`)
//! - edits that follow symbolic references are split: the edits of a prepared transaction are those of the split list by what the
//!   loose files of the store lead to. The name of each edit that is looked up is safe and not prohibited; edits of which none follows
//!   stay as they are. Each that was split from another has the place of that one in the list:
//!   `file::transaction::Transaction::prepare`, clause `prepared` (`SplitsGiven`, `PreparesGiven` in `Prepared.antt`;
//!   `gix_ref_transaction/specs/Parents.antt`)
//! - no cause holds against a prepared transaction, and no two of its edits have one name; each lock has the whole new text. Each edit
//!   carries what was found, and whether there was a loose file, and is otherwise as given, message and force flag included. At every
//!   stop there is nothing new but its locks, and folders that lead to them: the same
//! - after a commit that succeeds each edited reference reads as edited, each log of an update has its old text and the line that is
//!   due, if one is, and the logs of deletions are gone. `packed-refs` has the merged records: those that no edit names, byte for
//!   byte, without those of deletions, and with those of updates that are put. And all other files are as before except for locks that
//!   it names; the file of a reference that has its object already is as it was, to the byte: `file::transaction::Prepared::commit`,
//!   clause `committed` (`HasSucceeded` in `CommitOutcomes.antt`, `lines_due` in `CommitLines.antt`)
//! - every stop inside it, the tree with which it begins, and the end of a commit that failed, leaves each reference as before or as
//!   edited. Each log has its old text and a beginning of the lines that are due, or is gone with its deletion; every other file is as
//!   before or as edited. Where loose files are kept, no deletion shows before every update, and an update that shows finds each
//!   earlier one showing: the same, clause `safe` (`stops` of `EveryMomentIsSafe`), on the trees from before `prepare`
//! - a commit fails only for one of these: the same, clause `failed` (`HasEndedEarly`)
//!   - a line that is due is refused, for the first cause, edit by edit; nothing but locks has changed
//!   - a call of files failed, with a fault that was counted and is no want of memory
//!   - a folder is at the place of a reference, at its log or at `packed-refs` where the run ended. One at a place or a log held
//!     more than empty folders before the first write, or holds a file where the run ended; unless it was at a place before the
//!     first write where `prepare` had seen a file
//!   - a file is in the path of a log as its line is written
//!   - a line of `packed-refs` is no record, never of a well-formed one; or there was no memory. Nothing but locks has changed
//! - afterwards no lock is left but those that it names: the same, clause `safe` (`stops`)
//! - a commit, whether it fails or not, removes no folder but those of two kinds. Some are at or below the place of an edit that
//!   writes its loose file, a log whose line is due, or `packed-refs` where its lock is held. The others are above a log or a loose
//!   file that it is to delete, below `logs`, or below `refs` and one component more. The git folder, the common folder and those
//!   above them stay: the same, clause `kept` (`KeepsTheRest`; `KeepsFolders` in `CommittedFolders.antt`)
//! - no due line is passed over: where a commit succeeds, ends at a step, or reports a line of `packed-refs`, each line that is
//!   due can be made and has no file in the path of its log: the same, clauses `committed`, `failed` (`LinesPass` in
//!   `CommitLines.antt`)
//! - it reports the edit, or its log, at which it ended; all lines and `packed-refs` were decided before. The steps before that one
//!   are done, that one too where only a sync after it failed, and none after it is begun. Then locks and empty folders above
//!   deletions were removed: the same, clause `failed` (`EndsEarlyAt` in `CommitResult.antt`)
//! - on any `packed-refs`: a commit that succeeds, or ended at a step, and that puts a record or deletes a reference of which one
//!   was found, passed over no line that is no record: the same, clauses `committed`, `failed` (`ReadsPacked`)
//! - no fewer faults were counted than locks stay, whether the commit succeeds or not, and after `rollback`: the same, clause `kept`
//!   (`named`); `rollback`, clause `rolled`
//! - every loss of power inside `prepare` leaves every file that was settled, except for own locks: `Transaction::prepare`,
//!   `LosesNothing`
//! - where the store was at rest before `prepare`, every loss of power inside `commit`, and one on the disk with which it begins,
//!   leaves each reference as before or as edited. Of a log it leaves the old text and no more bytes after it than its lines have, and
//!   every other file but locks as before: `Prepared::commit`, clause `safe` (`losses`)
//! - a commit that succeeds leaves `packed-refs` well formed, or there is none, where it was so before: so the next transaction
//!   meets what each of these clauses asks for, in every mode: the same, clause `committed` (`good`; `StaysGoodFrom` in
//!   `CommitResult.antt`)
//! - where the store was at rest before `prepare`, a commit that succeeds leaves it so, and a later loss leaves what it did: the same,
//!   clause `committed` (`settled`); `gix_ref_files::theorems::losses_of_power`; in one contract `gix_ref_read_back::make::make`
//!   (`KeepsEdited` in its `WholeRuns.antt`)
//! - where `packed-refs` was well formed or missing: in a namespace every file and every log outside of it, and in `packed-refs` every
//!   record outside of it, is as before except for locks, at every stop and at the end. So it is after every loss of power, where the
//!   store was at rest before: `gix_ref_read_back::make::make`, clauses `made`, `not_made` (`OutsideIsAsBefore` in its
//!   `Outside.antt`); `gix_ref_read_back::laws::outside_is_as_before`
//! - a rollback removes the locks except for those that it names, and hands the edits back. All that it does on the disk is that it
//!   removes some of them, and every loss of power inside it leaves every other file that was settled. Each answer hands the mode of
//!   `packed-refs` back: `file::transaction::Prepared::rollback`, clause `rolled` (`RollsBackFrom` in `Prepared.antt`),
//!   `Transaction::rollback`
#![tactic(auto)]

pub mod file;
pub mod store;

pub use gix_ref_packed::raw;
