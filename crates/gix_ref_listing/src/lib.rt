//! Listings: the names of a store that have a loose file or a record in `packed-refs`, in ascending order
//! (`git for-each-ref`).
//!
//! # What is proved
//!
//! - a walk finds each file whose name is valid, has the prefix, and has its own place in the folder. Or it found a folder above it
//!   that could not be listed: `walk::Root::walk`, clause `finds`; of both folders of a store `store_walk::walk_store`
//! - what it finds is there; a folder that could not be listed is found with a fault that was counted: the same, clauses `there`,
//!   `files` (`IsFileOrMet`)
//! - it ends, and nothing changes: the same, clause `looks`
//! - the records that a listing gives are those whose own key is their name: `own_records::OwnRecords`
//! - what a walk found before and the records of a buffer that was opened since, merged, are the listing: ascending, each loose
//!   reference as a loose one, each packed one, and nothing else: `list::walk`, clause `walks` (`IsWalkOf`),
//!   `list::merge_walked`, `list::list`, clause `lists` (`IsListing` in `WholeListings.antt`)
//! - an item is the target of its file, or why it has none, with its fault counted, or the ids of its record. A record is given only
//!   where the store prohibits nothing at the place of its name, and the fault in its stead is that its place has the name of a
//!   device, or no memory: `item::next_item` (`IsGivenItem` in `GoneFiles.antt`)
//! - where the file is gone, the item is what the name reads: the target of the file at its own place, or the ids of a record of its
//!   key that begins a line. In honest files no file is gone. `NotFound` comes only where a well-formed `packed-refs` has none: the
//!   same (`IsGoneItem` in `GoneFiles.antt`)
//! - which prefixes have no listing: `prefix::check_prefix`
//! - the listing of pseudo references: ascending, each file of such a name directly in the git folder, unless it could not be
//!   listed, and nothing else: `pseudo::list_pseudo`, clause `lists` (`IsPseudoListing` in `PseudoListings.antt`)
//! - whether a store is as `git init` makes it: `true` and `false` are right, and nothing is said only where `HEAD` is read as
//!   nothing or a fault came: `pristine::is_pristine`, clauses `says`, `looks` (`IsPristine`, `IsInUse` in `PristineStores.antt`)
//! - the records of a prefix that are read from a well-formed `packed-refs` are those of the prefix in it; a buffer of all records
//!   holds those of each prefix. Of any `packed-refs` whose names ascend each record of the prefix is read:
//!   `prefixed_records::open_prefixed`, clauses `holds`, `asked`, `laws::whole_buffers_hold_prefixes`
//! - over any text: each loose reference of the prefix is given, or a fault is: `list::merge_walked`, `list::list`, clause `owes`
//!   (`HasLoose` in `WholeListings.antt`), `item::next_item` (`found` of `GivesNext`)
//! - over any text, each item that a walk did not find was read from the text. It is the reference of a record that begins a line
//!   and has the prefix, and the name for its own key, or the fault in its stead. Or it is a fault about a line that is no record,
//!   with its number: the same (`IsTextItem` in `PackedTexts.antt`; `pays` of `GivesNext`)
//! - over any text whose names ascend, whatever its lines are: each name that is due by a line of a record's form is given, or a
//!   fault is: the same (`IsDue`, `OwesNames` in `OwedNames.antt`)
//!
//! Where names are composed, a file whose name on disk is not composed is listed under its composed name; that it is listed is only
//! tested. Over a `packed-refs` that is not well formed the order of a listing is only tested, and that it gives no name twice. So
//! is that it lacks no name where the names do not ascend, or a fault was given before.
#![tactic(auto)]

pub mod error;
pub mod found;
mod gone;
pub mod item;
pub mod laws;
pub mod list;
pub mod merge;
pub mod own_records;
pub mod prefix;
pub mod prefixed_records;
pub mod pristine;
pub mod pseudo;
pub mod store_walk;
pub mod walk;
