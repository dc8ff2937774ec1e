//! Commands that read a store, and answer as Git does: `show-ref --verify`, `symbolic-ref`, `reflog exists`, `reflog show`,
//! `for-each-ref`; and `locks`, which lists and removes lock files.
//!
//! # What is proved
//!
//! - what words ask for, and that only words without a reading ask for nothing: `ask::parse` (`Asks`, `AsksNothing` in `Asks.antt`)
//! - that the answer to words is that of what they ask for, and that all but `locks --remove` leave the store as it is: `ask::answer_to`
//!   (`IsAnswerTo`, `IsAnswered` in `Asks.antt`)
//! - what is printed, and the status, by what lookups find: `show-ref --verify` by `verify::verify` (`VerifiesAs` in `Answers.antt`),
//!   `symbolic-ref` by `verify::symbolic` (`SymbolicAs`), `reflog exists` by `reflog::log_exists` (`ExistsAs`)
//! - where a following leads, on any text of `packed-refs`: by what each lookup saw: `resolve::follow` (`SeesEnds` in `Resolving.antt`)
//! - the short name of a reference: what comes after the longest front, where no other name that Git takes it for leads to an object;
//!   also over a damaged `packed-refs`, by what each lookup saw: `short::short_name` (`short_name`, `SeesShort` in `Shortening.antt`)
//! - the row of each reference, also over a damaged `packed-refs`, by what each lookup saw: `rows::rows` (`SeesRows` in `Rows.antt`)
//! - each entry of a log that can be read, newest first, with its place: `reflog::show_log` (`ShowAnswer` in `LogRows.antt`)
//! - which references of a listing the patterns match, what the format shows of each, their order and number; and each error. That each
//!   reference of the listing is right, and a fault of it, also over a damaged `packed-refs`, and that none is lacking where its names
//!   ascend (`FollowFiles` in `ListedNames.antt`): `for_each_ref::for_each_ref` (`EachAnswer` in `Rows.antt`, `Patterns.antt`,
//!   `Formats.antt`)
//! - a line for each lock file, or for each that was removed; where it fails, those before are gone: `locks::list_locks`,
//!   `locks::remove_locks` (`LocksAnswer`, `RemovesAnswer` in `Answers.antt`)
#![tactic(auto)]

pub mod answer;
pub mod argument;
pub mod ask;
pub mod for_each_ref;
pub mod format;
pub mod listing;
pub mod locks;
pub mod log_rows;
pub mod pattern;
pub mod reflog;
pub mod resolve;
pub mod rows;
pub mod short;
pub mod verify;
