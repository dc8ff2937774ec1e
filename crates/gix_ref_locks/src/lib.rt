//! The lock files of a store, to be listed and removed where a program was killed that held them.
//!
//! # What is proved
//!
//! - the lock files of a store are listed, each that is there, once, by ascending bytes, and nothing else; nothing changes:
//!   `locks::list_locks` (`AreLockFiles` in `LockFiles.antt`)
//! - all that are listed are removed, and nothing else; where that fails, those before are gone, and that one is there or gone; a stop
//!   leaves all, or all but some of the first: `remove::remove_locks` (`IsUnlocked`, `IsLeftLocked` in `Removals.antt`)
#![tactic(auto)]

pub mod locks;
pub mod remove;
mod search;
mod walk;
