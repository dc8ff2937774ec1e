//! A file system in memory, for tests and as a model of what files do.
//!
//! # What is proved
//!
//! - files in memory keep the contract of `Files` and `ReadAt` with real bodies; they fail or stop exactly where a plan says so, else
//!   only for want of memory or where the tree leaves no answer: `Memory` and its reader
//! - files in memory that lose power are what a loss may leave; by pick 0 every unsynced entry is as last synced and every
//!   unsynced byte is lost; what is left is synced: `Memory::lose_power`
#![tactic(auto)]

pub mod memory;
