//! What a case is over: texts, files, a store, objects and edits; transactions and runs of `refs`; and what is printed of them.
//! `docs/CASES.md` says how a case is written.
#![tactic(auto)]

pub mod causes;
pub mod edits;
pub mod lines;
pub mod objects;
pub mod reading;
pub mod texts;
pub mod transactions;
pub mod tree;
pub mod twice;
pub mod world;
