//! `gix_ref`, the references of a Git repository: what users reach, under the paths of the Rust crate `gix-ref` where it has them.
//!
//! - `name`, `namespace`, `target`, `hash`: names of references, namespaces, targets and ids.
//! - `file`: the store over files, its lookups and its transactions; `store`: its options; `transaction`: edits; `peel`: errors
//!   of following and peeling references.
//! - `packed`, `log`, `raw`, `actor`: `packed-refs`, reflogs, references as values, and signatures.
//! - `object`: objects, and finders of objects.
//! - `files`: the file system that a store is over, with `Disk` for the disk and `Memory` for tests; `lock`: lock files; `steps`: runs of
//!   steps with their syncs.
//! - `pack`: packing of loose references.
//! - `layout`: where a name is kept; `theorems`: what is proved of definitions alone, and `theorems::read_back`: what a store reads
//!   after a transaction.
#![tactic(auto)]

pub mod file;
pub mod files;
pub mod log;
pub mod packed;
pub mod theorems;

pub use gix_ref_edits::transaction;
pub use gix_ref_files::{lock, steps};
pub use gix_ref_follow::peel;
pub use gix_ref_hash::hash;
pub use gix_ref_log::actor;
pub use gix_ref_name::{name, namespace};
pub use gix_ref_object::object;
pub use gix_ref_packed::raw;
pub use gix_ref_store::store;
pub use gix_ref_target::{layout, target};

pub mod pack {
    //! Packing of loose references (`git pack-refs`). Not in gix-ref.
    pub use gix_ref_pack::objects::{Objects, TableError};
    pub use gix_ref_pack::pack::{PackError, Packed, pack_refs};
}
