//! The store over files: its folders, loose references and their places, and what references do in it.
pub use gix_ref_follow::{LooseReferenceExt, ReferenceExt};
pub use gix_ref_store::file::{Store, find, iter, locks, log, loose, store, transaction};
