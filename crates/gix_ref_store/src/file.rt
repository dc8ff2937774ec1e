//! The store over files: its folders, loose references and their places.
pub mod find;
pub mod iter;
pub mod locks;
pub mod log;
pub mod packed;
pub mod pristine;
mod settings;
pub mod store;
pub mod transaction;

pub use gix_ref_lookup::loose;
pub use store::Store;
