//! The lines of a log, from either end, and the reflog of a reference in a store.
pub use gix_ref_log::log::iter::{
    EmptyBuffer, Forward, Reverse, ReverseError, decode, forward, reverse,
};
pub use gix_ref_store::file::log::Platform;
