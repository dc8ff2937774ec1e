//! Reflogs: one line, the lines of a log from either end, and the reflogs of a store (`git reflog`).
pub mod iter;

pub use gix_ref_log::log::{AppendError, Line, LineRef, WriteError, appended_line, line};
pub use gix_ref_store::file::log::Error;
