//! Reflogs: one line, and the lines of a log from either end (`git reflog`).

pub mod iter;
pub mod line;
mod lines;

pub use line::{AppendError, Line, LineRef, WriteError, appended_line};
