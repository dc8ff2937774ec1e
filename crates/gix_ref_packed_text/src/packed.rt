//! The text of `packed-refs` (`git pack-refs`): what is read from it and written to it, and searches among its records.

pub mod bound;
pub mod decode;
pub mod header_end;
pub mod lines;
mod probes;
mod reference;
pub mod search;
pub mod searchable;
pub mod window;
pub mod written;

pub use probes::Probes;
pub use reference::Reference;
