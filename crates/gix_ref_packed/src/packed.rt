//! Packed references (`git pack-refs`): their text, and what is read from it.

pub mod buffer;
pub mod decode;
pub mod file;
mod file_header;
pub mod find;
pub mod iter;
pub mod laws;
mod order;
mod parts;
mod prefixed;
pub mod sorted_file;
mod sorting;
pub mod unsorted;

pub use buffer::Buffer;
pub use gix_ref_packed_text::packed::window::Found;
pub use gix_ref_packed_text::packed::{Probes, Reference, search, searchable, written};
pub use iter::Iter;
