//! Files: the calls of a file system, on the disk and in memory.
pub use gix_ref_files::disk::{Disk, DiskReader};
pub use gix_ref_files::faults::Faults;
pub use gix_ref_files::files::{Create, Entry, FileError, Files, Node, ReadAt, Rename};
pub use gix_ref_memory::memory::Memory;
