//! The program: runs over the disk and in memory, a writer that fails, and what errors display.

mod disk;
mod errors;
mod listings;
mod ran;
