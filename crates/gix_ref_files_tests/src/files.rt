//! The same table of calls and results over files in memory and on the disk; stops and faults in memory, and what
//! steps and locks leave then.

mod disk;
mod memory;
mod power;
mod table;
