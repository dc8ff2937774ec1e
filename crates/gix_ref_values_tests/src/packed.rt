//! Packed references, rewrites of `packed-refs` and references as values: worked cases, and what no contract says.

mod files;
mod fronts;
mod made;
mod many;
mod misordered;
mod opened;
mod prefixes;
mod probes;
mod raw;
mod rows;
mod unsorted;
