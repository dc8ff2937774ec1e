//! Tests of whole transactions: random ones beside plain loops over files, and ones that are stopped, fail or lose power.
//!
//! - `disk`: over the disk, in a folder of the test.
//! - `random`, `growing`, `scripts`: random ones, over small stores, one store that grows, and as lines of scripts.
//!
//! The other files are the plain loops: what a transaction must answer, and the files that it must leave. With the checks of
//! `rt try --test` the tests of `growing` take 40 seconds each on a processor of their own.
#![tactic(auto)]

#[cfg(test)]
mod causes;
#[cfg(test)]
mod committing;
#[cfg(test)]
mod dice;
#[cfg(test)]
mod disk;
#[cfg(test)]
mod edits;
#[cfg(test)]
mod files;
#[cfg(test)]
mod growing;
#[cfg(test)]
mod made;
#[cfg(test)]
mod names;
#[cfg(test)]
mod objects;
#[cfg(test)]
mod preparing;
#[cfg(test)]
mod random;
#[cfg(test)]
mod reading;
#[cfg(test)]
mod scripts;
#[cfg(test)]
mod stores;
