//! Following and peeling references, and their reflogs.

mod chain;
mod finders;
mod made;
mod objects;
mod peel;
mod reflogs;
