//! Reflogs: signatures, lines, and the items of a log from either end.

mod fronts;
mod items;
mod lines;
mod made;
mod reader;
mod signatures;
mod writer;
