//! Packed references: `packed-refs` in memory and in its file.
//!
//! # What is proved
//!
//! - a text is refused exactly for the stated reasons, with the number of its first bad line; a text whose header says sorted, or
//!   whose names do not descend, is kept. Of any other the records are put in the order of their names: `Buffer::from_bytes`, `open`
//! - every run of an iterator gives the records and the faults of the text, with their numbers in the file: `Buffer::iter`,
//!   `iter_prefixed`, `packed::Iter::new`
//! - the same for a caller that keeps the iterator: which records it is yet to give, and that each `next` gives the first of
//!   them, none after the last, and for no text a fault that is no line: `Buffer::iter`, `iter_prefixed`,
//!   `packed::laws::next_gives_the_first`
//! - of any text each record that is given begins a line, and each fault is about a line that neither begins a record nor belongs to
//!   one, with its number: `Buffer::iter_prefixed`, clause `rest`, `packed::laws::next_gives_the_first`, clause `of` (`IsItemOf` in
//!   `YetToGive.antt`). Of what is read of a file for a prefix the same: `PackedFile::into_prefixed`, clause `holds` (`HoldsPrefix`)
//! - of any text whose names ascend: of each line of a record's form with a name of a prefix a record is yet to be given, or a line
//!   that is no record. So where the items end without a fault, none is missing, and each is a record: `Buffer::iter_prefixed`,
//!   clause `owes` (`Owes`, `NextPaysOne` in `YetToGive.antt`), `packed::laws::next_gives_the_first`, clause `pays`; of what is read
//!   of a file for the prefix `PackedFile::into_prefixed`, clause `asked`
//! - of an opened file a buffer has all records of a prefix, with the file's line numbers; why it cannot be read:
//!   `packed::file::PackedFile::into_prefixed`, `packed::laws::prefixed_buffers_hold_records`
//! - on ascending records a search gives the record of the name or none, and no fault. On any text a hit is a record of the name at
//!   the start of a line, and an error has a malformed line or a damaged record of that name. Where it is `None`, a text that is not
//!   empty has at least one line of the form of a record: `Buffer::try_find_full`, `try_find_key`, `try_find`, `find`
//! - what is opened on a well-formed text holds its records in the order of their names, in memory and in a file, each found by
//!   its name: `packed::laws::opened_holds_records`
//! - the same of an opened file whose names do not rise: it is searched line by line, and holds its records as if they were in
//!   order: `packed::file::PackedFile::find`, `into_prefixed`, `in_order` in `InOrder.antt`
//! - at most as many looks as the number of bytes has binary digits: `Buffer::try_find_full`, `packed::search::search`
//! - the same in a file that is not in memory; `Io` never holds `Memory`, and a fault is counted where the file could not be read
//!   and nowhere else. An `Io` of opening was counted by the files, or a read of the opened file failed:
//!   `packed::file::PackedFile::open`, `find`, `packed::sorted_file::SortedFile`
#![tactic(auto)]

pub mod laws;
pub mod packed;

pub use gix_ref_packed_text::raw;
