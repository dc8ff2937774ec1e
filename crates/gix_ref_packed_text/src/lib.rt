//! The text of `packed-refs` (`git pack-refs`): its header, its records, what is written, searches in it, and the new text after
//! edits of some records, which leaves all others as they are written; and references as values.
//!
//! # What is proved
//!
//! - header and records are read exactly where the text has them, and a refusal leaves the input: `packed::decode::header`,
//!   `reference`
//! - where the record of a byte begins: `record_start_at_offset`, `record_at_offset`
//! - the records of a text, computed: those of the grammar, and of no other text:
//!   `gix_ref_packed::packed::laws::records_are_computed`
//! - written text is read back as the same records, and a text is that of one list of records at most; a failed append leaves the
//!   text as it was: `packed::written`, `gix_ref_packed::packed::laws::written_text_reads_back`
//! - references as values, and what a record makes of them: `raw::Reference`
//! - of ascending records and edits of ascending keys: each key has what its edit makes of its record, and names ascend. The new
//!   text is the written one of these records, which is read as them again and is well formed. The file is to be removed where no
//!   record is left, and stays where no edit puts a record or finds one: `rewrite::rewrite`, clause `rewritten`
//! - of records it fails for want of memory alone. Any text that it rewrites is records as a whole, and of another text the first
//!   line that is no record is reported, with its number in the file, or that there was no memory: `rewrite::rewrite`
//! - a record that is put under a valid full name, with ids of the kind, can be read: `laws::merged_records`
#![tactic(auto)]

mod ahead;
mod applied;
pub mod edit;
pub mod error;
pub mod laws;
mod one_record;
pub mod outcome;
pub mod packed;
mod passed;
pub mod raw;
pub mod rewrite;
mod step;
mod written;
