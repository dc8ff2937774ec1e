//! Reflogs: signatures, lines, and the items of a log from either end.
//!
//! # What is proved
//!
//! - signatures are read exactly by their grammar; what cannot be written is reported before the first byte, and what can is read
//!   again. After a fault of the writer it holds a beginning of the signature, and not all of it: `SignatureRef::decode`,
//!   `is_writable`, `write_to`, `trim`, `laws::signatures_read_back`
//! - a line is read exactly by its grammar, and the first line of any other text is lent: `LineRef::from_bytes`
//! - the ids of a line's digits; the same line, owned: `LineRef::previous_oid`, `new_oid`, `to_owned`
//! - how a line is written; a message with LF, then a signature that cannot be written, reported before the first byte. After a
//!   fault of the writer it holds a beginning of the line, and not all of it (`StopsShort` in `Writers.antt`): `Line::write_to`
//! - the same added to a text, whose only other error is that the text has no room for the line; after an error the text is as it
//!   was: `Line::push_to`
//! - the bytes that a transaction adds to a log, and when it refuses: `appended_line`
//! - what was written is read again, and a text is one line at most: `laws::lines_read_back`
//! - a log forward: each line or a fault with its number, in order, to the end: `log::iter::forward`
//! - a log from its end: whatever calls of `next` follow, they give the reversed lines up to the first that does not fit, or a
//!   beginning of them and one fault. `Memory` only in the place of a good line; the same of the lines that `next_ref` lends, and
//!   there is no `Memory` among those: `log::iter::reverse`
#![tactic(auto)]

pub mod actor;
pub mod laws;
pub mod log;
mod writer;
