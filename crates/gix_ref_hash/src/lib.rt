//! Ids of objects and their hex digits, and cuts of byte texts.
//!
//! # What is proved
//!
//! - an id is read from exactly 40 or 64 hex digits; ids and digits determine one another; ids are written in lower case:
//!   `ObjectId::from_hex`, `laws::digits_of_ids`, `Display` of `ObjectId`
//! - digits in lower case are added to a text, no id read: `hash::push_lower_hex`
//! - ids at the front of a text, with what is left of it: `split_id`, `hex_hash`, `hex_hash_any`, `newline`
//! - orders and equality: ids by kind and then bytes; in the crates above names by bytes, and all else by fields and variants: the
//!   modules `laws`, and `orders` of `gix_ref_follow`
#![tactic(auto)]

pub mod bytes;
pub mod hash;
pub mod laws;
