//! Objects as a reference store sees them: what a finder of objects is, and the object that a tag is of.
//!
//! # What is proved
//!
//! - what a finder reports of an id: its object, nothing, or that it cannot be read, where it claims so; of a finder that claims
//!   nothing no report is believed: the trait `object::Find`
//! - the object at the end of at most 1,000 tags; an id without an object, a tag that names none, a chain that is longer, an
//!   object that cannot be read: `peel::peel_to_end`, `tag_target`
//! - chains up to the limit lead to their end, longer ones and a tag that names itself are too long: `laws::ends_of_chains`
#![tactic(auto)]

pub mod laws;
pub mod object;
pub mod peel;
