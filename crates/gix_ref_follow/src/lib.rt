//! Following symbolic references to an object, peeling tags, and the reflogs of references.
//!
//! # What is proved
//!
//! `P`: the files are honest and `packed-refs` (or the caller's buffer) is well formed; for peeling also the finder claims.
//!
//! - under `P`, a step is what the lookup of the symbolic target finds; `None` exactly for an object; why it fails, on any text:
//!   `ReferenceExt::follow`, `follow_packed`
//! - under `P`, a following ends as `following` says of the lookups, and the reference is the one at which it ends, or, on a fault
//!   or want of memory, one that it reached: `follow_to_object_packed`, `follow_to_object_in_place_packed`, clause `followed`
//! - up to four steps lead to an object, a fifth is too deep, a step back is a cycle also as the fifth, a name without reference
//!   is dangling: `laws::ends_of_followings`
//! - under `P`, a peeling ends as `peeling` says of the lookups and of what the finder has: `peel_to_id`, `peel_to_id_in_place`,
//!   `peel_to_id_packed`, `peel_to_id_in_place_packed`, clause `peeled`
//! - a reference with a peeled id returns it at once; after a success it points to the object, which is its peeled id: the same,
//!   clauses `at_once`, `done`
//! - on any text: each step was a hit of the lookup of the target. Why a following or a peeling is refused, and at which
//!   reference: the lookup of its target fails or sees nothing, the target leads back to a name that was passed, or five steps led
//!   there. What comes of the tags of the object that is reached: clauses `hits`, `failed`
//! - nothing changes but the reference, and a success counts no fault: clauses `unchanged`, `no_fault`, `failed`
//! - the orders of `WriteReflog` and of `loose::Reference` are total, and equality is that of all fields:
//!   `gix_ref_follow::orders`
//! - the reflog calls of references are those of the store under their names: `ReferenceExt::log_exists`, `log_iter`,
//!   `LooseReferenceExt`
//!
//! By tests alone: that a call succeeds where memory suffices.
#![tactic(auto)]

mod chain;
pub mod laws;
mod loose_reference_ext;
pub mod orders;
pub mod peel;
mod reference_ext;
mod sealed;
mod tags;

pub use loose_reference_ext::LooseReferenceExt;
pub use reference_ext::ReferenceExt;
