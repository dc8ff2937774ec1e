//! What keeps the traits of this crate to its own types.

/// Implemented for references alone.
pub trait Sealed {}
