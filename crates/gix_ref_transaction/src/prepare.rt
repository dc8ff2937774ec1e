//! Preparing: the causes of a refusal in their order, the locks and their texts.
pub mod carry;
pub mod check;
mod error;
pub(crate) mod expect;
pub mod hold;
pub mod packed;
pub mod packed_lock;
pub mod peel;
pub mod records;
pub mod split;
pub mod take;

pub use error::Error;
