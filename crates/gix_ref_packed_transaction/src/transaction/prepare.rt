//! Why a change of `packed-refs` is not prepared.
pub use gix_ref_transaction::prepare::packed::Error;
