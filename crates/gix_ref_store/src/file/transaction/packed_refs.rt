//! What a transaction does with `packed-refs`.
pub use gix_ref_transaction::packing::PackedRefs;
