//! Packed references (`git pack-refs`): their text, what is read from it, and a transaction of `packed-refs` alone.
pub use gix_ref_packed::packed::{
    Buffer, Found, Iter, Probes, Reference, buffer, decode, file, find, iter, laws, search,
    searchable, sorted_file, unsorted, written,
};
pub use gix_ref_packed_transaction::{Transaction, transaction};
