//! Reading the text of `packed-refs`: its header, its records, and where records begin.
pub use gix_ref_packed_text::packed::decode::{
    Header, Peeled, header, name_at_record_start, record_at_offset, record_start_at_offset,
    reference,
};
