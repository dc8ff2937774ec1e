//! Values for tests of reflogs.
use gix_ref_log::actor::{SignatureRef, Time};
use std::alloc::Global;
use std::process::Abort;

/// Forty digits each.
pub const ZEROS: &[u8] = b"0000000000000000000000000000000000000000";

pub const ONES: &[u8] = b"1111111111111111111111111111111111111111";

/// The bytes of some texts, one after the other.
pub fn joined(rt: &impl Abort, alloc: Global, parts: &[&[u8]]) -> Vec<u8> {
    let mut text = Vec::new(alloc);
    for part in parts {
        text.extend_from_slice(part).expect(rt, "memory");
    }
    text
}

/// The committer of the worked rows, of this name.
pub fn committer<'a>(name: &'a [u8]) -> SignatureRef<'a> {
    SignatureRef {
        name,
        email: b"c@example.com",
        time: Time {
            seconds: 1234,
            offset: 28800,
        },
    }
}
