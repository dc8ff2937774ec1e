//! Values for tests. A text that is not what the test means it to be ends the test.
use gix_ref_hash::hash::ObjectId;
use gix_ref_name::name::{FullNameRef, PartialNameRef};
use std::alloc::AllocError;
use std::process::Abort;

/// Forty digits `1`.
pub const ONES: &[u8] = b"1111111111111111111111111111111111111111";

pub fn full<'a>(rt: &impl Abort, text: &'a str) -> FullNameRef<'a> {
    FullNameRef::try_from(text).expect(rt, "a full name")
}

pub fn partial<'a>(rt: &impl Abort, text: &'a str) -> PartialNameRef<'a> {
    PartialNameRef::try_from(text).expect(rt, "a partial name")
}

pub fn id(rt: &impl Abort, digits: &[u8]) -> ObjectId {
    ObjectId::from_hex(digits).expect(rt, "an id")
}

pub fn copy<T: Clone>(rt: &impl Abort, value: &T) -> T {
    let made: Result<T, AllocError> = value.clone();
    made.expect(rt, "memory")
}
