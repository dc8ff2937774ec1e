//! Signatures: which texts are read, what is written, and what cannot be (`git commit-tree`).
use gix_ref_log::actor::{SignatureRef, Time, WriteError};
use std::process::Abort;

/// Name, email, seconds and offset.
type Parts = (&'static [u8], &'static [u8], i64, i32);

/// A signature by its parts.
fn made(parts: Parts) -> SignatureRef<'static> {
    let (name, email, seconds, offset) = parts;
    SignatureRef {
        name,
        email,
        time: Time { seconds, offset },
    }
}

/// What is written of a signature; `None` where it cannot be written.
fn written(rt: &(impl Abort + AllocGlobal), signature: SignatureRef<'_>) -> Option<Vec<u8>> {
    let mut out = Vec::new(rt.alloc());
    match signature.write_to(&mut out) {
        Ok(()) => Some(out),
        Err(WriteError::SignatureUnwritable) => None,
        Err(WriteError::Io(_)) => rt.panic("memory"),
    }
}

#[test]
fn blanks_at_the_ends_are_trimmed(rt: HostRuntime) {
    let trimmed = made((b" \t\n\x0c\ra b\x0b", b"", 1, 1)).trim();
    assert_eq!(rt; trimmed, made((b"a b\x0b", b"", 1, 1)), "all blanks but VT");
}

#[test]
fn a_writer_that_fails(rt: HostRuntime) {
    let mut room = [0u8; 10];
    let mut out = room.as_mut_slice();
    let failed = made((b"name", b"email", 1, 0)).write_to(&mut out);
    assert!(rt; matches!(failed, Err(WriteError::Io(_))), "no room");
    assert!(rt; room.starts_with(b"name <"), "what it took before");
}

#[test]
fn owned_and_lent(rt: HostRuntime) {
    let lent = made((b"a", b"b", 1, 60));
    let owned = lent.to_owned(rt.alloc()).expect(&rt, "memory");
    assert_eq!(rt; owned.to_ref(), lent, "lent again");
    let copy = owned.clone().expect(&rt, "memory");
    assert!(rt; copy == owned, "a copy");
}
