//! Loose texts and the targets that they hold.
use crate::store::values::full_name;
use gix_ref_hash::hash::Kind;
use gix_ref_name::name;
use gix_ref_store::file::loose::{Error, Reference};
use gix_ref_store::raw;
use gix_ref_target::target::{Kind as TargetKind, Target};
use std::alloc::{AllocError, Global};
use std::process::Abort;

/// What a text is decoded to.
#[derive(Clone, Copy, Debug, PartialEq, Eq)]
enum Answer {
    /// An id of this kind.
    Object(Kind),
    /// The name `refs/heads/a`.
    Branch,
    /// Another name.
    OtherName,
    /// Neither an id nor a symbolic reference.
    Parse,
    /// A path that breaks this rule.
    Rule(name::Error),
    Memory,
}

/// The result for a target.
fn target_answer(target: &Target) -> Answer {
    match target {
        Target::Object(id) => Answer::Object(id.kind()),
        Target::Symbolic(name) if name.eq_bytes(b"refs/heads/a") => Answer::Branch,
        Target::Symbolic(_) => Answer::OtherName,
    }
}

/// What a text is decoded to.
fn decoded(rt: &impl Abort, alloc: Global, text: &[u8], kind: Kind) -> Answer {
    let name = full_name(alloc, "refs/heads/x").expect(rt, "a full name");
    match Reference::try_from_path(alloc, name, text, kind) {
        Ok(reference) => target_answer(&reference.target),
        Err(Error::Parse { .. }) => Answer::Parse,
        Err(Error::RefnameValidation { source, .. }) => Answer::Rule(source),
        Err(Error::Memory) => Answer::Memory,
    }
}

#[test]
fn any_byte_anywhere(rt: HostRuntime) {
    let alloc = rt.alloc();
    for place in 0..41usize {
        for byte in 0..=255u8 {
            let mut text = [b'1'; 41];
            text[40] = b'\n';
            text[place] = byte;
            let is_id = byte.is_ascii_hexdigit() == (place < 40);
            let want = if is_id {
                Answer::Object(Kind::Sha1)
            } else {
                Answer::Parse
            };
            assert_eq!(rt;
                decoded(&rt, alloc, &text, Kind::Sha1),
                want,
                "{byte} at {place}"
            );
        }
    }
}

#[test]
fn references_as_values(rt: HostRuntime) {
    let alloc = rt.alloc();
    let name = full_name(alloc, "refs/heads/x").expect(&rt, "a full name");
    let made = Reference::try_from_path(alloc, name, b"ref: HEAD\n", Kind::Sha1);
    let Ok(reference) = made else {
        panic!(rt; "a symbolic reference");
    };
    assert_eq!(rt; reference.kind(), TargetKind::Symbolic);
    assert!(rt; reference.eq_bytes(b"refs/heads/x") && !reference.eq_bytes(b"refs/heads/y"));
    let copy: Result<Reference, AllocError> = reference.clone();
    let copy = copy.expect(&rt, "memory");
    assert!(rt; copy == reference, "a copy");
    let as_raw: raw::Reference = copy.into();
    assert!(rt; as_raw.eq_bytes(b"refs/heads/x") && as_raw.peeled.is_none());
    let back: Reference = as_raw.into();
    assert!(rt; back == reference, "and back");
}
