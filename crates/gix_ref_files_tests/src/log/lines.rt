//! Lines of reflogs: which texts are read, what is written, and what cannot be (`git reflog`, `git update-ref`).
use crate::log::made::{ONES, ZEROS, committer, joined};
use crate::log::writer::Slow;
use gix_ref_hash::hash::{Kind, ObjectId};
use gix_ref_log::log::{AppendError, Line, LineRef, WriteError};
use std::alloc::Global;
use std::process::Abort;

/// The line of the worked rows with this committer and message.
fn line(rt: &impl Abort, alloc: Global, name: &[u8], message: &[u8]) -> Line {
    Line {
        previous_oid: Kind::Sha1.null(),
        new_oid: ObjectId::from_hex(ONES).expect(rt, "an id"),
        signature: committer(name).to_owned(alloc).expect(rt, "memory"),
        message: Vec::from_slice(alloc, message).expect(rt, "memory"),
    }
}

#[test]
fn a_line_is_written_and_read_again(rt: HostRuntime) {
    let alloc = rt.alloc();
    let made = line(&rt, alloc, b"C", b"");
    let mut out = Vec::new(alloc);
    assert!(rt; made.write_to(&mut out).is_ok(), "it is written");
    let who = b" C <c@example.com> 1234 +0800\t\n".as_slice();
    let want = joined(&rt, alloc, &[ZEROS, b" ", ONES, who]);
    assert!(rt; out == want, "a tab also before an empty message");
    let read = LineRef::from_bytes(&out).expect(&rt, "a line");
    let owned = read.to_owned(alloc).expect(&rt, "memory");
    assert!(rt; owned == made, "and read again");
    let copy = owned.clone().expect(&rt, "memory");
    assert!(rt; copy == made, "a copy");
}

#[test]
fn a_writer_that_fails(rt: HostRuntime) {
    let mut room = [0u8; 50];
    let mut short = room.as_mut_slice();
    let failed = line(&rt, rt.alloc(), b"C", b"ab").write_to(&mut short);
    assert!(rt; matches!(failed, Err(WriteError::Io(_))), "no room");
    assert!(rt; room.starts_with(ZEROS), "what it took before");
}

#[test]
fn a_line_is_added_to_a_text(rt: HostRuntime) {
    let alloc = rt.alloc();
    let mut text = Vec::from_slice(alloc, b"before\n").expect(&rt, "memory");
    let added = line(&rt, alloc, b"C", b"why").push_to(&mut text);
    assert!(rt; added.is_ok(), "it is added");
    let who = b" C <c@example.com> 1234 +0800\twhy\n".as_slice();
    let want = joined(&rt, alloc, &[b"before\n", ZEROS, b" ", ONES, who]);
    assert!(rt; text == want, "behind what was there");
    let refused = line(&rt, alloc, b"<", b"why").push_to(&mut text);
    assert!(rt;
        refused == Err(AppendError::SignatureUnwritable),
        "a name with <"
    );
    assert!(rt; text == want, "and nothing is added");
}

#[test]
fn a_writer_that_is_slow_and_interrupted(rt: HostRuntime) {
    let alloc = rt.alloc();
    let made = line(&rt, alloc, b"C", b"why");
    let mut want = Vec::new(alloc);
    assert!(rt; made.push_to(&mut want).is_ok(), "the text");
    let mut slow = Slow::new(alloc);
    assert!(rt; made.write_to(&mut slow).is_ok(), "it is written");
    assert!(rt; slow.taken == want, "byte by byte");
}
