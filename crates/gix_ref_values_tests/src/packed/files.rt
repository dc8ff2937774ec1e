//! The search in a file that stays where it is, with reads that fail.
use crate::made::{full, id};
use crate::packed::made::{NAMES, TEXT, sorted, stored};
use gix_ref_files::files::{Files, ReadAt};
use gix_ref_hash::hash::Kind;
use gix_ref_name::name::FullNameRef;
use gix_ref_packed::packed::Found;
use gix_ref_packed::packed::sorted_file::{FindError, ReadError, SortedFile};
use std::alloc::Global;
use std::process::Abort;
use std::test::Fail;

fn find<R: ReadAt + Drop>(
    records: &mut SortedFile<R>,
    name: FullNameRef<'_>,
) -> Result<Option<Found>, FindError> {
    records.find(Kind::Sha1, name)
}

#[test]
fn names_in_a_file(rt: HostRuntime) -> Result<(), Fail> {
    let alloc = rt.alloc();
    let text = sorted(&rt, alloc, TEXT);
    let mut memory = stored(&rt, alloc, text.as_slice());
    let reader = memory.open(alloc, b"r/packed-refs")?.ok_or("a file")?;
    let mut records = SortedFile::new(alloc, reader, 46);
    for name in NAMES {
        assert!(rt;
            find(&mut records, full(&rt, name)).is_ok_and(|found| found.is_some()),
            "{name}"
        );
    }
    let tag = find(&mut records, full(&rt, "refs/tags/v1"))
        .expect(&rt, "an answer")
        .expect(&rt, "a tag");
    assert!(rt; tag.target == id(&rt, b"2222222222222222222222222222222222222222"));
    assert!(rt; tag.object == Some(id(&rt, b"3333333333333333333333333333333333333333")));
    assert!(rt; find(&mut records, full(&rt, "refs/tags/v")) == Ok(None));
    Ok(())
}

/// A line of so many bytes after its space, among others.
fn with_a_long_line(rt: &impl Abort, alloc: Global, len: usize) -> Vec<u8> {
    let mut text = sorted(
        rt,
        alloc,
        b"1111111111111111111111111111111111111111 refs/heads/",
    );
    for _ in 0..len {
        text.push(b'a').expect(rt, "memory");
    }
    text.extend_from_slice(b"\n").expect(rt, "memory");
    text.extend_from_slice(b"2222222222222222222222222222222222222222 refs/heads/b\n")
        .expect(rt, "memory");
    text
}

#[test]
fn a_line_longer_than_a_window(rt: HostRuntime) -> Result<(), Fail> {
    let alloc = rt.alloc();
    for len in [2000, 4096, 9000] {
        let text = with_a_long_line(&rt, alloc, len);
        let mut memory = stored(&rt, alloc, text.as_slice());
        let reader = memory.open(alloc, b"r/packed-refs")?.ok_or("a file")?;
        let mut records = SortedFile::new(alloc, reader, 46);
        assert!(rt;
            find(&mut records, full(&rt, "refs/heads/b")).is_ok_and(|found| found.is_some())
        );
        assert!(rt; find(&mut records, full(&rt, "refs/heads/aa")) == Ok(None));
        assert!(rt; find(&mut records, full(&rt, "refs/heads/z")) == Ok(None));
    }
    Ok(())
}

#[test]
fn a_read_that_fails(rt: HostRuntime) -> Result<(), Fail> {
    let alloc = rt.alloc();
    let text = with_a_long_line(&rt, alloc, 9000);
    for call in 2..12 {
        let mut memory = stored(&rt, alloc, text.as_slice());
        memory.fail_at(call);
        let reader = memory.open(alloc, b"r/packed-refs")?.ok_or("a file")?;
        let mut records = SortedFile::new(alloc, reader, 46);
        match find(&mut records, full(&rt, "refs/heads/b")) {
            Ok(found) => assert!(rt; found.is_some(), "the call was not made"),
            Err(FindError::Read(ReadError::Io(_))) => {}
            Err(_) => assert!(rt; false, "a fault is reported as a fault"),
        }
    }
    Ok(())
}
