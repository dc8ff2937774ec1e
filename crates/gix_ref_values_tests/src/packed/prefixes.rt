//! Of an opened file only the records of a prefix are read, with the numbers of its lines.
use crate::made::ONES;
use crate::packed::made::{copied, sorted, stored};
use gix_ref_hash::hash::Kind;
use gix_ref_memory::memory::Memory;
use gix_ref_packed::packed::Buffer;
use gix_ref_packed::packed::file::PackedFile;
use gix_ref_packed::packed::iter::Error as ItemError;
use gix_ref_packed::packed::sorted_file::ReadError;
use gix_ref_packed::packed::written::push_record;
use std::alloc::Global;
use std::process::Abort;

/// What two tags and a peeled one are written as; the last is not the last of all records.
const TAGS: &[u8] = b"2222222222222222222222222222222222222222 refs/tags/v1\n\
^3333333333333333333333333333333333333333\n\
4444444444444444444444444444444444444444 refs/tags/v2\n";

/// The same with a line between them that is no record.
const BAD_TAGS: &[u8] = b"2222222222222222222222222222222222222222 refs/tags/v1\n\
^3333333333333333333333333333333333333333\n\
xyz\n\
4444444444444444444444444444444444444444 refs/tags/v2\n";

/// A hundred branches, the tags, and a hundred names after them. The lines of the tags begin with line 102.
fn among_others(rt: &impl Abort, alloc: Global, tags: &[u8]) -> Vec<u8> {
    let mut text = sorted(rt, alloc, b"");
    for i in 0..100 {
        let name = format!(in alloc; "refs/heads/b{i:03}").expect(rt, "memory");
        push_record(&mut text, name.as_bytes(), ONES, None).expect(rt, "memory");
    }
    text.extend_from_slice(tags).expect(rt, "memory");
    for i in 0..100 {
        let name = format!(in alloc; "refs/x/b{i:03}").expect(rt, "memory");
        push_record(&mut text, name.as_bytes(), ONES, None).expect(rt, "memory");
    }
    text
}

/// What is read of a file for a prefix.
fn read(
    rt: &impl Abort,
    alloc: Global,
    memory: &mut Memory,
    prefix: &[u8],
) -> Result<Buffer, ReadError> {
    let opened = PackedFile::open(alloc, memory, b"r/packed-refs", Kind::Sha1);
    let file = opened.expect(rt, "it is opened").expect(rt, "a file");
    file.into_prefixed(alloc, prefix)
}

/// How many items a buffer has for a prefix, and the numbers of its faults, added.
fn counted(rt: &impl Abort, alloc: Global, packed: &Buffer, prefix: &[u8]) -> (u64, u64) {
    let mut items: u64 = 0;
    let mut faults: u64 = 0;
    for item in packed.iter_prefixed(copied(rt, alloc, prefix)) {
        items = items.saturating_add(1);
        if let Err(ItemError::Reference { line_number, .. }) = item {
            faults = faults.saturating_add(line_number);
        }
    }
    (items, faults)
}

#[test]
fn records_of_a_prefix(rt: HostRuntime) {
    let alloc = rt.alloc();
    let rows: &[(&[u8], &[u8], u64, u64, &str)] = &[
        (TAGS, b"refs/tags/", 2, 0, "those between others"),
        (TAGS, b"refs/tags/v1", 1, 0, "one with a peeled line"),
        (TAGS, b"refs/heads/b00", 10, 0, "the first"),
        (TAGS, b"refs/x/b09", 10, 0, "the last"),
        (TAGS, b"refs/y", 0, 0, "none behind the last"),
        (
            TAGS,
            b"refs/tags/v\xff",
            0,
            0,
            "none that a highest byte ends",
        ),
        (TAGS, b"", 202, 0, "all"),
        (
            BAD_TAGS,
            b"refs/tags/",
            3,
            104,
            "a line that is no record has its number",
        ),
        (BAD_TAGS, b"refs/x/", 100, 0, "and is not seen elsewhere"),
    ];
    for &(tags, prefix, items, faults, meaning) in rows {
        let text = among_others(&rt, alloc, tags);
        let mut memory = stored(&rt, alloc, text.as_slice());
        let packed = read(&rt, alloc, &mut memory, prefix).expect(&rt, "it is read");
        assert!(rt;
            counted(&rt, alloc, &packed, prefix) == (items, faults),
            "{meaning}"
        );
    }
}

#[test]
fn only_the_lines_of_the_prefix_are_read(rt: HostRuntime) {
    let alloc = rt.alloc();
    let text = among_others(&rt, alloc, TAGS);
    let mut memory = stored(&rt, alloc, text.as_slice());
    let packed = read(&rt, alloc, &mut memory, b"refs/tags/").expect(&rt, "it is read");
    assert!(rt; packed.as_bytes() == TAGS);
}

#[test]
fn a_file_that_is_not_sorted(rt: HostRuntime) {
    let alloc = rt.alloc();
    let mut text = copied(
        &rt,
        alloc,
        b"5555555555555555555555555555555555555555 refs/x\n",
    );
    text.extend_from_slice(TAGS).expect(&rt, "memory");
    let mut memory = stored(&rt, alloc, text.as_slice());
    let packed = read(&rt, alloc, &mut memory, b"refs/tags/").expect(&rt, "it is read");
    assert!(rt; counted(&rt, alloc, &packed, b"refs/tags/") == (2, 0));
}

#[test]
fn a_read_that_fails(rt: HostRuntime) {
    let alloc = rt.alloc();
    let text = among_others(&rt, alloc, BAD_TAGS);
    for call in 3..40 {
        let mut memory = stored(&rt, alloc, text.as_slice());
        memory.fail_at(call);
        match read(&rt, alloc, &mut memory, b"refs/tags/") {
            Ok(packed) => {
                assert!(rt; call > 6, "the call was not made");
                assert!(rt; counted(&rt, alloc, &packed, b"refs/tags/") == (3, 104));
            }
            Err(ReadError::Io(_)) => {}
            Err(_) => assert!(rt; false, "a fault is reported as a fault"),
        }
    }
}
