//! A `packed-refs` whose names do not rise: its file is searched line by line, and once many searches were made, by halving.
use crate::made::{full, id};
use crate::packed::made::stored;
use gix_ref_hash::hash::{Kind, ObjectId};
use gix_ref_memory::memory::MemoryReader;
use gix_ref_packed::packed::Found;
use gix_ref_packed::packed::buffer::open::Error;
use gix_ref_packed::packed::file::PackedFile;
use std::alloc::Global;
use std::process::Abort;

/// Records with and without a line with `^`, of LF and of CRLF.
const RECORDS: &[u8] = b"3333333333333333333333333333333333333333 refs/tags/c\n\
^4444444444444444444444444444444444444444\n\
1111111111111111111111111111111111111111 refs/tags/a\r\n\
^5555555555555555555555555555555555555555\r\n\
2222222222222222222222222222222222222222 refs/tags/b\n";

/// A name, the digits of its id, and those of the object at which its tag ends.
type Row = (&'static str, Option<&'static [u8]>, Option<&'static [u8]>);

const ROWS: &[Row] = &[
    (
        "refs/tags/c",
        Some(b"3333333333333333333333333333333333333333"),
        Some(b"4444444444444444444444444444444444444444"),
    ),
    (
        "refs/tags/a",
        Some(b"1111111111111111111111111111111111111111"),
        Some(b"5555555555555555555555555555555555555555"),
    ),
    (
        "refs/tags/b",
        Some(b"2222222222222222222222222222222222222222"),
        None,
    ),
    ("refs/tags/d", None, None),
    ("refs/tags/ab", None, None),
    ("refs/tags", None, None),
];

/// The names of the records, in order.
const IN_ORDER: &[&[u8]] = &[b"refs/tags/a", b"refs/tags/b", b"refs/tags/c"];

/// The id of these digits, if there are any.
fn wanted(rt: &impl Abort, digits: Option<&[u8]>) -> Option<ObjectId> {
    match digits {
        Some(digits) => Some(id(rt, digits)),
        None => None,
    }
}

/// The ids that a search found.
fn ids(found: Option<Found>) -> (Option<ObjectId>, Option<ObjectId>) {
    match found {
        Some(found) => (Some(found.target), found.object),
        None => (None, None),
    }
}

/// The file with the records, opened.
fn opened(rt: &impl Abort, alloc: Global) -> PackedFile<MemoryReader> {
    let mut memory = stored(rt, alloc, RECORDS);
    let opened = PackedFile::open(alloc, &mut memory, b"r/packed-refs", Kind::Sha1);
    opened.expect(rt, "it is opened").expect(rt, "a file")
}

#[test]
fn each_of_many_searches_finds_the_record(rt: HostRuntime) {
    let mut packed = opened(&rt, rt.alloc());
    assert!(rt;
        matches!(packed, PackedFile::Unsorted(_)),
        "names do not rise"
    );
    for _ in 0..8 {
        for &(name, target, object) in ROWS {
            let found = packed.find(full(&rt, name)).expect(&rt, "an answer");
            let want = (wanted(&rt, target), wanted(&rt, object));
            assert!(rt; ids(found) == want, "{name}");
        }
    }
}

#[test]
fn the_records_of_a_prefix_are_in_order(rt: HostRuntime) {
    let alloc = rt.alloc();
    let packed = opened(&rt, alloc);
    let packed = packed.into_prefixed(alloc, b"refs/").expect(&rt, "memory");
    let prefix = b"refs/".to_vec(alloc).expect(&rt, "memory");
    let mut names = IN_ORDER.iter();
    for record in packed.iter_prefixed(prefix) {
        let record = record.expect(&rt, "a record");
        let name = names.next().expect(&rt, "one of three");
        assert!(rt; record.eq_bytes(name), "in the order of the names");
    }
    assert!(rt; names.next().is_none(), "three records");
}

#[test]
fn a_bad_line_is_reported_with_its_number(rt: HostRuntime) {
    let alloc = rt.alloc();
    let mut text = RECORDS.to_vec(alloc).expect(&rt, "memory");
    text.extend_from_slice(b"xyz\n").expect(&rt, "memory");
    let mut memory = stored(&rt, alloc, text.as_slice());
    let opened = PackedFile::open(alloc, &mut memory, b"r/packed-refs", Kind::Sha1);
    assert!(rt;
        matches!(opened, Err(Error::Iter { line_number: 6 })),
        "the sixth line"
    );
}
