//! A `packed-refs` that is opened: as a buffer, and for searches in its file.
use crate::made::{full, id};
use crate::packed::made::{SORTED, buffer, stored};
use gix_ref_files::files::Files;
use gix_ref_hash::hash::Kind;
use gix_ref_memory::memory::Memory;
use gix_ref_packed::packed::buffer::open::Error;
use gix_ref_packed::packed::file::PackedFile;
use gix_ref_packed::packed::sorted_file::FindError;
use gix_ref_packed::packed::{Buffer, Found};
use std::alloc::Global;
use std::process::Abort;

const ONE: &[u8] = b"1111111111111111111111111111111111111111 refs/heads/a\n";

const UNSORTED: &[u8] =
    b"2222222222222222222222222222222222222222 refs/tags/b\n1111111111111111111111111111111111111111 refs/heads/a\n";

/// Records before those below `refs/`, among them, and behind them.
const OUTSIDE: &[u8] = b"1111111111111111111111111111111111111111 heads/refs/a\n\
2222222222222222222222222222222222222222 refs/heads/a\n\
4444444444444444444444444444444444444444 tags/refs/a\n\
^3333333333333333333333333333333333333333\n";

const BAD_HEADER: &[u8] = b"# foo\n1111111111111111111111111111111111111111 refs/heads/a\n";

/// Opens a path in files, the given call of which fails, and asks for `refs/heads/a` by both ways of opening.
fn both(
    rt: &impl Abort,
    alloc: Global,
    text: &[u8],
    path: &[u8],
    fails: u64,
) -> [Result<Option<bool>, Error>; 2] {
    let name = full(rt, "refs/heads/a");
    let mut memory = stored(rt, alloc, text);
    memory.fail_at(fails);
    let buffer = match Buffer::open(alloc, &mut memory, path, 32_768, Kind::Sha1) {
        Ok(Some(packed)) => Ok(Some(matches!(packed.try_find_key(name), Ok(Some(_))))),
        Ok(None) => Ok(None),
        Err(error) => Err(error),
    };
    let mut memory = stored(rt, alloc, text);
    memory.fail_at(fails);
    let file = match PackedFile::open(alloc, &mut memory, path, Kind::Sha1) {
        Ok(Some(mut packed)) => Ok(Some(matches!(packed.find(name), Ok(Some(_))))),
        Ok(None) => Ok(None),
        Err(error) => Err(error),
    };
    [buffer, file]
}

#[test]
fn from_files(rt: HostRuntime) {
    let alloc = rt.alloc();
    let rows: &[(&[u8], &[u8], Result<Option<bool>, Error>, &str)] = &[
        (
            ONE,
            b"r/packed-refs",
            Ok(Some(true)),
            "a file without a header",
        ),
        (
            UNSORTED,
            b"r/packed-refs",
            Ok(Some(true)),
            "a file that is not sorted",
        ),
        (ONE, b"r/none", Ok(None), "nothing at the path"),
        (ONE, b"r", Ok(None), "a folder at the path"),
        (ONE, b"r/packed-refs/x", Ok(None), "a file in the path"),
        (
            BAD_HEADER,
            b"r/packed-refs",
            Err(Error::HeaderParsing),
            "no header after a number sign",
        ),
    ];
    for &(text, path, want, meaning) in rows {
        for found in both(&rt, alloc, text, path, 100) {
            assert!(rt; found == want, "{meaning}");
        }
    }
    for found in both(&rt, alloc, ONE, b"r/packed-refs", 1) {
        assert!(rt; matches!(found, Err(Error::Io(_))), "the first call fails");
    }
    for found in both(&rt, alloc, b"xyz\n", b"r/packed-refs", 100) {
        assert!(rt;
            found == Err(Error::Iter { line_number: 1 }),
            "a line that is no record"
        );
    }
    for found in both(&rt, alloc, b"", b"r/packed-refs", 100) {
        assert!(rt; found == Ok(Some(false)), "an empty file");
    }
}

/// The result of the search in an opened file.
fn asked(
    rt: &impl Abort,
    alloc: Global,
    memory: &mut Memory,
    name: &str,
) -> Result<Option<Found>, FindError> {
    let opened = PackedFile::open(alloc, memory, b"r/packed-refs", Kind::Sha1);
    let mut packed = opened.expect(rt, "it is opened").expect(rt, "a file");
    packed.find(full(rt, name))
}

#[test]
fn names_outside_of_refs(rt: HostRuntime) {
    let alloc = rt.alloc();
    let packed = buffer(&rt, alloc, OUTSIDE);
    let mut memory = stored(&rt, alloc, OUTSIDE);
    let rows: &[(&str, bool, &str)] = &[
        ("heads/refs/a", true, "the first record"),
        ("refs/heads/a", true, "a record below refs/"),
        ("tags/refs/a", true, "the last record"),
        ("heads/refs/0", false, "before the first"),
        ("heads/refs/b", false, "behind the first"),
        ("remotes/refs/a", false, "between two"),
        ("tags/refs/0", false, "before the last"),
        ("tags/refs/b", false, "behind the last"),
    ];
    for &(name, want, meaning) in rows {
        let held = packed
            .try_find_key(full(&rt, name))
            .expect(&rt, "an answer");
        assert!(rt; held.is_some() == want, "{meaning}");
        let read = asked(&rt, alloc, &mut memory, name).expect(&rt, "an answer");
        assert!(rt; read.is_some() == want, "{meaning}, in a file");
    }
}

#[test]
fn a_sorted_file_is_not_read_as_a_whole(rt: HostRuntime) {
    let alloc = rt.alloc();
    let mut text = SORTED.to_vec(alloc).expect(&rt, "memory");
    text.extend_from_slice(ONE).expect(&rt, "memory");
    text.extend_from_slice(b"xyz\n").expect(&rt, "memory");
    let mut memory = stored(&rt, alloc, text.as_slice());
    let found = asked(&rt, alloc, &mut memory, "refs/heads/a")
        .expect(&rt, "an answer")
        .expect(&rt, "a record");
    assert!(rt;
        found.target == id(&rt, b"1111111111111111111111111111111111111111"),
        "the record"
    );
    assert!(rt;
        asked(&rt, alloc, &mut memory, "refs/heads/b") == Err(FindError::Parse),
        "a bad line at the end"
    );
}

#[test]
fn a_long_header_line(rt: HostRuntime) {
    let alloc = rt.alloc();
    let mut text = b"# pack-refs with: sorted"
        .to_vec(alloc)
        .expect(&rt, "memory");
    for _ in 0..600 {
        text.extend_from_slice(b" abc").expect(&rt, "memory");
    }
    text.extend_from_slice(b"\n").expect(&rt, "memory");
    text.extend_from_slice(ONE).expect(&rt, "memory");
    let mut memory = stored(&rt, alloc, text.as_slice());
    let found = asked(&rt, alloc, &mut memory, "refs/heads/a").expect(&rt, "an answer");
    assert!(rt; found.is_some(), "a header line of 2 KB");
}
