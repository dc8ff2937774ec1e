//! A header that says `sorted` over names that descend, and over doubled names: the records stay as they are, and a search
//! finds what git finds. The wanted results are those of `git rev-parse --verify` and `git show-ref` of git 2.39.5 for the
//! same texts.
use crate::made::{ONES, full, id};
use crate::packed::made::{buffer, copied, sorted, stored};
use gix_ref_hash::hash::{Kind, ObjectId};
use gix_ref_packed::packed::Iter;
use gix_ref_packed::packed::file::PackedFile;
use std::alloc::Global;
use std::process::Abort;

const TWOS: &[u8] = b"2222222222222222222222222222222222222222";

const THREES: &[u8] = b"3333333333333333333333333333333333333333";

const FOURS: &[u8] = b"4444444444444444444444444444444444444444";

/// Two names that descend.
const TWO_DESCEND: &[u8] = b"2222222222222222222222222222222222222222 refs/tags/b\n\
1111111111111111111111111111111111111111 refs/tags/a\n";

/// Three names that descend.
const THREE_DESCEND: &[u8] = b"3333333333333333333333333333333333333333 refs/tags/c\n\
2222222222222222222222222222222222222222 refs/tags/b\n\
1111111111111111111111111111111111111111 refs/tags/a\n";

/// One name twice.
const DOUBLED: &[u8] = b"1111111111111111111111111111111111111111 refs/tags/a\n\
2222222222222222222222222222222222222222 refs/tags/a\n";

/// One name twice, among others.
const DOUBLED_AMONG_OTHERS: &[u8] = b"1111111111111111111111111111111111111111 refs/tags/a\n\
2222222222222222222222222222222222222222 refs/tags/b\n\
3333333333333333333333333333333333333333 refs/tags/b\n\
4444444444444444444444444444444444444444 refs/tags/c\n";

/// The target of a name, in a buffer and in the file.
fn targets(rt: &impl Abort, alloc: Global, text: &[u8], name: &str) -> [Option<ObjectId>; 2] {
    let packed = buffer(rt, alloc, text);
    let in_memory = match packed
        .try_find_key(full(rt, name))
        .expect(rt, "no malformed line")
    {
        Some(record) => Some(record.target()),
        None => None,
    };
    let mut memory = stored(rt, alloc, text);
    let opened = PackedFile::open(alloc, &mut memory, b"r/packed-refs", Kind::Sha1);
    let mut packed = opened.expect(rt, "it is opened").expect(rt, "a file");
    let in_file = match packed.find(full(rt, name)).expect(rt, "no malformed line") {
        Some(found) => Some(found.target),
        None => None,
    };
    [in_memory, in_file]
}

/// Whether the items are records of these names, in this order.
fn lists(items: Iter<'_>, names: &[&str]) -> bool {
    let mut rest = names.iter();
    for item in items {
        match (item, rest.next()) {
            (Ok(record), Some(name)) => {
                if !record.eq_bytes(name.as_bytes()) {
                    return false;
                }
            }
            _ => return false,
        }
    }
    rest.next().is_none()
}

#[test]
fn names_are_found_as_git_finds_them(rt: HostRuntime) {
    let alloc = rt.alloc();
    let rows: &[(&[u8], &str, Option<&[u8]>, &str)] = &[
        (TWO_DESCEND, "refs/tags/a", Some(ONES), "the second of two"),
        (TWO_DESCEND, "refs/tags/b", None, "the first of two"),
        (THREE_DESCEND, "refs/tags/a", None, "the last of three"),
        (
            THREE_DESCEND,
            "refs/tags/b",
            Some(TWOS),
            "the middle of three",
        ),
        (THREE_DESCEND, "refs/tags/c", None, "the first of three"),
        (DOUBLED, "refs/tags/a", Some(TWOS), "the second of one name"),
        (
            DOUBLED_AMONG_OTHERS,
            "refs/tags/a",
            Some(ONES),
            "the name before a doubled one",
        ),
        (
            DOUBLED_AMONG_OTHERS,
            "refs/tags/b",
            Some(THREES),
            "a doubled name",
        ),
        (
            DOUBLED_AMONG_OTHERS,
            "refs/tags/c",
            Some(FOURS),
            "the name behind a doubled one",
        ),
        (
            DOUBLED_AMONG_OTHERS,
            "refs/tags/d",
            None,
            "a name that is nowhere",
        ),
    ];
    for &(records, name, want, meaning) in rows {
        let text = sorted(&rt, alloc, records);
        let want = match want {
            Some(digits) => Some(id(&rt, digits)),
            None => None,
        };
        let [in_memory, in_file] = targets(&rt, alloc, text.as_slice(), name);
        assert!(rt; in_memory == want, "{meaning}, in memory");
        assert!(rt; in_file == want, "{meaning}, in the file");
    }
}

#[test]
fn records_stay_as_they_are(rt: HostRuntime) {
    let alloc = rt.alloc();
    let rows: &[(&[u8], &[&str], &str)] = &[
        (
            TWO_DESCEND,
            &["refs/tags/b", "refs/tags/a"],
            "two that descend",
        ),
        (
            THREE_DESCEND,
            &["refs/tags/c", "refs/tags/b", "refs/tags/a"],
            "three that descend",
        ),
        (DOUBLED, &["refs/tags/a", "refs/tags/a"], "one name twice"),
        (
            DOUBLED_AMONG_OTHERS,
            &["refs/tags/a", "refs/tags/b", "refs/tags/b", "refs/tags/c"],
            "one name twice, among others",
        ),
    ];
    for &(records, names, meaning) in rows {
        let text = sorted(&rt, alloc, records);
        let packed = buffer(&rt, alloc, text.as_slice());
        assert!(rt; packed.as_bytes() == records, "{meaning}: the text");
        assert!(rt; lists(packed.iter(), names), "{meaning}: the items");
    }
    let text = sorted(&rt, alloc, DOUBLED_AMONG_OTHERS);
    let packed = buffer(&rt, alloc, text.as_slice());
    let both = packed.iter_prefixed(copied(&rt, alloc, b"refs/tags/b"));
    assert!(rt;
        lists(both, &["refs/tags/b", "refs/tags/b"]),
        "both records of a doubled name"
    );
}
