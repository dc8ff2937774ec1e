//! The search in memory and the search in a file give the same result on every front of a text, and with every byte
//! of it replaced; and so do listings.
use crate::made::full;
use crate::packed::made::{CRLF, NAMES, TEXT, buffer, copied, sorted, stored};
use gix_ref_files::files::Files;
use gix_ref_hash::hash::{Kind, ObjectId};
use gix_ref_memory::memory::Memory;
use gix_ref_name::name::FullNameRef;
use gix_ref_packed::packed::file::PackedFile;
use gix_ref_packed::packed::find::ParseError;
use gix_ref_packed::packed::iter::Error as ItemError;
use gix_ref_packed::packed::sorted_file::{FindError, SortedFile};
use gix_ref_packed::packed::{Buffer, Found, Reference};
use std::alloc::Global;
use std::process::Abort;

/// What a search returns, wherever it looks.
#[derive(Clone, Copy, Debug, PartialEq, Eq)]
enum Answer {
    Ids(ObjectId, Option<ObjectId>),
    Nothing,
    Malformed,
    Fault,
}

fn of_buffer(answer: Result<Option<Reference<'_>>, ParseError>) -> Answer {
    match answer {
        Ok(Some(record)) => Answer::Ids(record.target(), record.peeled()),
        Ok(None) => Answer::Nothing,
        Err(_) => Answer::Malformed,
    }
}

fn of_file(answer: Result<Option<Found>, FindError>) -> Answer {
    match answer {
        Ok(Some(found)) => Answer::Ids(found.target, found.object),
        Ok(None) => Answer::Nothing,
        Err(FindError::Parse) => Answer::Malformed,
        Err(_) => Answer::Fault,
    }
}

/// Asks the file of 46 bytes of header and these records.
fn in_file(rt: &impl Abort, alloc: Global, text: &[u8], name: FullNameRef<'_>) -> Answer {
    let mut memory: Memory = stored(rt, alloc, text);
    match memory.open(alloc, b"r/packed-refs") {
        Ok(Some(reader)) => of_file(SortedFile::new(alloc, reader, 46).find(Kind::Sha1, name)),
        _ => Answer::Fault,
    }
}

/// Asks for each name, and for one that no text has.
fn compare(rt: &impl Abort, alloc: Global, text: &[u8]) {
    let packed: Buffer = buffer(rt, alloc, text);
    for name in NAMES {
        let name = full(rt, name);
        let want = of_buffer(packed.try_find_key(name));
        assert!(rt; in_file(rt, alloc, text, name) == want, "the same answer");
    }
    let name = full(rt, "refs/tags/v");
    let want = of_buffer(packed.try_find_key(name));
    assert!(rt; in_file(rt, alloc, text, name) == want, "the same answer");
}

#[test]
fn every_front(rt: HostRuntime) {
    let alloc = rt.alloc();
    for text in [TEXT, CRLF] {
        for len in 0..=text.len() {
            let whole = sorted(&rt, alloc, &text[..len]);
            compare(&rt, alloc, whole.as_slice());
        }
    }
}

/// What a line of a listing is: the number of a record among those of the text, or the number of a bad line.
type Item = Result<usize, u64>;

/// The items of a front of the text after a header of one line, by its lines one after the other. A record ends with its LF, and
/// goes with a peeled line that does; without that its line is bad too.
fn slow_items(rt: &impl Abort, alloc: Global, front: &[u8]) -> Vec<Item> {
    let mut items: Vec<Item> = Vec::new(alloc);
    let (mut number, mut records) = (1u64, 0usize);
    for line in front.split_inclusive(|byte| *byte == b'\n') {
        number = number.saturating_add(1);
        let (is_whole, is_peeled) = (line.ends_with(b"\n"), line.starts_with(b"^"));
        if is_whole && is_peeled {
            continue;
        }
        if is_peeled {
            records = records.saturating_sub(1);
            items.pop();
            items
                .push(Err(number.saturating_sub(1)))
                .expect(rt, "memory");
        }
        if is_whole {
            items.push(Ok(records)).expect(rt, "memory");
            records = records.saturating_add(1);
        } else {
            items.push(Err(number)).expect(rt, "memory");
        }
    }
    items
}

/// The items of a listing.
fn items_of(rt: &impl Abort, alloc: Global, packed: &Buffer, prefix: &[u8]) -> Vec<Item> {
    let mut items = Vec::new(alloc);
    for item in packed.iter_prefixed(copied(rt, alloc, prefix)) {
        let item = match item {
            Ok(record) => Ok(
                NAMES
                    .iter()
                    .position(|name| record.eq_bytes(name.as_bytes()))
                    .expect(rt, "a name of the text"),
            ),
            Err(ItemError::Reference { line_number, .. }) => Err(line_number),
            Err(_) => Err(0),
        };
        items.push(item).expect(rt, "memory");
    }
    items
}

/// Whether these are all records of the prefix, in order, and else bad lines of the text.
fn are_of(items: &[Item], slow: &[Item], prefix: &[u8]) -> bool {
    let mut rest = items.iter();
    for item in slow {
        let is_listed = match item {
            Ok(at) => NAMES
                .get(*at)
                .is_some_and(|name| name.as_bytes().starts_with(prefix)),
            Err(_) => rest.as_slice().first() == Some(item),
        };
        if is_listed && rest.next() != Some(item) {
            return false;
        }
    }
    rest.next().is_none()
}

/// Lists all that begins with each front of each name, in memory and of the file.
fn compare_listings(rt: &impl Abort, alloc: Global, front: &[u8]) {
    let whole = sorted(rt, alloc, front);
    let packed = buffer(rt, alloc, &whole);
    let slow = slow_items(rt, alloc, front);
    for name in NAMES {
        for len in 0..=name.len() {
            let prefix = &name.as_bytes()[..len];
            let items = items_of(rt, alloc, &packed, prefix);
            assert!(rt;
                are_of(&items, &slow, prefix),
                "{front:?} {prefix:?}: {items:?}"
            );
            let mut memory = stored(rt, alloc, &whole);
            let opened = PackedFile::open(alloc, &mut memory, b"r/packed-refs", Kind::Sha1);
            let file = opened.expect(rt, "it is opened").expect(rt, "a file");
            let part = file.into_prefixed(alloc, prefix).expect(rt, "it is read");
            let in_file = items_of(rt, alloc, &part, prefix);
            assert!(rt; in_file == items, "{front:?} {prefix:?}: {in_file:?}");
        }
    }
}

#[test]
fn every_front_is_listed(rt: HostRuntime) {
    let alloc = rt.alloc();
    for text in [TEXT, CRLF] {
        for len in 0..=text.len() {
            compare_listings(&rt, alloc, &text[..len]);
        }
    }
}

/// The text after records that fill more than two windows of a search in a file.
fn behind_many(rt: &impl Abort, alloc: Global, text: &[u8]) -> Vec<u8> {
    let mut whole = sorted(rt, alloc, b"");
    for number in 0..40u32 {
        let line = format!(in alloc;
            "1111111111111111111111111111111111111111 refs/heads/a{number:04}\n"
        );
        let line = line.expect(rt, "memory");
        whole
            .extend_from_slice(line.as_bytes())
            .expect(rt, "memory");
    }
    whole.extend_from_slice(text).expect(rt, "memory");
    whole
}

#[test]
fn behind_several_windows(rt: HostRuntime) {
    let alloc = rt.alloc();
    for len in [0, 56, 57, 58, 100, 111, 112, 153, 154, 200, 206, 207] {
        let whole = behind_many(&rt, alloc, &TEXT[..len]);
        compare(&rt, alloc, whole.as_slice());
    }
    for (place, byte) in [(0, b'\n'), (40, b'x'), (57, b'^'), (98, b'\r'), (111, b'1')] {
        let mut whole = behind_many(&rt, alloc, TEXT);
        let at = whole.len().saturating_sub(TEXT.len()).saturating_add(place);
        if let Some(old) = whole.get_mut(at) {
            *old = byte;
        }
        compare(&rt, alloc, whole.as_slice());
    }
}

#[test]
fn every_byte_replaced(rt: HostRuntime) {
    let alloc = rt.alloc();
    for place in 0..TEXT.len() {
        for byte in [0, b'\n', b'\r', b' ', b'^', b'#', b'g'] {
            let mut text = sorted(&rt, alloc, TEXT);
            let at = text.len().saturating_sub(TEXT.len()).saturating_add(place);
            if let Some(old) = text.get_mut(at) {
                *old = byte;
            }
            compare(&rt, alloc, text.as_slice());
        }
    }
}

#[test]
fn damaged_texts(rt: HostRuntime) {
    let alloc = rt.alloc();
    let rows: &[(&[u8], &str, &str)] = &[
        (
            b"xyz\n",
            "refs/heads/a",
            "a line without the form of a record, and nothing found",
        ),
        (
            b"zzzzzzzzzzzzzzzzzzzzzzzzzzzzzzzzzzzzzzzz refs/heads/a\n",
            "refs/heads/a",
            "the record of the name has no hex digits",
        ),
        (
            b"1111111111111111111111111111111111111111 \n",
            "refs/heads/a",
            "an empty name in a record's place is no name",
        ),
        (
            b"1111111111111111111111111111111111111111 refs/heads/a\n^2222\n",
            "refs/heads/a",
            "the peeled line of the record is too short",
        ),
    ];
    for &(text, name, meaning) in rows {
        let whole = sorted(&rt, alloc, text);
        let packed = buffer(&rt, alloc, whole.as_slice());
        let name = full(&rt, name);
        assert!(rt; packed.try_find_key(name) == Err(ParseError), "{meaning}");
        assert!(rt;
            in_file(&rt, alloc, whole.as_slice(), name) == Answer::Malformed,
            "{meaning}"
        );
    }
}
