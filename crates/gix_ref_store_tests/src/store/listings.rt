//! Listings: loose references and those of `packed-refs` by ascending names, and faults in their places.
use crate::store::values::{Id, digits, store};
use gix_ref_memory::memory::Memory;
use gix_ref_store::file::iter::{Error, LooseThenPacked, loose_then_packed};
use gix_ref_store::raw::Reference;
use gix_ref_target::target::Target;
use std::alloc::Global;
use std::process::Abort;

/// Forty digits `1`, and LF.
pub const ONE: &[u8] = b"1111111111111111111111111111111111111111\n";

/// Forty digits `2`, and LF.
pub const TWO: &[u8] = b"2222222222222222222222222222222222222222\n";

/// A file and its text.
pub type File = (&'static str, &'static [u8]);

/// Files in memory.
pub fn files_of(rt: &impl Abort, alloc: Global, files: &[File]) -> Memory {
    let mut memory = Memory::new(alloc);
    for (path, text) in files {
        let done = memory.put(path.as_bytes(), text).expect(rt, "memory");
        assert!(rt; done, "{path}");
    }
    memory
}

/// The variant of a fault.
fn variant(error: &loose_then_packed::Error) -> &'static str {
    match error {
        loose_then_packed::Error::Traversal { .. } => "Traversal",
        loose_then_packed::Error::ReadFileContents { .. } => "ReadFileContents",
        loose_then_packed::Error::ReferenceCreation { .. } => "ReferenceCreation",
        loose_then_packed::Error::PackedReference { .. } => "PackedReference",
        loose_then_packed::Error::Memory => "Memory",
    }
}

/// Adds the line of a reference: the first digit of its id or the name that it points to, and its name.
fn push(rt: &impl Abort, text: &mut Vec<u8>, reference: &Reference) {
    match &reference.target {
        Target::Object(id) if *id == one(rt) => text.extend_from_slice(b"1 ").expect(rt, "memory"),
        Target::Object(_) => text.extend_from_slice(b"2 ").expect(rt, "memory"),
        Target::Symbolic(name) => {
            text.extend_from_slice(name.to_path()).expect(rt, "memory");
            text.push(b' ').expect(rt, "memory");
        }
    }
    text.extend_from_slice(reference.name.to_path())
        .expect(rt, "memory");
    text.push(b'\n').expect(rt, "memory");
}

/// The id of forty digits `1`.
fn one(rt: &impl Abort) -> gix_ref_hash::hash::ObjectId {
    gix_ref_hash::hash::ObjectId::from_hex(digits(Id::One).as_bytes()).expect(rt, "an id")
}

/// The lines of a listing.
pub fn lines(rt: &impl Abort, alloc: Global, listing: LooseThenPacked<'_, Memory>) -> Vec<u8> {
    let mut text = Vec::new(alloc);
    for item in listing {
        match item {
            Ok(reference) => push(rt, &mut text, &reference),
            Err(error) => {
                text.extend_from_slice(b"fault: ").expect(rt, "memory");
                text.extend_from_slice(variant(&error).as_bytes())
                    .expect(rt, "memory");
                text.push(b'\n').expect(rt, "memory");
            }
        }
    }
    text
}

const WORKTREES: &[File] = &[
    ("/r/refs/bisect/x", ONE),
    ("/r/refs/heads/z", ONE),
    ("/r/worktrees/w/refs/heads/y", ONE),
    ("/r/worktrees/w/refs/bisect/x", TWO),
    ("/r/worktrees/w/HEAD", ONE),
];

#[test]
fn ended_stays_ended(rt: HostRuntime) {
    let alloc = rt.alloc();
    let mut store = store(alloc, files_of(&rt, alloc, WORKTREES), "", "").expect(&rt, "a store");
    let Ok(mut listing) = store.loose_iter(alloc) else {
        panic!(&rt; "a listing");
    };
    let mut count = 0u64;
    for item in &mut listing {
        assert!(&rt; item.is_ok(), "an item");
        count = u64::saturating_add(count, 1);
    }
    assert!(&rt; count == 2, "items");
    assert!(&rt;
        listing.next().is_none() && listing.next().is_none(),
        "the end"
    );
}

/// The record of `refs/heads/a` in `packed-refs`.
const PACKED: File = (
    "/r/packed-refs",
    b"1111111111111111111111111111111111111111 refs/heads/a\n",
);

/// The loose file of it.
const LOOSE: File = ("/r/refs/heads/a", ONE);

/// A listing beside a program that packs references.
struct Beside {
    meaning: &'static str,
    /// The files that the walk meets.
    walked: &'static [File],
    /// Those that `packed-refs` is opened among.
    opened: &'static [File],
    /// Those that the items are read from.
    read: &'static [File],
    lines: &'static [u8],
}

const BESIDE: &[Beside] = &[
    Beside {
        meaning: "packed between the walk and the opening",
        walked: &[LOOSE],
        opened: &[PACKED],
        read: &[PACKED],
        lines: b"1 refs/heads/a\n",
    },
    Beside {
        meaning: "packed once packed-refs is open",
        walked: &[LOOSE],
        opened: &[],
        read: &[PACKED],
        lines: b"1 refs/heads/a\n",
    },
    Beside {
        meaning: "made loose after the walk",
        walked: &[PACKED],
        opened: &[PACKED],
        read: &[LOOSE, PACKED],
        lines: b"1 refs/heads/a\n",
    },
    Beside {
        meaning: "deleted after the walk",
        walked: &[LOOSE],
        opened: &[],
        read: &[],
        lines: b"fault: ReadFileContents\n",
    },
    Beside {
        meaning: "packed into a packed-refs that is damaged",
        walked: &[LOOSE],
        opened: &[],
        read: &[("/r/packed-refs", b"xyz\n")],
        lines: b"fault: ReadFileContents\n",
    },
];

/// The lines of such a listing.
fn lines_beside(rt: &impl Abort, alloc: Global, row: &Beside) -> Vec<u8> {
    let mut walked = store(alloc, files_of(rt, alloc, row.walked), "", "").expect(rt, "a store");
    let Ok(names) = walked.walk_prefixed(alloc, b"refs/") else {
        panic!(rt; "a walk: {}", row.meaning);
    };
    let mut opened = store(alloc, files_of(rt, alloc, row.opened), "", "").expect(rt, "a store");
    let Ok(packed) = opened.open_packed_prefixed(alloc, b"refs/") else {
        panic!(rt; "records: {}", row.meaning);
    };
    let mut read = store(alloc, files_of(rt, alloc, row.read), "", "").expect(rt, "a store");
    let Ok(listing) = read.iter_walked(alloc, names, packed.as_ref()) else {
        panic!(rt; "a listing: {}", row.meaning);
    };
    lines(rt, alloc, listing)
}

#[test]
fn beside_a_packer_none_is_missed(rt: HostRuntime) {
    let alloc = rt.alloc();
    for row in BESIDE {
        let lines = lines_beside(&rt, alloc, row);
        assert!(&rt; lines.as_slice() == row.lines, "{}", row.meaning);
    }
}
