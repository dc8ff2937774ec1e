//! Listings of small stores, each compared with a plain list made by loops over the same files and lines.
use crate::store::slow::{digits, has_bit, next, record_of};
use crate::store::values::store;
use gix_ref_hash::hash::ObjectId;
use gix_ref_memory::memory::Memory;
use gix_ref_store::file::iter::{LooseThenPacked, Platform, loose_then_packed};
use gix_ref_store::raw::Reference;
use std::alloc::Global;
use std::process::Abort;

/// The names of loose files and of records, in the order of their bytes.
const NAMES: &[&str] = &[
    "HEAD",
    "ORIG_HEAD",
    "refs/bisect/x",
    "refs/heads/.x",
    "refs/heads/A",
    "refs/heads/a",
    "refs/heads/a-b",
    "refs/heads/a.lock",
    "refs/heads/a/b",
    "refs/heads/a0",
    "refs/heads/b/c/d",
    "refs/heads/x..y",
    "refs/notes/n",
    "refs/remotes/o/HEAD",
    "refs/tags/v",
    "refs/tags/v/w",
    "refs/x",
];

/// The prefixes whose listings are compared, beside the whole listing.
const PREFIXES: &[&str] = &["refs/heads/", "refs/heads/a", "refs/t", "refs/bisect/x"];

/// Whether a name is that of no reference.
fn is_invalid(name: &str) -> bool {
    name.ends_with("/.x") || name.ends_with(".lock") || name.contains("..")
}

/// Whether each worktree has its own reference of this name.
fn is_private(name: &str) -> bool {
    !name.contains('/') || name.starts_with("refs/bisect/")
}

/// A store: the text in front of all names, its git folder, the names with loose files there and in the common folder, those
/// whose files hold no target, those with records, and whether the records are sorted.
#[derive(Clone, Copy)]
struct Kept {
    space: &'static str,
    worktree: &'static str,
    shared: u32,
    own: u32,
    bad: u32,
    packed: u32,
    is_sorted: bool,
}

/// The text of a loose file.
fn text_of(rt: &impl Abort, alloc: Global, kept: Kept, at: usize, last: char) -> String {
    if has_bit(kept.bad, at) {
        return String::from_str(alloc, "xyz").expect(rt, "memory");
    }
    digits(rt, alloc, at, last)
}

/// Puts a loose file into a folder for each name with a set bit, where no other file is in its path.
fn put_loose(
    rt: &impl Abort,
    alloc: Global,
    memory: &mut Memory,
    kept: Kept,
    folder: &str,
    bits: u32,
    last: char,
) {
    let space = kept.space;
    for (i, name) in NAMES.iter().enumerate() {
        if has_bit(bits, i) {
            let path = format!(in alloc; "{folder}/{space}{name}").expect(rt, "memory");
            let text = text_of(rt, alloc, kept, i, last);
            let _is_put = memory
                .put(path.as_bytes(), text.as_bytes())
                .expect(rt, "memory");
        }
    }
}

/// Adds the line of a record.
fn push_record(rt: &impl Abort, alloc: Global, text: &mut Vec<u8>, kept: Kept, at: usize) {
    let Some(name) = NAMES.get(at) else {
        return;
    };
    if !has_bit(kept.packed, at) || is_invalid(name) || !name.contains('/') {
        return;
    }
    let id = digits(rt, alloc, at, '3');
    let line = format!(in alloc; "{id} {}{name}\n", kept.space).expect(rt, "memory");
    text.extend_from_slice(line.as_bytes()).expect(rt, "memory");
}

/// The records of the names with a set bit: after a header, or the last name first without one. In a namespace one outside of
/// it is among them.
fn records(rt: &impl Abort, alloc: Global, kept: Kept) -> Vec<u8> {
    let mut text = Vec::new(alloc);
    if kept.is_sorted {
        text.extend_from_slice(b"# pack-refs with: peeled fully-peeled sorted \n")
            .expect(rt, "memory");
    }
    if !kept.space.is_empty() {
        text.extend_from_slice(b"4444444444444444444444444444444444444444 refs/heads/a\n")
            .expect(rt, "memory");
    }
    for i in 0..NAMES.len() {
        let at = if kept.is_sorted {
            i
        } else {
            NAMES.len() - 1 - i
        };
        push_record(rt, alloc, &mut text, kept, at);
    }
    text
}

/// The files of a store.
fn files(rt: &impl Abort, alloc: Global, kept: Kept) -> Memory {
    let mut memory = Memory::new(alloc);
    put_loose(rt, alloc, &mut memory, kept, "/r", kept.shared, '1');
    if !kept.worktree.is_empty() {
        put_loose(rt, alloc, &mut memory, kept, kept.worktree, kept.own, '2');
    }
    let text = records(rt, alloc, kept);
    let done = memory.put(b"/r/packed-refs", &text).expect(rt, "memory");
    assert!(rt; done, "packed-refs");
    memory
}

/// One that a listing is to give: its name, and the digits of its id; none where its file holds no target.
#[derive(Drop)]
struct Wanted {
    name: &'static str,
    digits: Option<String>,
}

/// The text of a loose file in its own folder.
fn loose<'a>(
    rt: &impl Abort,
    alloc: Global,
    memory: &'a Memory,
    kept: Kept,
    name: &str,
) -> Option<&'a str> {
    let folder = if is_private(name) && !kept.worktree.is_empty() {
        kept.worktree
    } else {
        "/r"
    };
    let path = format!(in alloc; "{folder}/{}{name}", kept.space).expect(rt, "memory");
    str::from_utf8(memory.get(path.as_bytes())?).ok()
}

/// The digits of the record of a shared name.
fn packed<'a>(
    rt: &impl Abort,
    alloc: Global,
    memory: &'a Memory,
    kept: Kept,
    name: &str,
) -> Option<&'a str> {
    if is_private(name) {
        return None;
    }
    let key = format!(in alloc; "{}{name}", kept.space).expect(rt, "memory");
    let text = memory.get(b"/r/packed-refs")?;
    record_of(str::from_utf8(text).ok()?, key.as_str())
}

/// What a listing is to give of a name.
fn wanted_of(
    rt: &impl Abort,
    alloc: Global,
    memory: &Memory,
    kept: Kept,
    name: &'static str,
) -> Option<Wanted> {
    if is_invalid(name) {
        return None;
    }
    let text = match loose(rt, alloc, memory, kept, name) {
        Some("xyz") => return Some(Wanted { name, digits: None }),
        Some(text) => text,
        None => packed(rt, alloc, memory, kept, name)?,
    };
    let digits = String::from_str(alloc, text).expect(rt, "memory");
    Some(Wanted {
        name,
        digits: Some(digits),
    })
}

/// What the listing of a prefix is to give.
fn slow(rt: &impl Abort, alloc: Global, memory: &Memory, kept: Kept, prefix: &str) -> Vec<Wanted> {
    let mut list = Vec::new(alloc);
    for name in NAMES {
        if name.starts_with(prefix)
            && let Some(wanted) = wanted_of(rt, alloc, memory, kept, name)
        {
            list.push(wanted).expect(rt, "memory");
        }
    }
    list
}

/// What the listing of pseudo references is to give.
fn slow_pseudo(rt: &impl Abort, alloc: Global, memory: &Memory, kept: Kept) -> Vec<Wanted> {
    let mut list = Vec::new(alloc);
    for name in ["HEAD", "ORIG_HEAD"] {
        if let Some(wanted) = wanted_of(rt, alloc, memory, kept, name) {
            list.push(wanted).expect(rt, "memory");
        }
    }
    list
}

/// Whether an item is what the listing is to give.
fn is_same(item: &Result<Reference, loose_then_packed::Error>, wanted: Option<&Wanted>) -> bool {
    let Some(wanted) = wanted else {
        return false;
    };
    match item {
        Ok(reference) => match &wanted.digits {
            Some(digits) => {
                reference.name.eq_bytes(wanted.name.as_bytes())
                    && reference.target.try_id() == ObjectId::from_hex(digits.as_bytes())
            }
            None => false,
        },
        Err(loose_then_packed::Error::ReferenceCreation { relative_path, .. }) => {
            wanted.digits.is_none() && relative_path.as_slice() == wanted.name.as_bytes()
        }
        Err(_) => false,
    }
}

/// Compares a listing with what it is to give, and returns how many items it has.
fn compare(
    rt: &impl Abort,
    listing: LooseThenPacked<'_, Memory>,
    wanted: &[Wanted],
    kept: Kept,
    prefix: &str,
) -> usize {
    let mut at = 0usize;
    for item in listing {
        assert!(rt;
            is_same(&item, wanted.get(at)),
            "item {at} of {prefix}: {} {} {} {} {} {}",
            kept.space,
            kept.worktree,
            kept.shared,
            kept.own,
            kept.bad,
            kept.packed
        );
        at = at.saturating_add(1);
    }
    assert!(rt; at == wanted.len(), "{at} of {prefix}");
    at
}

/// Compares the whole listing of a store.
fn compare_whole(
    rt: &impl Abort,
    alloc: Global,
    platform: &mut Platform<'_, Memory>,
    memory: &Memory,
    kept: Kept,
) -> usize {
    let whole = if kept.space.is_empty() { "refs/" } else { "" };
    let wanted = slow(rt, alloc, memory, kept, whole);
    let Ok(listing) = platform.all(alloc) else {
        panic!(rt; "a listing");
    };
    compare(rt, listing, &wanted, kept, whole)
}

/// Compares the listing of a prefix.
fn compare_prefixed(
    rt: &impl Abort,
    alloc: Global,
    platform: &mut Platform<'_, Memory>,
    memory: &Memory,
    kept: Kept,
    prefix: &str,
) -> usize {
    let wanted = slow(rt, alloc, memory, kept, prefix);
    let Ok(listing) = platform.prefixed(alloc, prefix.as_bytes()) else {
        panic!(rt; "a listing");
    };
    compare(rt, listing, &wanted, kept, prefix)
}

/// Compares the listing of pseudo references.
fn compare_pseudo(
    rt: &impl Abort,
    alloc: Global,
    platform: &mut Platform<'_, Memory>,
    memory: &Memory,
    kept: Kept,
) -> usize {
    let wanted = slow_pseudo(rt, alloc, memory, kept);
    let Ok(listing) = platform.pseudo(alloc) else {
        panic!(rt; "a listing");
    };
    compare(rt, listing, &wanted, kept, "pseudo references")
}

/// Compares all listings of a store, and returns how many items these have.
fn compare_all(rt: &impl Abort, alloc: Global, kept: Kept) -> usize {
    let memory = files(rt, alloc, kept);
    let namespace = if kept.space.is_empty() { "" } else { "foo" };
    let mut store = store(alloc, files(rt, alloc, kept), kept.worktree, namespace).expect(
        rt, "a store",
    );
    let Ok(mut platform) = store.iter(alloc) else {
        panic!(rt; "a packed-refs that can be opened");
    };
    let mut count = compare_whole(rt, alloc, &mut platform, &memory, kept);
    for prefix in PREFIXES {
        let items = compare_prefixed(rt, alloc, &mut platform, &memory, kept, prefix);
        count = count.saturating_add(items);
    }
    count.saturating_add(compare_pseudo(rt, alloc, &mut platform, &memory, kept))
}

#[test]
fn a_thousand_stores(rt: HostRuntime) {
    let alloc = rt.alloc();
    let mut number = 1u32;
    let mut count = 0usize;
    for _ in 0..1000u32 {
        let first = next(number);
        let second = next(first);
        let third = next(second);
        number = next(third);
        let kept = Kept {
            space: if (number >> 30) & 1 == 0 {
                ""
            } else {
                "refs/namespaces/foo/"
            },
            worktree: if (number >> 29) & 1 == 0 {
                ""
            } else {
                "/r/worktrees/w"
            },
            shared: (first >> 4) & (first >> 13),
            own: second >> 5,
            bad: (second >> 14) & (third >> 3) & (third >> 8),
            packed: third >> 9,
            is_sorted: number >> 31 == 0,
        };
        count = count.saturating_add(compare_all(&rt, alloc, kept));
    }
    assert!(rt; count > 8000 && count < 40000, "{count} items");
}
