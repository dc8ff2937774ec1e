//! Lookups in small stores, each compared with a plain search over the same files.
use crate::store::values::{partial, store};
use gix_ref_hash::hash::ObjectId;
use gix_ref_memory::memory::Memory;
use gix_ref_store::file::find::existing;
use gix_ref_store::raw::Reference;
use std::alloc::Global;
use std::process::Abort;

/// The names of loose files and of records, in the order of their bytes.
const NAMES: &[&str] = &[
    "A",
    "HEAD",
    "refs/A",
    "refs/heads/A",
    "refs/heads/a",
    "refs/heads/a/b",
    "refs/heads/heads/a",
    "refs/remotes/a",
    "refs/remotes/a/HEAD",
    "refs/remotes/heads/a/HEAD",
    "refs/tags/a",
    "refs/tags/a/b",
    "refs/tags/heads/a",
    "tags/refs/heads/a",
];

/// The names that are looked up.
const ASKED: &[&str] = &[
    "A",
    "HEAD",
    "a",
    "a/b",
    "a/HEAD",
    "heads/A",
    "heads/a",
    "heads/heads/a",
    "remotes/a",
    "tags/a",
    "refs/A",
    "refs/a",
    "refs/heads/A",
    "refs/heads/a",
    "refs/heads/a/b",
    "refs/remotes/a",
    "refs/remotes/a/HEAD",
    "refs/tags/a",
    "main-worktree/refs/heads/a",
    "worktrees/w/refs/heads/a",
];

/// What goes in front of a name, in the order of the lookup (`gitrevisions`).
fn fronts(name: &str) -> &'static [&'static str] {
    if name == "A" || name == "HEAD" {
        &["", "refs/", "refs/tags/", "refs/heads/", "refs/remotes/"]
    } else if is_full_ref_path(name) {
        &["", "tags/", "heads/", "remotes/"]
    } else {
        &["refs/", "refs/tags/", "refs/heads/", "refs/remotes/"]
    }
}

/// Whether a name is looked up as it is first.
fn is_full_ref_path(name: &str) -> bool {
    name.starts_with("refs/")
        || name.starts_with("main-worktree/")
        || name.starts_with("worktrees/")
}

/// The name of the file and of the record of a name that may begin with a worktree.
fn shared(name: &str) -> &str {
    for worktree in ["main-worktree/", "worktrees/w/"] {
        if let Some(rest) = name.strip_prefix(worktree) {
            return rest;
        }
    }
    name
}

/// The next number of a linear congruence.
pub fn next(number: u32) -> u32 {
    number.wrapping_mul(1_664_525).wrapping_add(1_013_904_223)
}

/// Forty digits: of this number, and then of the last.
pub fn digits(rt: &impl Abort, alloc: Global, number: usize, last: char) -> String {
    format!(in alloc; "{number:039}{last}").expect(rt, "memory")
}

/// Whether this bit of a number is set.
pub fn has_bit(number: u32, bit: usize) -> bool {
    let Ok(bit) = u32::try_from(bit) else {
        return false;
    };
    match 1u32.checked_shl(bit) {
        Some(mask) => number & mask != 0,
        None => false,
    }
}

/// The files of a store: the text in front of all names, the names with loose files and those with records, and whether
/// the records are sorted.
#[derive(Clone, Copy)]
struct Kept {
    space: &'static str,
    loose: u32,
    packed: u32,
    is_sorted: bool,
}

/// Puts a loose file for each name with a set bit, where no other file is in its path.
fn put_loose(rt: &impl Abort, alloc: Global, memory: &mut Memory, kept: Kept) {
    let space = kept.space;
    for (i, name) in NAMES.iter().enumerate() {
        if has_bit(kept.loose, i) {
            let path = format!(in alloc; "/r/{space}{name}").expect(rt, "memory");
            let text = digits(rt, alloc, i, '1');
            let _is_put = memory
                .put(path.as_bytes(), text.as_bytes())
                .expect(rt, "memory");
        }
    }
}

/// The records of the names with a set bit: after a header, or the last name first without one.
fn records(rt: &impl Abort, alloc: Global, kept: Kept) -> Vec<u8> {
    let mut text = Vec::new(alloc);
    let space = kept.space;
    if kept.is_sorted {
        text.extend_from_slice(b"# pack-refs with: peeled fully-peeled sorted \n")
            .expect(rt, "memory");
    }
    for i in 0..NAMES.len() {
        let at = if kept.is_sorted {
            i
        } else {
            NAMES.len() - 1 - i
        };
        if has_bit(kept.packed, at) {
            let id = digits(rt, alloc, at, '2');
            let line = format!(in alloc; "{id} {space}{}\n", NAMES[at]).expect(rt, "memory");
            text.extend_from_slice(line.as_bytes()).expect(rt, "memory");
        }
    }
    text
}

/// The files of a store.
fn files(rt: &impl Abort, alloc: Global, kept: Kept) -> Memory {
    let mut memory = Memory::new(alloc);
    put_loose(rt, alloc, &mut memory, kept);
    let text = records(rt, alloc, kept);
    let done = memory.put(b"/r/packed-refs", &text).expect(rt, "memory");
    assert!(rt; done, "packed-refs");
    memory
}

/// The digits of the record of a name in a text.
pub fn record_of<'a>(text: &'a str, name: &str) -> Option<&'a str> {
    for line in text.lines() {
        if let Some((digits, of)) = line.split_once(' ')
            && of == name
        {
            return Some(digits);
        }
    }
    None
}

/// The text of the loose file of a name.
fn loose<'a>(
    rt: &impl Abort,
    alloc: Global,
    memory: &'a Memory,
    space: &str,
    name: &str,
) -> Option<&'a str> {
    let path = format!(in alloc; "/r/{space}{}", shared(name)).expect(rt, "memory");
    str::from_utf8(memory.get(path.as_bytes())?).ok()
}

/// The digits of the record of a name, which a name without a slash has not.
fn packed<'a>(
    rt: &impl Abort,
    alloc: Global,
    memory: &'a Memory,
    space: &str,
    name: &str,
) -> Option<&'a str> {
    if !name.contains('/') {
        return None;
    }
    let key = format!(in alloc; "{space}{}", shared(name)).expect(rt, "memory");
    let text = memory.get(b"/r/packed-refs")?;
    record_of(str::from_utf8(text).ok()?, key.as_str())
}

/// The first name that this name is short for and that has a reference: the name under which it is found, and its digits.
fn first<'a>(
    rt: &impl Abort,
    alloc: Global,
    memory: &'a Memory,
    space: &str,
    asked: &str,
) -> Option<(String, &'a str)> {
    for front in fronts(asked) {
        let name = format!(in alloc; "{front}{asked}").expect(rt, "memory");
        if let Some(digits) = loose(rt, alloc, memory, space, name.as_str()) {
            return Some((name, digits));
        }
        if let Some(digits) = packed(rt, alloc, memory, space, name.as_str()) {
            let found = String::from_str(alloc, shared(name.as_str())).expect(rt, "memory");
            return Some((found, digits));
        }
    }
    None
}

/// The loose file of the head of a remote, and its digits.
fn head<'a>(
    rt: &impl Abort,
    alloc: Global,
    memory: &'a Memory,
    space: &str,
    asked: &str,
) -> Option<(String, &'a str)> {
    if asked == "HEAD" {
        return None;
    }
    let refs = if is_full_ref_path(asked) { "" } else { "refs/" };
    let name = format!(in alloc; "{refs}remotes/{asked}/HEAD").expect(rt, "memory");
    let digits = loose(rt, alloc, memory, space, name.as_str())?;
    Some((name, digits))
}

/// Whether a lookup found what it is to find.
fn is_same(found: &Result<Reference, existing::Error>, want: &Option<(String, &str)>) -> bool {
    match found {
        Ok(reference) => match want {
            Some((name, digits)) => {
                reference.name.eq_bytes(name.as_bytes())
                    && reference.target.try_id() == ObjectId::from_hex(digits.as_bytes())
            }
            None => false,
        },
        Err(existing::Error::NotFound { .. }) => want.is_none(),
        Err(existing::Error::Find(_)) => false,
    }
}

/// Looks up each name in a store, and returns how many were found.
fn compare(rt: &impl Abort, alloc: Global, kept: Kept) -> u32 {
    let memory = files(rt, alloc, kept);
    let namespace = if kept.space.is_empty() { "" } else { "foo" };
    let mut store = store(alloc, files(rt, alloc, kept), "", namespace).expect(rt, "a store");
    let mut count = 0u32;
    for name in ASKED {
        let mut want = first(rt, alloc, &memory, kept.space, name);
        if want.is_none() {
            want = head(rt, alloc, &memory, kept.space, name);
        }
        let found = store.find(alloc, partial(name).expect(rt, "a partial name"));
        assert!(rt;
            is_same(&found, &want),
            "{name}: {} {} {}",
            kept.space,
            kept.loose,
            kept.packed
        );
        count = count.saturating_add(u32::from(want.is_some()));
    }
    count
}

#[test]
fn two_thousand_stores(rt: HostRuntime) {
    let alloc = rt.alloc();
    let mut number = 1u32;
    let mut found = 0u32;
    for _ in 0..2000u32 {
        let loose = next(number);
        let packed = next(loose);
        number = next(packed);
        let kept = Kept {
            space: if (number >> 30) & 1 == 0 {
                ""
            } else {
                "refs/namespaces/foo/"
            },
            loose: (loose >> 4) & (loose >> 13),
            packed: packed >> 9,
            is_sorted: number >> 31 == 0,
        };
        found = found.saturating_add(compare(&rt, alloc, kept));
    }
    assert!(rt; found > 8000 && found < 35000, "{found} of 40000 are found");
}
