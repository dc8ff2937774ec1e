//! Splits of edits that follow symbolic references.
use crate::values::made::{Entry, Fault, Table, deletion, find, object, update};
use gix_ref_edits::transaction::{Change, PreviousValue, RefEdit, RefEditsExt, RefLog, SplitError};
use gix_ref_name::name::PartialNameRef;
use std::alloc::Global;
use std::process::Abort;

/// The references of the rows: chains of four and of five, `HEAD`, and a cycle.
const TABLE: &[(&str, &str)] = &[
    ("HEAD", "refs/heads/main"),
    ("refs/x/a", "refs/x/b"),
    ("refs/x/b", "refs/x/c"),
    ("refs/x/c", "refs/x/d"),
    ("refs/x/d", "refs/x/e"),
    ("refs/y/a", "refs/y/b"),
    ("refs/y/b", "refs/y/c"),
    ("refs/y/c", "refs/y/d"),
    ("refs/y/d", "refs/y/e"),
    ("refs/y/e", "refs/y/f"),
    ("refs/z/a", "refs/z/a"),
    ("refs/z/b", "refs/z/x"),
];

/// What becomes of a list.
#[derive(Clone, Copy)]
enum Wanted {
    /// These names, those of children with the places of their parents.
    List(&'static [(&'static str, Option<usize>)]),
    /// Too many splits.
    TooMany,
    /// The finder's fault.
    Fault,
}

#[derive(Clone, Copy)]
struct Row {
    meaning: &'static str,
    /// Names, and whether the edit follows its reference.
    given: &'static [(&'static str, bool)],
    wanted: Wanted,
}

const ROWS: &[Row] = &[
    Row {
        meaning: "an empty list",
        given: &[],
        wanted: Wanted::List(&[]),
    },
    Row {
        meaning: "an edit that does not follow",
        given: &[("HEAD", false)],
        wanted: Wanted::List(&[("HEAD", None)]),
    },
    Row {
        meaning: "an object is not followed",
        given: &[("refs/heads/main", true)],
        wanted: Wanted::List(&[("refs/heads/main", None)]),
    },
    Row {
        meaning: "HEAD and its branch",
        given: &[("HEAD", true)],
        wanted: Wanted::List(&[("HEAD", None), ("refs/heads/main", Some(0))]),
    },
    Row {
        meaning: "a chain of four",
        given: &[("refs/x/a", true)],
        wanted: Wanted::List(&[
            ("refs/x/a", None),
            ("refs/x/b", Some(0)),
            ("refs/x/c", Some(1)),
            ("refs/x/d", Some(2)),
            ("refs/x/e", Some(3)),
        ]),
    },
    Row {
        meaning: "a chain of five",
        given: &[("refs/y/a", true)],
        wanted: Wanted::TooMany,
    },
    Row {
        meaning: "a cycle",
        given: &[("refs/z/a", true)],
        wanted: Wanted::TooMany,
    },
    Row {
        meaning: "children come level by level, in the order of their parents",
        given: &[("refs/x/c", true), ("refs/heads/a", true), ("HEAD", true)],
        wanted: Wanted::List(&[
            ("refs/x/c", None),
            ("refs/heads/a", None),
            ("HEAD", None),
            ("refs/x/d", Some(0)),
            ("refs/heads/main", Some(2)),
            ("refs/x/e", Some(3)),
        ]),
    },
    Row {
        meaning: "the finder fails in the middle of a list",
        given: &[("HEAD", true), ("refs/heads/x", true), ("refs/y/a", true)],
        wanted: Wanted::Fault,
    },
    Row {
        meaning: "the finder fails at a child",
        given: &[("refs/z/b", true)],
        wanted: Wanted::Fault,
    },
];

fn entries(rt: &impl Abort, alloc: Global, given: &[(&'static str, bool)]) -> Vec<Entry> {
    let mut list = Vec::new(alloc);
    for &(name, deref) in given {
        let edit = update(rt, alloc, name, deref);
        list.push(Entry { edit, parent: None }).expect(rt, "memory");
    }
    list
}

/// The edits after their splits.
fn split(
    rt: &impl Abort,
    alloc: Global,
    table: Table<'_>,
    list: &mut Vec<Entry>,
) -> Result<(), SplitError<Fault>> {
    let mut finder = |name: PartialNameRef<'_>| find(rt, alloc, table, name);
    let mut maker = |parent: usize, edit: RefEdit| Entry {
        edit,
        parent: Some(parent),
    };
    list.extend_with_splits_of_symbolic_refs(alloc, &mut finder, &mut maker)
}

fn is_wanted(outcome: &Result<(), SplitError<Fault>>, list: &[Entry], wanted: Wanted) -> bool {
    match (outcome, wanted) {
        (Ok(()), Wanted::List(names)) => {
            list.len() == names.len()
                && list.iter().zip(names.iter()).all(|(entry, row)| {
                    entry.edit.name.as_ref().to_path() == row.0.as_bytes()
                        && entry.parent == row.1
                        && !entry.edit.deref
                })
        }
        (Err(SplitError::TooManySplits { rounds }), Wanted::TooMany) => *rounds == 5,
        (Err(SplitError::Find(fault)), Wanted::Fault) => *fault == Fault::Unreadable,
        _ => false,
    }
}

#[test]
fn rows_of_splits(rt: HostRuntime) {
    let alloc = rt.alloc();
    for row in ROWS {
        let mut list = entries(&rt, alloc, row.given);
        let result = split(&rt, alloc, &TABLE, &mut list);
        assert!(rt; is_wanted(&result, &list, row.wanted), "{}", row.meaning);
    }
}

#[test]
fn an_update_gives_its_expectation_to_the_child(rt: HostRuntime) {
    let alloc = rt.alloc();
    let mut list = Vec::new(alloc);
    list.push(update(&rt, alloc, "HEAD", true))
        .expect(&rt, "memory");
    let mut finder = |name: PartialNameRef<'_>| find(&rt, alloc, &TABLE, name);
    let mut maker = |_parent: usize, edit: RefEdit| edit;
    let result = list.extend_with_splits_of_symbolic_refs(alloc, &mut finder, &mut maker);
    assert!(rt; result.is_ok() && list.len() == 2);
    let mut parent = update(&rt, alloc, "HEAD", false);
    if let Change::Update { log, expected, .. } = &mut parent.change {
        log.mode = RefLog::Only;
        *expected = PreviousValue::Any;
    }
    assert!(rt;
        list[0] == parent,
        "of the log alone, with message and flag, expecting anything"
    );
    assert!(rt;
        list[1] == update(&rt, alloc, "refs/heads/main", false),
        "all else as given"
    );
}

#[test]
fn a_deletion_has_its_expectation_of_both(rt: HostRuntime) {
    let alloc = rt.alloc();
    let mut list = Vec::new(alloc);
    list.push(deletion(&rt, alloc, "HEAD", true))
        .expect(&rt, "memory");
    let mut finder = |name: PartialNameRef<'_>| find(&rt, alloc, &TABLE, name);
    let mut maker = |_parent: usize, edit: RefEdit| edit;
    let result = list.extend_with_splits_of_symbolic_refs(alloc, &mut finder, &mut maker);
    assert!(rt; result.is_ok() && list.len() == 2);
    let parent = Change::Delete {
        expected: PreviousValue::ExistingMustMatch(object(&rt, '2')),
        log: RefLog::Only,
    };
    assert!(rt;
        list[0].change == parent && !list[0].deref,
        "of the log alone"
    );
    assert!(rt;
        list[1] == deletion(&rt, alloc, "refs/heads/main", false),
        "all else as given"
    );
}
