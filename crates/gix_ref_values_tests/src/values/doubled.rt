//! Names that more than one edit has, and the whole of what a list is put through.
use crate::values::made::{Fault, find, update};
use gix_ref_edits::transaction::{EditError, RefEdit, RefEditsExt, SplitError};
use gix_ref_name::name::PartialNameRef;
use std::alloc::Global;
use std::process::Abort;

#[derive(Clone, Copy)]
struct Row {
    meaning: &'static str,
    names: &'static [&'static str],
    /// The least doubled name.
    doubled: Option<&'static str>,
}

const ROWS: &[Row] = &[
    Row {
        meaning: "an empty list",
        names: &[],
        doubled: None,
    },
    Row {
        meaning: "names that differ, one the front of another",
        names: &["refs/heads/b", "refs/heads/a", "refs/heads/ab", "HEAD"],
        doubled: None,
    },
    Row {
        meaning: "a name twice, not side by side",
        names: &["refs/heads/a", "refs/heads/b", "refs/heads/a"],
        doubled: Some("refs/heads/a"),
    },
    Row {
        meaning: "the least of two doubled names",
        names: &[
            "refs/heads/b",
            "refs/heads/a",
            "refs/heads/b",
            "refs/heads/a",
        ],
        doubled: Some("refs/heads/a"),
    },
    Row {
        meaning: "a lesser name that is not doubled",
        names: &["refs/heads/b", "refs/heads/a", "refs/heads/b"],
        doubled: Some("refs/heads/b"),
    },
    Row {
        meaning: "capitals come before small letters",
        names: &["refs/heads/a", "HEAD", "refs/heads/a", "HEAD"],
        doubled: Some("HEAD"),
    },
    Row {
        meaning: "a name three times",
        names: &["HEAD", "HEAD", "HEAD"],
        doubled: Some("HEAD"),
    },
];

fn edits(rt: &impl Abort, alloc: Global, names: &[&'static str], deref: bool) -> Vec<RefEdit> {
    let mut list = Vec::new(alloc);
    for name in names {
        list.push(update(rt, alloc, *name, deref))
            .expect(rt, "memory");
    }
    list
}

#[test]
fn rows_of_doubled_names(rt: HostRuntime) {
    let alloc = rt.alloc();
    for row in ROWS {
        let list = edits(&rt, alloc, row.names, false);
        let is_wanted = match (list.assure_one_name_has_one_edit(alloc), row.doubled) {
            (Ok(()), None) => true,
            (Err(EditError::DoubledName(name)), Some(wanted)) => {
                name.as_ref().to_path() == wanted.as_bytes()
            }
            _ => false,
        };
        assert!(rt; is_wanted, "{}", row.meaning);
    }
}

/// What `pre_process` answers of updates that follow, where `HEAD` leads to `refs/heads/main`.
fn pre_processed(
    rt: &impl Abort,
    alloc: Global,
    names: &[&'static str],
) -> (Result<(), SplitError<Fault>>, usize) {
    let mut list = edits(rt, alloc, names, true);
    let mut finder = |name: PartialNameRef<'_>| find(
        rt,
        alloc,
        &[("HEAD", "refs/heads/main")],
        name,
    );
    let mut maker = |_parent: usize, edit: RefEdit| edit;
    let result = list.pre_process(alloc, &mut finder, &mut maker);
    (result, list.len())
}

#[test]
fn head_beside_its_target_is_doubled(rt: HostRuntime) {
    let (result, _) = pre_processed(&rt, rt.alloc(), &["HEAD", "refs/heads/main"]);
    let is_doubled = match result {
        Err(SplitError::DoubledName(name)) => name.as_ref().to_path()
            == b"refs/heads/main".as_slice(),
        _ => false,
    };
    assert!(rt; is_doubled);
}

#[test]
fn head_beside_another_branch_is_split(rt: HostRuntime) {
    let (result, len) = pre_processed(&rt, rt.alloc(), &["HEAD", "refs/heads/a"]);
    assert!(rt; result.is_ok() && len == 3);
}

#[test]
fn a_fault_of_the_finder_comes_before_doubled_names(rt: HostRuntime) {
    let (result, _) = pre_processed(&rt, rt.alloc(), &["HEAD", "HEAD", "refs/heads/x"]);
    let is_fault = match result {
        Err(SplitError::Find(fault)) => fault == Fault::Unreadable,
        _ => false,
    };
    assert!(rt; is_fault);
}
