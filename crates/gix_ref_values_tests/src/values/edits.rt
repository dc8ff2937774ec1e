//! Edits as values.
use crate::values::made::{bytes, full_name, object};
use gix_ref_edits::transaction::{Change, LogChange, PreviousValue, RefEdit, RefLog};
use gix_ref_target::target::{Target, TargetRef};
use std::alloc::AllocError;

#[test]
fn values_of_changes(rt: HostRuntime) {
    let update = Change::Update {
        log: LogChange::new_in(rt.alloc()),
        expected: PreviousValue::MustExistAndMatch(object(&rt, '1')),
        new: object(&rt, '2'),
    };
    let (one, two) = (object(&rt, '1'), object(&rt, '2'));
    assert!(rt; update.new_value() == Some(two.to_ref()));
    assert!(rt; update.previous_value() == Some(one.to_ref()));
    let delete = Change::Delete {
        expected: PreviousValue::ExistingMustMatch(object(&rt, '2')),
        log: RefLog::Only,
    };
    let none: Option<TargetRef<'_>> = None;
    assert!(rt; delete.new_value() == none && delete.previous_value() == Some(two.to_ref()));
    assert!(rt; update < delete, "in the order of the variants");
}

#[test]
fn copies_of_edits(rt: HostRuntime) {
    let alloc = rt.alloc();
    let edit = RefEdit {
        change: Change::Update {
            log: LogChange {
                mode: RefLog::Only,
                force_create_reflog: true,
                message: bytes(&rt, alloc, "m"),
            },
            expected: PreviousValue::MustNotExist,
            new: Target::Symbolic(full_name(&rt, alloc, "refs/heads/a")),
        },
        name: full_name(&rt, alloc, "HEAD"),
        deref: true,
    };
    let copy: Result<RefEdit, AllocError> = edit.clone();
    assert!(rt; copy.expect(&rt, "memory") == edit);
}

#[test]
fn the_order_of_expectations(rt: HostRuntime) {
    let rows = [
        PreviousValue::Any,
        PreviousValue::MustExist,
        PreviousValue::MustNotExist,
        PreviousValue::MustExistAndMatch(object(&rt, '1')),
        PreviousValue::MustExistAndMatch(object(&rt, '2')),
        PreviousValue::ExistingMustMatch(object(&rt, '1')),
    ];
    for i in 1..6usize {
        assert!(rt; rows[i - 1] < rows[i], "{i}");
    }
    assert!(rt; RefLog::AndReference < RefLog::Only);
}
