//! Values for tests of names, targets and edits.
use crate::made::{full, id, partial};
use gix_ref_edits::transaction::{Change, EditEntry, LogChange, PreviousValue, RefEdit, RefLog};
use gix_ref_name::name::{FullName, PartialName, PartialNameRef};
use gix_ref_name::namespace::{Namespace, expand};
use gix_ref_target::target::Target;
use std::alloc::Global;
use std::fmt::Display;
use std::process::Abort;

pub fn bytes(rt: &impl Abort, alloc: Global, text: &str) -> Vec<u8> {
    text.as_bytes().to_vec(alloc).expect(rt, "memory")
}

pub fn full_name(rt: &impl Abort, alloc: Global, text: &str) -> FullName {
    full(rt, text).to_owned(alloc).expect(rt, "memory")
}

pub fn partial_name(rt: &impl Abort, alloc: Global, text: &str) -> PartialName {
    partial(rt, text).to_owned(alloc).expect(rt, "memory")
}

pub fn namespace(rt: &impl Abort, alloc: Global, text: &str) -> Namespace {
    expand(alloc, partial(rt, text)).expect(rt, "memory")
}

pub fn shown<T: Display>(rt: &impl Abort, alloc: Global, value: &T) -> String {
    value.to_string(alloc).expect(rt, "memory")
}

/// The object whose id is forty times this digit.
pub fn object(rt: &impl Abort, digit: char) -> Target {
    let digits = match digit {
        '1' => "1111111111111111111111111111111111111111",
        _ => "2222222222222222222222222222222222222222",
    };
    Target::Object(id(rt, digits.as_bytes()))
}

/// An update to forty `1`, with the message `m`, of the reference and its log; a log is made by force.
pub fn update(rt: &impl Abort, alloc: Global, name: &str, deref: bool) -> RefEdit {
    RefEdit {
        change: Change::Update {
            log: LogChange {
                mode: RefLog::AndReference,
                force_create_reflog: true,
                message: bytes(rt, alloc, "m"),
            },
            expected: PreviousValue::MustExistAndMatch(object(rt, '2')),
            new: object(rt, '1'),
        },
        name: full_name(rt, alloc, name),
        deref,
    }
}

/// A deletion of the reference and its log.
pub fn deletion(rt: &impl Abort, alloc: Global, name: &str, deref: bool) -> RefEdit {
    RefEdit {
        change: Change::Delete {
            expected: PreviousValue::ExistingMustMatch(object(rt, '2')),
            log: RefLog::AndReference,
        },
        name: full_name(rt, alloc, name),
        deref,
    }
}

/// The symbolic references of a test: name, and the name that it leads to.
pub type Table<'a> = &'a [(&'static str, &'static str)];

/// Why a finder failed.
#[derive(Clone, Copy, Debug, PartialEq, Eq)]
pub enum Fault {
    /// The reference is one that cannot be read.
    Unreadable,
    /// There was no memory.
    Memory,
}

/// The target of a reference by the table; of others those whose names end with `x` cannot be read, and the rest are
/// objects.
pub fn find(
    rt: &impl Abort,
    alloc: Global,
    table: Table<'_>,
    name: PartialNameRef<'_>,
) -> Result<Option<Target>, Fault> {
    let text = name.to_partial_path();
    for &(from, to) in table {
        if text == from.as_bytes() {
            return Ok(Some(Target::Symbolic(full_name(rt, alloc, to))));
        }
    }
    if text.ends_with(b"x") {
        return Err(Fault::Unreadable);
    }
    Ok(Some(object(rt, '1')))
}

/// An entry that knows the place of its parent.
#[derive(Debug, PartialEq, Eq, Drop)]
pub struct Entry {
    pub edit: RefEdit,
    pub parent: Option<usize>,
}

impl EditEntry for Entry {
    ghost edit_of = { λ entry. entry.edit };

    ghost with_edit = { λ entry edit. record entry { edit = edit } };

    fn edit(&self) -> &RefEdit {
        &self.edit
    }

    fn edit_mut(&mut self) -> &mut RefEdit {
        &mut self.edit
    }

    ghost has_written = { λ _ edit. Prim.search };
}
