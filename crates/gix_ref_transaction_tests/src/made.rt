//! Targets, expectations and edits as plain values, and as the store takes them.
use crate::names::Setting;
use gix_ref_edits::transaction::{Change, LogChange, PreviousValue, RefEdit, RefLog};
use gix_ref_hash::hash::{Kind, ObjectId};
use gix_ref_log::actor::{SignatureRef, Time};
use gix_ref_memory::memory::Memory;
use gix_ref_name::name::{FullName, FullNameRef, PartialNameRef};
use gix_ref_name::namespace::{Namespace, expand};
use gix_ref_store::file::Store;
use gix_ref_target::target::Target;
use std::alloc::Global;
use std::process::Abort;

/// What a reference points to.
#[derive(Clone, Copy, Debug, PartialEq, Eq)]
pub enum To {
    /// The object whose id has this digit forty times.
    Object(char),
    /// The reference of this name.
    Name(&'static str),
    /// An object whose id has sixty-four digits.
    Long,
    /// A name that is no full name.
    Partial,
}

/// What an edit expects.
#[derive(Clone, Copy, Debug, PartialEq, Eq)]
pub enum Expect {
    Any,
    MustExist,
    MustNotExist,
    Match(To),
    Existing(To),
}

/// An edit.
#[derive(Clone, Copy, Debug)]
pub struct Edit {
    pub name: &'static str,
    /// The new target; none for a deletion.
    pub new: Option<To>,
    pub expect: Expect,
    /// It is of the log alone.
    pub is_of_log: bool,
    /// Its log is made where it is missing.
    pub is_forced: bool,
    pub message: &'static str,
    pub deref: bool,
    /// The place in the list of the edit that it was split from.
    pub parent: Option<usize>,
    /// What was found for it.
    pub found: Option<To>,
}

/// Who commits.
#[derive(Clone, Copy, Debug, PartialEq, Eq)]
pub enum Who {
    Nobody,
    C,
    /// The same with spaces round the name and the email.
    Padded,
    /// One whose name cannot be written.
    Bracket,
}

/// The digits of an id; of a letter that is no digit a text that is no id.
pub fn digits(of: char) -> &'static str {
    match of {
        '0' => "0000000000000000000000000000000000000000",
        '1' => "1111111111111111111111111111111111111111",
        '2' => "2222222222222222222222222222222222222222",
        '3' => "3333333333333333333333333333333333333333",
        'a' => "aaaaaaaaaaaaaaaaaaaaaaaaaaaaaaaaaaaaaaaa",
        'A' => "AAAAAAAAAAAAAAAAAAAAAAAAAAAAAAAAAAAAAAAA",
        _ => "zzzzzzzzzzzzzzzzzzzzzzzzzzzzzzzzzzzzzzzz",
    }
}

/// The id with these digits.
fn id(rt: &impl Abort, digits: &str) -> ObjectId {
    ObjectId::from_hex(digits.as_bytes()).expect(rt, "an id")
}

pub fn full_name(rt: &impl Abort, alloc: Global, text: &str) -> FullName {
    let name = FullNameRef::try_from(text).expect(rt, "a full name");
    name.to_owned(alloc).expect(rt, "memory")
}

fn namespace(rt: &impl Abort, alloc: Global) -> Namespace {
    let name = PartialNameRef::try_from("foo").expect(rt, "a partial name");
    expand(alloc, name).expect(rt, "memory")
}

/// The name `main`, which is valid and no full name.
fn merely_partial(rt: &impl Abort, alloc: Global) -> FullName {
    let mut name = full_name(rt, alloc, "refs/namespaces/foo/main");
    name.strip_namespace(&namespace(rt, alloc));
    name
}

/// A target as the store takes it.
pub fn target(rt: &impl Abort, alloc: Global, to: To) -> Target {
    match to {
        To::Object(digit) => Target::Object(id(rt, digits(digit))),
        To::Name(name) => Target::Symbolic(full_name(rt, alloc, name)),
        To::Long => Target::Object(id(
            rt,
            "3333333333333333333333333333333333333333333333333333333333333333",
        )),
        To::Partial => Target::Symbolic(merely_partial(rt, alloc)),
    }
}

/// Whether a target is this one, an object or a name.
pub fn is_target(target: &Target, to: To) -> bool {
    match target {
        Target::Object(id) => match to {
            To::Object(digit) => ObjectId::from_hex(digits(digit).as_bytes()) == Some(*id),
            To::Name(_) | To::Long | To::Partial => false,
        },
        Target::Symbolic(name) => match to {
            To::Name(want) => name.eq_bytes(want.as_bytes()),
            To::Object(_) | To::Long | To::Partial => false,
        },
    }
}

/// An expectation as the store takes it.
fn expected(rt: &impl Abort, alloc: Global, expect: Expect) -> PreviousValue {
    match expect {
        Expect::Any => PreviousValue::Any,
        Expect::MustExist => PreviousValue::MustExist,
        Expect::MustNotExist => PreviousValue::MustNotExist,
        Expect::Match(to) => PreviousValue::MustExistAndMatch(target(rt, alloc, to)),
        Expect::Existing(to) => PreviousValue::ExistingMustMatch(target(rt, alloc, to)),
    }
}

/// Whether an expectation is this one.
pub fn is_expected(value: &PreviousValue, expect: Expect) -> bool {
    match value {
        PreviousValue::Any => expect == Expect::Any,
        PreviousValue::MustExist => expect == Expect::MustExist,
        PreviousValue::MustNotExist => expect == Expect::MustNotExist,
        PreviousValue::MustExistAndMatch(target) => match expect {
            Expect::Match(to) => is_target(target, to),
            _ => false,
        },
        PreviousValue::ExistingMustMatch(target) => match expect {
            Expect::Existing(to) => is_target(target, to),
            _ => false,
        },
    }
}

/// What an edit does, as the store takes it.
fn change(rt: &impl Abort, alloc: Global, edit: Edit) -> Change {
    let mode = if edit.is_of_log {
        RefLog::Only
    } else {
        RefLog::AndReference
    };
    let expected = expected(rt, alloc, edit.expect);
    match edit.new {
        None => Change::Delete {
            expected,
            log: mode,
        },
        Some(to) => Change::Update {
            log: LogChange {
                mode,
                force_create_reflog: edit.is_forced,
                message: edit.message.as_bytes().to_vec(alloc).expect(rt, "memory"),
            },
            expected,
            new: target(rt, alloc, to),
        },
    }
}

/// Edits as the store takes them.
pub fn given(rt: &impl Abort, alloc: Global, edits: &[Edit]) -> Vec<RefEdit> {
    let mut given = Vec::with_capacity(alloc, edits.len()).expect(rt, "memory");
    for edit in edits {
        let edit = RefEdit {
            change: change(rt, alloc, *edit),
            name: full_name(rt, alloc, edit.name),
            deref: edit.deref,
        };
        given.push(edit).expect(rt, "room");
    }
    given
}

/// A signature as the store takes it.
pub fn signature(who: Who) -> Option<SignatureRef<'static>> {
    let (name, email) = match who {
        Who::Nobody => return None,
        Who::C => ("C", "c@example.com"),
        Who::Padded => (" C\t", "\nc@example.com "),
        Who::Bracket => ("C<", "c@example.com"),
    };
    Some(SignatureRef {
        name: name.as_bytes(),
        email: email.as_bytes(),
        time: Time {
            seconds: 1234,
            offset: 28800,
        },
    })
}

/// The store over these files.
pub fn store(rt: &impl Abort, alloc: Global, files: Memory, setting: Setting) -> Store<Memory> {
    let common = b"/r".to_vec(alloc).expect(rt, "memory");
    let made = if setting.git == "/r" {
        Store::at(files, common, Kind::Sha1)
    } else {
        let git = setting.git.as_bytes().to_vec(alloc).expect(rt, "memory");
        Store::for_linked_worktree(files, git, common, Kind::Sha1)
    };
    let Ok(mut store) = made else {
        panic!(rt; "clean folders");
    };
    if !setting.space.is_empty() {
        store.namespace = Some(namespace(rt, alloc));
    }
    store.write_reflog = setting.mode;
    store.prohibit_windows_device_names = setting.prohibits;
    store
}
