//! `prepare` by plain loops: the first cause against edits, or their split list, with its locks among the files.
use crate::causes::Cause;
use crate::files::{is_blocked, is_taken, put, remove, text};
use crate::made::{Edit, Expect, To};
use crate::names::{has_device, is_safe, key, place};
use crate::reading::{found, loose, record};
use crate::stores::{Kept, Packed, Puts};
use std::alloc::Global;
use std::process::Abort;

/// Whether the name of an edit may not be edited.
fn misnamed(kept: &Kept, name: &str) -> Option<Cause> {
    if !is_safe(name) {
        return Some(Cause::UnsafeName);
    }
    if kept.setting.prohibits && has_device(name) {
        return Some(Cause::DeviceName);
    }
    None
}

/// What an edit expects to find, if it names it.
fn wanted(expect: Expect) -> Option<To> {
    match expect {
        Expect::Match(to) | Expect::Existing(to) => Some(to),
        Expect::Any | Expect::MustExist | Expect::MustNotExist => None,
    }
}

/// The cause against an edit by itself.
fn invalid(kept: &Kept, edit: Edit) -> Option<Cause> {
    if let Some(cause) = misnamed(kept, edit.name) {
        return Some(cause);
    }
    if edit.new.is_none() && edit.expect == Expect::MustNotExist {
        return Some(Cause::DeleteMustNotExist);
    }
    if edit.new == Some(To::Partial) {
        return Some(Cause::TargetNotFull);
    }
    if edit.new == Some(To::Long) || wanted(edit.expect) == Some(To::Long) {
        return Some(Cause::OtherHashKind);
    }
    None
}

/// The first cause against edits by themselves.
fn first_invalid(kept: &Kept, edits: &[Edit]) -> Option<Cause> {
    for edit in edits {
        if let Some(cause) = invalid(kept, *edit) {
            return Some(cause);
        }
    }
    None
}

/// The child of an edit that follows, where its reference is symbolic; the edit is then of the log alone.
fn split(rt: &impl Abort, alloc: Global, kept: &Kept, edit: &mut Edit, at: usize) -> Option<Edit> {
    if !edit.deref {
        return None;
    }
    edit.deref = false;
    let Some(To::Name(name)) = loose(rt, alloc, kept, edit.name) else {
        return None;
    };
    let child = Edit {
        name,
        deref: true,
        parent: Some(at),
        ..*edit
    };
    edit.is_of_log = true;
    if edit.new.is_some() {
        edit.expect = Expect::Any;
    }
    Some(child)
}

/// One round of splits, of the edits from one place to another.
fn round(
    rt: &impl Abort,
    alloc: Global,
    kept: &Kept,
    edits: &mut Vec<Edit>,
    begin: usize,
    end: usize,
    is_last: bool,
) -> Option<Cause> {
    for at in begin..end {
        let edit = edits.get_mut(at)?;
        if let Some(child) = split(rt, alloc, kept, edit, at) {
            if is_last {
                return Some(Cause::TooManySplits);
            }
            if let Some(cause) = misnamed(kept, child.name) {
                return Some(cause);
            }
            edits.push(child).expect(rt, "memory");
        }
    }
    None
}

/// All rounds of splits.
fn split_all(rt: &impl Abort, alloc: Global, kept: &Kept, edits: &mut Vec<Edit>) -> Option<Cause> {
    let mut begin = 0usize;
    for number in 0..5u32 {
        let end = edits.len();
        if let Some(cause) = round(rt, alloc, kept, edits, begin, end, number == 4) {
            return Some(cause);
        }
        begin = end;
    }
    None
}

/// How many edits have a name.
fn count_of(edits: &[Edit], name: &str) -> usize {
    edits.iter().filter(|edit| edit.name == name).count()
}

/// The least name of more than one edit.
fn doubled(edits: &[Edit]) -> Option<Cause> {
    let mut least: Option<&'static str> = None;
    for edit in edits {
        let is_less = match least {
            Some(name) => edit.name < name,
            None => true,
        };
        if is_less && count_of(edits, edit.name) > 1 {
            least = Some(edit.name);
        }
    }
    Some(Cause::DoubledName(least?))
}

/// Whether an edit of a reference may have a record.
fn may_change_records(kept: &Kept, edits: &[Edit]) -> bool {
    for edit in edits {
        if !edit.is_of_log && key(kept.setting, edit.name).is_some() {
            return true;
        }
    }
    false
}

/// Whether a record is bad.
pub fn has_bad_record(kept: &Kept) -> bool {
    for record in &kept.records {
        if record.digit == 'z' {
            return true;
        }
    }
    false
}

/// Whether an edit deletes its reference, and not its log alone.
fn deletes(edit: &Edit) -> bool {
    edit.new.is_none() && !edit.is_of_log
}

/// Whether the record of an edit is bad and is asked for: no loose target hides it, or the edit deletes it.
fn asks_bad_record(rt: &impl Abort, alloc: Global, kept: &Kept, edits: &[Edit]) -> bool {
    for edit in edits {
        if let Some(record) = record(kept, edit.name)
            && record.digit == 'z'
            && (deletes(edit) || loose(rt, alloc, kept, edit.name).is_none())
        {
            return true;
        }
    }
    false
}

/// The cause of `packed-refs`.
fn packed(rt: &impl Abort, alloc: Global, kept: &Kept, edits: &[Edit]) -> Option<Cause> {
    if may_change_records(kept, edits) && is_taken(&kept.files, "/r/packed-refs.lock") {
        return Some(Cause::PackedTransactionAcquire);
    }
    match kept.packed {
        Packed::BadHeader => Some(Cause::Packed),
        Packed::Unsorted if has_bad_record(kept) => Some(Cause::Packed),
        _ if asks_bad_record(rt, alloc, kept, edits) => Some(Cause::PackedFind),
        _ => None,
    }
}

/// The digit of the object that an edit puts into `packed-refs`: that of an update of a reference that may have a record.
pub fn digit_put(kept: &Kept, edit: Edit) -> Option<char> {
    if kept.puts == Puts::Nothing || edit.is_of_log || key(kept.setting, edit.name).is_none() {
        return None;
    }
    match edit.new? {
        To::Object(digit) => Some(digit),
        To::Name(_) | To::Long | To::Partial => None,
    }
}

/// Whether an object that is put is missing: the finder has each but the null id.
fn is_missing(kept: &Kept, edits: &[Edit]) -> bool {
    edits.iter().any(|edit| digit_put(kept, *edit) == Some('0'))
}

/// Nothing is found where this has to be.
fn absent(edit: Edit, to: To) -> Cause {
    match edit.new {
        Some(_) => Cause::MustExist(edit.name, to),
        None => Cause::DeleteReferenceMustExist(edit.name),
    }
}

/// The cause against an edit by what it expects.
fn mismatch(edit: Edit, found: Option<To>) -> Option<Cause> {
    match found {
        None => match edit.expect {
            Expect::MustExist => Some(absent(edit, To::Object('0'))),
            Expect::Match(to) => Some(absent(edit, to)),
            Expect::Any | Expect::MustNotExist | Expect::Existing(_) => None,
        },
        Some(actual) => match edit.expect {
            Expect::Any | Expect::MustExist => None,
            Expect::MustNotExist => {
                let new = edit.new?;
                (new != actual).then_some(Cause::MustNotExist(edit.name, actual, new))
            }
            Expect::Match(to) | Expect::Existing(to) => {
                (to != actual).then_some(Cause::ReferenceOutOfDate(edit.name, to, actual))
            }
        },
    }
}

/// The lock of an edit.
fn lock(rt: &impl Abort, alloc: Global, kept: &Kept, name: &'static str) -> String {
    let place = place(rt, alloc, kept.setting, name);
    format!(in alloc; "{place}.lock").expect(rt, "memory")
}

/// Takes the lock of an edit, and compares what is found with what it expects.
fn take(rt: &impl Abort, alloc: Global, kept: &mut Kept, edit: &mut Edit) -> Option<Cause> {
    let lock = lock(rt, alloc, kept, edit.name);
    if is_blocked(&kept.files, &lock) {
        return Some(Cause::PathCollision(edit.name));
    }
    if is_taken(&kept.files, &lock) {
        return Some(Cause::LockAcquire(edit.name));
    }
    put(
        rt,
        alloc,
        &mut kept.files,
        &lock,
        text(rt, alloc, "our lock"),
    );
    edit.found = found(rt, alloc, kept, edit.name);
    let cause = mismatch(*edit, edit.found);
    if let Some(to) = edit.found {
        edit.expect = Expect::Match(to);
    }
    cause
}

/// Takes all locks, edit by edit.
fn take_all(rt: &impl Abort, alloc: Global, kept: &mut Kept, edits: &mut [Edit]) -> Option<Cause> {
    for at in 0..edits.len() {
        let mut edit = edits[at];
        let cause = take(rt, alloc, kept, &mut edit);
        edits[at] = edit;
        if cause.is_some() {
            return cause;
        }
    }
    None
}

/// Prepares edits: the first cause against them; else they are the split list, and their locks are among the files.
pub fn prepare(
    rt: &impl Abort,
    alloc: Global,
    kept: &mut Kept,
    edits: &mut Vec<Edit>,
) -> Option<Cause> {
    if let Some(cause) = first_invalid(kept, edits) {
        return Some(cause);
    }
    if let Some(cause) = split_all(rt, alloc, kept, edits) {
        return Some(cause);
    }
    if let Some(cause) = doubled(edits) {
        return Some(cause);
    }
    if let Some(cause) = packed(rt, alloc, kept, edits) {
        return Some(cause);
    }
    if is_missing(kept, edits) {
        return Some(Cause::Resolve);
    }
    take_all(rt, alloc, kept, edits)
}

/// Removes the locks of edits.
pub fn release(rt: &impl Abort, alloc: Global, kept: &mut Kept, edits: &[Edit]) {
    for edit in edits {
        let lock = lock(rt, alloc, kept, edit.name);
        remove(&mut kept.files, &lock);
    }
}
