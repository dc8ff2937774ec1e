//! The ids of a log line: what was there, and what is there now.
ghost use Rattle.std.specs.Prelude.{◌≡◌};
ghost use Rattle.gix_ref_edits.specs.RefEdits.{expected_of, matched};
ghost use Rattle.gix_ref_reflog.specs.DueLines.{between, expected_id, ids_from, ids_of, ids_of_symbolic, previous_id};

use gix_ref_edits::transaction::{Change, PreviousValue};
use gix_ref_hash::hash::ObjectId;
use gix_ref_target::target::Target;

/// The ids of a log line.
#[derive(Clone, Copy, PartialEq, Eq)]
pub struct LineIds {
    /// The object that was there, or the null id.
    pub previous: ObjectId,
    /// The new object.
    pub new: ObjectId,
}

/// The object that an edit expects, if it names one.
pub fn expected_id(change: &Change) -> Option<ObjectId>
    ensures { result ≡ expected_id change.now }
{
    match change.expectation() {
        PreviousValue::MustExistAndMatch(Target::Object(id))
        | PreviousValue::ExistingMustMatch(Target::Object(id)) => Some(*id),
        _ => None,
    }
}

/// The object that was found, which a prepared edit expects; else the one that the leaf expects.
fn previous_id(expected: &PreviousValue, leaf: Option<ObjectId>) -> Option<ObjectId>
    ensures { result ≡ previous_id (matched expected.now) leaf }
{
    match expected {
        PreviousValue::MustExistAndMatch(Target::Object(id)) => Some(*id),
        _ => leaf,
    }
}

/// The ids of a line from one object to another; `None` where the two are the same.
fn between(previous: ObjectId, new: ObjectId) -> Option<LineIds>
    ensures { result ≡ between previous new }
{
    if previous == new {
        None
    } else {
        Some(LineIds { previous, new })
    }
}

/// The ids of a line to an object; without a previous id from the null id of its kind.
fn ids_from(previous: Option<ObjectId>, new: ObjectId) -> Option<LineIds>
    ensures { result ≡ ids_from previous new }
{
    match previous {
        Some(previous) => between(previous, new),
        None => Some(LineIds {
            previous: new.kind().null(),
            new,
        }),
    }
}

/// The ids of a line of a symbolic update: where the reference was not there, and must match an object if it is, from null to
/// that object.
fn ids_of_symbolic(expected: &PreviousValue) -> Option<LineIds>
    ensures { result ≡ ids_of_symbolic expected.now (matched expected.now) }
{
    match expected {
        PreviousValue::ExistingMustMatch(Target::Object(id)) => between(id.kind().null(), *id),
        _ => None,
    }
}

/// The ids of the line of a prepared edit, which expects what was found for it, by the object that its leaf expects; `None` where
/// it has no line.
pub fn ids_of(change: &Change, leaf: Option<ObjectId>) -> Option<LineIds>
    ensures { result ≡ ids_of change.now (matched (expected_of change.now)) leaf }
{
    match change {
        Change::Update {
            new: Target::Object(new),
            expected,
            ..
        } => ids_from(previous_id(expected, leaf), *new),
        Change::Update {
            new: Target::Symbolic(_),
            expected,
            ..
        } => ids_of_symbolic(expected),
        Change::Delete { .. } => None,
    }
}
