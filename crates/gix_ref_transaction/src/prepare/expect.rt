//! What was found against what an edit expects.
ghost use Rattle.std.specs.Prelude.{◌≡◌, ◌≢◌, Some, None, MatchResult, MatchBool, IsErrAnd};
ghost use Rattle.gix_ref_target.specs.Targets.{target_value};
ghost use Rattle.gix_ref_edits.specs.RefEdits.{Expects, expected_of, new_of, previous_of};
ghost use Rattle.gix_ref_transaction.specs.Causes.{required, IsMismatch, IsPossible};
ghost use Rattle.gix_ref_transaction.specs.PrepareSteps.{value_of};
ghost use Rattle.gix_ref_edits.specs.declared.transaction.PreviousValue.TheVariants.{MustNotExist as must_not_exist};

use crate::prepare::Error;
use gix_ref_edits::transaction::{Change, PreviousValue, RefEdit};
use gix_ref_hash::hash::Kind;
use gix_ref_target::target::Target;
use std::alloc::Global;

/// Whether two targets are the same.
fn is_same(a: &Target, b: &Target) -> bool
    ensures { MatchBool result (target_value a.now ≡ target_value b.now)
        (target_value a.now ≢ target_value b.now) }
{
    a.eq_ref(b.to_ref())
}

/// Nothing was found where this target has to be.
fn missing(edit: &RefEdit, expected: Target, kind: Kind) -> Result<(), Error>
    requires { required kind (expected_of edit.now.change) ≡ Some (target_value expected) }
    ensures { IsErrAnd result (IsMismatch kind edit.now None) }
{
    let full_name = edit.name.clone()?;
    match &edit.change {
        Change::Update { .. } => Err(Error::MustExist {
            full_name,
            expected,
        }),
        Change::Delete { .. } => Err(Error::DeleteReferenceMustExist { full_name }),
    }
}

/// Another target was found than the one that may be there.
fn outdated(edit: &RefEdit, expected: &Target, actual: &Target, kind: Kind) -> Result<(), Error>
    requires only { previous_of (expected_of edit.now.change) ≡ Some (target_value expected.now) }
    requires other { target_value actual.now ≢ target_value expected.now }
    ensures { IsErrAnd result (IsMismatch kind edit.now (Some (target_value actual.now))) }
{
    Err(Error::ReferenceOutOfDate {
        full_name: edit.name.clone()?,
        expected: expected.clone()?,
        actual: actual.clone()?,
    })
}

/// Another target was found than the new one, where none was to be.
fn standing(edit: &RefEdit, new: &Target, actual: &Target, kind: Kind) -> Result<(), Error>
    requires absent { expected_of edit.now.change ≡ must_not_exist }
    requires update { new_of edit.now.change ≡ Some (target_value new.now) }
    requires other { target_value actual.now ≢ target_value new.now }
    ensures { IsErrAnd result (IsMismatch kind edit.now (Some (target_value actual.now))) }
{
    Err(Error::MustNotExist {
        full_name: edit.name.clone()?,
        actual: actual.clone()?,
        new: new.clone()?,
    })
}

/// A target was found where an edit expects none: it must be the new one of an update.
fn check_new(edit: &RefEdit, actual: &Target, kind: Kind) -> Result<(), Error>
    requires absent { expected_of edit.now.change ≡ must_not_exist }
    requires possible { IsPossible edit.now.change }
    ensures { MatchResult result
        (λ _. Expects must_not_exist (new_of edit.now.change) (Some (target_value actual.now)))
        (IsMismatch kind edit.now (Some (target_value actual.now))) }
{
    match &edit.change {
        Change::Update { new, .. } => {
            if is_same(actual, new) {
                Ok(())
            } else {
                standing(edit, new, actual, kind)
            }
        }
        Change::Delete { .. } => Ok(()),
    }
}

/// A target was found.
fn check_standing(edit: &RefEdit, actual: &Target, kind: Kind) -> Result<(), Error>
    requires { IsPossible edit.now.change }
    ensures { MatchResult result (λ _. Expects (expected_of edit.now.change)
        (new_of edit.now.change) (Some (target_value actual.now)))
        (IsMismatch kind edit.now (Some (target_value actual.now))) }
{
    match edit.change.expectation() {
        PreviousValue::Any | PreviousValue::MustExist => Ok(()),
        PreviousValue::MustNotExist => check_new(edit, actual, kind),
        PreviousValue::MustExistAndMatch(target) | PreviousValue::ExistingMustMatch(target) => {
            if is_same(actual, target) {
                Ok(())
            } else {
                outdated(edit, target, actual, kind)
            }
        }
    }
}

/// Nothing was found.
fn check_absent(edit: &RefEdit, kind: Kind) -> Result<(), Error>
    requires { IsPossible edit.now.change }
    ensures { MatchResult result (λ _. Expects (expected_of edit.now.change)
        (new_of edit.now.change) None) (IsMismatch kind edit.now None) }
{
    match edit.change.expectation() {
        PreviousValue::Any | PreviousValue::ExistingMustMatch(_) | PreviousValue::MustNotExist =>
            Ok(()),
        PreviousValue::MustExist => missing(edit, Target::Object(kind.null()), kind),
        PreviousValue::MustExistAndMatch(target) => missing(edit, target.clone()?, kind),
    }
}

/// What was found against what an edit expects.
pub fn check_expected(edit: &RefEdit, found: &Option<Target>, kind: Kind) -> Result<(), Error>
    requires { IsPossible edit.now.change }
    ensures { MatchResult result
        (λ _. Expects (expected_of edit.now.change) (new_of edit.now.change) (value_of found.now))
        (IsMismatch kind edit.now (value_of found.now)) }
{
    match found {
        Some(actual) => check_standing(edit, actual, kind),
        None => check_absent(edit, kind),
    }
}
