//! The edit that a command asks for.
ghost use Rattle.std.specs.Prelude.{◌≡◌, ℕ, List, false, None, Some, IfOk, IfErr, MatchBool};
ghost use Rattle.std.specs.Option.{option_map};
ghost use Rattle.gix_ref_name.specs.NameGrammar.{full_error};
ghost use Rattle.gix_ref_name.specs.Names.{full_bytes};
ghost use Rattle.gix_ref_target.specs.Targets.{target_value};
ghost use Rattle.gix_ref_target.specs.Targets.TargetValue.{object_id, symbolic_name};
ghost use Rattle.gix_ref_session.specs.Commands.{SymrefDelete, SymrefUpdate, SymrefVerify, ask_of, old_target_of};
ghost use Rattle.gix_ref_session.specs.Edits.{IsAbsence, IsAbsenceCheck, IsChangeOf, IsCheck, IsDeletion, IsEditOf, IsExpected, IsExpectedTarget, IsNoChange, IsNoEdit, IsNoName, IsUpdateTo, NeedsNoDeref, follows};

use crate::command::{Asked, OldTarget};
use crate::fatal::Fatal;
use crate::session::Session;
use gix_ref_edits::transaction::{Change, LogChange, PreviousValue, RefEdit, RefLog};
use gix_ref_hash::hash::{Kind, ObjectId};
use gix_ref_name::name::{FullName, FullNameRef};
use gix_ref_target::target::Target;
use std::alloc::{AllocError, Global};

/// What a reference that must not exist expects: one that has the null id. `MustNotExist` would let pass one that has the new value
/// already, as git does not.
fn must_not_exist(kind: Kind) -> PreviousValue
    ensures { IsAbsence kind result }
{
    PreviousValue::ExistingMustMatch(Target::Object(kind.null()))
}

/// What an OLD expects.
fn expected(old: Option<ObjectId>, kind: Kind) -> PreviousValue
    ensures { IsExpected kind old result }
{
    match old {
        None => PreviousValue::Any,
        Some(id) if id == kind.null() => must_not_exist(kind),
        Some(id) => PreviousValue::MustExistAndMatch(Target::Object(id)),
    }
}

/// The full name that a text is.
fn full_name(alloc: Global, text: &[u8]) -> Result<FullName, Fatal>
    ensures named { IfOk result
        (λ name. (full_error text.now ≡ None) × (full_bytes name ≡ text.now)) }
    ensures fails { IfErr result (IsNoName text.now) }
{
    match FullNameRef::try_from(text) {
        Ok(name) => match name.to_owned(alloc) {
            Ok(name) => Ok(name),
            Err(_) => Err(Fatal::Memory),
        },
        Err(error) => Err(Fatal::Name(error)),
    }
}

/// An update of a reference and its log, or of its log alone.
fn update(
    alloc: Global,
    session: &Session<'_>,
    mode: RefLog,
    expected: PreviousValue,
    new: Target,
) -> Result<Change, Fatal>
    ensures made { IfOk result (λ change. IsUpdateTo session.now mode (target_value new)
        (λ e. e ≡ expected) change) }
    ensures fails { IfErr result (λ fatal. fatal ≡ Fatal.Memory) }
{
    let Ok(message) = session.message.to_vec(alloc) else {
        return Err(Fatal::Memory);
    };
    let log = LogChange {
        mode,
        force_create_reflog: session.create_reflog,
        message,
    };
    Ok(Change::Update { log, expected, new })
}

/// The update to an id.
fn update_to(
    alloc: Global,
    session: &Session<'_>,
    new: ObjectId,
    expected: PreviousValue,
) -> Result<Change, Fatal>
    ensures made { IfOk result (λ change. IsUpdateTo session.now RefLog.AndReference
        (object_id new) (λ e. e ≡ expected) change) }
    ensures fails { IfErr result (λ fatal. fatal ≡ Fatal.Memory) }
{
    update(
        alloc,
        session,
        RefLog::AndReference,
        expected,
        Target::Object(new),
    )
}

/// The symbolic target that a text is.
fn symbolic(alloc: Global, text: &[u8]) -> Result<Target, Fatal>
    ensures named { IfOk result (λ target. (full_error text.now ≡ None)
        × (target_value target ≡ symbolic_name text.now)) }
    ensures fails { IfErr result (IsNoName text.now) }
{
    match full_name(alloc, text) {
        Ok(name) => Ok(Target::Symbolic(name)),
        Err(fatal) => Err(fatal),
    }
}

/// The check that there is no reference: the update of its log alone to a symbolic target, of which no line is due. One that leads to
/// itself counts as none.
fn check_absence(alloc: Global, session: &Session<'_>, name: &[u8]) -> Result<Change, Fatal>
    ensures made { IfOk result (IsAbsenceCheck session.now name.now) }
    ensures fails { IfErr result (IsNoName name.now) }
{
    let target = symbolic(alloc, name)?;
    update(
        alloc,
        session,
        RefLog::Only,
        PreviousValue::MustNotExist,
        target,
    )
}

/// The check of an id: the update of the log alone to what is there, of which no line is due.
fn check(
    alloc: Global,
    session: &Session<'_>,
    name: &[u8],
    old: Option<ObjectId>,
) -> Result<Change, Fatal>
    ensures made { IfOk result (IsCheck session.now name.now old) }
    ensures fails { IfErr result (IsNoName name.now) }
{
    match old {
        Some(id) if id != session.object_hash.null() => {
            let expected = PreviousValue::MustExistAndMatch(Target::Object(id));
            update(alloc, session, RefLog::Only, expected, Target::Object(id))
        }
        _ => check_absence(alloc, session, name),
    }
}

/// A deletion.
fn deletion(expected: PreviousValue) -> Change
    ensures { IsDeletion (λ e. e ≡ expected) result }
{
    Change::Delete {
        expected,
        log: RefLog::AndReference,
    }
}

/// What `ref OLD-TARGET` or `oid OLD-OID` expects.
fn expected_target(
    alloc: Global,
    session: &Session<'_>,
    old: Option<OldTarget<'_>>,
) -> Result<PreviousValue, Fatal>
    ensures expects { IfOk result
        (IsExpectedTarget session.now.object_hash (option_map old_target_of old.entry)) }
    ensures fails { (name target : List ℕ) → IfErr result
        (IsNoChange name (SymrefUpdate target (option_map old_target_of old.entry))) }
{
    match old {
        None => Ok(PreviousValue::Any),
        Some(OldTarget::Id(id)) => Ok(expected(Some(id), session.object_hash)),
        Some(OldTarget::Name(name)) => {
            Ok(PreviousValue::MustExistAndMatch(symbolic(alloc, name)?))
        }
    }
}

/// The update to a symbolic target.
fn symbolic_update(
    alloc: Global,
    session: &Session<'_>,
    target: &[u8],
    expected: PreviousValue,
) -> Result<Change, Fatal>
    ensures made { IfOk result (λ change. IsUpdateTo session.now RefLog.AndReference
        (symbolic_name target.now) (λ e. e ≡ expected) change) }
    ensures fails { IfErr result (IsNoName target.now) }
{
    let target = symbolic(alloc, target)?;
    update(alloc, session, RefLog::AndReference, expected, target)
}

/// The deletion of a reference that has this symbolic target, if one is named.
fn symbolic_deletion(
    alloc: Global,
    session: &Session<'_>,
    name: &[u8],
    old: Option<&[u8]>,
) -> Result<Change, Fatal>
    ensures made { IfOk result (IsChangeOf session.now name.now
        (SymrefDelete (option_map (λ name. name.now) old.entry))) }
    ensures fails { IfErr result (IsNoChange name.now
        (SymrefDelete (option_map (λ name. name.now) old.entry))) }
{
    match old {
        None => Ok(deletion(PreviousValue::Any)),
        Some(old) => {
            let target = symbolic(alloc, old)?;
            Ok(deletion(PreviousValue::MustExistAndMatch(target)))
        }
    }
}

/// The check of a symbolic target, or that there is no reference.
fn symbolic_check(
    alloc: Global,
    session: &Session<'_>,
    name: &[u8],
    old: Option<&[u8]>,
) -> Result<Change, Fatal>
    ensures made { IfOk result (IsChangeOf session.now name.now
        (SymrefVerify (option_map (λ name. name.now) old.entry))) }
    ensures fails { IfErr result (IsNoChange name.now
        (SymrefVerify (option_map (λ name. name.now) old.entry))) }
{
    match old {
        None => check_absence(alloc, session, name),
        Some(old) => {
            let expected = PreviousValue::MustExistAndMatch(symbolic(alloc, old)?);
            let target = symbolic(alloc, old)?;
            update(alloc, session, RefLog::Only, expected, target)
        }
    }
}

/// The change that is asked of a reference.
fn change_of(
    alloc: Global,
    session: &Session<'_>,
    name: &[u8],
    asked: Asked<'_>,
) -> Result<Change, Fatal>
    ensures made { IfOk result (IsChangeOf session.now name.now (ask_of asked.entry)) }
    ensures fails { IfErr result (IsNoChange name.now (ask_of asked.entry)) }
{
    let kind = session.object_hash;
    match asked {
        Asked::Update { new, old } => {
            if new == kind.null() {
                return Ok(deletion(expected(old, kind)));
            }
            update_to(alloc, session, new, expected(old, kind))
        }
        Asked::Create { new } => update_to(alloc, session, new, must_not_exist(kind)),
        Asked::Delete { old } => Ok(deletion(expected(old, kind))),
        Asked::Verify { old } => check(alloc, session, name, old),
        Asked::SymrefUpdate { target, old } => {
            let expected = expected_target(alloc, session, old)?;
            symbolic_update(alloc, session, target, expected)
        }
        Asked::SymrefCreate { target } => {
            symbolic_update(alloc, session, target, must_not_exist(kind))
        }
        Asked::SymrefDelete { old } => symbolic_deletion(alloc, session, name, old),
        Asked::SymrefVerify { old } => symbolic_check(alloc, session, name, old),
    }
}

/// Whether the edit of what is asked follows symbolic references, where the session does.
fn follows(asked: Asked<'_>, deref: bool) -> bool
    ensures { result ≡ follows (ask_of asked.entry) deref }
{
    match asked {
        Asked::SymrefUpdate { .. }
        | Asked::SymrefCreate { .. }
        | Asked::SymrefDelete { .. }
        | Asked::SymrefVerify { .. } => false,
        Asked::Update { .. } | Asked::Create { .. } | Asked::Delete { .. } | Asked::Verify { .. } =>
            deref,
    }
}

/// Whether what is asked is refused where symbolic references are followed.
fn needs_no_deref(asked: Asked<'_>) -> bool
    ensures { MatchBool result (NeedsNoDeref (ask_of asked.entry))
        (NeedsNoDeref (ask_of asked.entry) → ⊥) }
{
    matches!(
        asked,
        Asked::SymrefDelete { .. } | Asked::SymrefVerify { .. }
    )
}

/// The edit that a command asks for.
pub(crate) fn edit_of(
    alloc: Global,
    session: &Session<'_>,
    deref: bool,
    name: &[u8],
    asked: Asked<'_>,
) -> Result<RefEdit, Fatal>
    ensures made { IfOk result (IsEditOf session.now deref name.now (ask_of asked.entry)) }
    ensures fails { IfErr result (IsNoEdit deref name.now (ask_of asked.entry)) }
{
    if deref && needs_no_deref(asked) {
        return Err(Fatal::Deref);
    }
    let full = full_name(alloc, name)?;
    let change = change_of(alloc, session, name, asked)?;
    Ok(RefEdit {
        change,
        name: full,
        deref: follows(asked, deref),
    })
}
