//! The edits that commands ask for.
ghost use Rattle.std.specs.Prelude.{◌≡◌, false, None, MatchResult};
ghost use Rattle.gix_ref_name.specs.NameGrammar.{full_error};
ghost use Rattle.gix_ref_name.specs.Names.{full_bytes};
ghost use Rattle.gix_ref_target.specs.Targets.{target_value};
ghost use Rattle.gix_ref_target.specs.Targets.TargetValue.{object_id, symbolic_name};
ghost use Rattle.gix_ref_program.specs.AskedEdits.{IsAskedFor, IsDeletionEdit, IsEditOf, IsExpected, IsLogChange, IsNoName, NoEdit};
ghost use Rattle.gix_ref_program.specs.Words.{IsWrite, Symbolic, command_asked, text_given};

use crate::refusal::Refusal;
use crate::words::Command;
use gix_ref_edits::transaction::{Change, LogChange, PreviousValue, RefEdit, RefLog};
use gix_ref_hash::hash::{Kind, ObjectId};
use gix_ref_name::name::{FullName, FullNameRef};
use gix_ref_target::target::Target;
use std::alloc::Global;

/// What an update with this OLD expects: the null id that there is no reference, another id that the reference has it.
fn expected(old: Option<ObjectId>, kind: Kind) -> PreviousValue
    ensures { IsExpected kind old result }
{
    match old {
        None => PreviousValue::Any,
        Some(id) if id == kind.null() => PreviousValue::MustNotExist,
        Some(id) => PreviousValue::MustExistAndMatch(Target::Object(id)),
    }
}

/// The full name that a word is.
fn full_name(alloc: Global, word: &[u8]) -> Result<FullName, Refusal>
    ensures { MatchResult result (λ name. (full_error word.now ≡ None)
        × (full_bytes name ≡ word.now)) (IsNoName word.now) }
{
    match FullNameRef::try_from(word) {
        Ok(name) => match name.to_owned(alloc) {
            Ok(name) => Ok(name),
            Err(_) => Err(Refusal::Memory),
        },
        Err(error) => Err(Refusal::Name(error)),
    }
}

/// The change of a log, with the message of its line: none without a TEXT.
fn log_change(alloc: Global, text: Option<&[u8]>) -> Result<LogChange, Refusal>
    ensures { MatchResult result (IsLogChange (text_given text.entry))
        (λ refusal. refusal ≡ Refusal.Memory) }
{
    let mut log = LogChange::new_in(alloc);
    if let Some(text) = text {
        let Ok(message) = text.to_vec(alloc) else {
            return Err(Refusal::Memory);
        };
        log.message = message;
    }
    Ok(log)
}

/// The edit that gives a reference a new target.
fn edit_to(
    alloc: Global,
    name: FullName,
    deref: bool,
    text: Option<&[u8]>,
    new: Target,
    expected: PreviousValue,
) -> Result<RefEdit, Refusal>
    requires { full_error (full_bytes name) ≡ None }
    ensures { MatchResult result (IsEditOf (full_bytes name) deref (text_given text.entry)
        (target_value new) expected) (λ refusal. refusal ≡ Refusal.Memory) }
{
    Ok(RefEdit {
        change: Change::Update {
            log: log_change(alloc, text)?,
            expected,
            new,
        },
        name,
        deref,
    })
}

/// The edit of an update.
fn update_edit(
    alloc: Global,
    name: &[u8],
    deref: bool,
    text: Option<&[u8]>,
    id: ObjectId,
    expected: PreviousValue,
) -> Result<RefEdit, Refusal>
    ensures { MatchResult result (IsEditOf name.now deref (text_given text.entry)
        (object_id id) expected) (IsNoName name.now) }
{
    match full_name(alloc, name) {
        Ok(name) => edit_to(alloc, name, deref, text, Target::Object(id), expected),
        Err(refusal) => Err(refusal),
    }
}

/// The edit of a symbolic update.
fn symbolic_edit(
    alloc: Global,
    name: &[u8],
    text: Option<&[u8]>,
    target: &[u8],
) -> Result<RefEdit, Refusal>
    ensures { MatchResult result (IsEditOf name.now false (text_given text.entry)
        (symbolic_name target.now) PreviousValue.Any) (NoEdit (Symbolic name.now target.now)) }
{
    let name = match full_name(alloc, name) {
        Ok(name) => name,
        Err(refusal) => return Err(refusal),
    };
    match full_name(alloc, target) {
        Ok(target) => {
            let new = Target::Symbolic(target);
            edit_to(alloc, name, false, text, new, PreviousValue::Any)
        }
        Err(refusal) => Err(refusal),
    }
}

/// The edit of a deletion.
fn deletion_edit(
    alloc: Global,
    name: &[u8],
    deref: bool,
    expected: PreviousValue,
) -> Result<RefEdit, Refusal>
    ensures { MatchResult result (IsDeletionEdit name.now deref expected) (IsNoName name.now) }
{
    match full_name(alloc, name) {
        Ok(name) => Ok(RefEdit {
            change: Change::Delete {
                expected,
                log: RefLog::AndReference,
            },
            name,
            deref,
        }),
        Err(refusal) => Err(refusal),
    }
}

/// The edit that a command which writes asks for.
pub(crate) fn edit_of(
    alloc: Global,
    kind: Kind,
    message: Option<&[u8]>,
    command: &Command<'_>,
) -> Result<RefEdit, Refusal>
    requires { IsWrite (command_asked command.now) }
    ensures { MatchResult result (IsAskedFor kind (text_given message.entry)
        (command_asked command.now)) (NoEdit (command_asked command.now)) }
{
    match command {
        Command::Update {
            deref,
            name,
            id,
            old,
        } => {
            let expected = expected(*old, kind);
            update_edit(alloc, name, *deref, message, *id, expected)
        }
        Command::Symbolic { name, target } => symbolic_edit(alloc, name, message, target),
        Command::Delete { deref, name, old } => {
            deletion_edit(alloc, name, *deref, expected(*old, kind))
        }
        Command::Show { .. }
        | Command::List { .. }
        | Command::Log { .. }
        | Command::Script { .. } => unreachable!(),
    }
}
