//! The commands of `git update-ref --stdin`, read from the words of their texts.
ghost use Rattle.std.specs.Prelude.{◌≡◌, ◌≢◌, [], ◌∷◌, List, ℕ, Option, IfOk, IfErr, MatchOption, codes};
ghost use Rattle.std.specs.Option.{option_map};
ghost use Rattle.gix_ref_hash.specs.Bytes.{NoByte};
ghost use Rattle.gix_ref_hash.specs.declared.hash.ObjectId.{ObjectId};
ghost use Rattle.gix_ref_session.specs.Commands.{Ask, Edit, Heard, IsAsk, IsCommand, IsIdField, IsNewId, IsNoAsk, IsNoCommand, IsOldId, IsOldName, IsOldTarget, IsOneWord, IsSymbolic, IsTarget, IsVerbAndName, IsWord, OldAsk, ask_of, fields_after, heard_of, no_deref_words, old_target_of, texts, words_of};

use crate::input::Format;
use gix_ref_hash::bytes::cut;
use gix_ref_hash::hash::{Kind, ObjectId};
use std::alloc::{AllocError, Global};

/// The value before a symbolic update.
#[derive(Clone, Copy, Debug)]
pub enum OldTarget<'t> {
    /// `ref OLD-TARGET`
    Name(&'t [u8]),
    /// `oid OLD-OID`
    Id(ObjectId),
}

/// What a command asks of a reference.
#[derive(Clone, Copy, Debug)]
pub enum Asked<'t> {
    /// `update REF NEW [OLD]`
    Update {
        new: ObjectId,
        old: Option<ObjectId>,
    },
    /// `create REF NEW`
    Create {
        new: ObjectId,
    },
    /// `delete REF [OLD]`
    Delete {
        old: Option<ObjectId>,
    },
    /// `verify REF [OLD]`
    Verify {
        old: Option<ObjectId>,
    },
    /// `symref-update REF NEW-TARGET [ref OLD-TARGET | oid OLD-OID]`
    SymrefUpdate {
        target: &'t [u8],
        old: Option<OldTarget<'t>>,
    },
    /// `symref-create REF NEW-TARGET`
    SymrefCreate {
        target: &'t [u8],
    },
    /// `symref-delete REF [OLD-TARGET]`
    SymrefDelete {
        old: Option<&'t [u8]>,
    },
    /// `symref-verify REF [OLD-TARGET]`
    SymrefVerify {
        old: Option<&'t [u8]>,
    },
}

/// A command.
#[derive(Clone, Copy, Debug)]
pub enum Command<'t> {
    /// One that asks something of the reference of this name.
    Edit { name: &'t [u8], asked: Asked<'t> },
    /// `option no-deref`
    NoDeref,
    /// `start`
    Start,
    /// `prepare`
    Prepare,
    /// `commit`
    Commit,
    /// `abort`
    Abort,
}

/// Why a text is no command.
#[derive(Clone, Copy, Debug, PartialEq, Eq)]
pub enum Malformed {
    /// There is nothing in it.
    Empty,
    /// It begins with a blank.
    Whitespace,
    /// Its verb is unknown, or not followed as it has to be.
    Unknown,
    /// A field is badly quoted.
    Quoted,
    /// There is no name of a reference.
    NoName,
    /// A field is missing.
    NoField,
    /// A field is no id, or no word that has to be there.
    Invalid,
    /// A value that may not be the null id is.
    Zero,
    /// More fields follow.
    Extra,
}

/// How many fields follow the first one of a command with NULs: fewer where the input ends.
pub(crate) fn more_fields(text: &[u8]) -> u8
    ensures { result ≡ fields_after text.now }
{
    if text.starts_with(b"update ") {
        return 2;
    }
    if text.starts_with(b"symref-update ") {
        return 3;
    }
    let is_one = text.starts_with(b"create ")
        || text.starts_with(b"delete ")
        || text.starts_with(b"verify ")
        || text.starts_with(b"symref-create ")
        || text.starts_with(b"symref-delete ")
        || text.starts_with(b"symref-verify ");
    if is_one { 1 } else { 0 }
}

/// The words of a text, parted by spaces in lines, and else by NULs.
pub(crate) fn words_of(alloc: Global, text: &[u8], format: Format) -> Result<Vec<&[u8]>, AllocError>
    ensures { IfOk result (λ words. texts words.items ≡ words_of format text.now) }
{
    match format {
        Format::Lines => text.split(|byte| *byte == b' ').collect(alloc),
        Format::Nul => text.split(|byte| *byte == 0).collect(alloc),
    }
}

/// The id that a field is; an empty one is the null id.
fn id_of(field: &[u8], kind: Kind) -> Result<ObjectId, Malformed>
    ensures parsed { IfOk result (IsIdField kind field.now) }
    ensures refused { IfErr result (λ _. (id : ObjectId) → IsIdField kind field.now id → ⊥) }
{
    if field.is_empty() {
        return Ok(kind.null());
    }
    match ObjectId::from_hex(field) {
        Some(id) => Ok(id),
        None => Err(Malformed::Invalid),
    }
}

/// That no field is left.
fn end(fields: &[&[u8]]) -> Result<(), Malformed>
    ensures parsed { IfOk result (λ _. texts fields.now ≡ []) }
    ensures refused { IfErr result (λ _. texts fields.now ≢ []) }
{
    if fields.is_empty() {
        Ok(())
    } else {
        Err(Malformed::Extra)
    }
}

/// A field, and those after it.
fn next<'a, 't>(fields: &'a [&'t [u8]]) -> Result<(&'t [u8], &'a [&'t [u8]]), Malformed>
    ensures parsed { IfOk result (λ r. texts fields.now ≡ r.0.now ∷ texts r.1.now) }
    ensures refused { IfErr result (λ _. texts fields.now ≡ []) }
{
    match fields.split_first() {
        Some((field, rest)) => Ok((*field, rest)),
        None => Err(Malformed::NoField),
    }
}

/// A new id, and the fields after it.
fn new_id<'a, 't>(
    fields: &'a [&'t [u8]],
    kind: Kind,
) -> Result<(ObjectId, &'a [&'t [u8]]), Malformed>
    ensures parsed { IfOk result (λ r. IsNewId kind (texts fields.now) r.0 (texts r.1.now)) }
    ensures refused { IfErr result (λ _. (id : ObjectId) (rest : List (List ℕ)) →
        IsNewId kind (texts fields.now) id rest → ⊥) }
{
    let (field, rest) = next(fields)?;
    Ok((id_of(field, kind)?, rest))
}

/// `[OLD]`: an empty field is a missing one with NULs, and the null id in lines.
fn old_id(fields: &[&[u8]], format: Format, kind: Kind) -> Result<Option<ObjectId>, Malformed>
    ensures parsed { IfOk result (IsOldId format kind (texts fields.now)) }
    ensures refused { IfErr result (λ _. (old : Option ObjectId) →
        IsOldId format kind (texts fields.now) old → ⊥) }
{
    if fields.is_empty() && format == Format::Lines {
        return Ok(None);
    }
    let (field, rest) = next(fields)?;
    end(rest)?;
    if field.is_empty() && format == Format::Nul {
        return Ok(None);
    }
    Ok(Some(id_of(field, kind)?))
}

/// `NEW-TARGET`, and the fields after it.
fn new_target<'a, 't>(fields: &'a [&'t [u8]]) -> Result<(&'t [u8], &'a [&'t [u8]]), Malformed>
    ensures parsed { IfOk result (λ r. IsTarget (texts fields.now) r.0.now (texts r.1.now)) }
    ensures refused { IfErr result (λ _. (target : List ℕ) (rest : List (List ℕ)) →
        IsTarget (texts fields.now) target rest → ⊥) }
{
    let (field, rest) = next(fields)?;
    if field.is_empty() {
        return Err(Malformed::NoField);
    }
    Ok((field, rest))
}

/// `[OLD-TARGET]`
fn old_name<'t>(fields: &[&'t [u8]], format: Format) -> Result<Option<&'t [u8]>, Malformed>
    ensures parsed { IfOk result
        (λ old. IsOldName format (texts fields.now) (option_map (λ name. name.now) old)) }
    ensures refused { IfErr result (λ _. (old : Option (List ℕ)) →
        IsOldName format (texts fields.now) old → ⊥) }
{
    if fields.is_empty() && format == Format::Lines {
        return Ok(None);
    }
    let (field, rest) = next(fields)?;
    end(rest)?;
    if field.is_empty() && format == Format::Nul {
        return Ok(None);
    }
    Ok(Some(field))
}

/// `[ref OLD-TARGET | oid OLD-OID]`: with NULs, two empty fields where it is missing.
fn old_target<'t>(
    fields: &[&'t [u8]],
    format: Format,
    kind: Kind,
) -> Result<Option<OldTarget<'t>>, Malformed>
    ensures parsed { IfOk result
        (λ old. IsOldTarget format kind (texts fields.now) (option_map old_target_of old)) }
    ensures refused { IfErr result (λ _. (old : Option OldAsk) →
        IsOldTarget format kind (texts fields.now) old → ⊥) }
{
    if fields.is_empty() && format == Format::Lines {
        return Ok(None);
    }
    let (word, rest) = next(fields)?;
    let (value, rest) = next(rest)?;
    end(rest)?;
    if format == Format::Nul && word.is_empty() && value.is_empty() {
        return Ok(None);
    }
    if word == b"ref".as_slice() {
        return Ok(Some(OldTarget::Name(value)));
    }
    if word == b"oid".as_slice() {
        return Ok(Some(OldTarget::Id(id_of(value, kind)?)));
    }
    Err(Malformed::Invalid)
}

/// `update REF NEW [OLD]`, after REF.
fn update_of(fields: &[&[u8]], format: Format, kind: Kind) -> Result<Asked<'static>, Malformed>
    ensures parsed { IfOk result
        (λ asked. IsAsk format kind (codes "update") (texts fields.now) (ask_of asked)) }
    ensures refused { IfErr result (λ _. IsNoAsk format kind (codes "update") (texts fields.now)) }
{
    let (new, rest) = new_id(fields, kind)?;
    let old = old_id(rest, format, kind)?;
    Ok(Asked::Update { new, old })
}

/// `create REF NEW`, after REF.
fn create_of(fields: &[&[u8]], format: Format, kind: Kind) -> Result<Asked<'static>, Malformed>
    ensures parsed { IfOk result
        (λ asked. IsAsk format kind (codes "create") (texts fields.now) (ask_of asked)) }
    ensures refused { IfErr result (λ _. IsNoAsk format kind (codes "create") (texts fields.now)) }
{
    let (new, rest) = new_id(fields, kind)?;
    end(rest)?;
    if new == kind.null() {
        return Err(Malformed::Zero);
    }
    Ok(Asked::Create { new })
}

/// `delete REF [OLD]`, after REF.
fn delete_of(fields: &[&[u8]], format: Format, kind: Kind) -> Result<Asked<'static>, Malformed>
    ensures parsed { IfOk result
        (λ asked. IsAsk format kind (codes "delete") (texts fields.now) (ask_of asked)) }
    ensures refused { IfErr result (λ _. IsNoAsk format kind (codes "delete") (texts fields.now)) }
{
    let old = old_id(fields, format, kind)?;
    if let Some(id) = old {
        if id == kind.null() {
            return Err(Malformed::Zero);
        }
    }
    Ok(Asked::Delete { old })
}

/// `verify REF [OLD]`, after REF.
fn verify_of(fields: &[&[u8]], format: Format, kind: Kind) -> Result<Asked<'static>, Malformed>
    ensures parsed { IfOk result
        (λ asked. IsAsk format kind (codes "verify") (texts fields.now) (ask_of asked)) }
    ensures refused { IfErr result (λ _. IsNoAsk format kind (codes "verify") (texts fields.now)) }
{
    Ok(Asked::Verify {
        old: old_id(fields, format, kind)?,
    })
}

/// `symref-update REF NEW-TARGET [ref OLD-TARGET | oid OLD-OID]`, after REF.
fn symref_update_of<'t>(
    fields: &[&'t [u8]],
    format: Format,
    kind: Kind,
) -> Result<Asked<'t>, Malformed>
    ensures parsed { IfOk result
        (λ asked. IsAsk format kind (codes "symref-update") (texts fields.now) (ask_of asked)) }
    ensures refused { IfErr result
        (λ _. IsNoAsk format kind (codes "symref-update") (texts fields.now)) }
{
    let (target, rest) = new_target(fields)?;
    let old = old_target(rest, format, kind)?;
    Ok(Asked::SymrefUpdate { target, old })
}

/// `symref-create REF NEW-TARGET`, after REF.
fn symref_create_of<'t>(
    fields: &[&'t [u8]],
    format: Format,
    kind: Kind,
) -> Result<Asked<'t>, Malformed>
    ensures parsed { IfOk result
        (λ asked. IsAsk format kind (codes "symref-create") (texts fields.now) (ask_of asked)) }
    ensures refused { IfErr result
        (λ _. IsNoAsk format kind (codes "symref-create") (texts fields.now)) }
{
    let (target, rest) = new_target(fields)?;
    end(rest)?;
    Ok(Asked::SymrefCreate { target })
}

/// `symref-delete REF [OLD-TARGET]`, after REF.
fn symref_delete_of<'t>(
    fields: &[&'t [u8]],
    format: Format,
    kind: Kind,
) -> Result<Asked<'t>, Malformed>
    ensures parsed { IfOk result
        (λ asked. IsAsk format kind (codes "symref-delete") (texts fields.now) (ask_of asked)) }
    ensures refused { IfErr result
        (λ _. IsNoAsk format kind (codes "symref-delete") (texts fields.now)) }
{
    Ok(Asked::SymrefDelete {
        old: old_name(fields, format)?,
    })
}

/// `symref-verify REF [OLD-TARGET]`, after REF.
fn symref_verify_of<'t>(
    fields: &[&'t [u8]],
    format: Format,
    kind: Kind,
) -> Result<Asked<'t>, Malformed>
    ensures parsed { IfOk result
        (λ asked. IsAsk format kind (codes "symref-verify") (texts fields.now) (ask_of asked)) }
    ensures refused { IfErr result
        (λ _. IsNoAsk format kind (codes "symref-verify") (texts fields.now)) }
{
    Ok(Asked::SymrefVerify {
        old: old_name(fields, format)?,
    })
}

/// What a verb for symbolic references asks with these fields.
fn symref_of<'t>(
    verb: &[u8],
    fields: &[&'t [u8]],
    format: Format,
    kind: Kind,
) -> Result<Asked<'t>, Malformed>
    ensures parsed { IfOk result
        (λ asked. IsAsk format kind verb.now (texts fields.now) (ask_of asked)) }
    ensures refused { IfErr result (λ _. (ask : Ask) → IsSymbolic ask →
        IsAsk format kind verb.now (texts fields.now) ask → ⊥) }
{
    if verb == b"symref-update".as_slice() {
        return symref_update_of(fields, format, kind);
    }
    if verb == b"symref-create".as_slice() {
        return symref_create_of(fields, format, kind);
    }
    if verb == b"symref-delete".as_slice() {
        return symref_delete_of(fields, format, kind);
    }
    if verb == b"symref-verify".as_slice() {
        return symref_verify_of(fields, format, kind);
    }
    Err(Malformed::Unknown)
}

/// What a verb asks with these fields.
fn asked_of<'t>(
    verb: &[u8],
    fields: &[&'t [u8]],
    format: Format,
    kind: Kind,
) -> Result<Asked<'t>, Malformed>
    ensures parsed { IfOk result
        (λ asked. IsAsk format kind verb.now (texts fields.now) (ask_of asked)) }
    ensures refused { IfErr result (λ _. IsNoAsk format kind verb.now (texts fields.now)) }
{
    if verb == b"update".as_slice() {
        return update_of(fields, format, kind);
    }
    if verb == b"create".as_slice() {
        return create_of(fields, format, kind);
    }
    if verb == b"delete".as_slice() {
        return delete_of(fields, format, kind);
    }
    if verb == b"verify".as_slice() {
        return verify_of(fields, format, kind);
    }
    symref_of(verb, fields, format, kind)
}

/// The verb, the name and the fields after it: with NULs the first word has both, parted by a space.
fn verb_and_name<'a, 't>(
    words: &'a [&'t [u8]],
    format: Format,
) -> Result<(&'t [u8], &'t [u8], &'a [&'t [u8]]), Malformed>
    ensures parsed { IfOk result
        (λ r. IsVerbAndName format (texts words.now) r.0.now r.1.now (texts r.2.now)) }
    ensures first_space { IfOk result (λ r. format ≡ Format.Nul → NoByte 32 r.0.now) }
    ensures refused { IfErr result (λ _. (verb name : List ℕ) (fields : List (List ℕ)) →
        IsVerbAndName format (texts words.now) verb name fields → ⊥) }
{
    let (first, rest) = next(words)?;
    match format {
        Format::Nul => match cut(first, b' ') {
            Some((verb, name)) => Ok((verb, name, rest)),
            None => Err(Malformed::Unknown),
        },
        Format::Lines => {
            let (name, rest) = next(rest)?;
            Ok((first, name, rest))
        }
    }
}

/// A command that asks something of a reference.
fn edit_of<'t>(words: &[&'t [u8]], format: Format, kind: Kind) -> Result<Command<'t>, Malformed>
    ensures parsed { IfOk result
        (λ command. IsCommand format kind (texts words.now) (heard_of command)) }
    ensures refused { IfErr result (λ _. (name : List ℕ) (ask : Ask) →
        IsCommand format kind (texts words.now) (Edit name ask) → ⊥) }
{
    let (verb, name, fields) = verb_and_name(words, format)?;
    if name.is_empty() {
        return Err(Malformed::NoName);
    }
    let asked = asked_of(verb, fields, format, kind)?;
    Ok(Command::Edit { name, asked })
}

/// The words after the first, if that is this one.
fn strip_word<'a, 't>(words: &'a [&'t [u8]], word: &[u8]) -> Option<&'a [&'t [u8]]>
    ensures { MatchOption result ((rest : List (List ℕ)) → texts words.now ≢ word.now ∷ rest)
        (λ rest. texts words.now ≡ word.now ∷ texts rest.now) }
{
    let (first, rest) = words.split_first()?;
    if *first == word { Some(rest) } else { None }
}

/// `option no-deref` of a line.
fn line_option(words: &[&[u8]]) -> Option<()>
    ensures { MatchOption result (texts words.now ≢ no_deref_words Format.Lines)
        (λ _. texts words.now ≡ no_deref_words Format.Lines) }
{
    let rest = strip_word(words, b"option")?;
    let rest = strip_word(rest, b"no-deref")?;
    end(rest).ok()
}

/// `option no-deref` with NULs.
fn nul_option(words: &[&[u8]]) -> Option<()>
    ensures { MatchOption result (texts words.now ≢ no_deref_words Format.Nul)
        (λ _. texts words.now ≡ no_deref_words Format.Nul) }
{
    let rest = strip_word(words, b"option no-deref")?;
    end(rest).ok()
}

/// `option no-deref`.
fn no_deref(words: &[&[u8]], format: Format) -> Option<()>
    ensures { MatchOption result (texts words.now ≢ no_deref_words format)
        (λ _. texts words.now ≡ no_deref_words format) }
{
    match format {
        Format::Lines => line_option(words),
        Format::Nul => nul_option(words),
    }
}

/// The command that one word is.
fn word_of(word: &[u8]) -> Result<Command<'static>, Malformed>
    ensures parsed { IfOk result (λ command. IsWord word.now (heard_of command)) }
    ensures refused { IfErr result (λ _. (heard : Heard) → IsWord word.now heard → ⊥) }
{
    if word == b"start".as_slice() {
        return Ok(Command::Start);
    }
    if word == b"prepare".as_slice() {
        return Ok(Command::Prepare);
    }
    if word == b"commit".as_slice() {
        return Ok(Command::Commit);
    }
    if word == b"abort".as_slice() {
        return Ok(Command::Abort);
    }
    Err(Malformed::Unknown)
}

/// The command that words are, if they are one word.
fn one_word(words: &[&[u8]]) -> Result<Command<'static>, Malformed>
    ensures parsed { IfOk result (λ command. IsOneWord (texts words.now) (heard_of command)) }
    ensures refused { IfErr result (λ _. (heard : Heard) → IsOneWord (texts words.now) heard → ⊥) }
{
    let (first, rest) = next(words)?;
    end(rest)?;
    word_of(first)
}

/// The command that these words are.
pub(crate) fn parse<'t>(
    words: &[&'t [u8]],
    format: Format,
    kind: Kind,
) -> Result<Command<'t>, Malformed>
    ensures parsed { IfOk result
        (λ command. IsCommand format kind (texts words.now) (heard_of command)) }
    ensures refused { IfErr result (λ _. IsNoCommand format kind (texts words.now)) }
{
    if no_deref(words, format).is_some() {
        return Ok(Command::NoDeref);
    }
    if let Ok(command) = one_word(words) {
        return Ok(command);
    }
    edit_of(words, format, kind)
}
