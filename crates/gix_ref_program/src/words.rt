//! The words of the program: `DIR [--sha256] [--namespace NAME] [--as SIGNATURE] [--message TEXT] COMMAND`, where a command
//! is `update [--deref] NAME ID [OLD]`, `symbolic NAME TARGET`, `delete [--deref] NAME [OLD]`, `show NAME`, `list [PREFIX]`,
//! `log NAME` or `script FILE`.
ghost use Rattle.std.specs.Prelude.{◌≡◌, ◌++◌, ℕ, List, MatchOption, MatchResult, Option, codes, ◌∷◌, [], false};
ghost use Rattle.gix_ref_hash.specs.declared.hash.ObjectId.{ObjectId};
ghost use Rattle.gix_ref_program.specs.Words.{Asked, LineAsked as AskedLine, texts, text_given, who_given, first_is, IsOldWord, IsNoUpdate, IsNoDeletion, IsCommand, prefix_words, deref_words, IsOption, IsSigned, IsNoSignature, AreWordsOf, kind_words, command_asked, line_asked};

use gix_ref_hash::hash::{Kind, ObjectId};
use gix_ref_log::actor::SignatureRef;

/// What a line asks for.
#[derive(Clone, Copy)]
pub enum Command<'w> {
    /// `update [--deref] NAME ID [OLD]`
    Update {
        deref: bool,
        name: &'w [u8],
        id: ObjectId,
        old: Option<ObjectId>,
    },
    /// `symbolic NAME TARGET`
    Symbolic {
        name: &'w [u8],
        target: &'w [u8],
    },
    /// `delete [--deref] NAME [OLD]`
    Delete {
        deref: bool,
        name: &'w [u8],
        old: Option<ObjectId>,
    },
    /// `show NAME`
    Show {
        name: &'w [u8],
    },
    /// `list [PREFIX]`
    List {
        prefix: Option<&'w [u8]>,
    },
    /// `log NAME`
    Log {
        name: &'w [u8],
    },
    /// `script FILE`
    Script {
        path: &'w [u8],
    },
}

impl<'w> Command<'w> {
    ghost use Rattle.std.specs.Prelude.{MatchBool};
    ghost use Rattle.gix_ref_program.specs.Words.{IsWrite, command_asked};

    /// Whether it writes by itself, so that it may stand in a script.
    pub(crate) fn writes(&self) -> bool
        ensures { MatchBool result (IsWrite (command_asked self.now))
            (IsWrite (command_asked self.now) → ⊥) }
    {
        match self {
            Command::Update { .. } | Command::Symbolic { .. } | Command::Delete { .. } => true,
            Command::Show { .. }
            | Command::List { .. }
            | Command::Log { .. }
            | Command::Script { .. } => false,
        }
    }
}

/// The words of a line.
#[derive(Clone, Copy)]
pub struct Line<'w> {
    /// The git folder, which is the common folder too.
    pub dir: &'w [u8],
    /// The kind of the store's ids: SHA-256 with `--sha256`.
    pub object_hash: Kind,
    /// The NAME of `--namespace`.
    pub namespace: Option<&'w [u8]>,
    /// The SIGNATURE of `--as`.
    pub committer: Option<SignatureRef<'w>>,
    /// The TEXT of `--message`.
    pub message: Option<&'w [u8]>,
    pub command: Command<'w>,
}

/// Words that are not a command line.
#[derive(Drop)]
struct WrongWords;

/// The words after the first, if that is this one.
fn strip_word<'a, 'w>(words: &'a [&'w [u8]], word: &[u8]) -> Option<&'a [&'w [u8]]>
    ensures { MatchOption result (first_is (texts words.now) word.now ≡ false)
        (λ rest. texts words.now ≡ word.now ∷ texts rest.now) }
{
    match words.split_first() {
        Some((first, rest)) if *first == word => Some(rest),
        _ => None,
    }
}

/// `[OLD]`, and an error for other words.
fn old_of(words: &[&[u8]]) -> Result<Option<ObjectId>, WrongWords>
    ensures { MatchResult result (IsOldWord (texts words.now))
        (λ _. (old : Option ObjectId) → IsOldWord (texts words.now) old → ⊥) }
{
    let Some((digits, rest)) = words.split_first() else {
        return Ok(None);
    };
    if !rest.is_empty() {
        return Err(WrongWords);
    }
    match ObjectId::from_hex(digits) {
        Some(id) => Ok(Some(id)),
        None => Err(WrongWords),
    }
}

/// `[--deref]`, and the words after it.
fn deref_of<'a, 'w>(words: &'a [&'w [u8]]) -> (bool, &'a [&'w [u8]])
    ensures words { texts words.now ≡ deref_words result.0 ++ texts result.1.now }
    ensures option { result.0 ≡ false → first_is (texts words.now) (codes "--deref") ≡ false }
{
    match strip_word(words, b"--deref") {
        Some(rest) => (true, rest),
        None => (false, words),
    }
}

/// `NAME ID [OLD]` after `[--deref]`, where NAME is not that option.
fn update_of<'w>(deref: bool, words: &[&'w [u8]]) -> Option<Command<'w>>
    ensures { MatchOption result (IsNoUpdate (texts words.now)) (λ command. IsCommand
        (codes "update" ∷ (deref_words deref ++ texts words.now)) (command_asked command)) }
{
    let (name, rest) = words.split_first()?;
    let name = *name;
    if name == b"--deref".as_slice() {
        return None;
    }
    let (digits, rest) = rest.split_first()?;
    let id = ObjectId::from_hex(digits)?;
    let old = old_of(rest).ok()?;
    Some(Command::Update {
        deref,
        name,
        id,
        old,
    })
}

/// `NAME [OLD]` after `[--deref]`, where NAME is not that option.
fn deletion_of<'w>(deref: bool, words: &[&'w [u8]]) -> Option<Command<'w>>
    ensures { MatchOption result (IsNoDeletion (texts words.now)) (λ command. IsCommand
        (codes "delete" ∷ (deref_words deref ++ texts words.now)) (command_asked command)) }
{
    let (name, rest) = words.split_first()?;
    let name = *name;
    if name == b"--deref".as_slice() {
        return None;
    }
    let old = old_of(rest).ok()?;
    Some(Command::Delete { deref, name, old })
}

/// `NAME`.
fn name_of<'w>(words: &[&'w [u8]]) -> Option<&'w [u8]>
    ensures { MatchOption result ((name : List ℕ) → texts words.now ≡ name ∷ [] → ⊥)
        (λ name. texts words.now ≡ name.now ∷ []) }
{
    let (name, rest) = words.split_first()?;
    if !rest.is_empty() {
        return None;
    }
    Some(*name)
}

/// `NAME TARGET`.
fn names_of<'w>(words: &[&'w [u8]]) -> Option<(&'w [u8], &'w [u8])>
    ensures { MatchOption result ((name target : List ℕ) → texts words.now ≡ name ∷ (target ∷ []) →
        ⊥) (λ names. texts words.now ≡ names.0.now ∷ (names.1.now ∷ [])) }
{
    let (name, rest) = words.split_first()?;
    let target = name_of(rest)?;
    Some((*name, target))
}

/// `[PREFIX]`, and an error for other words.
fn prefix_of<'w>(words: &[&'w [u8]]) -> Result<Option<&'w [u8]>, WrongWords>
    ensures { MatchResult result (λ prefix. texts words.now ≡ prefix_words (text_given prefix))
        (λ _. (prefix : Option (List ℕ)) → texts words.now ≡ prefix_words prefix → ⊥) }
{
    let Some((prefix, rest)) = words.split_first() else {
        return Ok(None);
    };
    if !rest.is_empty() {
        return Err(WrongWords);
    }
    Ok(Some(*prefix))
}

/// The command of these words.
pub(crate) fn command_of<'w>(words: &[&'w [u8]]) -> Option<Command<'w>>
    ensures { MatchOption result ((asked : Asked) → IsCommand (texts words.now) asked → ⊥)
        (λ command. IsCommand (texts words.now) (command_asked command)) }
{
    if let Some(rest) = strip_word(words, b"update") {
        let (deref, rest) = deref_of(rest);
        return update_of(deref, rest);
    }
    if let Some(rest) = strip_word(words, b"symbolic") {
        let (name, target) = names_of(rest)?;
        return Some(Command::Symbolic { name, target });
    }
    if let Some(rest) = strip_word(words, b"delete") {
        let (deref, rest) = deref_of(rest);
        return deletion_of(deref, rest);
    }
    if let Some(rest) = strip_word(words, b"log") {
        return Some(Command::Log {
            name: name_of(rest)?,
        });
    }
    if let Some(rest) = strip_word(words, b"list") {
        return Some(Command::List {
            prefix: prefix_of(rest).ok()?,
        });
    }
    if let Some(rest) = strip_word(words, b"script") {
        return Some(Command::Script {
            path: name_of(rest)?,
        });
    }
    let rest = strip_word(words, b"show")?;
    Some(Command::Show {
        name: name_of(rest)?,
    })
}

/// `[OPTION VALUE]`: the value, if the option comes first, and the words after it; `None` for an option alone.
fn value_of<'a, 'w>(
    words: &'a [&'w [u8]],
    option: &[u8],
) -> Option<(Option<&'w [u8]>, &'a [&'w [u8]])>
    ensures { MatchOption result (texts words.now ≡ option.now ∷ []) (λ r. IsOption option.now
        (texts words.now) (text_given r.0) (texts r.1.now)) }
{
    let Some(rest) = strip_word(words, option) else {
        return Some((None, words));
    };
    let (value, rest) = rest.split_first()?;
    Some((Some(*value), rest))
}

/// The committer whose signature this text is, and an error for a text that is no signature.
fn committer_of(signature: Option<&[u8]>) -> Result<Option<SignatureRef<'_>>, WrongWords>
    ensures { MatchResult result
        (λ committer. IsSigned (text_given signature.entry) (who_given committer))
        (λ _. IsNoSignature (text_given signature.entry)) }
{
    let Some(text) = signature else {
        return Ok(None);
    };
    match SignatureRef::decode(text) {
        Some(committer) => Ok(Some(committer)),
        None => Err(WrongWords),
    }
}

/// The kind of ids, and the words after the option for it.
fn kind_of<'a, 'w>(words: &'a [&'w [u8]]) -> (Kind, &'a [&'w [u8]])
    ensures words { texts words.now ≡ kind_words result.0 ++ texts result.1.now }
    ensures option { result.0 ≡ Kind.Sha1 → first_is (texts words.now) (codes "--sha256") ≡ false }
{
    match strip_word(words, b"--sha256") {
        Some(rest) => (Kind::Sha256, rest),
        None => (Kind::Sha1, words),
    }
}

/// The line of these words; `None` where they are wrong. An ID and an OLD have 40 or 64 hex digits, and a SIGNATURE is
/// one; the names are not looked at. Takes no memory, and looks at each word a few times.
pub fn parse<'w>(words: &[&'w [u8]]) -> Option<Line<'w>>
    ensures { MatchOption result ((line : AskedLine) → AreWordsOf (texts words.now) line → ⊥)
        (λ line. AreWordsOf (texts words.now) (line_asked line)) }
{
    let (dir, rest) = words.split_first()?;
    let (object_hash, rest) = kind_of(rest);
    let (namespace, rest) = value_of(rest, b"--namespace")?;
    let (signature, rest) = value_of(rest, b"--as")?;
    let (message, rest) = value_of(rest, b"--message")?;
    let Ok(committer) = committer_of(signature) else {
        return None;
    };
    let command = command_of(rest)?;
    Some(Line {
        dir,
        object_hash,
        namespace,
        committer,
        message,
        command,
    })
}
