//! The words of the program: `GITDIR [-z] [--sha256] [--namespace NAME] [--as SIGNATURE] [-m MESSAGE] [--create-reflog]
//! [--without-syncs] [--lock-timeout MS] [--packed-lock-timeout MS]`, in any order after GITDIR.
ghost use Rattle.std.specs.Prelude.{◌≡◌, None, true, false, MatchOption};
ghost use Rattle.gix_ref_session.specs.Commands.{texts};
ghost use Rattle.gix_ref_session.specs.Words.{IsFlag, IsNotValued, IsRead, IsUnreadable, IsValued, Options, TakesValue, flag_of, options_in, valued_of, with_flag};

use crate::input::Format;
use crate::session::Session;
use gix_ref_hash::hash::Kind;
use gix_ref_log::actor::SignatureRef;
use gix_ref_queries::argument::{count, is_option};

/// The words of the program.
#[derive(Clone, Copy)]
pub struct Line<'w> {
    /// The git folder, which is the common folder too.
    pub dir: &'w [u8],
    /// The NAME of `--namespace`.
    pub namespace: Option<&'w [u8]>,
    /// Whether nothing is synced.
    pub without_syncs: bool,
    /// What the other words say.
    pub session: Session<'w>,
}

/// The words after GITDIR that no option has.
#[derive(Clone, Copy)]
pub struct Parsed<'a, 'w> {
    pub line: Line<'w>,
    pub rest: &'a [&'w [u8]],
}

/// An option without a value.
#[derive(Clone, Copy)]
pub enum Flag {
    /// `-z`
    Nul,
    /// `--sha256`
    Sha256,
    /// `--create-reflog`
    CreateReflog,
    /// `--without-syncs`
    WithoutSyncs,
}

/// An option with a value.
#[derive(Clone, Copy)]
pub enum Valued {
    /// `--namespace NAME`
    Namespace,
    /// `--as SIGNATURE`
    Committer,
    /// `-m MESSAGE` or `--message MESSAGE`
    Message,
    /// `--lock-timeout MS`
    LockTimeout,
    /// `--packed-lock-timeout MS`
    PackedLockTimeout,
}

/// How long the lock of a reference is waited for, in milliseconds (`core.filesRefLockTimeout`).
const LOCK_TIMEOUT: u32 = 100;

/// How long that of `packed-refs` is (`core.packedRefsTimeout`).
const PACKED_LOCK_TIMEOUT: u32 = 1000;

/// The option without a value that a word is.
fn flag_of(word: &[u8]) -> Option<Flag>
    ensures { result ≡ flag_of word.now }
{
    if word == b"-z".as_slice() {
        return Some(Flag::Nul);
    }
    if word == b"--sha256".as_slice() {
        return Some(Flag::Sha256);
    }
    if word == b"--create-reflog".as_slice() {
        return Some(Flag::CreateReflog);
    }
    if word == b"--without-syncs".as_slice() {
        return Some(Flag::WithoutSyncs);
    }
    None
}

/// The option with a value that a word is.
fn valued_of(word: &[u8]) -> Option<Valued>
    ensures { result ≡ valued_of word.now }
{
    if word == b"--namespace".as_slice() {
        return Some(Valued::Namespace);
    }
    if word == b"--as".as_slice() {
        return Some(Valued::Committer);
    }
    if word == b"-m".as_slice() {
        return Some(Valued::Message);
    }
    if word == b"--message".as_slice() {
        return Some(Valued::Message);
    }
    if word == b"--lock-timeout".as_slice() {
        return Some(Valued::LockTimeout);
    }
    if word == b"--packed-lock-timeout".as_slice() {
        return Some(Valued::PackedLockTimeout);
    }
    None
}

/// Sets an option without a value.
fn set_flag(line: &mut Line<'_>, flag: Flag)
    ensures options { options_in line.new ≡ with_flag flag (options_in line.old) }
    ensures dir { line.new.dir ≡ line.old.dir }
{
    match flag {
        Flag::Nul => line.session.format = Format::Nul,
        Flag::Sha256 => line.session.object_hash = Kind::Sha256,
        Flag::CreateReflog => line.session.create_reflog = true,
        Flag::WithoutSyncs => line.without_syncs = true,
    }
}

/// Sets an option to its value; `None` where the value is wrong.
fn set_value<'w>(line: &mut Line<'w>, option: Valued, value: &'w [u8]) -> Option<()>
    ensures options { MatchOption result
        ((new : Options) → TakesValue option value.now (options_in line.old) new → ⊥)
        (λ _. TakesValue option value.now (options_in line.old) (options_in line.new)) }
    ensures dir { line.new.dir ≡ line.old.dir }
{
    match option {
        Valued::Namespace => line.namespace = Some(value),
        Valued::Committer => match SignatureRef::decode(value) {
            Some(committer) => line.session.committer = Some(committer),
            None => return None,
        },
        Valued::Message => line.session.message = value,
        Valued::LockTimeout => match count(value) {
            Some(count) => line.session.lock_timeout = count,
            None => return None,
        },
        Valued::PackedLockTimeout => match count(value) {
            Some(count) => line.session.packed_lock_timeout = count,
            None => return None,
        },
    }
    Some(())
}

/// Takes an option without a value; false for another word.
fn take_flag(line: &mut Line<'_>, word: &[u8]) -> bool
    ensures taken { result ≡ true → IsFlag word.now (options_in line.old) (options_in line.new) }
    ensures not_taken { result ≡ false → (flag_of word.now ≡ None) × (line.new ≡ line.old) }
    ensures dir { line.new.dir ≡ line.old.dir }
{
    match flag_of(word) {
        Some(flag) => {
            set_flag(line, flag);
            true
        }
        None => false,
    }
}

/// Takes an option with its value; `None` for another word, and for a value that is wrong.
fn take_value<'w>(line: &mut Line<'w>, word: &[u8], value: &'w [u8]) -> Option<()>
    ensures taken { flag_of word.now ≡ None → MatchOption result
        (IsNotValued word.now value.now (options_in line.old))
        (λ _. IsValued word.now value.now (options_in line.old) (options_in line.new)) }
    ensures dir { line.new.dir ≡ line.old.dir }
{
    match valued_of(word) {
        Some(option) => set_value(line, option, value),
        None => None,
    }
}

/// The line of these words: its options, up to the first word that is none; `None` where they are wrong.
pub fn parse<'a, 'w>(words: &'a [&'w [u8]]) -> Option<Parsed<'a, 'w>>
    ensures { MatchOption result (IsUnreadable (texts words.now)) (IsRead (texts words.now)) }
{
    let (dir, words) = words.split_first()?;
    let mut line = Line {
        dir: *dir,
        namespace: None,
        without_syncs: false,
        session: Session {
            format: Format::Lines,
            object_hash: Kind::Sha1,
            committer: None,
            message: b"",
            create_reflog: false,
            lock_timeout: LOCK_TIMEOUT,
            packed_lock_timeout: PACKED_LOCK_TIMEOUT,
        },
    };
    let mut rest = words;
    while let Some((word, after)) = rest.split_first() {
        if !is_option(word) {
            break;
        }
        rest = after;
        if !take_flag(&mut line, word) {
            let (value, after) = rest.split_first()?;
            take_value(&mut line, word, value)?;
            rest = after;
        }
    }
    Some(Parsed { line, rest })
}
