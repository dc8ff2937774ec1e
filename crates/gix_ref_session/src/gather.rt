//! The commands of a transaction, up to the one that ends them.
ghost use Rattle.std.specs.Prelude.{◌≡◌, ◌≢◌, ◌⊎◌, ◌++◌, ◌∷◌, ℕ, List, [], Bool, true, false, Option, IfOk, IfErr, OnOk, MatchBool};
ghost use Rattle.std.specs.Io.KnownBytes.{Appends};
ghost use Rattle.gix_ref_session.specs.Commands.{IsCommand, IsNoCommand, Start, ask_of, heard_of, texts};
ghost use Rattle.gix_ref_session.specs.Quotes.{ArePlain};
ghost use Rattle.gix_ref_session.specs.Edits.{IsNoEdit};
ghost use Rattle.gix_ref_session.specs.Gathering.{AddsAsked, CannotGoOn, GoesOn, HearsNext, IsGathered, IsHandled, IsMalformed, IsNotDone, IsStopped, IsReportOf, IsUnheard, IsUnsaid, StopsShort, as_gathering};
ghost use Rattle.gix_ref_session.specs.Input.{AreWords};
ghost use Rattle.gix_ref_session.specs.declared.fatal.Fatal.TheVariants.{Memory};

use crate::command::{Asked, Command, Malformed, parse, words_of};
use crate::edit::edit_of;
use crate::fatal::{Fatal, Text};
use crate::input::{Format, read_command};
use crate::quote::{has_quotes, lend, unquote_words};
use crate::session::Session;
use gix_ref_edits::transaction::RefEdit;
use std::alloc::{AllocError, Global};
use std::io::{BufRead, Write};

/// What ends the commands of a transaction.
#[derive(Clone, Copy, Debug, PartialEq, Eq)]
pub(crate) enum Closing {
    Prepare,
    Commit,
    Abort,
    /// The end of the input.
    End,
}

/// The buffers of a session.
#[derive(Drop)]
pub(crate) struct Texts {
    /// The text of a command.
    pub(crate) text: Vec<u8>,
    /// A field of one with NULs.
    pub(crate) field: Vec<u8>,
    /// Its words, where some were in quotes.
    pub(crate) plain: Vec<Vec<u8>>,
}

/// What was gathered of a transaction.
#[derive(Drop)]
pub(crate) struct Gathered {
    pub(crate) edits: Vec<RefEdit>,
    /// Whether `start` came.
    pub(crate) is_started: bool,
    /// Whether the next edit follows symbolic references.
    pub(crate) deref: bool,
}

/// Writes an answer, and hands it on at once.
pub(crate) fn say<W: Write>(out: &mut W, answer: &[u8]) -> Result<(), Fatal>
    ensures said { OnOk result (Appends (W.contents out.old) (W.contents out.new) answer.now) }
    ensures unsaid { IfErr result IsUnsaid }
{
    match out.write_all(answer) {
        Ok(()) => (),
        Err(error) => return Err(Fatal::Write(error)),
    }
    match out.flush() {
        Ok(()) => Ok(()),
        Err(error) => Err(Fatal::Write(error)),
    }
}

/// A text that is no command.
fn malformed(text: &[u8], why: Malformed, alloc: Global) -> Fatal
    ensures { IsStopped result ⊎ IsReportOf text.now result }
{
    let why = match text.first() {
        None => Malformed::Empty,
        Some(byte) if byte.is_ascii_whitespace() => Malformed::Whitespace,
        Some(_) => why,
    };
    match text.to_vec(alloc) {
        Ok(text) => Fatal::Malformed(Text {
            malformed: why,
            text,
        }),
        Err(_) => Fatal::Memory,
    }
}

/// The command that the words of a text are.
fn command_in<'t>(
    alloc: Global,
    session: &Session<'_>,
    text: &[u8],
    words: &[&'t [u8]],
) -> Result<Command<'t>, Fatal>
    ensures parsed { IfOk result (λ command. IsCommand session.now.format session.now.object_hash
        (texts words.now) (heard_of command)) }
    ensures fails { IfErr result (λ fatal. IsStopped fatal ⊎ (IsReportOf text.now fatal
        × IsNoCommand session.now.format session.now.object_hash (texts words.now))) }
{
    match parse(words, session.format, session.object_hash) {
        Ok(command) => Ok(command),
        Err(why) => Err(malformed(text, why, alloc)),
    }
}

/// The command that the words of a line are, of which one is in quotes.
fn quoted_command<'t>(
    alloc: Global,
    session: &Session<'_>,
    text: &[u8],
    words: &[&[u8]],
    plain: &'t mut Vec<Vec<u8>>,
) -> Result<Command<'t>, Fatal>
    ensures parsed { IfOk result (λ command. (plain : List (List ℕ))
        × ArePlain (texts words.now) plain
        × IsCommand session.now.format session.now.object_hash plain (heard_of command)) }
    ensures fails { IfErr result (λ fatal. IsStopped fatal ⊎ (IsReportOf text.now fatal
        × ((plain : List (List ℕ)) → ArePlain (texts words.now) plain →
        IsNoCommand session.now.format session.now.object_hash plain))) }
{
    if !unquote_words(alloc, words, plain)? {
        return Err(malformed(text, Malformed::Quoted, alloc));
    }
    let lent = lend(alloc, plain)?;
    command_in(alloc, session, text, &lent)
}

/// The command that the words of a line are.
fn line_command<'t>(
    alloc: Global,
    session: &Session<'_>,
    text: &[u8],
    words: &[&'t [u8]],
    plain: &'t mut Vec<Vec<u8>>,
) -> Result<Command<'t>, Fatal>
    ensures parsed { IfOk result (λ command. (plain : List (List ℕ))
        × ArePlain (texts words.now) plain
        × IsCommand session.now.format session.now.object_hash plain (heard_of command)) }
    ensures fails { IfErr result (λ fatal. IsStopped fatal ⊎ (IsReportOf text.now fatal
        × ((plain : List (List ℕ)) → ArePlain (texts words.now) plain →
        IsNoCommand session.now.format session.now.object_hash plain))) }
{
    if !has_quotes(words) {
        return command_in(alloc, session, text, words);
    }
    quoted_command(alloc, session, text, words, plain)
}

/// The command that a text is.
fn command_of<'t>(
    alloc: Global,
    session: &Session<'_>,
    text: &'t [u8],
    plain: &'t mut Vec<Vec<u8>>,
) -> Result<Command<'t>, Fatal>
    ensures parsed { IfOk result (λ command. (words : List (List ℕ))
        × AreWords session.now.format text.now words
        × IsCommand session.now.format session.now.object_hash words (heard_of command)) }
    ensures fails { IfErr result
        (λ fatal. IsStopped fatal ⊎ IsMalformed session.now text.now fatal) }
{
    let words = words_of(alloc, text, session.format)?;
    match session.format {
        Format::Nul => command_in(alloc, session, text, &words),
        Format::Lines => line_command(alloc, session, text, &words, plain),
    }
}

/// Reads a command; `None` at the end of the input.
pub(crate) fn next_command<'t, R: BufRead>(
    alloc: Global,
    session: &Session<'_>,
    input: &mut R,
    texts: &'t mut Texts,
) -> Result<Option<Command<'t>>, Fatal>
    ensures read { IfOk result
        (HearsNext session.now (R.remaining input.old) (R.remaining input.new)) }
    ensures fails { IfErr result
        (IsUnheard session.now (R.remaining input.old) (R.remaining input.new)) }
{
    let Texts { text, field, plain } = texts;
    if !read_command(input, session.format, field, text)? {
        return Ok(None);
    }
    match command_of(alloc, session, text, plain) {
        Ok(command) => Ok(Some(command)),
        Err(fatal) => Err(fatal),
    }
}

/// Adds an edit.
pub(crate) fn push_edit(edits: &mut Vec<RefEdit>, edit: RefEdit) -> Result<(), AllocError>
    ensures { OnOk result (edits.new.items ≡ edits.old.items ++ edit ∷ []) }
{
    edits.push(edit).map_err(AllocError::from)
}

/// Adds the edit that a command asks for; the next one follows symbolic references again.
fn add(
    alloc: Global,
    session: &Session<'_>,
    name: &[u8],
    asked: Asked<'_>,
    gathered: &mut Gathered,
) -> Result<(), Fatal>
    ensures added { IfOk result (λ _. AddsAsked session.now name.now (ask_of asked.entry)
        gathered.old gathered.new) }
    ensures fails { IfErr result (λ fatal. (fatal ≡ Memory)
        ⊎ IsNoEdit gathered.old.deref name.now (ask_of asked.entry) fatal) }
{
    let edit = edit_of(alloc, session, gathered.deref, name, asked)?;
    push_edit(&mut gathered.edits, edit)?;
    gathered.deref = true;
    Ok(())
}

/// Does what a command asks before the transaction is closed. `Some` where it ends the commands.
fn take<W: Write>(
    alloc: Global,
    session: &Session<'_>,
    command: Command<'_>,
    out: &mut W,
    gathered: &mut Gathered,
) -> Result<Option<Closing>, Fatal>
    ensures takes { (input rest : Option (List ℕ)) → IfOk result
        (IsHandled session.now (heard_of command.entry) input rest
        (W.contents out.old) (W.contents out.new) gathered.old gathered.new) }
    ensures unsaid { IfErr result
        (λ fatal. IsUnsaid fatal ⊎ Appends (W.contents out.old) (W.contents out.new) []) }
    ensures fails { (input output : Option (List ℕ)) (needs_start : Bool) → IfErr result
        (IsNotDone needs_start (heard_of command.entry) (as_gathering input output gathered.old)) }
{
    match command {
        Command::Start if gathered.is_started => Err(Fatal::Restarted),
        Command::Start => {
            gathered.is_started = true;
            say(out, b"start: ok\n")?;
            Ok(None)
        }
        Command::NoDeref => {
            gathered.deref = false;
            Ok(None)
        }
        Command::Edit { name, asked } => match add(alloc, session, name, asked, gathered) {
            Ok(()) => Ok(None),
            Err(fatal) => Err(fatal),
        },
        Command::Prepare => Ok(Some(Closing::Prepare)),
        Command::Commit => Ok(Some(Closing::Commit)),
        Command::Abort => Ok(Some(Closing::Abort)),
    }
}

/// Whether a command is `start`.
fn is_start(command: Command<'_>) -> bool
    ensures { MatchBool result (heard_of command.entry ≡ Start) (heard_of command.entry ≢ Start) }
{
    matches!(command, Command::Start)
}

/// Whether a command may come: where `start` is needed it comes first.
fn may_come(needs_start: bool, is_started: bool, command: Command<'_>) -> bool
    ensures { MatchBool result
        (needs_start ≡ true → (is_started ≡ true) ⊎ (heard_of command.entry ≡ Start))
        ((needs_start ≡ true) × (is_started ≡ false) × (heard_of command.entry ≢ Start)) }
{
    if !needs_start {
        return true;
    }
    if is_started {
        return true;
    }
    is_start(command)
}

/// Hears the next command. `Some` where it ends the commands of the transaction.
fn hear<R: BufRead, W: Write>(
    alloc: Global,
    session: &Session<'_>,
    needs_start: bool,
    input: &mut R,
    out: &mut W,
    texts: &mut Texts,
    gathered: &mut Gathered,
) -> Result<Option<Closing>, Fatal>
    ensures hears { IfOk result (GoesOn session.now needs_start
        (R.remaining input.old) (R.remaining input.new)
        (W.contents out.old) (W.contents out.new) gathered.old gathered.new) }
    ensures unsaid { IfErr result
        (λ fatal. IsUnsaid fatal ⊎ Appends (W.contents out.old) (W.contents out.new) []) }
    ensures fails { IfErr result (CannotGoOn session.now needs_start
        (as_gathering (R.remaining input.old) (W.contents out.old) gathered.old)
        (R.remaining input.new)) }
{
    match next_command(alloc, session, input, texts) {
        Err(fatal) => Err(fatal),
        Ok(None) => Ok(Some(Closing::End)),
        Ok(Some(command)) => {
            if !may_come(needs_start, gathered.is_started, command) {
                return Err(Fatal::Closed);
            }
            take(alloc, session, command, out, gathered)
        }
    }
}

/// Hears the commands of a transaction, up to the one that ends them. Where one was closed before it, only `start` begins it.
pub(crate) fn gather<R: BufRead, W: Write>(
    alloc: Global,
    session: &Session<'_>,
    needs_start: bool,
    input: &mut R,
    out: &mut W,
    texts: &mut Texts,
) -> Result<(Gathered, Closing), Fatal>
    ensures gathered { IfOk result (λ r. IsGathered session.now needs_start r.1
        (R.remaining input.old) (W.contents out.old) (R.remaining input.new) (W.contents out.new)
        r.0) }
    ensures fails { IfErr result (StopsShort session.now needs_start (R.remaining input.old)
        (R.remaining input.new) (W.contents out.old) (W.contents out.new)) }
{
    let mut gathered = Gathered {
        edits: Vec::new(alloc),
        is_started: false,
        deref: true,
    };
    'commands: for _ in 0..u64::MAX {
        match hear(
            alloc,
            session,
            needs_start,
            input,
            out,
            texts,
            &mut gathered,
        ) {
            Ok(Some(closing)) => return Ok((gathered, closing)),
            Ok(None) => (),
            Err(fatal) => return Err(fatal),
        }
    }
    Err(Fatal::Memory)
}
