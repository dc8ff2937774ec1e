//! Edits, as a case writes them and as they are printed.
//!
//! - `update NAME TARGET [OPTION ..]`, where TARGET is the hex digits of an id, or `ref:` and a name
//! - `delete NAME [OPTION ..]`
//!
//! The options: `deref` follows symbolic references; `log-only` edits the log alone; `force-log` makes a log; `exists`, `absent`,
//! `is TARGET` and `absent-or TARGET` are what is expected of the old value; `message TEXT` is the last, to the end of the line.
use crate::texts::{Texts, split};
use anyhow::{Context, Result, bail};
use bstr::ByteSlice;
use gix_ref_edits::transaction::{Change, LogChange, PreviousValue, RefEdit, RefLog};
use gix_ref_hash::hash::ObjectId;
use gix_ref_name::name::{FullName, FullNameRef};
use gix_ref_target::target::Target;
use std::alloc::Global;

/// The options of an edit.
#[derive(Drop)]
struct Options {
    deref: bool,
    log: LogChange,
    expected: PreviousValue,
}

/// The full name of a word.
pub fn full_name(alloc: Global, texts: &Texts, word: &str) -> Result<FullName> {
    let text = texts.text(word)?;
    let name = FullNameRef::try_from(text.as_slice()).context("a full name")?;
    Ok(name.to_owned(alloc)?)
}

/// The target of a word.
fn target(alloc: Global, texts: &Texts, word: &str) -> Result<Target> {
    if let Some(name) = word.strip_prefix("ref:") {
        return Ok(Target::Symbolic(full_name(alloc, texts, name)?));
    }
    let digits = texts.text(word)?;
    Ok(Target::Object(ObjectId::from_hex(digits.as_slice()).context("an id")?))
}

/// Takes one option, and hands back what is after it.
fn take<'l>(alloc: Global, texts: &Texts, options: &mut Options, line: &'l str) -> Result<&'l str> {
    let (word, rest) = split(line);
    match word {
        "deref" => options.deref = true,
        "log-only" => options.log.mode = RefLog::Only,
        "force-log" => options.log.force_create_reflog = true,
        "exists" => options.expected = PreviousValue::MustExist,
        "absent" => options.expected = PreviousValue::MustNotExist,
        "message" => {
            options.log.message = texts.text(rest)?;
            return Ok("");
        }
        "is" | "absent-or" => {
            let (value, after) = split(rest);
            let value = target(alloc, texts, value)?;
            options.expected = if word == "is" {
                PreviousValue::MustExistAndMatch(value)
            } else {
                PreviousValue::ExistingMustMatch(value)
            };
            return Ok(after);
        }
        _ => bail!("no option of an edit: {line}"),
    }
    Ok(rest)
}

/// The options of these words, of which there are at most five.
fn options_of(alloc: Global, texts: &Texts, line: &str) -> Result<Options> {
    let mut options = Options {
        deref: false,
        log: LogChange::new_in(alloc),
        expected: PreviousValue::Any,
    };
    let mut rest = line;
    for _ in 0..6u8 {
        if rest.is_empty() {
            return Ok(options);
        }
        rest = take(alloc, texts, &mut options, rest)?;
    }
    bail!("too many options")
}

/// The edit of a line after the word `update`.
pub fn update(alloc: Global, texts: &Texts, line: &str) -> Result<RefEdit> {
    let (name, rest) = split(line);
    let (new, rest) = split(rest);
    let Options {
        deref,
        log,
        expected,
    } = options_of(alloc, texts, rest)?;
    Ok(RefEdit {
        change: Change::Update {
            log,
            expected,
            new: target(alloc, texts, new)?,
        },
        name: full_name(alloc, texts, name)?,
        deref,
    })
}

/// The edit of a line after the word `delete`.
pub fn deletion(alloc: Global, texts: &Texts, line: &str) -> Result<RefEdit> {
    let (name, rest) = split(line);
    let Options {
        deref,
        log,
        expected,
    } = options_of(alloc, texts, rest)?;
    Ok(RefEdit {
        change: Change::Delete {
            expected,
            log: log.mode,
        },
        name: full_name(alloc, texts, name)?,
        deref,
    })
}

/// A target as a word.
pub fn target_word(alloc: Global, target: &Target) -> Result<String> {
    Ok(match target {
        Target::Object(id) => format!(in alloc; "{id}")?,
        Target::Symbolic(name) => format!(in alloc; "ref:{name}")?,
    })
}

/// What an edit expects, as words with a space before each.
fn expected_words(alloc: Global, expected: &PreviousValue) -> Result<String> {
    Ok(match expected {
        PreviousValue::Any => String::new(alloc),
        PreviousValue::MustExist => " exists".to_string(alloc)?,
        PreviousValue::MustNotExist => " absent".to_string(alloc)?,
        PreviousValue::MustExistAndMatch(target) => format!(in alloc;
            " is {}",
            target_word(alloc, target)?
        )?,
        PreviousValue::ExistingMustMatch(target) => format!(in alloc;
            " absent-or {}",
            target_word(alloc, target)?
        )?,
    })
}

/// Adds the words of how an edit changes the reference and its log.
fn push_log(line: &mut Vec<u8>, deref: bool, mode: RefLog, force: bool) -> Result<()> {
    if deref {
        line.extend_from_slice(b" deref")?;
    }
    if mode == RefLog::Only {
        line.extend_from_slice(b" log-only")?;
    }
    if force {
        line.extend_from_slice(b" force-log")?;
    }
    Ok(())
}

/// The line of an edit, with each of its fields.
pub fn edit_line(alloc: Global, edit: &RefEdit) -> Result<Vec<u8>> {
    let mut line = Vec::new(alloc);
    match &edit.change {
        Change::Update { log, expected, new } => {
            line.extend_from_slice(b"update ")?;
            line.extend_from_slice(edit.name.as_bstr().as_bytes())?;
            line.extend_from_slice(b" ")?;
            line.extend_from_slice(target_word(alloc, new)?.as_bytes())?;
            push_log(&mut line, edit.deref, log.mode, log.force_create_reflog)?;
            line.extend_from_slice(expected_words(alloc, expected)?.as_bytes())?;
            if !log.message.is_empty() {
                line.extend_from_slice(b" message ")?;
                line.extend_from_slice(log.message.as_slice())?;
            }
        }
        Change::Delete { expected, log } => {
            line.extend_from_slice(b"delete ")?;
            line.extend_from_slice(edit.name.as_bstr().as_bytes())?;
            push_log(&mut line, edit.deref, *log, false)?;
            line.extend_from_slice(expected_words(alloc, expected)?.as_bytes())?;
        }
    }
    Ok(line)
}
