//! The verbs of formats, which look at no file but `packed-refs`.
//!
//! - `loose TEXT`: the target of a loose file
//! - `header TEXT`, `record TEXT`, `records TEXT`, `open TEXT`: a header, the first record, all records, and `packed-refs` as it is held
//! - `record-start OFFSET TEXT`, `name-at TEXT`: where the record of a byte begins, and the name in a record
//! - `buffer-find NAME`, `buffer-list [PREFIX]`: a record by a partial name, and records by a prefix, in the file `packed-refs`
//! - `log-line TEXT`, `signature TEXT`, `sign NAME|EMAIL|SECONDS|OFFSET`: a line of a log, who committed, and how that is written
//! - `write-line PREVIOUS NEW MESSAGE`, `append-line PREVIOUS NEW MESSAGE`: a line by the committer, as a value and as a transaction has it
use crate::reads::log_line;
use anyhow::{Context, Result};
use bstr::ByteSlice;
use case_world::edits::target_word;
use case_world::objects::id_of;
use case_world::texts::{Texts, number, split};
use case_world::transactions::{Said, line, push_lines};
use case_world::world::World;
use gix_ref_hash::hash::Kind;
use gix_ref_log::actor::{SignatureRef, Time};
use gix_ref_log::log::line::appended_line;
use gix_ref_log::log::{Line, LineRef};
use gix_ref_lookup::loose;
use gix_ref_name::name::{FullNameRef, PartialNameRef};
use gix_ref_packed::packed::iter::Error as ItemError;
use gix_ref_packed::packed::{Buffer, Iter};
use gix_ref_packed_text::packed::Reference;
use gix_ref_packed_text::packed::decode::{
    Peeled, header, name_at_record_start, record_start_at_offset, reference,
};
use std::alloc::Global;

/// A record in words.
fn record_words(alloc: Global, record: &Reference<'_>) -> Result<String> {
    let (id, name) = (record.target(), record.name);
    Ok(match record.object {
        Some(_) => format!(in alloc; "{id} {name} peeled {}", record.object())?,
        None => format!(in alloc; "{id} {name}")?,
    })
}

/// A fault among records, in words.
fn fault_words(alloc: Global, error: &ItemError<'_>) -> Result<String> {
    Ok(match error {
        ItemError::Header { invalid_first_line } => format!(in alloc;
            "no header: {}",
            invalid_first_line.as_bstr()
        )?,
        ItemError::Reference {
            invalid_line,
            line_number,
        } => format!(in alloc; "line {line_number}: {}", invalid_line.as_bstr())?,
    })
}

/// The items of records.
fn items(alloc: Global, records: Iter<'_>) -> Result<Said> {
    let mut said = Vec::new(alloc);
    for item in records {
        let text = match &item {
            Ok(record) => record_words(alloc, record)?,
            Err(error) => fault_words(alloc, error)?,
        };
        said.push(text.as_bytes().to_vec(alloc)?)?;
    }
    Ok(said)
}

/// A header: what it says, and the text after it.
fn header_words(alloc: Global, text: &[u8]) -> Result<Said> {
    let mut input = text;
    let Ok(found) = header(&mut input) else {
        return line(
            alloc,
            if input == text {
                "no header"
            } else {
                "no header, and moved on"
            },
        );
    };
    let peeled = match found.peeled {
        Peeled::Unspecified => "unspecified",
        Peeled::Partial => "peeled",
        Peeled::Fully => "fully-peeled",
    };
    let sorted = if found.sorted { "sorted" } else { "not sorted" };
    line(
        alloc,
        format!(in alloc; "{peeled}, {sorted}, rest {}", input.as_bstr())?.as_str(),
    )
}

/// The first record, and the text after it.
fn first_record(alloc: Global, text: &[u8], kind: Kind) -> Result<Said> {
    let mut input = text;
    let Ok(record) = reference(&mut input, kind) else {
        return line(
            alloc,
            if input == text {
                "no record"
            } else {
                "no record, and moved on"
            },
        );
    };
    let words = record_words(alloc, &record)?;
    line(
        alloc,
        format!(in alloc; "{words}, rest {}", input.as_bstr())?.as_str(),
    )
}

/// A `packed-refs` as it is held.
fn opened(alloc: Global, text: Vec<u8>, kind: Kind) -> Result<Said> {
    match Buffer::from_bytes(alloc, text, kind) {
        Ok(buffer) => {
            let mut said = Vec::new(alloc);
            push_lines(alloc, &mut said, buffer.as_bytes())?;
            Ok(said)
        }
        Err(error) => line(alloc, format!(in alloc; "refused: {error}")?.as_str()),
    }
}

/// A record by a partial name.
fn buffer_find(alloc: Global, buffer: &Buffer, name: &[u8]) -> Result<Said> {
    let name = PartialNameRef::try_from(name).context("a partial name")?;
    match buffer.try_find(alloc, name) {
        Ok(Some(record)) => line(alloc, record_words(alloc, &record)?.as_str()),
        Ok(None) => line(alloc, "not found"),
        Err(error) => line(alloc, format!(in alloc; "refused: {error}")?.as_str()),
    }
}

/// The target of a loose file.
fn loose_words(alloc: Global, text: &[u8], kind: Kind) -> Result<Said> {
    let name = FullNameRef::try_from("refs/heads/a").context("a name")?;
    match loose::Reference::try_from_path(alloc, name.to_owned(alloc)?, text, kind) {
        Ok(found) => line(alloc, target_word(alloc, &found.target)?.as_str()),
        Err(error) => line(alloc, format!(in alloc; "refused: {error}")?.as_str()),
    }
}

/// A line of a log.
fn log_words(alloc: Global, text: &[u8]) -> Result<Said> {
    let mut said = Vec::new(alloc);
    match LineRef::from_bytes(text) {
        Ok(found) => {
            let ids = format!(in alloc; "{} {}", found.previous_oid(), found.new_oid())?;
            said.push(log_line(alloc, ids.as_str(), found.signature, found.message)?)?;
        }
        Err(error) => {
            let text = format!(in alloc; "no line: {}", error.input.as_bstr())?;
            said.push(text.as_bytes().to_vec(alloc)?)?;
        }
    }
    Ok(said)
}

/// A signature.
fn signature_words(alloc: Global, text: &[u8]) -> Result<Said> {
    let Some(found) = SignatureRef::decode(text) else {
        return line(alloc, "no signature");
    };
    let words = format!(in alloc;
        "{}|{}|{}|{}",
        found.name.as_bstr(),
        found.email.as_bstr(),
        found.time.seconds,
        found.time.offset
    )?;
    line(alloc, words.as_str())
}

/// A number with or without a sign.
fn signed_number(part: Option<&str>) -> Result<i64> {
    Ok(
        part.context("a number")?
            .parse::<i64>()
            .context("a number")?,
    )
}

/// How a signature is written.
fn signed(alloc: Global, texts: &Texts, rest: &str) -> Result<Said> {
    let mut parts = rest.split('|');
    let name = texts.text(parts.next().unwrap_or(""))?;
    let email = texts.text(parts.next().unwrap_or(""))?;
    let seconds = signed_number(parts.next())?;
    let offset = i32::try_from(signed_number(parts.next())?).context("an offset")?;
    let signature = SignatureRef {
        name: name.as_slice(),
        email: email.as_slice(),
        time: Time { seconds, offset },
    };
    let mut text = Vec::new(alloc);
    if signature.write_to(&mut text).is_err() {
        return line(alloc, "it cannot be written");
    }
    let mut said = Vec::new(alloc);
    said.push(text)?;
    Ok(said)
}

/// A line by the committer, as a value is written, or as a transaction has it.
fn written(world: &World, texts: &Texts, word: &str, rest: &str) -> Result<Said> {
    let alloc = world.alloc;
    let (previous, rest) = split(rest);
    let (new, message) = split(rest);
    let (previous, new) = (id_of(texts, previous)?, id_of(texts, new)?);
    let message = texts.text(message)?;
    let committer = world.signature().context("a committer")?;
    let mut text = Vec::new(alloc);
    if word == "append-line" {
        match appended_line(alloc, &previous, &new, committer, message.as_slice()) {
            Ok(made) => text = made,
            Err(error) => return line(alloc, format!(in alloc; "refused: {error}")?.as_str()),
        }
    } else {
        let made = Line {
            previous_oid: previous,
            new_oid: new,
            signature: committer.to_owned(alloc)?,
            message,
        };
        if let Err(error) = made.write_to(&mut text) {
            return line(alloc, format!(in alloc; "refused: {error}")?.as_str());
        }
    }
    let mut said = Vec::new(alloc);
    said.push(text)?;
    Ok(said)
}

/// Where the record of a byte begins.
fn record_start(alloc: Global, texts: &Texts, rest: &str) -> Result<Said> {
    let (offset, written) = split(rest);
    let offset = usize::try_from(number(offset)?).context("a number")?;
    let text = texts.text(written)?;
    if offset > text.len() {
        return line(alloc, "past the end");
    }
    let start = record_start_at_offset(text.as_slice(), offset);
    line(alloc, format!(in alloc; "{start}")?.as_str())
}

/// Plays a verb over the file `packed-refs`.
fn in_buffer(world: &mut World, texts: &Texts, word: &str, rest: &str) -> Result<Said> {
    let alloc = world.alloc;
    let mut store = world.open()?;
    let opened = store.open_packed_buffer(alloc);
    world.files = store.into_files();
    let buffer = match opened {
        Ok(buffer) => buffer.context("a packed-refs")?,
        Err(error) => return line(alloc, format!(in alloc; "refused: {error}")?.as_str()),
    };
    let text = texts.text(rest)?;
    if word == "buffer-find" {
        return buffer_find(alloc, &buffer, text.as_slice());
    }
    if rest.is_empty() {
        return items(alloc, buffer.iter());
    }
    items(alloc, buffer.iter_prefixed(text))
}

/// Plays a verb of formats.
pub fn format_verb(world: &mut World, texts: &Texts, word: &str, rest: &str) -> Result<Said> {
    let (alloc, kind) = (world.alloc, world.object_hash());
    match word {
        "buffer-find" | "buffer-list" => return in_buffer(world, texts, word, rest),
        "write-line" | "append-line" => return written(world, texts, word, rest),
        "record-start" => return record_start(alloc, texts, rest),
        "sign" => return signed(alloc, texts, rest),
        _ => {}
    }
    let text = texts.text(rest)?;
    match word {
        "header" => header_words(alloc, text.as_slice()),
        "record" => first_record(alloc, text.as_slice(), kind),
        "records" => match Iter::new(text.as_slice(), kind) {
            Ok(records) => items(alloc, records),
            Err(error) => line(alloc, fault_words(alloc, &error)?.as_str()),
        },
        "open" => opened(alloc, text, kind),
        "name-at" => match name_at_record_start(text.as_slice(), kind) {
            Some(name) => line(alloc, format!(in alloc; "{}", name.as_bstr())?.as_str()),
            None => line(alloc, "no name"),
        },
        "log-line" => log_words(alloc, text.as_slice()),
        "signature" => signature_words(alloc, text.as_slice()),
        _ => loose_words(alloc, text.as_slice(), kind),
    }
}
