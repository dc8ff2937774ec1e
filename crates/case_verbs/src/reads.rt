//! The verbs that read. An empty name or prefix is written `''`.
//!
//! - `find NAME`, `find-loose NAME`: the target, and the name that was found, and `peeled ID` where the record has that
//! - `find-packed NAME`, `find-without-records NAME`: as `find`, with the records of a buffer that was opened before, and with none
//! - `list [PREFIX]`, `list-loose [PREFIX]`, `list-pseudo`: such a line for each reference, and `fault: ..` for a fault
//! - `is-new NAME`: whether the store is as `git init` makes it with this branch: `yes`, `no` or `unknown`
//! - `log NAME [BYTES]`, newest first, through a buffer of so many bytes (4,096); `log-forward NAME`, oldest first; `log-exists NAME`
//! - `follow NAME`, `peel NAME`: the object that a reference leads to, with tags or without, and the reference that is reached
use anyhow::{Context, Result, bail};
use bstr::ByteSlice;
use case_world::causes::{of_find, of_following, of_item, of_log};
use case_world::edits::target_word;
use case_world::texts::{Texts, number, split};
use case_world::transactions::{Said, line};
use case_world::twice::Twice;
use case_world::world::World;
use gix_ref_follow::ReferenceExt;
use gix_ref_follow::peel::to_id;
use gix_ref_log::actor::SignatureRef;
use gix_ref_log::log::{Line, LineRef};
use gix_ref_name::name::{FullNameRef, PartialNameRef};
use gix_ref_store::file::Store;
use gix_ref_store::file::find::existing;
use gix_ref_store::file::iter::{self, LooseThenPacked, loose_then_packed};
use gix_ref_store::raw::Reference;
use std::alloc::Global;

/// The target and the name of a reference.
fn reference_line(alloc: Global, reference: &Reference) -> Result<Vec<u8>> {
    let mut text = target_word(alloc, &reference.target)?
        .as_bytes()
        .to_vec(alloc)?;
    text.push(b' ')?;
    text.extend_from_slice(reference.name.as_bstr().as_bytes())?;
    if let Some(id) = &reference.peeled {
        text.extend_from_slice(format!(in alloc; " peeled {id}")?.as_bytes())?;
    }
    Ok(text)
}

/// One line.
fn one(alloc: Global, text: Vec<u8>) -> Result<Said> {
    let mut said = Vec::new(alloc);
    said.push(text)?;
    Ok(said)
}

/// Nothing of this name.
fn not_found(alloc: Global, name: &[u8]) -> Result<Said> {
    let mut text = b"not found: ".to_vec(alloc)?;
    text.extend_from_slice(name)?;
    one(alloc, text)
}

/// What a lookup finds.
fn found(
    alloc: Global,
    store: &mut Store<Twice>,
    word: &str,
    name: PartialNameRef<'_>,
) -> Result<Said> {
    let found = match word {
        "find-packed" => {
            let buffer = store.open_packed_buffer(alloc).ok().context("packed-refs")?;
            store.find_packed(alloc, name, buffer.as_ref())
        }
        "find-without-records" => store.find_packed(alloc, name, None),
        _ => store.find(alloc, name),
    };
    found_lines(alloc, found)
}

/// What a lookup found, or why it failed.
pub fn found_lines(alloc: Global, found: Result<Reference, existing::Error>) -> Result<Said> {
    match found {
        Ok(reference) => one(alloc, reference_line(alloc, &reference)?),
        Err(existing::Error::NotFound { name }) => {
            not_found(alloc, name.as_ref().as_bstr().as_bytes())
        },
        Err(existing::Error::Find(error)) => {
            let cause = of_find(alloc, &error)?;
            line(alloc, format!(in alloc; "refused: {cause}")?.as_str())
        }
    }
}

/// What a lookup of loose files alone finds.
fn found_loose(alloc: Global, store: &mut Store<Twice>, name: PartialNameRef<'_>) -> Result<Said> {
    match store.try_find_loose(alloc, name) {
        Ok(Some(found)) => {
            let mut text = target_word(alloc, &found.target)?.as_bytes().to_vec(alloc)?;
            text.push(b' ')?;
            text.extend_from_slice(found.name.as_bstr().as_bytes())?;
            one(alloc, text)
        }
        Ok(None) => not_found(alloc, name.as_bstr().as_bytes()),
        Err(error) => {
            let cause = of_find(alloc, &error)?;
            line(alloc, format!(in alloc; "refused: {cause}")?.as_str())
        }
    }
}

/// The line of an item of a listing.
pub fn item_line(
    alloc: Global,
    item: Result<Reference, loose_then_packed::Error>,
) -> Result<Vec<u8>> {
    match item {
        Ok(reference) => reference_line(alloc, &reference),
        Err(error) => {
            let cause = of_item(alloc, &error)?;
            let text = format!(in alloc; "fault: {cause}")?;
            Ok(text.as_bytes().to_vec(alloc)?)
        }
    }
}

/// The items of a listing.
fn items(alloc: Global, listing: LooseThenPacked<'_, Twice>) -> Result<Said> {
    let mut said = Vec::new(alloc);
    for item in listing {
        said.push(item_line(alloc, item)?)?;
    }
    Ok(said)
}

/// Refused, for this reason.
fn refused(alloc: Global, cause: &str) -> Result<Said> {
    line(alloc, format!(in alloc; "refused: {cause}")?.as_str())
}

/// What a listing gives, or why there is none.
fn items_of(
    alloc: Global,
    listing: Result<LooseThenPacked<'_, Twice>, iter::Error>,
) -> Result<Said> {
    match listing {
        Ok(listing) => items(alloc, listing),
        Err(error) => refused(alloc, format!(in alloc; "{error}")?.as_str()),
    }
}

/// A listing of loose files and records.
fn listed(alloc: Global, store: &mut Store<Twice>, prefix: Option<&[u8]>) -> Result<Said> {
    let mut platform = match store.iter(alloc) {
        Ok(platform) => platform,
        Err(error) => return refused(alloc, format!(in alloc; "{error}")?.as_str()),
    };
    match prefix {
        Some(prefix) => items_of(alloc, platform.prefixed(alloc, prefix)),
        None => items_of(alloc, platform.all(alloc)),
    }
}

/// A listing of loose files alone.
fn listed_loose(alloc: Global, store: &mut Store<Twice>, prefix: Option<&[u8]>) -> Result<Said> {
    match prefix {
        Some(prefix) => items_of(alloc, store.loose_iter_prefixed(alloc, prefix)),
        None => items_of(alloc, store.loose_iter(alloc)),
    }
}

/// A line of a log: its ids, who, when and why.
pub fn log_line(
    alloc: Global,
    ids: &str,
    signature: SignatureRef<'_>,
    message: &[u8],
) -> Result<Vec<u8>> {
    let SignatureRef { name, email, time } = signature;
    let who = format!(in alloc;
        "{ids} {} <{}> {} {}: {}",
        name.as_bstr(),
        email.as_bstr(),
        time.seconds,
        time.offset,
        message.as_bstr()
    )?;
    Ok(who.as_bytes().to_vec(alloc)?)
}

fn owned_line(alloc: Global, line: &Line) -> Result<Vec<u8>> {
    let ids = format!(in alloc; "{} {}", line.previous_oid, line.new_oid)?;
    let signature = SignatureRef {
        name: line.signature.name.as_slice(),
        email: line.signature.email.as_slice(),
        time: line.signature.time,
    };
    log_line(alloc, ids.as_str(), signature, line.message.as_slice())
}

fn lent_line(alloc: Global, line: &LineRef<'_>) -> Result<Vec<u8>> {
    let ids = format!(in alloc; "{} {}", line.previous_oid(), line.new_oid())?;
    log_line(alloc, ids.as_str(), line.signature, line.message)
}

/// A log from its end.
fn log_back(
    alloc: Global,
    store: &mut Store<Twice>,
    name: FullNameRef<'_>,
    bytes: usize,
) -> Result<Said> {
    let mut buf = Vec::new(alloc);
    buf.resize(bytes, 0)?;
    let lines = match store.reflog_iter_rev(alloc, name, buf.as_mut_slice()) {
        Ok(Some(lines)) => lines,
        Ok(None) => return line(alloc, "no log"),
        Err(error) => return refused(alloc, of_log(alloc, &error)?.as_str()),
    };
    let mut said = Vec::new(alloc);
    for item in lines {
        match item {
            Ok(line) => said.push(owned_line(alloc, &line)?)?,
            Err(error) => {
                let text = format!(in alloc; "fault: {error}")?;
                said.push(text.as_bytes().to_vec(alloc)?)?;
            }
        }
    }
    Ok(said)
}

/// A log from its beginning.
fn log_forward(alloc: Global, store: &mut Store<Twice>, name: FullNameRef<'_>) -> Result<Said> {
    let mut buf = Vec::new(alloc);
    let lines = match store.reflog_iter(alloc, name, &mut buf) {
        Ok(Some(lines)) => lines,
        Ok(None) => return line(alloc, "no log"),
        Err(error) => return refused(alloc, of_log(alloc, &error)?.as_str()),
    };
    let mut said = Vec::new(alloc);
    for item in lines {
        match item {
            Ok(line) => said.push(lent_line(alloc, &line)?)?,
            Err(error) => {
                let text = format!(in alloc; "fault: {error}")?;
                said.push(text.as_bytes().to_vec(alloc)?)?;
            }
        }
    }
    Ok(said)
}

/// Whether there is a log.
fn log_exists(alloc: Global, store: &mut Store<Twice>, name: FullNameRef<'_>) -> Result<Said> {
    match store.reflog_exists(alloc, name) {
        Ok(true) => line(alloc, "yes"),
        Ok(false) => line(alloc, "no"),
        Err(error) => refused(alloc, of_log(alloc, &error)?.as_str()),
    }
}

/// Whether the store is new.
fn is_new(alloc: Global, store: &mut Store<Twice>, name: FullNameRef<'_>) -> Result<Said> {
    match store.is_pristine(alloc, name)? {
        Some(true) => line(alloc, "yes"),
        Some(false) => line(alloc, "no"),
        None => line(alloc, "unknown"),
    }
}

/// Follows a reference to an object: the answer, and then where the reference is.
fn followed(world: &World, store: &mut Store<Twice>, word: &str, name: &[u8]) -> Result<Said> {
    let alloc = world.alloc;
    let partial = PartialNameRef::try_from(name).context("a partial name")?;
    let mut reference = store.find(alloc, partial).ok().context("a reference")?;
    let answer = if word == "peel" {
        match reference.peel_to_id(alloc, store, &world.objects) {
            Ok(id) => format!(in alloc; "{id}")?,
            Err(to_id::Error::FollowToObject(error)) => {
                let cause = of_following(alloc, &error)?;
                format!(in alloc; "refused: {cause}")?
            }
            Err(error) => format!(in alloc; "refused: {error}")?,
        }
    } else {
        let packed = store.open_packed_buffer(alloc).ok().context("packed-refs")?;
        match reference.follow_to_object_packed(alloc, store, packed.as_ref()) {
            Ok(id) => format!(in alloc; "{id}")?,
            Err(error) => {
                let cause = of_following(alloc, &error)?;
                format!(in alloc; "refused: {cause}")?
            }
        }
    };
    let mut said = line(alloc, answer.as_str())?;
    said.push(reference_line(alloc, &reference)?)?;
    Ok(said)
}

/// A verb with a partial name or a prefix.
fn read_by_partial(
    world: &World,
    store: &mut Store<Twice>,
    word: &str,
    text: &[u8],
    has_text: bool,
) -> Result<Said> {
    let alloc = world.alloc;
    let prefix = has_text.then_some(text);
    match word {
        "list" => listed(alloc, store, prefix),
        "list-loose" => listed_loose(alloc, store, prefix),
        "list-pseudo" => items_of(alloc, store.iter_pseudo(alloc)),
        "follow" | "peel" => followed(world, store, word, text),
        _ => {
            let name = match PartialNameRef::try_from(text) {
                Ok(name) => name,
                Err(error) => return refused(alloc, format!(in alloc; "{error}")?.as_str()),
            };
            if word == "find-loose" {
                found_loose(alloc, store, name)
            } else {
                found(alloc, store, word, name)
            }
        }
    }
}

/// A verb with a full name.
fn read_by_full(
    alloc: Global,
    store: &mut Store<Twice>,
    word: &str,
    text: &[u8],
    rest: &str,
) -> Result<Said> {
    let name = FullNameRef::try_from(text).context("a full name")?;
    match word {
        "log" => {
            let bytes = if rest.is_empty() { 4096 } else { number(rest)? };
            let bytes = usize::try_from(bytes).context("a number")?;
            log_back(alloc, store, name, bytes)
        }
        "log-forward" => log_forward(alloc, store, name),
        "log-exists" => log_exists(alloc, store, name),
        "is-new" => is_new(alloc, store, name),
        _ => bail!("no such verb: {word}"),
    }
}

/// Plays a verb that reads.
pub fn read(world: &mut World, texts: &Texts, word: &str, rest: &str) -> Result<Said> {
    let alloc = world.alloc;
    let (written, more) = split(rest);
    let text = if written == "''" {
        Vec::new(alloc)
    } else {
        texts.text(written)?
    };
    let mut store = world.open()?;
    let said = match word {
        "log" | "log-forward" | "log-exists" | "is-new" => read_by_full(
            alloc,
            &mut store,
            word,
            text.as_slice(),
            more,
        ),
        _ => read_by_partial(world, &mut store, word, text.as_slice(), !rest.is_empty()),
    };
    world.files = store.into_files();
    said
}
