//! The objects of a case, for peeling: a finder that is a table.
//!
//! - `object ID commit`, `object ID tag LINE`: a commit, and a tag with this first line (`object ID` in a good one)
//! - `object ID failed`, `object ID no-memory`: one that cannot be read, and one for which there is no memory
//! - `object ID changing LINE`: a commit at the first question, a tag with this first line at the second, and so on in turn
//! - `tags COUNT`: the ids of the numbers 0 to COUNT - 1, of each kind, are tags of the next number each. The id of a number has it in
//!   its first two bytes, and zeros after them.
use crate::texts::{Texts, number, split};
use anyhow::{Context, Result, bail};
use gix_ref_hash::hash::{self, ObjectId};
use gix_ref_object::object::{Data, Find, FindError, Kind};
use std::alloc::Global;
use std::cell::Cell;

/// What is found under an id.
#[derive(Drop)]
enum Found {
    Commit,
    /// A tag, with its first line.
    Tag(Vec<u8>),
    /// A tag with this first line, where it was a commit before; and else a commit.
    Changing(Vec<u8>, Cell<bool>),
    Failed,
    NoMemory,
}

/// Objects by their ids.
#[derive(Drop)]
pub struct Objects {
    alloc: Global,
    rows: Vec<(ObjectId, Found)>,
    tags: u16,
}

/// The number in the first two bytes of an id, where all others are zeros.
fn number_of(id: &ObjectId) -> Option<u16> {
    let (front, rest) = id.as_bytes().split_at_checked(2)?;
    match front {
        [high, low] if rest.iter().all(|byte| *byte == 0) => Some(u16::from_be_bytes([
            *high, *low,
        ])),
        _ => None,
    }
}

/// The id that these digits are.
pub fn id_of(texts: &Texts, written: &str) -> Result<ObjectId> {
    Ok(ObjectId::from_hex(texts.text(written)?.as_slice()).context("an id")?)
}

impl Objects {
    /// None.
    pub fn new(alloc: Global) -> Objects {
        Objects {
            alloc,
            rows: Vec::new(alloc),
            tags: 0,
        }
    }

    /// Adds the object of a line `ID KIND ..`.
    pub fn add(&mut self, texts: &Texts, line: &str) -> Result<()> {
        let (id, rest) = split(line);
        let (kind, target) = split(rest);
        let found = match kind {
            "commit" => Found::Commit,
            "tag" => Found::Tag(texts.text(target)?),
            "changing" => Found::Changing(texts.text(target)?, Cell::new(false)),
            "failed" => Found::Failed,
            "no-memory" => Found::NoMemory,
            _ => bail!("object {line}"),
        };
        self.rows.push((id_of(texts, id)?, found))?;
        Ok(())
    }

    /// Makes the ids of so many numbers tags.
    pub fn set_tags(&mut self, count: &str) -> Result<()> {
        self.tags = u16::try_from(number(count)?).context("a count")?;
        Ok(())
    }

    /// The object of a row.
    fn found(&self, id: &ObjectId) -> Option<&Found> {
        for row in self.rows.as_slice() {
            if row.0 == *id {
                return Some(&row.1);
            }
        }
        None
    }
}

/// Puts the bytes of a tag with this first line into the buffer.
fn write_tag(buf: &mut Vec<u8>, line: &[u8]) -> Result<(), FindError> {
    buf.clear();
    if buf.extend_from_slice(line).is_err() || buf.extend_from_slice(b"\ntype tag\n").is_err() {
        return Err(FindError::Memory);
    }
    Ok(())
}

/// The id of this kind that has a number.
fn numbered(kind: hash::Kind, number: u16) -> ObjectId {
    let [high, low] = number.to_be_bytes();
    match kind {
        hash::Kind::Sha1 => {
            let mut bytes = [0; 20];
            bytes[0] = high;
            bytes[1] = low;
            ObjectId::Sha1(bytes)
        }
        hash::Kind::Sha256 => {
            let mut bytes = [0; 32];
            bytes[0] = high;
            bytes[1] = low;
            ObjectId::Sha256(bytes)
        }
    }
}

/// A commit.
fn commit<'b>(id: &ObjectId) -> Option<Data<'b>> {
    Some(Data {
        kind: Kind::Commit,
        bytes: b"tree ",
        object_hash: id.kind(),
    })
}

/// The tag in the buffer.
fn tag<'b>(buf: &'b mut Vec<u8>, id: &ObjectId) -> Option<Data<'b>> {
    Some(Data {
        kind: Kind::Tag,
        bytes: buf.as_slice(),
        object_hash: id.kind(),
    })
}

impl Objects {
    /// The first line of the tag of a number, if it is one of those that are.
    fn numbered_line(&self, id: &ObjectId) -> Option<Vec<u8>> {
        let number = number_of(id)?;
        if number >= self.tags {
            return None;
        }
        let next = numbered(id.kind(), number.saturating_add(1));
        let line = format!(in self.alloc; "object {next}").ok()?;
        line.as_bytes().to_vec(self.alloc).ok()
    }
}

impl Find for Objects {
    ghost use Rattle.gix_ref_object.specs.Objects.Stored.{Absent};

    ghost meaning = { λ _ id. Absent };

    ghost claims = { λ _. ⊥ };

    fn try_find<'b>(
        &self,
        id: &ObjectId,
        buf: &'b mut Vec<u8>,
    ) -> Result<Option<Data<'b>>, FindError> {
        if let Some(line) = self.numbered_line(id) {
            write_tag(buf, line.as_slice())?;
            return Ok(tag(buf, id));
        }
        match self.found(id) {
            None => Ok(None),
            Some(Found::Commit) => Ok(commit(id)),
            Some(Found::Changing(line, is_tag)) => {
                let was_tag = is_tag.get();
                is_tag.set(!was_tag);
                if !was_tag {
                    return Ok(commit(id));
                }
                write_tag(buf, line.as_slice())?;
                Ok(tag(buf, id))
            }
            Some(Found::Tag(line)) => {
                write_tag(buf, line.as_slice())?;
                Ok(tag(buf, id))
            }
            Some(Found::Failed) => Err(FindError::Failed),
            Some(Found::NoMemory) => Err(FindError::Memory),
        }
    }
}
