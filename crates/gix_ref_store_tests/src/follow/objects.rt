//! Finders of objects for tests.
use gix_ref_hash::hash::ObjectId;
use gix_ref_object::object::{Data, Find, FindError, Kind};
use std::alloc::Global;
use std::cell::Cell;

/// What a finder has after its tags.
#[derive(Clone, Copy, Debug, PartialEq, Eq)]
pub enum Last {
    /// A commit.
    Commit,
    /// A tag with another first line.
    BadTag,
    /// A tag that names itself.
    Itself,
    /// Nothing.
    Missing,
    /// An object that cannot be read.
    Failed,
    /// An object for which there is no memory.
    NoMemory,
}

/// Tags under the ids of the numbers from 0 on, each of the next number, and then the last object.
#[derive(Drop)]
pub struct Tags {
    pub alloc: Global,
    pub count: u16,
    pub last: Last,
}

/// The number in the first two bytes of an id.
pub fn number_of(id: &ObjectId) -> u16 {
    match id.as_bytes() {
        [high, low, ..] => u16::from_be_bytes([*high, *low]),
        _ => 0,
    }
}

/// The bytes of a tag of this object.
fn write_tag(
    alloc: Global,
    buf: &mut Vec<u8>,
    word: &str,
    target: ObjectId,
) -> Result<(), FindError> {
    buf.clear();
    let Ok(text) = format!(in alloc; "{word} {target}\ntype tag\n") else {
        return Err(FindError::Memory);
    };
    match buf.extend_from_slice(text.as_bytes()) {
        Ok(()) => Ok(()),
        Err(_) => Err(FindError::Memory),
    }
}

impl Tags {
    /// A tag of this object, lent from the buffer.
    fn tag<'b>(
        &self,
        buf: &'b mut Vec<u8>,
        word: &str,
        target: ObjectId,
    ) -> Result<Option<Data<'b>>, FindError> {
        write_tag(self.alloc, buf, word, target)?;
        Ok(Some(Data {
            kind: Kind::Tag,
            bytes: buf.as_slice(),
            object_hash: target.kind(),
        }))
    }
}

impl Find for Tags {
    ghost use Rattle.gix_ref_object.specs.Objects.Stored.{Absent};

    ghost meaning = { λ _ id. Absent };

    ghost claims = { λ _. ⊥ };

    fn try_find<'b>(
        &self,
        id: &ObjectId,
        buf: &'b mut Vec<u8>,
    ) -> Result<Option<Data<'b>>, FindError> {
        let number = number_of(id);
        if number < self.count {
            return self.tag(buf, "object", crate::follow::made::numbered(number + 1));
        }
        match self.last {
            Last::Commit => Ok(Some(Data {
                kind: Kind::Commit,
                bytes: b"tree ",
                object_hash: id.kind(),
            })),
            Last::BadTag => self.tag(buf, "target", *id),
            Last::Itself => self.tag(buf, "object", *id),
            Last::Missing => Ok(None),
            Last::Failed => Err(FindError::Failed),
            Last::NoMemory => Err(FindError::Memory),
        }
    }
}

/// A finder that reports something else at each call: a tag of itself, nothing, a tag with another first line, a fault.
#[derive(Drop)]
pub struct Changing {
    pub alloc: Global,
    pub calls: Cell<u8>,
}

impl Find for Changing {
    ghost use Rattle.gix_ref_object.specs.Objects.Stored.{Absent};

    ghost meaning = { λ _ id. Absent };

    ghost claims = { λ _. ⊥ };

    fn try_find<'b>(
        &self,
        id: &ObjectId,
        buf: &'b mut Vec<u8>,
    ) -> Result<Option<Data<'b>>, FindError> {
        let call = self.calls.get();
        self.calls.set(call.wrapping_add(1));
        let (count, last) = match call % 5 {
            0 | 1 => (0, Last::Itself),
            2 => (0, Last::Missing),
            3 => (0, Last::BadTag),
            _ => (0, Last::Failed),
        };
        let tags = Tags {
            alloc: self.alloc,
            count,
            last,
        };
        tags.try_find(id, buf)
    }
}
