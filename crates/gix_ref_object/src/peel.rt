//! From a tag to the object that it is of (`gitrevisions`, `<rev>^{}`).
ghost use Rattle.std.specs.Prelude.{◌≡◌};
ghost use Rattle.gix_ref_object.specs.Peeling.{id_of_hex as id_with_digits, target_of_kind as of_kind, tag_target as target_of, peel, step, Peeled, PeelsTo, Continues};
ghost use Rattle.gix_ref_hash.specs.declared.hash.ObjectId.{ObjectId};

use crate::object::{Find, FindError, Kind};
use gix_ref_hash::bytes::strip_front;
use gix_ref_hash::hash::{self, ObjectId};
use std::alloc::Global;
use thiserror::Error;

/// Why the object that a tag is of could not be found.
#[derive(Clone, Copy, Debug, PartialEq, Eq, Error)]
pub enum PeelError {
    #[error("an object could not be read")]
    Find,
    #[error("there is no object {oid}, or it is a tag that names no object")]
    NotFound { oid: ObjectId },
    #[error("there are more than 1000 tags in a row")]
    TagChainTooLong,
    #[error("there was no memory for an object")]
    Memory,
}

/// The id of the kind with these hex digits, of either case.
fn id_of_hex(kind: hash::Kind, digits: &[u8]) -> Option<ObjectId>
    ensures { result ≡ id_with_digits kind digits.now }
{
    if digits.len() != kind.len_in_hex() {
        return None;
    }
    ObjectId::from_hex(digits)
}

/// The id of the kind that a tag names in its first line.
fn target_of_kind(kind: hash::Kind, bytes: &[u8]) -> Option<ObjectId>
    ensures { result ≡ of_kind kind bytes.now }
{
    let Some(rest) = strip_front(bytes, b"object ") else {
        return None;
    };
    let len = kind.len_in_hex();
    if rest.len() <= len || rest[len] != b'\n' {
        return None;
    }
    id_of_hex(kind, &rest[..len])
}

/// The id that a tag names in its first line: `object `, 40 or 64 hex digits, and LF (`git mktag`). `None` for bytes
/// with another first line. As gix-object's `TagRefIter::target_id`, which is told the number of the digits.
///
/// ```text
/// tag_target(b"object 1111111111111111111111111111111111111111\ntype commit\n") // Some id
/// tag_target(b"tree 1111111111111111111111111111111111111111\n")                 // None
/// ```
pub fn tag_target(bytes: &[u8]) -> Option<ObjectId>
    ensures { result ≡ target_of bytes.now }
{
    match target_of_kind(hash::Kind::Sha1, bytes) {
        Some(target) => Some(target),
        None => target_of_kind(hash::Kind::Sha256, bytes),
    }
}

/// The target of the tag with this id, or `None` where the object is no tag. The errors are those of `peel_to_end`.
fn next_of<T: Find>(
    finder: &T,
    id: ObjectId,
    buf: &mut Vec<u8>,
) -> Result<Option<ObjectId>, PeelError>
    ensures { T.claims finder.now → (more : ObjectId → Peeled) →
        Continues id more (step id more (T.meaning finder.now id)) result }
{
    let found = match finder.try_find(&id, buf) {
        Ok(Some(found)) => found,
        Ok(None) => return Err(PeelError::NotFound { oid: id }),
        Err(FindError::Failed) => return Err(PeelError::Find),
        Err(FindError::Memory) => return Err(PeelError::Memory),
    };
    if found.kind != Kind::Tag {
        return Ok(None);
    }
    match tag_target(found.bytes) {
        Some(target) => Ok(Some(target)),
        None => Err(PeelError::NotFound { oid: id }),
    }
}

/// The object at the end of the tags that begin at this id: the id itself where its object is no tag (`git rev-parse ID^{}`).
/// It follows 1,000 tags at the most, over one buffer, which grows to the largest object. As the loop of gix-ref's
/// `ReferenceExt::peel_to_id`.
///
/// `NotFound` names an id that has no object, or whose object is a tag with another first line than `object `, the hex
/// digits of an id, and LF. The object may have an id of the other kind. `TagChainTooLong` is returned for more than 1,000 tags in a row, as for a
/// tag that names itself, `Find` for an object that could not be read, and `Memory` where there was no memory for one.
///
/// ```text
/// let commit = peel_to_end(alloc, &objects, tag_id)?; // the object at the end of the tags
/// ```
pub fn peel_to_end<T: Find>(alloc: Global, finder: &T, id: ObjectId) -> Result<ObjectId, PeelError>
    ensures { T.claims finder.now → PeelsTo (peel (T.meaning finder.now) 1000 id) result }
{
    let mut buf = Vec::new(alloc);
    let mut at = id;
    for _ in 0..1001u16 {
        match next_of(finder, at, &mut buf) {
            Ok(Some(target)) => at = target,
            Ok(None) => return Ok(at),
            Err(error) => return Err(error),
        }
    }
    Err(PeelError::TagChainTooLong)
}
