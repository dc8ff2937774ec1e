//! Objects, and finders of objects (`git cat-file`).
ghost use Rattle.gix_ref_hash.specs.declared.hash.ObjectId.{ObjectId};
ghost use Rattle.gix_ref_object.specs.Objects.{Stored, Reports};
ghost use Rattle.gix_ref_object.specs.Objects.Stored.{Absent};

use gix_ref_hash::hash::{self, ObjectId};
use thiserror::Error;

/// The kinds of objects. As gix-object's `Kind`.
#[derive(Clone, Copy, Debug, PartialEq, Eq)]
pub enum Kind {
    /// A state of a project, its parents and a message.
    Commit,
    /// The names in a folder, each with an object.
    Tree,
    /// The bytes of a file.
    Blob,
    /// An object with a name, a message and perhaps a signature.
    Tag,
}

/// An object that was found. As gix-object's `Data`.
#[derive(Clone, Copy, Debug)]
pub struct Data<'b> {
    /// The kind of the object.
    pub kind: Kind,
    /// The bytes of the object, without the header that names the kind.
    pub bytes: &'b [u8],
    /// The hash function of the ids that the object names, which is that of its own id.
    pub object_hash: hash::Kind,
}

/// Why an object could not be looked for. As gix-object's `find::Error`.
#[derive(Clone, Copy, Debug, PartialEq, Eq, Error)]
pub enum FindError {
    #[error("the object could not be read")]
    Failed,
    #[error("there was no memory for the object")]
    Memory,
}

/// A finder of objects by their ids (`git cat-file`). For each id it has an object, nothing, or something that cannot
/// be read. Where it claims so, its calls report just that; a finder that claims nothing may report anything. As
/// gix-object's `Find`.
pub trait Find: Drop {
    /// What the finder has under each id.
    ghost meaning: { Self → ObjectId → Stored };

    /// What has to be true for the calls to report what the finder has.
    ghost claims: { Self → Type 0 };

    /// The object with this id, or `None` where there is none. Its bytes are lent from the buffer, whose old content is
    /// lost. `Failed` says that the object could not be read, and `Memory` that there was no memory for it.
    fn try_find<'b>(
        &self,
        id: &ObjectId,
        buf: &'b mut Vec<u8>,
    ) -> Result<Option<Data<'b>>, FindError>
        ensures { claims self.now → Reports id.now (meaning self.now id.now) result };
}

/// A finder that finds nothing. As gix-object's `find::Never`.
///
/// ```text
/// // A packed tag has its peeled id in `packed-refs`, so no object is asked for.
/// let commit = tag.peel_to_id(alloc, &mut store, &Never)?;
/// ```
#[derive(Clone, Copy, Debug)]
pub struct Never;

impl Find for Never {
    ghost meaning = { λ _ id. Absent };

    ghost claims = { λ _. Unit {0} };

    fn try_find<'b>(
        &self,
        _id: &ObjectId,
        _buf: &'b mut Vec<u8>,
    ) -> Result<Option<Data<'b>>, FindError> {
        Ok(None)
    }
}

/// A finder in a box means and claims what that finder does.
impl Find for Box<dyn Find> {
    ghost meaning = { λ b. (Find-box b).meaning b.value };

    ghost claims = { λ b. (Find-box b).claims b.value };

    fn try_find<'b>(
        &self,
        id: &ObjectId,
        buf: &'b mut Vec<u8>,
    ) -> Result<Option<Data<'b>>, FindError> {
        (**self).try_find(id, buf)
    }
}
