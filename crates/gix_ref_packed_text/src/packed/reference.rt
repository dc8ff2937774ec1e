//! A record of `packed-refs`, lent from its text.
ghost use Rattle.std.specs.Prelude.{◌≡◌, true};
ghost use Rattle.gix_ref_hash.specs.Ids.{is_id_text};
ghost use Rattle.gix_ref_packed_text.specs.IdDigits.{is_id_if_any};

use gix_ref_hash::hash::{ObjectId, id_of_digits};
use gix_ref_name::name::FullNameRef;

/// A record of `packed-refs`, lent from the text. As gix-ref's `packed::Reference`.
#[derive(Clone, Copy, Debug, PartialEq, Eq)]
pub struct Reference<'a> {
    /// The full name.
    pub name: FullNameRef<'a>,
    /// The hex digits of the id, as written.
    pub target: &'a [u8],
    /// The hex digits of the object that a tag ends at, as written, if the record has it.
    pub object: Option<&'a [u8]>,
    pub ghost target_reads: { is_id_text target.now ≡ true },
    pub ghost object_reads: { is_id_if_any object ≡ true },
}

impl<'a> Reference<'a> {
    ghost use Rattle.std.specs.Prelude.{◌≡◌, ◌↔◌, IsTrue};
    ghost use Rattle.gix_ref_hash.specs.Ids.{ReadsId};
    ghost use Rattle.gix_ref_name.specs.Names.{full_ref_bytes};
    ghost use Rattle.gix_ref_packed_text.specs.IdDigits.{object_or, ReadsIfAny};

    /// The id. As gix-ref's `packed::Reference::target`.
    pub fn target(self) -> ObjectId
        ensures { ReadsId self.entry.target.now result }
    {
        id_of_digits(self.target)
    }

    /// The id of the object that a tag ends at, and the id itself if the record has none. As gix-ref's
    /// `packed::Reference::object`.
    ///
    /// ```text
    /// record.target() // the id of an annotated tag
    /// record.object() // the id of the commit that it is of
    /// ```
    pub fn object(self) -> ObjectId
        ensures { ReadsId (object_or self.entry.object self.entry.target.now) result }
    {
        match self.object {
            Some(object) => id_of_digits(object),
            None => id_of_digits(self.target),
        }
    }

    /// The id of the object that a tag ends at, if the record has it. As `object` of gix-ref's `packed::Reference`, the
    /// field.
    pub fn peeled(self) -> Option<ObjectId>
        ensures { ReadsIfAny self.entry.object result }
    {
        match self.object {
            Some(object) => Some(id_of_digits(object)),
            None => None,
        }
    }

    /// Whether these are the bytes of the name. As `==` of a record and bytes in gix-ref.
    pub fn eq_bytes(self, bytes: &[u8]) -> bool
        ensures { IsTrue result ↔ (full_ref_bytes self.entry.name ≡ bytes.now) }
    {
        self.name.eq_bytes(bytes)
    }
}
