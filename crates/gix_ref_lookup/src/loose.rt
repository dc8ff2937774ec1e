//! Loose references: a file for each, with the id of an object or the name of another reference.
ghost use Rattle.std.specs.Prelude.{◌≡◌, ◌↔◌, IsTrue, ℕ, List, IfOk, IfErr, OnOk, MatchResult, MatchOption, Some};
ghost use Rattle.gix_ref_hash.specs.Ids.{IsWhole};
ghost use Rattle.gix_ref_hash.specs.declared.hash.Kind.{Kind};
ghost use Rattle.gix_ref_name.specs.Names.{full_bytes};
ghost use Rattle.gix_ref_target.specs.Targets.{target_value, target_kind};
ghost use Rattle.gix_ref_target.specs.Targets.TargetValue.{object_id};
ghost use Rattle.gix_ref_theory.specs.ConcreteStore.{loose_text};
ghost use Rattle.gix_ref_lookup.specs.LooseText.{HoldsPath, HoldsId, HoldsTarget, CannotDecode, IsWritable, target_in};

mod error;

pub use error::Error;
use gix_ref_hash::bytes::{after_spaces, strip_front, up_to_line_end};
use gix_ref_hash::hash::{Kind, ObjectId, id_of_digits, is_hex, split_id};
use gix_ref_name::name::{FullName, FullNameRef};
use gix_ref_packed::raw;
use gix_ref_target::target::{self, Target};
use std::alloc::{AllocError, Global};

/// A loose reference: one in its own file. As gix-ref's `file::loose::Reference`.
#[derive(Debug, PartialEq, Eq, PartialOrd, Ord, Hash, Drop)]
pub struct Reference {
    /// Its full name.
    pub name: FullName,
    /// What it points to.
    pub target: Target,
}

impl Reference {
    /// The reference of a name by the bytes of its file. They are `ref: `, any further spaces and a full name, up to
    /// the first NUL, CR or LF (`git symbolic-ref`); or the 40 or 64 hex digits of an id of the kind that no hex digit
    /// follows, whatever else does. As gix-ref's `file::loose::Reference::try_from_path`.
    ///
    /// `Parse` where they are neither, with the bytes; `RefnameValidation` with the path that is not a full name and the
    /// first rule that it breaks; `Memory` where there was no memory for a copy. Each drops the name.
    ///
    /// ```text
    /// let name = FullName::try_from(b"HEAD".to_vec(alloc)?)?;
    /// let head = Reference::try_from_path(alloc, name, b"ref: refs/heads/main\n", Kind::Sha1)?;
    /// ```
    pub fn try_from_path(
        alloc: Global,
        name: FullName,
        contents: &[u8],
        object_hash: Kind,
    ) -> Result<Reference, Error>
        ensures name { IfOk result (λ reference. reference.name ≡ name) }
        ensures held { IfOk result
            (λ reference. HoldsTarget object_hash contents.now (target_value reference.target)) }
        ensures refused { IfErr result (CannotDecode object_hash contents.now) }
    {
        let target = decode(alloc, contents, object_hash)?;
        Ok(Reference { name, target })
    }

    /// Whether the reference points to an object or to another reference. As gix-ref's `file::loose::Reference::kind`.
    pub fn kind(&self) -> target::Kind
        ensures { result ≡ target_kind (target_value self.now.target) }
    {
        self.target.kind()
    }

    /// Whether these are the bytes of the name. As `==` of a reference and bytes in gix-ref.
    pub fn eq_bytes(&self, bytes: &[u8]) -> bool
        ensures { IsTrue result ↔ (full_bytes self.now.name ≡ bytes.now) }
    {
        self.name.eq_bytes(bytes)
    }
}

/// The same name and target; a loose reference has no peeled id.
impl From<Reference> for raw::Reference {
    ghost use Rattle.std.specs.Prelude.{◌≡◌, None};

    ghost from_gives = { λ loose raw. (raw.name ≡ loose.name) × (raw.target ≡ loose.target) ×
        (raw.peeled ≡ None) };

    fn from(loose: Reference) -> raw::Reference {
        let Reference { name, target } = loose;
        raw::Reference {
            name,
            target,
            peeled: None,
        }
    }
}

/// The same name and target; the peeled id is dropped.
impl From<raw::Reference> for Reference {
    ghost use Rattle.std.specs.Prelude.{◌≡◌};

    ghost from_gives = { λ raw loose. (loose.name ≡ raw.name) × (loose.target ≡ raw.target) };

    fn from(raw: raw::Reference) -> Reference {
        let raw::Reference {
            name,
            target,
            peeled: _,
        } = raw;
        Reference { name, target }
    }
}

/// A copy; the error says that there was no memory for it.
impl Clone for Reference {
    ghost use Rattle.gix_ref_name.specs.Names.{full_bytes};

    ghost is_clone = { λ r copy. (full_bytes copy.name ≡ full_bytes r.name) × (target_value
        copy.target ≡ target_value r.target) };

    fn clone(&self) -> Result<Reference, AllocError> {
        Ok(Reference {
            name: self.name.clone()?,
            target: self.target.clone()?,
        })
    }
}

/// The path of a symbolic reference, which is not checked yet.
fn symbolic_path(text: &[u8]) -> Option<&[u8]>
    ensures { MatchOption result ((path : List ℕ) → HoldsPath text.now path → ⊥)
        (λ path. HoldsPath text.now path.now) }
{
    let Some(rest) = strip_front(text, b"ref: ") else {
        return None;
    };
    Some(up_to_line_end(after_spaces(rest)))
}

/// The id at the front of the text, where no further hex digit follows it.
fn object_id(text: &[u8], kind: Kind) -> Option<ObjectId>
    ensures { MatchOption result ((id : _) → HoldsId kind text.now id → ⊥) (HoldsId kind text.now) }
{
    let Some((digits, rest)) = split_id(text, kind) else {
        return None;
    };
    match rest.first() {
        Some(byte) if is_hex(*byte) => None,
        _ => Some(id_of_digits(digits)),
    }
}

/// The target that the bytes of a loose file hold. As `Target::try_from` of a loose file in gix-ref, which is private
/// there.
///
/// ```text
/// decode(alloc, b"ref: refs/heads/main\n", Kind::Sha1)? // Target::Symbolic of `refs/heads/main`
/// ```
pub fn decode(alloc: Global, text: &[u8], kind: Kind) -> Result<Target, Error>
    ensures { MatchResult result (λ target. HoldsTarget kind text.now (target_value target))
        (CannotDecode kind text.now) }
{
    if let Some(path) = symbolic_path(text) {
        return match FullNameRef::try_from(path) {
            Ok(name) => Ok(Target::Symbolic(name.to_owned(alloc)?)),
            Err(source) => Err(Error::RefnameValidation {
                source,
                path: path.to_vec(alloc)?,
            }),
        };
    }
    match object_id(text, kind) {
        Some(id) => Ok(Target::Object(id)),
        None => Err(Error::Parse {
            content: text.to_vec(alloc)?,
        }),
    }
}

/// The hex digits of an id, and LF.
fn object_text(alloc: Global, id: &ObjectId) -> Result<Vec<u8>, AllocError>
    ensures text { IfOk result (λ text. text.items ≡ loose_text (object_id id.now)) }
    ensures whole { IsWhole id.now }
{
    let mut text = Vec::with_capacity(alloc, 2 * id.as_bytes().len() + 1)?;
    id.push_hex(&mut text)?;
    text.push(b'\n')?;
    Ok(text)
}

/// The text that a loose file of this target has. It decodes to the target. As `git update-ref` and `git symbolic-ref`
/// write it.
///
/// ```text
/// text_of(alloc, &Target::Object(id))? // forty digits and LF
/// ```
pub fn text_of(alloc: Global, target: &Target) -> Result<Vec<u8>, AllocError>
    ensures text { IfOk result (λ text. text.items ≡ loose_text (target_value target.now)) }
    ensures back { OnOk result ((kind : Kind) → IsWritable kind (target_value target.now) →
        target_in kind (loose_text (target_value target.now)) ≡ Some (target_value target.now)) }
{
    match target {
        Target::Object(id) => object_text(alloc, id),
        Target::Symbolic(name) => {
            let mut text = b"ref: ".to_vec(alloc)?;
            text.extend_from_slice(name.to_path())?;
            text.push(b'\n')?;
            Ok(text)
        }
    }
}
