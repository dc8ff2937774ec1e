//! References as values, of any store.
use crate::packed;
use gix_ref_hash::hash::ObjectId;
use gix_ref_name::name::{FullName, FullNameRef};
use gix_ref_name::namespace::Namespace;
use gix_ref_target::target::{Kind, Target};
use std::alloc::{AllocError, Global};

/// A reference that owns its name and its target, as `gix_ref::Reference` does.
///
/// ```text
/// println!(rt; "{} {}", reference.target, reference.name)?; // as `git show-ref` prints it
/// ```
#[derive(Debug, PartialEq, Eq, PartialOrd, Ord, Hash, Drop)]
pub struct Reference {
    /// The name of the reference in its store.
    pub name: FullName,
    /// An object, or another reference.
    pub target: Target,
    /// The object that is reached in the end, if a record or peeling reported it.
    pub peeled: Option<ObjectId>,
}

impl Reference {
    ghost use Rattle.std.specs.Prelude.{◌≡◌, ◌≢◌, ◌++◌, ◌↔◌, List, ℕ, IsTrue, IfOk, MatchOption};
    ghost use Rattle.gix_ref_name.specs.NameGrammar.{IsPartialName};
    ghost use Rattle.gix_ref_name.specs.Names.{full_bytes, full_ref_bytes};
    ghost use Rattle.gix_ref_name.specs.Namespaces.{namespace_bytes, stripped};
    ghost use Rattle.gix_ref_target.specs.Targets.{target_value, target_kind};
    ghost use Rattle.gix_ref_packed_text.specs.RawReference.{IsOfRecord};
    ghost use Rattle.gix_ref_target.specs.Targets.{stripped_target};

    /// The reference of a record of `packed-refs`. The error reports that there was no memory for its name. As
    /// gix-ref's `From<packed::Reference>` for `Reference`.
    ///
    /// ```text
    /// let reference = Reference::from_packed(alloc, record)?; // owned: it outlives the buffer of the record
    /// ```
    pub fn from_packed(
        alloc: Global,
        packed: packed::Reference<'_>,
    ) -> Result<Reference, AllocError>
        ensures { IfOk result (λ r. IsOfRecord r packed.entry) }
    {
        Ok(Reference {
            name: packed.name.to_owned(alloc)?,
            target: Target::Object(packed.target()),
            peeled: packed.peeled(),
        })
    }

    /// Whether the target is an object or a name. As gix-ref's `Reference::kind`.
    pub fn kind(&self) -> Kind
        ensures { result ≡ target_kind (target_value self.now.target) }
    {
        self.target.kind()
    }

    /// The name inside of the namespace. `None` where the name does not begin with it, and where the rest is no valid
    /// partial name. As gix-ref's `Reference::name_without_namespace`.
    pub fn name_without_namespace(&self, namespace: &Namespace) -> Option<FullNameRef<'_>>
        ensures { MatchOption result ((rest : List ℕ) → IsPartialName rest →
            full_bytes self.now.name ≢ namespace_bytes namespace.now ++ rest)
            (λ n. full_bytes self.now.name ≡ namespace_bytes namespace.now ++ full_ref_bytes n) }
    {
        self.name.as_ref().without_namespace(namespace)
    }

    /// Takes the namespace off the name, and off a symbolic target. Each keeps it where it does not begin with it, and
    /// where the rest is no valid partial name. As gix-ref's `Reference::strip_namespace`.
    pub fn strip_namespace(&mut self, namespace: &Namespace)
        ensures name { full_bytes self.new.name
            ≡ stripped (namespace_bytes namespace.now) (full_bytes self.old.name) }
        ensures target { target_value self.new.target
            ≡ stripped_target (namespace_bytes namespace.now) (target_value self.old.target) }
        ensures peeled { self.new.peeled ≡ self.old.peeled }
    {
        self.name.strip_namespace(namespace);
        self.target.strip_namespace(namespace);
    }

    /// Whether these are the bytes of the name. As `==` of a reference and bytes in gix-ref.
    pub fn eq_bytes(&self, bytes: &[u8]) -> bool
        ensures { IsTrue result ↔ (full_bytes self.now.name ≡ bytes.now) }
    {
        self.name.eq_bytes(bytes)
    }
}

/// A copy in the allocators of the value; the error says that there was no memory for it.
impl Clone for Reference {
    ghost use Rattle.gix_ref_packed_text.specs.RawReference.{IsCopy};

    ghost is_clone = { IsCopy };

    fn clone(&self) -> Result<Reference, AllocError> {
        Ok(Reference {
            name: self.name.clone()?,
            target: self.target.clone()?,
            peeled: self.peeled,
        })
    }
}
