//! What a reference points to: an object, or another reference.
ghost use Rattle.std.specs.Prelude.{◌≡◌, ◌↔◌, IsTrue, IfOk, Some, None, MatchResult, MatchOption};
ghost use Rattle.gix_ref_name.specs.Names.{full_ref_bytes, full_bytes};
ghost use Rattle.gix_ref_name.specs.Namespaces.{namespace_bytes};
ghost use Rattle.gix_ref_target.specs.Targets.{target_value, target_ref_value, target_kind, target_id, stripped_target, IsNullTarget, target_text};
ghost use Rattle.gix_ref_target.specs.Targets.TargetValue.{object_id, symbolic_name};

use gix_ref_hash::hash::ObjectId;
use gix_ref_name::name::{FullName, FullNameRef};
use gix_ref_name::namespace::Namespace;
use std::alloc::{AllocError, Global};
use std::fmt;

/// The kinds of targets. As gix-ref's `Kind`.
#[derive(Clone, Copy, Debug, PartialEq, Eq, PartialOrd, Ord, Hash)]
pub enum Kind {
    /// The id of an object.
    Object,
    /// The name of another reference.
    Symbolic,
}

/// An object's id, or the name of another reference. As gix-ref's `Target`.
///
/// ```text
/// let branch = FullNameRef::try_from("refs/heads/main")?.to_owned(alloc)?;
/// let target = Target::Symbolic(branch); // the target of `HEAD` on the branch `main`
/// ```
#[derive(Debug, PartialEq, Eq, PartialOrd, Ord, Hash, Drop)]
pub enum Target {
    /// The reference points to this object.
    Object(ObjectId),
    /// The reference points to the reference of this name (`git symbolic-ref`).
    Symbolic(FullName),
}

/// A lent target. As gix-ref's `TargetRef`.
#[derive(Clone, Copy, Debug, PartialEq, Eq, PartialOrd, Ord, Hash)]
pub enum TargetRef<'a> {
    /// The reference points to this object.
    Object(ObjectId),
    /// The reference points to the reference of this name (`git symbolic-ref`).
    Symbolic(FullNameRef<'a>),
}

impl Target {
    /// Whether the target is an object or a name. As gix-ref's `Target::kind`.
    pub fn kind(&self) -> Kind
        ensures { result ≡ target_kind (target_value self.now) }
    {
        match self {
            Target::Object(_) => Kind::Object,
            Target::Symbolic(_) => Kind::Symbolic,
        }
    }

    /// Whether the target is an object whose id is all zeros. As gix-ref's `Target::is_null`.
    pub fn is_null(&self) -> bool
        ensures { IsTrue result ↔ IsNullTarget (target_value self.now) }
    {
        match self {
            Target::Object(id) => id.is_null(),
            Target::Symbolic(_) => false,
        }
    }

    /// Takes the namespace off a symbolic target. The name stays where it does not begin with the namespace, and where
    /// the rest is not a valid partial name (`git help gitnamespaces`). As gix-ref's `Reference::strip_namespace` does
    /// with the target.
    pub fn strip_namespace(&mut self, namespace: &Namespace)
        ensures { target_value self.new ≡ stripped_target (namespace_bytes namespace.now)
            (target_value self.old) }
    {
        match self {
            Target::Symbolic(name) => name.strip_namespace(namespace),
            Target::Object(_) => {}
        }
    }

    /// The same target, lent. As gix-ref's `Target::to_ref`.
    pub fn to_ref(&self) -> TargetRef<'_>
        ensures { target_ref_value result ≡ target_value self.now }
    {
        match self {
            Target::Object(id) => TargetRef::Object(*id),
            Target::Symbolic(name) => TargetRef::Symbolic(name.as_ref()),
        }
    }

    /// The id, or `None` of a symbolic target. As gix-ref's `Target::try_id`.
    ///
    /// ```text
    /// if let Some(id) = reference.target.try_id() {
    ///     // the reference points to an object
    /// }
    /// ```
    pub fn try_id(&self) -> Option<ObjectId>
        ensures { result ≡ target_id (target_value self.now) }
    {
        match self {
            Target::Object(id) => Some(*id),
            Target::Symbolic(_) => None,
        }
    }

    /// The id. The caller sees to it that the target is an object. As gix-ref's `Target::id`, which panics for a name.
    pub fn id(&self) -> ObjectId
        requires { target_kind (target_value self.now) ≡ Kind.Object }
        ensures { target_value self.now ≡ object_id result }
    {
        match self {
            Target::Object(id) => *id,
            Target::Symbolic(_) => unreachable!(),
        }
    }

    /// The id of an owned target. The caller sees to it that the target is an object. As gix-ref's
    /// `Target::into_id`, which panics for a name.
    pub fn into_id(self) -> ObjectId
        requires { target_kind (target_value self) ≡ Kind.Object }
        ensures { target_value self ≡ object_id result }
    {
        match self {
            Target::Object(id) => id,
            Target::Symbolic(_) => unreachable!(),
        }
    }

    /// The id of an owned target; the error hands a symbolic target back. As gix-ref's `Target::try_into_id`.
    pub fn try_into_id(self) -> Result<ObjectId, Target>
        ensures { MatchResult result (λ id. target_value self ≡ object_id id)
            (λ target. (target ≡ self) × (target_id (target_value self) ≡ None)) }
    {
        match self {
            Target::Object(id) => Ok(id),
            Target::Symbolic(name) => Err(Target::Symbolic(name)),
        }
    }

    /// The name, or `None` of an object. As gix-ref's `Target::try_name`.
    pub fn try_name(&self) -> Option<FullNameRef<'_>>
        ensures { MatchOption result (target_kind (target_value self.now) ≡ Kind.Object)
            (λ name. target_value self.now ≡ symbolic_name (full_ref_bytes name)) }
    {
        match self {
            Target::Object(_) => None,
            Target::Symbolic(name) => Some(name.as_ref()),
        }
    }

    /// Whether a lent target is the same: an equal id, or a name of the same bytes. As `==` of a `Target` and a
    /// `TargetRef` in gix-ref.
    ///
    /// ```text
    /// let expected = Target::Object(id);
    /// if expected.eq_ref(reference.target.to_ref()) {
    ///     // nothing changes
    /// }
    /// ```
    pub fn eq_ref(&self, other: TargetRef<'_>) -> bool
        ensures { IsTrue result ↔ (target_value self.now ≡ target_ref_value other.entry) }
    {
        self.to_ref() == other
    }
}

impl<'a> TargetRef<'a> {
    /// Whether the target is an object or a name. As gix-ref's `TargetRef::kind`.
    pub fn kind(self) -> Kind
        ensures { result ≡ target_kind (target_ref_value self.entry) }
    {
        match self {
            TargetRef::Object(_) => Kind::Object,
            TargetRef::Symbolic(_) => Kind::Symbolic,
        }
    }

    /// The id, or `None` of a symbolic target. As gix-ref's `TargetRef::try_id`.
    pub fn try_id(self) -> Option<ObjectId>
        ensures { result ≡ target_id (target_ref_value self.entry) }
    {
        match self {
            TargetRef::Object(id) => Some(id),
            TargetRef::Symbolic(_) => None,
        }
    }

    /// The id. The caller sees to it that the target is an object. As gix-ref's `TargetRef::id`, which panics for a
    /// name.
    pub fn id(self) -> ObjectId
        requires { target_kind (target_ref_value self) ≡ Kind.Object }
        ensures { target_ref_value self.entry ≡ object_id result }
    {
        match self {
            TargetRef::Object(id) => id,
            TargetRef::Symbolic(_) => unreachable!(),
        }
    }

    /// The name, or `None` of an object. As gix-ref's `TargetRef::try_name`.
    pub fn try_name(self) -> Option<FullNameRef<'a>>
        ensures { MatchOption result (target_kind (target_ref_value self.entry) ≡ Kind.Object)
            (λ name. target_ref_value self.entry ≡ symbolic_name (full_ref_bytes name)) }
    {
        match self {
            TargetRef::Object(_) => None,
            TargetRef::Symbolic(name) => Some(name),
        }
    }

    /// An owned copy; the error says that there was no memory for it. As gix-ref's `TargetRef::into_owned`.
    pub fn into_owned(self, alloc: Global) -> Result<Target, AllocError>
        ensures { IfOk result (λ target. target_value target ≡ target_ref_value self.entry) }
    {
        match self {
            TargetRef::Object(id) => Ok(Target::Object(id)),
            TargetRef::Symbolic(name) => Ok(Target::Symbolic(name.to_owned(alloc)?)),
        }
    }
}

impl From<ObjectId> for Target {
    ghost from_gives = { λ id target. target_value target ≡ object_id id };

    fn from(id: ObjectId) -> Target {
        Target::Object(id)
    }
}

impl From<FullName> for Target {
    ghost from_gives = { λ name target. target_value target ≡ symbolic_name (full_bytes name) };

    fn from(name: FullName) -> Target {
        Target::Symbolic(name)
    }
}

/// The error hands a symbolic target back.
impl TryFrom<Target> for ObjectId {
    type Error = Target;

    ghost try_from_gives = { λ target r. MatchResult r (λ id. target_value target ≡ object_id id)
        (λ back. (back ≡ target) × (target_id (target_value target) ≡ None)) };

    fn try_from(target: Target) -> Result<ObjectId, Target> {
        target.try_into_id()
    }
}

/// A copy in the allocator of the name; the error says that there was no memory for it.
impl Clone for Target {
    ghost is_clone = { λ target copy. target_value copy ≡ target_value target };

    fn clone(&self) -> Result<Target, AllocError> {
        match self {
            Target::Object(id) => Ok(Target::Object(*id)),
            Target::Symbolic(name) => Ok(Target::Symbolic(name.clone()?)),
        }
    }
}

/// Writes the hex digits of an id, or `ref: ` and the name.
impl fmt::Display for Target {
    ghost output = { λ target. Some (target_text (target_value target)) };

    fn fmt<W: fmt::Write>(&self, f: &mut fmt::Formatter<W>) -> fmt::Result {
        match self {
            Target::Object(id) => write!(f, "{id}"),
            Target::Symbolic(name) => write!(f, "ref: {name}"),
        }
    }
}
