//! Names of references, checked once (`git check-ref-format`) and then carried in a type.
ghost use Rattle.gix_ref_name.specs.NameGrammar.{IsPartialName};

use crate::namespace::Namespace;
use bstr::{BStr, ByteSlice};
pub use category::Category;
use category::category_of_bytes;
pub use error::Error;
use gix_ref_hash::bytes::{cut_last, strip_front};
use grammar::broken_partial_rule;
pub use grammar::is_pseudo_name;
use std::alloc::{AllocError, Global};

pub mod candidates;
mod category;
pub mod compose;
mod convert;
pub mod device;
mod error;
pub mod grammar;

/// A lent full name. It always holds a valid partial name; one that was made from a text is a valid full name. As
/// gix-ref's `FullNameRef`.
///
/// ```text
/// let name = FullNameRef::try_from("refs/heads/main")?;
/// FullNameRef::try_from("refs/heads/a..b") // Error::RepeatedDot
/// FullNameRef::try_from("main")            // Error::SomeLowercase: it is a partial name
/// ```
#[derive(Clone, Copy, Debug, PartialEq, Eq, PartialOrd, Ord, Hash)]
pub struct FullNameRef<'a> {
    bytes: &'a [u8],
    pub ghost valid: { IsPartialName bytes.now },
}

/// A lent partial name. As gix-ref's `PartialNameRef`.
///
/// ```text
/// let name = PartialNameRef::try_from("main")?; // may mean refs/heads/main
/// ```
#[derive(Clone, Copy, Debug, PartialEq, Eq, PartialOrd, Ord, Hash)]
pub struct PartialNameRef<'a> {
    bytes: &'a [u8],
    pub ghost valid: { IsPartialName bytes.now },
}

/// An owned full name. It always holds a valid partial name; one that was made from a text is a valid
/// full name. As gix-ref's `FullName`.
#[derive(Debug, PartialEq, Eq, PartialOrd, Ord, Hash, Drop)]
pub struct FullName {
    bytes: Vec<u8>,
    pub ghost valid: { IsPartialName bytes.items },
}

/// An owned partial name. As gix-ref's `PartialName`.
#[derive(Debug, PartialEq, Eq, PartialOrd, Ord, Hash, Drop)]
pub struct PartialName {
    bytes: Vec<u8>,
    pub ghost valid: { IsPartialName bytes.items },
}

impl<'a> FullNameRef<'a> {
    ghost use Rattle.std.specs.Prelude.{◌≡◌, ◌≢◌, ◌++◌, ◌↔◌, IsTrue, IfOk, IfSome, IfNone, MatchOption, List, ℕ, false};
    ghost use Rattle.gix_ref_name.specs.NameGrammar.{IsPartialName};
    ghost use Rattle.gix_ref_name.specs.Namespaces.{namespace_bytes};
    ghost use Rattle.bstr.specs.BStr.{bstr_bytes};
    ghost use Rattle.gix_ref_name.specs.Categories.{HasCategory, NoCategory, SameCategory, begins_again, text_of};
    ghost use Rattle.gix_ref_name.specs.Names.{full_ref_bytes, partial_ref_bytes, full_bytes, IsLastComponent};

    /// The same name as a partial one. As gix-ref's `FullNameRef::as_partial_name`.
    ///
    /// ```text
    /// let found = store.find(alloc, name.as_partial_name())?;
    /// ```
    pub fn as_partial_name(self) -> PartialNameRef<'a>
        ensures { partial_ref_bytes result ≡ full_ref_bytes self.entry }
    {
        PartialNameRef { bytes: self.bytes }
    }

    /// The bytes of the name, as the relative path of the reference below the folder that it is in. As gix-ref's
    /// `FullNameRef::to_path`.
    pub fn to_path(self) -> &'a [u8]
        ensures bytes { result.now ≡ full_ref_bytes self.entry }
        ensures valid { IsPartialName result.now }
    {
        self.bytes
    }

    /// The bytes of the name, as text by convention. As gix-ref's `FullNameRef::as_bstr`.
    pub fn as_bstr(self) -> BStr<'a>
        ensures { bstr_bytes result ≡ full_ref_bytes self.entry }
    {
        self.bytes.as_bstr()
    }

    /// The short name of the name's category, or the name itself where it has none: `main` of `refs/heads/main`. As
    /// gix-ref's `FullNameRef::shorten`.
    ///
    /// ```text
    /// FullNameRef::try_from("refs/heads/main")?.shorten() // `main`
    /// FullNameRef::try_from("refs/notes/x")?.shorten()    // `notes/x`
    /// ```
    pub fn shorten(self) -> &'a [u8]
        ensures short { (c : _) (s : List ℕ) → HasCategory (full_ref_bytes self.entry) c s →
            result.now ≡ s }
        ensures none { NoCategory (full_ref_bytes self.entry) →
            result.now ≡ full_ref_bytes self.entry }
    {
        match self.category_and_short_name() {
            Some((_, short)) => short,
            None => self.bytes,
        }
    }

    /// The category of the name, or `None` where it has none. As gix-ref's `FullNameRef::category`.
    pub fn category(self) -> Option<Category<'a>>
        ensures found { IfSome result (λ c. (s : List ℕ)
            × HasCategory (full_ref_bytes self.entry) c s) }
        ensures only { IfSome result (λ c. (d : _) (s : List ℕ) →
            HasCategory (full_ref_bytes self.entry) d s → SameCategory c d) }
        ensures none { IfNone result (NoCategory (full_ref_bytes self.entry)) }
    {
        match self.category_and_short_name() {
            Some((category, _)) => Some(category),
            None => None,
        }
    }

    /// The category of the name and its short name, or `None` where it has no category. As gix-ref's
    /// `FullNameRef::category_and_short_name`.
    ///
    /// ```text
    /// FullNameRef::try_from("refs/tags/v1")?.category_and_short_name() // Some((Category::Tag, b"v1"))
    /// ```
    pub fn category_and_short_name(self) -> Option<(Category<'a>, &'a [u8])>
        ensures found { IfSome result (λ p. HasCategory (full_ref_bytes self.entry) p.0 p.1.now) }
        ensures none { IfNone result (NoCategory (full_ref_bytes self.entry)) }

        // A name has one category and one short name.
        ensures only { IfSome result (λ p. (c : _) (s : List ℕ) →
            HasCategory (full_ref_bytes self.entry) c s → SameCategory p.0 c × (p.1.now ≡ s)) }

        // `to_full_name` gives the name back, but where the short name begins itself with what goes in front of it.
        ensures back { IfSome result (λ p. begins_again p.0 p.1.now ≡ false →
            text_of p.0 p.1.now ≡ full_ref_bytes self.entry) }
    {
        category_of_bytes(self.bytes)
    }

    /// The last component of the name, as `Path::file_name` gives it: `main` of `refs/heads/main`. As gix-ref's
    /// `FullNameRef::file_name`.
    ///
    /// ```text
    /// FullNameRef::try_from("refs/heads/feature/x")?.file_name() // `x`
    /// ```
    pub fn file_name(self) -> &'a [u8]
        ensures { IsLastComponent (full_ref_bytes self.entry) result.now }
    {
        match cut_last(self.bytes, b'/') {
            Some((_, name)) => name,
            None => self.bytes,
        }
    }

    /// The name with these bytes, as a listing has it: any valid partial name, even where it is not a valid full name, as
    /// `config`. `None` for bytes that are no partial name. Takes no memory. Not in gix-ref.
    pub fn from_path(path: &'a [u8]) -> Option<FullNameRef<'a>>
        ensures { MatchOption result (IsPartialName path.now → ⊥)
            (λ n. IsPartialName path.now × (full_ref_bytes n ≡ path.now)) }
    {
        match broken_partial_rule(path) {
            None => Some(FullNameRef { bytes: path }),
            Some(_) => None,
        }
    }

    /// The name inside of the namespace: what follows that. `None` where the name does not begin with it, and where the
    /// rest is no valid partial name. Not in gix-ref; see its `Reference::name_without_namespace`.
    pub fn without_namespace(self, namespace: &Namespace) -> Option<FullNameRef<'a>>
        ensures { MatchOption result ((rest : List ℕ) → IsPartialName rest →
            full_ref_bytes self.entry ≢ namespace_bytes namespace.now ++ rest)
            (λ n. full_ref_bytes self.entry ≡ namespace_bytes namespace.now ++ full_ref_bytes n) }
    {
        let Some(rest) = strip_front(self.bytes, namespace.to_path()) else {
            return None;
        };
        match broken_partial_rule(rest) {
            None => Some(FullNameRef { bytes: rest }),
            Some(_) => None,
        }
    }

    /// An owned copy; the error says that there was no memory for it. As gix-ref's `FullNameRef::to_owned`.
    ///
    /// ```text
    /// let name = FullNameRef::try_from("refs/heads/main")?.to_owned(alloc)?;
    /// ```
    pub fn to_owned(self, alloc: Global) -> Result<FullName, AllocError>
        ensures { IfOk result (λ n. full_bytes n ≡ full_ref_bytes self.entry) }
    {
        Ok(FullName {
            bytes: Vec::from_slice(alloc, self.bytes)?,
        })
    }

    /// Whether these are the bytes of the name. As `==` of a name and bytes in gix-ref.
    pub fn eq_bytes(self, bytes: &[u8]) -> bool
        ensures { IsTrue result ↔ (full_ref_bytes self.entry ≡ bytes.now) }
    {
        self.bytes == bytes
    }
}

impl FullName {
    ghost use Rattle.std.specs.Prelude.{◌≡◌, ◌↔◌, IsTrue, IfSome, IfNone, OnOk, OnErr, List, ℕ, nat_eq, false};
    ghost use Rattle.std.specs.List.{starts_with};
    ghost use Rattle.bstr.specs.BStr.{bstr_bytes};
    ghost use Rattle.gix_ref_hash.specs.Bytes.{with_front};
    ghost use Rattle.gix_ref_name.specs.Categories.{HasCategory, NoCategory, SameCategory, begins_again, text_of};
    ghost use Rattle.gix_ref_name.specs.Names.{full_ref_bytes, full_bytes};
    ghost use Rattle.gix_ref_name.specs.Namespaces.{namespace_bytes, stripped};

    /// The name, lent. As gix-ref's `FullName::as_ref`.
    pub fn as_ref(&self) -> FullNameRef<'_>
        ensures { full_ref_bytes result ≡ full_bytes self.now }
    {
        FullNameRef {
            bytes: self.bytes.as_slice(),
        }
    }

    /// The bytes of the name, as the relative path of the reference below the folder that it is in. As gix-ref's
    /// `FullName::to_path`.
    pub fn to_path(&self) -> &[u8]
        ensures bytes { result.now ≡ full_bytes self.now }
        ensures valid { IsPartialName result.now }
    {
        self.bytes.as_slice()
    }

    /// The bytes of the name. As gix-ref's `FullName::into_inner`.
    pub fn into_inner(self) -> Vec<u8>
        ensures { result.items ≡ full_bytes self }
    {
        self.bytes
    }

    /// The bytes of the name, as text by convention. As gix-ref's `FullName::as_bstr`.
    pub fn as_bstr(&self) -> BStr<'_>
        ensures { bstr_bytes result ≡ full_bytes self.now }
    {
        self.as_ref().as_bstr()
    }

    /// Puts the namespace in front of the name, unless the name begins with it. The error says that there was no
    /// memory, and leaves the name. As gix-ref's `FullName::prefix_namespace`.
    ///
    /// ```text
    /// let mut name = FullName::try_from(b"refs/heads/x".to_vec(alloc)?)?;
    /// name.prefix_namespace(alloc, &namespace)?; // refs/namespaces/foo/refs/heads/x
    /// name.strip_namespace(&namespace);          // refs/heads/x
    /// ```
    pub fn prefix_namespace(
        &mut self,
        alloc: Global,
        namespace: &Namespace,
    ) -> Result<(), AllocError>
        ensures ok { OnOk result (full_bytes self.new
            ≡ with_front (namespace_bytes namespace.now) (full_bytes self.old)) }
        ensures err { OnErr result (full_bytes self.new ≡ full_bytes self.old) }

        // `strip_namespace` takes it off again.
        ensures back { OnOk result
            (starts_with nat_eq (full_bytes self.old) (namespace_bytes namespace.now) ≡ false →
            stripped (namespace_bytes namespace.now) (full_bytes self.new) ≡ full_bytes self.old) }
    {
        if self.bytes.starts_with(namespace.to_path()) {
            return Ok(());
        }
        let mut bytes = Vec::from_slice(alloc, namespace.to_path())?;
        bytes.extend_from_slice(self.bytes.as_slice())?;
        self.bytes = bytes;
        Ok(())
    }

    /// Takes the namespace off the front of the name. It leaves a name that does not begin with it, and one whose rest
    /// is no valid partial name. As gix-ref's `FullName::strip_namespace`.
    pub fn strip_namespace(&mut self, namespace: &Namespace)
        ensures { full_bytes self.new ≡ stripped (namespace_bytes namespace.now)
            (full_bytes self.old) }
    {
        let Some(rest) = strip_front(self.bytes.as_slice(), namespace.to_path()) else {
            return;
        };
        if broken_partial_rule(rest).is_some() {
            return;
        }
        let len = rest.len();
        let front = namespace.to_path().len();
        self.bytes.rotate_left(front);
        self.bytes.truncate(len);
    }

    /// The short name of the name's category, or the name itself where it has none: `main` of `refs/heads/main`. As
    /// gix-ref's `FullName::shorten`.
    pub fn shorten(&self) -> &[u8]
        ensures short { (c : _) (s : List ℕ) → HasCategory (full_bytes self.now) c s →
            result.now ≡ s }
        ensures none { NoCategory (full_bytes self.now) → result.now ≡ full_bytes self.now }
    {
        self.as_ref().shorten()
    }

    /// The category of the name, or `None` where it has none. As gix-ref's `FullName::category`.
    pub fn category(&self) -> Option<Category<'_>>
        ensures found { IfSome result (λ c. (s : List ℕ) × HasCategory (full_bytes self.now) c s) }
        ensures only { IfSome result (λ c. (d : _) (s : List ℕ) →
            HasCategory (full_bytes self.now) d s → SameCategory c d) }
        ensures none { IfNone result (NoCategory (full_bytes self.now)) }
    {
        self.as_ref().category()
    }

    /// The category of the name and its short name, or `None` where it has no category. As gix-ref's
    /// `FullName::category_and_short_name`.
    pub fn category_and_short_name(&self) -> Option<(Category<'_>, &[u8])>
        ensures found { IfSome result (λ p. HasCategory (full_bytes self.now) p.0 p.1.now) }
        ensures none { IfNone result (NoCategory (full_bytes self.now)) }
        ensures only { IfSome result (λ p. (c : _) (s : List ℕ) →
            HasCategory (full_bytes self.now) c s → SameCategory p.0 c × (p.1.now ≡ s)) }
        ensures back { IfSome result (λ p. begins_again p.0 p.1.now ≡ false →
            text_of p.0 p.1.now ≡ full_bytes self.now) }
    {
        self.as_ref().category_and_short_name()
    }

    /// Whether these are the bytes of the name. As `==` of a name and bytes in gix-ref.
    pub fn eq_bytes(&self, bytes: &[u8]) -> bool
        ensures { IsTrue result ↔ (full_bytes self.now ≡ bytes.now) }
    {
        self.bytes.as_slice() == bytes
    }
}

impl<'a> PartialNameRef<'a> {
    ghost use Rattle.std.specs.Prelude.{◌≡◌, ◌↔◌, IsTrue, IfOk};
    ghost use Rattle.bstr.specs.BStr.{bstr_bytes};
    ghost use Rattle.gix_ref_name.specs.Names.{partial_ref_bytes, partial_bytes};

    /// The bytes of the name, as a relative path that may be a part of one alone. As gix-ref's
    /// `PartialNameRef::to_partial_path`.
    pub fn to_partial_path(self) -> &'a [u8]
        ensures bytes { result.now ≡ partial_ref_bytes self.entry }
        ensures valid { IsPartialName result.now }
    {
        self.bytes
    }

    /// The bytes of the name, as text by convention. As gix-ref's `PartialNameRef::as_bstr`.
    pub fn as_bstr(self) -> BStr<'a>
        ensures { bstr_bytes result ≡ partial_ref_bytes self.entry }
    {
        self.bytes.as_bstr()
    }

    /// An owned copy; the error says that there was no memory for it. As gix-ref's `PartialNameRef::to_owned`.
    pub fn to_owned(self, alloc: Global) -> Result<PartialName, AllocError>
        ensures { IfOk result (λ n. partial_bytes n ≡ partial_ref_bytes self.entry) }
    {
        Ok(PartialName {
            bytes: Vec::from_slice(alloc, self.bytes)?,
        })
    }

    /// Whether these are the bytes of the name. As `==` of a name and bytes in gix-ref.
    pub fn eq_bytes(self, bytes: &[u8]) -> bool
        ensures { IsTrue result ↔ (partial_ref_bytes self.entry ≡ bytes.now) }
    {
        self.bytes == bytes
    }
}

impl PartialName {
    ghost use Rattle.std.specs.Prelude.{◌≡◌, ◌⊎◌, ◌↔◌, ◌++◌, ◌∷◌, IsTrue, MatchResult, Some, None};
    ghost use Rattle.gix_ref_name.specs.declared.name.error.Error.TheVariants.{Memory};
    ghost use Rattle.gix_ref_name.specs.NameGrammar.{partial_error};
    ghost use Rattle.gix_ref_name.specs.Names.{partial_ref_bytes, partial_bytes};

    /// The name, lent. As gix-ref's `PartialName::as_ref`.
    pub fn as_ref(&self) -> PartialNameRef<'_>
        ensures { partial_ref_bytes result ≡ partial_bytes self.now }
    {
        PartialNameRef {
            bytes: self.bytes.as_slice(),
        }
    }

    /// The name, a slash and the component, checked as a partial name. The error is the first rule that this breaks,
    /// or `Memory`; it drops the name. As gix-ref's `PartialName::join`.
    ///
    /// ```text
    /// let remote = PartialName::try_from(b"origin".to_vec(alloc)?)?;
    /// let branch = remote.join(alloc, b"main")?; // origin/main
    /// ```
    pub fn join(self, alloc: Global, component: &[u8]) -> Result<PartialName, Error>
        ensures { let joined = partial_bytes self ++ 47 ∷ component.now in MatchResult result
            (λ n. (partial_bytes n ≡ joined) × (partial_error joined ≡ None))
            (λ e. (e ≡ Memory) ⊎ (partial_error joined ≡ Some e)) }
    {
        let mut bytes = Vec::from_slice(alloc, self.bytes.as_slice())?;
        bytes.extend_from_slice(b"/")?;
        bytes.extend_from_slice(component)?;
        PartialName::try_from(bytes)
    }

    /// Whether these are the bytes of the name. As `==` of a name and bytes in gix-ref.
    pub fn eq_bytes(&self, bytes: &[u8]) -> bool
        ensures { IsTrue result ↔ (partial_bytes self.now ≡ bytes.now) }
    {
        self.bytes.as_slice() == bytes
    }
}
