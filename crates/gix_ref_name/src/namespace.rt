//! Namespaces (`gitnamespaces`): they divide the references of one repository, each with its own branches, tags and
//! `HEAD`.
ghost use Rattle.std.specs.Prelude.{◌≡◌, ◌++◌, List, ℕ, nat_eq, codes, true};
ghost use Rattle.std.specs.List.{starts_with, ends_with};
ghost use Rattle.gix_ref_name.specs.NameGrammar.{IsPartialName};

mod expansion;

use bstr::{BStr, ByteSlice};
pub use expansion::expand;
use std::alloc::{AllocError, Global};

/// The text in front of the names of a namespace: it begins with `refs/namespaces/`, ends with a slash, and a valid
/// name after it makes a valid name. As gix-ref's `Namespace`.
#[derive(Debug, PartialEq, Eq, PartialOrd, Ord, Hash, Drop)]
pub struct Namespace {
    bytes: Vec<u8>,
    pub ghost begins: { starts_with nat_eq bytes.items (codes "refs/namespaces/") ≡ true },
    pub ghost ends: { ends_with nat_eq bytes.items (codes "/") ≡ true },
    pub ghost keeps: { (n : List ℕ) → IsPartialName n → IsPartialName (bytes.items ++ n) },
}

impl Namespace {
    ghost use Rattle.std.specs.Prelude.{◌↔◌, IsTrue, IfOk};
    ghost use Rattle.bstr.specs.BStr.{bstr_bytes};
    ghost use Rattle.gix_ref_hash.specs.Bytes.{BeginsWith};
    ghost use Rattle.gix_ref_name.specs.Namespaces.{namespace_bytes};

    /// The bytes of the namespace. As gix-ref's `Namespace::into_bstring`.
    pub fn into_bstring(self) -> Vec<u8>
        ensures { result.items ≡ namespace_bytes self }
    {
        self.bytes
    }

    /// The bytes of the namespace, as text by convention. As gix-ref's `Namespace::as_bstr`.
    pub fn as_bstr(&self) -> BStr<'_>
        ensures { bstr_bytes result ≡ namespace_bytes self.now }
    {
        self.bytes.as_slice().as_bstr()
    }

    /// The bytes of the namespace, as a relative path with a slash at its end. As gix-ref's `Namespace::to_path`.
    pub fn to_path(&self) -> &[u8]
        ensures bytes { result.now ≡ namespace_bytes self.now }
        ensures begins { BeginsWith result.now (codes "refs/namespaces/") }
        ensures ends { (front : List ℕ) × (result.now ≡ front ++ codes "/") }
        ensures keeps { (n : List ℕ) → IsPartialName n → IsPartialName (result.now ++ n) }
    {
        self.bytes.as_slice()
    }

    /// The namespace and then the prefix, which is not checked; for listings below a prefix within the namespace. The
    /// error says that there was no memory, and drops the namespace. As gix-ref's `Namespace::into_namespaced_prefix`.
    ///
    /// ```text
    /// let namespace = expand(alloc, PartialNameRef::try_from("foo")?)?;
    /// let heads = namespace.into_namespaced_prefix(alloc, b"refs/heads/")?; // refs/namespaces/foo/refs/heads/
    /// ```
    pub fn into_namespaced_prefix(self, alloc: Global, prefix: &[u8]) -> Result<Vec<u8>, AllocError>
        ensures { IfOk result (λ bytes. bytes.items ≡ namespace_bytes self ++ prefix.now) }
    {
        let mut bytes = Vec::from_slice(alloc, self.bytes.as_slice())?;
        bytes.extend_from_slice(prefix)?;
        Ok(bytes)
    }

    /// Whether these are the bytes of the namespace. As `==` of a namespace and bytes in gix-ref.
    pub fn eq_bytes(&self, bytes: &[u8]) -> bool
        ensures { IsTrue result ↔ (namespace_bytes self.now ≡ bytes.now) }
    {
        self.bytes.as_slice() == bytes
    }
}

/// A copy in the allocator of the namespace; the error says that there was no memory for it.
impl Clone for Namespace {
    ghost use Rattle.gix_ref_name.specs.Namespaces.{namespace_bytes};

    ghost is_clone = { λ n copy. namespace_bytes copy ≡ namespace_bytes n };

    fn clone(&self) -> Result<Namespace, AllocError> {
        Ok(Namespace {
            bytes: self.bytes.clone()?,
        })
    }
}
