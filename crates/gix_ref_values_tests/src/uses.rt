//! Short callers, each with what it can state of its result from the public contracts alone.
ghost use Rattle.std.specs.Prelude.{◌≡◌, ◌++◌, ◌⊎◌, IfSome, IfOk, IfErr, codes, map, Some};
ghost use Rattle.gix_ref_name.specs.Names.{full_ref_bytes, full_bytes, partial_ref_bytes};
ghost use Rattle.gix_ref_name.specs.NameGrammar.{IsFullName, full_error, IsPartialName};
ghost use Rattle.gix_ref_name.specs.Namespaces.{namespace_bytes};
ghost use Rattle.gix_ref_name.specs.Candidates.{candidates};

use gix_ref_name::name::candidates::{lookup_prefixes, with_prefix};
use gix_ref_name::name::{Category, Error, FullName, FullNameRef, PartialNameRef};
use gix_ref_name::namespace::Namespace;
use std::alloc::{AllocError, Global};

/// A name from a text, by the view: it is the text, and the text is a full name.
pub fn owned(alloc: Global, text: &str) -> Result<FullName, Error>
    ensures ok { IfOk result (λ n. full_bytes n ≡ text.now) }
    ensures valid { IfOk result (λ _. IsFullName text.now) }
    ensures err { IfErr result (λ e. (e ≡ Error.Memory) ⊎ (full_error text.now ≡ Some e)) }
{
    let view = FullNameRef::try_from(text)?;
    Ok(view.to_owned(alloc)?)
}

/// The name of a branch without what goes in front.
pub fn branch_name<'a>(name: FullNameRef<'a>) -> Option<&'a [u8]>
    ensures some { IfSome result (λ s. full_ref_bytes name.entry ≡ codes "refs/heads/" ++ s.now) }
{
    match name.category_and_short_name() {
        Some((Category::LocalBranch, short)) => Some(short),
        _ => None,
    }
}

/// The path of a reference in a namespace; it is a valid name without another test.
pub fn namespaced_path(
    alloc: Global,
    namespace: &Namespace,
    name: FullNameRef<'_>,
) -> Result<Vec<u8>, AllocError>
    ensures path { IfOk result (λ path. path.items
        ≡ namespace_bytes namespace.now ++ full_ref_bytes name.entry) }
    ensures valid { IfOk result (λ path. IsPartialName path.items) }
{
    let mut path = Vec::from_slice(alloc, namespace.to_path())?;
    path.extend_from_slice(name.to_path())?;
    Ok(path)
}

/// All that a partial name may be short for, in the order of a lookup.
pub fn candidates_of(alloc: Global, name: PartialNameRef<'_>) -> Result<Vec<FullName>, AllocError>
    ensures { IfOk result (λ found. map full_bytes found.items
        ≡ candidates (partial_ref_bytes name.entry)) }
{
    let mut found = Vec::new(alloc);
    for front in lookup_prefixes(name) {
        found.push(with_prefix(alloc, front, name)?)?;
    }
    Ok(found)
}
