//! Names in composed and in decomposed Unicode (`git config core.precomposeUnicode`): file systems may give a name back
//! in another form than the one in which it was written.
ghost use Rattle.std.specs.Prelude.{◌≡◌, ◌≢◌, IfOk, MatchOption};
ghost use Rattle.gix_ref_name.specs.Names.{full_bytes, partial_bytes, partial_ref_bytes};
ghost use Rattle.gix_ref_name.specs.ComposedNames.{composed, decomposed};

use crate::name::{FullName, PartialName, PartialNameRef};
use std::alloc::{AllocError, Global};
use unicode_normalization::{to_nfc, to_nfd};

/// The name in Unicode's Normalization Form C where it is in another form; `None` where it is in that form already, is
/// not UTF-8, or would be no valid name in that form. The error says that there was no memory; a name of ASCII bytes
/// takes none. (`core.precomposeUnicode` of `git config`)
///
/// ```text
/// // `a` and a combining diaeresis, as some file systems give it, becomes one character.
/// let name = PartialNameRef::try_from("refs/heads/a\u{308}")?;
/// let composed = compose(alloc, name)?;
/// ```
pub fn compose(alloc: Global, name: PartialNameRef<'_>) -> Result<Option<PartialName>, AllocError>
    ensures { let bytes = partial_ref_bytes name.entry in IfOk result
        (λ r. MatchOption r (composed bytes ≡ bytes)
        (λ n. (composed bytes ≡ partial_bytes n) × (partial_bytes n ≢ bytes))) }
{
    let path = name.to_partial_path();
    if path.is_ascii() {
        return Ok(None);
    }
    let Ok(text) = str::from_utf8(path) else {
        return Ok(None);
    };
    let form = to_nfc(alloc, text)?;
    if form.as_bytes() == path {
        return Ok(None);
    }
    match PartialName::try_from(form) {
        Ok(name) => Ok(Some(name)),
        Err(_) => Ok(None),
    }
}

/// The name in Unicode's Normalization Form D; `None` where it is ASCII or not UTF-8, or would be no valid full name in
/// that form.
fn in_form_d(alloc: Global, path: &[u8]) -> Result<Option<FullName>, AllocError>
    ensures { IfOk result (λ r. MatchOption r (decomposed path.now ≡ path.now)
        (λ n. decomposed path.now ≡ full_bytes n)) }
{
    if path.is_ascii() {
        return Ok(None);
    }
    let Ok(text) = str::from_utf8(path) else {
        return Ok(None);
    };
    let form = to_nfd(alloc, text)?;
    match FullName::try_from(form) {
        Ok(name) => Ok(Some(name)),
        Err(_) => Ok(None),
    }
}

/// The name in Unicode's Normalization Form D; the name as it is where it is not UTF-8, or would be no valid full name
/// in that form. The error says that there was no memory, and drops the name; a name of ASCII bytes takes none. As
/// gix-utils' `str::decompose`; see `core.precomposeUnicode` of `git config`.
pub fn decompose(alloc: Global, name: FullName) -> Result<FullName, AllocError>
    ensures { IfOk result (λ n. full_bytes n ≡ decomposed (full_bytes name)) }
{
    match in_form_d(alloc, name.to_path())? {
        Some(form) => Ok(form),
        None => Ok(name),
    }
}
