//! Which prefixes have a listing.
ghost use Rattle.std.specs.Prelude.{◌≡◌, MatchResult};
ghost use Rattle.gix_ref_listing.specs.CleanPrefixes.{is_clean_prefix, without_slash, IsAcceptedPrefix, IsRefusedPrefix};

use gix_ref_lookup::folders::is_clean_path;
use gix_ref_name::namespace::Namespace;
use gix_ref_packed::packed::buffer::open;
use std::alloc::AllocError;
use thiserror::Error;

/// Why there is no listing.
#[derive(Debug, Drop, Error)]
pub enum Error {
    /// The prefix is empty, and the store is in no namespace.
    #[error("the prefix of a listing is empty")]
    EmptyPrefix,
    /// The prefix begins with a slash, has two slashes in a row or a NUL, or a component of it is `.` or `..`.
    #[error("the prefix of a listing is not clean")]
    PrefixNotClean,
    /// `packed-refs` could not be opened or read.
    #[error("packed-refs could not be opened: {0}")]
    PackedOpen(open::Error),
    /// There was no memory for what the walk found.
    #[error("out of memory")]
    Memory,
}

impl From<AllocError> for Error {
    ghost use Rattle.std.specs.Prelude.{◌≡◌};
    ghost use Rattle.gix_ref_listing.specs.declared.prefix.Error.TheVariants.{Memory};

    ghost from_gives = { λ _ e. e ≡ Memory };

    fn from(_error: AllocError) -> Error {
        Error::Memory
    }
}

/// The prefix without the slash at its end.
fn without_slash(prefix: &[u8]) -> &[u8]
    ensures { result.now ≡ without_slash prefix.now }
{
    match prefix.strip_suffix(b"/") {
        Some(rest) => rest,
        None => prefix,
    }
}

/// Whether names may begin with this prefix.
fn is_clean(prefix: &[u8]) -> bool
    ensures { result ≡ is_clean_prefix prefix.now }
{
    prefix.is_empty() || (!prefix.starts_with(b"/") && is_clean_path(without_slash(prefix)))
}

/// Whether the prefix has a listing, in this namespace or in none.
pub fn check_prefix(namespace: &Option<Namespace>, prefix: &[u8]) -> Result<(), Error>
    ensures { MatchResult result (λ _. IsAcceptedPrefix namespace.now prefix.now)
        (IsRefusedPrefix namespace.now prefix.now) }
{
    if prefix.is_empty() && namespace.is_none() {
        return Err(Error::EmptyPrefix);
    }
    if !is_clean(prefix) {
        return Err(Error::PrefixNotClean);
    }
    Ok(())
}
