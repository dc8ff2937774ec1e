//! Short names of references (`git symbolic-ref --short`, `%(refname:short)` of `git for-each-ref`).
ghost use Rattle.std.specs.Prelude.{◌≡◌, ◌++◌, ◌∷◌, [], IfErr, IfOk, IfSome, OnOk};
ghost use Rattle.gix_ref_store.specs.Lookup.{LooksUp};
ghost use Rattle.gix_ref_queries.specs.Patterns.{texts};
ghost use Rattle.gix_ref_queries.specs.Resolving.{OfTargets};
ghost use Rattle.gix_ref_queries.specs.Rows.{row_texts};
ghost use Rattle.gix_ref_queries.specs.Shortening.{IsAskedAfter, IsAskedAmong, IsAskedBy, IsAskedFor, IsNoShort, IsShortBy, IsShortOf, SeesClear, SeesDecided, SeesLeads, SeesShort, SeesShortAfter, SeesShortBy, decided, full_names, is_clear_among, leads_to_object, lent_bytes, short_after, short_by, short_name};

use crate::resolve::{End, Followed, follow};
use gix_ref_files::files::Files;
use gix_ref_name::name::FullNameRef;
use gix_ref_store::file::Store;
use gix_ref_store::file::find::Error;
use std::alloc::{AllocError, Global};

/// Why there is no short name.
#[derive(Debug, Drop)]
pub enum ShortError {
    /// A lookup failed.
    Unread(Error),
    /// There was no memory.
    Memory,
}

impl From<AllocError> for ShortError {
    ghost use Rattle.std.specs.Prelude.{◌≡◌};
    ghost use Rattle.gix_ref_queries.specs.declared.short.ShortError.TheVariants.{Memory};

    ghost from_gives = { λ _ e. e ≡ Memory };

    fn from(_error: AllocError) -> Self {
        ShortError::Memory
    }
}

/// Whether a name leads to an object.
fn leads_to_object<F: Files>(
    alloc: Global,
    store: &mut Store<F>,
    name: &[u8],
) -> Result<bool, ShortError>
    ensures leads { OfTargets F.honest F.means store.old
        (λ find. IfOk result (λ leads. leads ≡ leads_to_object find name.now)) }
    ensures seen { F.honest → IfOk result (SeesLeads F.means store.old name.now) }
    ensures failed { IfErr result (IsNoShort F.Reader.ReadAt F.honest F.means F.faults
        (λ find full. full ≡ name.now) store.old) }
    ensures unchanged { LooksUp F.honest F.means store.old store.new }
{
    let Ok(full) = FullNameRef::try_from(name) else {
        return Ok(false);
    };
    let owned = full.to_owned(alloc)?;
    let Followed { name: _, end } = follow(alloc, store, owned);
    match end {
        End::Object(_) => Ok(true),
        End::Absent => Ok(false),
        End::TooDeep => Ok(false),
        End::Unread(error) => Err(ShortError::Unread(error)),
        End::Memory => Err(ShortError::Memory),
    }
}

/// Adds a short name between these texts.
fn push_name(
    alloc: Global,
    names: &mut Vec<Vec<u8>>,
    prefix: &[u8],
    short: &[u8],
    end: &[u8],
) -> Result<(), AllocError>
    ensures { OnOk result (row_texts names.new.items
        ≡ row_texts names.old.items ++ (prefix.now ++ (short.now ++ end.now)) ∷ []) }
{
    let mut name = prefix.to_vec(alloc)?;
    name.extend_from_slice(short)?;
    name.extend_from_slice(end)?;
    names.push(name)?;
    Ok(())
}

/// The full names that a short one may be short for, in the order in which Git looks them up.
fn full_names(alloc: Global, short: &[u8]) -> Result<Vec<Vec<u8>>, AllocError>
    ensures { IfOk result (λ names. row_texts names.items ≡ full_names short.now) }
{
    let mut names = Vec::new(alloc);
    push_name(alloc, &mut names, b"", short, b"")?;
    push_name(alloc, &mut names, b"refs/", short, b"")?;
    push_name(alloc, &mut names, b"refs/tags/", short, b"")?;
    push_name(alloc, &mut names, b"refs/heads/", short, b"")?;
    push_name(alloc, &mut names, b"refs/remotes/", short, b"")?;
    push_name(alloc, &mut names, b"refs/remotes/", short, b"/HEAD")?;
    Ok(names)
}

/// What one of the full names decides, of which this is the one that is shown: it is that one, and those after it need not be looked up;
/// or another one, which leads to an object; or nothing.
fn decided<F: Files>(
    alloc: Global,
    store: &mut Store<F>,
    strict: bool,
    name: &[u8],
    full: &[u8],
) -> Result<Option<bool>, ShortError>
    ensures decides { OfTargets F.honest F.means store.old
        (λ find. IfOk result (λ clear. clear ≡ decided find strict name.now full.now)) }
    ensures seen { F.honest →
        IfOk result (SeesDecided F.means store.old strict name.now full.now) }
    ensures failed { IfErr result (IsNoShort F.Reader.ReadAt F.honest F.means F.faults
        (IsAskedAmong strict name.now (full.now ∷ [])) store.old) }
    ensures unchanged { LooksUp F.honest F.means store.old store.new }
{
    if full == name {
        return Ok(if strict { None } else { Some(true) });
    }
    match leads_to_object(alloc, store, full) {
        Ok(leads) => Ok(if leads { Some(false) } else { None }),
        Err(error) => Err(error),
    }
}

/// Whether none of these names but this one leads to an object; those after it are looked up only where that is strict.
fn is_clear_among<F: Files>(
    alloc: Global,
    store: &mut Store<F>,
    strict: bool,
    name: &[u8],
    names: &[Vec<u8>],
) -> Result<bool, ShortError>
    ensures clear { OfTargets F.honest F.means store.old (λ find. IfOk result
        (λ clear. clear ≡ is_clear_among find strict name.now (row_texts names.now))) }
    ensures seen { F.honest →
        IfOk result (SeesClear F.means store.old strict name.now (row_texts names.now)) }
    ensures failed { IfErr result (IsNoShort F.Reader.ReadAt F.honest F.means F.faults
        (IsAskedAmong strict name.now (row_texts names.now)) store.old) }
    ensures unchanged { LooksUp F.honest F.means store.old store.new }
{
    for full in names {
        match decided(alloc, store, strict, name, full) {
            Ok(Some(clear)) => return Ok(clear),
            Ok(None) => {}
            Err(error) => return Err(error),
        }
    }
    Ok(true)
}

/// The rest of a name after this prefix, where that is short for it alone.
fn short_after<'n, F: Files>(
    alloc: Global,
    store: &mut Store<F>,
    strict: bool,
    name: &'n [u8],
    prefix: &[u8],
) -> Result<Option<&'n [u8]>, ShortError>
    ensures short { OfTargets F.honest F.means store.old (λ find. IfOk result
        (λ short. lent_bytes short ≡ short_after find strict name.now prefix.now)) }
    ensures seen { F.honest → IfOk result (λ short. SeesShortAfter F.means store.old strict
        name.now prefix.now (lent_bytes short)) }
    ensures rest { IfOk result (λ short. IfSome short
        (λ rest. name.now ≡ prefix.now ++ rest.now)) }
    ensures failed { IfErr result (IsNoShort F.Reader.ReadAt F.honest F.means F.faults
        (IsAskedAfter strict name.now prefix.now) store.old) }
    ensures unchanged { LooksUp F.honest F.means store.old store.new }
{
    let Some(short) = name.strip_prefix(prefix) else {
        return Ok(None);
    };
    let names = full_names(alloc, short)?;
    match is_clear_among(alloc, store, strict, name, &names) {
        Ok(clear) => Ok(if clear { Some(short) } else { None }),
        Err(error) => Err(error),
    }
}

/// The short name by the first of these prefixes that gives one; else the name itself.
fn short_by<'n, F: Files>(
    alloc: Global,
    store: &mut Store<F>,
    strict: bool,
    name: &'n [u8],
    prefixes: &[&[u8]],
) -> Result<&'n [u8], ShortError>
    ensures short { OfTargets F.honest F.means store.old (λ find. IfOk result
        (λ short. short.now ≡ short_by find strict name.now (texts prefixes.now))) }
    ensures seen { F.honest → IfOk result (λ short. SeesShortBy F.means store.old strict name.now
        (texts prefixes.now) short.now) }
    ensures rest { IfOk result (λ short. IsShortBy name.now (texts prefixes.now) short.now) }
    ensures failed { IfErr result (IsNoShort F.Reader.ReadAt F.honest F.means F.faults
        (IsAskedBy strict name.now (texts prefixes.now)) store.old) }
    ensures unchanged { LooksUp F.honest F.means store.old store.new }
{
    for prefix in prefixes {
        match short_after(alloc, store, strict, name, prefix) {
            Ok(Some(short)) => return Ok(short),
            Ok(None) => {}
            Err(error) => return Err(error),
        }
    }
    Ok(name)
}

/// The short name of a reference: what comes after `refs/remotes/`, `refs/heads/`, `refs/tags/` or `refs/`, where of the names that Git
/// takes it for (`git help gitrevisions`) no other one leads to an object; else the whole name. Where `strict` is false, only those that
/// Git looks up before this name are asked for, which it would take in its place. The error is that of a lookup, or reports that there
/// was no memory.
///
/// Costs up to ten lookups, each with the names on its way. As `shorten_unambiguous_ref` of git, with the rules of git 2.39: the `HEAD` of a
/// remote keeps its last component.
pub fn short_name<'n, F: Files>(
    alloc: Global,
    store: &mut Store<F>,
    strict: bool,
    name: &'n [u8],
) -> Result<&'n [u8], ShortError>
    ensures short { OfTargets F.honest F.means store.old
        (λ find. IfOk result (λ short. short.now ≡ short_name find strict name.now)) }
    ensures seen { F.honest →
        IfOk result (λ short. SeesShort F.means store.old strict name.now short.now) }
    ensures rest { IfOk result (λ short. IsShortOf name.now short.now) }
    ensures failed { IfErr result (IsNoShort F.Reader.ReadAt F.honest F.means F.faults
        (IsAskedFor strict name.now) store.old) }
    ensures unchanged { LooksUp F.honest F.means store.old store.new }
{
    let prefixes: &[&[u8]] = &[b"refs/remotes/", b"refs/heads/", b"refs/tags/", b"refs/"];
    short_by(alloc, store, strict, name, prefixes)
}
