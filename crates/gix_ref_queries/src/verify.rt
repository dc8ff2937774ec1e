//! `show-ref --verify` and `symbolic-ref`.
ghost use Rattle.std.specs.Prelude.{◌≡◌, ◌++◌, IfOk, IfErr, MatchOption, Option, Some, None, codes, true, false};
ghost use Rattle.gix_ref_name.specs.Names.{full_ref_bytes};
ghost use Rattle.gix_ref_queries.specs.Shortening.{IsAskedFor, IsNoShort};
ghost use Rattle.gix_ref_store.specs.Lookup.{LooksUp};
ghost use Rattle.gix_ref_queries.specs.Answers.{Says, LastName, is_verifiable, VerifiesAs, VerifiesFull, SymbolicAs, SymbolicFull, ShowsLast, IsShownAs, EndVerified, NotValid, NoSuchRef};
ghost use Rattle.hex.specs.Hex.{encode_lower};
ghost use Rattle.gix_ref_hash.specs.Ids.{id_bytes};

use crate::answer::{Answer, fatal, said};
use crate::resolve::{End, Followed, follow};
use crate::short::{ShortError, short_name};
use gix_ref_files::files::Files;
use gix_ref_hash::hash::ObjectId;
use gix_ref_name::name::FullNameRef;
use gix_ref_store::file::Store;
use std::alloc::{AllocError, Global};

/// The name of a reference, where it may be verified: it begins with `refs/`, or is `HEAD`.
fn verifiable(name: &[u8]) -> Option<FullNameRef<'_>>
    ensures { MatchOption result (is_verifiable name.now ≡ false)
        (λ full. (is_verifiable name.now ≡ true) × (full_ref_bytes full ≡ name.now)) }
{
    if !name.starts_with(b"refs/") && name != b"HEAD".as_slice() {
        return None;
    }
    match FullNameRef::try_from(name) {
        Ok(full) => Some(full),
        Err(_) => None,
    }
}

/// The answer for a name that leads to no object.
fn not_valid(alloc: Global, name: &[u8]) -> Result<Answer, AllocError>
    ensures { IfOk result (NotValid name.now) }
{
    fatal(alloc, b"'", name, b"' - not a valid ref")
}

/// The answer for a name that leads to an object.
fn valid(alloc: Global, id: ObjectId, name: &[u8]) -> Result<Answer, AllocError>
    ensures { IfOk result (Says
        (encode_lower (id_bytes id) ++ (codes " " ++ (name.now ++ codes "\n"))) 0) }
{
    let mut text = Vec::new(alloc);
    id.push_hex(&mut text)?;
    text.extend_from_slice(b" ")?;
    text.extend_from_slice(name)?;
    text.extend_from_slice(b"\n")?;
    Ok(said(alloc, text, 0))
}

/// The answer for a name whose following ends so.
fn verified(alloc: Global, name: &[u8], end: End) -> Result<Answer, AllocError>
    ensures { IfOk result (EndVerified end name.now) }
{
    match end {
        End::Object(id) => valid(alloc, id, name),
        End::Absent | End::TooDeep | End::Unread(_) => not_valid(alloc, name),
        End::Memory => Err(AllocError),
    }
}

/// The answer for a name that may be verified.
fn verify_full<F: Files>(
    alloc: Global,
    store: &mut Store<F>,
    name: FullNameRef<'_>,
) -> Result<Answer, AllocError>
    ensures answers { IfOk result (VerifiesFull F.Reader.ReadAt F.honest F.means F.faults store.old
        (full_ref_bytes name.entry)) }
    ensures unchanged { LooksUp F.honest F.means store.old store.new }
{
    let owned = name.to_owned(alloc)?;
    let Followed { name: _, end } = follow(alloc, store, owned);
    let answer = verified(alloc, name.to_path(), end)?;
    Ok(answer)
}

/// `show-ref --verify NAME`: the id of the object to which the name leads, and the name; `'NAME' - not a valid ref` with status 128
/// where it leads to none, where it cannot be read, and where it neither begins with `refs/` nor is `HEAD`. Each name is looked up as
/// it is, five at most. The error reports that there was no memory. As `git show-ref --verify`, which also asks for the object.
pub fn verify<F: Files>(
    alloc: Global,
    store: &mut Store<F>,
    name: &[u8],
) -> Result<Answer, AllocError>
    ensures answers { IfOk result
        (VerifiesAs F.Reader.ReadAt F.honest F.means F.faults store.old name.now) }
    ensures unchanged { LooksUp F.honest F.means store.old store.new }
{
    let answer = match verifiable(name) {
        Some(full) => verify_full(alloc, store, full)?,
        None => return not_valid(alloc, name),
    };
    Ok(answer)
}

/// The answer for the last name that another one leads to, which is shown so.
fn last_name(alloc: Global, name: &[u8], last: &[u8], shown: &[u8]) -> Result<Answer, AllocError>
    ensures { IfOk result (LastName last.now shown.now name.now) }
{
    if last == name {
        return fatal(alloc, b"ref ", name, b" is not a symbolic ref");
    }
    let mut text = shown.to_vec(alloc)?;
    text.extend_from_slice(b"\n")?;
    Ok(said(alloc, text, 0))
}

/// The answer for a name that no reference can have, or that cannot be followed.
fn no_such_ref(alloc: Global, name: &[u8]) -> Result<Answer, AllocError>
    ensures { IfOk result (NoSuchRef name.now) }
{
    fatal(alloc, b"No such ref: ", name, b"")
}

/// A name, or its short name.
fn shown_as<'n, F: Files>(
    alloc: Global,
    store: &mut Store<F>,
    short: bool,
    name: &'n [u8],
) -> Result<&'n [u8], ShortError>
    ensures shown { IfOk result (λ shown. IsShownAs F.honest F.means store.old
        short name.now shown.now) }
    ensures failed { IfErr result (IsNoShort F.Reader.ReadAt F.honest F.means F.faults
        (IsAskedFor false name.now) store.old) }
    ensures asked { IfErr result (λ error. short ≡ true) }
    ensures unchanged { LooksUp F.honest F.means store.old store.new }
{
    if short {
        short_name(alloc, store, false, name)
    } else {
        Ok(name)
    }
}

/// The answer for a name that leads to this last one.
fn shown_last<F: Files>(
    alloc: Global,
    store: &mut Store<F>,
    short: bool,
    name: FullNameRef<'_>,
    last: FullNameRef<'_>,
) -> Result<Answer, AllocError>
    ensures answers { IfOk result (ShowsLast F.Reader.ReadAt F.honest F.means F.faults store.old
        short (full_ref_bytes last.entry) (full_ref_bytes name.entry)) }
    ensures unchanged { LooksUp F.honest F.means store.old store.new }
{
    match shown_as(alloc, store, short, last.to_path()) {
        Ok(shown) => last_name(alloc, name.to_path(), last.to_path(), shown),
        Err(ShortError::Unread(_)) => no_such_ref(alloc, name.to_path()),
        Err(ShortError::Memory) => Err(AllocError),
    }
}

/// The answer for a name that a reference may have.
fn symbolic_full<F: Files>(
    alloc: Global,
    store: &mut Store<F>,
    short: bool,
    name: FullNameRef<'_>,
) -> Result<Answer, AllocError>
    ensures answers { IfOk result (SymbolicFull F.Reader.ReadAt F.honest F.means F.faults store.old
        short (full_ref_bytes name.entry)) }
    ensures unchanged { LooksUp F.honest F.means store.old store.new }
{
    let owned = name.to_owned(alloc)?;
    let Followed { name: last, end } = follow(alloc, store, owned);
    match end {
        End::Object(_) => shown_last(alloc, store, short, name, last.as_ref()),
        End::Absent => shown_last(alloc, store, short, name, last.as_ref()),
        End::TooDeep => no_such_ref(alloc, name.to_path()),
        End::Unread(_) => no_such_ref(alloc, name.to_path()),
        End::Memory => Err(AllocError),
    }
}

/// `symbolic-ref NAME`: the last name to which a symbolic reference leads, whether or not a reference of that name exists, or with `short`
/// its short name (`short_name`);
/// `ref NAME is not a symbolic ref` with status 128 where it is none, and `No such ref: NAME` where the name breaks a rule of names or
/// cannot be followed. Each name is looked up as it is, five at most. The error reports that there was no memory. As
/// `git symbolic-ref`.
pub fn symbolic<F: Files>(
    alloc: Global,
    store: &mut Store<F>,
    short: bool,
    name: &[u8],
) -> Result<Answer, AllocError>
    ensures answers { IfOk result
        (SymbolicAs F.Reader.ReadAt F.honest F.means F.faults store.old short name.now) }
    ensures unchanged { LooksUp F.honest F.means store.old store.new }
{
    let answer = match FullNameRef::from_path(name) {
        Some(full) => symbolic_full(alloc, store, short, full)?,
        None => return no_such_ref(alloc, name),
    };
    Ok(answer)
}
