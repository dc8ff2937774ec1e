//! Names that are in one another's way: of `refs/heads/a` and `refs/heads/a/b` only one may exist (`git update-ref`).

ghost use Rattle.std.specs.Prelude.{◌≡◌, ◌<◌, ℕ, List, length, map, true, false, Decides, IfErr, IfOk, MatchBool, MatchOption, OnOk, is_some};
ghost use Rattle.std.specs.List.{Contains};
ghost use Rattle.std.specs.Option.{option_map};
ghost use Rattle.gix_ref_edits.specs.RefEdits.{expected_of, matched, name_of};
ghost use Rattle.gix_ref_edits.specs.declared.transaction.RefEdit.{RefEdit as AnEdit};
ghost use Rattle.gix_ref_name.specs.Names.{full_bytes, full_ref_bytes};
ghost use Rattle.gix_ref_queries.specs.Resolving.{IsUnfollowedBy, IsUnreadBy, OfTargets, resolved, targets_in};
ghost use Rattle.gix_ref_store.specs.Listings.{walked_prefix};
ghost use Rattle.gix_ref_store.specs.Lookup.{AreRecordsIn, LooksUp};
ghost use Rattle.gix_ref_target.specs.PackedRecords.{Record};
ghost use Rattle.gix_ref_session.specs.Clashes.{AfterFree, AreClear, AreNamesOf, GivesOne, HasFreeFolders, IsBelowTaken, IsClashFailure, IsClearEditIn, IsClearIn, IsEditFailure, IsFindFailure, IsFreeBefore, IsFolderAt, IsFolderOf, IsFolderUnread, IsInTheWay, IsListFailure, IsNameFailure, IsOwnUnread, IsTaken, IsTakenAt, OfEdited, OfEdits, OfTaken, OfWalk, SaysListed, SeesBelow, SeesBelowTaken, SeesClashes, SeesClearEdit, SeesFreeBefore, SeesFreeFolders, SeesMade, SeesMissingEnd, SeesTaken, SeesTakenAt, SeesThere, front_below, made_name, missing_last};
ghost use Rattle.gix_ref_session.specs.declared.fatal.Fatal.TheVariants.{Memory};

use crate::fatal::Fatal;
use gix_ref_edits::transaction::{PreviousValue, RefEdit};
use gix_ref_files::files::Files;
use gix_ref_name::name::{FullName, FullNameRef};
use gix_ref_packed::packed::Buffer;
use gix_ref_queries::resolve::{End, Followed, NameRead, follow, read_name};
use gix_ref_store::file::Store;
use gix_ref_store::file::iter::{self, LooseNames};
use std::alloc::{AllocError, Global};

/// Whether there is a reference of this full name.
fn exists<F: Files>(
    alloc: Global,
    store: &mut Store<F>,
    name: FullNameRef<'_>,
) -> Result<bool, Fatal>
    ensures finds { OfTargets F.honest F.means store.old (λ find. IfOk result
        (λ there. there ≡ is_some (find (full_ref_bytes name.entry)))) }
    ensures seen { F.honest →
        IfOk result (SeesThere F.means store.old (full_ref_bytes name.entry)) }
    ensures unchanged { LooksUp F.honest F.means store.old store.new }
    ensures fails { IfErr result
        (IsFindFailure (IsUnreadBy F.Reader.ReadAt F.honest F.means F.faults store.old
        (full_ref_bytes name.entry))) }
{
    match read_name(alloc, store, name) {
        NameRead::Is(_) => Ok(true),
        NameRead::Absent => Ok(false),
        NameRead::Unread(error) => Err(Fatal::Find(error)),
        NameRead::Memory => Err(Fatal::Memory),
    }
}

/// The last name that symbolic references lead this one to, where there is no reference of it.
fn missing_end<F: Files>(
    alloc: Global,
    store: &mut Store<F>,
    name: &FullName,
) -> Result<Option<FullName>, Fatal>
    ensures ends { OfTargets F.honest F.means store.old (λ find. IfOk result
        (λ last. option_map full_bytes last
        ≡ missing_last (resolved find 5 (full_bytes name.now)))) }
    ensures seen { F.honest → IfOk result (λ last. SeesMissingEnd F.means store.old
        (full_bytes name.now) (option_map full_bytes last)) }
    ensures unchanged { LooksUp F.honest F.means store.old store.new }
    ensures fails { IfErr result
        (IsFindFailure (IsUnfollowedBy F.Reader.ReadAt F.honest F.means F.faults store.old
        (full_bytes name.now))) }
{
    let Followed { name: last, end } = follow(alloc, store, name.clone()?);
    match end {
        End::Absent => Ok(Some(last)),
        End::Object(_) => Ok(None),
        End::TooDeep => Ok(None),
        End::Unread(error) => Err(Fatal::Find(error)),
        End::Memory => Err(Fatal::Memory),
    }
}

/// Whether an edit expects a value, so that its reference has to be there.
fn expects_value(edit: &RefEdit) -> bool
    ensures { result ≡ is_some (matched (expected_of edit.now.change)) }
{
    matches!(
        edit.change.expectation(),
        PreviousValue::MustExistAndMatch(_)
    )
}

/// The name of the reference that an edit is of in the end, where it is not there. One that has to be there is not looked for.
#[tactic(auto, using(crate::proofs::Looking::looks_on, crate::proofs::Looking::looks_same))]
fn missing_name<F: Files>(
    alloc: Global,
    store: &mut Store<F>,
    edit: &RefEdit,
) -> Result<Option<FullName>, Fatal>
    ensures makes { OfTargets F.honest F.means store.old (λ find. IfOk result
        (λ name. option_map full_bytes name ≡ made_name find edit.now)) }
    ensures seen { F.honest → IfOk result (λ name. SeesMade F.means store.old edit.now
        (option_map full_bytes name)) }
    ensures unchanged { LooksUp F.honest F.means store.old store.new }
    ensures fails { IfErr result
        (IsFindFailure (IsOwnUnread F.honest F.means F.faults F.Reader.ReadAt store.old
        edit.now)) }
{
    if expects_value(edit) {
        return Ok(None);
    }
    if edit.deref {
        return missing_end(alloc, store, &edit.name);
    }
    if exists(alloc, store, edit.name.as_ref())? {
        return Ok(None);
    }
    Ok(Some(edit.name.clone()?))
}

/// Whether there is an edit of this name.
fn is_edited(edited: &[&[u8]], name: &[u8]) -> bool
    ensures { (edits : List AnEdit) → AreNamesOf edits edited.now →
        Decides result (Contains (map name_of edits) name.now) }
{
    edited.binary_search(&name).is_ok()
}

/// Whether there is a reference of this name, or an edit of it.
#[tactic(auto, using(crate::proofs::Looking::looks_on, crate::proofs::Looking::looks_same))]
fn is_taken<F: Files>(
    alloc: Global,
    store: &mut Store<F>,
    name: FullNameRef<'_>,
    edited: &[&[u8]],
) -> Result<bool, Fatal>
    ensures taken { OfTaken F.honest F.means store.old edited.now (λ find edits. IfOk result
        (λ taken. Decides taken (IsTaken find edits (full_ref_bytes name.entry)))) }
    ensures seen { OfEdited F.honest edited.now (λ edits.
        IfOk result (SeesTaken F.means store.old edits (full_ref_bytes name.entry))) }
    ensures unchanged { LooksUp F.honest F.means store.old store.new }
    ensures fails { IfErr result
        (IsFindFailure (IsUnreadBy F.Reader.ReadAt F.honest F.means F.faults store.old
        (full_ref_bytes name.entry))) }
{
    if is_edited(edited, name.to_path()) {
        return Ok(true);
    }
    exists(alloc, store, name)
}

/// The folder of a name that ends before this place, if there is one.
fn folder_before(name: &[u8], at: usize) -> Option<FullNameRef<'_>>
    ensures { MatchOption result ((folder : List ℕ) → IsFolderAt at folder name.now → ⊥)
        (λ folder. IsFolderAt at (full_ref_bytes folder) name.now) }
{
    if at >= name.len() || name[at] != b'/' {
        return None;
    }
    match FullNameRef::try_from(&name[..at]) {
        Ok(folder) => Some(folder),
        Err(_) => None,
    }
}

/// Whether the folder of a name that ends before this place is a reference, or has an edit.
fn is_folder_taken<F: Files>(
    alloc: Global,
    store: &mut Store<F>,
    name: &[u8],
    at: usize,
    edited: &[&[u8]],
) -> Result<bool, Fatal>
    ensures taken { OfTaken F.honest F.means store.old edited.now (λ find edits. IfOk result
        (λ taken. Decides taken (IsTakenAt find edits at name.now))) }
    ensures seen { OfEdited F.honest edited.now
        (λ edits. IfOk result (SeesTakenAt F.means store.old edits at name.now)) }
    ensures unchanged { LooksUp F.honest F.means store.old store.new }
    ensures fails { IfErr result
        (IsFindFailure (IsFolderUnread F.honest F.means F.faults F.Reader.ReadAt store.old
        name.now)) }
{
    match folder_before(name, at) {
        Some(folder) => is_taken(alloc, store, folder, edited),
        None => Ok(false),
    }
}

/// How many bytes two names have in common at their front. A folder of the one that ends before that is one of the other.
fn common_prefix_len(name: &[u8], other: &[u8]) -> usize
    ensures { (folder : List ℕ) → IsFolderOf folder name.now → length folder < result →
        IsFolderOf folder other.now }
{
    for at in 0..name.len() {
        if at >= other.len() || name[at] != other[at] {
            return at;
        }
    }
    name.len()
}

/// Whether a folder of the name is a reference, or has an edit. Those that end before `from` are known to be free, and not looked for.
#[tactic(auto, using(crate::proofs::Looking::looks_on, crate::proofs::Looking::looks_same))]
fn is_below_one<F: Files>(
    alloc: Global,
    store: &mut Store<F>,
    name: &[u8],
    from: usize,
    edited: &[&[u8]],
) -> Result<bool, Fatal>
    ensures below { OfTaken F.honest F.means store.old edited.now (λ find edits. IfOk result
        (λ below. below ≡ true → IsBelowTaken find edits name.now)) }
    ensures free { OfTaken F.honest F.means store.old edited.now (λ find edits.
        IsFreeBefore find edits from name.now → IfOk result
        (λ below. below ≡ false → HasFreeFolders find edits name.now)) }
    ensures seen { OfEdited F.honest edited.now (λ edits. IfOk result (λ below. MatchBool below
        (SeesBelowTaken F.means store.old edits name.now)
        (SeesFreeBefore F.means store.old edits from name.now →
        SeesFreeFolders F.means store.old edits name.now))) }
    ensures unchanged { LooksUp F.honest F.means store.old store.new }
    ensures fails { IfErr result
        (IsFindFailure (IsFolderUnread F.honest F.means F.faults F.Reader.ReadAt store.old
        name.now)) }
{
    for at in from..name.len() {
        if is_folder_taken(alloc, store, name, at, edited)? {
            return Ok(true);
        }
    }
    Ok(false)
}

/// Whether a listing among these records has an item.
#[tactic(auto, using(crate::proofs::Looking::looks_on, crate::proofs::Looking::looks_same))]
fn lists_one<F: Files>(
    alloc: Global,
    store: &mut Store<F>,
    names: LooseNames,
    packed: Option<&Buffer>,
) -> Result<bool, Fatal>
    ensures lists { OfWalk F.honest F.means F.faults store.old names packed.entry
        (λ start records. IfOk result
        (SaysListed F.honest F.means F.faults start records (walked_prefix names))) }
    ensures seen { F.honest →
        IfOk result (GivesOne F.honest F.means F.faults store.old names packed.entry) }
    ensures unchanged { LooksUp F.honest F.means store.old store.new }
    ensures memory { IfErr result (λ fatal. fatal ≡ Memory) }
{
    match store.iter_walked(alloc, names, packed) {
        Ok(mut items) => {
            let any = items.next().is_some();
            items.into_store();
            Ok(any)
        }
        // There was no memory.
        Err(_) => Err(Fatal::Memory),
    }
}

/// Whether there is a reference whose name begins with this prefix.
#[tactic(auto, using(crate::proofs::Looking::looks_on, crate::proofs::Looking::looks_same))]
fn has_below<F: Files>(alloc: Global, store: &mut Store<F>, prefix: &[u8]) -> Result<bool, Fatal>
    ensures lists { F.honest → (records : List Record) → AreRecordsIn F.means store.old records →
        IfOk result (SaysListed F.honest F.means F.faults store.old records prefix.now) }
    ensures seen { F.honest →
        IfOk result (SeesBelow F.honest F.means F.faults store.old prefix.now) }
    ensures unchanged { LooksUp F.honest F.means store.old store.new }
    ensures fails { IfErr result
        (IsListFailure F.honest F.means F.faults F.Reader.ReadAt store.old prefix.now) }
{
    let names = match store.walk_prefixed(alloc, prefix) {
        Ok(names) => names,
        Err(error) => return Err(Fatal::List(error)),
    };
    match store.open_packed_prefixed(alloc, prefix) {
        Ok(packed) => lists_one(alloc, store, names, packed.as_ref()),
        Err(error) => Err(Fatal::List(iter::Error::PackedOpen(error))),
    }
}

/// What the names below a name begin with.
fn prefix_below(alloc: Global, name: &FullName) -> Result<Vec<u8>, AllocError>
    ensures { IfOk result (λ prefix. prefix.items ≡ front_below (full_bytes name.now)) }
{
    let mut prefix = name.to_path().to_vec(alloc)?;
    prefix.push(b'/')?;
    Ok(prefix)
}

/// Whether a name is in the way of another. The folders of `last` are known to be free.
#[tactic(auto, using(crate::proofs::Looking::looks_on, crate::proofs::Looking::looks_same))]
fn is_in_the_way<F: Files>(
    alloc: Global,
    store: &mut Store<F>,
    name: &FullName,
    last: &[u8],
    edited: &[&[u8]],
) -> Result<bool, Fatal>
    ensures clashes { OfEdits F.honest F.means store.old edited.now (λ records edits. IfOk result
        (λ clashes. clashes ≡ true →
        IsInTheWay F.honest F.means F.faults store.old edits records (full_bytes name.now))) }
    ensures clear { AfterFree F.honest F.means store.old edited.now last.now
        (λ records edits. IfOk result (λ clashes. clashes ≡ false →
        IsClearIn F.honest F.means store.old records edits (full_bytes name.now))) }
    ensures seen { OfEdited F.honest edited.now (λ edits. IfOk result (SeesClashes F.honest F.means
        F.faults store.old edits last.now (full_bytes name.now))) }
    ensures unchanged { LooksUp F.honest F.means store.old store.new }
    ensures fails { IfErr result
        (IsNameFailure F.honest F.means F.faults F.Reader.ReadAt store.old
        (full_bytes name.now)) }
{
    let path = name.to_path();
    if is_below_one(alloc, store, path, common_prefix_len(path, last), edited)? {
        return Ok(true);
    }
    let prefix = prefix_below(alloc, name)?;
    has_below(alloc, store, &prefix)
}

/// Refuses an edit that makes a reference with a name in the way of another, or another in its way. Gives the name that it makes, or
/// `last` where it makes none: a name whose folders are free.
#[tactic(auto, using(crate::proofs::Looking::looks_on, crate::proofs::Looking::looks_same))]
fn check_name<F: Files>(
    alloc: Global,
    store: &mut Store<F>,
    edit: &RefEdit,
    last: Vec<u8>,
    edited: &[&[u8]],
) -> Result<Vec<u8>, Fatal>
    ensures clear { AfterFree F.honest F.means store.old edited.now last.items
        (λ records edits. OnOk result
        (IsClearEditIn F.honest F.means store.old records edits edit.now)) }
    ensures free { AfterFree F.honest F.means store.old edited.now last.items
        (λ records edits. IfOk result
        (λ name. HasFreeFolders (targets_in F.means store.old records) edits name.items)) }
    ensures seen { OfEdited F.honest edited.now (λ edits. IfOk result
        (λ name. SeesFreeFolders F.means store.old edits last.items →
        SeesClearEdit F.honest F.means F.faults store.old edits edit.now
        × SeesFreeFolders F.means store.old edits name.items)) }
    ensures unchanged { LooksUp F.honest F.means store.old store.new }
    ensures fails { (edits : List AnEdit) → AreNamesOf edits edited.now → IfErr result
        (IsEditFailure F.honest F.means F.faults F.Reader.ReadAt store.old edits edit.now) }
{
    let Some(name) = missing_name(alloc, store, edit)? else {
        return Ok(last);
    };
    if is_in_the_way(alloc, store, &name, &last, edited)? {
        return Err(Fatal::Clash(name));
    }
    Ok(name.into_inner())
}

/// The names of edits, sorted.
fn names_of(alloc: Global, edits: &[RefEdit]) -> Result<Vec<&[u8]>, AllocError>
    ensures { IfOk result (λ names. AreNamesOf edits.now names.items) }
{
    let mut names = Vec::new(alloc);
    for edit in edits {
        names.push(edit.name.to_path())?;
    }
    names.sort()?;
    Ok(names)
}

/// Refuses edits of which one makes a reference with a name in the way of another.
#[tactic(auto, using(crate::proofs::Looking::looks_on, crate::proofs::Looking::looks_same))]
pub(crate) fn check_names<F: Files>(
    alloc: Global,
    store: &mut Store<F>,
    edits: &[RefEdit],
) -> Result<(), Fatal>
    ensures clear { OnOk result (AreClear F.honest F.means F.faults store.old edits.now) }
    ensures unchanged { LooksUp F.honest F.means store.old store.new }
    ensures fails { IfErr result
        (IsClashFailure F.honest F.means F.faults F.Reader.ReadAt store.old edits.now) }
{
    let edited = names_of(alloc, edits)?;
    let mut last = Vec::new(alloc);
    for edit in edits {
        last = check_name(alloc, store, edit, last, &edited)?;
    }
    Ok(())
}
