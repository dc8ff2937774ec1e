//! Packing of loose references (`git pack-refs`).
ghost use Rattle.std.specs.Prelude.{◌≡◌, ◌⊎◌, ◌++◌, ◌||◌, List, [], true, false, IfErr, IfOk, OnOk, is_some};
ghost use Rattle.std.specs.List.{Any, filter};
ghost use Rattle.gix_ref_listing.specs.declared.error.Error.{Error as ItemError};
ghost use Rattle.gix_ref_files.specs.Files.{LossesLeave, StopsLeave};
ghost use Rattle.gix_ref_hash.specs.declared.hash.ObjectId.{ObjectId as Id};
ghost use Rattle.gix_ref_packed.specs.Buffers.{HoldsRecords, buffer_kind, buffer_text};
ghost use Rattle.gix_ref_packed.specs.OpenFiles.{HasReadFault};
ghost use Rattle.gix_ref_store.specs.Lookup.{AreHeld, LooksUp};
ghost use Rattle.gix_ref_store.specs.Prepared.{IsAtRest, tree_of};
ghost use Rattle.gix_ref_store.specs.Store.{files_of, IsSameStore};
ghost use Rattle.gix_ref_target.specs.PackedRecords.{Record, record_named};
ghost use Rattle.gix_ref_transaction.specs.OwnLocks.{paths_of};
ghost use Rattle.gix_ref_pack.specs.KeptObjects.{AreKeptFor, KeepsObject};
ghost use Rattle.gix_ref_pack.specs.KnownObjects.{end_in, is_known};
ghost use Rattle.gix_ref_pack.specs.LooseObjects.{end_with_branches, faults_among, is_branch, is_shared, is_tag, IsKeyName, key_for, loose_among, loose_to, packable};
ghost use Rattle.gix_ref_pack.specs.Packings.{ArePicked, Chooses, ChoosesAmong, EachReadsAsItDid, HasKey, HidesKey, IsAskError, IsNoTag, IsOfLent, IsTagOr, OfComposed, Packs, PlanComes, PutEnds, TellsChosen, uses_of};

use crate::objects::Objects;
use gix_ref_edits::transaction::{Change, LogChange, PreviousValue, RefEdit};
use gix_ref_files::files::Files;
use gix_ref_hash::hash::ObjectId;
use gix_ref_name::name::FullName;
use gix_ref_name::namespace::Namespace;
use gix_ref_packed::packed::{Buffer, buffer, find};
use gix_ref_packed::raw::Reference;
use gix_ref_read_back::error::Error;
use gix_ref_read_back::list::list_loose;
use gix_ref_read_back::make::make;
use gix_ref_store::file::Store;
use gix_ref_store::file::iter::loose_then_packed;
use gix_ref_store::file::transaction::{PackedRefs, commit, prepare};
use gix_ref_target::layout::packed_key;
use gix_ref_target::target::Target;
use std::alloc::{AllocError, Global};
use thiserror::Error;

/// Why references were not packed.
#[derive(Debug, Drop, Error)]
pub enum PackError {
    /// There was no memory.
    #[error("out of memory")]
    Memory,
    /// `packed-refs` could not be opened.
    #[error("{0}")]
    Open(buffer::open::Error),
    /// A record of `packed-refs` cannot be read.
    #[error("{0}")]
    Find(find::ParseError),
    /// The transaction was refused.
    #[error("{0}")]
    Prepare(prepare::Error),
    /// Its commit failed.
    #[error("{0}")]
    Commit(commit::Error),
}

impl From<AllocError> for PackError {
    ghost use Rattle.std.specs.Prelude.{◌≡◌};
    ghost use Rattle.gix_ref_pack.specs.declared.pack.PackError.TheVariants.{Memory};

    ghost from_gives = { λ _ error. error ≡ Memory };

    fn from(_error: AllocError) -> PackError {
        PackError::Memory
    }
}

/// What became of a packing.
#[derive(Drop)]
pub struct Packed {
    /// How many references were packed, or why none was.
    pub result: Result<usize, PackError>,
    /// Loose references that are broken, and were left alone.
    pub broken: Vec<loose_then_packed::Error>,
    /// The paths of locks that could not be removed.
    pub locks_left: Vec<Vec<u8>>,
}

/// A loose reference to an object.
#[derive(Drop)]
struct Loose {
    name: FullName,
    id: ObjectId,
}

/// What is to be packed, and with which finder of objects.
#[derive(Drop)]
struct Plan {
    edits: Vec<RefEdit>,
    objects: Objects,
}

/// Whether the reference is below `refs/` and all worktrees share it: `packed-refs` may have it.
fn shares(name: &FullName) -> bool
    ensures { result ≡ is_shared name.now }
{
    name.to_path().starts_with(b"refs/") && packed_key(name.as_ref()).is_some()
}

/// The loose reference to an object that may be packed; `None` for a symbolic one, and for one that each worktree has for itself.
fn loose_of(reference: Reference) -> Option<Loose>
    ensures { result ≡ packable reference }
{
    let Reference { name, target, .. } = reference;
    match target {
        Target::Object(id) if shares(&name) => Some(Loose { name, id }),
        _ => None,
    }
}

/// The loose references among these items of a listing that may be packed. The faults among them are added to `broken`.
fn loose_objects(
    alloc: Global,
    items: Vec<Result<Reference, loose_then_packed::Error>>,
    broken: &mut Vec<loose_then_packed::Error>,
) -> Result<Vec<Loose>, AllocError>
    ensures found { IfOk result (λ found. found.items ≡ loose_among items.items) }
    ensures broken { OnOk result (broken.new.items ≡ broken.old.items ++ faults_among items.items) }
    ensures some { IfErr result (λ _. (more : List ItemError)
        × (broken.new.items ++ more ≡ broken.old.items ++ faults_among items.items)) }
{
    let mut found = Vec::new(alloc);
    for item in items {
        match item {
            Ok(reference) => {
                if let Some(loose) = loose_of(reference) {
                    found.push(loose)?;
                }
            }
            Err(error) => broken.push(error)?,
        }
    }
    Ok(found)
}

/// Whether the reference is a tag.
fn tags(name: &FullName) -> bool
    ensures { result ≡ is_tag name.now }
{
    name.to_path().starts_with(b"refs/tags/")
}

/// Whether the reference is a branch, or one of a remote: it points to a commit, by Git's own rule.
fn is_commit(name: &FullName) -> bool
    ensures { result ≡ is_branch name.now }
{
    let path = name.to_path();
    path.starts_with(b"refs/heads/") || path.starts_with(b"refs/remotes/")
}

/// The name that `packed-refs` is asked for: with the namespace in front. `None` where that is no full name.
fn key_of(
    alloc: Global,
    namespace: &Option<Namespace>,
    name: &FullName,
) -> Result<Option<FullName>, AllocError>
    ensures { IfOk result (λ found. IsKeyName (key_for namespace.now name.now) found) }
{
    let mut key = Vec::new(alloc);
    if let Some(namespace) = namespace {
        key.extend_from_slice(namespace.to_path())?;
    }
    key.extend_from_slice(name.to_path())?;
    match FullName::try_from(key) {
        Ok(key) => Ok(Some(key)),
        Err(_) => Ok(None),
    }
}

/// Whether one of the records has this name.
fn has_record(
    alloc: Global,
    namespace: &Option<Namespace>,
    records: &Buffer,
    name: &FullName,
) -> Result<bool, PackError>
    ensures chosen { (rs : List Record) → HoldsRecords (buffer_kind records.now) rs
        (buffer_text records.now) → TellsChosen result
        (is_some (record_named (key_for namespace.now name.now) rs)) }
    ensures line { IfOk result (λ there. there ≡ true →
        HasKey (key_for namespace.now name.now) records.now) }
    ensures errors { IfErr result
        (IsAskError (HidesKey (key_for namespace.now name.now) records.now)) }
{
    match key_of(alloc, namespace, name)? {
        Some(key) => match records.try_find_key(key.as_ref()) {
            Ok(found) => Ok(found.is_some()),
            Err(error) => Err(PackError::Find(error)),
        },
        None => Ok(false),
    }
}

/// Whether the reference is a tag, or has a record.
fn is_packed_again(
    alloc: Global,
    namespace: &Option<Namespace>,
    records: Option<&Buffer>,
    name: &FullName,
) -> Result<bool, PackError>
    ensures chosen { (rs : List Record) → AreHeld records.entry rs → TellsChosen result
        (is_tag name.now || is_some (record_named (key_for namespace.now name.now) rs)) }
    ensures line { IfOk result (λ again. again ≡ true → (is_tag name.now ≡ true)
        ⊎ IsOfLent (HasKey (key_for namespace.now name.now)) records.entry) }
    ensures tag { IfOk result (λ again. again ≡ false → is_tag name.now ≡ false) }
    ensures errors { IfErr result (IsAskError
        (IsOfLent (HidesKey (key_for namespace.now name.now)) records.entry)) }
{
    if tags(name) {
        return Ok(true);
    }
    match records {
        Some(records) => has_record(alloc, namespace, records, name),
        None => Ok(false),
    }
}

/// Those of these references that are tags, or have a record.
fn chosen_among(
    alloc: Global,
    namespace: &Option<Namespace>,
    records: Option<&Buffer>,
    found: Vec<Loose>,
) -> Result<Vec<Loose>, PackError>
    ensures chosen { (rs : List Record) → AreHeld records.entry rs → ChoosesAmong namespace.now rs
        found.items result }
    ensures picked { IfOk result (λ chosen. ArePicked
        (IsTagOr (λ key. IsOfLent (HasKey key) records.entry) namespace.now) IsNoTag
        found.items chosen.items) }
    ensures errors { IfErr result (IsAskError (Any (λ l.
        IsOfLent (HidesKey (key_for namespace.now l.name)) records.entry) found.items)) }
{
    let mut chosen = Vec::new(alloc);
    for loose in found {
        if is_packed_again(alloc, namespace, records, &loose.name)? {
            chosen.push(loose).map_err(AllocError::from)?;
        }
    }
    Ok(chosen)
}

/// Those of these references that are packed: all, or tags and those with a record.
fn choose<F: Files>(
    alloc: Global,
    store: &mut Store<F>,
    is_all: bool,
    found: Vec<Loose>,
) -> Result<Vec<Loose>, PackError>
    ensures chooses { Chooses F.honest F.means F.faults is_all found.items store.old store.new
        result }
    ensures looks { LooksUp F.honest F.means store.old store.new }
{
    if is_all {
        return Ok(found);
    }
    match store.open_packed_buffer(alloc) {
        Ok(records) => chosen_among(alloc, &store.namespace, records.as_ref(), found),
        Err(error) => Err(PackError::Open(error)),
    }
}

/// Adds the objects of branches, and of those of remotes: commits, by Git's own rule.
fn add_branches(objects: &mut Objects, chosen: &[Loose]) -> Result<(), AllocError>
    ensures { OnOk result ((id : Id) → end_in objects.new id
        ≡ end_with_branches chosen.now (end_in objects.old id) id) }
{
    for loose in chosen {
        if is_commit(&loose.name) {
            objects.add_commit(loose.id)?;
        }
    }
    Ok(())
}

/// The edit that gives a reference the object that it has already.
fn same_object(alloc: Global, name: FullName, id: ObjectId) -> RefEdit
    ensures { KeepsObject (loose_to name id) result }
{
    RefEdit {
        change: Change::Update {
            log: LogChange::new_in(alloc),
            expected: PreviousValue::MustExistAndMatch(Target::Object(id)),
            new: Target::Object(id),
        },
        name,
        deref: false,
    }
}

/// The edits that give these references the objects that they have already, as far as their objects are known.
fn edits_of(
    alloc: Global,
    chosen: Vec<Loose>,
    objects: &Objects,
) -> Result<Vec<RefEdit>, AllocError>
    ensures { IfOk result (λ edits. AreKeptFor (filter (λ l. is_known objects.now l.id)
        chosen.items) edits.items) }
{
    let mut edits = Vec::new(alloc);
    for Loose { name, id } in chosen {
        if objects.has(&id) {
            edits.push(same_object(alloc, name, id))?;
        }
    }
    Ok(edits)
}

/// The edits that pack what is asked for, and the finder for their transaction.
fn planned<F: Files>(
    alloc: Global,
    store: &mut Store<F>,
    is_all: bool,
    mut objects: Objects,
    broken: &mut Vec<loose_then_packed::Error>,
) -> Result<Plan, PackError>
    requires { broken.now.items ≡ [] }
    ensures plans { PlanComes F.honest F.means F.faults is_all objects store.old store.new
        result broken.new.items }
    ensures looks { LooksUp F.honest F.means store.old store.new }
{
    let items = match list_loose(alloc, store) {
        Ok(items) => items,
        Err(_) => return Err(PackError::Memory),
    };
    let found = loose_objects(alloc, items, broken)?;
    let chosen = choose(alloc, store, is_all, found)?;
    add_branches(&mut objects, &chosen)?;
    let edits = edits_of(alloc, chosen, &objects)?;
    Ok(Plan { edits, objects })
}

/// What the transaction does with `packed-refs`.
fn mode(prune: bool, objects: Objects) -> PackedRefs<Objects>
    ensures { result ≡ uses_of prune objects }
{
    if prune {
        PackedRefs::DeletionsAndNonSymbolicUpdatesRemoveLooseSourceReference(objects)
    } else {
        PackedRefs::DeletionsAndNonSymbolicUpdates(objects)
    }
}

/// Makes one transaction of the edits of a plan.
fn put<F: Files>(
    alloc: Global,
    store: &mut Store<F>,
    prune: bool,
    plan: Plan,
    broken: Vec<loose_then_packed::Error>,
) -> Packed
    ensures ends { PutEnds F.honest F.means F.faults (HasReadFault F.Reader.faults) prune plan
        store.old store.new result.result (paths_of result.locks_left.items) }
    ensures broken { result.broken ≡ broken }
    ensures same { IsSameStore store.old store.new }
{
    let Plan { edits, objects } = plan;
    let count = edits.len();
    match make(alloc, store, mode(prune, objects), edits, None) {
        Ok(done) => Packed {
            result: Ok(count),
            broken,
            locks_left: done.locks_left,
        },
        Err(Error::Prepare(refused)) => Packed {
            result: Err(PackError::Prepare(refused.error)),
            broken,
            locks_left: refused.locks_left,
        },
        Err(Error::Commit(failed)) => Packed {
            result: Err(PackError::Commit(failed.error)),
            broken,
            locks_left: failed.locks_left,
        },
    }
}

/// Puts loose references into `packed-refs`, each with the object at the end of its tags, and with `prune` removes their loose files
/// (`git pack-refs`).
///
/// With `is_all` these are all loose references below `refs/` that point to a known object, except for those of one worktree alone, below
/// `refs/bisect/`, `refs/rewritten/` and `refs/worktree/`. Without it they are the tags among these, and those that have a record in
/// `packed-refs` already. Known are the objects of the table, and those of the branches that are chosen, below `refs/heads/` and
/// `refs/remotes/`, which are commits by Git's own rule. In a namespace they are references of that namespace. Symbolic references stay as
/// they are, and so do broken ones, which are handed back. All is one transaction (clause `packs`), each of whose edits gives a reference
/// the object that it has: no reference reads otherwise afterwards, whatever becomes of the call, nor at a stop or after a loss of power
/// at any moment of it (clauses `stays`, `stops`, `losses`).
///
/// `Memory`; without `is_all` `Open`, where `packed-refs` cannot be opened, and `Find`, where a record that is asked for cannot be read;
/// `Prepare`, as `Transaction::prepare`, and `Commit`, as `Prepared::commit`. Costs the listing of the loose references and one
/// transaction of those that are packed.
pub fn pack_refs<F: Files>(
    alloc: Global,
    store: &mut Store<F>,
    is_all: bool,
    prune: bool,
    objects: Objects,
) -> Packed
    ensures packs { Packs F.honest F.means F.faults (HasReadFault F.Reader.faults) is_all prune
        objects store.old store.new result }
    ensures stays { F.honest → OfComposed F.means store.old
        (EachReadsAsItDid F.honest F.means F.faults store.old (tree_of F.means store.new)) }
    ensures stops { F.honest → OfComposed F.means store.old
        (StopsLeave (F.means (files_of store.old)) (F.means (files_of store.new))
        (EachReadsAsItDid F.honest F.means F.faults store.old)) }
    ensures losses { F.honest → OfComposed F.means store.old (IsAtRest F.means store.old →
        LossesLeave (F.means (files_of store.old)) (F.means (files_of store.new))
        (EachReadsAsItDid F.honest F.means F.faults store.old)) }
    ensures same { IsSameStore store.old store.new }
{
    let mut broken = Vec::new(alloc);
    match planned(alloc, store, is_all, objects, &mut broken) {
        Ok(plan) => if plan.edits.is_empty() {
            Packed {
                result: Ok(0),
                broken,
                locks_left: Vec::new(alloc),
            }
        } else {
            put(alloc, store, prune, plan, broken)
        },
        Err(error) => Packed {
            result: Err(error),
            broken,
            locks_left: Vec::new(alloc),
        },
    }
}
