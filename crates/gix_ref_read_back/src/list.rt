//! A listing after a transaction.
ghost use Rattle.std.specs.Prelude.{◌≡◌, ◌<◌, [], true, IfOk, IfErr};
ghost use Rattle.gix_ref_listing.specs.declared.prefix.Error.TheVariants.{Memory};
ghost use Rattle.gix_ref_packed.specs.OpenFiles.{HasReadFault};
ghost use Rattle.gix_ref_store.specs.Listings.{AreHeldFor, items_ahead, prefix_of_all, store_listed, walked_prefix};
ghost use Rattle.gix_ref_store.specs.Lookup.{LooksUp};
ghost use Rattle.gix_ref_store.specs.Store.{files_of};
ghost use Rattle.gix_ref_read_back.specs.ListedItems.{AreItemsIn, TakesNext, GivesAll, ListsAmong, ListsIn};
ghost use Rattle.gix_ref_read_back.specs.WholeRuns.{ListsAfter, IsNotMade};

use crate::error::Error;
use crate::make::make;
use gix_ref_edits::transaction::RefEdit;
use gix_ref_files::files::Files;
use gix_ref_log::actor::SignatureRef;
use gix_ref_object::object::{Find, Never};
use gix_ref_packed::packed::Buffer;
use gix_ref_store::file::Store;
use gix_ref_store::file::iter::{self, LooseNames, LooseThenPacked, loose_then_packed};
use gix_ref_store::file::transaction::{Done, PackedRefs};
use gix_ref_store::raw::Reference;
use std::alloc::{AllocError, Global};

/// Edits that were committed, and what was listed after them.
#[derive(Debug, Drop)]
pub struct Listed<T: Find = Never> {
    /// What the commit returned.
    pub done: Done<T>,
    /// The items of the listing, or why there is none.
    pub items: Result<Vec<Result<Reference, loose_then_packed::Error>>, iter::Error>,
}

/// Adds the next item of a listing, if there is one. Returns whether there was.
fn take_next<F: Files>(
    all: &mut Vec<Result<Reference, loose_then_packed::Error>>,
    items: &mut LooseThenPacked<'_, F>,
) -> Result<bool, AllocError>
    ensures same_reference { items.new.store.ghost_name ≡ items.old.store.ghost_name }
    ensures takes { IfOk result
        (TakesNext F.honest F.means F.faults items.old items.new all.old.items all.new.items) }
    ensures unchanged { LooksUp F.honest F.means (store_listed items.old) (store_listed items.new) }
    ensures left { IfOk result (λ more. more ≡ true →
        items_ahead items.new < items_ahead items.old) }
{
    match items.next() {
        Some(item) => {
            all.push(item).map_err(AllocError::from)?;
            Ok(true)
        }
        None => Ok(false),
    }
}

/// The items of a listing, up to its end.
fn collect<F: Files>(
    alloc: Global,
    items: &mut LooseThenPacked<'_, F>,
) -> Result<Vec<Result<Reference, loose_then_packed::Error>>, AllocError>
    ensures same_reference { items.new.store.ghost_name ≡ items.old.store.ghost_name }
    ensures gives { IfOk result
        (λ all. GivesAll F.honest F.means F.faults items.old items.new all.items) }
    ensures unchanged { LooksUp F.honest F.means (store_listed items.old) (store_listed items.new) }
{
    let mut all = Vec::new(alloc);
    while take_next(&mut all, items)? {}
    Ok(all)
}

/// The items of the listing of the names that a walk found, among the records of a buffer that was read for their prefix.
fn list_among<F: Files>(
    alloc: Global,
    store: &mut Store<F>,
    names: LooseNames,
    packed: Option<&Buffer>,
) -> Result<Vec<Result<Reference, loose_then_packed::Error>>, iter::Error>
    ensures lists { ListsAmong F.honest F.means F.faults store.old store.new names
        (AreHeldFor store.old (walked_prefix names) packed.entry) result }
    ensures unchanged { LooksUp F.honest F.means store.old store.new }
{
    match store.iter_walked(alloc, names, packed) {
        Ok(mut items) => {
            let all = collect(alloc, &mut items);
            items.into_store();
            match all {
                Ok(all) => Ok(all),
                Err(_) => Err(iter::Error::Memory),
            }
        }
        Err(error) => Err(error),
    }
}

/// The items of the listing of a prefix.
pub(crate) fn list<F: Files>(
    alloc: Global,
    store: &mut Store<F>,
    prefix: &[u8],
) -> Result<Vec<Result<Reference, loose_then_packed::Error>>, iter::Error>
    ensures lists { ListsIn F.honest F.means F.faults F.Reader.ReadAt store.old store.new
        prefix.now result }
    ensures unchanged { LooksUp F.honest F.means store.old store.new }
{
    let names = match store.walk_prefixed(alloc, prefix) {
        Ok(names) => names,
        Err(error) => return Err(error),
    };
    match store.open_packed_prefixed(alloc, prefix) {
        Ok(packed) => list_among(alloc, store, names, packed.as_ref()),
        Err(error) => Err(iter::Error::PackedOpen(error)),
    }
}

/// The items of the listing of the loose references alone, up to its end, as `Store::loose_iter` gives them: below `refs/`, in a namespace
/// all. Costs the calls of files of that listing, and the memory of its items.
///
/// `Memory`.
pub fn list_loose<F: Files>(
    alloc: Global,
    store: &mut Store<F>,
) -> Result<Vec<Result<Reference, loose_then_packed::Error>>, iter::Error>
    ensures lists { F.honest → IfOk result (λ all. AreItemsIn F.honest F.means F.faults store.old
        (F.faults (files_of store.old)) (F.faults (files_of store.new)) []
        (prefix_of_all store.old.namespace) all.items) }
    ensures unchanged { LooksUp F.honest F.means store.old store.new }
    ensures memory { IfErr result (λ error. error ≡ Memory) }
{
    match store.loose_iter(alloc) {
        Ok(mut items) => {
            let all = collect(alloc, &mut items);
            items.into_store();
            match all {
                Ok(all) => Ok(all),
                Err(_) => Err(iter::Error::Memory),
            }
        }
        Err(error) => Err(error),
    }
}

/// Prepares the edits, commits them, and lists the names that begin with the prefix: below `refs/` just those that read something
/// once the edits are made, by ascending names, each with its target, or with an error in its place.
///
/// `Prepare` where the edits are refused, and `Commit` where their commit fails; then nothing is listed. `items` is an error where
/// the prefix has no listing, `packed-refs` cannot be opened, or there was no memory.
pub fn commit_then_list<F: Files, T: Find>(
    alloc: Global,
    store: &mut Store<F>,
    packed_refs: PackedRefs<T>,
    edits: Vec<RefEdit>,
    committer: Option<SignatureRef<'_>>,
    prefix: &[u8],
) -> Result<Listed<T>, Error<T>>
    ensures listed { IfOk result
        (λ r. ListsAfter F.honest F.means F.faults T.claims T.meaning packed_refs
        F.Reader.ReadAt store.old store.new committer.entry edits.items
        r.done prefix.now r.items) }
    ensures not_made { IfErr result
        (IsNotMade F.honest F.means F.faults T.claims T.meaning packed_refs
        (HasReadFault F.Reader.faults) store.old store.new
        committer.entry edits.items) }
{
    match make(alloc, store, packed_refs, edits, committer) {
        Ok(done) => {
            let items = list(alloc, store, prefix);
            Ok(Listed { done, items })
        }
        Err(error) => Err(error),
    }
}
