//! The references of a store that are asked for by patterns (`git for-each-ref`).
ghost use Rattle.std.specs.Prelude.{◌≡◌, ◌<◌, IfOk, MatchResult, IfSome, codes};
ghost use Rattle.gix_ref_files.specs.Files.{NoFewer};
ghost use Rattle.gix_ref_store.specs.Lookup.{LooksUp};
ghost use Rattle.gix_ref_store.specs.Listings.{count_in, items_ahead, store_listed};
ghost use Rattle.gix_ref_queries.specs.Patterns.{texts};
ghost use Rattle.gix_ref_queries.specs.Rows.{Collects, FindsAmongNames, GivesReference, ListsAs, StopsAtItem};

use crate::pattern::is_asked_by;
use gix_ref_files::files::Files;
use gix_ref_packed::packed::Buffer;
use gix_ref_store::file::Store;
use gix_ref_store::file::iter::loose_then_packed::Error as ItemError;
use gix_ref_store::file::iter::{Error, LooseNames, LooseThenPacked};
use gix_ref_store::raw::Reference;
use std::alloc::Global;

/// Why references were not listed.
#[derive(Debug, Drop)]
pub enum Unlisted {
    /// There is no listing: `packed-refs` cannot be opened, or there was no memory.
    Prefix(Error),
    /// An item of the listing is a fault.
    Item(ItemError),
}

/// The next reference of a listing, if there is one, or the fault in its place.
fn next_reference<F: Files>(
    items: &mut LooseThenPacked<'_, F>,
) -> Result<Option<Reference>, ItemError>
    ensures gives { GivesReference F.honest F.means F.faults items.old items.new result }
    ensures left { IfOk result
        (λ next. IfSome next (λ _. items_ahead items.new < items_ahead items.old)) }
{
    match items.next() {
        Some(Ok(reference)) => Ok(Some(reference)),
        Some(Err(error)) => Err(error),
        None => Ok(None),
    }
}

/// The references of a listing that are asked for, in its order, up to its end. The error is the first fault among its items, or
/// reports that there was no memory.
fn collect<F: Files>(
    alloc: Global,
    patterns: &[&[u8]],
    items: &mut LooseThenPacked<'_, F>,
) -> Result<Vec<Reference>, ItemError>
    ensures same_reference { items.new.store.ghost_name ≡ items.old.store.ghost_name }
    ensures collects { MatchResult result (λ found. Collects F.honest F.means F.faults
        (texts patterns.now) items.old items.new found.items)
        (StopsAtItem F.honest F.means F.faults items.old items.new) }
    ensures rises { NoFewer (count_in F.honest F.means F.faults items.old)
        (count_in F.honest F.means F.faults items.new) }
    ensures unchanged { LooksUp F.honest F.means (store_listed items.old) (store_listed items.new) }
{
    let mut found = Vec::new(alloc);
    loop {
        match next_reference(items) {
            Ok(Some(reference)) => {
                let Ok(asked) = is_asked_by(alloc, patterns, reference.name.to_path()) else {
                    return Err(ItemError::Memory);
                };
                if asked {
                    let Ok(()) = found.push(reference) else {
                        return Err(ItemError::Memory);
                    };
                }
            }
            Ok(None) => return Ok(found),
            Err(error) => return Err(error),
        }
    }
}

/// The same of the names that a walk found, among the records of a buffer that was read for their prefix.
fn collect_among<F: Files>(
    alloc: Global,
    store: &mut Store<F>,
    names: LooseNames,
    packed: Option<&Buffer>,
    patterns: &[&[u8]],
) -> Result<Vec<Reference>, ItemError>
    ensures finds { FindsAmongNames F.honest F.means F.faults store.old store.new names
        packed.entry (texts patterns.now) result }
    ensures unchanged { LooksUp F.honest F.means store.old store.new }
{
    match store.iter_walked(alloc, names, packed) {
        Ok(mut items) => {
            let found = collect(alloc, patterns, &mut items);
            items.into_store();
            found
        }
        // There was no memory.
        Err(_) => Err(ItemError::Memory),
    }
}

/// The references below `refs/` that are asked for, by ascending names. `packed-refs` is opened after the walk, so that a listing
/// beside a program that packs references misses none.
pub(crate) fn list_asked<F: Files>(
    alloc: Global,
    store: &mut Store<F>,
    patterns: &[&[u8]],
) -> Result<Vec<Reference>, Unlisted>
    ensures lists { ListsAs F.honest F.means F.faults F.Reader.ReadAt store.old store.new
        (codes "refs/") (texts patterns.now) result }
    ensures unchanged { LooksUp F.honest F.means store.old store.new }
{
    let names = match store.walk_prefixed(alloc, b"refs/") {
        Ok(names) => names,
        Err(error) => return Err(Unlisted::Prefix(error)),
    };
    match store.open_packed_prefixed(alloc, b"refs/") {
        Ok(packed) => match collect_among(alloc, store, names, packed.as_ref(), patterns) {
            Ok(found) => Ok(found),
            Err(error) => Err(Unlisted::Item(error)),
        },
        Err(error) => Err(Unlisted::Prefix(Error::PackedOpen(error))),
    }
}
