//! Peeling a reference: following it, and the tags of its object (`gitrevisions`).
ghost use Rattle.std.specs.Prelude.{◌≡◌, Some, Ok, Err, IfOk, IfErr, IfSome, OnOk, OnErr};
ghost use Rattle.gix_ref_name.specs.Names.{full_bytes};
ghost use Rattle.gix_ref_target.specs.Targets.{target_value};
ghost use Rattle.gix_ref_target.specs.Targets.TargetValue.{object_id};
ghost use Rattle.gix_ref_lookup.specs.Lookups.{AreHonest};
ghost use Rattle.gix_ref_object.specs.Peeling.{peel};
ghost use Rattle.gix_ref_store.specs.Lookup.{AreAskedIn, LooksUp};
ghost use Rattle.gix_ref_store.specs.Store.{files_of};
ghost use Rattle.gix_ref_follow.specs.Following.{at_of};
ghost use Rattle.gix_ref_follow.specs.Peelings.{peeled_to, PeelsTags, IsTagError, IsOfTags, PeelsBy, IsNotPeeled, HasPassed};

use crate::chain::follow_among;
use crate::peel::to_id::Error;
use gix_ref_files::files::Files;
use gix_ref_hash::hash::ObjectId;
use gix_ref_lookup::find::records::Records;
use gix_ref_name::name::FullName;
use gix_ref_object::object::Find;
use gix_ref_object::peel::{PeelError, peel_to_end};
use gix_ref_packed::raw::Reference;
use gix_ref_store::file::Store;
use gix_ref_target::target::Target;
use std::alloc::Global;

/// The error for one of peeling the tags of a reference of this name.
fn refused(error: PeelError, name: &FullName) -> Error
    ensures { IsTagError (full_bytes name.now) error result }
{
    match error {
        PeelError::Find => Error::Find,
        PeelError::NotFound { oid } => match name.clone() {
            Ok(name) => Error::NotFound { oid, name },
            Err(_) => Error::Memory,
        },
        PeelError::TagChainTooLong => Error::TagChainTooLong,
        PeelError::Memory => Error::Memory,
    }
}

/// Peels the tags of the object of a reference, which then points to the object at their end.
fn peel_tags<T: Find>(
    reference: &mut Reference,
    alloc: Global,
    objects: &T,
    id: ObjectId,
) -> Result<ObjectId, Error>
    ensures peeled { T.claims objects.now → PeelsTags (full_bytes reference.old.name)
        (peel (T.meaning objects.now) 1000 id) result }
    ensures done { IfOk result (λ end. at_of reference.new ≡ peeled_to (at_of reference.old) end) }
    ensures same_name { full_bytes reference.new.name ≡ full_bytes reference.old.name }
    ensures kept { OnErr result (reference.new ≡ reference.old) }
    ensures named { IfErr result (IsOfTags (full_bytes reference.old.name)) }
{
    match peel_to_end(alloc, objects, id) {
        Ok(end) => {
            reference.target = Target::Object(end);
            reference.peeled = Some(end);
            Ok(end)
        }
        Err(error) => Err(refused(error, &reference.name)),
    }
}

/// Peels a reference, where these records are asked.
pub(crate) fn peel_among<F: Files, T: Find>(
    reference: &mut Reference,
    alloc: Global,
    store: &mut Store<F>,
    objects: &T,
    asks_records: bool,
    asked: &mut Records<'_, F::Reader>,
) -> Result<ObjectId, Error>
    ensures peeled { F.honest → T.claims objects.now →
        PeelsBy (AreAskedIn F.means store.old asked.old) F.means asks_records store.old
        (T.meaning objects.now) reference.old reference.new result }
    ensures at_once { IfSome reference.old.peeled
        (λ id. (result ≡ Ok id) × (at_of reference.new ≡ peeled_to (at_of reference.old) id)) }
    ensures done { IfOk result (λ id. (target_value reference.new.target ≡ object_id id)
        × (reference.new.peeled ≡ Some id)) }
    ensures hits { F.honest → AreHonest asked.old →
        HasPassed F.means asks_records store.old asked.old (T.claims objects.now)
        (T.meaning objects.now) reference.old reference.new result }
    ensures failed { IfErr result (IsNotPeeled F.honest F.means F.faults asks_records store.old
        store.new asked.old reference.old reference.new) }
    ensures no_fault { OnOk result (F.faults (files_of store.new) ≡ F.faults (files_of store.old)) }
    ensures unchanged { LooksUp F.honest F.means store.old store.new }
{
    if let Some(id) = reference.peeled {
        reference.target = Target::Object(id);
        return Ok(id);
    }
    match follow_among(reference, alloc, store, asks_records, asked) {
        Ok(id) => peel_tags(reference, alloc, objects, id),
        Err(error) => Err(Error::FollowToObject(error)),
    }
}
