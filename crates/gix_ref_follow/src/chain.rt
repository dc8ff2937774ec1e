//! Following a reference, step by step (`git symbolic-ref`).
ghost use Rattle.std.specs.Prelude.{◌≡◌, ◌++◌, ◌∷◌, [], List, Option, Some, None, IfOk, IfErr, OnOk, OnErr, false, bytes_eq};
ghost use Rattle.std.specs.List.{list_any};
ghost use Rattle.gix_ref_name.specs.Names.{full_bytes, full_ref_bytes};
ghost use Rattle.gix_ref_target.specs.PackedRecords.{Record};
ghost use Rattle.gix_ref_target.specs.Targets.{target_value, target_kind};
ghost use Rattle.gix_ref_target.specs.Targets.TargetValue.{object_id};
ghost use Rattle.gix_ref_target.specs.declared.target.Kind.TheVariants.{Symbolic};
ghost use Rattle.gix_ref_lookup.specs.Lookups.{AreHonest};
ghost use Rattle.gix_ref_store.specs.Lookup.{AreAskedIn, AreStillAskedIn, FailsBy, LooksUp};
ghost use Rattle.gix_ref_store.specs.Store.{files_of, meaning_of};
ghost use Rattle.gix_ref_follow.specs.Following.{at_of, is_one_of, IsStep, LeadsWithinLimit};
ghost use Rattle.gix_ref_follow.specs.Followed.{bytes_of_names, OnStep, StepFinds, StepHits, StepFails, IsCycle, IsReturn, RefusesStep, Follows, finds_in, HitsNext, IsNoStep, IsNotFollowed};

use crate::peel::to_object::Error;
use gix_ref_files::files::Files;
use gix_ref_hash::hash::ObjectId;
use gix_ref_lookup::find::records::Records;
use gix_ref_name::name::{FullName, FullNameRef};
use gix_ref_packed::raw::Reference;
use gix_ref_store::file::Store;
use gix_ref_store::file::find::existing;
use gix_ref_target::target::Target;
use std::alloc::{AllocError, Global};

/// How many steps a following takes; the last one is refused.
const MAX_STEPS: usize = 5;

/// Whether one of these is the name.
fn is_reached(reached: &[FullName], name: &FullName) -> bool
    ensures { result ≡ list_any (λ n. bytes_eq (full_bytes name.now) (full_bytes n)) reached.now }
{
    reached
        .iter()
        .any(|other| name.to_path() == other.to_path())
}

/// The error for a reference that leads back.
fn cycle<F>(alloc: Global, store: &Store<F>, name: FullNameRef<'_>) -> Error
    ensures { IsCycle ((meaning_of store.now).place (full_ref_bytes name.entry)) result }
{
    match store.reference_path(alloc, name) {
        Ok(start_absolute) => Error::Cycle { start_absolute },
        Err(_) => Error::Memory,
    }
}

/// The reference that a symbolic target names; `None` of an object.
pub(crate) fn find_next<F: Files>(
    reference: &Reference,
    alloc: Global,
    store: &mut Store<F>,
    asks_records: bool,
    asked: &mut Records<'_, F::Reader>,
) -> Option<Result<Reference, existing::Error>>
    ensures found { F.honest → (records : List Record) →
        AreAskedIn F.means store.old asked.old records → StepFinds F.means asks_records store.old
        records (target_value reference.now.target) result }
    ensures hit { F.honest → AreHonest asked.old → StepHits F.means asks_records store.old asked.old
        (target_value reference.now.target) result }
    ensures failed { StepFails F.honest F.means F.faults asks_records store.old store.new asked.old
        (target_value reference.now.target) result }
    ensures asked { F.honest →
        OnStep result (AreStillAskedIn F.means store.old asked.old asked.new) }
    ensures no_fault { OnStep result (F.faults (files_of store.new)
        ≡ F.faults (files_of store.old)) }
    ensures unchanged { LooksUp F.honest F.means store.old store.new }
{
    match &reference.target {
        Target::Object(_) => None,
        Target::Symbolic(name) => {
            Some(store.find_existing_among(
                alloc,
                name.as_ref().as_partial_name(),
                asks_records,
                asked,
            ))
        }
    }
}

/// Adds a copy of a name.
#[tactic(auto, using(crate::proofs::Steps::names_append))]
fn remember(reached: &mut Vec<FullName>, name: &FullName) -> Result<(), AllocError>
    ensures { OnOk result (bytes_of_names reached.new.items
        ≡ bytes_of_names reached.old.items ++ full_bytes name.now ∷ []) }
{
    reached.push(name.clone()?)?;
    Ok(())
}

/// Goes on to the next reference, unless an earlier step reached it.
fn arrive<F>(
    reference: &mut Reference,
    next: Reference,
    alloc: Global,
    store: &Store<F>,
    reached: &mut Vec<FullName>,
) -> Result<(), Error>
    ensures moved { OnOk result (reference.new ≡ next) }
    ensures first { OnOk result
        (is_one_of (full_bytes next.name) (bytes_of_names reached.old.items) ≡ false) }
    ensures reached { OnOk result (bytes_of_names reached.new.items
        ≡ bytes_of_names reached.old.items ++ full_bytes next.name ∷ []) }
    ensures kept { OnErr result (reference.new ≡ reference.old) }
    ensures refused { IfErr result (IsReturn (full_bytes next.name) (bytes_of_names
        reached.old.items) ((meaning_of store.now).place (full_bytes reference.old.name))) }
{
    if is_reached(reached, &next.name) {
        return Err(cycle(alloc, store, reference.name.as_ref()));
    }
    remember(reached, &next.name)?;
    *reference = next;
    Ok(())
}

/// One step of a following, from a symbolic target.
fn take_step<F: Files>(
    reference: &mut Reference,
    alloc: Global,
    store: &mut Store<F>,
    asks_records: bool,
    asked: &mut Records<'_, F::Reader>,
    reached: &mut Vec<FullName>,
) -> Result<(), Error>
    requires { target_kind (target_value reference.old.target) ≡ Symbolic }
    ensures moved { F.honest → (records : List Record) → AreAskedIn F.means store.old asked.old
        records → OnOk result (IsStep (finds_in F.means asks_records store.old records)
        (at_of reference.old) (at_of reference.new)) }
    ensures first { OnOk result
        (is_one_of (full_bytes reference.new.name) (bytes_of_names reached.old.items) ≡ false) }
    ensures refused { F.honest → (records : List Record) → AreAskedIn F.means store.old asked.old
        records → IfErr result (RefusesStep (finds_in F.means asks_records store.old records)
        (bytes_of_names reached.old.items) (at_of reference.old)) }
    ensures hit { F.honest → AreHonest asked.old → OnOk result
        (HitsNext F.means asks_records store.old asked.old reference.old reference.new) }
    ensures failed { IfErr result (IsNoStep F.honest F.means F.faults asks_records store.old
        store.new asked.old (bytes_of_names reached.old.items) reference.old) }
    ensures reached { OnOk result (bytes_of_names reached.new.items
        ≡ bytes_of_names reached.old.items ++ full_bytes reference.new.name ∷ []) }
    ensures kept { OnErr result (reference.new ≡ reference.old) }
    ensures asked { F.honest → OnOk result (AreStillAskedIn F.means store.old asked.old asked.new) }
    ensures no_fault { OnOk result (F.faults (files_of store.new) ≡ F.faults (files_of store.old)) }
    ensures unchanged { LooksUp F.honest F.means store.old store.new }
{
    match find_next(reference, alloc, store, asks_records, asked) {
        Some(Ok(next)) => arrive(reference, next, alloc, store, reached),
        Some(Err(error)) => Err(Error::Follow(error)),
        None => unreachable!(),
    }
}

/// Follows a reference to an object, where these records are asked; it becomes the last reference that was reached.
pub(crate) fn follow_among<F: Files>(
    reference: &mut Reference,
    alloc: Global,
    store: &mut Store<F>,
    asks_records: bool,
    asked: &mut Records<'_, F::Reader>,
) -> Result<ObjectId, Error>
    ensures followed { F.honest → (records : List Record) → AreAskedIn F.means store.old asked.old
        records → Follows (finds_in F.means asks_records store.old records) (at_of reference.old)
        (at_of reference.new) result }
    ensures hits { F.honest → AreHonest asked.old → LeadsWithinLimit
        (HitsNext F.means asks_records store.old asked.old) reference.old reference.new }
    ensures object { IfOk result (λ id. target_value reference.new.target ≡ object_id id) }
    ensures failed { FailsBy F.faults store.old store.new
        (IsNotFollowed F.honest F.means F.faults asks_records store.old store.new asked.old
        reference.old reference.new) result }
    ensures unchanged { LooksUp F.honest F.means store.old store.new }
{
    let mut reached = Vec::new(alloc);
    for _ in 0..MAX_STEPS {
        if let Some(id) = reference.target.try_id() {
            return Ok(id);
        }
        match take_step(reference, alloc, store, asks_records, asked, &mut reached) {
            Ok(()) => {}
            Err(error) => return Err(error),
        }
    }
    Err(Error::DepthLimitExceeded {
        max_depth: MAX_STEPS,
    })
}
