//! The checks and locks of a transaction, from a store.
ghost use Rattle.std.specs.Prelude.{◌≡◌, ◌+◌, [], false, IfOk, IfErr, MatchResult, vec_len};
ghost use Rattle.gix_ref_packed.specs.OpenFiles.{HasReadFault};
ghost use Rattle.gix_ref_theory.specs.OnRealTrees.{view_of};
ghost use Rattle.gix_ref_transaction.specs.LeftLocks.{HasRoom};
ghost use Rattle.gix_ref_store.specs.Prepared.{CheckedFail, GivenFail, SplitFails, HaveParents, HoldsSplitBy, HoldsGivenBy, SplitsFrom, LosesNothing, tree_of};
ghost use Rattle.gix_ref_store.specs.SameEdits.{AreSameEdits};
ghost use Rattle.gix_ref_store.specs.Store.{files_of, kind_of, meaning_of, with_files};
ghost use Rattle.gix_ref_transaction.specs.Packing.{mode_in};
ghost use Rattle.gix_ref_transaction.specs.Parents.{parents_in, split_parents};
ghost use Rattle.gix_ref_transaction.specs.Splits.{name_led_to, values_of, AreDirect, IsSplitCause};
ghost use Rattle.gix_ref_files.specs.ReadOnly.{OnlyReads};
ghost use Rattle.gix_ref_transaction.specs.PrepareSteps.{setting_of, updates, place_paths, places_of};
ghost use Rattle.gix_ref_transaction.specs.Causes.{AllValid, IsCounted};

use crate::file::settings::settings;
use crate::file::store::Store;
use crate::file::transaction::prepare::compose::compose_names;
use gix_ref_edits::transaction::RefEdit;
use gix_ref_files::files::Files;
use gix_ref_lookup::settings::Settings;
use gix_ref_object::object::Find;
use gix_ref_transaction::edit::Edit;
use gix_ref_transaction::packing::PackedRefs;
use gix_ref_transaction::prepare::Error;
use gix_ref_transaction::prepare::check::{check_edits, check_names};
use gix_ref_transaction::prepare::hold::{HeldLocks, NotHeld, edits_at, lock_edits};
use gix_ref_transaction::prepare::split::{SplitEdits, none_follow, split_edits};
use gix_ref_transaction::release::{Failure, Remains};
use std::alloc::Global;

/// A refusal before any lock was tried.
fn refused_before_locks(alloc: Global, error: Error, edits: Vec<RefEdit>) -> NotHeld
    ensures error { result.failure.error ≡ error }
    ensures none { result.failure.locks_left.items ≡ [] }
    ensures edits { result.edits ≡ edits }
{
    let failure = Failure {
        error,
        locks_left: Vec::new(alloc),
    };
    NotHeld { failure, edits }
}

/// The edits of a split list with their parents and the paths of their locks, and room for what remains of them. The error says that
/// there was no memory, and hands the edits back.
fn begun(
    alloc: Global,
    settings: &Settings<'_>,
    split: SplitEdits,
) -> Result<(Vec<Edit>, Remains), Vec<RefEdit>>
    requires { vec_len split.parents ≡ vec_len split.edits }
    ensures asked { MatchResult result (λ begun. updates begun.0.items ≡ split.edits.items)
        (λ given. given ≡ split.edits) }
    ensures places { IfOk result (λ begun. place_paths begun.0.items
        ≡ places_of (setting_of settings.now) split.edits.items) }
    ensures parents { IfOk result (λ begun. parents_in begun.0.items ≡ split.parents.items) }
    ensures room { IfOk result (λ begun. HasRoom begun.0 begun.1) }
{
    let n = split.edits.len();
    let Ok(remains) = Remains::reserve(alloc, n, n + 1) else {
        return Err(split.edits);
    };
    let edits = edits_at(alloc, settings, split)?;
    Ok((edits, remains))
}

impl<F: Files> Store<F> {
    /// Looks at the names of a split list, finds the records of its edits, and takes their locks with their texts; or hands the edits
    /// back.
    fn lock_split<T: Find>(
        &mut self,
        alloc: Global,
        packed_refs: &PackedRefs<T>,
        split: SplitEdits,
    ) -> Result<HeldLocks, NotHeld>
        requires valid { AllValid (meaning_of self.old) (kind_of self.old) [] split.edits.items }
        requires len { vec_len split.parents ≡ vec_len split.edits }
        ensures refused { IfErr result
            (λ r. SplitFails F.honest F.means F.faults T.claims T.meaning packed_refs.now
            (HasReadFault F.Reader.faults) self.old self.new split.edits.items r.failure) }
        ensures edits { IfErr result (λ r. r.edits.items ≡ split.edits.items) }
        ensures asked { IfOk result (λ held. updates held.edits.items ≡ split.edits.items) }
        ensures parents { IfOk result (λ held. parents_in held.edits.items ≡ split.parents.items) }
        ensures held { IfOk result (λ held. HoldsSplitBy F.honest F.means F.faults
            T.claims T.meaning packed_refs.now self.old self.new split.edits.items held.packed
            held.edits.items) }
        ensures lost { F.honest →
            LosesNothing F.means (mode_in packed_refs.now) self.old self.new split.edits.items }
        ensures room { IfOk result (λ held. HasRoom held.edits held.remains) }
    {
        let settings = settings!(self);
        if let Err(error) = check_names(alloc, &split.edits) {
            return Err(refused_before_locks(alloc, error, split.edits));
        }
        match begun(alloc, &settings, split) {
            Ok((edits, remains)) => {
                lock_edits(
                    alloc,
                    &mut self.files,
                    &settings,
                    packed_refs,
                    edits,
                    remains,
                )
            }
            Err(edits) => Err(refused_before_locks(alloc, Error::Memory, edits)),
        }
    }

    /// Checks the edits, and splits those that follow symbolic references. A refusal of edits of which none follows hands them back.
    fn split(
        &mut self,
        alloc: Global,
        edits: Vec<RefEdit>,
    ) -> Result<SplitEdits, (Error, Vec<RefEdit>)>
        ensures splits { IfOk result
            (λ split. SplitsFrom F.honest F.means F.faults self.old edits.items split.edits.items) }
        ensures valid { IfOk result
            (λ split. AllValid (meaning_of self.old) (kind_of self.old) [] split.edits.items) }
        ensures parents { F.honest → IfOk result (λ split. split.parents.items
            ≡ split_parents (name_led_to (meaning_of self.old) (view_of (tree_of F.means self.old)))
            (values_of edits.items)) }
        ensures len { IfOk result (λ split. vec_len split.parents ≡ vec_len split.edits) }
        ensures refused { F.honest → IfErr result (λ r. IsSplitCause (meaning_of self.old)
            (kind_of self.old) (tree_of F.means self.old) edits.items r.0) }
        ensures direct { AreDirect edits.items → IfErr result (λ r. r.1.items ≡ edits.items) }
        ensures reads { OnlyReads F.honest F.means F.faults (files_of self.old)
            (files_of self.new) }
        ensures counted { IfErr result
            (λ r. IsCounted (F.faults (files_of self.old)) (F.faults (files_of self.new)) r.0) }
        ensures same { self.new ≡ with_files self.old (files_of self.new) }
    {
        let settings = settings!(self);
        if let Err(error) = check_edits(alloc, &settings, &edits) {
            return Err((error, edits));
        }
        split_edits(alloc, &mut self.files, &settings, edits)
    }

    /// Checks the edits, splits those that follow symbolic references, finds the records of all, and takes their locks with their
    /// texts. A refusal of edits of which none follows hands them back.
    fn check_and_lock<T: Find>(
        &mut self,
        alloc: Global,
        packed_refs: &PackedRefs<T>,
        edits: Vec<RefEdit>,
    ) -> Result<HeldLocks, NotHeld>
        ensures refused { IfErr result
            (λ r. CheckedFail F.honest F.means F.faults T.claims T.meaning packed_refs.now
            (HasReadFault F.Reader.faults) self.old self.new edits.items r.failure) }
        ensures direct { AreDirect edits.items → IfErr result (λ r. r.edits.items ≡ edits.items) }
        ensures splits { IfOk result (λ held.
            SplitsFrom F.honest F.means F.faults self.old edits.items (updates held.edits.items)) }
        ensures parents { F.honest →
            IfOk result (λ held. HaveParents F.honest F.means F.faults self.old edits.items
            held.edits.items) }
        ensures held { IfOk result (λ held. HoldsSplitBy F.honest F.means F.faults
            T.claims T.meaning packed_refs.now self.old self.new (updates held.edits.items)
            held.packed held.edits.items) }
        ensures room { IfOk result (λ held. HasRoom held.edits held.remains) }
    {
        match self.split(alloc, edits) {
            Ok(split) => self.lock_split(alloc, packed_refs, split),
            Err((error, edits)) => Err(refused_before_locks(alloc, error, edits)),
        }
    }

    /// Composes the names of the edits, where the store composes names; then all as above. A refusal hands the edits back where the
    /// store composes no names and none follows.
    pub(crate) fn compose_and_lock<T: Find>(
        &mut self,
        alloc: Global,
        packed_refs: &PackedRefs<T>,
        edits: Vec<RefEdit>,
    ) -> Result<HeldLocks, NotHeld>
        ensures refused { IfErr result
            (λ r. GivenFail F.honest F.means F.faults T.claims T.meaning packed_refs.now
            (HasReadFault F.Reader.faults) self.old self.new edits.items r.failure) }
        ensures direct { self.old.precompose_unicode ≡ false → AreDirect edits.items →
            IfErr result (λ r. r.edits.items ≡ edits.items) }
        ensures held { IfOk result (λ held. HoldsGivenBy F.honest F.means F.faults
            T.claims T.meaning packed_refs.now self.old self.new edits.items held.packed
            held.edits.items) }
        ensures room { IfOk result (λ held. HasRoom held.edits held.remains) }
    {
        match compose_names(alloc, self.precompose_unicode, edits) {
            Ok(asked) => self.check_and_lock(alloc, packed_refs, asked),
            Err(_) => Err(refused_before_locks(alloc, Error::Memory, Vec::new(alloc))),
        }
    }

    /// The same, where a refusal hands the edits back: themselves, or a copy of them, which is made before where their names are composed
    /// or one of them follows symbolic references.
    pub(crate) fn lock_or_hand_back<T: Find>(
        &mut self,
        alloc: Global,
        packed_refs: &PackedRefs<T>,
        edits: Vec<RefEdit>,
    ) -> Result<HeldLocks, NotHeld>
        ensures refused { IfErr result
            (λ r. GivenFail F.honest F.means F.faults T.claims T.meaning packed_refs.now
            (HasReadFault F.Reader.faults) self.old self.new edits.items r.failure) }
        ensures edits { IfErr result (λ r. AreSameEdits edits.items r.edits.items) }
        ensures held { IfOk result (λ held. HoldsGivenBy F.honest F.means F.faults
            T.claims T.meaning packed_refs.now self.old self.new edits.items held.packed
            held.edits.items) }
        ensures room { IfOk result (λ held. HasRoom held.edits held.remains) }
    {
        if !self.precompose_unicode && none_follow(&edits) {
            return self.compose_and_lock(alloc, packed_refs, edits);
        }
        match edits.clone() {
            Ok(copy) => match self.compose_and_lock(alloc, packed_refs, edits) {
                Ok(held) => Ok(held),
                Err(mut refused) => {
                    refused.edits = copy;
                    Err(refused)
                }
            },
            Err(_) => Err(refused_before_locks(alloc, Error::Memory, edits)),
        }
    }
}
