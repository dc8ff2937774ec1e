//! Following, peeling and the reflogs of references in a store.
use crate::chain::{find_next, follow_among};
use crate::peel::{to_id, to_object};
use crate::sealed::Sealed;
use crate::tags::peel_among;
use gix_ref_files::files::Files;
use gix_ref_hash::hash::ObjectId;
use gix_ref_lookup::find::records::Records;
use gix_ref_object::object::Find;
use gix_ref_packed::packed::Buffer;
use gix_ref_packed::raw::Reference;
use gix_ref_store::file::find::existing;
use gix_ref_store::file::{Store, log};
use std::alloc::Global;

impl Sealed for Reference {}

/// What a reference does in a store: its reflog, the reference that a symbolic target names, and the object that it leads to.
/// As gix-ref's `file::ReferenceExt`.
pub trait ReferenceExt: Sealed {
    /// The reflog of the reference, to be read with `all` or `rev`. It takes no memory, and looks at no file. As
    /// gix-ref's `ReferenceExt::log_iter` (`git reflog`).
    ///
    /// ```text
    /// let mut platform = reference.log_iter(alloc, &mut store);
    /// if let Some(lines) = platform.all(alloc)? {
    ///     for line in lines {
    ///         println!(rt; "{}", line?.new_oid())?; // the oldest first
    ///     }
    /// }
    /// ```
    fn log_iter<'a, 's, F: Files>(
        &'a self,
        alloc: Global,
        store: &'s mut Store<F>,
    ) -> log::Platform<'a, 's, F>;

    /// Whether the reference has a reflog (`git reflog exists`). As `Store::reflog_exists`, and as gix-ref's
    /// `ReferenceExt::log_exists`.
    fn log_exists<F: Files>(&self, alloc: Global, store: &mut Store<F>) -> Result<bool, log::Error>;

    /// Follows the reference to an object, and peels the tags there (`git rev-parse <ref>^{}`): at most four symbolic
    /// references, and at most 1,000 tags. The reference then points to the object that is returned, and `peeled` is that. A
    /// reference with `peeled` returns it at once. As gix-ref's `ReferenceExt::peel_to_id`.
    ///
    /// `packed-refs` is opened once, where a symbolic target without a loose file asks for it.
    ///
    /// `FollowToObject` where it cannot be followed, as `follow_to_object_packed`; `Find` where an object cannot be read;
    /// `NotFound` where there is no object of an id, or it is a tag whose first line is not `object `, the hex digits of an id,
    /// and LF; `TagChainTooLong` for more than 1,000 tags in a row; `Memory`. The reference then is the last one that was
    /// reached.
    ///
    /// ```text
    /// let mut reference = store.find(alloc, PartialNameRef::try_from("HEAD")?)?;
    /// let commit = reference.peel_to_id(alloc, &mut store, &objects)?;
    /// ```
    fn peel_to_id<F: Files, T: Find>(
        &mut self,
        alloc: Global,
        store: &mut Store<F>,
        objects: &T,
    ) -> Result<ObjectId, to_id::Error>;

    /// As `peel_to_id`, and as gix-ref's `ReferenceExt::peel_to_id_in_place`.
    fn peel_to_id_in_place<F: Files, T: Find>(
        &mut self,
        alloc: Global,
        store: &mut Store<F>,
        objects: &T,
    ) -> Result<ObjectId, to_id::Error>;

    /// As `peel_to_id`, among the records of this buffer and not those of the file; among loose files alone where it is `None`.
    /// As gix-ref's `ReferenceExt::peel_to_id_packed`.
    fn peel_to_id_packed<F: Files, T: Find>(
        &mut self,
        alloc: Global,
        store: &mut Store<F>,
        objects: &T,
        packed: Option<&Buffer>,
    ) -> Result<ObjectId, to_id::Error>;

    /// As `peel_to_id_packed`, and as gix-ref's `ReferenceExt::peel_to_id_in_place_packed`.
    fn peel_to_id_in_place_packed<F: Files, T: Find>(
        &mut self,
        alloc: Global,
        store: &mut Store<F>,
        objects: &T,
        packed: Option<&Buffer>,
    ) -> Result<ObjectId, to_id::Error>;

    /// Follows the reference to an object, over at most four symbolic references (`git symbolic-ref`), among the records of this
    /// buffer and not those of `packed-refs`; among loose files alone where it is `None`. The reference then is the one that
    /// points to the object. As gix-ref's `ReferenceExt::follow_to_object_packed`.
    ///
    /// `Follow` where a target is not found, or its lookup fails; `Cycle` where a step leads to a name that an earlier one
    /// reached, with the path of the reference that leads there; `DepthLimitExceeded` where a fifth step was taken; `Memory`.
    /// The reference then is the last one that was reached.
    ///
    /// ```text
    /// let packed = store.open_packed_buffer(alloc)?;
    /// let mut head = store.find(alloc, PartialNameRef::try_from("HEAD")?)?;
    /// let commit = head.follow_to_object_packed(alloc, &mut store, packed.as_ref())?;
    /// println!(rt; "{} {}", commit, head.name)?; // the branch that `HEAD` leads to
    /// ```
    fn follow_to_object_packed<F: Files>(
        &mut self,
        alloc: Global,
        store: &mut Store<F>,
        packed: Option<&Buffer>,
    ) -> Result<ObjectId, to_object::Error>;

    /// As `follow_to_object_packed`, and as gix-ref's `ReferenceExt::follow_to_object_in_place_packed`.
    fn follow_to_object_in_place_packed<F: Files>(
        &mut self,
        alloc: Global,
        store: &mut Store<F>,
        packed: Option<&Buffer>,
    ) -> Result<ObjectId, to_object::Error>;

    /// The reference that a symbolic target names, by `Store::find`; `None` where the target is an object. As gix-ref's
    /// `ReferenceExt::follow`.
    ///
    /// ```text
    /// if let Some(next) = head.follow(alloc, &mut store) {
    ///     println!(rt; "{}", next?.name)?; // the branch of HEAD
    /// }
    /// ```
    fn follow<F: Files>(
        &self,
        alloc: Global,
        store: &mut Store<F>,
    ) -> Option<Result<Reference, existing::Error>>;

    /// As `follow`, by `Store::find_packed`: among the records of this buffer and not those of `packed-refs`; among loose files
    /// alone where it is `None`. As gix-ref's `ReferenceExt::follow_packed`.
    fn follow_packed<F: Files>(
        &self,
        alloc: Global,
        store: &mut Store<F>,
        packed: Option<&Buffer>,
    ) -> Option<Result<Reference, existing::Error>>;
}

impl ReferenceExt for Reference {
    ghost use Rattle.std.specs.Prelude.{◌≡◌, [], List, Option, Some, None, Ok, IfOk, IfErr, IfSome, OnOk, true, false, is_some};
    ghost use Rattle.gix_ref_name.specs.Names.{full_bytes, full_ref_bytes};
    ghost use Rattle.gix_ref_target.specs.PackedRecords.{Record};
    ghost use Rattle.gix_ref_target.specs.Targets.{target_value};
    ghost use Rattle.gix_ref_target.specs.Targets.TargetValue.{object_id};
    ghost use Rattle.gix_ref_files.specs.Tree.{is_file};
    ghost use Rattle.gix_ref_lookup.specs.declared.find.records.Records.TheVariants.{Unopened};
    ghost use Rattle.gix_ref_lookup.specs.Reflogs.{count_log};
    ghost use Rattle.gix_ref_store.specs.Lookup.{AreRecordsIn, AreHeld, FailsBy, held, LooksUp};
    ghost use Rattle.gix_ref_store.specs.Reflogs.{reflog_at, is_log_prohibited, IsNoReflog};
    ghost use Rattle.gix_ref_store.specs.Store.{files_of};
    ghost use Rattle.gix_ref_follow.specs.Following.{at_of, LeadsWithinLimit};
    ghost use Rattle.gix_ref_follow.specs.Followed.{OnStep, StepFinds, StepHits, StepFails, Follows, finds_in, HitsNext, IsNotFollowed};
    ghost use Rattle.gix_ref_follow.specs.Peelings.{peeled_to, PeelsBy, IsNotPeeled, HasPassed};

    fn log_iter<'a, 's, F: Files>(
        &'a self,
        alloc: Global,
        store: &'s mut Store<F>,
    ) -> log::Platform<'a, 's, F>
        ensures name { full_ref_bytes result.name ≡ full_bytes self.now.name }
        ensures empty { result.buf.items ≡ [] }
        ensures same_reference { result.store.ghost_name ≡ store.entry.ghost_name }
        ensures same { result.store.now ≡ store.old }
    {
        log::Platform {
            store,
            name: self.name.as_ref(),
            buf: Vec::new(alloc),
        }
    }

    fn log_exists<F: Files>(&self, alloc: Global, store: &mut Store<F>) -> Result<bool, log::Error>
        ensures exists { F.honest → IfOk result
            (λ exists. exists ≡ is_file (reflog_at F.means store.old (full_bytes self.now.name))) }
        ensures allowed { OnOk result
            (is_log_prohibited store.old (full_bytes self.now.name) ≡ false) }
        ensures failed { IfErr result (IsNoReflog store.old (full_bytes self.now.name)) }
        ensures count { F.faults (files_of store.new)
            ≡ count_log result (F.faults (files_of store.old)) }
        ensures unchanged { LooksUp F.honest F.means store.old store.new }
    {
        store.reflog_exists(alloc, self.name.as_ref())
    }

    fn peel_to_id<F: Files, T: Find>(
        &mut self,
        alloc: Global,
        store: &mut Store<F>,
        objects: &T,
    ) -> Result<ObjectId, to_id::Error>
        ensures peeled { F.honest → T.claims objects.now →
            PeelsBy (AreRecordsIn F.means store.old) F.means true store.old
            (T.meaning objects.now) self.old self.new result }
        ensures at_once { IfSome self.old.peeled
            (λ id. (result ≡ Ok id) × (at_of self.new ≡ peeled_to (at_of self.old) id)) }
        ensures done { IfOk result (λ id. (target_value self.new.target ≡ object_id id)
            × (self.new.peeled ≡ Some id)) }
        ensures hits { F.honest →
            HasPassed {G = F.Reader.ReadAt} F.means true store.old Unopened
            (T.claims objects.now) (T.meaning objects.now) self.old self.new result }
        ensures failed { IfErr result (IsNotPeeled {G = F.Reader.ReadAt} F.honest F.means F.faults
            true store.old store.new Unopened self.old self.new) }
        ensures no_fault { OnOk result (F.faults (files_of store.new)
            ≡ F.faults (files_of store.old)) }
        ensures unchanged { LooksUp F.honest F.means store.old store.new }
    {
        peel_among(self, alloc, store, objects, true, &mut Records::Unopened)
    }

    fn peel_to_id_in_place<F: Files, T: Find>(
        &mut self,
        alloc: Global,
        store: &mut Store<F>,
        objects: &T,
    ) -> Result<ObjectId, to_id::Error>
        ensures peeled { F.honest → T.claims objects.now →
            PeelsBy (AreRecordsIn F.means store.old) F.means true store.old
            (T.meaning objects.now) self.old self.new result }
        ensures at_once { IfSome self.old.peeled
            (λ id. (result ≡ Ok id) × (at_of self.new ≡ peeled_to (at_of self.old) id)) }
        ensures done { IfOk result (λ id. (target_value self.new.target ≡ object_id id)
            × (self.new.peeled ≡ Some id)) }
        ensures hits { F.honest →
            HasPassed {G = F.Reader.ReadAt} F.means true store.old Unopened
            (T.claims objects.now) (T.meaning objects.now) self.old self.new result }
        ensures failed { IfErr result (IsNotPeeled {G = F.Reader.ReadAt} F.honest F.means F.faults
            true store.old store.new Unopened self.old self.new) }
        ensures no_fault { OnOk result (F.faults (files_of store.new)
            ≡ F.faults (files_of store.old)) }
        ensures unchanged { LooksUp F.honest F.means store.old store.new }
    {
        self.peel_to_id(alloc, store, objects)
    }

    fn peel_to_id_packed<F: Files, T: Find>(
        &mut self,
        alloc: Global,
        store: &mut Store<F>,
        objects: &T,
        packed: Option<&Buffer>,
    ) -> Result<ObjectId, to_id::Error>
        ensures peeled { F.honest → T.claims objects.now →
            PeelsBy (AreHeld packed.entry) F.means (is_some packed.entry) store.old
            (T.meaning objects.now) self.old self.new result }
        ensures at_once { IfSome self.old.peeled
            (λ id. (result ≡ Ok id) × (at_of self.new ≡ peeled_to (at_of self.old) id)) }
        ensures done { IfOk result (λ id. (target_value self.new.target ≡ object_id id)
            × (self.new.peeled ≡ Some id)) }
        ensures hits { F.honest → HasPassed {G = F.Reader.ReadAt} F.means
            (is_some packed.entry) store.old (held packed.entry) (T.claims objects.now)
            (T.meaning objects.now) self.old self.new result }
        ensures failed { IfErr result (IsNotPeeled {G = F.Reader.ReadAt} F.honest F.means F.faults
            (is_some packed.entry) store.old store.new (held packed.entry) self.old self.new) }
        ensures no_fault { OnOk result (F.faults (files_of store.new)
            ≡ F.faults (files_of store.old)) }
        ensures unchanged { LooksUp F.honest F.means store.old store.new }
    {
        match packed {
            Some(buffer) => peel_among(
                self,
                alloc,
                store,
                objects,
                true,
                &mut Records::Held(buffer),
            ),
            None => peel_among(self, alloc, store, objects, false, &mut Records::None),
        }
    }

    fn peel_to_id_in_place_packed<F: Files, T: Find>(
        &mut self,
        alloc: Global,
        store: &mut Store<F>,
        objects: &T,
        packed: Option<&Buffer>,
    ) -> Result<ObjectId, to_id::Error>
        ensures peeled { F.honest → T.claims objects.now →
            PeelsBy (AreHeld packed.entry) F.means (is_some packed.entry) store.old
            (T.meaning objects.now) self.old self.new result }
        ensures at_once { IfSome self.old.peeled
            (λ id. (result ≡ Ok id) × (at_of self.new ≡ peeled_to (at_of self.old) id)) }
        ensures done { IfOk result (λ id. (target_value self.new.target ≡ object_id id)
            × (self.new.peeled ≡ Some id)) }
        ensures hits { F.honest → HasPassed {G = F.Reader.ReadAt} F.means
            (is_some packed.entry) store.old (held packed.entry) (T.claims objects.now)
            (T.meaning objects.now) self.old self.new result }
        ensures failed { IfErr result (IsNotPeeled {G = F.Reader.ReadAt} F.honest F.means F.faults
            (is_some packed.entry) store.old store.new (held packed.entry) self.old self.new) }
        ensures no_fault { OnOk result (F.faults (files_of store.new)
            ≡ F.faults (files_of store.old)) }
        ensures unchanged { LooksUp F.honest F.means store.old store.new }
    {
        self.peel_to_id_packed(alloc, store, objects, packed)
    }

    fn follow_to_object_packed<F: Files>(
        &mut self,
        alloc: Global,
        store: &mut Store<F>,
        packed: Option<&Buffer>,
    ) -> Result<ObjectId, to_object::Error>
        ensures followed { F.honest → (records : List Record) → AreHeld packed.entry records →
            Follows (finds_in F.means (is_some packed.entry) store.old records) (at_of self.old)
            (at_of self.new) result }
        ensures hits { F.honest → LeadsWithinLimit (HitsNext {G = F.Reader.ReadAt} F.means
            (is_some packed.entry) store.old (held packed.entry)) self.old self.new }
        ensures object { IfOk result (λ id. target_value self.new.target ≡ object_id id) }
        ensures failed { FailsBy F.faults store.old store.new
            (IsNotFollowed {G = F.Reader.ReadAt} F.honest F.means F.faults
            (is_some packed.entry) store.old store.new (held packed.entry) self.old self.new)
            result }
        ensures unchanged { LooksUp F.honest F.means store.old store.new }
    {
        match packed {
            Some(buffer) => follow_among(self, alloc, store, true, &mut Records::Held(buffer)),
            None => follow_among(self, alloc, store, false, &mut Records::None),
        }
    }

    fn follow_to_object_in_place_packed<F: Files>(
        &mut self,
        alloc: Global,
        store: &mut Store<F>,
        packed: Option<&Buffer>,
    ) -> Result<ObjectId, to_object::Error>
        ensures followed { F.honest → (records : List Record) → AreHeld packed.entry records →
            Follows (finds_in F.means (is_some packed.entry) store.old records) (at_of self.old)
            (at_of self.new) result }
        ensures hits { F.honest → LeadsWithinLimit (HitsNext {G = F.Reader.ReadAt} F.means
            (is_some packed.entry) store.old (held packed.entry)) self.old self.new }
        ensures object { IfOk result (λ id. target_value self.new.target ≡ object_id id) }
        ensures failed { FailsBy F.faults store.old store.new
            (IsNotFollowed {G = F.Reader.ReadAt} F.honest F.means F.faults
            (is_some packed.entry) store.old store.new (held packed.entry) self.old self.new)
            result }
        ensures unchanged { LooksUp F.honest F.means store.old store.new }
    {
        self.follow_to_object_packed(alloc, store, packed)
    }

    fn follow<F: Files>(
        &self,
        alloc: Global,
        store: &mut Store<F>,
    ) -> Option<Result<Reference, existing::Error>>
        ensures found { F.honest → (records : List Record) →
            AreRecordsIn F.means store.old records →
            StepFinds F.means true store.old records (target_value self.now.target) result }
        ensures hit { F.honest → StepHits {G = F.Reader.ReadAt} F.means true store.old Unopened
            (target_value self.now.target) result }
        ensures failed { StepFails {G = F.Reader.ReadAt} F.honest F.means F.faults true store.old
            store.new Unopened (target_value self.now.target) result }
        ensures no_fault { OnStep result (F.faults (files_of store.new)
            ≡ F.faults (files_of store.old)) }
        ensures unchanged { LooksUp F.honest F.means store.old store.new }
    {
        find_next(self, alloc, store, true, &mut Records::Unopened)
    }

    fn follow_packed<F: Files>(
        &self,
        alloc: Global,
        store: &mut Store<F>,
        packed: Option<&Buffer>,
    ) -> Option<Result<Reference, existing::Error>>
        ensures found { F.honest → (records : List Record) → AreHeld packed.entry records →
            StepFinds F.means (is_some packed.entry) store.old records
            (target_value self.now.target) result }
        ensures hit { F.honest → StepHits {G = F.Reader.ReadAt} F.means (is_some packed.entry)
            store.old (held packed.entry) (target_value self.now.target) result }
        ensures failed { StepFails {G = F.Reader.ReadAt} F.honest F.means F.faults
            (is_some packed.entry) store.old store.new (held packed.entry)
            (target_value self.now.target) result }
        ensures no_fault { OnStep result (F.faults (files_of store.new)
            ≡ F.faults (files_of store.old)) }
        ensures unchanged { LooksUp F.honest F.means store.old store.new }
    {
        match packed {
            Some(buffer) => find_next(self, alloc, store, true, &mut Records::Held(buffer)),
            None => find_next(self, alloc, store, false, &mut Records::None),
        }
    }
}
