//! How a transaction uses `packed-refs`, and which updates go into it.
ghost use Rattle.std.specs.Prelude.{◌≡◌};
ghost use Rattle.gix_ref_transaction.specs.Causes.{goes_alone, packs_edit, updates_object};
ghost use Rattle.gix_ref_transaction.specs.PrepareSteps.{setting_of};
ghost use Rattle.gix_ref_transaction.specs.Packing.{mode_of_packing};

use crate::prepare::packed_lock::is_packable;
use gix_ref_edits::transaction::{Change, RefEdit};
use gix_ref_lookup::settings::Settings;
use gix_ref_object::object::{Find, Never};
use gix_ref_target::target::Target;
use std::fmt;

/// How a transaction uses `packed-refs`.
#[derive(Clone, Copy, Debug, PartialEq, Eq)]
pub enum Packing {
    /// Records of deleted references are removed, and nothing else changes.
    Deletions,
    /// The objects of updates are put into it too.
    Updates,
    /// So they are, and their loose files are removed.
    UpdatesAlone,
}

impl Packing {
    ghost use Rattle.gix_ref_theory.specs.Edits.{packs_updates, removes_packed};
    ghost use Rattle.gix_ref_transaction.specs.Packing.{mode_of_packing};

    /// Whether objects of updates are put into `packed-refs`.
    pub fn packs_updates(self) -> bool
        ensures { result ≡ packs_updates (mode_of_packing self) }
    {
        match self {
            Packing::Deletions => false,
            Packing::Updates | Packing::UpdatesAlone => true,
        }
    }

    /// Whether the loose files of these are removed.
    pub fn removes_packed(self) -> bool
        ensures { result ≡ removes_packed (mode_of_packing self) }
    {
        match self {
            Packing::UpdatesAlone => true,
            Packing::Deletions | Packing::Updates => false,
        }
    }
}

/// What a transaction does with `packed-refs` (`git pack-refs`). The two modes that put objects into it own a finder of type `T`, which
/// leads to the object at the end of tags; each answer of the transaction hands it back. An update of a reference to an object is put, where the
/// reference can have a record: `HEAD`, other pseudo references and those of one worktree alone are written loose, as are
/// symbolic references. As `PackedRefs` of gix-ref's `file::transaction`.
#[derive(Drop)]
pub enum PackedRefs<T: Find = Never> {
    /// Records of deleted references are removed, and nothing else changes.
    DeletionsOnly,
    /// The objects of updates are put into it too, each with the object at the end of its tags. The loose files are written as well.
    DeletionsAndNonSymbolicUpdates(T),
    /// The objects of updates are put into it alone: no loose file is written for them, and one that is there is removed once
    /// `packed-refs` is in place, also where the update changes nothing else (`git pack-refs --prune`).
    DeletionsAndNonSymbolicUpdatesRemoveLooseSourceReference(T),
}

impl<T: Find> PackedRefs<T> {
    ghost use Rattle.gix_ref_transaction.specs.Packing.{packing_in};

    /// How it uses `packed-refs`.
    pub fn packing(&self) -> Packing
        ensures { result ≡ packing_in self.now }
    {
        match self {
            PackedRefs::DeletionsOnly => Packing::Deletions,
            PackedRefs::DeletionsAndNonSymbolicUpdates(_) => Packing::Updates,
            PackedRefs::DeletionsAndNonSymbolicUpdatesRemoveLooseSourceReference(_) => {
                Packing::UpdatesAlone
            }
        }
    }
}

/// `DeletionsOnly`.
impl<T: Find> Default for PackedRefs<T> {
    ghost use Rattle.std.specs.Prelude.{◌≡◌};
    ghost use Rattle.gix_ref_transaction.specs.declared.packing.PackedRefs.TheVariants.{DeletionsOnly};

    ghost is_default = { λ mode. mode ≡ DeletionsOnly };

    fn default() -> PackedRefs<T> {
        PackedRefs::DeletionsOnly
    }
}

impl<T: Find> fmt::Debug for PackedRefs<T> {
    fn fmt<W: fmt::Write>(&self, f: &mut fmt::Formatter<W>) -> fmt::Result {
        f.write_str(match self {
            PackedRefs::DeletionsOnly => "DeletionsOnly",
            PackedRefs::DeletionsAndNonSymbolicUpdates(_) => "DeletionsAndNonSymbolicUpdates",
            PackedRefs::DeletionsAndNonSymbolicUpdatesRemoveLooseSourceReference(_) => {
                "DeletionsAndNonSymbolicUpdatesRemoveLooseSourceReference"
            }
        })
    }
}

/// Whether a change is an update to an object.
fn updates_object(change: &Change) -> bool
    ensures { result ≡ updates_object change.now }
{
    match change {
        Change::Update { new, .. } => match new {
            Target::Object(_) => true,
            Target::Symbolic(_) => false,
        },
        Change::Delete { .. } => false,
    }
}

/// Whether an edit puts the object of an update into `packed-refs`: it is of the reference, and that has a key.
pub fn is_packed(settings: &Settings<'_>, packing: Packing, update: &RefEdit) -> bool
    ensures { result ≡ packs_edit (setting_of settings.now) (mode_of_packing packing) update.now }
{
    packing.packs_updates() && updates_object(&update.change) && is_packable(settings, update)
}

/// Whether an edit does, and its loose file is removed.
pub fn is_packed_alone(settings: &Settings<'_>, packing: Packing, update: &RefEdit) -> bool
    ensures { result ≡ goes_alone (setting_of settings.now) (mode_of_packing packing) update.now }
{
    packing.removes_packed() && is_packed(settings, packing, update)
}
