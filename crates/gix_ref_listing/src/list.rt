//! The listing of a prefix.
ghost use Rattle.std.specs.Prelude.{◌≡◌, ◌++◌, List, [], Some, IfOk, IfErr};
ghost use Rattle.gix_ref_files.specs.Files.{FaultCounts};
ghost use Rattle.gix_ref_target.specs.PackedRecords.{Record};
ghost use Rattle.gix_ref_theory.specs.OnRealTrees.{contents};
ghost use Rattle.gix_ref_theory.specs.Views.{View};
ghost use Rattle.gix_ref_lookup.specs.StoreLayout.{namespace_text};
ghost use Rattle.gix_ref_files.specs.ReadOnly.{OnlyReads};
ghost use Rattle.gix_ref_listing.specs.OwedNames.{OwesOthers};
ghost use Rattle.gix_ref_listing.specs.PackedTexts.{Text, IsTextOf};
ghost use Rattle.gix_ref_listing.specs.PlainSettings.{plain};
ghost use Rattle.gix_ref_lookup.specs.declared.settings.Settings.{Settings as ListingOf};
ghost use Rattle.gix_ref_listing.specs.WholeListings.{AreHeldOf, IsAskedOf, IsWalkOf, ListsHeld, OwesHeld};
ghost use Rattle.gix_ref_listing.specs.declared.prefix.Error.TheVariants.{Memory};

use crate::found::FoundByKey;
use crate::merge::Merge;
use crate::own_records::OwnRecords;
use crate::prefix::Error;
use crate::store_walk::{text_of, walk_store};
use crate::walk::joined;
use gix_ref_files::files::Files;
use gix_ref_lookup::settings::Settings;
use gix_ref_name::namespace::Namespace;
use gix_ref_packed::packed::{Buffer, Iter};
use std::alloc::{AllocError, Global};

/// The records of the prefix in a buffer, if there is one.
fn records_of<'p>(
    alloc: Global,
    namespace: &Option<Namespace>,
    prefix: &[u8],
    packed: Option<&'p Buffer>,
) -> Result<Option<Iter<'p>>, AllocError>
    ensures asked { (records : List Record) → AreHeldOf
        (namespace_text namespace.now ++ prefix.now) packed.entry records →
        IfOk result (IsAskedOf (namespace_text namespace.now ++ prefix.now) records) }
    ensures owes { (settings : ListingOf) → (text : Text) →
        IsTextOf (namespace_text namespace.now ++ prefix.now) packed.entry text →
        IfOk result (OwesOthers settings text (Some [])) }
{
    match packed {
        Some(buffer) => {
            let key = joined(alloc, text_of(namespace), prefix)?;
            Ok(Some(buffer.iter_prefixed(key)))
        }
        None => Ok(None),
    }
}

/// The loose references that a walk of a store found, of the names that begin with a prefix, and the folders that it could not
/// list.
#[derive(Debug, Drop)]
pub struct LooseNames {
    pub(crate) found: FoundByKey,
    pub(crate) prefix: Vec<u8>,
}

/// Walks the folders of a store in which the loose references of a prefix may be, at the cost of one call of files for each.
/// `Memory` where there was no memory for what was found.
pub fn walk<F: Files>(
    alloc: Global,
    files: &mut F,
    settings: Settings<'_>,
    prefix: &[u8],
) -> Result<LooseNames, Error>
    ensures walks { F.honest → IfOk result (IsWalkOf (plain settings.entry)
        (contents F.means files.old) (F.faults files.old) (F.faults files.new)) }
    ensures asked { IfOk result (λ names. names.prefix.items ≡ prefix.now) }
    ensures looks { OnlyReads F.honest F.means F.faults files.old files.new }
    ensures memory { IfErr result (λ error. error ≡ Memory) }
{
    let Ok(found) = walk_store(alloc, files, settings, prefix) else {
        return Err(Error::Memory);
    };
    let prefix = prefix.to_vec(alloc)?;
    Ok(LooseNames { found, prefix })
}

/// The loose references that a walk found, and those of a buffer, if one is given, whose names begin with the prefix of the walk.
/// Of a reference that is packed between the walk and the opening of the buffer one of them has it. `Memory` where there was no
/// memory for the prefix of the records.
pub fn merge_walked<'p>(
    alloc: Global,
    settings: Settings<'_>,
    names: LooseNames,
    packed: Option<&'p Buffer>,
) -> Result<Merge<'p>, Error>
    ensures lists { (view : View) (before now : FaultCounts) →
        IsWalkOf (plain settings.entry) view before now names →
        ListsHeld settings.entry view names.prefix.items packed.entry before now result }
    ensures owes { (view : View) (before now : FaultCounts) →
        IsWalkOf (plain settings.entry) view before now names →
        OwesHeld settings.entry view names.prefix.items packed.entry before now result }
    ensures memory { IfErr result (λ error. error ≡ Memory) }
{
    let LooseNames { found, prefix } = names;
    // The keys of a map ascend, as its length says.
    found.len();
    let records = records_of(alloc, settings.namespace, &prefix, packed)?;
    let packed = OwnRecords::of(settings, records);
    Ok(Merge { found, packed })
}

/// The loose references of a store and those of a buffer, if one is given, whose names begin with the prefix. The loose
/// ones are found now, at the cost of one call of files for each folder that such names may be in. `Memory` where there was no
/// memory for what was found.
pub fn list<'p, F: Files>(
    alloc: Global,
    files: &mut F,
    settings: Settings<'_>,
    prefix: &[u8],
    packed: Option<&'p Buffer>,
) -> Result<Merge<'p>, Error>
    ensures lists { F.honest → ListsHeld settings.entry (contents F.means files.old) prefix.now
        packed.entry (F.faults files.old) (F.faults files.new) result }
    ensures owes { F.honest → OwesHeld settings.entry (contents F.means files.old) prefix.now
        packed.entry (F.faults files.old) (F.faults files.new) result }
    ensures looks { OnlyReads F.honest F.means F.faults files.old files.new }
    ensures memory { IfErr result (λ error. error ≡ Memory) }
{
    match walk(alloc, files, settings, prefix) {
        Ok(names) => merge_walked(alloc, settings, names, packed),
        Err(error) => Err(error),
    }
}
