//! The listing of pseudo references: `HEAD`, `FETCH_HEAD`, `ORIG_HEAD` and the like
//! (`git for-each-ref --include-root-refs`).
ghost use Rattle.std.specs.Prelude.{◌≡◌, IfOk, IfErr, filter};
ghost use Rattle.std.specs.List.{All};
ghost use Rattle.gix_ref_files.specs.declared.files.FileError.TheVariants.{Memory as no_memory};
ghost use Rattle.gix_ref_theory.specs.OnRealTrees.{contents};
ghost use Rattle.gix_ref_listing.specs.PlainSettings.{plain};
ghost use Rattle.gix_ref_listing.specs.PseudoListings.{is_head_file, is_kept, IsPseudoListed, IsPseudoFound, ListsPseudo};
ghost use Rattle.gix_ref_listing.specs.Walks.{FindsEach, IsFileOrMet};
ghost use Rattle.gix_ref_listing.specs.declared.prefix.Error.TheVariants.{Memory};
ghost use Rattle.gix_ref_files.specs.ReadOnly.{OnlyReads};

use crate::found::{Found, FoundByKey};
use crate::merge::Merge;
use crate::own_records::OwnRecords;
use crate::prefix::Error;
use crate::store_walk::front_of;
use crate::walk::Root;
use gix_ref_files::files::{FileError, Files};
use gix_ref_lookup::settings::Settings;
use std::alloc::Global;
use std::collections::BTreeMap;

/// Whether a name has no slash and ends with `HEAD`.
fn is_head_file(name: &[u8]) -> bool
    ensures { result ≡ is_head_file name.now }
{
    name.ends_with(b"HEAD") && !name.contains(&b'/')
}

/// Whether this is the file of such a name, or a folder that could not be listed.
fn is_kept(key: &[u8], found: &Found) -> bool
    ensures { (k : _) → k.items ≡ key.now → result ≡ is_kept (k, found.now) }
{
    match found {
        Found::File { .. } => is_head_file(key),
        Found::Unlisted { .. } => true,
    }
}

/// Keeps the files of such names, and the folders.
fn keep_pseudo(found: &mut FoundByKey)
    ensures { found.new.entries ≡ filter is_kept found.old.entries }
{
    found.retain(|key, found| is_kept(key, found));
}

/// The pseudo references of a store, or its folder where it could not be listed. One call of files. The error says that there
/// was no memory.
fn walk_pseudo<F: Files>(
    alloc: Global,
    files: &mut F,
    settings: Settings<'_>,
) -> Result<FoundByKey, FileError>
    ensures finds { F.honest → IfOk result (λ found. FindsEach
        (IsPseudoListed settings.entry (contents F.means files.old)) found.entries) }
    ensures files { IfOk result (λ found. All (IsFileOrMet (F.faults files.old)
        (F.faults files.new)) found.entries) }
    ensures there { F.honest → IfOk result
        (λ found. All (IsPseudoFound settings.entry (contents F.means files.old)) found.entries) }
    ensures looks { OnlyReads F.honest F.means F.faults files.old files.new }
    ensures memory { IfErr result (λ error. error ≡ no_memory) }
{
    let Ok(path) = front_of(alloc, &settings.dirs.git_dir, settings.namespace) else {
        return Err(FileError::Memory);
    };
    let root = Root {
        path: &path,
        prefix: b"",
        settings,
    };
    let mut found = BTreeMap::new(alloc);
    let mut inner = Vec::new(alloc);
    root.walk_folder(alloc, files, b"", &mut found, &mut inner)?;
    keep_pseudo(&mut found);
    Ok(found)
}

/// The loose references directly in the git folder of a store, in a namespace in its folder there, whose names end with `HEAD`.
/// They are found now, at the cost of one call of files. `Memory` where there was no memory for what was found.
pub fn list_pseudo<'p, F: Files>(
    alloc: Global,
    files: &mut F,
    settings: Settings<'_>,
) -> Result<Merge<'p>, Error>
    ensures lists { F.honest → IfOk result (ListsPseudo (plain settings.entry)
        (contents F.means files.old) (F.faults files.old) (F.faults files.new)) }
    ensures looks { OnlyReads F.honest F.means F.faults files.old files.new }
    ensures memory { IfErr result (λ error. error ≡ Memory) }
{
    let Ok(found) = walk_pseudo(alloc, files, settings) else {
        return Err(Error::Memory);
    };
    // The keys of a map ascend, as its length says.
    found.len();
    let packed = OwnRecords::of(settings, None);
    Ok(Merge { found, packed })
}
