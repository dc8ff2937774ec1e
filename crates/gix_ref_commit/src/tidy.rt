//! Empty folders above the files that a commit removed, which are removed once its locks are gone.
ghost use Rattle.std.specs.Prelude.{◌≡◌, ◌≤◌, ◌<◌, ◌∷◌, ◌++◌, [], IfOk, OnOk, get_or, length};
ghost use Rattle.gix_ref_files.specs.Files.{AtEveryStop, OnEveryDisk, NoFewer};
ghost use Rattle.gix_ref_transaction.specs.OwnLocks.{paths_of};
ghost use Rattle.gix_ref_commit.specs.Cleared.{FoldersGo, LosesNoMore, OnlyFolders, all_removed, first_component, kept_of, removed_by};

use crate::folders::leads_to_store;
use gix_ref_files::files::Files;
use gix_ref_hash::bytes::{cut_last, split_component};
use gix_ref_lookup::folders::Dirs;
use gix_ref_transaction::edit::{Edit, Effect, LogEffect};
use std::alloc::{AllocError, Global};

/// Adds a copy of a path.
fn add_path(alloc: Global, paths: &mut Vec<Vec<u8>>, path: &[u8]) -> Result<(), AllocError>
    ensures { OnOk result (paths_of paths.new.items ≡ paths_of paths.old.items ++ path.now ∷ []) }
{
    paths.push(path.to_vec(alloc)?)?;
    Ok(())
}

/// Adds the paths of the log and of the loose file of an edit, where they are removed.
fn add_removed(alloc: Global, paths: &mut Vec<Vec<u8>>, edit: &Edit) -> Result<(), AllocError>
    ensures { OnOk result (paths_of paths.new.items
        ≡ paths_of paths.old.items ++ removed_by edit.now) }
{
    if let LogEffect::Remove { log } = &edit.log {
        add_path(alloc, paths, log)?;
    }
    if edit.effect == Effect::Remove {
        add_path(alloc, paths, edit.lock.place())?;
    }
    Ok(())
}

/// The paths of the logs and of the loose files that a commit removes.
pub fn removed_paths(alloc: Global, edits: &[Edit]) -> Result<Vec<Vec<u8>>, AllocError>
    ensures { IfOk result (λ paths. paths_of paths.items ≡ all_removed edits.now) }
{
    let mut paths = Vec::new(alloc);
    for edit in edits {
        add_removed(alloc, &mut paths, edit)?;
    }
    Ok(paths)
}

/// The length of the first component of a path.
fn component_len(path: &[u8]) -> usize
    ensures component { result ≡ first_component path.now }
    ensures len { result ≤ length path.now }
{
    match split_component(path) {
        Some((component, _)) => component.len(),
        None => path.len(),
    }
}

/// How many bytes of a path are those of a folder that stays although it is empty.
fn kept_len(dirs: &Dirs, path: &[u8]) -> usize
    ensures { result ≡ kept_of dirs.now path.now }
{
    let root = dirs.root(path);
    if root > path.len() {
        return path.len();
    }
    let rest = &path[root..];
    if rest.starts_with(b"/logs/") {
        root + 5
    } else if rest.starts_with(b"/refs/") {
        root + 6 + component_len(&rest[6..])
    } else {
        path.len()
    }
}

/// Removes an empty folder, unless it leads to the store. False where it stays.
fn remove_folder<F: Files>(files: &mut F, dirs: &Dirs, path: &[u8], end: usize) -> bool
    requires slash { get_or path.now end 0 ≡ 47 }
    requires kept { kept_of dirs.now path.now < end }
    requires inside { end < length path.now }
    ensures leaves { F.honest → AtEveryStop F.means files.old files.new
        (FoldersGo dirs.now (path.now ∷ [])) }
    ensures passes { F.honest → OnlyFolders dirs.now (F.means files.old) (F.means files.new) }
    ensures loses { F.honest → OnEveryDisk F.means files.old files.new LosesNoMore }
    ensures no_fewer { NoFewer (F.faults files.old) (F.faults files.new) }
{
    let folder = &path[..end];
    if leads_to_store(dirs, folder) {
        return false;
    }
    match files.remove_folder(folder) {
        Ok(removed) => removed,
        Err(_) => false,
    }
}

/// Removes the folder of a path that ends here, where a slash is and it is empty. False where a folder stays.
fn remove_at<F: Files>(files: &mut F, dirs: &Dirs, path: &[u8], end: usize) -> bool
    requires kept { kept_of dirs.now path.now < end }
    requires inside { end < length path.now }
    ensures leaves { F.honest → AtEveryStop F.means files.old files.new
        (FoldersGo dirs.now (path.now ∷ [])) }
    ensures passes { F.honest → OnlyFolders dirs.now (F.means files.old) (F.means files.new) }
    ensures loses { F.honest → OnEveryDisk F.means files.old files.new LosesNoMore }
    ensures no_fewer { NoFewer (F.faults files.old) (F.faults files.new) }
{
    if path[end] != b'/' {
        return true;
    }
    remove_folder(files, dirs, path, end)
}

/// Removes the empty folders above a path, from its own up.
fn remove_above<F: Files>(files: &mut F, dirs: &Dirs, path: &[u8])
    ensures leaves { F.honest → AtEveryStop F.means files.old files.new
        (FoldersGo dirs.now (path.now ∷ [])) }
    ensures passes { F.honest → OnlyFolders dirs.now (F.means files.old) (F.means files.new) }
    ensures loses { F.honest → OnEveryDisk F.means files.old files.new LosesNoMore }
    ensures no_fewer { NoFewer (F.faults files.old) (F.faults files.new) }
{
    let top = kept_len(dirs, path).saturating_add(1);
    let mut end = path.len();
    while end > top {
        end -= 1;
        if !remove_at(files, dirs, path, end) {
            return;
        }
    }
}

/// The folder that a path is in: what is before its last slash, and nothing where it has none.
fn folder_of(path: &[u8]) -> &[u8] {
    match cut_last(path, b'/') {
        Some((folder, _)) => folder,
        None => b"",
    }
}

/// Removes the empty folders above a path, unless it is in the folder that was tried last.
fn remove_above_next<F: Files>(files: &mut F, dirs: &Dirs, path: &[u8], tried: &[u8])
    ensures leaves { F.honest → AtEveryStop F.means files.old files.new
        (FoldersGo dirs.now (path.now ∷ [])) }
    ensures passes { F.honest → OnlyFolders dirs.now (F.means files.old) (F.means files.new) }
    ensures loses { F.honest → OnEveryDisk F.means files.old files.new LosesNoMore }
    ensures no_fewer { NoFewer (F.faults files.old) (F.faults files.new) }
{
    if folder_of(path) != tried {
        remove_above(files, dirs, path);
    }
}

/// Removes the empty folders above these paths, up to `logs`, or to `refs` and one component more. A fault is not reported. Takes no
/// memory. One call of files for each folder that is tried; paths of one folder that follow one another try it once. (`git update-ref -d`)
pub fn remove_empty_folders<F: Files>(files: &mut F, dirs: &Dirs, paths: &[Vec<u8>])
    ensures leaves { F.honest → AtEveryStop F.means files.old files.new
        (FoldersGo dirs.now (paths_of paths.now)) }
    ensures passes { F.honest → OnlyFolders dirs.now (F.means files.old) (F.means files.new) }
    ensures loses { F.honest → OnEveryDisk F.means files.old files.new LosesNoMore }
    ensures no_fewer { NoFewer (F.faults files.old) (F.faults files.new) }
{
    let mut tried = b"".as_slice();
    for path in paths {
        remove_above_next(files, dirs, path, tried);
        tried = folder_of(path);
    }
}
