//! A run of steps over files, one after the other, each with the syncs that settle it, up to the first fault or unexpected
//! result.
ghost use Rattle.std.specs.Prelude.{◌≡◌, ◌<◌, ◌≤◌, ◌-◌, IsTrue, OnOk, OnErr, IfOk, IfErr, IsErrOf, MatchResult, [], ◌∷◌, length, true, false};
ghost use Rattle.gix_ref_files.specs.Tree.{is_folder, is_file, has_folders};
ghost use Rattle.gix_ref_files.specs.Disk.{folder_of};
ghost use Rattle.gix_ref_files.specs.Files.{AtEveryStop, OnEveryDisk, disk_of, CountsCall, DiskBecomes};
ghost use Rattle.gix_ref_files.specs.Settled.{synced, synced_by, sync_of_folder, folders_up, climb, from_one};
ghost use Rattle.gix_ref_files.specs.Settled.Sync.{OfFile, OfFolder};
ghost use Rattle.gix_ref_files.specs.Steps.{Does, EndsBy, IsAfter, IsLeftBy, EndsAt, step_of, steps_of, IsCounted, MayBeSynced};
ghost use Rattle.gix_ref_files.specs.Steps.Step.{Line};
ghost use Rattle.gix_ref_files.specs.DiskSteps.{DoesOn, BeginsOn, With, IsReachedBy, IsSyncedAfter, EndsOn, IsEndedAt, IsSomeSynced, Settling, folder_syncs, path_syncs, syncs_of, synced_steps, needs, CanSync, CanSettle};
ghost use Rattle.gix_ref_files.specs.Clean.{AreKnown};
ghost use Rattle.gix_ref_files.specs.declared.steps.Cause.TheVariants.{File};

use crate::clean::Known;
use crate::files::{Create, FileError, Files, Rename};
use crate::paths::folder;

/// What a step does. It borrows its paths and its bytes.
#[derive(Clone, Copy, Debug)]
pub enum Action<'p> {
    /// Makes an empty file where there is nothing and folders lead there.
    Create {
        path: &'p [u8],
    },
    /// Adds bytes to the end of a file that exists.
    Append {
        path: &'p [u8],
        bytes: &'p [u8],
    },
    /// Adds bytes to the end of a file, which is made where it is missing and folders lead there. Where one was `seen` it is
    /// looked for first, else made first: either does the same, in fewer calls if what was seen is still so.
    Line {
        path: &'p [u8],
        bytes: &'p [u8],
        seen: bool,
    },
    /// Moves a file, also onto a file.
    Rename {
        from: &'p [u8],
        to: &'p [u8],
    },
    /// Removes a file, if there is one.
    RemoveFile {
        path: &'p [u8],
    },
    /// Makes the folders that lead to a path, and one there. Nothing is synced after it.
    MakeFolders {
        path: &'p [u8],
    },
    /// Removes a folder, if there is an empty one. Nothing is synced after it.
    RemoveFolder {
        path: &'p [u8],
    },
    /// Ends the run.
    End,
}

/// What is synced after a step, before the next one begins.
#[derive(Clone, Copy, Debug, PartialEq, Eq)]
pub enum Settle {
    /// Nothing.
    Nothing,
    /// The bytes of the file, where they grew.
    File,
    /// The path's own folder; and before it the bytes of the file, where they grew. It settles a removal: a file that is gone is so
    /// whether or not the folders above are there.
    Folder,
    /// The folders of the path, from its own up to the one whose path is the front of this length (that of the git folder
    /// or of the common folder); and before these the bytes of the file, where they grew.
    UpTo { root: usize },
}

/// A step of a plan.
#[derive(Clone, Copy, Debug)]
pub struct Planned<'p, E> {
    /// What it does.
    pub action: Action<'p>,
    /// What is synced after it.
    pub settle: Settle,
    /// What the caller says of it, as the error that it wants where the run ends here. The run does not look at it.
    pub about: E,
}

/// Why a run ended at a step.
#[derive(Clone, Copy, Debug, PartialEq, Eq)]
pub enum Cause {
    /// The call failed. The step is not done, or a beginning of it is.
    File(FileError),
    /// The step is done, and a sync after it failed.
    Sync(FileError),
    /// The call returned that it cannot do the step: something is where a file was to be made, no file to append
    /// to, a folder where a file was to go, or a file in the way.
    Unexpected,
    /// The step is `End`.
    Asked,
}

/// Where a run ended, and why.
#[derive(Clone, Copy, Debug, PartialEq, Eq)]
pub struct Ended {
    /// The place of the step in the plan, from 0. Each step before it is done, and none after it was begun.
    pub at: usize,
    /// Why it ended there.
    pub cause: Cause,
}

impl From<FileError> for Cause {
    ghost from_gives = { λ error cause. cause ≡ File error };

    fn from(error: FileError) -> Self {
        Cause::File(error)
    }
}

/// Adds bytes to a file, which is made where it is missing. False where it cannot be made.
fn append_line<F: Files>(files: &mut F, path: &[u8], bytes: &[u8]) -> Result<bool, FileError>
    ensures done { F.honest → IfOk result (λ done. IsTrue done →
        Does (Line path.now bytes.now) (F.means files.old).tree (F.means files.new).tree) }
    ensures done_on { F.honest → IfOk result (λ done. IsTrue done → DoesOn (Line path.now bytes.now)
        (disk_of (F.means files.old)) (disk_of (F.means files.new))) }
    ensures refused { F.honest → IfOk result (λ done. done ≡ false → EndsBy (Line path.now
        bytes.now) Cause.Unexpected (F.means files.old).tree (F.means files.new).tree) }
    ensures passes { F.honest → OnEveryDisk F.means files.old files.new
        (BeginsOn (Line path.now bytes.now)) }
    ensures count { CountsCall result (F.faults files.old) (F.faults files.new) }
{
    if files.append(path, bytes)? {
        return Ok(true);
    }
    if files.create_new(path)? != Create::Made {
        return Ok(false);
    }
    files.append(path, bytes)
}

/// Makes a file and adds bytes to it, or to the one that is there. False where there is something else.
fn make_line<F: Files>(files: &mut F, path: &[u8], bytes: &[u8]) -> Result<bool, FileError>
    ensures done { F.honest → IfOk result (λ done. IsTrue done →
        Does (Line path.now bytes.now) (F.means files.old).tree (F.means files.new).tree) }
    ensures done_on { F.honest → IfOk result (λ done. IsTrue done → DoesOn (Line path.now bytes.now)
        (disk_of (F.means files.old)) (disk_of (F.means files.new))) }
    ensures refused { F.honest → IfOk result (λ done. done ≡ false → EndsBy (Line path.now
        bytes.now) Cause.Unexpected (F.means files.old).tree (F.means files.new).tree) }
    ensures passes { F.honest → OnEveryDisk F.means files.old files.new
        (BeginsOn (Line path.now bytes.now)) }
    ensures count { CountsCall result (F.faults files.old) (F.faults files.new) }
{
    match files.create_new(path)? {
        Create::Made | Create::Standing => files.append(path, bytes),
        Create::Blocked => Ok(false),
    }
}

/// Adds bytes to a file, which is made where it is missing; first where none was seen. False where it cannot be made.
fn add_line<F: Files>(
    files: &mut F,
    path: &[u8],
    bytes: &[u8],
    seen: bool,
) -> Result<bool, FileError>
    ensures done { F.honest → IfOk result (λ done. IsTrue done →
        Does (Line path.now bytes.now) (F.means files.old).tree (F.means files.new).tree) }
    ensures done_on { F.honest → IfOk result (λ done. IsTrue done → DoesOn (Line path.now bytes.now)
        (disk_of (F.means files.old)) (disk_of (F.means files.new))) }
    ensures refused { F.honest → IfOk result (λ done. done ≡ false → EndsBy (Line path.now
        bytes.now) Cause.Unexpected (F.means files.old).tree (F.means files.new).tree) }
    ensures passes { F.honest → OnEveryDisk F.means files.old files.new
        (BeginsOn (Line path.now bytes.now)) }
    ensures count { CountsCall result (F.faults files.old) (F.faults files.new) }
{
    if seen {
        append_line(files, path, bytes)
    } else {
        make_line(files, path, bytes)
    }
}

/// True for a step that is done, and an unexpected result for one that cannot be.
fn as_done(done: bool) -> Result<bool, Cause>
    ensures done { OnOk result (done ≡ true) }
    ensures more { IfOk result (λ more. more ≡ true) }
    ensures refused { OnErr result (done ≡ false) }
    ensures cause { IfErr result (λ cause. cause ≡ Cause.Unexpected) }
{
    if done {
        Ok(true)
    } else {
        Err(Cause::Unexpected)
    }
}

/// Does one step, without its syncs. False where there was nothing to do, and so nothing is to be synced.
fn change<F: Files>(files: &mut F, action: &Action<'_>) -> Result<bool, Cause>
    ensures done { F.honest →
        OnOk result (Does (step_of action.now) (F.means files.old).tree (F.means files.new).tree) }
    ensures done_on { F.honest → OnOk result
        (DoesOn (step_of action.now) (disk_of (F.means files.old)) (disk_of (F.means files.new))) }
    ensures needed { F.honest →
        IfOk result (λ more. needs (step_of action.now) (F.means files.old).tree ≡ more) }
    ensures ready { F.honest →
        IfOk result (λ more. IsTrue more → CanSettle action.now (F.means files.new).tree) }
    ensures ended { F.honest → IfErr result (λ cause. EndsBy (step_of action.now) cause
        (F.means files.old).tree (F.means files.new).tree) }
    ensures ended_on { F.honest → IfErr result (λ cause. EndsOn (With (step_of action.now) [])
        cause (disk_of (F.means files.old)) (disk_of (F.means files.new))) }
    ensures passes { F.honest → OnEveryDisk F.means files.old files.new
        (BeginsOn (step_of action.now)) }
    ensures count { MatchResult result (λ _. F.faults files.new ≡ F.faults files.old)
        (λ cause. IsCounted cause (F.faults files.old) (F.faults files.new)) }
    ensures asked { IsErrOf result Cause.Asked → action.now ≡ Action.End }
{
    match *action {
        Action::Create { path } => as_done(files.create_new(path)? == Create::Made),
        Action::Append { path, bytes } => as_done(files.append(path, bytes)?),
        Action::Line { path, bytes, seen } => as_done(add_line(files, path, bytes, seen)?),
        Action::Rename { from, to } => as_done(files.rename(from, to)? == Rename::Moved),
        Action::MakeFolders { path } => as_done(files.make_folders(path)?),
        Action::RemoveFile { path } => Ok(files.remove_file(path)?),
        Action::RemoveFolder { path } => {
            files.remove_folder(path)?;
            Ok(true)
        }
        Action::End => Err(Cause::Asked),
    }
}

/// Syncs the bytes of a file. One that is gone needs no sync.
fn sync_bytes<F: Files>(files: &mut F, path: &[u8]) -> Result<(), FileError>
    requires { F.honest → is_file ((F.means files.old).tree path.now) ≡ true }
    ensures done { F.honest →
        OnOk result (DiskBecomes F.means files.old files.new (synced (OfFile path.now))) }
    ensures passes { F.honest → OnEveryDisk F.means files.old files.new
        (Settling (OfFile path.now)) }
    ensures count { CountsCall result (F.faults files.old) (F.faults files.new) }
{
    files.sync_file(path)?;
    Ok(())
}

/// Syncs the entries of a folder. One that is gone needs no sync.
fn sync_entries<F: Files>(files: &mut F, path: &[u8]) -> Result<(), FileError>
    requires { F.honest → is_folder ((F.means files.old).tree path.now) ≡ true }
    ensures done { F.honest →
        OnOk result (DiskBecomes F.means files.old files.new (synced (OfFolder path.now))) }
    ensures passes { F.honest → OnEveryDisk F.means files.old files.new
        (Settling (OfFolder path.now)) }
    ensures count { CountsCall result (F.faults files.old) (F.faults files.new) }
{
    files.sync_folder(path)?;
    Ok(())
}

/// Where a climb ends: at a place from 1 on.
pub(crate) fn root_of(root: usize) -> usize
    ensures place { result ≡ from_one root }
    ensures some { 1 ≤ result }
{
    if root == 0 { 1 } else { root }
}

/// Syncs the folders of a path, from its own up to the front of this length, which has a byte. Those that are gone are passed over.
fn sync_up<F: Files>(files: &mut F, path: &[u8], top: usize) -> Result<(), FileError>
    requires top { 1 ≤ top }
    requires there { F.honest → has_folders (F.means files.old).tree path.now ≡ true }
    ensures done { F.honest → OnOk result (DiskBecomes F.means files.old files.new
        (synced_by (folders_up path.now top (length path.now - top)))) }
    ensures passes { F.honest → OnEveryDisk F.means files.old files.new
        (IsSomeSynced (folders_up path.now top (length path.now - top))) }
    ensures count { CountsCall result (F.faults files.old) (F.faults files.new) }
{
    let mut end = path.len();
    while end > top {
        end -= 1;
        if path[end] == b'/' {
            sync_entries(files, &path[..end])?;
        }
    }
    Ok(())
}

/// Syncs the folders of a path, from its own up to the front of this length.
fn sync_folders<F: Files>(files: &mut F, path: &[u8], root: usize) -> Result<(), FileError>
    requires { F.honest → has_folders (F.means files.old).tree path.now ≡ true }
    ensures done { F.honest →
        OnOk result (DiskBecomes F.means files.old files.new (synced_by (climb path.now root))) }
    ensures passes { F.honest → OnEveryDisk F.means files.old files.new
        (IsSomeSynced (climb path.now root)) }
    ensures count { CountsCall result (F.faults files.old) (F.faults files.new) }
{
    let top = root_of(root);
    sync_up(files, path, top)
}

/// Syncs the folder of a path, if it has one.
fn sync_own_folder<F: Files>(files: &mut F, path: &[u8]) -> Result<(), FileError>
    requires { F.honest → has_folders (F.means files.old).tree path.now ≡ true }
    ensures done { F.honest → OnOk result (DiskBecomes F.means files.old files.new
        (synced_by (sync_of_folder (folder_of path.now)))) }
    ensures passes { F.honest → OnEveryDisk F.means files.old files.new
        (IsSomeSynced (sync_of_folder (folder_of path.now))) }
    ensures count { CountsCall result (F.faults files.old) (F.faults files.new) }
{
    let folder = folder(path);
    if folder.is_empty() {
        return Ok(());
    }
    sync_entries(files, folder)
}

/// Syncs the folders that settle a path.
fn sync_above<F: Files>(files: &mut F, path: &[u8], settle: Settle) -> Result<(), FileError>
    requires { F.honest → has_folders (F.means files.old).tree path.now ≡ true }
    ensures done { F.honest → OnOk result
        (DiskBecomes F.means files.old files.new (synced_by (folder_syncs path.now settle))) }
    ensures passes { F.honest → OnEveryDisk F.means files.old files.new
        (IsSomeSynced (folder_syncs path.now settle)) }
    ensures count { CountsCall result (F.faults files.old) (F.faults files.new) }
{
    match settle {
        Settle::Nothing | Settle::File => Ok(()),
        Settle::Folder => sync_own_folder(files, path),
        Settle::UpTo { root } => sync_folders(files, path, root),
    }
}

/// Syncs the bytes of a file, and then the folders that settle its path.
fn sync_line<F: Files>(files: &mut F, path: &[u8], settle: Settle) -> Result<(), FileError>
    requires { F.honest → CanSync true (F.means files.old).tree path.now }
    ensures done { F.honest → OnOk result (DiskBecomes F.means files.old files.new
        (synced_by (OfFile path.now ∷ folder_syncs path.now settle))) }
    ensures passes { F.honest → OnEveryDisk F.means files.old files.new
        (IsSomeSynced (OfFile path.now ∷ folder_syncs path.now settle)) }
    ensures count { CountsCall result (F.faults files.old) (F.faults files.new) }
{
    sync_bytes(files, path)?;
    sync_above(files, path, settle)
}

/// Syncs what settles a path, and first the bytes of its file, where these grew.
fn sync_path<F: Files>(
    files: &mut F,
    grows: bool,
    path: &[u8],
    settle: Settle,
) -> Result<(), FileError>
    requires { F.honest → CanSync grows (F.means files.old).tree path.now }
    ensures done { F.honest → OnOk result
        (DiskBecomes F.means files.old files.new (synced_by (path_syncs grows path.now settle))) }
    ensures passes { F.honest → OnEveryDisk F.means files.old files.new
        (IsSomeSynced (path_syncs grows path.now settle)) }
    ensures count { CountsCall result (F.faults files.old) (F.faults files.new) }
{
    match settle {
        Settle::Nothing => Ok(()),
        Settle::File | Settle::Folder | Settle::UpTo { .. } => {
            if grows {
                sync_line(files, path, settle)
            } else {
                sync_above(files, path, settle)
            }
        }
    }
}

/// Does the syncs of a step that is done. What another program has removed meanwhile needs none.
fn sync_after<F: Files>(files: &mut F, action: &Action<'_>, settle: Settle) -> Result<(), FileError>
    requires { F.honest → CanSettle action.now (F.means files.old).tree }
    ensures done { F.honest → OnOk result
        (DiskBecomes F.means files.old files.new (synced_by (syncs_of action.now settle))) }
    ensures passes { F.honest → OnEveryDisk F.means files.old files.new
        (IsSomeSynced (syncs_of action.now settle)) }
    ensures count { CountsCall result (F.faults files.old) (F.faults files.new) }
    ensures synced { OnErr result (MayBeSynced (step_of action.now)) }
{
    match *action {
        Action::Create { path } => sync_path(files, false, path, settle),
        Action::Append { path, .. } => sync_path(files, true, path, settle),
        Action::Line { path, .. } => sync_path(files, true, path, settle),
        Action::Rename { to, .. } => sync_path(files, false, to, settle),
        Action::RemoveFile { path } => sync_path(files, false, path, settle),
        Action::MakeFolders { .. } => Ok(()),
        Action::RemoveFolder { .. } => Ok(()),
        Action::End => Ok(()),
    }
}

/// Does the syncs of a step, without those of folders in which nothing has changed since they were synced.
fn sync_changed<F: Files>(
    files: &mut F,
    action: &Action<'_>,
    settle: Settle,
    known: Known<'_>,
) -> Result<(), FileError>
    requires known { F.honest → AreKnown (disk_of (F.means files.old)) known }
    requires there { F.honest → CanSettle action.now (F.means files.old).tree }
    ensures done { F.honest → OnOk result
        (DiskBecomes F.means files.old files.new (synced_by (syncs_of action.now settle))) }
    ensures passes { F.honest → OnEveryDisk F.means files.old files.new
        (IsSomeSynced (syncs_of action.now settle)) }
    ensures count { CountsCall result (F.faults files.old) (F.faults files.new) }
    ensures synced { OnErr result (MayBeSynced (step_of action.now)) }
{
    sync_after(files, action, known.rest_of(action, settle))
}

/// Does one step, with the syncs that it needs.
fn run_step<'p, F: Files>(
    files: &mut F,
    action: &Action<'p>,
    settle: Settle,
    known: &mut Known<'p>,
) -> Result<(), Cause>
    requires known { F.honest → AreKnown (disk_of (F.means files.old)) known.old }
    ensures known { F.honest → OnOk result (AreKnown (disk_of (F.means files.new)) known.new) }
    ensures done { F.honest →
        OnOk result (Does (step_of action.now) (F.means files.old).tree (F.means files.new).tree) }
    ensures synced { F.honest →
        OnOk result (IsSyncedAfter (With (step_of action.now) (syncs_of action.now settle) ∷ [])
        (disk_of (F.means files.old)) (disk_of (F.means files.new))) }
    ensures ended { F.honest → IfErr result (λ cause. EndsBy (step_of action.now) cause
        (F.means files.old).tree (F.means files.new).tree) }
    ensures ended_on { F.honest → IfErr result (λ cause.
        EndsOn (With (step_of action.now) (syncs_of action.now settle)) cause
        (disk_of (F.means files.old)) (disk_of (F.means files.new))) }
    ensures passes { F.honest → OnEveryDisk F.means files.old files.new
        (IsReachedBy (With (step_of action.now) (syncs_of action.now settle) ∷ [])) }
    ensures count { MatchResult result (λ _. F.faults files.new ≡ F.faults files.old)
        (λ cause. IsCounted cause (F.faults files.old) (F.faults files.new)) }
    ensures asked { IsErrOf result Cause.Asked → action.now ≡ Action.End }
{
    if !change(files, action)? {
        *known = known.after_change(action);
        return Ok(());
    }
    let changed = known.after_change(action);
    match sync_changed(files, action, settle, changed) {
        Ok(()) => {
            *known = changed.after_syncs(action, settle);
            Ok(())
        }
        Err(error) => Err(Cause::Sync(error)),
    }
}

/// Does the steps of a plan in order, each with its syncs, up to the first fault, unexpected result or `End`. Allocates no
/// memory itself, and copies no path. Costs one call of files for each step, one or two more for a line whose file is
/// missing, and one for each sync; a removal that finds no file syncs nothing, and above the log or the place of a step no folder is
/// synced in which nothing has changed since its last sync in this run, as far as it is also above the last log or the last place. A
/// fault of a sync ends the run at its step, which is done then.
pub fn run_steps<F: Files, E>(files: &mut F, plan: &[Planned<'_, E>]) -> Result<(), Ended>
    ensures done { F.honest → OnOk result
        (IsAfter (steps_of plan.now) (F.means files.old).tree (F.means files.new).tree) }
    ensures synced { F.honest → OnOk result (IsSyncedAfter (synced_steps plan.now)
        (disk_of (F.means files.old)) (disk_of (F.means files.new))) }
    ensures ended { F.honest → IfErr result (λ end. EndsAt (steps_of plan.now) end.at end.cause
        (F.means files.old).tree (F.means files.new).tree) }
    ensures ended_on { F.honest → IfErr result (λ end. IsEndedAt (synced_steps plan.now) end.at
        end.cause (disk_of (F.means files.old)) (disk_of (F.means files.new))) }

    // A stop at any moment leaves the tree after some of the steps, with perhaps a beginning of the next.
    ensures leaves { F.honest → AtEveryStop F.means files.old files.new
        (IsLeftBy (steps_of plan.now)) }

    // A loss of power at any moment finds the disk after some of the steps with their syncs, with perhaps a beginning of the
    // next or of its syncs.
    ensures passes { F.honest → OnEveryDisk F.means files.old files.new
        (IsReachedBy (synced_steps plan.now)) }

    ensures count { MatchResult result (λ _. F.faults files.new ≡ F.faults files.old)
        (λ end. IsCounted end.cause (F.faults files.old) (F.faults files.new)) }
    ensures place { IfErr result (λ end. end.at < length plan.now) }
{
    let mut known = Known::none();
    for (at, planned) in plan.iter().enumerate() {
        if let Err(cause) = run_step(files, &planned.action, planned.settle, &mut known) {
            return Err(Ended { at, cause });
        }
    }
    Ok(())
}
