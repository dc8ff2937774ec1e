//! The plan of a commit: a list of steps that borrow their paths and texts from the edits. Logs and renames of updates come first,
//! then the logs of deletions, then `packed-refs`, then the loose files of deletions: so no deletion shows before the updates, and
//! no old record shows in place of a loose file that is gone.
ghost use Rattle.std.specs.Prelude.{◌≡◌, OnOk, IfOk, ◌++◌};
ghost use Rattle.gix_ref_commit.specs.Entries.{entry_of, entries, folders_entry, line_entry, rename_entry, log_removal_entry, removal_entry, packed_entry, each, update_entries, planned_entries};

use gix_ref_files::lock::LockFile;
use gix_ref_files::paths::folder;
use gix_ref_files::steps::{Action, Planned, Settle};
use gix_ref_lookup::folders::Dirs;
use gix_ref_packed_text::outcome::Rewrite;
use gix_ref_transaction::edit::{Edit, Effect, LogEffect};
use std::alloc::{AllocError, Global};

/// What a step of a commit is about.
#[derive(Clone, Copy, PartialEq, Eq)]
pub enum About {
    /// The folders that lead to the log of the edit at this place of the list, from 0.
    Folders { edit: usize },
    /// The line that is added to its log.
    Line { edit: usize },
    /// The rename of its lock.
    Rename { edit: usize },
    /// The removal of its log.
    LogRemoval { edit: usize },
    /// The new `packed-refs`.
    Packed,
    /// The removal of the loose file of the edit at this place.
    Removal { edit: usize },
}

/// The folders that lead to the log of an edit, if a line is added to it and there was no log.
fn folders_step<'p>(at: usize, edit: &'p Edit) -> Option<Planned<'p, About>>
    ensures { entry_of result ≡ folders_entry at edit.now }
{
    if edit.has_log() {
        return None;
    }
    match &edit.log {
        LogEffect::Append { log, .. } => Some(Planned {
            action: Action::MakeFolders { path: folder(log) },
            settle: Settle::Nothing,
            about: About::Folders { edit: at },
        }),
        LogEffect::Keep | LogEffect::Remove { .. } => None,
    }
}

/// The line that is added to the log of an edit, if one is.
fn line_step<'p>(dirs: &Dirs, at: usize, edit: &'p Edit) -> Option<Planned<'p, About>>
    ensures { entry_of result ≡ line_entry dirs.now at edit.now }
{
    match &edit.log {
        LogEffect::Append { log, line } => Some(Planned {
            action: Action::Line {
                path: log,
                bytes: line,
                seen: edit.has_log(),
            },
            settle: Settle::UpTo {
                root: dirs.root(log),
            },
            about: About::Line { edit: at },
        }),
        LogEffect::Keep | LogEffect::Remove { .. } => None,
    }
}

/// The rename of the lock of an edit, where its loose file is written.
fn rename_step<'p>(dirs: &Dirs, at: usize, edit: &'p Edit) -> Option<Planned<'p, About>>
    ensures { entry_of result ≡ rename_entry dirs.now at edit.now }
{
    match edit.effect {
        Effect::Write => Some(Planned {
            action: Action::Rename {
                from: edit.lock.path(),
                to: edit.lock.place(),
            },
            settle: Settle::UpTo {
                root: dirs.root(edit.lock.place()),
            },
            about: About::Rename { edit: at },
        }),
        Effect::Remove | Effect::Keep => None,
    }
}

/// The removal of the log of an edit, if it is removed.
fn log_removal_step<'p>(at: usize, edit: &'p Edit) -> Option<Planned<'p, About>>
    ensures { entry_of result ≡ log_removal_entry at edit.now }
{
    match &edit.log {
        LogEffect::Remove { log } => Some(Planned {
            action: Action::RemoveFile { path: log },
            settle: Settle::Folder,
            about: About::LogRemoval { edit: at },
        }),
        LogEffect::Keep | LogEffect::Append { .. } => None,
    }
}

/// The removal of the loose file of an edit, if it is removed.
fn removal_step<'p>(at: usize, edit: &'p Edit) -> Option<Planned<'p, About>>
    ensures { entry_of result ≡ removal_entry at edit.now }
{
    match edit.effect {
        Effect::Remove => Some(Planned {
            action: Action::RemoveFile {
                path: edit.lock.place(),
            },
            settle: Settle::Folder,
            about: About::Removal { edit: at },
        }),
        Effect::Write | Effect::Keep => None,
    }
}

/// What is done with `packed-refs`, whose lock this is: the lock, which holds the new text, is renamed to it; or it is removed.
fn packed_step<'p>(dirs: &Dirs, lock: &'p LockFile, rewrite: &Rewrite) -> Option<Planned<'p, About>>
    ensures { entry_of result ≡ packed_entry dirs.now lock.now rewrite.now }
{
    let (action, settle) = match rewrite {
        Rewrite::Unchanged => return None,
        Rewrite::Removed => (Action::RemoveFile { path: lock.place() }, Settle::Folder),
        Rewrite::Text(_) => (
            Action::Rename {
                from: lock.path(),
                to: lock.place(),
            },
            Settle::UpTo {
                root: dirs.root(lock.place()),
            },
        ),
    };
    Some(Planned {
        action,
        settle,
        about: About::Packed,
    })
}

/// Adds a step, if there is one.
fn add<'p>(
    plan: &mut Vec<Planned<'p, About>>,
    step: Option<Planned<'p, About>>,
) -> Result<(), AllocError>
    ensures { OnOk result (entries plan.new.items ≡ entries plan.old.items ++ entry_of step.entry) }
{
    if let Some(step) = step {
        plan.push(step)?;
    }
    Ok(())
}

/// For each edit the folders of its log, its log line, and then its rename.
fn add_updates<'p>(
    plan: &mut Vec<Planned<'p, About>>,
    dirs: &Dirs,
    edits: &'p [Edit],
) -> Result<(), AllocError>
    ensures { OnOk result (entries plan.new.items
        ≡ entries plan.old.items ++ each (update_entries dirs.now) 0 edits.now) }
{
    for (at, edit) in edits.iter().enumerate() {
        add(plan, folders_step(at, edit))?;
        add(plan, line_step(dirs, at, edit))?;
        add(plan, rename_step(dirs, at, edit))?;
    }
    Ok(())
}

/// The removals of logs.
fn add_log_removals<'p>(
    plan: &mut Vec<Planned<'p, About>>,
    edits: &'p [Edit],
) -> Result<(), AllocError>
    ensures { OnOk result (entries plan.new.items
        ≡ entries plan.old.items ++ each log_removal_entry 0 edits.now) }
{
    for (at, edit) in edits.iter().enumerate() {
        add(plan, log_removal_step(at, edit))?;
    }
    Ok(())
}

/// The removals of loose files.
fn add_removals<'p>(plan: &mut Vec<Planned<'p, About>>, edits: &'p [Edit]) -> Result<(), AllocError>
    ensures { OnOk result (entries plan.new.items
        ≡ entries plan.old.items ++ each removal_entry 0 edits.now) }
{
    for (at, edit) in edits.iter().enumerate() {
        add(plan, removal_step(at, edit))?;
    }
    Ok(())
}

/// The plan of these edits, where `packed-refs` becomes this: for each edit its log line, after the folders of the log,
/// and then its rename; the removals of logs; `packed-refs`, if its lock is held; and the removals of loose files. (`git update-ref --stdin`, `commit`)
pub fn plan_commit<'p>(
    alloc: Global,
    dirs: &Dirs,
    edits: &'p [Edit],
    packed: &'p Option<LockFile>,
    rewrite: &Rewrite,
) -> Result<Vec<Planned<'p, About>>, AllocError>
    ensures { IfOk result (λ plan. entries plan.items
        ≡ planned_entries dirs.now edits.now packed.now rewrite.now) }
{
    // An update has three steps, a deletion two.
    let mut plan = Vec::with_capacity(alloc, edits.len().saturating_mul(3))?;
    add_updates(&mut plan, dirs, edits)?;
    add_log_removals(&mut plan, edits)?;
    if let Some(lock) = packed {
        add(&mut plan, packed_step(dirs, lock, rewrite))?;
    }
    add_removals(&mut plan, edits)?;
    Ok(plan)
}
