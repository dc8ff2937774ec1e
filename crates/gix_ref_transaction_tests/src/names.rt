//! Names of references, and where each of them is kept: its loose file, its log and its record.
use gix_ref_store::store::WriteReflog;
use std::alloc::Global;
use std::process::Abort;

/// The references of most edits and files.
pub const NAMES: &[&str] = &[
    "HEAD",
    "refs/heads/a",
    "refs/heads/a/b",
    "refs/heads/b",
    "refs/heads/c",
    "refs/tags/t",
    "refs/worktree/p",
    "refs/x/s",
];

/// Other names, some of which are names of the same references.
pub const OTHERS: &[&str] = &[
    "main-worktree/HEAD",
    "main-worktree/refs/heads/b",
    "refs/remotes/o/m",
    "worktrees/w/HEAD",
    "worktrees/w/refs/tags/t",
    "worktrees/w/refs/worktree/p",
];

/// Names that edits may not have, the second where names of devices are prohibited.
pub const ODD: &[&str] = &["logs/HEAD", "refs/heads/aux"];

/// All of these, in the order of their bytes.
pub const KNOWN: &[&str] = &[
    "HEAD",
    "logs/HEAD",
    "main-worktree/HEAD",
    "main-worktree/refs/heads/b",
    "refs/heads/a",
    "refs/heads/a/b",
    "refs/heads/aux",
    "refs/heads/b",
    "refs/heads/c",
    "refs/remotes/o/m",
    "refs/tags/t",
    "refs/worktree/p",
    "refs/x/s",
    "worktrees/w/HEAD",
    "worktrees/w/refs/tags/t",
    "worktrees/w/refs/worktree/p",
];

/// The folders and the options of a store; its common folder is `/r`.
#[derive(Clone, Copy, Debug)]
pub struct Setting {
    /// The git folder: `/r`, or `/r/worktrees/w`.
    pub git: &'static str,
    /// The text in front of all names: none, or that of a namespace.
    pub space: &'static str,
    /// When log lines are written.
    pub mode: WriteReflog,
    /// Whether names of devices are prohibited.
    pub prohibits: bool,
}

/// Where a name is kept: the folder of its file and what is after the namespace there, and the same of its log.
#[derive(Clone, Copy, Debug)]
struct Spot {
    folder: &'static str,
    name: &'static str,
    log_folder: &'static str,
    own: &'static str,
}

/// Whether each worktree has its own reference of this name.
fn is_private(name: &str) -> bool {
    !name.contains('/') || name.starts_with("refs/worktree/")
}

/// The spot of a name that begins with a worktree.
fn spot_of_worktree(name: &'static str) -> Option<Spot> {
    if let Some(own) = name.strip_prefix("main-worktree/") {
        return Some(Spot {
            folder: "/r",
            name: own,
            log_folder: "/r",
            own,
        });
    }
    let own = name.strip_prefix("worktrees/w/")?;
    if is_private(own) {
        return Some(Spot {
            folder: "/r",
            name,
            log_folder: "/r/worktrees/w",
            own,
        });
    }
    Some(Spot {
        folder: "/r",
        name: own,
        log_folder: "/r",
        own,
    })
}

/// The spot of a name.
fn spot_of(setting: Setting, name: &'static str) -> Spot {
    match spot_of_worktree(name) {
        Some(spot) => spot,
        None => {
            let folder = if is_private(name) { setting.git } else { "/r" };
            Spot {
                folder,
                name,
                log_folder: folder,
                own: name,
            }
        }
    }
}

/// The path of the loose file of a name.
pub fn place(rt: &impl Abort, alloc: Global, setting: Setting, name: &'static str) -> String {
    let spot = spot_of(setting, name);
    format!(in alloc; "{}/{}{}", spot.folder, setting.space, spot.name).expect(rt, "memory")
}

/// The path of the log of a name.
pub fn log(rt: &impl Abort, alloc: Global, setting: Setting, name: &'static str) -> String {
    let spot = spot_of(setting, name);
    format!(in alloc; "{}/logs/{}{}", spot.log_folder, setting.space, spot.own).expect(rt, "memory")
}

/// The name of the record of a name, after the namespace, where it may have one.
pub fn key(setting: Setting, name: &'static str) -> Option<&'static str> {
    let own = spot_of(setting, name).own;
    if is_private(own) {
        return None;
    }
    Some(own)
}

/// Whether a log of this name is made where it is missing, if no more is asked for.
pub fn has_usual_log(setting: Setting, name: &'static str) -> bool {
    if !setting.space.is_empty() {
        return false;
    }
    let own = spot_of(setting, name).own;
    own == "HEAD"
        || own.starts_with("refs/heads/")
        || own.starts_with("refs/notes/")
        || own.starts_with("refs/remotes/")
        || own.starts_with("refs/worktree/")
}

/// Whether a name may be that of a reference.
pub fn is_safe(name: &str) -> bool {
    name != "logs/HEAD"
}

/// Whether a component of a name is that of a device.
pub fn has_device(name: &str) -> bool {
    name.ends_with("/aux")
}
