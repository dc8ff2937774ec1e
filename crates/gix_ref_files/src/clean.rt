//! What a run of steps knows of folders: in which of them nothing has changed since they were synced, so that to sync them again changes
//! nothing of the disk. It borrows the paths of the plan, and takes no memory.
ghost use Rattle.std.specs.Prelude.{◌≡◌, ◌≤◌, take, length};
ghost use Rattle.gix_ref_files.specs.Clean.{ShareFolder};

use crate::paths::folder;
use crate::steps::{Action, Settle, root_of};

/// A path to which folders lead, and those of them that end at a slash from one place on and before another: nothing has changed in
/// these since they were synced.
#[derive(Clone, Copy)]
struct Clean<'p> {
    path: &'p [u8],
    from: usize,
    end: usize,
}

/// How many bytes two paths begin with alike.
fn same_len(path: &[u8], other: &[u8]) -> usize
    ensures within { result ≤ length path.now }
    ensures same { take result path.now ≡ take result other.now }
    ensures other { result ≤ length other.now }
{
    let mut len = 0;
    while len < path.len() && len < other.len() && path[len] == other[len] {
        len += 1;
    }
    len
}

/// Where the last slash is in what two paths begin with alike, after the first byte; 0 if there is none.
fn shared_end(path: &[u8], other: &[u8]) -> usize
    ensures { 1 ≤ result → ShareFolder result path.now other.now }
{
    let mut end = same_len(path, other);
    while end > 1 {
        end -= 1;
        if path[end] == b'/' {
            return end;
        }
    }
    0
}

impl<'p> Clean<'p> {
    ghost use Rattle.std.specs.Prelude.{◌≡◌, ◌⊎◌, ◌<◌, ◌≤◌, ℕ, Bool, get_or, take, length, true, false};
    ghost use Rattle.gix_ref_files.specs.Tree.{has_folders};
    ghost use Rattle.gix_ref_files.specs.Disk.{Disk};
    ghost use Rattle.gix_ref_files.specs.Settled.{synced_by, climb, from_one};
    ghost use Rattle.gix_ref_files.specs.DiskSteps.{IsSomeSynced, path_syncs};
    ghost use Rattle.gix_ref_files.specs.Clean.{IsClean, Holds, LeadsTo, IsNotAmong, OnlyIn, OnlyFrom};

    /// No folders.
    fn none() -> Self
        ensures { (D : Disk) → Holds D result }
    {
        Clean {
            path: b"",
            from: 0,
            end: 0,
        }
    }

    /// All folders of a path, up to the front of this length, once they are synced.
    fn all(path: &'p [u8], root: usize) -> Self
        ensures { (D : Disk) → has_folders D.tree path.now ≡ true →
            Holds (synced_by (climb path.now root) D) result }
    {
        Clean {
            path,
            from: root_of(root),
            end: path.len(),
        }
    }

    /// Whether this folder leads to the path.
    fn is_below(self, folder: &[u8]) -> bool
        ensures is { result ≡ true → LeadsTo folder.now self.entry }
        ensures is_not { result ≡ false → IsNotAmong folder.now self.entry }
    {
        let len = folder.len();
        if self.path.len() <= len {
            return false;
        }
        if self.path[len] != b'/' {
            return false;
        }
        self.path[..len] == folder[..len]
    }

    /// Those above a folder in which something changes: they stay clean.
    fn above(self, folder: &[u8]) -> Self
        ensures { (D E : Disk) → OnlyIn folder.now D E → Holds D self.entry → Holds E result }
    {
        if !self.is_below(folder) {
            return self;
        }
        if self.end <= folder.len() {
            return self;
        }
        Clean {
            path: self.path,
            from: self.from,
            end: folder.len(),
        }
    }

    /// Those that end before this place.
    fn ending_before(self, end: usize) -> Self
        ensures { (D E : Disk) → OnlyFrom end D E → Holds D self.entry → Holds E result }
    {
        if self.end <= end {
            return self;
        }
        Clean {
            path: self.path,
            from: self.from,
            end,
        }
    }

    /// Up to where the folders of a path are to be synced: each one above, down from the front of this length, is clean.
    fn changed_from(self, path: &[u8], root: usize) -> usize
        ensures low { from_one root ≤ result }
        ensures within { (result ≡ from_one root) ⊎ (result ≤ length path.now) }
        ensures clean { (D : Disk) → Holds D self.entry → (k : ℕ) → from_one root ≤ k →
            k < result → get_or path.now k 0 ≡ 47 → IsClean D (take k path.now) }
    {
        let top = root_of(root);
        if top < self.from {
            return top;
        }
        let same = same_len(path, self.path);
        if same <= top {
            return top;
        }
        if self.end <= top {
            return top;
        }
        if same < self.end {
            return same;
        }
        self.end
    }

    /// The folders of a path that are to be synced, without those above that are clean.
    fn rest_of(self, path: &[u8], settle: Settle) -> Settle
        ensures syncs { (grows : Bool) (D : Disk) → Holds D self.entry →
            synced_by (path_syncs grows path.now result) D
            ≡ synced_by (path_syncs grows path.now settle) D }
        ensures some { (grows : Bool) (D E : Disk) →
            IsSomeSynced (path_syncs grows path.now result) D E →
            IsSomeSynced (path_syncs grows path.now settle) D E }
    {
        match settle {
            Settle::Nothing => Settle::Nothing,
            Settle::File => Settle::File,
            Settle::Folder => Settle::Folder,
            Settle::UpTo { root } => Settle::UpTo {
                root: self.changed_from(path, root),
            },
        }
    }
}

/// What a run knows of the folders of the last log that got a line, of the last log in another folder, and of the place to which it
/// last moved a file.
#[derive(Clone, Copy)]
pub(crate) struct Known<'p> {
    line: Clean<'p>,
    other_line: Clean<'p>,
    place: Clean<'p>,
}

impl<'p> Known<'p> {
    ghost use Rattle.std.specs.Prelude.{◌≡◌};
    ghost use Rattle.gix_ref_files.specs.Disk.{Disk, folder_of};
    ghost use Rattle.gix_ref_files.specs.Settled.{synced_by};
    ghost use Rattle.gix_ref_files.specs.Steps.{step_of};
    ghost use Rattle.gix_ref_files.specs.Steps.Step.{MakeFolders};
    ghost use Rattle.gix_ref_files.specs.DiskSteps.{DoesOn, IsSomeSynced, syncs_of, CanSettle};
    ghost use Rattle.gix_ref_files.specs.Clean.{Holds, AreKnown, OnlyIn};

    /// Nothing is known.
    pub(crate) fn none() -> Self
        ensures { (D : Disk) → AreKnown D result }
    {
        Known {
            line: Clean::none(),
            other_line: Clean::none(),
            place: Clean::none(),
        }
    }

    /// What is known once the folder of this path has one more entry, or one less.
    fn after_entry(self, path: &[u8]) -> Self
        ensures { (D E : Disk) → OnlyIn (folder_of path.now) D E → AreKnown D self.entry →
            AreKnown E result }
    {
        let folder = folder(path);
        Known {
            line: self.line.above(folder),
            other_line: self.other_line.above(folder),
            place: self.place.above(folder),
        }
    }

    /// What is known once folders are made: none is, where the last one is known to be there; and none above the last one on the way
    /// of the last log.
    fn after_folders(self, path: &[u8]) -> Self
        ensures { (D E : Disk) → DoesOn (MakeFolders path.now) D E → AreKnown D self.entry →
            AreKnown E result }
    {
        if self.line.is_below(path) {
            return self;
        }
        if self.other_line.is_below(path) {
            return self;
        }
        let end = shared_end(path, self.line.path);
        if end == 0 {
            return Known::none();
        }
        Known {
            line: self.line.ending_before(end),
            other_line: self.other_line.ending_before(end),
            place: self.place.ending_before(end),
        }
    }

    /// What is known after a step without its syncs.
    pub(crate) fn after_change(self, action: &Action<'_>) -> Self
        ensures { (D E : Disk) → DoesOn (step_of action.now) D E → AreKnown D self.entry →
            AreKnown E result }
    {
        match *action {
            Action::Create { path } => self.after_entry(path),
            Action::Append { .. } => self,
            Action::Line { path, .. } => self.after_entry(path),
            Action::Rename { from, to } => self.after_entry(from).after_entry(to),
            Action::RemoveFile { path } => self.after_entry(path),
            Action::MakeFolders { path } => self.after_folders(path),
            Action::RemoveFolder { .. } => Known::none(),
            Action::End => Known::none(),
        }
    }

    /// What is known of the last log that is in another folder than this one.
    fn other_line(self, path: &[u8]) -> Clean<'p>
        ensures { (D : Disk) → AreKnown D self.entry → Holds D result }
    {
        if folder(self.line.path) == folder(path) {
            self.other_line
        } else {
            self.line
        }
    }

    /// What is known after the syncs of a step.
    pub(crate) fn after_syncs(self, action: &Action<'p>, settle: Settle) -> Self
        ensures { (D : Disk) → CanSettle action.now D.tree → AreKnown D self.entry →
            AreKnown (synced_by (syncs_of action.now settle) D) result }
    {
        let Settle::UpTo { root } = settle else {
            return self;
        };
        match *action {
            Action::Line { path, .. } => Known {
                line: Clean::all(path, root),
                other_line: self.other_line(path),
                place: self.place,
            },
            Action::Rename { to, .. } => Known {
                line: self.line,
                other_line: self.other_line,
                place: Clean::all(to, root),
            },
            Action::Create { .. }
            | Action::Append { .. }
            | Action::RemoveFile { .. }
            | Action::MakeFolders { .. }
            | Action::RemoveFolder { .. }
            | Action::End => self,
        }
    }

    /// What is to be synced after a step: not the folders that are known to be clean.
    pub(crate) fn rest_of(self, action: &Action<'_>, settle: Settle) -> Settle
        ensures syncs { (D : Disk) → AreKnown D self.entry →
            synced_by (syncs_of action.now result) D ≡ synced_by (syncs_of action.now settle) D }
        ensures some { (D E : Disk) → IsSomeSynced (syncs_of action.now result) D E →
            IsSomeSynced (syncs_of action.now settle) D E }
    {
        match *action {
            Action::Line { path, .. } => self.line.rest_of(path, settle),
            Action::Rename { to, .. } => self.place.rest_of(to, settle),
            Action::Create { .. }
            | Action::Append { .. }
            | Action::RemoveFile { .. }
            | Action::MakeFolders { .. }
            | Action::RemoveFolder { .. }
            | Action::End => settle,
        }
    }
}
