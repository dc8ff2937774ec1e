//! The folders of a store: the git folder, and the common folder of all worktrees (`git worktree`).
ghost use Rattle.std.specs.Prelude.{◌≡◌, ◌↔◌, ◌++◌, ℕ, List, IsTrue, MatchOption, IsTrue, true, false, codes};
ghost use Rattle.std.specs.Prelude.{◌==◌, not};
ghost use Rattle.std.specs.List.{list_all};
ghost use Rattle.gix_ref_hash.specs.Bytes.{NoByte, components, without_front};
ghost use Rattle.gix_ref_target.specs.Layout.{AreCompatible, LiesIn, below};
ghost use Rattle.gix_ref_theory.specs.Roots.{root_of};
ghost use Rattle.gix_ref_lookup.specs.CleanPaths.{is_clean, is_clean_component, common_of, are_clean, are_compatible};

use gix_ref_hash::bytes::{split_component, strip_front};

/// The git folder, and the common folder where another one was given.
#[derive(Debug, Drop)]
pub struct Dirs {
    pub git_dir: Vec<u8>,
    pub common_dir: Option<Vec<u8>>,
    pub ghost laid: { are_compatible git_dir.items (common_of git_dir common_dir) ≡ true },
    pub ghost clean: { are_clean git_dir common_dir ≡ true },
}

impl Dirs {
    /// The common folder: the one that was given, else the git folder.
    pub fn common(&self) -> &[u8]
        ensures { result.now ≡ common_of self.now.git_dir self.now.common_dir }
    {
        resolved(&self.git_dir, &self.common_dir)
    }

    /// How many bytes of the path of a change are its root, the folder up to which it is synced: the git folder for a path
    /// below it, else the common folder.
    pub fn root(&self, path: &[u8]) -> usize
        ensures { result ≡ root_of self.now.git_dir.items
            (common_of self.now.git_dir self.now.common_dir) path.now }
    {
        match rest_below(path, &self.git_dir) {
            Some(_) => self.git_dir.len(),
            None => self.common().len(),
        }
    }
}

/// The common folder: the one that was given, else the git folder.
pub fn resolved<'a>(git_dir: &'a Vec<u8>, common_dir: &'a Option<Vec<u8>>) -> &'a [u8]
    ensures { result.now ≡ common_of git_dir.now common_dir.now }
{
    match common_dir {
        Some(common) => common.as_slice(),
        None => git_dir.as_slice(),
    }
}

/// Whether a component may be in a clean path.
fn is_clean_part(component: &[u8]) -> bool
    ensures { result ≡ is_clean_component component.now }
{
    !component.is_empty() && component != b".".as_slice() && component != b"..".as_slice()
}

/// The path after one leading slash.
fn relative(path: &[u8]) -> &[u8]
    ensures { result.now ≡ without_front (codes "/") path.now }
{
    match strip_front(path, b"/") {
        Some(rest) => rest,
        None => path,
    }
}

/// Whether no byte is NUL.
fn has_no_nul(path: &[u8]) -> bool
    ensures { result ≡ list_all (λ b. not (b == 0)) path.now }
{
    path.iter().all(|byte| *byte != 0)
}

/// Whether all components may be in a clean path.
fn are_clean_parts(path: &[u8]) -> bool
    ensures { result ≡ list_all is_clean_component (components path.now) }
{
    let mut rest = path;
    while let Some((part, after)) = split_component(rest) {
        if !is_clean_part(part) {
            return false;
        }
        rest = after;
    }
    is_clean_part(rest)
}

/// Whether a path is clean: not empty, no NUL, no empty component except for one leading slash, no component `.` or `..`,
/// and no slash at its end.
///
/// ```text
/// is_clean_path(b"/srv/a.git") // true
/// is_clean_path(b"../a.git")   // false
/// ```
pub fn is_clean_path(path: &[u8]) -> bool
    ensures { result ≡ is_clean path.now }
{
    has_no_nul(path) && are_clean_parts(relative(path))
}

/// What follows the folder in the path, where the path lies in it.
pub fn rest_below<'a>(path: &'a [u8], folder: &[u8]) -> Option<&'a [u8]>
    ensures { MatchOption result (LiesIn path.now folder.now → ⊥)
        (λ rest. path.now ≡ below folder.now rest.now) }
{
    let Some(rest) = strip_front(path, folder) else {
        return None;
    };
    strip_front(rest, b"/")
}

/// Whether a path below the common folder is the folder of a linked worktree: `worktrees/` and one component.
fn is_worktree(rest: &[u8]) -> bool
    ensures { IsTrue result ↔ ((w : List ℕ) × NoByte 47 w × (rest.now ≡ codes "worktrees/" ++ w)) }
{
    match strip_front(rest, b"worktrees/") {
        Some(name) => !name.contains(&b'/'),
        None => false,
    }
}

/// Whether the git folder is the common one, or that of a linked worktree in it, or neither lies in the other.
pub fn dirs_are_compatible(git_dir: &[u8], common_dir: &[u8]) -> bool
    ensures { IsTrue result ↔ AreCompatible git_dir.now common_dir.now }
{
    if git_dir == common_dir {
        return true;
    }
    match rest_below(git_dir, common_dir) {
        Some(rest) => is_worktree(rest),
        None => rest_below(common_dir, git_dir).is_none(),
    }
}
