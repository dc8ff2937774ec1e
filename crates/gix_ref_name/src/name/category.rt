//! The categories of names, and the short name within each.
ghost use Rattle.std.specs.Prelude.{◌≡◌, IfOk, IfSome, IfNone};
ghost use Rattle.gix_ref_hash.specs.Bytes.{without_front, with_front};
ghost use Rattle.gix_ref_name.specs.Categories.{HasCategory, NoCategory, NoGroup, NoMain, NoLinked};

use crate::name::{Error, FullName, is_pseudo_name};
use gix_ref_hash::bytes::{begins_with, split_component, strip_front};
use std::alloc::{AllocError, Global};

/// The kind of reference that a name is. Each variant says how the name begins; the short name is what follows that,
/// except for the notes, bisect, worktree and rewritten groups, whose short name is all after `refs/`. As gix-ref's
/// `Category`.
#[derive(Clone, Copy, Debug, PartialEq, Eq, PartialOrd, Ord, Hash)]
pub enum Category<'a> {
    /// `refs/tags/`
    Tag,
    /// `refs/heads/`
    LocalBranch,
    /// `refs/remotes/`
    RemoteBranch,
    /// `refs/notes/`
    Note,
    /// Only `A` to `Z` and underscores, as `HEAD`; the short name is the name.
    PseudoRef,
    /// `main-worktree/`, and then a pseudo name
    MainPseudoRef,
    /// `main-worktree/`, and then a name below `refs/`
    MainRef,
    /// `worktrees/`, the name of a linked worktree and a slash, and then a pseudo name
    LinkedPseudoRef { name: &'a [u8] },
    /// `worktrees/`, the name of a linked worktree and a slash, and then a name below `refs/`
    LinkedRef { name: &'a [u8] },
    /// `refs/bisect/`
    Bisect,
    /// `refs/rewritten/`
    Rewritten,
    /// `refs/worktree/`
    WorktreePrivate,
}

/// The categories of names that keep their group in the short name.
fn in_group<'a>(name: &'a [u8]) -> Option<(Category<'a>, &'a [u8])>
    ensures found { IfSome result (λ p. HasCategory name.now p.0 p.1.now) }
    ensures none { IfNone result (NoGroup name.now) }
{
    let Some(short) = strip_front(name, b"refs/") else {
        return None;
    };
    if begins_with(short, b"notes/") {
        Some((Category::Note, short))
    } else if begins_with(short, b"bisect/") {
        Some((Category::Bisect, short))
    } else if begins_with(short, b"worktree/") {
        Some((Category::WorktreePrivate, short))
    } else if begins_with(short, b"rewritten/") {
        Some((Category::Rewritten, short))
    } else {
        None
    }
}

/// The categories of names that reach into the main worktree.
fn in_main_worktree<'a>(name: &'a [u8]) -> Option<(Category<'a>, &'a [u8])>
    ensures found { IfSome result (λ p. HasCategory name.now p.0 p.1.now) }
    ensures none { IfNone result (NoMain name.now) }
{
    let Some(short) = strip_front(name, b"main-worktree/") else {
        return None;
    };
    if begins_with(short, b"refs/") {
        Some((Category::MainRef, short))
    } else if is_pseudo_name(short) {
        Some((Category::MainPseudoRef, short))
    } else {
        None
    }
}

/// The categories of names that reach into a linked worktree.
fn in_linked_worktree<'a>(name: &'a [u8]) -> Option<(Category<'a>, &'a [u8])>
    ensures found { IfSome result (λ p. HasCategory name.now p.0 p.1.now) }
    ensures none { IfNone result (NoLinked name.now) }
{
    let Some(rest) = strip_front(name, b"worktrees/") else {
        return None;
    };
    let Some((worktree, short)) = split_component(rest) else {
        return None;
    };
    if begins_with(short, b"refs/") {
        Some((Category::LinkedRef { name: worktree }, short))
    } else if is_pseudo_name(short) {
        Some((Category::LinkedPseudoRef { name: worktree }, short))
    } else {
        None
    }
}

/// The category of a name and its short name, or `None` where it has none.
pub fn category_of_bytes<'a>(name: &'a [u8]) -> Option<(Category<'a>, &'a [u8])>
    ensures found { IfSome result (λ p. HasCategory name.now p.0 p.1.now) }
    ensures none { IfNone result (NoCategory name.now) }
{
    if let Some(short) = strip_front(name, b"refs/tags/") {
        return Some((Category::Tag, short));
    }
    if let Some(short) = strip_front(name, b"refs/heads/") {
        return Some((Category::LocalBranch, short));
    }
    if let Some(short) = strip_front(name, b"refs/remotes/") {
        return Some((Category::RemoteBranch, short));
    }
    if let Some(found) = in_group(name) {
        return Some(found);
    }
    if is_pseudo_name(name) {
        return Some((Category::PseudoRef, name));
    }
    if let Some(found) = in_main_worktree(name) {
        return Some(found);
    }
    if let Some(found) = in_linked_worktree(name) {
        return Some(found);
    }
    None
}

/// A text without a front that it may have.
#[tactic(auto, unfolding(gix_ref_hash::specs::Bytes::without_front))]
fn drop_front<'a>(text: &'a [u8], front: &[u8]) -> &'a [u8]
    ensures { result.now ≡ without_front front.now text.now }
{
    if text.starts_with(front) {
        &text[front.len()..]
    } else {
        text
    }
}

/// A text after a front, which it may have already.
#[tactic(auto, unfolding(gix_ref_hash::specs::Bytes::with_front))]
fn put_front(mut front: Vec<u8>, text: &[u8]) -> Result<Vec<u8>, AllocError>
    ensures { IfOk result (λ v. v.items ≡ with_front front.items text.now) }
{
    if text.starts_with(&front) {
        front.clear();
    }
    front.extend_from_slice(text)?;
    Ok(front)
}

impl<'a> Category<'a> {
    ghost use Rattle.std.specs.Prelude.{◌≡◌, ◌⊎◌, ◌↔◌, IsTrue, IfOk, MatchResult, Some};
    ghost use Rattle.gix_ref_name.specs.declared.name.error.Error.TheVariants.{Memory};
    ghost use Rattle.gix_ref_name.specs.NameGrammar.{IsFullName, full_error};
    ghost use Rattle.gix_ref_name.specs.Names.{full_bytes};
    ghost use Rattle.gix_ref_name.specs.Categories.{prefix_of, word_of, front_of, text_of, is_private};

    /// The text in front of the names of the category, as far as it is the same for all of them; empty for a pseudo
    /// name. As gix-ref's `Category::prefix`.
    ///
    /// ```text
    /// Category::RemoteBranch.prefix() // `refs/remotes/`
    /// ```
    pub fn prefix(self) -> &'static [u8]
        ensures { result.now ≡ prefix_of self.entry }
    {
        match self {
            Category::Tag => b"refs/tags/",
            Category::LocalBranch => b"refs/heads/",
            Category::RemoteBranch => b"refs/remotes/",
            Category::Note => b"refs/notes/",
            Category::Bisect => b"refs/bisect/",
            Category::WorktreePrivate => b"refs/worktree/",
            Category::Rewritten => b"refs/rewritten/",
            Category::PseudoRef => b"",
            Category::MainRef => b"main-worktree/refs/",
            Category::MainPseudoRef => b"main-worktree/",
            Category::LinkedRef { .. } | Category::LinkedPseudoRef { .. } => b"worktrees/",
        }
    }

    /// Whether each worktree has its own references of this category, which no other worktree sees (`git worktree`). As
    /// gix-ref's `Category::is_worktree_private`.
    pub fn is_worktree_private(self) -> bool
        ensures { result ≡ is_private self.entry }
    {
        matches!(
            self,
            Category::PseudoRef
                | Category::MainPseudoRef
                | Category::LinkedPseudoRef { .. }
                | Category::Bisect
                | Category::Rewritten
                | Category::WorktreePrivate
        )
    }

    /// Whether these are remote-tracking branches, below `refs/remotes/`. As gix-ref's
    /// `Category::is_remote_tracking_branch`.
    pub fn is_remote_tracking_branch(self) -> bool
        ensures { IsTrue result ↔ (self.entry ≡ Category.RemoteBranch) }
    {
        matches!(self, Category::RemoteBranch)
    }

    /// The word that a short name of the category may begin with.
    fn word(self) -> &'static [u8]
        ensures { result.now ≡ word_of self.entry }
    {
        match self {
            Category::Note => b"notes/",
            Category::MainRef => b"refs/",
            Category::Bisect => b"bisect/",
            Category::Rewritten => b"rewritten/",
            Category::WorktreePrivate => b"worktree/",
            _ => b"",
        }
    }

    /// The text in front of a short name.
    fn front(self, alloc: Global) -> Result<Vec<u8>, AllocError>
        ensures { IfOk result (λ v. v.items ≡ front_of self.entry) }
    {
        let mut front = Vec::from_slice(alloc, self.prefix())?;
        if let Category::LinkedRef { name } | Category::LinkedPseudoRef { name } = self {
            front.extend_from_slice(name)?;
            front.extend_from_slice(b"/")?;
        }
        Ok(front)
    }

    /// The full name with this short name. The word of the category (`notes/`, `refs/` for `MainRef`, `bisect/`,
    /// `rewritten/`, `worktree/`) is dropped from the front of the short name if it begins with it; then the prefix
    /// goes in front, for a linked worktree also its name and a slash, unless the text begins with it. The error is
    /// the first rule for full names that the text breaks, or `Memory`. As gix-ref's `Category::to_full_name`.
    ///
    /// ```text
    /// Category::Tag.to_full_name(alloc, b"v1")?        // refs/tags/v1
    /// Category::Note.to_full_name(alloc, b"notes/x")?  // refs/notes/x
    /// ```
    #[tactic(auto, unfolding(crate::specs::Categories::text_of))]
    pub fn to_full_name(self, alloc: Global, short: &[u8]) -> Result<FullName, Error>
        ensures { MatchResult result (λ n. (full_bytes n ≡ text_of self.entry short.now)
            × IsFullName (text_of self.entry short.now))
            (λ e. (e ≡ Memory) ⊎ (full_error (text_of self.entry short.now) ≡ Some e)) }
    {
        let text = put_front(self.front(alloc)?, drop_front(short, self.word()))?;
        FullName::try_from(text)
    }
}
