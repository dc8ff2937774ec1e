//! The lines of a case: which kinds there are, and which verbs.
use crate::texts::Texts;
use crate::transactions::Said;
use crate::world::World;
use anyhow::Result;

/// The families of verbs, each of which is played in one place: see `case_verbs`.
#[derive(Clone, Copy, PartialEq, Eq)]
pub enum Family {
    /// Transactions.
    Transaction,
    /// Runs of the program.
    Run,
    /// Commits that are followed by reads.
    Make,
    /// Transactions of `packed-refs` alone.
    PackedTransaction,
    /// Names and ids.
    Name,
    /// Texts of files.
    Format,
    /// Lookups, listings and logs.
    Read,
    /// Lock files.
    Lock,
}

/// The kinds of lines.
#[derive(Clone, Copy, PartialEq, Eq)]
pub enum LineKind {
    /// The title.
    Title,
    /// A name of a text.
    Name,
    /// What is there before a verb.
    Before,
    Verb(Family),
    /// What has to come of a verb.
    After,
    /// That the last verb is disturbed.
    Each,
    /// What may come of it then.
    Disturbed,
}

/// Whether this is a verb of names and ids.
fn is_of_names(word: &str) -> bool {
    matches!(
        word,
        "name"
            | "full-name"
            | "join"
            | "composed"
            | "decomposed"
            | "expand"
            | "inside"
            | "prefixed"
            | "place"
            | "id"
    )
}

/// Whether this is a verb of texts of files.
fn is_of_formats(word: &str) -> bool {
    matches!(
        word,
        "loose"
            | "header"
            | "record"
            | "records"
            | "open"
            | "record-start"
            | "name-at"
            | "buffer-find"
            | "buffer-list"
            | "log-line"
            | "signature"
            | "sign"
            | "write-line"
            | "append-line"
    )
}

/// Whether this is a verb that reads.
fn is_of_reads(word: &str) -> bool {
    matches!(
        word,
        "find"
            | "find-loose"
            | "find-packed"
            | "find-without-records"
            | "list"
            | "list-loose"
            | "list-pseudo"
            | "is-new"
            | "log"
            | "log-forward"
            | "log-exists"
            | "follow"
            | "peel"
    )
}

/// The family of the verb with this name.
fn family_of(word: &str) -> Option<Family> {
    match word {
        "prepare" | "rollback" | "commit" => Some(Family::Transaction),
        "run" => Some(Family::Run),
        "make" | "make-then-find" | "make-then-list" | "make-then-read" => Some(Family::Make),
        "packed-commit" | "packed-rollback" => Some(Family::PackedTransaction),
        "locks" | "remove-locks" => Some(Family::Lock),
        _ if is_of_names(word) => Some(Family::Name),
        _ if is_of_formats(word) => Some(Family::Format),
        _ if is_of_reads(word) => Some(Family::Read),
        _ => None,
    }
}

/// What kind of line begins with this word.
pub fn kind_of(word: &str) -> LineKind {
    if let Some(family) = family_of(word) {
        return LineKind::Verb(family);
    }
    match word {
        "case" => LineKind::Title,
        "let" | "repeat" => LineKind::Name,
        ">" | "then" | "gone" | "has-folder" | "no-folder" | "calls" | "lose" => LineKind::After,
        "each" => LineKind::Each,
        "readings" | "|" | "logs-of" | "between" | "may" | "later" => LineKind::Disturbed,
        _ => LineKind::Before,
    }
}

/// Whoever plays verbs.
pub trait Verbs {
    /// Plays a verb of a family: what it prints.
    fn play(&self, world: &mut World, texts: &Texts, family: Family, line: &str) -> Result<Said>;
}
