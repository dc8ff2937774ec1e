//! What the words of a command ask for, and its answer: `show-ref --verify NAME`, `symbolic-ref [--short] NAME`, `reflog exists NAME`,
//! `reflog show [-n COUNT] NAME`, `for-each-ref [--count=N] [--sort=[-]refname] [--format=FORMAT] [PATTERN..]`, `locks [--remove]`.
ghost use Rattle.std.specs.Prelude.{◌≡◌, ◌≢◌, ◌∷◌, [], ℕ, List, IfOk, MatchOption, IsTrue, false, codes};
ghost use Rattle.gix_ref_store.specs.Lookup.{LooksUp};
ghost use Rattle.gix_ref_store.specs.Locks.{Unlocks};
ghost use Rattle.gix_ref_store.specs.Store.{IsSameStore};
ghost use Rattle.gix_ref_queries.specs.Asks.{Asks, AsksEach, AsksMore, AsksNothing, EachAsked, IsAnswerTo, IsAnswered, IsEachOption, each_alone, each_asked, with_option};
ghost use Rattle.gix_ref_queries.specs.Patterns.{texts};

use crate::answer::Answer;
use crate::argument::{count, is_option};
use crate::for_each_ref::for_each_ref;
use crate::locks::{list_locks, remove_locks};
use crate::reflog::{log_exists, show_log};
use crate::verify::{symbolic, verify};
use gix_ref_files::files::Files;
use gix_ref_hash::bytes::strip_front;
use gix_ref_store::file::Store;
use std::alloc::{AllocError, Global};

/// What words ask for.
#[derive(Drop)]
pub enum Ask<'w> {
    /// `locks`
    Locks,
    /// `locks --remove`
    RemoveLocks,
    /// `symbolic-ref NAME`, or `symbolic-ref --short NAME`
    Symbolic {
        short: bool,
        name: &'w [u8],
    },
    /// `show-ref --verify NAME`
    Verify {
        name: &'w [u8],
    },
    /// `reflog exists NAME`
    LogExists {
        name: &'w [u8],
    },
    /// `reflog show NAME`, or `reflog show -n COUNT NAME`
    ShowLog {
        name: &'w [u8],
        count: Option<usize>,
    },
    /// `for-each-ref`, with options and patterns
    Each(Each<'w>),
}

/// What the words after `for-each-ref` ask for.
#[derive(Drop)]
pub struct Each<'w> {
    pub format: &'w [u8],
    /// By descending names.
    pub descending: bool,
    /// So many rows, or all.
    pub count: Option<usize>,
    pub patterns: Vec<&'w [u8]>,
}

/// An option of `for-each-ref`.
#[derive(Clone, Copy)]
pub enum EachOption<'w> {
    /// `--format=FORMAT`
    Format(&'w [u8]),
    /// `--sort=refname`, or by descending names `--sort=-refname`
    Sort { descending: bool },
    /// `--count=N`, where 0 is all of them
    Count(Option<usize>),
}

/// The option of `for-each-ref` that a word is.
fn option_of(word: &[u8]) -> Option<EachOption<'_>>
    ensures { MatchOption result ((option : EachOption) → IsEachOption word.now option → ⊥)
        (IsEachOption word.now) }
{
    if word == b"--sort=refname".as_slice() {
        return Some(EachOption::Sort { descending: false });
    }
    if word == b"--sort=-refname".as_slice() {
        return Some(EachOption::Sort { descending: true });
    }
    if let Some(format) = strip_front(word, b"--format=") {
        return Some(EachOption::Format(format));
    }
    let digits = strip_front(word, b"--count=")?;
    match count(digits)? {
        0 => Some(EachOption::Count(None)),
        count => Some(EachOption::Count(Some(count as usize))),
    }
}

/// Sets an option of `for-each-ref`.
fn set_option<'w>(each: &mut Each<'w>, option: EachOption<'w>)
    ensures { each_asked each.new ≡ with_option option.entry (each_asked each.old) }
{
    match option {
        EachOption::Format(format) => each.format = format,
        EachOption::Sort { descending } => each.descending = descending,
        EachOption::Count(count) => each.count = count,
    }
}

/// Takes a word after `for-each-ref`; false for one that begins with `-` and is no option.
fn take_word<'w>(each: &mut Each<'w>, word: &'w [u8]) -> Result<bool, AllocError>
    ensures taken { IfOk result (λ taken. IsTrue taken →
        AsksMore word.now (each_asked each.old) (each_asked each.new)) }
    ensures refused { IfOk result (λ taken. taken ≡ false → (asked : EachAsked) →
        AsksMore word.now (each_asked each.old) asked → ⊥) }
{
    if !is_option(word) {
        each.patterns.push(word)?;
        return Ok(true);
    }
    match option_of(word) {
        Some(option) => {
            set_option(each, option);
            Ok(true)
        }
        None => Ok(false),
    }
}

/// What the words after `for-each-ref` ask for.
fn each_of<'w>(alloc: Global, words: &[&'w [u8]]) -> Result<Option<Each<'w>>, AllocError>
    ensures { IfOk result (λ each. MatchOption each
        ((asked : EachAsked) → AsksEach (texts words.now) each_alone asked → ⊥)
        (λ each. AsksEach (texts words.now) each_alone (each_asked each))) }
{
    let mut each = Each {
        format: b"%(objectname) %(objecttype)\t%(refname)",
        descending: false,
        count: None,
        patterns: Vec::new(alloc),
    };
    for word in words {
        if !take_word(&mut each, word)? {
            return Ok(None);
        }
    }
    Ok(Some(each))
}

/// The words after the first, if that is this one.
fn after_word<'a, 'w>(words: &'a [&'w [u8]], word: &[u8]) -> Option<&'a [&'w [u8]]>
    ensures { MatchOption result ((rest : List (List ℕ)) → texts words.now ≢ word.now ∷ rest)
        (λ rest. texts words.now ≡ word.now ∷ texts rest.now) }
{
    let (first, rest) = words.split_first()?;
    if *first == word { Some(rest) } else { None }
}

/// The word that is the only one.
fn only_word<'w>(words: &[&'w [u8]]) -> Option<&'w [u8]>
    ensures { MatchOption result ((word : List ℕ) → texts words.now ≢ word ∷ [])
        (λ word. texts words.now ≡ word.now ∷ []) }
{
    let (word, rest) = words.split_first()?;
    if rest.is_empty() { Some(*word) } else { None }
}

/// What the words after `locks` ask for.
fn locks_of<'w>(words: &[&'w [u8]]) -> Option<Ask<'w>>
    ensures { MatchOption result (AsksNothing (codes "locks" ∷ texts words.now))
        (Asks (codes "locks" ∷ texts words.now)) }
{
    if words.is_empty() {
        return Some(Ask::Locks);
    }
    let rest = after_word(words, b"--remove")?;
    if rest.is_empty() {
        Some(Ask::RemoveLocks)
    } else {
        None
    }
}

/// What the words after `symbolic-ref` ask for.
fn symbolic_of<'w>(words: &[&'w [u8]]) -> Option<Ask<'w>>
    ensures { MatchOption result (AsksNothing (codes "symbolic-ref" ∷ texts words.now))
        (Asks (codes "symbolic-ref" ∷ texts words.now)) }
{
    if let Some(name) = only_word(words) {
        return Some(Ask::Symbolic { short: false, name });
    }
    let rest = after_word(words, b"--short")?;
    let name = only_word(rest)?;
    Some(Ask::Symbolic { short: true, name })
}

/// What the words after `show-ref` ask for.
fn show_ref_of<'w>(words: &[&'w [u8]]) -> Option<Ask<'w>>
    ensures { MatchOption result (AsksNothing (codes "show-ref" ∷ texts words.now))
        (Asks (codes "show-ref" ∷ texts words.now)) }
{
    let rest = after_word(words, b"--verify")?;
    let name = only_word(rest)?;
    Some(Ask::Verify { name })
}

/// What the words after `reflog show` ask for.
fn show_log_of<'w>(words: &[&'w [u8]]) -> Option<Ask<'w>>
    ensures { MatchOption result
        (AsksNothing (codes "reflog" ∷ codes "show" ∷ texts words.now))
        (Asks (codes "reflog" ∷ codes "show" ∷ texts words.now)) }
{
    if let Some(name) = only_word(words) {
        return Some(Ask::ShowLog { name, count: None });
    }
    let rest = after_word(words, b"-n")?;
    let (digits, rest) = rest.split_first()?;
    let name = only_word(rest)?;
    let count = count(digits)?;
    Some(Ask::ShowLog {
        name,
        count: Some(count as usize),
    })
}

/// What the words after `reflog` ask for.
fn reflog_of<'w>(words: &[&'w [u8]]) -> Option<Ask<'w>>
    ensures { MatchOption result (AsksNothing (codes "reflog" ∷ texts words.now))
        (Asks (codes "reflog" ∷ texts words.now)) }
{
    if let Some(rest) = after_word(words, b"show") {
        return show_log_of(rest);
    }
    let rest = after_word(words, b"exists")?;
    let name = only_word(rest)?;
    Some(Ask::LogExists { name })
}

/// What words ask for of which the first is not `for-each-ref`.
fn other_of<'w>(words: &[&'w [u8]]) -> Option<Ask<'w>>
    ensures { ((rest : List (List ℕ)) → texts words.now ≢ codes "for-each-ref" ∷ rest) →
        MatchOption result (AsksNothing (texts words.now)) (Asks (texts words.now)) }
{
    if let Some(rest) = after_word(words, b"locks") {
        return locks_of(rest);
    }
    if let Some(rest) = after_word(words, b"symbolic-ref") {
        return symbolic_of(rest);
    }
    if let Some(rest) = after_word(words, b"show-ref") {
        return show_ref_of(rest);
    }
    if let Some(rest) = after_word(words, b"reflog") {
        return reflog_of(rest);
    }
    None
}

/// What words ask for; `None` where they ask for nothing. The error reports that there was no memory.
pub fn parse<'w>(alloc: Global, words: &[&'w [u8]]) -> Result<Option<Ask<'w>>, AllocError>
    ensures { IfOk result (λ ask. MatchOption ask (AsksNothing (texts words.now))
        (Asks (texts words.now))) }
{
    match after_word(words, b"for-each-ref") {
        Some(rest) => match each_of(alloc, rest)? {
            Some(each) => Ok(Some(Ask::Each(each))),
            None => Ok(None),
        },
        None => Ok(other_of(words)),
    }
}

/// The answer to what is asked for. The error reports that there was no memory.
pub fn answer<F: Files>(
    alloc: Global,
    store: &mut Store<F>,
    ask: &Ask<'_>,
) -> Result<Answer, AllocError>
    ensures answers { IfOk result (IsAnswered F.Reader.ReadAt F.honest F.means F.faults store.old
        store.new ask.now) }
    ensures unchanged { ask.now ≢ Ask.RemoveLocks → LooksUp F.honest F.means store.old store.new }
    ensures leaves { F.honest → Unlocks F.means store.old store.new }
    ensures same { IsSameStore store.old store.new }
{
    match ask {
        Ask::Locks => list_locks(alloc, store),
        Ask::RemoveLocks => remove_locks(alloc, store),
        Ask::Symbolic { short, name } => symbolic(alloc, store, *short, name),
        Ask::Verify { name } => verify(alloc, store, name),
        Ask::LogExists { name } => log_exists(alloc, store, name),
        Ask::ShowLog { name, count } => show_log(alloc, store, name, *count),
        Ask::Each(each) => for_each_ref(
            alloc,
            store,
            each.format,
            &each.patterns,
            each.descending,
            each.count,
        ),
    }
}

/// The answer to these words; `None` where they ask for nothing. The error reports that there was no memory.
///
/// All but `locks --remove` only read. Of that, each stop leaves all as it was, or without the first of the lock files.
pub fn answer_to<F: Files>(
    alloc: Global,
    store: &mut Store<F>,
    words: &[&[u8]],
) -> Result<Option<Answer>, AllocError>
    ensures answers { IfOk result (IsAnswerTo F.Reader.ReadAt F.honest F.means F.faults store.old
        store.new (texts words.now)) }
    ensures unchanged { (Asks (texts words.now) Ask.RemoveLocks → ⊥) →
        LooksUp F.honest F.means store.old store.new }
    ensures leaves { F.honest → Unlocks F.means store.old store.new }
    ensures same { IsSameStore store.old store.new }
{
    match parse(alloc, words)? {
        Some(ask) => Ok(Some(answer(alloc, store, &ask)?)),
        None => Ok(None),
    }
}
