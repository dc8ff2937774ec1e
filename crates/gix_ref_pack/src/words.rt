//! The words of `pack-refs`: `[--all] [--no-prune|--prune] [--peeled FILE]`, in any order.
ghost use Rattle.std.specs.Prelude.{◌≡◌, None, MatchOption, IsTrue, false};
ghost use Rattle.gix_ref_pack.specs.PackWords.{AsksToPack, IsPackFlag, PackAsked, pack_alone, pack_asked, pack_flag_of, texts, with_pack_flag};

/// What words ask for.
#[derive(Clone, Copy)]
pub struct Asked<'w> {
    /// All loose references, and not only tags and what has a record.
    pub is_all: bool,
    /// Loose files are removed.
    pub prune: bool,
    /// The path of the table of objects.
    pub peeled: Option<&'w [u8]>,
}

/// An option without a value.
#[derive(Clone, Copy)]
pub enum Flag {
    /// `--all`
    All,
    /// `--prune`
    Prune,
    /// `--no-prune`
    NoPrune,
}

/// The option without a value that a word is.
fn flag_of(word: &[u8]) -> Option<Flag>
    ensures { result ≡ pack_flag_of word.now }
{
    if word == b"--all".as_slice() {
        return Some(Flag::All);
    }
    if word == b"--prune".as_slice() {
        return Some(Flag::Prune);
    }
    if word == b"--no-prune".as_slice() {
        return Some(Flag::NoPrune);
    }
    None
}

/// Sets an option without a value.
fn set_flag(asked: &mut Asked<'_>, flag: Flag)
    ensures { pack_asked asked.new ≡ with_pack_flag flag (pack_asked asked.old) }
{
    match flag {
        Flag::All => asked.is_all = true,
        Flag::Prune => asked.prune = true,
        Flag::NoPrune => asked.prune = false,
    }
}

/// Takes an option without a value; false for another word.
fn take_flag(asked: &mut Asked<'_>, word: &[u8]) -> bool
    ensures taken { IsTrue result →
        IsPackFlag word.now (pack_asked asked.old) (pack_asked asked.new) }
    ensures not_taken { result ≡ false →
        (pack_flag_of word.now ≡ None) × (asked.new ≡ asked.old) }
{
    match flag_of(word) {
        Some(flag) => {
            set_flag(asked, flag);
            true
        }
        None => false,
    }
}

/// What these words ask for; `None` where one is no option, and where the path of `--peeled` is missing.
pub fn parse<'w>(words: &[&'w [u8]]) -> Option<Asked<'w>>
    ensures { MatchOption result
        ((asked : PackAsked) → AsksToPack (texts words.now) pack_alone asked → ⊥)
        (λ asked. AsksToPack (texts words.now) pack_alone (pack_asked asked)) }
{
    let mut asked = Asked {
        is_all: false,
        prune: true,
        peeled: None,
    };
    let mut wants_path = false;
    for word in words {
        if wants_path {
            asked.peeled = Some(*word);
            wants_path = false;
        } else if *word == b"--peeled".as_slice() {
            wants_path = true;
        } else if !take_flag(&mut asked, word) {
            return None;
        }
    }
    if wants_path { None } else { Some(asked) }
}
