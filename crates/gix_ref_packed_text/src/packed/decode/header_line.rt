//! Reading the header of `packed-refs`.
ghost use Rattle.std.specs.Prelude.{◌≡◌, ℕ, List, MatchOption, IfOk, IfErr, IfSome, OnErr};
ghost use Rattle.gix_ref_packed_text.specs.HeaderGrammar.{said_by, said, silent, words, TakesHeader};
ghost use Rattle.gix_ref_packed_text.specs.WrittenText.{written_header};

use crate::packed::decode::options::{Header, Peeled};
use crate::packed::lines::take_line;
use gix_ref_hash::bytes::{cut, strip_front};

/// What a word adds.
#[tactic(auto, unfolding(crate::specs::HeaderGrammar::said_by))]
fn with_word(header: Header, word: &[u8]) -> Header
    ensures { result ≡ said_by header word.now }
{
    if word == b"fully-peeled".as_slice() {
        Header {
            peeled: Peeled::Fully,
            sorted: header.sorted,
        }
    } else if word == b"peeled".as_slice() {
        Header {
            peeled: Peeled::Partial,
            sorted: header.sorted,
        }
    } else if word == b"sorted".as_slice() {
        Header {
            peeled: header.peeled,
            sorted: true,
        }
    } else {
        header
    }
}

/// What the words of a line say.
fn header_of(line: &[u8]) -> Header
    ensures { result ≡ said silent (words line.now) }
{
    let mut header = Header {
        peeled: Peeled::Unspecified,
        sorted: false,
    };
    let mut rest = line;
    while let Some((word, after)) = cut(rest, b' ') {
        header = with_word(header, word);
        rest = after;
    }
    with_word(header, rest)
}

/// What follows the header that `written` writes, which most files have; its words need not be read.
#[inline(always)]
fn behind_written(text: &[u8]) -> Option<&[u8]>
    ensures { IfSome result (λ rest. TakesHeader text.now written_header rest.now) }
{
    strip_front(text, b"# pack-refs with: peeled fully-peeled sorted \n")
}

/// The header at the front of the text, and what follows it.
pub fn take_header(text: &[u8]) -> Option<(Header, &[u8])>
    ensures { MatchOption result ((h : Header) (rest : List ℕ) → TakesHeader text.now h rest → ⊥)
        (λ p. TakesHeader text.now p.0 p.1.now) }
{
    if let Some(rest) = behind_written(text) {
        let header = Header {
            peeled: Peeled::Fully,
            sorted: true,
        };
        return Some((header, rest));
    }
    let Some(after) = strip_front(text, b"# pack-refs with: ") else {
        return None;
    };
    let Some((line, rest)) = take_line(after) else {
        return None;
    };
    Some((header_of(line), rest))
}

/// Reads the header at the front of the input, which then begins after it: `# pack-refs with: `, words parted by spaces,
/// and LF or CRLF. Of `fully-peeled` and `peeled` the last one decides, `sorted` says that the records are sorted, and
/// other words are ignored. The error, where no header is there, leaves the input where it was. As gix-ref's private
/// `packed::decode::header` (`git pack-refs`).
///
/// ```text
/// let mut text = b"# pack-refs with: peeled fully-peeled sorted \n".as_slice();
/// let header = header(&mut text)?; // Header { peeled: Peeled::Fully, sorted: true }; the text is empty
/// ```
pub fn header(input: &mut &[u8]) -> Result<Header, ()>
    ensures taken { IfOk result (λ h. TakesHeader input.old.now h input.new.now) }
    ensures refused { IfErr result (λ _. (h : Header) (rest : List ℕ) →
        TakesHeader input.old.now h rest → ⊥) }
    ensures left { OnErr result (input.new ≡ input.old) }
{
    match take_header(input) {
        Some((header, rest)) => {
            *input = rest;
            Ok(header)
        }
        None => Err(()),
    }
}
