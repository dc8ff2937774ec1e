//! The order of records, which are read one after the other.
ghost use Rattle.std.specs.Prelude.{◌≡◌, ◌≤◌, ◌*◌, ◌+◌, ◌^◌, ℕ, List, ◌++◌, true, MatchBool, IfErr, IfOk, length, drop};
ghost use Rattle.gix_ref_target.specs.PackedRecords.{Record};
ghost use Rattle.gix_ref_packed_text.specs.RecordGrammar.{Below, Records, Rising};
ghost use Rattle.gix_ref_packed_text.specs.OpenedText.{lines_of};
ghost use Rattle.gix_ref_packed_text.specs.Views.{record_of};
ghost use Rattle.gix_ref_packed.specs.Buffers.{IsStuck};
ghost use Rattle.gix_ref_packed.specs.internal.Parts.{HasRead};

use crate::packed::buffer::open::Error;
use gix_ref_hash::hash::Kind;
use gix_ref_packed_text::packed::Reference;
use gix_ref_packed_text::packed::decode::take_record;
use std::cmp::Ordering;

/// What was learned of the records that were read.
#[derive(Clone, Copy)]
pub struct ReadRecords<'a> {
    /// The number of the line behind them.
    pub line: u64,
    /// The last name; empty where no record was read.
    pub last: &'a [u8],
    /// Whether no name is below the one before it.
    pub rises: bool,
}

/// How many lines the record has.
pub fn line_count(reference: &Reference<'_>) -> u64
    ensures { result ≡ lines_of (record_of reference.now) }
{
    match reference.object {
        Some(_) => 2,
        None => 1,
    }
}

/// Whether the name is below the other.
fn is_below(name: &[u8], other: &[u8]) -> bool
    ensures { MatchBool result (Below name.now other.now) (Below name.now other.now → ⊥) }
{
    match name.cmp(other) {
        Ordering::Less => true,
        Ordering::Equal => false,
        Ordering::Greater => false,
    }
}

/// Whether no name is below the one before it, where that was so up to here.
fn still_rises(rises: bool, name: &[u8], last: &[u8]) -> bool
    ensures { result ≡ true → (rises ≡ true) × (Below name.now last.now → ⊥) }
{
    rises && !is_below(name, last)
}

/// Reads each record of a text that follows others. The error is `Iter` at the first line that is no record.
pub(crate) fn read_records<'a>(
    before: ReadRecords<'a>,
    text: &'a [u8],
    kind: Kind,
) -> Result<ReadRecords<'a>, Error>
    requires { before.line ≤ 2 ^ 63 }
    ensures reads { (first : ℕ) (rs : List Record) → HasRead first rs before.entry →
        IfOk result (λ read. (more : List Record) × Records kind text.now more
        × HasRead first (rs ++ more) read) }
    ensures fits { IfOk result
        (λ read. 3 * read.line ≤ 3 * before.entry.line + length text.now) }
    ensures refused { IfErr result (IsStuck kind before.entry.line text.now) }
{
    let mut read = before;
    let mut rest = text;
    while !rest.is_empty() {
        let Some((reference, after)) = take_record(rest, kind) else {
            return Err(Error::Iter {
                line_number: read.line,
            });
        };
        let name = reference.name.to_path();
        read = ReadRecords {
            line: read.line + line_count(&reference),
            last: name,
            rises: still_rises(read.rises, name, read.last),
        };
        rest = after;
    }
    Ok(read)
}

/// Reads each record of the text; whether no name is below the one before it. The first line has the number `first`; the error is
/// `Iter` at the first line that is no record.
pub(crate) fn read_order(text: &[u8], kind: Kind, first: u64) -> Result<bool, Error>
    requires { first ≤ 2 }
    ensures order { IfOk result (λ rises. (rs : List Record) × Records kind text.now rs
        × (rises ≡ true → Rising rs)) }
    ensures refused { IfErr result (IsStuck kind first text.now) }
{
    let none = ReadRecords {
        line: first,
        last: b"",
        rises: true,
    };
    let read = read_records(none, text, kind)?;
    Ok(read.rises)
}
