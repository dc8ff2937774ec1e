//! The records of a `packed-refs` in the order of its lines, with the lines that are no record.
ghost use Rattle.std.specs.Prelude.{◌≡◌, ◌⊎◌, ◌+◌, ◌<◌, ◌^◌, List, length};
ghost use Rattle.std.specs.Iterator.{at_most};
ghost use Rattle.gix_ref_target.specs.PackedRecords.{Record};
ghost use Rattle.gix_ref_packed_text.specs.RecordGrammar.{Records, Rising};
ghost use Rattle.gix_ref_packed_text.specs.Prefixes.{IsBadLineAt, IsBadStart, IsItemStart, NamesAscend, SplitsAt, SplitsLines};

mod error;
mod parts;

use crate::packed::buffer::Buffer;
use crate::packed::order::line_count;
pub use error::Error;
use gix_ref_hash::hash::Kind;
use gix_ref_packed_text::packed::Reference;
use gix_ref_packed_text::packed::bound::lower_bound_in_memory;
use gix_ref_packed_text::packed::decode::{begins_with_caret, take_record};
use gix_ref_packed_text::packed::header_end::{first_line_behind, read_header_end};
use parts::{begins_with_prefix, begins_with_record, count_line_feeds, cut_line, first_line};

/// The line that is no record, where halving met one without the form of a record at a place. Where that begins with `^` it may
/// be of the record before it, and the line after it is the one.
fn bad_line_at(text: &[u8], place: usize) -> usize
    requires { place < length text.now }
    ensures { (kind : Kind) → IsBadStart kind text.now place → IsBadLineAt kind text.now result }
{
    if place == 0 || !begins_with_caret(&text[place..]) {
        return place;
    }
    let (_, rest) = cut_line(&text[place..]);
    text.len() - rest.len()
}

/// Where the records of a prefix begin. Where halving met a line that has not the form of a record, that is the front of the
/// text, if a record of the prefix is there, and else a line that is no record.
fn first_of_prefix(text: &[u8], kind: Kind, prefix: &[u8]) -> usize
    ensures starts { IsItemStart kind text.now result }
    ensures splits { (rs : List Record) → Records kind text.now rs → Rising rs →
        SplitsAt kind text.now rs prefix.now result }
    ensures lines { NamesAscend kind text.now → IsBadLineAt kind text.now result
        ⊎ SplitsLines kind text.now prefix.now result }
{
    let bound = lower_bound_in_memory(text, kind, prefix);
    let place = bound.place as usize;
    if !bound.is_malformed {
        return place;
    }
    if begins_with_record(text, kind, prefix) {
        return 0;
    }
    bad_line_at(text, place)
}

/// The records of a text, and a fault for each line that is no record. A record whose line with `^` is bad is two faults.
/// As gix-ref's `packed::Iter`.
#[derive(Debug, Drop)]
pub struct Iter<'a> {
    rest: &'a [u8],
    kind: Kind,
    /// The number of the next line, except for those that end in `before`.
    line: u64,
    before: &'a [u8],
    /// Names that begin otherwise end the iterator.
    prefix: Option<Vec<u8>>,
    pub ghost counts: { line + length before.now + length rest.now < 2 ^ 64 },
}

impl<'a> Iter<'a> {
    ghost use Rattle.std.specs.Prelude.{◌≡◌, List, Option, None, IfOk, IfErr, true};
    ghost use Rattle.std.specs.Iterator.Runs.{EachRunFrom};
    ghost use Rattle.gix_ref_packed_text.specs.declared.packed.decode.options.Header.{Header};
    ghost use Rattle.gix_ref_packed_text.specs.OpenedText.{Heads, line_behind};
    ghost use Rattle.gix_ref_packed.specs.Items.{ItemStep, AreItems, IsHeaderError, unread, unread_text};

    /// The records of a whole text, in the order of its lines; lines are numbered from 1, the header's too. The error,
    /// `Header`, has the first line of a text that begins with `#` and has no header. As gix-ref's `packed::Iter::new`.
    ///
    /// ```text
    /// for record in Iter::new(&text, Kind::Sha1)? {
    ///     println!(rt; "{}", record?.name)?;
    /// }
    /// ```
    pub fn new(text: &'a [u8], kind: Kind) -> Result<Iter<'a>, Error<'a>>
        ensures items { IfOk result (λ it. (h : Option Header) × (rest : List _)
            × Heads text.now h rest × EachRunFrom ItemStep it (λ run. AreItems (run.whole ≡ true)
            (unread_text kind (line_behind h) rest) run.items)) }
        ensures refused { IfErr result (IsHeaderError text.now) }
    {
        let Some(heading) = read_header_end(text) else {
            return Err(Error::Header {
                invalid_first_line: first_line(text),
            });
        };
        let line = first_line_behind(heading.header);
        Ok(Iter::from(&text[heading.start..], kind, line))
    }

    /// The records of a text whose first line has that number.
    fn from(text: &'a [u8], kind: Kind, line: u64) -> Iter<'a>
        requires { line < 3 }
        ensures { unread result ≡ unread_text kind line text.now }
    {
        Iter {
            rest: text,
            kind,
            line,
            before: &[],
            prefix: None,
        }
    }
}

impl<'a> Iterator for Iter<'a> {
    ghost use Rattle.gix_ref_packed.specs.Items.{ItemStep};

    type Item = Result<Reference<'a>, Error<'a>>;

    ghost remaining = { λ s. at_most (length s.rest.now) };

    ghost next_gives = { ItemStep };

    fn next(&mut self) -> Option<Result<Reference<'a>, Error<'a>>> {
        if self.rest.is_empty() {
            return None;
        }
        match take_record(self.rest, self.kind) {
            Some((reference, after)) => {
                if !begins_with_prefix(reference.name.to_path(), &self.prefix) {
                    self.rest = &[];
                    return None;
                }
                self.line += line_count(&reference);
                self.rest = after;
                Some(Ok(reference))
            }
            None => {
                let (line, after) = cut_line(self.rest);
                let number = self.line + count_line_feeds(self.before);
                self.before = &[];
                self.line = number + 1;
                self.rest = after;
                Some(Err(Error::Reference {
                    invalid_line: line,
                    line_number: number,
                }))
            }
        }
    }
}

impl Buffer {
    ghost use Rattle.std.specs.Prelude.{◌≡◌, ℕ, List, [], Some, true};
    ghost use Rattle.std.specs.Iterator.Runs.{EachRunFrom};
    ghost use Rattle.gix_ref_target.specs.PackedRecords.{Record};
    ghost use Rattle.gix_ref_packed_text.specs.RecordGrammar.{Records, Rising};
    ghost use Rattle.gix_ref_packed_text.specs.Prefixes.{records_prefixed, IsItemStart, NamesAscend};
    ghost use Rattle.gix_ref_packed.specs.Buffers.{buffer_text, buffer_kind, buffer_line};
    ghost use Rattle.gix_ref_packed.specs.Items.{ItemStep, AreItems, AreRecords, unread_buffer, unread_from};
    ghost use Rattle.gix_ref_packed.specs.YetToGive.{IsRestOf, IsYet, Owes};

    /// The records of the buffer, in the order of their names. Lines are numbered as in the file that was opened. As
    /// gix-ref's `packed::Buffer::iter`.
    ///
    /// ```text
    /// for record in packed.iter() {
    ///     let record = record?;
    ///     println!(rt; "{} {}", record.target(), record.name)?;
    /// }
    /// ```
    pub fn iter(&self) -> Iter<'_>
        // Whatever calls of `next` follow, they give the records and the faults of the text.
        ensures items { EachRunFrom ItemStep result
            (λ run. AreItems (run.whole ≡ true) (unread_buffer self.now) run.items) }

        // Where the text is records, they give these.
        ensures records { (rs : List Record) → Records (buffer_kind self.now) (buffer_text self.now)
            rs → EachRunFrom ItemStep result (λ run. AreRecords (run.whole ≡ true) rs run.items) }

        // The same for a caller that takes one item at a time: it is yet to give these.
        ensures yet { (rs : List Record) → Records (buffer_kind self.now)
            (buffer_text self.now) rs → IsYet result rs }
    {
        Iter::from(self.as_bytes(), self.kind(), self.first_line())
    }

    /// The records whose names begin with the prefix, in the order of their names: the first is found by halving, and
    /// the first other name ends them. Where halving meets a line that has not the form of a record, they begin with that
    /// line, which is a fault, or at the front of the text, if that is a record of the prefix; if it is the `^` line of a
    /// record, which a second `^` line follows, they begin with the second. So where no item is a fault and names ascend,
    /// none of the records is missing. As gix-ref's `packed::Buffer::iter_prefixed`.
    ///
    /// ```text
    /// for tag in packed.iter_prefixed(b"refs/tags/".to_vec(alloc)?) {
    ///     println!(rt; "{}", tag?.name)?;
    /// }
    /// ```
    pub fn iter_prefixed(&self, prefix: Vec<u8>) -> Iter<'_>
        // Whatever calls of `next` follow, they give the records and faults from the start of a line on, up to the first
        // other name.
        ensures items { (start : ℕ)
            × IsItemStart (buffer_kind self.now) (buffer_text self.now) start
            × EachRunFrom ItemStep result (λ run. AreItems (run.whole ≡ true)
            (unread_from self.now prefix.items start) run.items) }

        // Where the text is records whose names do not descend, they give those of the prefix.
        ensures records { (rs : List Record) → Records (buffer_kind self.now)
            (buffer_text self.now) rs → Rising rs → EachRunFrom ItemStep result
            (λ run. AreRecords (run.whole ≡ true) (records_prefixed prefix.items rs) run.items) }

        // The same for a caller that takes one item at a time: it is yet to give those of the prefix.
        ensures yet { (rs : List Record) → Records (buffer_kind self.now) (buffer_text self.now)
            rs → Rising rs → IsYet result (records_prefixed prefix.items rs) }

        // The same for a caller that takes one item at a time, whatever the text is.
        ensures rest { IsRestOf (buffer_kind self.now) (buffer_text self.now)
            (buffer_line self.now) (Some prefix.items) result }

        // Whatever the lines are, where the names ascend: a record of each name of the prefix is yet to come, or a fault.
        ensures owes { NamesAscend (buffer_kind self.now) (buffer_text self.now) →
            Owes (buffer_kind self.now) (buffer_text self.now) prefix.items [] result }
    {
        let text = self.as_bytes();
        let start = first_of_prefix(text, self.kind(), prefix.as_slice());
        Iter {
            rest: &text[start..],
            kind: self.kind(),
            line: self.first_line(),
            before: &text[..start],
            prefix: Some(prefix),
        }
    }
}
