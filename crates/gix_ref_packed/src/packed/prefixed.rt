//! Reading, of a sorted file, only the records of a prefix.
ghost use Rattle.std.specs.Prelude.{◌≡◌, ◌≤◌, List, IfOk, IfSome, IfNone, MatchBool};
ghost use Rattle.gix_ref_target.specs.PackedRecords.{Record};
ghost use Rattle.gix_ref_packed_text.specs.RecordGrammar.{Records};
ghost use Rattle.gix_ref_packed.specs.FilePrefixes.{IsPast, HasNoNext};

use crate::packed::buffer::Buffer;
use crate::packed::sorted_file::{ReadError, SortedFile, read_window};
use gix_ref_files::files::ReadAt;
use gix_ref_hash::hash::Kind;
use gix_ref_packed_text::packed::bound::{Bound, lower_bound};
use gix_ref_packed_text::packed::decode::take_record;
use std::alloc::{AllocError, Global};

/// Where the records of a prefix are more than this part of the file, the whole is read: that costs less than to look
/// whether each of them is a record.
const WHOLE_FROM: u64 = 8;

/// A name past all names that begin with the prefix: the prefix with a last byte that is one higher. `None` where it has
/// no such byte.
fn past_prefix(alloc: Global, prefix: &[u8]) -> Result<Option<Vec<u8>>, AllocError>
    ensures past { IfOk result (λ past. IfSome past (λ p. IsPast prefix.now p.items)) }
    ensures none { IfOk result (λ past. IfNone past (HasNoNext prefix.now)) }
{
    let [front @ .., last] = prefix else {
        return Ok(None);
    };
    if *last == u8::MAX {
        return Ok(None);
    }
    let mut past = front.to_vec(alloc)?;
    past.push(*last + 1)?;
    Ok(Some(past))
}

/// Whether the whole text is records.
fn is_records(text: &[u8], kind: Kind) -> bool
    ensures { MatchBool result ((rs : List Record) × Records kind text.now rs)
        ((rs : List Record) → Records kind text.now rs → ⊥) }
{
    let mut rest = text;
    while !rest.is_empty() {
        let Some((_, after)) = take_record(rest, kind) else {
            return false;
        };
        rest = after;
    }
    true
}

impl<R: ReadAt + Drop> SortedFile<R> {
    ghost use Rattle.std.specs.Prelude.{◌≡◌, ◌≤◌, ◌-◌, length, take, drop, IfOk, IfErr};
    ghost use Rattle.gix_ref_packed.specs.FilePrefixes.{BufferHoldsAsked, Encloses, EnclosesAsked, HoldsPrefix};
    ghost use Rattle.gix_ref_packed_text.specs.Prefixes.{NamesAscend};
    ghost use Rattle.gix_ref_packed.specs.FileSearches.{IsNoChange, count_part};
    ghost use Rattle.gix_ref_packed.specs.OpenFiles.{IsSameFile};

    /// Two places between which all records of the prefix are: halving finds either. They are those of all records where
    /// that costs less, where halving met a line that has not the form of a record, and where the file is not sorted.
    fn places_of(
        &mut self,
        alloc: Global,
        kind: Kind,
        prefix: &[u8],
    ) -> Result<(u64, u64), ReadError>
        ensures same { IsSameFile self.old self.new }
        ensures count { R.faults self.new.reader ≡ count_part result (R.faults self.old.reader) }
        ensures encloses { R.honest → IfOk result (λ places. Encloses kind
            (drop self.old.base (R.bytes self.old.reader)) prefix.now places.0 places.1) }

        // Whatever the lines are, where names ascend.
        ensures asked { R.honest → NamesAscend kind (drop self.old.base (R.bytes self.old.reader)) →
            IfOk result (λ places. EnclosesAsked kind
            (drop self.old.base (R.bytes self.old.reader)) prefix.now places.0 places.1) }
        ensures stays { R.honest → IfErr result IsNoChange }
    {
        let first = match lower_bound(self, kind, prefix) {
            Ok(first) => first,
            Err(error) => return Err(error),
        };
        let len = self.records_len();
        let end = match past_prefix(alloc, prefix)? {
            Some(past) => match lower_bound(self, kind, past.as_slice()) {
                Ok(end) => end,
                Err(error) => return Err(error),
            },
            None => Bound {
                place: len,
                is_malformed: false,
            },
        };
        let (start, end_place) = (first.place, end.place);
        let is_malformed = first.is_malformed || end.is_malformed;
        if is_malformed || end_place < start || end_place - start > len / WHOLE_FROM {
            return Ok((0, len));
        }
        Ok((start, end_place))
    }

    /// The bytes of the records from one place up to another.
    fn read_part(&mut self, alloc: Global, start: u64, end: u64) -> Result<Vec<u8>, ReadError>
        ensures same { IsSameFile self.old self.new }
        ensures count { R.faults self.new.reader ≡ count_part result (R.faults self.old.reader) }
        ensures part { R.honest → IfOk result (λ part. part.items
            ≡ take (end - start) (drop start (drop self.old.base (R.bytes self.old.reader)))) }
        ensures stays { R.honest → start ≤ length (drop self.old.base (R.bytes self.old.reader)) →
            IfErr result IsNoChange }
    {
        if start > self.records_len() {
            return Err(ReadError::Changed);
        }
        let Some(place) = self.base.checked_add(start) else {
            return Err(ReadError::Changed);
        };
        let mut part = Vec::new(alloc);
        let len = end.saturating_sub(start) as usize;
        match read_window(&mut self.reader, &mut part, place, len) {
            Ok(()) => Ok(part),
            Err(error) => Err(error),
        }
    }

    /// Reads the records of the prefix, and others where that costs less. Where a line among them is no record, or halving
    /// met a line that has not the form of one, the whole is read, so that lines are numbered as in the file, in which the
    /// first has the number `first_line`.
    pub(crate) fn read_prefixed(
        &mut self,
        alloc: Global,
        kind: Kind,
        prefix: &[u8],
        first_line: u64,
    ) -> Result<Buffer, ReadError>
        requires { first_line ≤ 2 }
        ensures count { R.faults self.new.reader ≡ count_part result (R.faults self.old.reader) }
        ensures holds { R.honest → IfOk result (HoldsPrefix kind
            (drop self.old.base (R.bytes self.old.reader)) first_line prefix.now) }
        ensures asked { R.honest → NamesAscend kind (drop self.old.base (R.bytes self.old.reader)) →
            IfOk result (BufferHoldsAsked kind (drop self.old.base (R.bytes self.old.reader))
            prefix.now) }
        ensures stays { R.honest → IfErr result IsNoChange }
    {
        let (start, end) = self.places_of(alloc, kind, prefix)?;
        let part = self.read_part(alloc, start, end)?;
        if start == 0 || is_records(part.as_slice(), kind) {
            return Ok(Buffer::from_start(part, 0, kind, first_line));
        }
        let len = self.records_len();
        let whole = self.read_part(alloc, 0, len)?;
        Ok(Buffer::from_start(whole, 0, kind, first_line))
    }
}
