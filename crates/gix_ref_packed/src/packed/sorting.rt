//! Records in the order of their names: what opening makes of a text whose header does not say that it is sorted.
ghost use Rattle.std.specs.Prelude.{◌≡◌, ◌≤◌, map, IfOk, IfErr, OnOk};
ghost use Rattle.std.specs.List.{All, flat_map};
ghost use Rattle.std.specs.List.Sorted.{IsPermutation, IsSortedByKey, IsStableByKey};
ghost use Rattle.std.specs.Cmp.Lexicographic.{slice_cmp};
ghost use Rattle.std.specs.Ordering.{nat_cmp};
ghost use Rattle.gix_ref_packed_text.specs.RecordGrammar.{Records};
ghost use Rattle.gix_ref_packed_text.specs.OpenedText.{IsPiece, SortsText};
ghost use Rattle.gix_ref_packed.specs.internal.Entries.{entry_record, entry_piece, entry_ref_name, entry_bytes};
ghost use Rattle.gix_ref_packed.specs.Buffers.{IsStuck};

use crate::packed::buffer::open::Error;
use crate::packed::order::line_count;
use gix_ref_hash::hash::Kind;
use gix_ref_packed_text::packed::Reference;
use gix_ref_packed_text::packed::decode::take_record;
use std::alloc::{AllocError, Global};

/// A record, with the bytes of its lines.
#[derive(Clone, Copy)]
pub struct Entry<'a> {
    /// What the lines say.
    pub reference: Reference<'a>,
    /// The lines.
    pub bytes: &'a [u8],
}

/// The records of the text, in their order. The first line has the number `first`.
fn read_entries<'a>(
    alloc: Global,
    text: &'a [u8],
    kind: Kind,
    first: u64,
) -> Result<Vec<Entry<'a>>, Error>
    requires { first ≤ 2 }
    ensures records { IfOk result
        (λ entries. Records kind text.now (map entry_record entries.items)) }
    ensures pieces { IfOk result (λ entries. All (IsPiece kind) (map entry_piece entries.items)) }
    ensures cut { IfOk result (λ entries. text.now ≡ flat_map entry_bytes entries.items) }
    ensures refused { IfErr result (IsStuck kind first text.now) }
{
    let mut entries = Vec::new(alloc);
    let mut rest = text;
    let mut line = first;
    while !rest.is_empty() {
        let Some((reference, after)) = take_record(rest, kind) else {
            return Err(Error::Iter { line_number: line });
        };
        let bytes = &rest[..rest.len() - after.len()];
        entries.push(Entry { reference, bytes })?;
        line += line_count(&reference);
        rest = after;
    }
    Ok(entries)
}

/// Sorts records by name; those of one name stay in their order.
fn sort_by_name(entries: &mut Vec<Entry<'_>>) -> Result<(), AllocError>
    ensures moved { IsPermutation entries.old.items entries.new.items }
    ensures sorted { OnOk result
        (IsSortedByKey entry_ref_name (slice_cmp nat_cmp) entries.new.items) }
    ensures stable { IsStableByKey entry_ref_name
        (slice_cmp nat_cmp) entries.old.items entries.new.items }
{
    entries.sort_by(|a, b| a.reference.name.to_path().cmp(b.reference.name.to_path()))?;
    Ok(())
}

/// The bytes of the records, one after the other.
fn joined(alloc: Global, entries: &[Entry<'_>], len: usize) -> Result<Vec<u8>, AllocError>
    ensures { IfOk result (λ text. text.items ≡ flat_map entry_bytes entries.now) }
{
    let mut text = Vec::with_capacity(alloc, len)?;
    for entry in entries {
        text.extend_from_slice(entry.bytes)?;
    }
    Ok(text)
}

/// The text of the records in the order of their names, those of one name in their old order. The error is `Iter` at the
/// first line that is no record, the first line having the number `first`, or `Memory`.
pub(crate) fn sorted_text(
    alloc: Global,
    text: &[u8],
    kind: Kind,
    first: u64,
) -> Result<Vec<u8>, Error>
    requires { first ≤ 2 }
    ensures sorts { IfOk result (λ sorted. SortsText kind text.now sorted.items) }
    ensures refused { IfErr result (IsStuck kind first text.now) }
{
    let mut entries = read_entries(alloc, text, kind, first)?;
    sort_by_name(&mut entries)?;
    let sorted = joined(alloc, &entries, text.len())?;
    Ok(sorted)
}
