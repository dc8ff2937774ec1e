//! The edits in turn: what each copies of the old records, and what it puts.
ghost use Rattle.std.specs.Prelude.{IfOk, IfErr, OnOk};
ghost use Rattle.gix_ref_packed_text.specs.Rewrites.{IsStuckAt};
ghost use Rattle.gix_ref_packed_text.specs.internal.Merging.{put_by};
ghost use Rattle.gix_ref_packed_text.specs.internal.Applying.{AddsRecords, CopiesUntil, Copies, Applies, Merges};

use crate::ahead::Ahead;
use crate::applied::Applied;
use crate::edit::RecordEdit;
use crate::error::Error;
use crate::packed::bound::lower_bound_in_memory;
use crate::passed::{pass_named, pass_until};
use crate::written::{push_new, push_run};
use gix_ref_hash::hash::Kind;
use std::alloc::AllocError;

/// Copies records to a text until so many bytes are left, or less.
fn copy_until<'a>(
    text: &mut Vec<u8>,
    ahead: Ahead<'a>,
    kind: Kind,
    left: usize,
) -> Result<Ahead<'a>, Error>
    ensures copies { IfOk result (CopiesUntil kind left ahead.entry text.old.items text.new.items) }
    ensures refused { IfErr result (IsStuckAt kind ahead.entry.line ahead.entry.rest.now) }
{
    let next = pass_until(ahead, kind, left)?;
    let run = &ahead.rest[..ahead.rest.len() - next.rest.len()];
    push_run(text, run)?;
    Ok(next)
}

/// Copies the records below the key to a text. Where they end is found by halving, so no name is compared on the way.
fn copy_below<'a>(
    text: &mut Vec<u8>,
    ahead: Ahead<'a>,
    kind: Kind,
    key: &[u8],
) -> Result<Ahead<'a>, Error>
    ensures copies { IfOk result (Copies kind key.now ahead.entry text.old.items text.new.items) }
    ensures refused { IfErr result (IsStuckAt kind ahead.entry.line ahead.entry.rest.now) }
{
    let place = lower_bound_in_memory(ahead.rest, kind, key).place as usize;
    let next = copy_until(text, ahead, kind, ahead.rest.len() - place)?;
    Ok(next)
}

/// Adds the record that an edit puts to a text, if it puts one.
fn push_put(text: &mut Vec<u8>, edit: &RecordEdit<'_>) -> Result<(), AllocError>
    ensures { OnOk result (AddsRecords (put_by edit.now) text.old.items text.new.items) }
{
    match &edit.put {
        Some(new) => push_new(text, edit.key, new),
        None => Ok(()),
    }
}

/// Applies an edit: adds the records below its key to a text, and what it puts, and passes the record of the key.
fn apply<'a>(
    text: &mut Vec<u8>,
    ahead: Ahead<'a>,
    kind: Kind,
    edit: &RecordEdit<'_>,
) -> Result<Applied<'a>, Error>
    ensures applies { IfOk result
        (Applies kind edit.now ahead.entry text.old.items text.new.items) }
    ensures refused { IfErr result (IsStuckAt kind ahead.entry.line ahead.entry.rest.now) }
{
    let before = copy_below(text, ahead, kind, edit.key)?;
    push_put(text, edit)?;
    match pass_named(before, kind, edit.key) {
        Some(next) => Ok(Applied {
            ahead: next,
            alters: true,
        }),
        None => Ok(Applied {
            ahead: before,
            alters: edit.put.is_some(),
        }),
    }
}

/// Applies all edits, and copies the records after them. Returns whether any altered the records.
pub fn apply_all(
    text: &mut Vec<u8>,
    records: Ahead<'_>,
    kind: Kind,
    edits: &[RecordEdit<'_>],
) -> Result<bool, Error>
    ensures merges { IfOk result
        (Merges kind edits.now records.entry.rest.now text.old.items text.new.items) }
    ensures refused { IfErr result (IsStuckAt kind records.entry.line records.entry.rest.now) }
{
    let mut ahead = records;
    let mut alters = false;
    for edit in edits {
        let applied = apply(text, ahead, kind, edit)?;
        ahead = applied.ahead;
        alters = alters || applied.alters;
    }
    copy_until(text, ahead, kind, 0)?;
    Ok(alters)
}
