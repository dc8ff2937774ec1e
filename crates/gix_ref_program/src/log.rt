//! The reflog of a reference, printed (`git reflog show`).
ghost use Rattle.std.specs.Prelude.{◌≡◌, ◌<◌, ◌++◌, Ok, IfOk, IfSome, OnOk};
ghost use Rattle.std.specs.Io.KnownBytes.{Appends};
ghost use Rattle.std.specs.Iterator.Runs.{WholeRun};
ghost use Rattle.gix_ref_log.specs.LogWindows.{NextRefStep, most_left};
ghost use Rattle.gix_ref_program.specs.LogPrinting.{log_fault_word, log_item_text, log_text, PushesNext};
ghost use Rattle.gix_ref_program.specs.Printed.{items_status};

use crate::block::{push_fault, write_block};
use gix_ref_files::files::ReadAt;
use gix_ref_hash::hash::push_lower_hex;
use gix_ref_log::log::LineRef;
use gix_ref_log::log::iter::{Reverse, ReverseError};
use std::alloc::{AllocError, Global};
use std::io;
use std::io::Write;

/// The variant of the error of a line.
fn fault_variant(error: &ReverseError) -> &'static str
    ensures { result.now ≡ log_fault_word error.now }
{
    match error {
        ReverseError::Io(_) => "Io",
        ReverseError::Decode(_) => "Decode",
        ReverseError::BufferTooSmall => "BufferTooSmall",
        ReverseError::Memory => "Memory",
    }
}

/// Adds a line of a log: its ids, in lower case, and its message.
fn push_line(text: &mut Vec<u8>, line: LineRef<'_>) -> Result<(), AllocError>
    ensures { OnOk result (text.new.items ≡ text.old.items ++ log_item_text (Ok line.entry)) }
{
    push_lower_hex(line.previous_oid, text)?;
    text.push(b' ')?;
    push_lower_hex(line.new_oid, text)?;
    text.push(b' ')?;
    text.extend_from_slice(line.message)?;
    text.push(b'\n')?;
    Ok(())
}

/// Adds the next item of a log, if there is one, as it is lent: a line, or the variant of a fault. Returns whether it is a
/// fault.
fn push_next<R: ReadAt>(
    text: &mut Vec<u8>,
    lines: &mut Reverse<'_, R>,
) -> Result<Option<bool>, AllocError>
    ensures pushes { IfOk result (PushesNext R.honest R.bytes R.faults lines.old lines.new
        text.old.items text.new.items) }
    ensures left { IfOk result
        (λ fault. IfSome fault (λ _. most_left lines.new < most_left lines.old)) }
{
    match lines.next_ref() {
        None => Ok(None),
        Some(Ok(line)) => {
            push_line(text, line)?;
            Ok(Some(false))
        }
        Some(Err(error)) => {
            push_fault(text, fault_variant(&error))?;
            Ok(Some(true))
        }
    }
}

/// Prints the items of a log in blocks, and returns the status: 1 where one of them is a fault. The error is the writer's,
/// or says that there was no memory for a block.
pub fn print_items<R: ReadAt, W: Write>(
    alloc: Global,
    lines: &mut Reverse<'_, R>,
    out: &mut W,
) -> io::Result<u8>
    ensures { IfOk result (λ status. WholeRun (NextRefStep R.honest R.bytes R.faults) lines.old
        (λ run. (status ≡ items_status run.items)
        × Appends (W.contents out.old) (W.contents out.new) (log_text run.items))) }
{
    let mut text = Vec::new(alloc);
    let mut status = 0;
    while let Some(is_fault) = push_next(&mut text, lines)? {
        write_block(&mut text, out)?;
        if is_fault {
            status = 1;
        }
    }
    out.write_all(&text)?;
    Ok(status)
}
