//! What is added to the new text: runs of old records, and records that are put.
ghost use Rattle.std.specs.Prelude.{◌≡◌, ◌++◌, OnOk};
ghost use Rattle.std.specs.Bool.{OnFalse};
ghost use Rattle.std.specs.Option.{option_map};
ghost use Rattle.gix_ref_hash.specs.Bytes.{NoByte};
ghost use Rattle.gix_ref_target.specs.PackedRecords.{object_line, record_text, written_id};
ghost use Rattle.gix_ref_packed_text.specs.RecordEdits.{new_record};
ghost use Rattle.gix_ref_packed_text.specs.internal.Runs.{without_cr};

use crate::edit::NewRecord;
use gix_ref_hash::bytes::cut;
use gix_ref_hash::hash::ObjectId;
use memchr::memchr;
use std::alloc::AllocError;

/// Whether a run has a CR: few have one, and most are long.
fn has_cr(run: &[u8]) -> bool
    ensures { OnFalse result (NoByte 13 run.now) }
{
    match memchr(b'\r', run) {
        Some(_) => true,
        None => false,
    }
}

/// Adds a run of bytes to a text, except for each CR, line by line.
fn push_lines(text: &mut Vec<u8>, run: &[u8]) -> Result<(), AllocError>
    ensures { OnOk result (text.new.items ≡ text.old.items ++ without_cr run.now) }
{
    let mut rest = run;
    while let Some((front, after)) = cut(rest, b'\r') {
        text.extend_from_slice(front)?;
        rest = after;
    }
    text.extend_from_slice(rest)?;
    Ok(())
}

/// Adds a run of bytes to a text, except for each CR: so each CRLF becomes LF.
pub fn push_run(text: &mut Vec<u8>, run: &[u8]) -> Result<(), AllocError>
    ensures { OnOk result (text.new.items ≡ text.old.items ++ without_cr run.now) }
{
    if has_cr(run) {
        return push_lines(text, run);
    }
    text.extend_from_slice(run)?;
    Ok(())
}

/// Adds the line of a peeled id to a text, if there is one.
fn push_peeled(text: &mut Vec<u8>, peeled: Option<ObjectId>) -> Result<(), AllocError>
    ensures { OnOk result
        (text.new.items ≡ text.old.items ++ object_line (option_map written_id peeled)) }
{
    let Some(peeled) = peeled else {
        return Ok(());
    };
    text.extend_from_slice(b"^")?;
    peeled.push_hex(text)?;
    text.extend_from_slice(b"\n")?;
    Ok(())
}

/// Adds the record of a key with new ids to a text.
pub fn push_new(text: &mut Vec<u8>, key: &[u8], new: &NewRecord) -> Result<(), AllocError>
    ensures { OnOk result
        (text.new.items ≡ text.old.items ++ record_text (new_record key.now new.now)) }
{
    new.target.push_hex(text)?;
    text.extend_from_slice(b" ")?;
    text.extend_from_slice(key)?;
    text.extend_from_slice(b"\n")?;
    push_peeled(text, new.peeled)
}
