//! The records of a file in parts, one after the other: each part is whole records, so that the text is never in memory as a whole.
ghost use Rattle.std.specs.Prelude.{◌≡◌, ◌≢◌, ◌<◌, ◌≤◌, ◌+◌, ◌-◌, IfErr, OnOk, length, drop, slice_index};
ghost use Rattle.gix_ref_packed.specs.FileSearches.{IsNoChange, count_part};
ghost use Rattle.gix_ref_packed.specs.internal.Parts.{IsPart};

use crate::packed::sorted_file::{MAX_WINDOW_DOUBLINGS, ReadError, read_window, window_size};
use gix_ref_files::files::ReadAt;
use memchr::memrchr;

/// After so many doublings of the smallest window a part has 64 KB, if no record is longer.
const PART_DOUBLINGS: u32 = 6;

/// Where the last line begins that is not the first and begins with no `^`; 0 where there is none.
fn last_record_line(text: &[u8]) -> usize
    ensures { 0 < result → (result < length text.now) × (slice_index text.now (result - 1) ≡ 10)
        × (slice_index text.now result ≢ 94) }
{
    let mut end = text.len();
    while let Some(newline) = memrchr(b'\n', &text[..end]) {
        let next = newline + 1;
        if next < text.len() && text[next] != b'^' {
            return next;
        }
        end = newline;
    }
    0
}

/// Reads the records of a file from that place on, so many as a window of 64 KB holds, or one that is longer: up to the end of
/// the file, or up to a line that begins with no `^`.
pub(crate) fn read_part<R: ReadAt>(
    reader: &mut R,
    part: &mut Vec<u8>,
    place: u64,
) -> Result<(), ReadError>
    requires { place < R.size reader.now }
    ensures same { (R.bytes reader.new ≡ R.bytes reader.old)
        × (R.size reader.new ≡ R.size reader.old) }
    ensures count { R.faults reader.new ≡ count_part result (R.faults reader.old) }
    ensures stays { IfErr result IsNoChange }
    ensures some { OnOk result ((0 < length part.new.items)
        × (place + length part.new.items ≤ R.size reader.old)) }
    ensures part { R.honest →
        OnOk result (IsPart (drop place (R.bytes reader.old)) part.new.items) }
{
    let left = reader.len() - place;
    for turn in PART_DOUBLINGS..MAX_WINDOW_DOUBLINGS {
        let len = window_size(turn).min(left);
        read_window(reader, part, place, len as usize)?;
        if len == left {
            return Ok(());
        }
        let end = last_record_line(part.as_slice());
        if end > 0 {
            part.truncate(end);
            return Ok(());
        }
    }
    // The last window holds any file.
    unreachable!()
}
