//! Reading the text of `packed-refs`: its header, its records, and where records begin.
ghost use Rattle.std.specs.Prelude.{◌≡◌, ◌≤◌, length, drop};
ghost use Rattle.gix_ref_packed_text.specs.Positions.{StartsRecord};

mod header_line;
mod options;
mod record_line;

use crate::packed::lines::line_start;
pub use header_line::{header, take_header};
pub use options::{Header, Peeled};
pub use record_line::{
    begins_with_caret, fast_compare, has_no_control, name_at_record_start, order_at, reference,
    split_record_line, take_record,
};

/// Where the record that the byte is in begins: a line with `^` belongs to the line before it. At the end of a text that
/// does not end in a newline, where the last record begins; at the end of one that does, 0. The offset is at most the
/// text's length. As gix-ref's private `packed::decode::record_start_at_offset`.
#[inline(always)]
pub fn record_start_at_offset(text: &[u8], offset: usize) -> usize
    requires { offset ≤ length text.now }
    ensures { StartsRecord text.now result offset }
{
    let line = line_start(text, offset);
    match text.get(line) {
        None => 0,
        Some(b'^') if line > 0 => line_start(text, line - 1),
        Some(_) => line,
    }
}

/// The text from the beginning of the record that the byte is in, as `record_start_at_offset` finds it. The offset is at
/// most the text's length. As gix-ref's private `packed::decode::record_at_offset`.
pub fn record_at_offset(text: &[u8], offset: usize) -> &[u8]
    requires { offset ≤ length text.now }
    ensures { (start : _) × StartsRecord text.now start offset
        × (result.now ≡ drop start text.now) }
{
    &text[record_start_at_offset(text, offset)..]
}
