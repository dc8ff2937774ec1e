//! The header of a `packed-refs` that stays in its file.
ghost use Rattle.std.specs.Prelude.{◌≡◌, ℕ, List, length, take, true, IfOk, IfErr, MatchOption};
ghost use Rattle.gix_ref_packed_text.specs.Shown.{IfHere, IsHere};
ghost use Rattle.gix_ref_packed_text.specs.OpenedText.{NoHeader};
ghost use Rattle.gix_ref_packed_text.specs.HeaderEnds.{HeadsAt};
ghost use Rattle.gix_ref_packed.specs.FileSearches.{IsNoChange, count_part};

use crate::packed::sorted_file::{MAX_WINDOW_DOUBLINGS, ReadError, read_window, window_size};
use gix_ref_files::files::ReadAt;
pub use gix_ref_packed_text::packed::header_end::HeaderEnd;
use gix_ref_packed_text::packed::header_end::read_header_end;
use gix_ref_packed_text::packed::window::InWindow;

/// What the header of a beginning of a text says of the text, which it is as a whole where `at_eof` holds. `Here(None)` where
/// the text begins with `#` and has no header.
fn header_end_in(part: &[u8], at_eof: bool) -> InWindow<Option<HeaderEnd>>
    ensures heads { IfHere result (λ found. (text : List ℕ) →
        part.now ≡ take (length part.now) text → (at_eof ≡ true → part.now ≡ text) →
        MatchOption found (NoHeader text) (HeadsAt text)) }
    ensures sure { at_eof ≡ true → IsHere result }
{
    let Some(heading) = read_header_end(part) else {
        if at_eof {
            return InWindow::Here(None);
        }
        return InWindow::NeedMore;
    };
    if at_eof {
        return InWindow::Here(Some(heading));
    }
    if part.is_empty() {
        return InWindow::NeedMore;
    }
    InWindow::Here(Some(heading))
}

/// The header of a file, and where its records begin: a `SortedFile` from there on is searched where the header says sorted.
/// `None` where the file begins with `#` and has no header. Reads the first 1 KB, and more only where the header's line is
/// longer, into the window. The error reports that the file cannot be read, or that there was no memory for its
/// beginning.
pub fn file_header<R: ReadAt>(
    window: &mut Vec<u8>,
    reader: &mut R,
) -> Result<Option<HeaderEnd>, ReadError>
    ensures same { R.bytes reader.new ≡ R.bytes reader.old }
    ensures count { R.faults reader.new ≡ count_part result (R.faults reader.old) }
    ensures stays { IfErr result IsNoChange }
    ensures heads { R.honest → IfOk result (λ found. MatchOption found
        (NoHeader (R.bytes reader.old)) (HeadsAt (R.bytes reader.old))) }
{
    for turn in 0..MAX_WINDOW_DOUBLINGS {
        let len = window_size(turn).min(reader.len());
        read_window(reader, window, 0, len as usize)?;
        if let InWindow::Here(found) = header_end_in(window.as_slice(), len == reader.len()) {
            return Ok(found);
        }
    }
    // The last window holds any file.
    unreachable!()
}
