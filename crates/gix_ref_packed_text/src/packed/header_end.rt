//! Where the records of a text begin.
ghost use Rattle.std.specs.Prelude.{◌≡◌, ◌<◌, MatchOption};
ghost use Rattle.gix_ref_packed_text.specs.OpenedText.{NoHeader, line_behind, says_sorted as sorted_by};
ghost use Rattle.gix_ref_packed_text.specs.HeaderEnds.{HeadsAt};

use crate::packed::decode::{Header, take_header};

/// What the header of a text says, and where the records begin.
#[derive(Clone, Copy)]
pub struct HeaderEnd {
    /// The header; none where the text does not begin with `#`.
    pub header: Option<Header>,
    /// The offset of the first record.
    pub start: usize,
}

/// The header of a text, which has one where it begins with `#`; `None` where it should have one and has not.
pub fn read_header_end(text: &[u8]) -> Option<HeaderEnd>
    ensures { MatchOption result (NoHeader text.now) (HeadsAt text.now) }
{
    match text {
        [b'#', ..] => {}
        _ => {
            return Some(HeaderEnd {
                header: None,
                start: 0,
            });
        }
    }
    let Some((header, rest)) = take_header(text) else {
        return None;
    };
    Some(HeaderEnd {
        header: Some(header),
        start: text.len() - rest.len(),
    })
}

/// The number of the first line after the header, from 1.
pub fn first_line_behind(header: Option<Header>) -> u64
    ensures line { result ≡ line_behind header }
    ensures early { result < 3 }
{
    match header {
        Some(_) => 2,
        None => 1,
    }
}

/// Whether a header says that the records are sorted.
pub fn says_sorted(header: Option<Header>) -> bool
    ensures { result ≡ sorted_by header }
{
    match header {
        Some(header) => header.sorted,
        None => false,
    }
}
