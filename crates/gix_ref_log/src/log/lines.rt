//! Cuts of texts into lines and into the parts of a line.
ghost use Rattle.std.specs.Prelude.{◌≡◌, ◌∷◌, ◌<◌, length};
ghost use Rattle.gix_ref_hash.specs.Bytes.{NoByte};
ghost use Rattle.gix_ref_log.specs.LogCuts.{log_lines};
ghost use Rattle.gix_ref_log.specs.LogLines.{CutsOrAll, IsFirstLine};
ghost use Rattle.gix_ref_log.specs.LogStages.{text_of_line};

use gix_ref_hash::bytes::cut;

/// The text before the first such byte and the text after it, or the whole text and nothing where it has none.
#[inline(always)]
pub fn cut_or_all(text: &[u8], byte: u8) -> (&[u8], &[u8])
    ensures { CutsOrAll byte text.now result.0.now result.1.now }
{
    cut(text, byte).unwrap_or((text, &[]))
}

/// The text before its first LF, or all of it.
pub fn before_newline(text: &[u8]) -> &[u8]
    ensures line { IsFirstLine text.now result.now }
    ensures one_line { NoByte 10 result.now }
{
    cut_or_all(text, b'\n').0
}

/// A line without the CR before its LF, if an LF ends it.
#[inline(always)]
pub fn strip_cr(line: &[u8], has_newline: bool) -> &[u8]
    ensures text { result.now ≡ text_of_line has_newline line.now }
    ensures one_line { NoByte 10 line.now → NoByte 10 result.now }
{
    let len = line.len();
    if !has_newline || len == 0 || line[len - 1] != b'\r' {
        return line;
    }
    &line[..len - 1]
}

/// The first line of a log, without its LF and the CR before it, and what follows it.
#[inline(always)]
pub fn cut_line(log: &[u8]) -> (&[u8], &[u8])
    requires { 0 < length log.now }
    ensures lines { log_lines log.now ≡ result.0.now ∷ log_lines result.1.now }
    ensures one_line { NoByte 10 result.0.now }
    ensures shorter { length result.1.now < length log.now }
{
    match cut(log, b'\n') {
        Some((line, rest)) => (strip_cr(line, true), rest),
        None => (log, &[]),
    }
}
