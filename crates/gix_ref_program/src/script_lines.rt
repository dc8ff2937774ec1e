//! The lines of a script: what each asks for.
ghost use Rattle.std.specs.Prelude.{◌≡◌, ◌∷◌, ◌<◌, [], List, map, IfOk, MatchOption, length};
ghost use Rattle.bstr.specs.Text.{no_cr};
ghost use Rattle.std.specs.List.{slice_split};
ghost use Rattle.gix_ref_log.specs.LogCuts.{log_lines};
ghost use Rattle.gix_ref_program.specs.Words.{Asked, commands_asked, texts};
ghost use Rattle.gix_ref_program.specs.ScriptLines.{parts_commands, line_words, script_lines, AsksFor};

use crate::words::{Command, command_of};
use gix_ref_hash::bytes::cut;
use std::alloc::{AllocError, Global};

/// A line without the CR at its end.
fn without_cr(line: &[u8]) -> &[u8]
    ensures { result.now ≡ no_cr line.now }
{
    let len = line.len();
    if len == 0 || line[len - 1] != b'\r' {
        return line;
    }
    &line[..len - 1]
}

/// The first line, without its LF and the CR before it, and what follows it.
fn cut_line(text: &[u8]) -> (&[u8], &[u8])
    requires { 0 < length text.now }
    ensures lines { log_lines text.now ≡ result.0.now ∷ log_lines result.1.now }
    ensures shorter { length result.1.now < length text.now }
{
    match cut(text, b'\n') {
        Some((line, rest)) => (without_cr(line), rest),
        None => (text, &[]),
    }
}

/// The next line that is not empty, and what follows it.
pub(crate) fn next_line(text: &[u8]) -> Option<(&[u8], &[u8])>
    ensures { MatchOption result (script_lines text.now ≡ [])
        (λ r. (script_lines text.now ≡ r.0.now ∷ script_lines r.1.now)
        × (length r.1.now < length text.now)) }
{
    let mut rest = text;
    while !rest.is_empty() {
        let (line, after) = cut_line(rest);
        if !line.is_empty() {
            return Some((line, after));
        }
        rest = after;
    }
    None
}

/// The words of a line, parted by one space each.
fn words_of<'w>(alloc: Global, line: &'w [u8]) -> Result<Vec<&'w [u8]>, AllocError>
    ensures { IfOk result (λ words. texts words.items ≡ line_words line.now) }
{
    line.split(|byte| *byte == b' ').collect(alloc)
}

/// The words of each command: they are parted by the word `;`.
fn commands_in<'a, 'w>(
    alloc: Global,
    words: &'a [&'w [u8]],
) -> Result<Vec<&'a [&'w [u8]]>, AllocError>
    ensures { IfOk result (λ parts. map (λ part. texts part.now) parts.items
        ≡ slice_split parts_commands (texts words.now)) }
{
    words.split(|word| *word == b";".as_slice()).collect(alloc)
}

/// The commands of a line; `None` where one of them is no command that writes.
pub(crate) fn commands_of<'w>(
    alloc: Global,
    line: &'w [u8],
) -> Result<Option<Vec<Command<'w>>>, AllocError>
    ensures { IfOk result (λ found. MatchOption found
        ((asked : List Asked) → AsksFor line.now asked → ⊥)
        (λ commands. AsksFor line.now (commands_asked commands.items))) }
{
    let words = words_of(alloc, line)?;
    let parts = commands_in(alloc, &words)?;
    let mut commands = Vec::new(alloc);
    for part in &parts {
        let Some(command) = command_of(part) else {
            return Ok(None);
        };
        if !command.writes() {
            return Ok(None);
        }
        commands.push(command)?;
    }
    Ok(Some(commands))
}
