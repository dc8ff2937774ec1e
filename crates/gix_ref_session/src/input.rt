//! Reading commands: in lines, or in fields that end with NUL (`git help update-ref`, `-z`).
ghost use Rattle.std.specs.Prelude.{◌≡◌, MatchBool, IfOk, OnOk};
ghost use Rattle.gix_ref_session.specs.Input.{HearsEnd, HearsField, HearsMore, HearsText, end_of};

use crate::command::more_fields;
use std::alloc::{AllocError, Global};
use std::io;
use std::io::BufRead;

/// How commands are written.
#[derive(Clone, Copy, Debug, PartialEq, Eq)]
pub enum Format {
    /// A line each, whose fields are parted by a space.
    Lines,
    /// Fields that end with NUL each; the verb and the first field are parted by a space.
    Nul,
}

impl Format {
    /// The byte that ends a line or a field.
    fn end(self) -> u8
        ensures { result ≡ end_of self }
    {
        match self {
            Format::Lines => b'\n',
            Format::Nul => 0,
        }
    }
}

/// Reads the bytes up to this one, without it, in place of what is in the buffer; false at the end of the input.
fn read_field<R: BufRead>(input: &mut R, end: u8, field: &mut Vec<u8>) -> io::Result<bool>
    ensures { IfOk result (λ some. MatchBool some
        (HearsField end field.new.items (R.remaining input.old) (R.remaining input.new))
        (HearsEnd (R.remaining input.old) (R.remaining input.new))) }
{
    field.clear();
    input.read_until(end, field)?;
    let len = field.len();
    if len == 0 {
        return Ok(false);
    }
    if field[len - 1] == end {
        field.truncate(len - 1);
    }
    Ok(true)
}

/// Adds so many further fields, a NUL before each, unless the input ends.
fn read_more<R: BufRead>(
    input: &mut R,
    count: u8,
    field: &mut Vec<u8>,
    text: &mut Vec<u8>,
) -> io::Result<()>
    ensures { OnOk result (HearsMore count (R.remaining input.old) (R.remaining input.new)
        text.old.items text.new.items) }
{
    let mut left = count;
    'fields: while left > 0 {
        if !read_field(input, 0, field)? {
            return Ok(());
        }
        text.push(0)?;
        text.extend_from_slice(field)?;
        left -= 1;
    }
    Ok(())
}

/// Reads the text of a command, in place of what is in the buffer: a line, or fields with a NUL between two. False at the end of the
/// input. The error is the reader's, or says that there was no memory; the buffers then hold any bytes.
pub(crate) fn read_command<R: BufRead>(
    input: &mut R,
    format: Format,
    field: &mut Vec<u8>,
    text: &mut Vec<u8>,
) -> io::Result<bool>
    ensures { IfOk result (λ some. MatchBool some
        (HearsText format (R.remaining input.old) (R.remaining input.new) text.new.items)
        (HearsEnd (R.remaining input.old) (R.remaining input.new))) }
{
    if !read_field(input, format.end(), text)? {
        return Ok(false);
    }
    match format {
        Format::Lines => Ok(true),
        Format::Nul => {
            let count = more_fields(text);
            read_more(input, count, field, text)?;
            Ok(true)
        }
    }
}
