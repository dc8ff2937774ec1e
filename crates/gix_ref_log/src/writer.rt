//! Writing a text of several parts, and what the writer holds where it fails.
ghost use Rattle.std.specs.Prelude.{◌≡◌, ◌+◌, ◌<◌, ◌≤◌, ◌≢◌, ◌++◌, length, take, vec_capacity, vec_len, IfErr, IfOk, OnErr, OnOk};
ghost use Rattle.std.specs.Io.KnownBytes.{Appends, Keeps};
ghost use Rattle.std.specs.IoError.{error_kind};
ghost use Rattle.std.specs.declared.io.ErrorKind.TheVariants.{Interrupted};
ghost use Rattle.gix_ref_log.specs.Writers.{StopsShort};
ghost use Rattle.gix_ref_log.specs.internal.Parts.{concat_slices};

use std::alloc::AllocError;
use std::io;

/// Writes one byte of the text or more, and returns how many. A write that a signal interrupts is tried again.
fn write_some<W: io::Write>(out: &mut W, text: &[u8]) -> io::Result<usize>
    ensures count { IfOk result (λ count. (0 < count) × (count ≤ length text.now)) }
    ensures written { IfOk result (λ count. Appends (W.contents out.old) (W.contents out.new)
        (take count text.now)) }
    ensures kept { OnErr result (Keeps (W.contents out.old) (W.contents out.new)) }
    ensures retried { IfErr result (λ error. error_kind error ≢ Interrupted) }
{
    for _ in 0..u64::MAX {
        match out.write(text) {
            Ok(0) => return Err(io::Error::from(io::ErrorKind::WriteZero)),
            Ok(count) => return Ok(count),
            Err(error) if error.kind() == io::ErrorKind::Interrupted => {}
            Err(error) => return Err(error),
        }
    }
    Err(io::Error::from(io::ErrorKind::TimedOut))
}

/// Writes the text. As `write_all`, whose contract leaves open what the writer holds after an error.
fn write_whole<W: io::Write>(out: &mut W, text: &[u8]) -> io::Result<()>
    ensures written { OnOk result (Appends (W.contents out.old) (W.contents out.new) text.now) }
    ensures stopped { IfErr result (StopsShort (W.contents out.old) (W.contents out.new) text.now) }
{
    let mut at = 0;
    while at < text.len() {
        at += write_some(out, &text[at..])?;
    }
    Ok(())
}

/// Writes the parts, one after the other.
pub(crate) fn write_parts<W: io::Write>(out: &mut W, parts: &[&[u8]]) -> io::Result<()>
    ensures written { OnOk result (Appends (W.contents out.old) (W.contents out.new)
        (concat_slices parts.now)) }
    ensures stopped { IfErr result (StopsShort (W.contents out.old) (W.contents out.new)
        (concat_slices parts.now)) }
{
    for part in parts {
        write_whole(out, part)?;
    }
    Ok(())
}

/// Adds the parts to the text, one after the other. Where there is no memory for them, the text stays as it was.
pub(crate) fn push_parts(text: &mut Vec<u8>, parts: &[&[u8]]) -> Result<(), AllocError>
    ensures added { OnOk result (text.new.items ≡ text.old.items ++ concat_slices parts.now) }
    ensures left { OnErr result (text.new.items ≡ text.old.items) }
    ensures room { OnErr result
        (vec_capacity text.old < vec_len text.old + length (concat_slices parts.now)) }
{
    let len = text.len();
    for part in parts {
        if let Err(error) = text.extend_from_slice(part) {
            text.truncate(len);
            return Err(error);
        }
    }
    Ok(())
}
