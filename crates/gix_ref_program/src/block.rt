//! Text that is printed in blocks.
ghost use Rattle.std.specs.Prelude.{◌≡◌, ◌++◌, OnOk};
ghost use Rattle.std.specs.Io.KnownBytes.{Keeps, append_known};
ghost use Rattle.gix_ref_program.specs.Printed.{fault_line};

use std::alloc::AllocError;
use std::io;
use std::io::Write;

/// From how many bytes on the text is written: 64 KB.
const BLOCK: usize = 65536;

/// Adds the line of a fault.
pub(crate) fn push_fault(text: &mut Vec<u8>, variant: &str) -> Result<(), AllocError>
    ensures { OnOk result (text.new.items ≡ text.old.items ++ fault_line variant.now) }
{
    text.extend_from_slice(b"fault: ")?;
    text.extend_from_slice(variant.as_bytes())?;
    text.extend_from_slice(b"\n")?;
    Ok(())
}

/// Writes the text if it has the bytes of a block.
#[inline(always)]
pub(crate) fn write_block<W: Write>(text: &mut Vec<u8>, out: &mut W) -> io::Result<()>
    ensures { OnOk result (Keeps (append_known (W.contents out.old) text.old.items)
        (append_known (W.contents out.new) text.new.items)) }
{
    if text.len() >= BLOCK {
        out.write_all(text)?;
        text.clear();
    }
    Ok(())
}
