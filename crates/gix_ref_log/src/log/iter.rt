//! The lines of a reflog, oldest first or newest first.
ghost use Rattle.std.specs.Iterator.{Yields};
ghost use Rattle.std.specs.Iterator.Runs.{EachRunFrom};
ghost use Rattle.std.specs.Prelude.{◌≡◌, length, IfOk, IsErr, ◌↔◌, true, List, Result};
ghost use Rattle.gix_ref_log.specs.LogCuts.{log_lines};
ghost use Rattle.gix_ref_log.specs.LogForward.{ForwardStep};
ghost use Rattle.gix_ref_log.specs.LogItems.{IsRun, IsLentRun, IsForwardRun, EndsAtError, items_from, faults_after};
ghost use Rattle.gix_ref_log.specs.LogWindows.{NextStep, NextRefStep, IsTied, items_left};
ghost use Rattle.gix_ref_log.specs.declared.log.line.Line.{Line};
ghost use Rattle.gix_ref_log.specs.declared.log.line.LineRef.{LineRef};
ghost use Rattle.gix_ref_log.specs.declared.log.iter.error.ReverseError.{ReverseError};

mod backward;
pub mod decode;
mod error;
mod fast;
mod forwards;
mod stage;

pub use backward::Reverse;
pub use error::{EmptyBuffer, ReverseError};
pub use forwards::Forward;
use gix_ref_files::files::ReadAt;
use stage::Stage;
use std::alloc::Global;

/// The lines of a log, oldest first. Each is a line, or a decode fault with its number, and it goes on after one. Lines
/// are cut at LF, a CR before LF is dropped, and nothing follows a final LF. Costs time in proportion to what is read.
/// As gix-ref's `log::iter::forward` (`git reflog`).
///
/// ```text
/// for line in forward(&log) {
///     println!(rt; "{}", line?.new_oid())?;
/// }
/// ```
pub fn forward(log: &[u8]) -> Forward<'_>
    // Whatever calls of `next` follow, they give the lines of the log, in order.
    ensures { EachRunFrom ForwardStep result
        (λ run. IsForwardRun (run.whole ≡ true) 1 (log_lines log.now) run.items) }
{
    Forward {
        rest: log,
        count: 0,
    }
}

/// The lines of a log, newest first, through the buffer, whose length is the only limit: a line of L bytes (its CR counted,
/// its LF not) is given where L + 1 bytes fit, or L for the first line of the file. The first line that does not fit is one
/// `BufferTooSmall`. Decode faults are numbered from the end, and it goes on after one; after any other error it has ended.
/// As gix-ref's `log::iter::reverse` (`git reflog`, `git log -g`).
///
/// It reads as much of the file as its lines ask for, each byte once, in reads of about the buffer's length, and keeps the
/// allocator for the lines that `next` gives; it takes no memory for anything else, and none where `Reverse::next_ref` lends
/// them. A buffer without room is `EmptyBuffer`.
///
/// ```text
/// let mut buf = [0; 4096];
/// for line in reverse(alloc, reader, &mut buf)? {
///     println!(rt; "{}", line?.new_oid)?; // the newest first
/// }
/// ```
pub fn reverse<F: ReadAt + Drop>(
    alloc: Global,
    log: F,
    buf: &mut [u8],
) -> Result<Reverse<'_, F>, EmptyBuffer>
    ensures empty { IsErr result ↔ (length buf.old ≡ 0) }
    ensures same_reference { IfOk result (λ r. r.buf.ghost_name ≡ buf.entry.ghost_name) }

    // Whatever calls of `next` follow, they give the items that a buffer of this length has room for, or a beginning of
    // them and one fault of reading or of memory.
    ensures items { F.honest → IfOk result (λ r. EachRunFrom (NextStep F.honest F.bytes F.faults) r
        (λ run. IsRun (run.whole ≡ true) (items_from (length buf.old) 1 (F.bytes log)) run.items)) }

    // The same of calls of `next_ref`, which never lack memory; and where both are called, each goes on from what is left.
    ensures lent_items { F.honest → IfOk result
        (λ r. EachRunFrom (NextRefStep F.honest F.bytes F.faults) r (λ run. IsLentRun
        (run.whole ≡ true) (items_from (length buf.old) 1 (F.bytes log)) run.items)) }

    ensures left { F.honest → IfOk result (λ r. IsTied F.bytes r
        × (items_left F.bytes r ≡ items_from (length buf.old) 1 (F.bytes log))) }

    // Of any reader: an `Io` is a fault that the reader counted, and nothing follows an error but a decode fault.
    ensures faults { IfOk result (λ r. (items : List (Result Line ReverseError)) (s : _) →
        Yields (NextStep F.honest F.bytes F.faults) r items s →
        F.faults s.reader ≡ faults_after (F.faults log) items) }
    ensures ends { IfOk result
        (λ r. EachRunFrom (NextStep F.honest F.bytes F.faults) r (λ run. EndsAtError run.items)) }
    ensures lent_faults { IfOk result (λ r. (items : List (Result LineRef ReverseError)) (s : _) →
        Yields (NextRefStep F.honest F.bytes F.faults) r items s →
        F.faults s.reader ≡ faults_after (F.faults log) items) }
    ensures lent_ends { IfOk result (λ r. EachRunFrom (NextRefStep F.honest F.bytes F.faults) r
        (λ run. EndsAtError run.items)) }
{
    if buf.is_empty() {
        return Err(EmptyBuffer);
    }
    let pos = log.len();
    Ok(Reverse {
        buf,
        reader: log,
        stage: Stage::Unread,
        pos,
        end: 0,
        number: 1,
        alloc,
    })
}
