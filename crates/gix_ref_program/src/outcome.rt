//! The outcome of a line, and how it is printed.
ghost use Rattle.std.specs.Prelude.{◌≡◌, ◌++◌, [], IfOk, OnOk};
ghost use Rattle.std.specs.Io.KnownBytes.{Appends};
ghost use Rattle.gix_ref_target.specs.Targets.{target_value};
ghost use Rattle.gix_ref_program.specs.Outcomes.{lock_lines, shown_target, reference_line, printed, status_of};

use crate::refusal::Refusal;
use gix_ref_store::raw::Reference;
use gix_ref_target::target::Target;
use std::alloc::{AllocError, Global};
use std::io;
use std::io::Write;

/// The outcome of a line.
#[derive(Drop)]
pub enum Outcome {
    /// The words are no line.
    WrongWords,
    /// An update was made; these locks could not be removed.
    Updated {
        locks_left: Vec<Vec<u8>>,
    },
    /// A reference is shown.
    Shown(Reference),
    /// The line was refused; these locks could not be removed.
    Refused {
        refusal: Refusal,
        locks_left: Vec<Vec<u8>>,
    },
}

/// A refusal that leaves no lock.
pub(crate) fn refused(alloc: Global, refusal: Refusal) -> Outcome
    ensures { (locks : _) × (result ≡ Outcome.Refused refusal locks) × (locks.items ≡ []) }
{
    Outcome::Refused {
        refusal,
        locks_left: Vec::new(alloc),
    }
}

/// Adds a line for each lock that stays.
fn push_locks(text: &mut Vec<u8>, locks: &[Vec<u8>]) -> Result<(), AllocError>
    ensures { OnOk result (text.new.items ≡ text.old.items ++ lock_lines locks.now) }
{
    for lock in locks {
        text.extend_from_slice(b"lock left: ")?;
        text.extend_from_slice(lock)?;
        text.extend_from_slice(b"\n")?;
    }
    Ok(())
}

/// Adds a target: the digits of its id, or `ref: ` and its name.
fn push_target(text: &mut Vec<u8>, target: &Target) -> Result<(), AllocError>
    ensures { OnOk result
        (text.new.items ≡ text.old.items ++ shown_target (target_value target.now)) }
{
    match target {
        Target::Object(id) => id.push_hex(text)?,
        Target::Symbolic(name) => {
            text.extend_from_slice(b"ref: ")?;
            text.extend_from_slice(name.to_path())?;
        }
    }
    Ok(())
}

/// Adds the line of a reference: its target and its name.
pub(crate) fn push_reference(text: &mut Vec<u8>, reference: &Reference) -> Result<(), AllocError>
    ensures { OnOk result (text.new.items ≡ text.old.items ++ reference_line reference.now) }
{
    push_target(text, &reference.target)?;
    text.extend_from_slice(b" ")?;
    text.extend_from_slice(reference.name.to_path())?;
    text.extend_from_slice(b"\n")?;
    Ok(())
}

/// What is printed of an outcome.
fn text_of(alloc: Global, outcome: &Outcome) -> Result<Vec<u8>, AllocError>
    ensures { IfOk result (λ text. text.items ≡ printed outcome.now) }
{
    let mut text = Vec::new(alloc);
    match outcome {
        Outcome::WrongWords => text.extend_from_slice(b"wrong words\n")?,
        Outcome::Updated { locks_left } => push_locks(&mut text, locks_left)?,
        Outcome::Shown(reference) => push_reference(&mut text, reference)?,
        Outcome::Refused {
            refusal,
            locks_left,
        } => {
            text.extend_from_slice(b"refused: ")?;
            text.extend_from_slice(refusal.variant().as_bytes())?;
            text.extend_from_slice(b"\n")?;
            push_locks(&mut text, locks_left)?;
        }
    }
    Ok(text)
}

/// The status with which the program ends: 0 for what is done, 1 for a refusal, 2 for wrong words.
fn status(outcome: &Outcome) -> u8
    ensures { result ≡ status_of outcome.now }
{
    match outcome {
        Outcome::WrongWords => 2,
        Outcome::Updated { .. } | Outcome::Shown(_) => 0,
        Outcome::Refused { .. } => 1,
    }
}

/// Prints an outcome in one write, and returns the status. The error is the writer's, or says that there was no memory
/// for the text.
pub fn print<W: Write>(alloc: Global, outcome: Outcome, out: &mut W) -> io::Result<u8>
    ensures status { IfOk result (λ s. s ≡ status_of outcome) }
    ensures printed { OnOk result
        (Appends (W.contents out.old) (W.contents out.new) (printed outcome)) }
{
    let status = status(&outcome);
    let text = text_of(alloc, &outcome)?;
    out.write_all(&text)?;
    Ok(status)
}
