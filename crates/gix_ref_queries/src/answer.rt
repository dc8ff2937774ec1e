//! What a command answers.
ghost use Rattle.std.specs.Prelude.{◌++◌, IfOk};
ghost use Rattle.gix_ref_queries.specs.Answers.{Says, Fails};

use std::alloc::{AllocError, Global};

/// What a command answers: what it prints, what it prints as an error, and the status with which a program ends.
#[derive(Debug, Drop)]
pub struct Answer {
    /// For standard output.
    pub text: Vec<u8>,
    /// For standard error.
    pub errors: Vec<u8>,
    /// 0 for what is done, 1 for what does not exist, 128 for an error, 129 for wrong words.
    pub status: u8,
}

/// A text, and a status.
pub(crate) fn said(alloc: Global, text: Vec<u8>, status: u8) -> Answer
    ensures { Says text.items status result }
{
    Answer {
        text,
        errors: Vec::new(alloc),
        status,
    }
}

/// An error in Git's form: `fatal: `, three texts and a line feed. The status is 128.
pub(crate) fn fatal(
    alloc: Global,
    front: &[u8],
    name: &[u8],
    end: &[u8],
) -> Result<Answer, AllocError>
    ensures { IfOk result (Fails (front.now ++ (name.now ++ end.now))) }
{
    let mut errors = b"fatal: ".to_vec(alloc)?;
    errors.extend_from_slice(front)?;
    errors.extend_from_slice(name)?;
    errors.extend_from_slice(end)?;
    errors.extend_from_slice(b"\n")?;
    Ok(Answer {
        text: Vec::new(alloc),
        errors,
        status: 128,
    })
}
