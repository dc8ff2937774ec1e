//! Why a session ends before its input does, as git prints it after `fatal: `.

use crate::command::Malformed;
use bstr::ByteSlice;
use gix_ref_files::files::FileError;
use gix_ref_hash::bytes::cut;
use gix_ref_name::name;
use gix_ref_program::update::UpdateError;
use gix_ref_store::file::{find, iter};
use std::alloc::AllocError;
use std::{fmt, io};
use thiserror::Error;

/// Why a session ends.
#[derive(Debug, Drop, Error)]
pub enum Fatal {
    /// The reader failed.
    #[error("cannot read: {0}")]
    Read(io::Error),
    /// The writer failed.
    #[error("cannot write: {0}")]
    Write(io::Error),
    /// An allocation was refused.
    #[error("out of memory")]
    Memory,
    /// The folder is not a clean path.
    #[error("not a git repository")]
    Folder,
    /// A text is no command.
    #[error("{0}")]
    Malformed(Text),
    /// A name, or a target, is no full name.
    #[error("invalid ref format: {0}")]
    Name(name::Error),
    /// A command comes where a transaction was closed, and is not `start`.
    #[error("transaction is closed")]
    Closed,
    /// A `start` comes in a transaction that was started.
    #[error("cannot restart ongoing transaction")]
    Restarted,
    /// A command comes after `prepare`, and is neither `commit` nor `abort`.
    #[error("prepared transactions can only be closed")]
    Prepared,
    /// `symref-delete` or `symref-verify` comes without `option no-deref`.
    #[error("cannot operate with deref mode")]
    Deref,
    /// A reference that an edit leads to could not be looked up.
    #[error("{0}")]
    Find(find::Error),
    /// The references below a name could not be listed.
    #[error("{0}")]
    List(iter::Error),
    /// A name is that of a folder in the name of another reference, or the other way round.
    #[error("cannot lock ref '{0}': another reference is in its way")]
    Clash(name::FullName),
    /// `HEAD` led to this branch, which is to be updated, and was switched to another one before it was locked.
    #[error("cannot lock ref 'HEAD': it no longer leads to {0}")]
    Switched(name::FullName),
    /// The transaction was not prepared, or its commit failed.
    #[error("{0}")]
    Update(UpdateError),
}

/// A text that is no command, and why.
#[derive(Debug, Drop)]
pub struct Text {
    pub malformed: Malformed,
    pub text: Vec<u8>,
}

/// The verb and the first field of a text.
fn verb_and_name(text: &[u8]) -> (&[u8], &[u8]) {
    let Some((verb, rest)) = cut(text, b' ') else {
        return (text, b"");
    };
    let name = match cut(rest, 0) {
        Some((name, _)) => name,
        None => rest,
    };
    match cut(name, b' ') {
        Some((name, _)) => (verb, name),
        None => (verb, name),
    }
}

impl fmt::Display for Text {
    fn fmt<W: fmt::Write>(&self, f: &mut fmt::Formatter<W>) -> fmt::Result {
        let text = self.text.as_slice();
        let (verb, name) = verb_and_name(text);
        let (verb, name) = (verb.as_bstr(), name.as_bstr());
        match self.malformed {
            Malformed::Empty => write!(f, "empty command in input"),
            Malformed::Whitespace => write!(f, "whitespace before command: {}", text.as_bstr()),
            Malformed::Unknown => write!(f, "unknown command: {}", text.as_bstr()),
            Malformed::Quoted => write!(f, "badly quoted argument: {}", text.as_bstr()),
            Malformed::NoName => write!(f, "{verb}: missing <ref>"),
            Malformed::NoField => write!(f, "{verb} {name}: missing <newvalue>"),
            Malformed::Invalid => write!(f, "{verb} {name}: invalid value"),
            Malformed::Zero => write!(f, "{verb} {name}: zero value"),
            Malformed::Extra => write!(f, "{verb} {name}: extra input"),
        }
    }
}

impl From<io::Error> for Fatal {
    ghost use Rattle.std.specs.Prelude.{◌≡◌};
    ghost use Rattle.gix_ref_session.specs.declared.fatal.Fatal.TheVariants.{Read};

    ghost from_gives = { λ error fatal. fatal ≡ Read error };

    fn from(error: io::Error) -> Fatal {
        Fatal::Read(error)
    }
}

impl From<AllocError> for Fatal {
    ghost use Rattle.std.specs.Prelude.{◌≡◌};
    ghost use Rattle.gix_ref_session.specs.declared.fatal.Fatal.TheVariants.{Memory};

    ghost from_gives = { λ _ fatal. fatal ≡ Memory };

    fn from(_: AllocError) -> Fatal {
        Fatal::Memory
    }
}
