//! A line of a reflog: who moved a reference from which object to which, when, and why (`git reflog`).
ghost use Rattle.gix_ref_hash.specs.Ids.{IsIdText};

use super::lines::before_newline;
use crate::actor::{Signature, SignatureRef};
use bstr::ByteSlice;
use gix_ref_hash::hash::{ObjectId, id_of_digits};
use std::alloc::{AllocError, Global};
use std::{fmt, io};

pub mod decode;
mod write;

use decode::decode_line;
pub use write::{AppendError, WriteError, appended_line};

/// An owned line of a reflog. As gix-ref's `log::Line`.
#[derive(Debug, PartialEq, Eq, PartialOrd, Ord, Hash, Clone, Drop)]
pub struct Line {
    /// The object that the reference pointed to before; the null id where there was none.
    pub previous_oid: ObjectId,
    /// The object that it points to since.
    pub new_oid: ObjectId,
    /// Who moved the reference, and when.
    pub signature: Signature,
    /// Why, as bytes.
    pub message: Vec<u8>,
}

/// A lent line of a reflog. Its ids are hex digits of either case. As gix-ref's `log::LineRef`.
#[derive(Clone, Copy, Debug, PartialEq, Eq, PartialOrd, Ord, Hash)]
pub struct LineRef<'a> {
    /// The 40 or 64 hex digits of the object that the reference pointed to before.
    pub previous_oid: &'a [u8],
    /// The 40 or 64 hex digits of the object that it points to since.
    pub new_oid: &'a [u8],
    /// Who moved the reference, and when.
    pub signature: SignatureRef<'a>,
    /// Why, as bytes.
    pub message: &'a [u8],
    pub ghost previous_is_id: { IsIdText previous_oid.now },
    pub ghost new_is_id: { IsIdText new_oid.now },
}

impl<'a> LineRef<'a> {
    ghost use Rattle.std.specs.Prelude.{MatchResult, IfOk};
    ghost use Rattle.gix_ref_hash.specs.Ids.{ReadsId};
    ghost use Rattle.gix_ref_log.specs.LogLines.{IsLine, NoLine, IsFirstLine, IsOwned, line_ref_parts};

    /// Reads the first line of the text: an id, a space, an id, a space, a signature, and optionally a tab and the message,
    /// up to LF or the end. A CR before the LF belongs to the message. The error lends the first line of
    /// any other text. As gix-ref's `log::LineRef::from_bytes`.
    ///
    /// ```text
    /// match LineRef::from_bytes(line) {
    ///     Ok(line) => println!(rt; "{} {}", line.new_oid(), line.message.as_bstr())?,
    ///     Err(error) => println!(rt; "no line of a log: {error}")?,
    /// }
    /// ```
    pub fn from_bytes(text: &'a [u8]) -> Result<LineRef<'a>, decode::Error<'a>>
        ensures { MatchResult result (λ line. IsLine text.now (line_ref_parts line))
            (λ error. NoLine text.now × IsFirstLine text.now error.input.now) }
    {
        let input = before_newline(text);
        match decode_line(input) {
            Some(line) => Ok(line),
            None => Err(decode::Error { input }),
        }
    }

    /// The id of the object that the reference pointed to before. As gix-ref's `log::LineRef::previous_oid`.
    pub fn previous_oid(&self) -> ObjectId
        ensures { ReadsId self.now.previous_oid.now result }
    {
        id_of_digits(self.previous_oid)
    }

    /// The id of the object that the reference points to since. As gix-ref's `log::LineRef::new_oid`.
    pub fn new_oid(&self) -> ObjectId
        ensures { ReadsId self.now.new_oid.now result }
    {
        id_of_digits(self.new_oid)
    }

    /// An owned copy with the ids read; the error says that there was no memory for it. As gix-ref's
    /// `log::LineRef::to_owned`.
    ///
    /// ```text
    /// let line = LineRef::from_bytes(text)?.to_owned(alloc)?;
    /// ```
    #[inline(always)]
    pub fn to_owned(&self, alloc: Global) -> Result<Line, AllocError>
        ensures { IfOk result (IsOwned (line_ref_parts self.now)) }
    {
        Ok(Line {
            previous_oid: self.previous_oid(),
            new_oid: self.new_oid(),
            signature: self.signature.to_owned(alloc)?,
            message: Vec::from_slice(alloc, self.message)?,
        })
    }
}

/// The new id, as its digits stand in the log, a space and the message: `git reflog show --format='%H %gs'`. Of a message that is not
/// UTF-8 the lossy text of `bstr`.
impl<'a> fmt::Display for LineRef<'a> {
    ghost use Rattle.std.specs.Prelude.{Some, ◌++◌, ◌∷◌};
    ghost use Rattle.gix_ref_hash.specs.Bytes.{shown};

    ghost output = { λ l. Some (shown l.new_oid.now ++ 32 ∷ shown l.message.now) };

    fn fmt<W: fmt::Write>(&self, f: &mut fmt::Formatter<W>) -> fmt::Result {
        self.new_oid.as_bstr().fmt(f)?;
        f.write_str(" ")?;
        self.message.as_bstr().fmt(f)
    }
}

/// The new id, a space and the message: `git reflog show --format='%H %gs'`. Of a message that is not UTF-8 the lossy text of `bstr`.
impl fmt::Display for Line {
    ghost use Rattle.std.specs.Prelude.{Some, ◌++◌, ◌∷◌};
    ghost use Rattle.hex.specs.Hex.{encode_lower};
    ghost use Rattle.gix_ref_hash.specs.Bytes.{shown};
    ghost use Rattle.gix_ref_hash.specs.Ids.{id_bytes};

    ghost output = { λ l. Some (encode_lower (id_bytes l.new_oid) ++ 32 ∷ shown l.message.items) };

    fn fmt<W: fmt::Write>(&self, f: &mut fmt::Formatter<W>) -> fmt::Result {
        self.new_oid.fmt(f)?;
        f.write_str(" ")?;
        self.message.as_slice().as_bstr().fmt(f)
    }
}

impl Line {
    ghost use Rattle.std.specs.Prelude.{◌≡◌, ◌<◌, ◌+◌, ◌++◌, ◌↔◌, length, vec_capacity, vec_len, OnOk, OnErr, IsErrOf};
    ghost use Rattle.std.specs.Io.KnownBytes.{Appends};
    ghost use Rattle.gix_ref_hash.specs.Bytes.{NoByte};
    ghost use Rattle.gix_ref_log.specs.Signatures.{CanWrite, signature_who};
    ghost use Rattle.gix_ref_log.specs.LogLines.{CanWriteLine, line_text};
    ghost use Rattle.gix_ref_log.specs.Writers.{StopsShort};

    /// Writes the ids in lower case, the signature as it is, a tab also before an empty message, and LF. A message with
    /// LF is `MessageWithNewlines`, else a signature that cannot be written is `SignatureUnwritable`, both before the first
    /// byte. After `Io` the writer holds a beginning of the line, and not all of it; a write that a signal interrupts is
    /// tried again. As gix-ref's `log::Line::write_to`.
    ///
    /// ```text
    /// // The old id, the new id, the signature, a tab and the message.
    /// line.write_to(&mut out)?;
    /// ```
    pub fn write_to<W: io::Write>(&self, out: &mut W) -> Result<(), WriteError>
        ensures written { OnOk result
            (CanWriteLine (signature_who self.now.signature) self.now.message.items
            × Appends (W.contents out.old) (W.contents out.new) (line_text self.now)) }
        ensures message { IsErrOf result WriteError.MessageWithNewlines
            ↔ (NoByte 10 self.now.message.items → ⊥) }
        ensures signature { IsErrOf result WriteError.SignatureUnwritable ↔ (NoByte 10
            self.now.message.items × (CanWrite (signature_who self.now.signature) → ⊥)) }
        ensures message_untouched { IsErrOf result WriteError.MessageWithNewlines →
            out.new ≡ out.old }
        ensures signature_untouched { IsErrOf result WriteError.SignatureUnwritable →
            out.new ≡ out.old }
        ensures stopped { (error : _) → IsErrOf result (WriteError.Io error) →
            StopsShort (W.contents out.old) (W.contents out.new) (line_text self.now) error }
    {
        if self.message.as_slice().find_byte(b'\n').is_some() {
            return Err(WriteError::MessageWithNewlines);
        }
        let Some(zone) = self.signature.to_ref().writable_zone() else {
            return Err(WriteError::SignatureUnwritable);
        };
        match write::write_line(self, &zone, out) {
            Ok(()) => Ok(()),
            Err(error) => Err(WriteError::Io(error)),
        }
    }

    /// Adds the line to the end of the text, as `write_to` writes it. A message with LF is `MessageWithNewlines`, else a
    /// signature that cannot be written is `SignatureUnwritable`. `Memory` comes only where the text has no room for the
    /// line and cannot grow. After an error the text is as it was. Not in gix-ref, which calls `write_to` on a `Vec`.
    ///
    /// ```text
    /// let mut log = Vec::new(alloc);
    /// line.push_to(&mut log)?;
    /// ```
    pub fn push_to(&self, text: &mut Vec<u8>) -> Result<(), AppendError>
        ensures added { OnOk result
            (CanWriteLine (signature_who self.now.signature) self.now.message.items
            × (text.new.items ≡ text.old.items ++ line_text self.now)) }
        ensures message { IsErrOf result AppendError.MessageWithNewlines
            ↔ (NoByte 10 self.now.message.items → ⊥) }
        ensures signature { IsErrOf result AppendError.SignatureUnwritable ↔ (NoByte 10
            self.now.message.items × (CanWrite (signature_who self.now.signature) → ⊥)) }
        ensures room { IsErrOf result AppendError.Memory →
            vec_capacity text.old < vec_len text.old + length (line_text self.now) }
        ensures left { OnErr result (text.new.items ≡ text.old.items) }
    {
        if self.message.as_slice().find_byte(b'\n').is_some() {
            return Err(AppendError::MessageWithNewlines);
        }
        let Some(zone) = self.signature.to_ref().writable_zone() else {
            return Err(AppendError::SignatureUnwritable);
        };
        match write::push_line(self, &zone, text) {
            Ok(()) => Ok(()),
            Err(_) => Err(AppendError::Memory),
        }
    }
}
