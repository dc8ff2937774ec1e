//! Writing a line of a reflog.
ghost use Rattle.std.specs.Prelude.{◌≡◌, ◌<◌, ◌+◌, ◌↔◌, ◌++◌, ◌∷◌, [], length, vec_capacity, vec_len, OnOk, OnErr, IfOk, IfErr, IsErrOf};
ghost use Rattle.std.specs.Io.KnownBytes.{Appends};
ghost use Rattle.gix_ref_hash.specs.Bytes.{NoByte};
ghost use Rattle.gix_ref_log.specs.Signatures.{CanWrite, offset_text, signature_ref_who, trimmed_who};
ghost use Rattle.std.specs.Fmt.{signed_decimal};
ghost use Rattle.gix_ref_log.specs.Writers.{StopsShort};
ghost use Rattle.gix_ref_log.specs.internal.Parts.{concat_slices};
ghost use Rattle.hex.specs.Hex.{encode_lower};
ghost use Rattle.gix_ref_hash.specs.Ids.{id_bytes};
ghost use Rattle.gix_ref_log.specs.LogLines.{CanWriteLine, message_part, line_text, head_text, appended_text};
ghost use Rattle.gix_ref_hash.specs.declared.hash.ObjectId.{ObjectId};
ghost use Rattle.gix_ref_log.specs.declared.log.line.Line.{Line};

use super::Line;
use crate::actor::SignatureRef;
use crate::writer::{push_parts, write_parts};
use bstr::ByteSlice;
use gix_ref_hash::hash::ObjectId;
use std::alloc::{AllocError, Global};
use std::io;
use thiserror::Error;

/// Why a line was not written.
#[derive(Debug, Drop, Error)]
pub enum WriteError {
    /// The message holds LF. Nothing was written.
    #[error("the message of a log line must not hold a line feed")]
    MessageWithNewlines,
    /// The signature cannot be written. Nothing was written.
    #[error("the signature of a log line cannot be written")]
    SignatureUnwritable,
    /// The writer failed; it holds a beginning of the line, and not all of it.
    #[error("the log line could not be written: {0}")]
    Io(io::Error),
}

/// Why a line was not added to a text.
#[derive(Clone, Copy, Debug, PartialEq, Eq, Error)]
pub enum AppendError {
    /// The message holds LF.
    #[error("the message of a log line must not hold a line feed")]
    MessageWithNewlines,
    /// The signature cannot be written.
    #[error("the signature of a log line cannot be written")]
    SignatureUnwritable,
    /// There was no memory for the line.
    #[error("out of memory")]
    Memory,
}

/// The hex digits of the id, in lower case, at the front of the room.
fn hex_digits<'a>(id: &ObjectId, room: &'a mut [u8; 64]) -> &'a [u8]
    ensures { result.now ≡ encode_lower (id_bytes id.now) }
{
    let digits = &mut room[..id.kind().len_in_hex()];
    hex::encode_to_slice(id.as_bytes(), digits).unwrap();
    digits
}

/// The parts of a line, of whose ids, seconds and offset these are the texts.
fn line_parts<'a>(
    line: &'a Line,
    previous: &'a [u8],
    new: &'a [u8],
    seconds: &'a [u8],
    zone: &'a [u8],
) -> [&'a [u8]; 14]
    requires previous { previous.now ≡ encode_lower (id_bytes line.now.previous_oid) }
    requires new { new.now ≡ encode_lower (id_bytes line.now.new_oid) }
    requires seconds { seconds.now ≡ signed_decimal line.now.signature.time.seconds }
    requires zone { zone.now ≡ offset_text line.now.signature.time.offset }
    ensures { concat_slices result ≡ line_text line.now }
{
    let (name, email) = (&line.signature.name, &line.signature.email);
    let message = &line.message;
    [
        previous, b" ", new, b" ", name, b" <", email, b"> ", seconds, b" ", zone, b"\t", message,
        b"\n",
    ]
}

/// Writes a line, of whose offset this is the text.
pub(super) fn write_line<W: io::Write>(line: &Line, zone: &[u8], out: &mut W) -> io::Result<()>
    requires { zone.now ≡ offset_text line.now.signature.time.offset }
    ensures written { OnOk result (Appends (W.contents out.old) (W.contents out.new)
        (line_text line.now)) }
    ensures stopped { IfErr result (StopsShort (W.contents out.old) (W.contents out.new)
        (line_text line.now)) }
{
    let (mut room, mut new_room) = ([0u8; 64], [0u8; 64]);
    let previous = hex_digits(&line.previous_oid, &mut room);
    let new = hex_digits(&line.new_oid, &mut new_room);
    let mut digits = itoa::Buffer::new();
    let seconds = digits.format(line.signature.time.seconds).as_bytes();
    write_parts(out, &line_parts(line, previous, new, seconds, zone))
}

/// Adds a line, of whose offset this is the text, to a text.
pub(super) fn push_line(line: &Line, zone: &[u8], text: &mut Vec<u8>) -> Result<(), AllocError>
    requires { zone.now ≡ offset_text line.now.signature.time.offset }
    ensures added { OnOk result (text.new.items ≡ text.old.items ++ line_text line.now) }
    ensures left { OnErr result (text.new.items ≡ text.old.items) }
    ensures room { OnErr result
        (vec_capacity text.old < vec_len text.old + length (line_text line.now)) }
{
    let (mut room, mut new_room) = ([0u8; 64], [0u8; 64]);
    let previous = hex_digits(&line.previous_oid, &mut room);
    let new = hex_digits(&line.new_oid, &mut new_room);
    let mut digits = itoa::Buffer::new();
    let seconds = digits.format(line.signature.time.seconds).as_bytes();
    push_parts(text, &line_parts(line, previous, new, seconds, zone))
}

/// The bytes that most ids and signatures need.
const HEAD_LEN: usize = 160;

/// Adds the ids and the signature, of whose offset this is the text.
fn push_head(
    previous: &ObjectId,
    new: &ObjectId,
    who: SignatureRef<'_>,
    zone: &[u8],
    line: &mut Vec<u8>,
) -> Result<(), AllocError>
    requires { zone.now ≡ offset_text who.time.offset }
    ensures { OnOk result (line.new.items ≡ line.old.items ++ head_text previous.now new.now
        (signature_ref_who who.entry)) }
{
    previous.push_hex(line)?;
    line.push(b' ')?;
    new.push_hex(line)?;
    line.push(b' ')?;
    who.push_stamped(zone, line)
}

/// The bytes of a line, of whose offset this is the text, without a tab before an empty message.
fn append_parts(
    alloc: Global,
    previous: &ObjectId,
    new: &ObjectId,
    who: SignatureRef<'_>,
    zone: &[u8],
    message: &[u8],
) -> Result<Vec<u8>, AllocError>
    requires { zone.now ≡ offset_text who.time.offset }
    ensures { IfOk result (λ line. line.items ≡ head_text previous.now new.now
        (signature_ref_who who.entry) ++ (message_part message.now ++ 10 ∷ [])) }
{
    let mut line = Vec::with_capacity(alloc, HEAD_LEN.saturating_add(message.len()))?;
    push_head(previous, new, who, zone, &mut line)?;
    if !message.is_empty() {
        line.push(b'\t')?;
        line.extend_from_slice(message)?;
    }
    line.push(b'\n')?;
    Ok(line)
}

/// The bytes that a transaction adds to a log: the ids in lower case, the committer without blanks at the ends of name and
/// email, a tab and the message where that is not empty, and LF. A message with LF is `MessageWithNewlines`, else a trimmed
/// signature that cannot be written is `SignatureUnwritable`. As the lines that gix-ref's `file::Store` appends, and
/// `git update-ref -m`.
///
/// ```text
/// let line = appended_line(alloc, &Kind::Sha1.null(), &new, committer, b"branch: Created")?;
/// ```
pub fn appended_line(
    alloc: Global,
    previous: &ObjectId,
    new: &ObjectId,
    committer: SignatureRef<'_>,
    message: &[u8],
) -> Result<Vec<u8>, AppendError>
    ensures made { IfOk result (λ line. CanWriteLine
        (trimmed_who (signature_ref_who committer.entry)) message.now × (line.items
        ≡ appended_text previous.now new.now (signature_ref_who committer.entry) message.now)) }
    ensures message { IsErrOf result AppendError.MessageWithNewlines ↔ (NoByte 10 message.now → ⊥) }
    ensures signature { IsErrOf result AppendError.SignatureUnwritable ↔ (NoByte 10 message.now
        × (CanWrite (trimmed_who (signature_ref_who committer.entry)) → ⊥)) }
{
    if message.find_byte(b'\n').is_some() {
        return Err(AppendError::MessageWithNewlines);
    }
    let who = committer.trim();
    let Some(zone) = who.writable_zone() else {
        return Err(AppendError::SignatureUnwritable);
    };
    match append_parts(alloc, previous, new, who, &zone, message) {
        Ok(line) => Ok(line),
        Err(_) => Err(AppendError::Memory),
    }
}
