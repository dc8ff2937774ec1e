//! Reading a line of a reflog.
ghost use Rattle.std.specs.Prelude.{List, ℕ, MatchOption};
ghost use Rattle.gix_ref_hash.specs.Bytes.{NoByte};
ghost use Rattle.gix_ref_log.specs.LogIds.{IdFront, IsIdPlace};
ghost use Rattle.gix_ref_log.specs.LogLines.{IsLine, NoLine, line_ref_parts};

use super::LineRef;
use crate::actor::SignatureRef;
use crate::log::lines::cut_or_all;
use bstr::BStr;
use gix_ref_hash::hash::are_hex;
use thiserror::Error;

/// The bytes are no line of a reflog.
#[derive(Clone, Copy, Debug, PartialEq, Eq, Error)]
#[error("{0:?} is not '<old id> <new id> <name> <<email>> <seconds> <zone>\\t<message>'", BStr::new(self.input))]
pub struct Error<'a> {
    /// The first line of the bytes, without its LF.
    pub input: &'a [u8],
}

/// How many digits the id in front has, if there is one: the place of the space.
#[inline(always)]
fn id_len(text: &[u8]) -> usize
    ensures { IsIdPlace text.now result }
{
    if text.len() > 40 && text[40] == b' ' {
        40
    } else {
        64
    }
}

/// The id in front, and what follows its space.
#[inline(always)]
fn id_front(text: &[u8]) -> Option<(&[u8], &[u8])>
    ensures { MatchOption result ((id rest : List ℕ) → IdFront text.now id rest → ⊥)
        (λ p. IdFront text.now p.0.now p.1.now) }
{
    let len = id_len(text);
    if text.len() <= len || text[len] != b' ' {
        return None;
    }
    let (id, rest) = (&text[..len], &text[len + 1..]);
    if !are_hex(id) {
        return None;
    }
    Some((id, rest))
}

/// The line that a text without LF is.
#[inline(always)]
pub(crate) fn decode_line<'a>(text: &'a [u8]) -> Option<LineRef<'a>>
    requires { NoByte 10 text.now }
    ensures { MatchOption result (NoLine text.now) (λ line. IsLine text.now (line_ref_parts line)) }
{
    let (previous_oid, ids) = id_front(text)?;
    let (new_oid, rest) = id_front(ids)?;
    let (head, message) = cut_or_all(rest, b'\t');
    let signature = SignatureRef::decode(head)?;
    Some(LineRef {
        previous_oid,
        new_oid,
        signature,
        message,
    })
}
