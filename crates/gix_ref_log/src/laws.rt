//! What is proved of texts of signatures and of log lines, as the contracts of functions that do nothing; and the order and the
//! equality of times, signatures and lines, each stated by a short caller: what `==` and `cmp` return.
ghost use Rattle.std.specs.Prelude.{◌≡◌, List, ℕ, FitsSigned, ◌↔◌, IsTrue};
ghost use Rattle.gix_ref_log.specs.Signatures.{Who, signature_who, trimmed_who, IsSignature, CanWrite, signature_text, signature_ref_who};
ghost use Rattle.gix_ref_log.specs.LogLines.{LogLine, IsLine, IsReadAs, IsReadableLine, written_parts, line_text, appended_text, line_ref_parts};
ghost use Rattle.gix_ref_hash.specs.declared.hash.ObjectId.{ObjectId};
ghost use Rattle.gix_ref_log.specs.declared.log.line.Line.{Line};
ghost use Rattle.std.specs.Int.{w64};
ghost use Rattle.gix_ref_log.specs.Orders.{time_cmp, who_cmp, line_cmp, line_ref_cmp, IsSameLine};

use crate::actor::{Signature, SignatureRef, Time};
use crate::log::{Line, LineRef};
use std::cmp::Ordering;

/// A text is one line at most. A line that can be written, with no tab in name or email, is read again as it was, and so is
/// one that a transaction adds.
pub fn lines_read_back()
    ensures one { (text : List ℕ) (line other : LogLine) → IsLine text line → IsLine text other →
        other ≡ line }
    ensures written { (line : Line) → IsReadableLine line.previous_oid line.new_oid
        (signature_who line.signature) line.message.items → IsReadAs (line_text line) line }
    ensures appended { (previous new : ObjectId) (who : Who) (message : List ℕ) →
        IsReadableLine previous new (trimmed_who who) message →
        IsLine (appended_text previous new who message)
        (written_parts previous new (trimmed_who who) message) }
{}

/// A text is one signature at most, and a signature that can be written is read again from its text.
pub fn signatures_read_back()
    ensures one { (text : List ℕ) (who other : Who) → IsSignature text who →
        IsSignature text other → other ≡ who }
    ensures again { (who : Who) → CanWrite who → FitsSigned w64 who.seconds →
        IsSignature (signature_text who) who }
{}

/// Times are equal where seconds and offset are.
pub fn same_times(a: Time, b: Time) -> bool
    ensures { IsTrue result ↔ (a ≡ b) }
{
    a == b
}

/// Times are ordered by their seconds and then by their offset.
pub fn order_times(a: Time, b: Time) -> Ordering
    ensures { result ≡ time_cmp a.seconds a.offset b.seconds b.offset }
{
    a.cmp(&b)
}

/// Signatures are equal where name, email and time are.
pub fn same_signatures(a: &Signature, b: &Signature) -> bool
    ensures { IsTrue result ↔ (signature_who a.now ≡ signature_who b.now) }
{
    a == b
}

/// Signatures are ordered by name, email and time.
pub fn order_signatures(a: &Signature, b: &Signature) -> Ordering
    ensures { result ≡ who_cmp (signature_who a.now) (signature_who b.now) }
{
    a.cmp(b)
}

/// Lent signatures are equal where name, email and time are.
pub fn same_signature_views(a: SignatureRef<'_>, b: SignatureRef<'_>) -> bool
    ensures { IsTrue result ↔ (signature_ref_who a.entry ≡ signature_ref_who b.entry) }
{
    a == b
}

/// Lent signatures are ordered by name, email and time.
pub fn order_signature_views(a: SignatureRef<'_>, b: SignatureRef<'_>) -> Ordering
    ensures { result ≡ who_cmp (signature_ref_who a.entry) (signature_ref_who b.entry) }
{
    a.cmp(&b)
}

/// Lines are equal where ids, signature and message are.
pub fn same_lines(a: &Line, b: &Line) -> bool
    ensures { IsTrue result ↔ IsSameLine a.now b.now }
{
    a == b
}

/// Lines are ordered by the previous id, the new id, the signature and the message.
pub fn order_lines(a: &Line, b: &Line) -> Ordering
    ensures { result ≡ line_cmp a.now b.now }
{
    a.cmp(b)
}

/// Lent lines are equal where the digits of the ids, the signature and the message are.
pub fn same_line_views(a: LineRef<'_>, b: LineRef<'_>) -> bool
    ensures { IsTrue result ↔ (line_ref_parts a.entry ≡ line_ref_parts b.entry) }
{
    a == b
}

/// Lent lines are ordered by the digits of the previous id and of the new id, the signature and the message.
pub fn order_line_views(a: LineRef<'_>, b: LineRef<'_>) -> Ordering
    ensures { result ≡ line_ref_cmp a.entry b.entry }
{
    a.cmp(&b)
}
