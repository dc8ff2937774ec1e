//! The order and the equality of references, each stated by a short caller: what `==` and `cmp` return.
ghost use Rattle.std.specs.Prelude.{◌≡◌, ◌↔◌, IsTrue};
ghost use Rattle.gix_ref_packed_text.specs.Orders.{SameReference, reference_cmp};
ghost use Rattle.gix_ref_packed_text.specs.Views.{record_of};

use crate::packed;
use crate::packed::Found;
use gix_ref_packed_text::packed::decode::Header;
use gix_ref_packed_text::raw::Reference;
use std::cmp::Ordering;

/// References are equal where name, target and peeled id are.
pub fn same_references(a: &Reference, b: &Reference) -> bool
    ensures { IsTrue result ↔ SameReference a.now b.now }
{
    a == b
}

/// References are ordered by name, target and peeled id; no peeled id comes before any.
pub fn order_references(a: &Reference, b: &Reference) -> Ordering
    ensures { result ≡ reference_cmp a.now b.now }
{
    a.cmp(b)
}

/// Lent records are equal where the name and the digits of the ids are, as they are written.
pub fn same_records(a: packed::Reference<'_>, b: packed::Reference<'_>) -> bool
    ensures { IsTrue result ↔ (record_of a.entry ≡ record_of b.entry) }
{
    a == b
}

/// What searches found is equal where the ids are.
pub fn same_found(a: Found, b: Found) -> bool
    ensures { IsTrue result ↔ (a ≡ b) }
{
    a == b
}

/// Headers are equal where they say the same.
pub fn same_headers(a: Header, b: Header) -> bool
    ensures { IsTrue result ↔ (a ≡ b) }
{
    a == b
}
