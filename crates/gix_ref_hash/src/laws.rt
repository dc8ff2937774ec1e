//! The order and the equality of ids, each stated by a short caller: what `==` and `cmp` return.
ghost use Rattle.std.specs.Prelude.{◌≡◌, ◌↔◌, IsTrue, List, ℕ};
ghost use Rattle.std.specs.Ordering.{nat_cmp};
ghost use Rattle.gix_ref_hash.specs.Digits.{lower_hex};
ghost use Rattle.gix_ref_hash.specs.Orders.{kind_rank, id_cmp};
ghost use Rattle.hex.specs.Hex.{encode_lower};
ghost use Rattle.gix_ref_hash.specs.declared.hash.ObjectId.{ObjectId};
ghost use Rattle.gix_ref_hash.specs.Ids.{id_bytes, id_kind, IsWhole, ReadsId, IsHexOf};

use crate::hash::{Kind, ObjectId};
use std::cmp::Ordering;

/// SHA-1 comes before SHA-256.
pub fn order_kinds(a: Kind, b: Kind) -> Ordering
    ensures { result ≡ nat_cmp (kind_rank a) (kind_rank b) }
{
    a.cmp(&b)
}

/// Kinds are equal where they are the same kind.
pub fn same_kinds(a: Kind, b: Kind) -> bool
    ensures { IsTrue result ↔ (a ≡ b) }
{
    a == b
}

/// Ids are ordered by their kind and then by their bytes.
pub fn order_ids(a: &ObjectId, b: &ObjectId) -> Ordering
    ensures { result ≡ id_cmp a.now b.now }
{
    a.cmp(b)
}

/// Ids are equal where kind and bytes are.
pub fn same_ids(a: &ObjectId, b: &ObjectId) -> bool
    ensures { IsTrue result ↔ (a.now ≡ b.now) }
{
    a == b
}

/// An id and its hex digits determine one another: a text is the digits of one id at most, and the bytes of an id, in
/// lower-case digits, are the digits of that id. The digits of an id in lower case are those of its bytes.
pub fn digits_of_ids()
    ensures one_id { (text : List ℕ) (a b : ObjectId) → ReadsId text a → ReadsId text b → a ≡ b }
    ensures written { (id : ObjectId) → IsWhole id → ReadsId (encode_lower (id_bytes id)) id }
    ensures read { (text : List ℕ) (id : ObjectId) → ReadsId text id → IsHexOf (id_kind id) text
        × IsWhole id }
    ensures lower { (text : List ℕ) (id : ObjectId) → ReadsId text id → lower_hex text
        ≡ encode_lower (id_bytes id) }
{}
