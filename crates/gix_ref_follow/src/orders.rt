//! The order and the equality of loose references and of when log lines are written, each stated by a short caller: what `==` and
//! `cmp` return.
ghost use Rattle.std.specs.Prelude.{◌≡◌, ◌↔◌, IsTrue};
ghost use Rattle.std.specs.Ordering.{nat_cmp};
ghost use Rattle.gix_ref_follow.specs.Orders.{SameLoose, loose_cmp, reflog_rank};

use gix_ref_store::file::loose::Reference;
use gix_ref_store::store::WriteReflog;
use std::cmp::Ordering;

/// Modes of reflogs are equal where they are the same mode.
pub fn same_reflog_modes(a: WriteReflog, b: WriteReflog) -> bool
    ensures { IsTrue result ↔ (a ≡ b) }
{
    a == b
}

/// `Always` comes before `Normal`, and that before `Disable`.
pub fn order_reflog_modes(a: WriteReflog, b: WriteReflog) -> Ordering
    ensures { result ≡ nat_cmp (reflog_rank a) (reflog_rank b) }
{
    a.cmp(&b)
}

/// Loose references are equal where name and target are.
pub fn same_loose_references(a: &Reference, b: &Reference) -> bool
    ensures { IsTrue result ↔ SameLoose a.now b.now }
{
    a == b
}

/// Loose references are ordered by their names, and then by their targets.
pub fn order_loose_references(a: &Reference, b: &Reference) -> Ordering
    ensures { result ≡ loose_cmp a.now b.now }
{
    a.cmp(b)
}
