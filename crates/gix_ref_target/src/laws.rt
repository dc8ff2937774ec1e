//! The order and the equality of names, categories and targets, each stated by a short caller: what `==` and `cmp`
//! return.
ghost use Rattle.std.specs.Prelude.{◌≡◌, ◌↔◌, IsTrue};
ghost use Rattle.std.specs.Ordering.{nat_cmp};
ghost use Rattle.std.specs.Cmp.Lexicographic.{slice_cmp};
ghost use Rattle.gix_ref_name.specs.Names.{full_ref_bytes, full_bytes, partial_ref_bytes, partial_bytes};
ghost use Rattle.gix_ref_name.specs.Namespaces.{namespace_bytes};
ghost use Rattle.gix_ref_name.specs.Categories.{SameCategory};
ghost use Rattle.gix_ref_target.specs.Targets.{target_value, target_ref_value};
ghost use Rattle.gix_ref_target.specs.Orders.{category_cmp, target_kind_rank, target_cmp};

use crate::target::{Kind, Target, TargetRef};
use gix_ref_name::name::{Category, FullName, FullNameRef, PartialName, PartialNameRef};
use gix_ref_name::namespace::Namespace;
use std::cmp::Ordering;

/// Full names are equal where their bytes are.
pub fn same_views(a: FullNameRef<'_>, b: FullNameRef<'_>) -> bool
    ensures { IsTrue result ↔ (full_ref_bytes a.entry ≡ full_ref_bytes b.entry) }
{
    a == b
}

/// Full names are ordered by their bytes.
pub fn order_views(a: FullNameRef<'_>, b: FullNameRef<'_>) -> Ordering
    ensures { result ≡ slice_cmp nat_cmp (full_ref_bytes a.entry) (full_ref_bytes b.entry) }
{
    a.cmp(&b)
}

/// Partial names are equal where their bytes are.
pub fn same_partial_views(a: PartialNameRef<'_>, b: PartialNameRef<'_>) -> bool
    ensures { IsTrue result ↔ (partial_ref_bytes a.entry ≡ partial_ref_bytes b.entry) }
{
    a == b
}

/// Partial names are ordered by their bytes.
pub fn order_partial_views(a: PartialNameRef<'_>, b: PartialNameRef<'_>) -> Ordering
    ensures { result ≡ slice_cmp nat_cmp (partial_ref_bytes a.entry) (partial_ref_bytes b.entry) }
{
    a.cmp(&b)
}

/// Owned full names are equal where their bytes are.
pub fn same_names(a: &FullName, b: &FullName) -> bool
    ensures { IsTrue result ↔ (full_bytes a.now ≡ full_bytes b.now) }
{
    a == b
}

/// Owned full names are ordered by their bytes.
pub fn order_names(a: &FullName, b: &FullName) -> Ordering
    ensures { result ≡ slice_cmp nat_cmp (full_bytes a.now) (full_bytes b.now) }
{
    a.cmp(b)
}

/// Owned partial names are equal where their bytes are.
pub fn same_partial_names(a: &PartialName, b: &PartialName) -> bool
    ensures { IsTrue result ↔ (partial_bytes a.now ≡ partial_bytes b.now) }
{
    a == b
}

/// Owned partial names are ordered by their bytes.
pub fn order_partial_names(a: &PartialName, b: &PartialName) -> Ordering
    ensures { result ≡ slice_cmp nat_cmp (partial_bytes a.now) (partial_bytes b.now) }
{
    a.cmp(b)
}

/// Namespaces are equal where their bytes are.
pub fn same_namespaces(a: &Namespace, b: &Namespace) -> bool
    ensures { IsTrue result ↔ (namespace_bytes a.now ≡ namespace_bytes b.now) }
{
    a == b
}

/// Namespaces are ordered by their bytes.
pub fn order_namespaces(a: &Namespace, b: &Namespace) -> Ordering
    ensures { result ≡ slice_cmp nat_cmp (namespace_bytes a.now) (namespace_bytes b.now) }
{
    a.cmp(b)
}

/// Categories are equal where the variant and the name of the linked worktree are.
pub fn same_categories(a: Category<'_>, b: Category<'_>) -> bool
    ensures { IsTrue result ↔ SameCategory a.entry b.entry }
{
    a == b
}

/// Categories are ordered as the variants are declared, and then by the name of the linked worktree.
pub fn order_categories(a: Category<'_>, b: Category<'_>) -> Ordering
    ensures { result ≡ category_cmp a.entry b.entry }
{
    a.cmp(&b)
}

/// Objects come before symbolic targets.
pub fn order_target_kinds(a: Kind, b: Kind) -> Ordering
    ensures { result ≡ nat_cmp (target_kind_rank a) (target_kind_rank b) }
{
    a.cmp(&b)
}

/// Targets are equal where both are objects with one id or both are symbolic with one name.
pub fn same_targets(a: &Target, b: &Target) -> bool
    ensures { IsTrue result ↔ (target_value a.now ≡ target_value b.now) }
{
    a == b
}

/// Objects come first, by their ids; then symbolic targets, by their names.
pub fn order_targets(a: &Target, b: &Target) -> Ordering
    ensures { result ≡ target_cmp (target_value a.now) (target_value b.now) }
{
    a.cmp(b)
}

/// Lent targets are equal where both are objects with one id or both are symbolic with one name.
pub fn same_target_views(a: TargetRef<'_>, b: TargetRef<'_>) -> bool
    ensures { IsTrue result ↔ (target_ref_value a.entry ≡ target_ref_value b.entry) }
{
    a == b
}

/// Lent objects come first, by their ids; then symbolic targets, by their names.
pub fn order_target_views(a: TargetRef<'_>, b: TargetRef<'_>) -> Ordering
    ensures { result ≡ target_cmp (target_ref_value a.entry) (target_ref_value b.entry) }
{
    a.cmp(&b)
}
