//! The namespace that a name expands to.
ghost use Rattle.std.specs.Prelude.{◌≡◌, ◌++◌, IfOk, OnOk};
ghost use Rattle.gix_ref_name.specs.Names.{partial_ref_bytes};
ghost use Rattle.gix_ref_name.specs.Namespaces.{namespace_bytes, expanded, expanded_component};

use crate::name::PartialNameRef;
use crate::namespace::Namespace;
use gix_ref_hash::bytes::split_component;
use std::alloc::{AllocError, Global};

/// Adds `refs/namespaces/`, the component and a slash.
fn push_component(bytes: &mut Vec<u8>, component: &[u8]) -> Result<(), AllocError>
    ensures { OnOk result (bytes.new.items ≡ bytes.old.items ++ expanded_component component.now) }
{
    bytes.extend_from_slice(b"refs/namespaces/")?;
    bytes.extend_from_slice(component)?;
    bytes.extend_from_slice(b"/")?;
    Ok(())
}

/// The namespace of a name, as `git --namespace` expands it: `refs/namespaces/`, the component and a slash for each
/// component, so that `foo/bar` gives `refs/namespaces/foo/refs/namespaces/bar/`. The error says that there was no
/// memory. As gix-ref's `namespace::expand`.
///
/// ```text
/// store.namespace = Some(expand(alloc, PartialNameRef::try_from("fork")?)?); // refs/namespaces/fork/
/// ```
pub fn expand(alloc: Global, namespace: PartialNameRef<'_>) -> Result<Namespace, AllocError>
    ensures { IfOk result (λ n. namespace_bytes n ≡ expanded (partial_ref_bytes namespace.entry)) }
{
    let mut bytes = Vec::new(alloc);
    let mut rest = namespace.to_partial_path();
    while let Some((component, after)) = split_component(rest) {
        push_component(&mut bytes, component)?;
        rest = after;
    }
    push_component(&mut bytes, rest)?;
    Ok(Namespace { bytes })
}
