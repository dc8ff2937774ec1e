//! Where the names of a store are kept: its folders, with its namespace.
ghost use Rattle.std.specs.Prelude.{◌≡◌};
ghost use Rattle.gix_ref_target.specs.RefLayout.{layout_of};
ghost use Rattle.gix_ref_lookup.specs.StoreLayout.{folders_of, namespace_text};

use crate::folders::Dirs;
use gix_ref_name::namespace::Namespace;
use gix_ref_target::layout::RefLayout;

/// The text of the namespace, or nothing.
fn text_of(namespace: &Option<Namespace>) -> &[u8]
    ensures { result.now ≡ namespace_text namespace.now }
{
    match namespace {
        Some(namespace) => namespace.to_path(),
        None => b"",
    }
}

/// Where names are kept in these folders and in this namespace.
pub fn layout_in<'a>(dirs: &'a Dirs, namespace: &'a Option<Namespace>) -> RefLayout<'a>
    ensures { layout_of result ≡ folders_of dirs.now namespace.now }
{
    RefLayout {
        git_dir: &dirs.git_dir,
        common_dir: dirs.common(),
        namespace: text_of(namespace),
    }
}
