//! Finding references (`gitrevisions`), over files and the settings of a store.
ghost use Rattle.std.specs.Prelude.{◌≡◌};
ghost use Rattle.gix_ref_target.specs.Targets.{target_value, stripped_target};
ghost use Rattle.gix_ref_lookup.specs.StoreLayout.{namespace_text};

pub mod candidate;
pub mod composed;
mod error;
pub mod existing;
pub mod lookup;
pub mod loose;
pub mod records;

pub use error::{Error, ReadError};
use gix_ref_name::namespace::Namespace;
use gix_ref_target::target::Target;

/// Takes the namespace off a symbolic target.
pub fn strip(target: &mut Target, namespace: &Option<Namespace>)
    ensures { target_value target.new ≡ stripped_target (namespace_text namespace.now)
        (target_value target.old) }
{
    if let Some(namespace) = namespace {
        target.strip_namespace(namespace);
    }
}
