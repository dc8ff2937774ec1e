//! Whether a store is as `git init` makes it.
use crate::file::iter::prefix_of_all;
use crate::file::settings::settings;
use crate::file::store::Store;
use gix_ref_files::files::Files;
use gix_ref_listing::pristine::is_pristine;
use gix_ref_name::name::FullNameRef;
use std::alloc::{AllocError, Global};

impl<F: Files> Store<F> {
    ghost use Rattle.std.specs.Prelude.{IfOk};
    ghost use Rattle.gix_ref_name.specs.Names.{full_ref_bytes};
    ghost use Rattle.gix_ref_store.specs.Lookup.{LooksUp};
    ghost use Rattle.gix_ref_store.specs.Pristine.{SaysIfPristine};

    /// Whether the store is as `git init` makes it: `HEAD` is symbolic to this name, no loose reference below `refs/`, or in a
    /// namespace anywhere in it, can be read, and there is no `packed-refs`. `None` where `HEAD` cannot be read, and where a
    /// folder could not be listed or a file not be read. The error reports that there was no memory. As gix-ref's
    /// `file::Store::is_pristine`.
    ///
    /// Reads `HEAD`. Where it is symbolic to the name and there is no `packed-refs`, lists the folders of the loose references,
    /// and reads these up to the first that holds a target.
    ///
    /// ```text
    /// let main = FullNameRef::try_from("refs/heads/main")?;
    /// if store.is_pristine(alloc, main)? == Some(true) {
    ///     println!(rt; "no commits yet")?;
    /// }
    /// ```
    pub fn is_pristine(
        &mut self,
        alloc: Global,
        default_ref: FullNameRef<'_>,
    ) -> Result<Option<bool>, AllocError>
        ensures says { IfOk result (SaysIfPristine F.honest F.means F.faults self.old self.new
            (full_ref_bytes default_ref.entry)) }
        ensures unchanged { LooksUp F.honest F.means self.old self.new }
    {
        let settings = settings!(self);
        let prefix = prefix_of_all(&self.namespace);
        is_pristine(alloc, &mut self.files, settings, prefix, default_ref)
    }
}
