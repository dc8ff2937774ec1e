//! The reflogs of loose references in a store (`git reflog`).
use crate::sealed::Sealed;
use gix_ref_files::files::Files;
use gix_ref_log::log::iter::{Forward, Reverse};
use gix_ref_lookup::loose::Reference;
use gix_ref_store::file::{Store, log};
use std::alloc::Global;

impl Sealed for Reference {}

/// The reflog of a loose reference in a store.
pub trait LooseReferenceExt: Sealed {
    /// Whether the reference has a reflog. As `Store::reflog_exists`, and as gix-ref's
    /// `file::loose::Reference::log_exists`.
    fn log_exists<F: Files>(&self, alloc: Global, store: &mut Store<F>) -> Result<bool, log::Error>;

    /// The lines of its reflog, oldest first, from the buffer, into which the whole log is read; `None` where it has none. As
    /// `Store::reflog_iter`. As gix-ref's `file::loose::Reference::log_iter`.
    fn log_iter<'b, F: Files>(
        &self,
        alloc: Global,
        store: &mut Store<F>,
        buf: &'b mut Vec<u8>,
    ) -> Result<Option<Forward<'b>>, log::Error>;

    /// The lines of its reflog, newest first, through the buffer, whose length in bytes is the limit of a line and its line
    /// feed; `None` where it has none. As `Store::reflog_iter_rev`, and as gix-ref's
    /// `file::loose::Reference::log_iter_rev`.
    fn log_iter_rev<'b, F: Files>(
        &self,
        alloc: Global,
        store: &mut Store<F>,
        buf: &'b mut [u8],
    ) -> Result<Option<Reverse<'b, F::Reader>>, log::Error>;
}

impl LooseReferenceExt for Reference {
    ghost use Rattle.std.specs.Prelude.{◌≡◌, IfOk, IfErr, IfSome, OnOk, false, length};
    ghost use Rattle.gix_ref_name.specs.Names.{full_bytes};
    ghost use Rattle.gix_ref_files.specs.Tree.{is_file};
    ghost use Rattle.gix_ref_lookup.specs.Reflogs.{count_log};
    ghost use Rattle.gix_ref_store.specs.Lookup.{LooksUp};
    ghost use Rattle.gix_ref_store.specs.Reflogs.{reflog_at, is_log_prohibited, ReadsForward, ReadsBackward, IsNoReflog, IsNoReverse, EndsAtErrors};
    ghost use Rattle.gix_ref_store.specs.Store.{files_of};

    fn log_exists<F: Files>(&self, alloc: Global, store: &mut Store<F>) -> Result<bool, log::Error>
        ensures exists { F.honest → IfOk result
            (λ exists. exists ≡ is_file (reflog_at F.means store.old (full_bytes self.now.name))) }
        ensures allowed { OnOk result
            (is_log_prohibited store.old (full_bytes self.now.name) ≡ false) }
        ensures failed { IfErr result (IsNoReflog store.old (full_bytes self.now.name)) }
        ensures count { F.faults (files_of store.new)
            ≡ count_log result (F.faults (files_of store.old)) }
        ensures unchanged { LooksUp F.honest F.means store.old store.new }
    {
        store.reflog_exists(alloc, self.name.as_ref())
    }

    fn log_iter<'b, F: Files>(
        &self,
        alloc: Global,
        store: &mut Store<F>,
        buf: &'b mut Vec<u8>,
    ) -> Result<Option<Forward<'b>>, log::Error>
        ensures lines { F.honest → IfOk result
            (ReadsForward (reflog_at F.means store.old (full_bytes self.now.name))) }
        ensures allowed { OnOk result
            (is_log_prohibited store.old (full_bytes self.now.name) ≡ false) }
        ensures failed { IfErr result (IsNoReflog store.old (full_bytes self.now.name)) }
        ensures count { F.faults (files_of store.new)
            ≡ count_log result (F.faults (files_of store.old)) }
        ensures unchanged { LooksUp F.honest F.means store.old store.new }
    {
        store.reflog_iter(alloc, self.name.as_ref(), buf)
    }

    fn log_iter_rev<'b, F: Files>(
        &self,
        alloc: Global,
        store: &mut Store<F>,
        buf: &'b mut [u8],
    ) -> Result<Option<Reverse<'b, F::Reader>>, log::Error>
        ensures lines { F.honest → IfOk result (ReadsBackward F.Reader.ReadAt
            (reflog_at F.means store.old (full_bytes self.now.name)) (length buf.old)) }
        ensures ends { IfOk result (EndsAtErrors F.Reader.ReadAt) }
        ensures same_reference { IfOk result
            (λ r. IfSome r (λ lines. lines.buf.ghost_name ≡ buf.entry.ghost_name)) }
        ensures allowed { OnOk result
            (is_log_prohibited store.old (full_bytes self.now.name) ≡ false) }
        ensures failed { IfErr result (IsNoReverse F.honest (reflog_at F.means store.old
            (full_bytes self.now.name)) (length buf.old) store.old (full_bytes self.now.name)) }
        ensures count { F.faults (files_of store.new)
            ≡ count_log result (F.faults (files_of store.old)) }
        ensures unchanged { LooksUp F.honest F.means store.old store.new }
    {
        store.reflog_iter_rev(alloc, self.name.as_ref(), buf)
    }
}
