//! The reflogs of a store (`git reflog`).
ghost use Rattle.std.specs.Prelude.{◌≡◌};

use crate::file::settings::settings;
use crate::file::store::Store;
use gix_ref_files::files::Files;
use gix_ref_log::log::iter::{Forward, Reverse, forward, reverse};
pub use gix_ref_lookup::reflog::Error;
use gix_ref_lookup::reflog::{log_exists, open_log, read_log};
use gix_ref_name::name::FullNameRef;
pub use gix_ref_reflog::create_or_update;
use std::alloc::Global;

/// How many bytes `Platform::rev` keeps of a log in memory, which is the length of the longest line that it gives.
const REVERSE_BUFFER: usize = 4096;

impl<F: Files> Store<F> {
    ghost use Rattle.std.specs.Prelude.{◌≡◌, length, false, IfOk, IfSome, IfErr, OnOk};
    ghost use Rattle.gix_ref_name.specs.Names.{full_ref_bytes};
    ghost use Rattle.gix_ref_files.specs.Tree.{is_file};
    ghost use Rattle.gix_ref_lookup.specs.Reflogs.{count_log};
    ghost use Rattle.gix_ref_store.specs.Store.{files_of};
    ghost use Rattle.gix_ref_store.specs.Lookup.{LooksUp};
    ghost use Rattle.gix_ref_store.specs.Reflogs.{reflog_at, is_log_prohibited, ReadsForward, ReadsBackward, IsNoReflog, IsNoReverse, EndsAtErrors};

    /// Whether a reference has a reflog: a file at the path of its log (`git reflog exists`). One call of files. As
    /// gix-ref's `file::Store::reflog_exists`.
    ///
    /// `Io` where that cannot be found out, `DeviceName` where a component of the path is the name of a Windows device and
    /// the store prohibits these, `Memory` where there was none for the path.
    ///
    /// ```text
    /// if store.reflog_exists(alloc, FullNameRef::try_from("refs/heads/main")?)? { .. }
    /// ```
    pub fn reflog_exists(&mut self, alloc: Global, name: FullNameRef<'_>) -> Result<bool, Error>
        ensures exists { F.honest → IfOk result
            (λ exists. exists ≡ is_file (reflog_at F.means self.old (full_ref_bytes name.entry))) }
        ensures allowed { OnOk result
            (is_log_prohibited self.old (full_ref_bytes name.entry) ≡ false) }
        ensures failed { IfErr result (IsNoReflog self.old (full_ref_bytes name.entry)) }
        ensures count { F.faults (files_of self.new)
            ≡ count_log result (F.faults (files_of self.old)) }
        ensures unchanged { LooksUp F.honest F.means self.old self.new }
    {
        let settings = settings!(self);
        log_exists(alloc, &mut self.files, settings, name)
    }

    /// The lines of the reflog of a reference, oldest first, from the buffer, whose content is replaced with the whole
    /// log; `None` where the reference has no log. A line that cannot be decoded is an item with its number. As
    /// gix-ref's `file::Store::reflog_iter` (`git reflog`).
    ///
    /// `Io` where the log cannot be read, `DeviceName` where a component of its path is the name of a Windows device and the
    /// store prohibits these, `Memory` where there was none for the path or the log.
    ///
    /// ```text
    /// let mut buf = Vec::new(alloc);
    /// if let Some(lines) = store.reflog_iter(alloc, name, &mut buf)? {
    ///     for line in lines {
    ///         println!(rt; "{}", line?.new_oid())?;
    ///     }
    /// }
    /// ```
    pub fn reflog_iter<'b>(
        &mut self,
        alloc: Global,
        name: FullNameRef<'_>,
        buf: &'b mut Vec<u8>,
    ) -> Result<Option<Forward<'b>>, Error>
        ensures lines { F.honest → IfOk result
            (ReadsForward (reflog_at F.means self.old (full_ref_bytes name.entry))) }
        ensures allowed { OnOk result
            (is_log_prohibited self.old (full_ref_bytes name.entry) ≡ false) }
        ensures failed { IfErr result (IsNoReflog self.old (full_ref_bytes name.entry)) }
        ensures count { F.faults (files_of self.new)
            ≡ count_log result (F.faults (files_of self.old)) }
        ensures unchanged { LooksUp F.honest F.means self.old self.new }
    {
        let settings = settings!(self);
        if read_log(alloc, &mut self.files, settings, name, buf)? {
            Ok(Some(forward(buf)))
        } else {
            Ok(None)
        }
    }

    /// The lines of the reflog of a reference, newest first, through the buffer, whose length in bytes is the limit of a line
    /// and its line feed; `None` where the reference has no log, whatever the buffer. Reads as much of the file as its lines
    /// ask for (`git log -g`). As gix-ref's `file::Store::reflog_iter_rev`.
    ///
    /// `EmptyBuffer` where there is a log and the buffer has no byte, `Io` where the log cannot be opened, `DeviceName` where a
    /// component of its path is the name of a Windows device and the store prohibits these, `Memory` where there was none for
    /// the path.
    ///
    /// ```text
    /// let mut buf = [0; 4096];
    /// if let Some(lines) = store.reflog_iter_rev(alloc, name, &mut buf)? {
    ///     for line in lines {
    ///         println!(rt; "{}", line?.new_oid)?; // the newest first
    ///     }
    /// }
    /// ```
    pub fn reflog_iter_rev<'b>(
        &mut self,
        alloc: Global,
        name: FullNameRef<'_>,
        buf: &'b mut [u8],
    ) -> Result<Option<Reverse<'b, F::Reader>>, Error>
        ensures lines { F.honest → IfOk result (ReadsBackward F.Reader.ReadAt
            (reflog_at F.means self.old (full_ref_bytes name.entry)) (length buf.old)) }
        ensures ends { IfOk result (EndsAtErrors F.Reader.ReadAt) }
        ensures same_reference { IfOk result
            (λ r. IfSome r (λ lines. lines.buf.ghost_name ≡ buf.entry.ghost_name)) }
        ensures allowed { OnOk result
            (is_log_prohibited self.old (full_ref_bytes name.entry) ≡ false) }
        ensures failed { IfErr result (IsNoReverse F.honest (reflog_at F.means self.old
            (full_ref_bytes name.entry)) (length buf.old) self.old (full_ref_bytes name.entry)) }
        ensures count { F.faults (files_of self.new)
            ≡ count_log result (F.faults (files_of self.old)) }
        ensures unchanged { LooksUp F.honest F.means self.old self.new }
    {
        let settings = settings!(self);
        match open_log(alloc, &mut self.files, settings, name)? {
            None => Ok(None),
            Some(reader) => match reverse(alloc, reader, buf) {
                Ok(lines) => Ok(Some(lines)),
                Err(error) => Err(Error::from(error)),
            },
        }
    }
}

/// The reflog of a reference: a store, a name, and a buffer for what is read. Each of its calls reads the log anew. As
/// gix-ref's `file::log::iter::Platform`.
#[derive(Drop)]
pub struct Platform<'a, 's, F> {
    /// The store of the reference.
    pub store: &'s mut Store<F>,
    /// The full name of the reference.
    pub name: FullNameRef<'a>,
    /// What was read of the log.
    pub buf: Vec<u8>,
}

impl<F: Files> Platform<'_, '_, F> {
    ghost use Rattle.std.specs.Prelude.{◌≡◌, IfOk, IfErr, OnOk, false};
    ghost use Rattle.gix_ref_name.specs.Names.{full_ref_bytes};
    ghost use Rattle.gix_ref_store.specs.Reflogs.{reflog_at, is_log_prohibited, ReadsForward, ReadsBackward, LeavesNoReflog, EndsAtErrors};

    /// The lines of the log, oldest first; `None` where the reference has no log. As `Store::reflog_iter`, with its errors, and as
    /// gix-ref's `Platform::all`.
    ///
    /// ```text
    /// let mut platform = reference.log_iter(alloc, &mut store);
    /// if let Some(lines) = platform.all(alloc)? { .. }
    /// ```
    pub fn all(&mut self, alloc: Global) -> Result<Option<Forward<'_>>, Error>
        ensures lines { F.honest → IfOk result
            (ReadsForward (reflog_at F.means self.old.store.now (full_ref_bytes self.old.name))) }
        ensures allowed { OnOk result
            (is_log_prohibited self.old.store.now (full_ref_bytes self.old.name) ≡ false) }
        ensures failed { IfErr result (LeavesNoReflog F.honest F.means F.faults
            self.old.store.now (full_ref_bytes self.old.name)) }
    {
        let Platform { store, name, buf } = self;
        store.reflog_iter(alloc, *name, buf)
    }

    /// The lines of the log, newest first, through 4,096 bytes of the buffer; `None` where the reference has no log. As
    /// `Store::reflog_iter_rev`, with its errors but `EmptyBuffer`. As gix-ref's `Platform::rev`.
    ///
    /// ```text
    /// let mut platform = reference.log_iter(alloc, &mut store);
    /// if let Some(lines) = platform.rev(alloc)? {
    ///     for line in lines {
    ///         println!(rt; "{}", line?.new_oid)?; // the newest first
    ///     }
    /// }
    /// ```
    pub fn rev(&mut self, alloc: Global) -> Result<Option<Reverse<'_, F::Reader>>, Error>
        ensures lines { F.honest → IfOk result (ReadsBackward F.Reader.ReadAt
            (reflog_at F.means self.old.store.now (full_ref_bytes self.old.name)) 4096) }
        ensures ends { IfOk result (EndsAtErrors F.Reader.ReadAt) }
        ensures allowed { OnOk result
            (is_log_prohibited self.old.store.now (full_ref_bytes self.old.name) ≡ false) }
        ensures failed { IfErr result (LeavesNoReflog F.honest F.means F.faults
            self.old.store.now (full_ref_bytes self.old.name)) }
    {
        let Platform { store, name, buf } = self;
        buf.clear();
        buf.resize(REVERSE_BUFFER, 0)?;
        store.reflog_iter_rev(alloc, *name, buf)
    }
}
