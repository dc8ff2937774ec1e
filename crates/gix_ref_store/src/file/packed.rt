//! The `packed-refs` of a store (`git pack-refs`).
use crate::file::settings::settings;
use crate::file::store::Store;
use gix_ref_files::files::Files;
use gix_ref_listing::prefixed_records::open_prefixed;
use gix_ref_packed::packed::Buffer;
use gix_ref_packed::packed::buffer::open::Error;
use std::alloc::Global;

impl<F> Store<F> {
    ghost use Rattle.std.specs.Prelude.{◌≡◌};
    ghost use Rattle.gix_ref_store.specs.Store.{threshold_of, with_threshold};

    /// Keeps a new threshold, in bytes, and returns the one before; it is 32,768 at first. Other stores map `packed-refs` into
    /// memory from that size on; this one reads it, so the threshold has no other effect. As gix-ref's
    /// `file::Store::set_packed_buffer_mmap_threshold`.
    pub fn set_packed_buffer_mmap_threshold(&mut self, threshold: u64) -> u64
        ensures before { result ≡ threshold_of self.old }
        ensures kept { self.new ≡ with_threshold self.old threshold }
    {
        let before = self.packed_mmap_threshold;
        self.packed_mmap_threshold = threshold;
        before
    }
}

impl<F: Files> Store<F> {
    ghost use Rattle.std.specs.Prelude.{◌≡◌, List, IfOk, IfErr, OnOk, Err, is_some};
    ghost use Rattle.gix_ref_target.specs.PackedRecords.{Record};
    ghost use Rattle.gix_ref_files.specs.Tree.{is_file};
    ghost use Rattle.gix_ref_packed.specs.Buffers.{count_open};
    ghost use Rattle.gix_ref_packed.specs.OpenFiles.{CountsRefusal};
    ghost use Rattle.gix_ref_listing.specs.PrefixedRecords.{HoldsAskedOf};
    ghost use Rattle.gix_ref_listing.specs.WholeListings.{key_in};
    ghost use Rattle.gix_ref_lookup.specs.Lookups.{packed_refs_in};
    ghost use Rattle.gix_ref_store.specs.Store.{files_of, kind_of};
    ghost use Rattle.gix_ref_store.specs.Listings.{IsReadFor};
    ghost use Rattle.gix_ref_store.specs.Lookup.{settings_of, CanBeOpened, LooksUp, OpensBuffer, RefusesBuffer, AreRecordsIn, packed_refs_at};

    /// The `packed-refs` of the store in memory; `None` where there is no such file. `Io` where it cannot be read,
    /// `HeaderParsing` where it begins with `#` and has no header, `Iter` at the first line that is no record where the records
    /// are to be sorted, and `Memory`. The file is read once, as a whole. As gix-ref's
    /// `file::Store::open_packed_buffer`.
    ///
    /// ```text
    /// if let Some(packed) = store.open_packed_buffer(alloc)? {
    ///     for record in packed.iter() {
    ///         println!(rt; "{}", record?.name)?;
    ///     }
    /// }
    /// ```
    pub fn open_packed_buffer(&mut self, alloc: Global) -> Result<Option<Buffer>, Error>
        ensures opened { F.honest → IfOk result (OpensBuffer F.means self.old) }
        ensures refused { F.honest → IfErr result (RefusesBuffer F.means self.old) }
        ensures count { F.faults (files_of self.new)
            ≡ count_open result (F.faults (files_of self.old)) }
        ensures unchanged { LooksUp F.honest F.means self.old self.new }
    {
        let path = match self.packed_refs_path(alloc) {
            Ok(path) => path,
            Err(_) => return Err(Error::Memory),
        };
        Buffer::open(
            alloc,
            &mut self.files,
            &path,
            self.packed_mmap_threshold,
            self.object_hash,
        )
    }

    /// As `open_packed_buffer`, and with its errors: the file is read anew each time. As gix-ref's
    /// `file::Store::cached_packed_buffer`, which keeps it.
    pub fn cached_packed_buffer(&mut self, alloc: Global) -> Result<Option<Buffer>, Error>
        ensures opened { F.honest → IfOk result (OpensBuffer F.means self.old) }
        ensures refused { F.honest → IfErr result (RefusesBuffer F.means self.old) }
        ensures count { F.faults (files_of self.new)
            ≡ count_open result (F.faults (files_of self.old)) }
        ensures unchanged { LooksUp F.honest F.means self.old self.new }
    {
        self.open_packed_buffer(alloc)
    }

    /// The records of the `packed-refs` of the store whose names begin with the prefix, for `iter_prefixed_packed` of that
    /// prefix; other records may be among them. `None` where there is no such file. Of a file whose header says `sorted` only
    /// the lines of these records are read, and the few that halving looks at; any other file is read as a whole. The errors are
    /// those of `open_packed_buffer`. Not in gix-ref.
    ///
    /// ```text
    /// let packed = store.open_packed_prefixed(alloc, b"refs/tags/")?;
    /// for tag in store.iter_prefixed_packed(alloc, b"refs/tags/", packed.as_ref())? {
    ///     println!(rt; "{}", tag?.name)?;
    /// }
    /// ```
    pub fn open_packed_prefixed(
        &mut self,
        alloc: Global,
        prefix: &[u8],
    ) -> Result<Option<Buffer>, Error>
        ensures holds { F.honest → (records : List Record) → AreRecordsIn F.means self.old records →
            IfOk result (λ found. IsReadFor self.old prefix.now found records) }
        ensures asked { F.honest → IfOk result (HoldsAskedOf (kind_of self.old)
            (packed_refs_in (settings_of self.old) (F.means (files_of self.old)))
            (key_in (settings_of self.old) prefix.now)) }
        ensures there { F.honest → IfOk result
            (λ found. is_some found ≡ is_file (packed_refs_at F.means self.old)) }
        ensures refused { F.honest → IfErr result (RefusesBuffer F.means self.old) }
        ensures no_fault { OnOk result (F.faults (files_of self.new)
            ≡ F.faults (files_of self.old)) }
        ensures failed { F.honest → IfErr result (CountsRefusal F.Reader.faults
            (F.faults (files_of self.old)) (F.faults (files_of self.new))) }
        ensures unchanged { LooksUp F.honest F.means self.old self.new }
    {
        let settings = settings!(self);
        open_prefixed(alloc, &mut self.files, settings, prefix)
    }

    /// Tries to open the `packed-refs` of the store, and keeps nothing of it: the errors are those of `open_packed_buffer`.
    /// As gix-ref's `file::Store::force_refresh_packed_buffer`.
    pub fn force_refresh_packed_buffer(&mut self, alloc: Global) -> Result<(), Error>
        ensures opened { F.honest → OnOk result (CanBeOpened F.means self.old) }
        ensures refused { F.honest → IfErr result (RefusesBuffer F.means self.old) }
        ensures count { IfErr result (λ error. F.faults (files_of self.new)
            ≡ count_open (Err error) (F.faults (files_of self.old))) }
        ensures no_fault { OnOk result (F.faults (files_of self.new)
            ≡ F.faults (files_of self.old)) }
        ensures unchanged { LooksUp F.honest F.means self.old self.new }
    {
        match self.open_packed_buffer(alloc) {
            Ok(_packed) => Ok(()),
            Err(error) => Err(error),
        }
    }
}
