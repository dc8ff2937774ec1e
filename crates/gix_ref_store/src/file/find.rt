//! Finding references (`gitrevisions`).
ghost use Rattle.std.specs.Prelude.{◌≡◌};
ghost use Rattle.gix_ref_name.specs.Names.{partial_ref_bytes};
ghost use Rattle.gix_ref_store.specs.Lookup.{IsNotFound};

use crate::file::settings::settings;
use crate::file::store::Store;
use crate::raw::Reference;
use gix_ref_files::files::Files;
use gix_ref_lookup::find::composed::find_reference;
use gix_ref_lookup::find::lookup::Lookup;
pub use gix_ref_lookup::find::records::Records;
pub use gix_ref_lookup::find::{Error, ReadError, existing};
use gix_ref_lookup::loose;
use gix_ref_name::name::{FullNameRef, PartialNameRef};
use gix_ref_packed::packed::Buffer;
use std::alloc::Global;

/// No reference of the name was found; or there was no memory for the name.
fn not_found(alloc: Global, partial: PartialNameRef<'_>) -> existing::Error
    ensures { IsNotFound (partial_ref_bytes partial.entry) result }
{
    match partial.to_owned(alloc) {
        Ok(name) => existing::Error::NotFound { name },
        Err(_) => existing::Error::Find(Error::Memory),
    }
}

impl<F: Files> Store<F> {
    ghost use Rattle.std.specs.Prelude.{◌≡◌, List, Some, IfOk, IfErr, IfNone, OnOk, MatchResult, true, false, is_some};
    ghost use Rattle.gix_ref_name.specs.Names.{full_ref_bytes, partial_ref_bytes};
    ghost use Rattle.gix_ref_target.specs.PackedRecords.{Record};
    ghost use Rattle.gix_ref_lookup.specs.Lookups.{IsSound, AreHonest};
    ghost use Rattle.gix_ref_lookup.specs.declared.find.records.Records.TheVariants.{Unopened};
    ghost use Rattle.gix_ref_store.specs.Lookup.{AreRecordsIn, AreAskedIn, AreHeld, held, composes_in, FindsBy, FindsAmong, FindsExisting, FindsFull, FindsHeld, FindsLoose, SeesFull, SeesIn, SeesExisting, SeesNothing, FailsBy, FailsFull, FailsIn, MissesIn, MissesLoose, LooksUp, AreStillAskedIn, IfNotFound};

    /// Whether names are composed in a lookup.
    fn composes(&self, asks_records: bool) -> bool
        ensures { result ≡ composes_in asks_records self.now }
    {
        self.precompose_unicode && asks_records
    }

    /// The reference that a partial name is short for, where these records are asked.
    fn find_among(
        &mut self,
        alloc: Global,
        partial: PartialNameRef<'_>,
        asks_records: bool,
        asked: &mut Records<'_, F::Reader>,
    ) -> Result<Option<Reference>, Error>
        ensures found { F.honest → (records : List Record) →
            AreAskedIn F.means self.old asked.old records → MatchResult result
            (FindsBy F.means asks_records self.old records (partial_ref_bytes partial.entry))
            IsSound }
        ensures seen { F.honest → AreHonest asked.old → IfOk result
            (SeesIn F.means asks_records self.old asked.old (partial_ref_bytes partial.entry)) }
        ensures failed { FailsBy F.faults self.old self.new
            (FailsIn F.honest F.means F.faults asks_records self.old self.new asked.old
            (partial_ref_bytes partial.entry)) result }
        ensures asked { F.honest → OnOk result
            (AreStillAskedIn F.means self.old asked.old asked.new) }
        ensures unchanged { LooksUp F.honest F.means self.old self.new }
    {
        let composes = self.composes(asks_records);
        let settings = settings!(self);
        find_reference(alloc, &mut self.files, settings, composes, partial, asked)
    }

    /// As `find`, and with its errors, where these records are asked: a caller with many lookups keeps them, and `packed-refs` is opened
    /// at most once. Not in gix-ref.
    pub fn find_existing_among(
        &mut self,
        alloc: Global,
        partial: PartialNameRef<'_>,
        asks_records: bool,
        asked: &mut Records<'_, F::Reader>,
    ) -> Result<Reference, existing::Error>
        ensures found { F.honest → (records : List Record) →
            AreAskedIn F.means self.old asked.old records → FindsExisting F.means asks_records
            self.old records (partial_ref_bytes partial.entry) result }
        ensures seen { F.honest → AreHonest asked.old → SeesExisting F.means asks_records
            self.old asked.old (partial_ref_bytes partial.entry) result }
        ensures failed { FailsBy F.faults self.old self.new
            (MissesIn F.honest F.means F.faults asks_records self.old self.new asked.old
            (partial_ref_bytes partial.entry)) result }
        ensures asked { F.honest → OnOk result
            (AreStillAskedIn F.means self.old asked.old asked.new) }
        ensures unchanged { LooksUp F.honest F.means self.old self.new }
    {
        match self.find_among(alloc, partial, asks_records, asked) {
            Ok(Some(reference)) => Ok(reference),
            Ok(None) => Err(not_found(alloc, partial)),
            Err(error) => Err(existing::Error::Find(error)),
        }
    }

    /// Finds the reference that a partial name is short for (`gitrevisions`), in the namespace of the store: the first of its
    /// candidates that has a loose file, or else a record in `packed-refs`. `main` is looked for as `refs/main`,
    /// `refs/tags/main`, `refs/heads/main` and `refs/remotes/main`, and then as the loose file `refs/remotes/main/HEAD`; a name
    /// of only `A` to `Z` and underscores as itself first; a name below `refs/`, `main-worktree/` or `worktrees/` as itself,
    /// and then below `tags/`, `heads/` and `remotes/`. `None` where none is there. As gix-ref's
    /// `file::Store::try_find`.
    ///
    /// A loose reference has the candidate's name, a packed one the name of its record less the namespace. A symbolic target
    /// is less the namespace.
    ///
    /// With `precompose_unicode`, a name that is UTF-8 is looked for in Unicode's Normalization Form C, and where that is
    /// another name, the reference that is found has its name in Form D (`core.precomposeUnicode` of `git config`).
    ///
    /// `ReadFileContents` where a loose file cannot be read, or where its path has the name of a Windows device and the store
    /// prohibits these; `ReferenceCreation` where it holds no target; `PackedOpen` where `packed-refs` cannot be opened or
    /// read; `PackedRef` where a malformed line of it was met and nothing was found, or the record that was found cannot be
    /// read; `Memory`.
    ///
    /// Reads one file for each candidate, and the `HEAD` of a remote only where the remote has a folder. `packed-refs` is opened where
    /// the first candidate has no loose file, and searched by halving where its header says `sorted`: some seventeen reads of 1 KB among
    /// a million records.
    ///
    /// ```text
    /// if let Some(tag) = store.try_find(alloc, PartialNameRef::try_from("v1.0")?)? {
    ///     println!(rt; "{} {}", tag.target, tag.name)?; // the id, and refs/tags/v1.0
    /// }
    /// ```
    pub fn try_find(
        &mut self,
        alloc: Global,
        partial: PartialNameRef<'_>,
    ) -> Result<Option<Reference>, Error>
        ensures found { F.honest → (records : List Record) → AreRecordsIn F.means self.old records →
            MatchResult result
            (FindsAmong F.means self.old records (partial_ref_bytes partial.entry)) IsSound }
        ensures seen { F.honest → IfOk result (SeesIn {G = F.Reader.ReadAt} F.means true self.old
            Unopened (partial_ref_bytes partial.entry)) }
        ensures failed { FailsBy F.faults self.old self.new
            (FailsIn {G = F.Reader.ReadAt} F.honest F.means F.faults true
            self.old self.new Unopened (partial_ref_bytes partial.entry)) result }
        ensures unchanged { LooksUp F.honest F.means self.old self.new }
    {
        self.find_among(alloc, partial, true, &mut Records::Unopened)
    }

    /// As `try_find`, but where no reference is found this is `NotFound`, with the name; `Find` has the errors of `try_find`. As
    /// gix-ref's `file::Store::find`.
    ///
    /// ```text
    /// match store.find(alloc, PartialNameRef::try_from("main")?) {
    ///     Ok(branch) => println!(rt; "{} {}", branch.target, branch.name)?,
    ///     Err(existing::Error::NotFound { name }) => println!(rt; "no reference {name}")?,
    ///     Err(existing::Error::Find(error)) => return Err(error.into()),
    /// }
    /// ```
    pub fn find(
        &mut self,
        alloc: Global,
        partial: PartialNameRef<'_>,
    ) -> Result<Reference, existing::Error>
        ensures found { F.honest → (records : List Record) →
            AreRecordsIn F.means self.old records → FindsExisting F.means true
            self.old records (partial_ref_bytes partial.entry) result }
        ensures seen { F.honest → SeesExisting {G = F.Reader.ReadAt} F.means true
            self.old Unopened (partial_ref_bytes partial.entry) result }
        ensures failed { FailsBy F.faults self.old self.new
            (MissesIn {G = F.Reader.ReadAt} F.honest F.means F.faults true
            self.old self.new Unopened (partial_ref_bytes partial.entry)) result }
        ensures unchanged { LooksUp F.honest F.means self.old self.new }
    {
        match self.try_find(alloc, partial) {
            Ok(Some(reference)) => Ok(reference),
            Ok(None) => Err(not_found(alloc, partial)),
            Err(error) => Err(existing::Error::Find(error)),
        }
    }

    /// The reference of this full name, in the namespace of the store: by its loose file, or else by its record in `packed-refs`. Unlike
    /// `try_find` it looks for no other name that this one may be short for, and for the name as it is, also with `precompose_unicode`.
    /// `None` where there is no such reference. As `refs_read_raw_ref` of git. Not in gix-ref.
    ///
    /// The reference has this name; a packed one that is asked for below `main-worktree/` or `worktrees/` has the name of its record.
    /// The errors are those of `try_find`. Reads one file, and opens `packed-refs` only where there is no loose file.
    ///
    /// ```text
    /// match store.find_full(alloc, name.as_ref())? {
    ///     Some(branch) => println!(rt; "{}", branch.target)?,
    ///     None => println!(rt; "no reference {name}")?,
    /// }
    /// ```
    pub fn find_full(
        &mut self,
        alloc: Global,
        name: FullNameRef<'_>,
    ) -> Result<Option<Reference>, Error>
        ensures found { F.honest → (records : List Record) → AreRecordsIn F.means self.old records →
            MatchResult result (FindsFull F.means self.old records (full_ref_bytes name.entry))
            IsSound }
        ensures seen { F.honest → IfOk result (SeesFull {G = F.Reader.ReadAt} F.means self.old
            Unopened (full_ref_bytes name.entry)) }
        ensures failed { FailsBy F.faults self.old self.new
            (FailsFull {G = F.Reader.ReadAt} F.honest F.means F.faults
            self.old self.new Unopened (full_ref_bytes name.entry)) result }
        ensures unchanged { LooksUp F.honest F.means self.old self.new }
    {
        let settings = settings!(self);
        let mut records = Records::Unopened;
        let mut nothing_at = Vec::new(alloc);
        Lookup::new(
            alloc,
            &mut self.files,
            settings,
            &mut records,
            &mut nothing_at,
        )
        .find_candidate(name)
    }

    /// As `try_find`, among loose files alone: the name is looked for as it is, also with `precompose_unicode`. One read for each
    /// candidate. As gix-ref's `file::Store::try_find_loose`.
    ///
    /// `ReadFileContents`, `ReferenceCreation` and `Memory`, as of `try_find`.
    pub fn try_find_loose(
        &mut self,
        alloc: Global,
        partial: PartialNameRef<'_>,
    ) -> Result<Option<loose::Reference>, Error>
        ensures found { F.honest → MatchResult result
            (FindsLoose F.means self.old (partial_ref_bytes partial.entry)) IsSound }
        ensures missing { F.honest → IfOk result (λ r. IfNone r (SeesNothing {G = F.Reader.ReadAt}
            F.means false self.old Records.None (partial_ref_bytes partial.entry))) }
        ensures failed { FailsBy F.faults self.old self.new
            (FailsIn {G = F.Reader.ReadAt} F.honest F.means F.faults false
            self.old self.new Records.None (partial_ref_bytes partial.entry)) result }
        ensures unchanged { LooksUp F.honest F.means self.old self.new }
    {
        match self.find_among(alloc, partial, false, &mut Records::None) {
            Ok(Some(reference)) => Ok(Some(loose::Reference::from(reference))),
            Ok(None) => Ok(None),
            Err(error) => Err(error),
        }
    }

    /// As `find`, among loose files alone: `NotFound`, or `Find` with an error of `try_find_loose`. As gix-ref's
    /// `file::Store::find_loose`.
    ///
    /// ```text
    /// let head = store.find_loose(alloc, PartialNameRef::try_from("HEAD")?)?;
    /// println!(rt; "{}", head.target)?; // `ref: refs/heads/main`
    /// ```
    pub fn find_loose(
        &mut self,
        alloc: Global,
        partial: PartialNameRef<'_>,
    ) -> Result<loose::Reference, existing::Error>
        ensures found { F.honest → MatchResult result
            (λ r. FindsLoose F.means self.old (partial_ref_bytes partial.entry) (Some r))
            (MissesLoose F.means self.old (partial_ref_bytes partial.entry)) }
        ensures missing { F.honest → IfErr result (λ error. IfNotFound error
            (SeesNothing {G = F.Reader.ReadAt} F.means false self.old Records.None
            (partial_ref_bytes partial.entry))) }
        ensures failed { FailsBy F.faults self.old self.new
            (MissesIn {G = F.Reader.ReadAt} F.honest F.means F.faults
            false self.old self.new Records.None (partial_ref_bytes partial.entry)) result }
        ensures unchanged { LooksUp F.honest F.means self.old self.new }
    {
        match self.try_find_loose(alloc, partial) {
            Ok(Some(reference)) => Ok(reference),
            Ok(None) => Err(not_found(alloc, partial)),
            Err(error) => Err(existing::Error::Find(error)),
        }
    }

    /// As `try_find`, among the records of this buffer and not those of the file. Where it is `None` no records are asked, and
    /// the name is looked for as it is. So a caller who holds the buffer opens no file but loose ones. As
    /// gix-ref's `file::Store::try_find_packed`.
    ///
    /// `ReadFileContents`, `ReferenceCreation`, `PackedRef` and `Memory`, as of `try_find`.
    ///
    /// ```text
    /// let packed = store.open_packed_buffer(alloc)?;
    /// for name in names {
    ///     let found = store.try_find_packed(alloc, name, packed.as_ref())?;
    /// }
    /// ```
    pub fn try_find_packed(
        &mut self,
        alloc: Global,
        partial: PartialNameRef<'_>,
        packed: Option<&Buffer>,
    ) -> Result<Option<Reference>, Error>
        ensures found { F.honest → (records : List Record) →
            AreHeld packed.entry records → MatchResult result
            (FindsHeld F.means packed.entry self.old records (partial_ref_bytes partial.entry))
            IsSound }
        ensures seen { F.honest → IfOk result (SeesIn {G = F.Reader.ReadAt} F.means
            (is_some packed.entry) self.old (held packed.entry) (partial_ref_bytes partial.entry)) }
        ensures failed { FailsBy F.faults self.old self.new
            (FailsIn {G = F.Reader.ReadAt} F.honest F.means F.faults
            (is_some packed.entry) self.old self.new (held packed.entry)
            (partial_ref_bytes partial.entry)) result }
        ensures unchanged { LooksUp F.honest F.means self.old self.new }
    {
        match packed {
            Some(buffer) => { self.find_among(alloc, partial, true, &mut Records::Held(buffer)) }
            None => self.find_among(alloc, partial, false, &mut Records::None),
        }
    }

    /// As `find`, among the records of this buffer and not those of the file; among loose files alone where it is `None`:
    /// `NotFound`, or `Find` with an error of `try_find_packed`. As gix-ref's `file::Store::find_packed`.
    pub fn find_packed(
        &mut self,
        alloc: Global,
        partial: PartialNameRef<'_>,
        packed: Option<&Buffer>,
    ) -> Result<Reference, existing::Error>
        ensures found { F.honest → (records : List Record) → AreHeld packed.entry records →
            FindsExisting F.means (is_some packed.entry) self.old records
            (partial_ref_bytes partial.entry) result }
        ensures seen { F.honest → SeesExisting {G = F.Reader.ReadAt} F.means (is_some packed.entry)
            self.old (held packed.entry) (partial_ref_bytes partial.entry) result }
        ensures failed { FailsBy F.faults self.old self.new
            (MissesIn {G = F.Reader.ReadAt} F.honest F.means F.faults
            (is_some packed.entry) self.old self.new (held packed.entry)
            (partial_ref_bytes partial.entry)) result }
        ensures unchanged { LooksUp F.honest F.means self.old self.new }
    {
        match self.try_find_packed(alloc, partial, packed) {
            Ok(Some(reference)) => Ok(reference),
            Ok(None) => Err(not_found(alloc, partial)),
            Err(error) => Err(existing::Error::Find(error)),
        }
    }
}
