//! Listing references (`git for-each-ref`).
ghost use Rattle.std.specs.Prelude.{◌≡◌};
ghost use Rattle.gix_ref_files.specs.Files.{NoFewer};
ghost use Rattle.std.specs.Borrow.{sem, RestsIfErr};
ghost use Rattle.gix_ref_store.specs.Listings.{of_open, prefix_of_all};

use crate::file::settings::settings;
use crate::file::store::Store;
use gix_ref_files::files::Files;
use gix_ref_listing::item::{next_item, next_record};
pub use gix_ref_listing::list::LooseNames;
use gix_ref_listing::list::{list, merge_walked, walk};
use gix_ref_listing::merge::Merge;
pub use gix_ref_listing::own_records::OwnRecord;
pub use gix_ref_listing::prefix::Error;
use gix_ref_listing::prefix::check_prefix;
use gix_ref_listing::pseudo::list_pseudo;
use gix_ref_name::namespace::Namespace;
use gix_ref_packed::packed::Buffer;
use gix_ref_packed::packed::buffer::open;
use gix_ref_packed::raw::Reference;
use std::alloc::Global;

pub mod loose_then_packed {
    //! Faults among the items of a listing.
    pub use gix_ref_listing::error::Error;
}

/// What the names of a whole listing begin with: `refs/`, or in a namespace nothing. As the prefix of gix-ref's
/// `Platform::all`.
pub fn prefix_of_all(namespace: &Option<Namespace>) -> &'static [u8]
    ensures { result.now ≡ prefix_of_all namespace.now }
{
    match namespace {
        Some(_) => b"",
        None => b"refs/",
    }
}

/// What a listing is yet to give.
#[derive(Drop)]
pub struct Remaining<'p> {
    alloc: Global,
    merge: Merge<'p>,
}

/// The loose references of a store and those of `packed-refs`, by ascending names, each name once and without the namespace: a
/// loose reference has precedence over a packed one. The file of a loose reference is read when it is given; if it is gone by then,
/// the name is asked for once more, with `packed-refs` opened for it. A fault is an item in the place of its reference, and the
/// listing goes on after it. It borrows the store until it is dropped. As gix-ref's `file::iter::LooseThenPacked`.
#[derive(Drop)]
pub struct LooseThenPacked<'p, F, R = Remaining<'p>> {
    store: &'p mut Store<F>,
    rest: R,
}

impl<'p, F: Files> Iterator for LooseThenPacked<'p, F> {
    ghost use Rattle.std.specs.Iterator.{at_most};
    ghost use Rattle.gix_ref_store.specs.Listings.{NextItem, items_ahead};

    type Item = Result<Reference, loose_then_packed::Error>;

    ghost remaining = { λ s. at_most (items_ahead s) };

    ghost next_gives = { λ s r t. NextItem F.honest F.means F.faults s r t };

    fn next(&mut self) -> Option<Result<Reference, loose_then_packed::Error>> {
        self.store
            .next_listed(self.rest.alloc, &mut self.rest.merge)
    }
}

impl<'p, F: Files> LooseThenPacked<'p, F> {
    ghost use Rattle.std.specs.Prelude.{◌≡◌, ◌≤◌, ◌+◌, List, IfSome, IfNone};
    ghost use Rattle.std.specs.Option.{option_len};
    ghost use Rattle.gix_ref_listing.specs.Listings.{Listed};
    ghost use Rattle.gix_ref_store.specs.Listings.{AreYetIn, IsNotLentIn, LendsNext, items_ahead};

    /// The next item, where it is a record of `packed-refs`: the record is lent from the buffer, where `next` would make a
    /// `Reference` of it. `None` where the next item is anything else, which then stays the next, and at the end. Where the store
    /// prohibits the names of Windows devices it lends none, and `next` gives the record, or why it is not given. Takes no memory,
    /// and reads no file. Not in gix-ref.
    ///
    /// ```text
    /// while let Some(own) = items.next_record() {
    ///     println!(rt; "{} {}", own.record.target(), own.name)?;
    /// }
    /// ```
    pub fn next_record(&mut self) -> Option<OwnRecord<'p>>
        ensures lends { IfSome result (LendsNext F.honest F.means F.faults self.old self.new) }
        ensures none { IfNone result ((listed : List Listed) → AreYetIn self.old listed →
            IsNotLentIn self.old listed) }
        ensures same_store { self.new.store ≡ self.old.store }
        ensures stays { IfNone result (self.new ≡ self.old) }
        ensures left { option_len result + items_ahead self.new ≤ items_ahead self.old }
    {
        self.store.lend_listed(&mut self.rest.merge)
    }
}

impl<'p, F> LooseThenPacked<'p, F> {
    ghost use Rattle.std.specs.Prelude.{◌≡◌};

    /// Ends the listing, and gives the store back. Not in gix-ref.
    pub fn into_store(self) -> &'p mut Store<F>
        ensures same_reference { result.ghost_name ≡ self.entry.store.ghost_name }
        ensures same { result.now ≡ self.entry.store.now }
    {
        let LooseThenPacked { store, rest: _ } = self;
        store
    }
}

/// The references of a store, for any number of listings, each of the files as they are then. It borrows the store until it is
/// dropped. As gix-ref's `file::iter::Platform`.
#[derive(Drop)]
pub struct Platform<'s, F, P = Option<Buffer>> {
    store: &'s mut Store<F>,
    /// The records of the listing that was made last.
    packed: P,
}

impl<'s, F: Files> Platform<'s, F> {
    ghost use Rattle.std.specs.Prelude.{◌≡◌, IfOk, IfErr, OnOk, MatchResult};
    ghost use Rattle.gix_ref_listing.specs.declared.prefix.Error.TheVariants.{Memory};
    ghost use Rattle.gix_ref_listing.specs.CleanPrefixes.{IsAcceptedPrefix, IsRefusedPrefix};
    ghost use Rattle.gix_ref_store.specs.Lookup.{LooksUp};
    ghost use Rattle.gix_ref_store.specs.Listings.{IteratesPseudo, ListsIn, IsNoPlatformListing, FollowsFile, prefix_of_all, platform_store};

    /// The references below `refs/`, or in a namespace all of its references, as `iter_packed` gives them. The folders are walked
    /// first, and then `packed-refs` is opened. As gix-ref's `Platform::all`.
    ///
    /// `PackedOpen` where `packed-refs` cannot be opened or read, as `Store::iter` has it; `Memory` where there was no memory for the
    /// names of the loose references or for the records.
    ///
    /// ```text
    /// let mut platform = store.iter(alloc)?;
    /// for reference in platform.all(alloc)? {
    ///     println!(rt; "{}", reference?.name)?;
    /// }
    /// ```
    pub fn all(&mut self, alloc: Global) -> Result<LooseThenPacked<'_, F>, Error>
        ensures looks_up { IfOk result
            (λ it. LooksUp F.honest F.means (platform_store self.entry.now) it.store.now) }
        ensures lists { F.honest → ListsIn F.honest F.means F.faults
            (platform_store self.entry.now)
            (prefix_of_all (platform_store self.entry.now).namespace) result }
        ensures complete { F.honest → IfOk result (FollowsFile F.honest F.means F.faults
            (platform_store self.entry.now)
            (prefix_of_all (platform_store self.entry.now).namespace)) }
        ensures refused { IfErr result (IsNoPlatformListing F.Reader.ReadAt
            F.honest F.means F.faults (platform_store self.entry.now) (λ _. ⊥)) }
    {
        let prefix = prefix_of_all(&self.store.namespace);
        self.prefixed(alloc, prefix)
    }

    /// The references whose names begin with the prefix, as `iter_prefixed_packed` gives them. The folders are walked first, and
    /// then the records of the prefix are read, which are found by halving where `packed-refs` is sorted. As gix-ref's
    /// `Platform::prefixed`.
    ///
    /// `EmptyPrefix` where the prefix is empty and the store is in no namespace; `PrefixNotClean` where it begins with a slash,
    /// has two slashes in a row or a NUL, or a component of it is `.` or `..`; `PackedOpen` and `Memory` as in `all`.
    ///
    /// ```text
    /// let mut platform = store.iter(alloc)?;
    /// for tag in platform.prefixed(alloc, b"refs/tags/")? {
    ///     println!(rt; "{}", tag?.name)?;
    /// }
    /// ```
    pub fn prefixed(
        &mut self,
        alloc: Global,
        prefix: &[u8],
    ) -> Result<LooseThenPacked<'_, F>, Error>
        ensures looks_up { IfOk result
            (λ it. LooksUp F.honest F.means (platform_store self.entry.now) it.store.now) }
        ensures lists { F.honest → ListsIn F.honest F.means F.faults
            (platform_store self.entry.now) prefix.now result }
        ensures complete { F.honest → IfOk result (FollowsFile F.honest F.means F.faults
            (platform_store self.entry.now) prefix.now) }
        ensures taken { OnOk result
            (IsAcceptedPrefix (platform_store self.entry.now).namespace prefix.now) }
        ensures refused { IfErr result (IsNoPlatformListing F.Reader.ReadAt
            F.honest F.means F.faults (platform_store self.entry.now)
            (IsRefusedPrefix (platform_store self.entry.now).namespace prefix.now)) }
    {
        let Platform { store, packed } = self;
        let names = store.walk_prefixed(alloc, prefix)?;
        *packed = match store.open_packed_prefixed(alloc, prefix) {
            Ok(packed) => packed,
            Err(error) => return Err(of_open(error)),
        };
        store.iter_walked(alloc, names, packed.as_ref())
    }

    /// The pseudo references, as `Store::iter_pseudo` gives them. `Memory` where there was no memory for their names.
    /// As gix-ref's `Platform::pseudo`.
    pub fn pseudo(&mut self, alloc: Global) -> Result<LooseThenPacked<'_, F>, Error>
        ensures made { MatchResult result
            (λ it. LooksUp F.honest F.means (platform_store self.entry.now) it.store.now)
            (λ error. error ≡ Memory) }
        ensures lists { F.honest → IfOk result
            (IteratesPseudo F.honest F.means F.faults (platform_store self.entry.now)) }
    {
        let Platform { store, packed: _ } = self;
        store.iter_pseudo(alloc)
    }
}

/// The error of opening `packed-refs`, as one of listings.
fn of_open(error: open::Error) -> Error
    ensures { result ≡ of_open error }
{
    match error {
        open::Error::Memory => Error::Memory,
        other => Error::PackedOpen(other),
    }
}

impl<F: Files> Store<F> {
    ghost use Rattle.std.specs.Prelude.{◌≡◌, ◌≤◌, ◌+◌, [], List, IfOk, IfErr, IfSome, IfNone, OnErr, MatchResult};
    ghost use Rattle.gix_ref_listing.specs.declared.prefix.Error.TheVariants.{Memory};
    ghost use Rattle.gix_ref_store.specs.Lookup.{CanBeOpened, LooksUp, settings_of};
    ghost use Rattle.std.specs.Option.{option_len};
    ghost use Rattle.gix_ref_listing.specs.Listings.{Listed, IsNotLent, merge_left};
    ghost use Rattle.gix_ref_listing.specs.Steps.{AreYet, GivesNext, GivesRecord};
    ghost use Rattle.gix_ref_store.specs.Store.{files_of, IsSameStore};
    ghost use Rattle.gix_ref_store.specs.Listings.{FollowsHeld, FollowsWalked, ListsHeld, ListsWalked, IteratesListing, IteratesPseudo, IsNotOpened, IsWalkedIn, JudgesPrefix, LeavesUnopened, prefix_of_all, walked_prefix};
    ghost use Rattle.gix_ref_store.specs.contracts.file.store.Store.{the_row};

    /// The next item of a listing.
    fn next_listed(
        &mut self,
        alloc: Global,
        merge: &mut Merge<'_>,
    ) -> Option<Result<Reference, loose_then_packed::Error>>
        ensures same_store { IsSameStore self.old self.new }
        ensures gives { GivesNext F.honest F.means F.faults (settings_of self.old)
            (files_of self.old) (files_of self.new) merge.old result merge.new }
        ensures left { option_len result + merge_left merge.new ≤ merge_left merge.old }
    {
        let settings = settings!(self);
        next_item(alloc, &mut self.files, settings, merge)
    }

    /// The next of a listing, lent, where it is a record.
    fn lend_listed<'p>(&self, merge: &mut Merge<'p>) -> Option<OwnRecord<'p>>
        ensures gives { IfSome result (GivesRecord (settings_of self.now) merge.old merge.new) }
        ensures none { IfNone result ((listed : List Listed) →
            AreYet (settings_of self.now) merge.old listed →
            IsNotLent (settings_of self.now) listed) }
        ensures stays { IfNone result (merge.new ≡ merge.old) }
        ensures left { option_len result + merge_left merge.new ≤ merge_left merge.old }
    {
        let settings = settings!(self);
        next_record(settings, merge)
    }

    /// The listing of a prefix, among the records of a buffer if one is given.
    fn list<'p>(
        &'p mut self,
        alloc: Global,
        prefix: &[u8],
        packed: Option<&'p Buffer>,
    ) -> Result<LooseThenPacked<'p, F>, Error>
        ensures* rests { sem 𝓛 (RestsIfErr (the_row F.row) self.entry (λ it. it.store.ghost_name)
            result (λ n. OnErr result (LooksUp F.honest F.means self.entry.now n))) }
        ensures same_reference { IfOk result (λ it. it.store.ghost_name ≡ self.entry.ghost_name) }
        ensures made { MatchResult result
            (λ it. LooksUp F.honest F.means self.entry.now it.store.now)
            (λ error. error ≡ Memory) }
        ensures lists { F.honest → ListsHeld F.honest F.means F.faults self.entry.now
            prefix.now packed.entry result }
        ensures complete { F.honest → FollowsHeld F.honest F.means F.faults self.entry.now
            prefix.now packed.entry result }
    {
        let settings = settings!(self);
        match list(alloc, &mut self.files, settings, prefix, packed) {
            Ok(merge) => Ok(LooseThenPacked {
                store: self,
                rest: Remaining { alloc, merge },
            }),
            Err(error) => Err(error),
        }
    }

    /// Walks the folders in which the loose references of a prefix may be, one call of files each, for `iter_walked`. Opened after
    /// it, `packed-refs` has the references that a program packed meanwhile, so that a listing beside it misses none. For all
    /// references the prefix is that of `prefix_of_all`. Not in gix-ref.
    ///
    /// `EmptyPrefix` where the prefix is empty and the store is in no namespace; `PrefixNotClean` where it begins with a slash,
    /// has two slashes in a row or a NUL, or a component of it is `.` or `..`; `Memory`.
    ///
    /// ```text
    /// let names = store.walk_prefixed(alloc, b"refs/tags/")?;
    /// let packed = store.open_packed_prefixed(alloc, b"refs/tags/")?;
    /// for tag in store.iter_walked(alloc, names, packed.as_ref())? {
    ///     println!(rt; "{}", tag?.name)?;
    /// }
    /// ```
    pub fn walk_prefixed(&mut self, alloc: Global, prefix: &[u8]) -> Result<LooseNames, Error>
        ensures walks { F.honest → IfOk result
            (IsWalkedIn F.honest F.means F.faults self.old self.new) }
        ensures asked { IfOk result (λ names. walked_prefix names ≡ prefix.now) }
        ensures judged { JudgesPrefix self.old.namespace prefix.now result }
        ensures counts { NoFewer (F.faults (files_of self.old)) (F.faults (files_of self.new)) }
        ensures unchanged { LooksUp F.honest F.means self.old self.new }
    {
        match check_prefix(&self.namespace, prefix) {
            Ok(()) => {
                let settings = settings!(self);
                walk(alloc, &mut self.files, settings, prefix)
            }
            Err(error) => Err(error),
        }
    }

    /// As `iter_prefixed_packed`, of the loose references that a walk found, with its prefix: no folder is walked anew, and no
    /// file is called. `Memory`. Not in gix-ref.
    pub fn iter_walked<'p>(
        &'p mut self,
        alloc: Global,
        names: LooseNames,
        packed: Option<&'p Buffer>,
    ) -> Result<LooseThenPacked<'p, F>, Error>
        ensures* rests { sem 𝓛 (RestsIfErr (the_row F.row) self.entry (λ it. it.store.ghost_name)
            result (λ n. OnErr result (LooksUp F.honest F.means self.entry.now n))) }
        ensures same_reference { IfOk result (λ it. it.store.ghost_name ≡ self.entry.ghost_name) }
        ensures same { IfOk result (λ it. it.store.now ≡ self.entry.now) }
        ensures made { MatchResult result
            (λ it. LooksUp F.honest F.means self.entry.now it.store.now)
            (λ error. error ≡ Memory) }
        ensures lists { F.honest →
            ListsWalked F.honest F.means F.faults self.entry.now names packed.entry result }
        ensures complete { F.honest →
            FollowsWalked F.honest F.means F.faults self.entry.now names packed.entry result }
    {
        let settings = settings!(self);
        match merge_walked(alloc, settings, names, packed) {
            Ok(merge) => Ok(LooseThenPacked {
                store: self,
                rest: Remaining { alloc, merge },
            }),
            Err(error) => Err(error),
        }
    }

    /// The references below `refs/`, or in a namespace all of its references: the loose ones, and those of the buffer if one
    /// is given (`git for-each-ref`). Names are without the namespace. As gix-ref's `file::Store::iter_packed`.
    ///
    /// The folders of the loose references are listed now, one call of files each; a file is read when its reference is given,
    /// and a record is decoded when it is given. A folder that cannot be listed is an item, a fault; so is a line of the buffer that is
    /// no record. Where no item is a fault none of the records is missing, as long as their names ascend. Whatever the lines of the
    /// buffer are, each reference is a loose one, or that of a record which begins a line.
    ///
    /// Beside a program that packs loose references, one that it packs between the opening of the buffer and this call is in
    /// neither: there walk first, by `walk_prefixed`, or list by a `Platform`.
    ///
    /// `Memory` where there was no memory for the names of the loose references.
    ///
    /// ```text
    /// let packed = store.open_packed_buffer(alloc)?;
    /// for reference in store.iter_packed(alloc, packed.as_ref())? {
    ///     let reference = reference?;
    ///     println!(rt; "{} {}", reference.target, reference.name)?;
    /// }
    /// ```
    pub fn iter_packed<'p>(
        &'p mut self,
        alloc: Global,
        packed: Option<&'p Buffer>,
    ) -> Result<LooseThenPacked<'p, F>, Error>
        ensures* rests { sem 𝓛 (RestsIfErr (the_row F.row) self.entry (λ it. it.store.ghost_name)
            result (λ n. OnErr result (LooksUp F.honest F.means self.entry.now n))) }
        ensures same_reference { IfOk result (λ it. it.store.ghost_name ≡ self.entry.ghost_name) }
        ensures made { MatchResult result
            (λ it. LooksUp F.honest F.means self.entry.now it.store.now)
            (λ error. error ≡ Memory) }
        ensures lists { F.honest → ListsHeld F.honest F.means F.faults self.entry.now
            (prefix_of_all self.entry.now.namespace) packed.entry result }
        ensures complete { F.honest → FollowsHeld F.honest F.means F.faults self.entry.now
            (prefix_of_all self.entry.now.namespace) packed.entry result }
    {
        let prefix = prefix_of_all(&self.namespace);
        self.list(alloc, prefix, packed)
    }

    /// As `iter_packed`, of the references whose names begin with the prefix. Of the folders only those are listed that such
    /// names may be in, and of a sorted buffer only the records of the prefix are looked at. The buffer may be one that was read
    /// for this prefix by `open_packed_prefixed`. Beside a program that packs, see `iter_packed`. As gix-ref's
    /// `file::Store::iter_prefixed_packed`.
    ///
    /// `EmptyPrefix` where the prefix is empty and the store is in no namespace; `PrefixNotClean` where it begins with a slash,
    /// has two slashes in a row or a NUL, or a component of it is `.` or `..`; `Memory`.
    ///
    /// ```text
    /// for tag in store.iter_prefixed_packed(alloc, b"refs/tags/", packed.as_ref())? {
    ///     println!(rt; "{}", tag?.name)?;
    /// }
    /// ```
    pub fn iter_prefixed_packed<'p>(
        &'p mut self,
        alloc: Global,
        prefix: &[u8],
        packed: Option<&'p Buffer>,
    ) -> Result<LooseThenPacked<'p, F>, Error>
        ensures* rests { sem 𝓛 (RestsIfErr (the_row F.row) self.entry (λ it. it.store.ghost_name)
            result (λ n. OnErr result (LooksUp F.honest F.means self.entry.now n))) }
        ensures same_reference { IfOk result (λ it. it.store.ghost_name ≡ self.entry.ghost_name) }
        ensures looks_up { IfOk result
            (λ it. LooksUp F.honest F.means self.entry.now it.store.now) }
        ensures lists { F.honest → ListsHeld F.honest F.means F.faults self.entry.now
            prefix.now packed.entry result }
        ensures complete { F.honest → FollowsHeld F.honest F.means F.faults self.entry.now
            prefix.now packed.entry result }
        ensures judged { JudgesPrefix self.entry.now.namespace prefix.now result }
    {
        match check_prefix(&self.namespace, prefix) {
            Ok(()) => self.list(alloc, prefix, packed),
            Err(error) => Err(error),
        }
    }

    /// As `iter_packed`, of the loose references alone; `Memory`. One that is packed between the walk and its item is given by its
    /// record. As gix-ref's `file::Store::loose_iter`.
    pub fn loose_iter(&mut self, alloc: Global) -> Result<LooseThenPacked<'_, F>, Error>
        ensures* rests { sem 𝓛 (RestsIfErr (the_row F.row) self.entry (λ it. it.store.ghost_name)
            result (λ n. OnErr result (LooksUp F.honest F.means self.entry.now n))) }
        ensures same_reference { IfOk result (λ it. it.store.ghost_name ≡ self.entry.ghost_name) }
        ensures made { MatchResult result
            (λ it. LooksUp F.honest F.means self.entry.now it.store.now)
            (λ error. error ≡ Memory) }
        ensures lists { F.honest → IfOk result (IteratesListing F.honest F.means F.faults
            self.entry.now [] (prefix_of_all self.entry.now.namespace)) }
    {
        self.iter_packed(alloc, None)
    }

    /// As `iter_prefixed_packed`, of the loose references alone: `EmptyPrefix`, `PrefixNotClean` and `Memory`. As gix-ref's
    /// `file::Store::loose_iter_prefixed`.
    pub fn loose_iter_prefixed(
        &mut self,
        alloc: Global,
        prefix: &[u8],
    ) -> Result<LooseThenPacked<'_, F>, Error>
        ensures* rests { sem 𝓛 (RestsIfErr (the_row F.row) self.entry (λ it. it.store.ghost_name)
            result (λ n. OnErr result (LooksUp F.honest F.means self.entry.now n))) }
        ensures same_reference { IfOk result (λ it. it.store.ghost_name ≡ self.entry.ghost_name) }
        ensures looks_up { IfOk result
            (λ it. LooksUp F.honest F.means self.entry.now it.store.now) }
        ensures lists { F.honest → IfOk result
            (IteratesListing F.honest F.means F.faults self.entry.now [] prefix.now) }
        ensures judged { JudgesPrefix self.entry.now.namespace prefix.now result }
    {
        self.iter_prefixed_packed(alloc, prefix, None)
    }

    /// A platform for listings of the store (`git for-each-ref`), where `packed-refs` can be opened. Nothing of it is kept: each
    /// listing opens it once more, after its walk. As gix-ref's `file::Store::iter`, which keeps it.
    ///
    /// `PackedOpen` where it cannot be opened or read, begins with `#` and has no header, or has a line that is no record where
    /// the records are to be sorted; `Memory`.
    ///
    /// ```text
    /// let mut platform = store.iter(alloc)?;
    /// for tag in platform.prefixed(alloc, b"refs/tags/")? {
    ///     println!(rt; "{}", tag?.name)?;
    /// }
    /// ```
    pub fn iter(&mut self, alloc: Global) -> Result<Platform<'_, F>, Error>
        ensures* rests { sem 𝓛
            (RestsIfErr (the_row F.row) self.entry (λ p. p.store.ghost_name) result
            (λ n. IfErr result (LeavesUnopened F.honest F.means F.faults self.entry.now n))) }
        ensures same_reference { IfOk result (λ p. p.store.ghost_name ≡ self.entry.ghost_name) }
        ensures looks_up { IfOk result (λ p. LooksUp F.honest F.means self.entry.now p.store.now) }
        ensures no_fault { IfOk result (λ p. F.faults (files_of p.store.now)
            ≡ F.faults (files_of self.entry.now)) }
        ensures opened { F.honest → MatchResult result (λ _. CanBeOpened F.means self.entry.now)
            (IsNotOpened F.means self.entry.now) }
    {
        match self.force_refresh_packed_buffer(alloc) {
            Ok(()) => Ok(Platform {
                store: self,
                packed: None,
            }),
            Err(error) => Err(of_open(error)),
        }
    }

    /// The pseudo references (`git for-each-ref --include-root-refs`): the loose files directly in the git folder, in a namespace
    /// in its folder there, that have their place there and whose names end with `HEAD`, as `FETCH_HEAD` and `ORIG_HEAD`. Names
    /// are without the namespace. As gix-ref's `file::Store::iter_pseudo`.
    ///
    /// The folder is listed now, by one call of files; a file is read when its reference is given. A folder that cannot be
    /// listed is an item.
    ///
    /// `Memory` where there was no memory for the names.
    ///
    /// ```text
    /// for reference in store.iter_pseudo(alloc)? {
    ///     println!(rt; "{}", reference?.name)?; // FETCH_HEAD, then HEAD
    /// }
    /// ```
    pub fn iter_pseudo(&mut self, alloc: Global) -> Result<LooseThenPacked<'_, F>, Error>
        ensures* rests { sem 𝓛 (RestsIfErr (the_row F.row) self.entry (λ it. it.store.ghost_name)
            result (λ n. OnErr result (LooksUp F.honest F.means self.entry.now n))) }
        ensures same_reference { IfOk result (λ it. it.store.ghost_name ≡ self.entry.ghost_name) }
        ensures made { MatchResult result
            (λ it. LooksUp F.honest F.means self.entry.now it.store.now)
            (λ error. error ≡ Memory) }
        ensures lists { F.honest → IfOk result
            (IteratesPseudo F.honest F.means F.faults self.entry.now) }
    {
        let settings = settings!(self);
        match list_pseudo(alloc, &mut self.files, settings) {
            Ok(merge) => Ok(LooseThenPacked {
                store: self,
                rest: Remaining { alloc, merge },
            }),
            Err(error) => Err(error),
        }
    }
}
