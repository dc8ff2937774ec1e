//! The lock files of a store: what a program leaves that is killed while it holds them.
use crate::file::settings::settings;
use crate::file::store::Store;
use gix_ref_files::files::Files;
pub use gix_ref_locks::locks::Error;
use gix_ref_locks::locks::list_locks;
use gix_ref_locks::remove;
pub use gix_ref_locks::remove::Error as RemoveError;
use std::alloc::Global;

impl<F: Files> Store<F> {
    ghost use Rattle.std.specs.Prelude.{IfOk, IfErr};
    ghost use Rattle.gix_ref_files.specs.Files.{NoFewer};
    ghost use Rattle.gix_ref_locks.specs.LockFiles.{IsLockFailure};
    ghost use Rattle.gix_ref_locks.specs.Removals.{IsUnlockFailure};
    ghost use Rattle.gix_ref_store.specs.Lookup.{LooksUp, settings_of};
    ghost use Rattle.gix_ref_store.specs.Store.{files_of, IsSameStore};
    ghost use Rattle.gix_ref_store.specs.Locks.{AreLocks, AreRemoved, IsLeftLocked, Unlocks};

    /// The paths of the lock files of the store: of each file that is the lock of a reference, of this worktree, of the main one or
    /// of a linked one, in a namespace of those in it alone, or the lock of `packed-refs`. By ascending bytes, each once. Not in
    /// gix-ref.
    ///
    /// `Io` where a folder could not be listed, with its path, and `Memory` where there was none for the paths.
    ///
    /// Costs one call of files for each folder in which references are, and one for `packed-refs.lock`.
    ///
    /// ```text
    /// for path in &store.locks(alloc)? {
    ///     println!(rt; "{}", path.as_slice().as_bstr())?;
    /// }
    /// ```
    pub fn locks(&mut self, alloc: Global) -> Result<Vec<Vec<u8>>, Error>
        ensures lists { F.honest → IfOk result (λ paths. AreLocks F.means self.old paths.items) }
        ensures failed { IfErr result (IsLockFailure (settings_of self.old)
            (F.faults (files_of self.old)) (F.faults (files_of self.new))) }
        ensures count { NoFewer (F.faults (files_of self.old)) (F.faults (files_of self.new)) }
        ensures unchanged { LooksUp F.honest F.means self.old self.new }
    {
        let settings = settings!(self);
        list_locks(alloc, &mut self.files, settings)
    }

    /// Removes the lock files of the store, in the order of their paths, and returns the paths of those that it removed. Nothing
    /// else is changed. Not in gix-ref.
    ///
    /// For a caller who knows that no other program works on the repository: a lock that a program still holds is removed too, and
    /// then two programs may write at once. Nothing is synced: after a loss of power a lock may be there again.
    ///
    /// `List` where the lock files could not be listed, and then nothing is removed; `RemoveFile` where one could not be removed,
    /// with the paths of those that were removed before it.
    ///
    /// Costs one call of files for each lock, beside those of `locks`.
    ///
    /// ```text
    /// for path in &store.remove_locks(alloc)? {
    ///     println!(rt; "removed {}", path.as_slice().as_bstr())?;
    /// }
    /// ```
    pub fn remove_locks(&mut self, alloc: Global) -> Result<Vec<Vec<u8>>, RemoveError>
        ensures removed { F.honest → IfOk result
            (λ paths. AreRemoved F.means self.old self.new paths.items) }
        ensures stopped { F.honest → IfErr result (IsLeftLocked F.means self.old self.new) }
        ensures leaves { F.honest → Unlocks F.means self.old self.new }
        ensures failed { IfErr result (IsUnlockFailure (settings_of self.old)
            (F.faults (files_of self.old)) (F.faults (files_of self.new))) }
        ensures count { NoFewer (F.faults (files_of self.old)) (F.faults (files_of self.new)) }
        ensures same { IsSameStore self.old self.new }
    {
        let settings = settings!(self);
        remove::remove_locks(alloc, &mut self.files, settings)
    }
}
