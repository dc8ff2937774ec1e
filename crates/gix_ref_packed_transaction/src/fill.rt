//! The new text of `packed-refs`, put into its lock before anything else of a commit is written.
ghost use Rattle.std.specs.Prelude.{◌≡◌, [], Some, OnOk, IfErr};
ghost use Rattle.gix_ref_files.specs.Files.{disk_of, AtEveryStop, OnEveryDisk, NoFewer, IsMet};
ghost use Rattle.gix_ref_files.specs.Lock.{lock_of};
ghost use Rattle.gix_ref_files.specs.Settled.{IsWholeAt};
ghost use Rattle.gix_ref_files.specs.Tree.{put};
ghost use Rattle.gix_ref_files.specs.Tree.Content.{File};
ghost use Rattle.gix_ref_transaction.specs.PrepareSteps.{FillsLock, FillingOn};

use gix_ref_files::files::{FileError, Files};
use gix_ref_files::lock::LockFile;

/// Puts the text into the lock, which is empty, and syncs it.
pub fn write_text<F: Files>(files: &mut F, lock: &LockFile, text: &[u8]) -> Result<(), FileError>
    ensures filled { F.honest → (F.means files.old).tree (lock_of lock.now) ≡ Some (File []) →
        OnOk result ((F.means files.new).tree
        ≡ put (F.means files.old).tree (lock_of lock.now) (Some (File text.now))) }
    ensures leaves { F.honest → (F.means files.old).tree (lock_of lock.now) ≡ Some (File []) →
        AtEveryStop F.means files.old files.new (λ T. FillsLock T (lock_of lock.now)) }
    ensures whole { F.honest → IsWholeAt (disk_of (F.means files.old)) (lock_of lock.now) [] →
        OnOk result (IsWholeAt (disk_of (F.means files.new)) (lock_of lock.now) text.now) }
    ensures passes { F.honest → OnEveryDisk F.means files.old files.new
        (λ D. FillingOn D (lock_of lock.now)) }
    ensures no_fewer { NoFewer (F.faults files.old) (F.faults files.new) }
    ensures counted { IfErr result
        (λ error. IsMet error (F.faults files.old) (F.faults files.new)) }
    ensures memory { IfErr result (λ error. error ≡ FileError.Memory → ⊥) }
{
    lock.write(files, text)?;
    Ok(())
}
