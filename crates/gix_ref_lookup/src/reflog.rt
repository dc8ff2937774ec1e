//! The reflog of a name: one call of files for each of these.
ghost use Rattle.std.specs.Prelude.{◌≡◌, true, false, IfOk, IfErr, OnOk};
ghost use Rattle.gix_ref_name.specs.Names.{full_ref_bytes};
ghost use Rattle.gix_ref_files.specs.ReadOnly.{OnlyReads};
ghost use Rattle.gix_ref_files.specs.Calls.{Opens};
ghost use Rattle.gix_ref_files.specs.Tree.{is_file};
ghost use Rattle.gix_ref_lookup.specs.Reflogs.{log_path, is_prohibited, log_content, count_log, IsNoPath, IsNoLog, HoldsLog};

use crate::settings::Settings;
use gix_ref_files::files::{Files, Node};
use gix_ref_name::name::FullNameRef;
use std::alloc::Global;

mod error;

pub use error::Error;

/// The path of the reflog of a name, unless the store prohibits it.
fn allowed_path(
    alloc: Global,
    settings: Settings<'_>,
    name: FullNameRef<'_>,
) -> Result<Vec<u8>, Error>
    ensures path { IfOk result (λ path. path.items
        ≡ log_path settings.entry (full_ref_bytes name.entry)) }
    ensures allowed { OnOk result
        (is_prohibited settings.entry (full_ref_bytes name.entry) ≡ false) }
    ensures failed { IfErr result (IsNoPath settings.entry (full_ref_bytes name.entry)) }
{
    let path = settings.log(alloc, name)?;
    if settings.is_prohibited(&path) {
        return Err(Error::DeviceName);
    }
    Ok(path)
}

/// Whether a name has a reflog: a file at the path of its log (`git reflog exists`).
pub fn log_exists<F: Files>(
    alloc: Global,
    files: &mut F,
    settings: Settings<'_>,
    name: FullNameRef<'_>,
) -> Result<bool, Error>
    ensures exists { F.honest → IfOk result (λ exists. exists ≡ is_file
        (log_content settings.entry (F.means files.old).tree (full_ref_bytes name.entry))) }
    ensures allowed { OnOk result
        (is_prohibited settings.entry (full_ref_bytes name.entry) ≡ false) }
    ensures failed { IfErr result (IsNoLog settings.entry (full_ref_bytes name.entry)) }
    ensures count { F.faults files.new ≡ count_log result (F.faults files.old) }
    ensures reads { OnlyReads F.honest F.means F.faults files.old files.new }
{
    let path = allowed_path(alloc, settings, name)?;
    match files.kind(&path) {
        Ok(Node::File) => Ok(true),
        Ok(_) => Ok(false),
        Err(error) => Err(Error::from(error)),
    }
}

/// Reads the reflog of a name into the buffer, whose old content is lost; false where the name has no reflog.
pub fn read_log<F: Files>(
    alloc: Global,
    files: &mut F,
    settings: Settings<'_>,
    name: FullNameRef<'_>,
    buf: &mut Vec<u8>,
) -> Result<bool, Error>
    ensures read { F.honest → IfOk result (HoldsLog (log_content settings.entry
        (F.means files.old).tree (full_ref_bytes name.entry)) buf.new.items) }
    ensures allowed { OnOk result
        (is_prohibited settings.entry (full_ref_bytes name.entry) ≡ false) }
    ensures failed { IfErr result (IsNoLog settings.entry (full_ref_bytes name.entry)) }
    ensures count { F.faults files.new ≡ count_log result (F.faults files.old) }
    ensures reads { OnlyReads F.honest F.means F.faults files.old files.new }
{
    let path = allowed_path(alloc, settings, name)?;
    match files.read(alloc, &path, buf) {
        Ok(node) => Ok(node == Node::File),
        Err(error) => Err(Error::from(error)),
    }
}

/// Opens the reflog of a name; `None` where the name has none.
pub fn open_log<F: Files>(
    alloc: Global,
    files: &mut F,
    settings: Settings<'_>,
    name: FullNameRef<'_>,
) -> Result<Option<F::Reader>, Error>
    ensures opened { F.honest → IfOk result (Opens F.Reader.honest F.Reader.bytes
        (F.means files.old).tree (log_path settings.entry (full_ref_bytes name.entry))) }
    ensures allowed { OnOk result
        (is_prohibited settings.entry (full_ref_bytes name.entry) ≡ false) }
    ensures failed { IfErr result (IsNoLog settings.entry (full_ref_bytes name.entry)) }
    ensures count { F.faults files.new ≡ count_log result (F.faults files.old) }
    ensures reads { OnlyReads F.honest F.means F.faults files.old files.new }
{
    let path = allowed_path(alloc, settings, name)?;
    match files.open(alloc, &path) {
        Ok(reader) => Ok(reader),
        Err(error) => Err(Error::from(error)),
    }
}
