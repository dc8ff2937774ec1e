//! One run of the program, over any files.
ghost use Rattle.std.specs.Prelude.{◌≡◌, MatchResult};
ghost use Rattle.gix_ref_session.specs.Runs.{IsOpened, IsUnopened, IsRefusedFor, Runs};

use crate::fatal::Fatal;
use crate::session::serve;
use crate::words::Line;
use gix_ref_files::files::Files;
use gix_ref_program::open::open_store;
use gix_ref_program::refusal::Refusal;
use gix_ref_store::file::Store;
use std::alloc::Global;
use std::io::{BufRead, Write};
use std::time::Clock;

/// What a run hands back.
#[derive(Drop)]
pub struct RunResult<F> {
    /// The files, as the run left them.
    pub files: F,
    /// Nothing where the input ended, or why the session ended before it.
    pub result: Result<(), Fatal>,
}

/// Why a store is not opened, as the end of a session.
fn fatal_of(refusal: Refusal) -> Fatal
    ensures { IsRefusedFor refusal result }
{
    match refusal {
        Refusal::PathNotClean => Fatal::Folder,
        Refusal::Name(error) => Fatal::Name(error),
        _ => Fatal::Memory,
    }
}

/// The store of a line. Where there is none, the files are handed back with the reason: the folder is not a clean path (`Folder`), the
/// NAME of `--namespace` breaks a rule of names (`Name`), or there was no memory (`Memory`).
pub fn open<F>(alloc: Global, files: F, line: &Line<'_>) -> Result<Store<F>, (F, Fatal)>
    ensures { MatchResult result (IsOpened files line.now)
        (λ r. (r.0 ≡ files) × IsUnopened line.now r.1) }
{
    match open_store(
        alloc,
        files,
        line.dir,
        line.session.object_hash,
        line.namespace,
        line.session.committer,
    ) {
        Ok(store) => Ok(store),
        Err((files, refusal)) => Err((files, fatal_of(refusal))),
    }
}

/// Serves the commands of the input over the store of a line, as `serve` does, and hands the files back. Where there is no store, nothing is
/// read or written, and the result says why, as that of `open` does.
pub fn run<F: Files, C: Clock, R: BufRead, W: Write>(
    alloc: Global,
    files: F,
    clock: &C,
    line: &Line<'_>,
    input: &mut R,
    out: &mut W,
) -> RunResult<F>
    ensures { Runs F.Reader.ReadAt F.honest F.means F.faults line.now files
        result.files (R.remaining input.old) (R.remaining input.new) (W.contents out.old)
        (W.contents out.new) result.result }
{
    match open(alloc, files, line) {
        Ok(mut store) => {
            let result = serve(alloc, clock, &line.session, &mut store, input, out);
            RunResult {
                files: store.into_files(),
                result,
            }
        }
        Err((files, fatal)) => RunResult {
            files,
            result: Err(fatal),
        },
    }
}
