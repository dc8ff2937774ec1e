//! One run of the program, over any files.
ghost use Rattle.std.specs.Prelude.{◌≡◌, ◌⊎◌, List, [], ◌∷◌, Option, None, MatchResult};
ghost use Rattle.gix_ref_store.specs.Store.{files_of};
ghost use Rattle.gix_ref_store.specs.Lookup.{LooksUp};
ghost use Rattle.gix_ref_files.specs.Calls.{Unchanged};
ghost use Rattle.gix_ref_files.specs.DiskCalls.{Untouched};
ghost use Rattle.gix_ref_files.specs.Files.{Leaves, AtEveryStop, OnEveryDisk};
ghost use Rattle.gix_ref_program.specs.Runs.{CommandRan, HasStore, HasText, IsLossIn, IsLossInScript, IsOpened, IsStop, IsStopIn, IsStopInScript, IsTextLoss, IsTextStop, IsUnopened, IsUnread, LineRan, ListRan, ListRanAmong, LogRan, LosesIfReady, Prints, RunsWords, SaysOne, ScriptRan, ShowOutcome, TextRan, prefix_asked};
ghost use Rattle.gix_ref_program.specs.Updates.{LosesFromRest};
ghost use Rattle.gix_ref_program.specs.Writes.{IsWriteLoss, terms_in};
ghost use Rattle.gix_ref_program.specs.Words.{IsNoScript, IsWrite, MayWrite, asked_in, line_asked, string_texts, text_given};

use crate::list;
use crate::log::print_items;
use crate::open::{lent_words, open_store};
use crate::outcome::{Outcome, print, refused};
use crate::refusal::Refusal;
use crate::script::run_lines;
use crate::transact::transact;
use crate::words::{Command, Line, parse};
use gix_ref_files::files::{FileError, Files, Node};
use gix_ref_name::name::{FullNameRef, PartialNameRef};
use gix_ref_packed::packed::Buffer;
use gix_ref_store::file::Store;
use gix_ref_store::file::iter::{self, LooseNames, prefix_of_all};
use gix_ref_store::file::transaction::PackedRefs;
use std::alloc::Global;
use std::io;
use std::io::Write;

/// What a run hands back.
#[derive(Drop)]
pub struct RunResult<F> {
    /// The files, as the run left them.
    pub files: F,
    /// As it was given.
    pub packed_refs: PackedRefs,
    /// The status with which the program ends, or the error of the writer.
    pub status: io::Result<u8>,
}

/// The store of a line, in its namespace. A refusal hands the files back.
fn store_in<F>(alloc: Global, files: F, line: &Line<'_>) -> Result<Store<F>, (F, Refusal)>
    ensures { MatchResult result (IsOpened files (line_asked line.now))
        (λ r. (r.0 ≡ files) × IsUnopened (line_asked line.now) r.1) }
{
    open_store(
        alloc,
        files,
        line.dir,
        line.object_hash,
        line.namespace,
        line.committer,
    )
}

/// Shows a reference.
fn show<F: Files>(alloc: Global, store: &mut Store<F>, name: &[u8]) -> Outcome
    ensures outcome { ShowOutcome F.honest F.means F.faults F.Reader.ReadAt store.old store.new
        name.now result }
    ensures leaves { F.honest → AtEveryStop F.means (files_of store.old)
        (files_of store.new) Unchanged }
{
    let name = match PartialNameRef::try_from(name) {
        Ok(name) => name,
        Err(error) => return refused(alloc, Refusal::Name(error)),
    };
    match store.try_find(alloc, name) {
        Ok(Some(reference)) => Outcome::Shown(reference),
        Ok(None) => refused(alloc, Refusal::NotFound),
        Err(error) => refused(alloc, Refusal::Find(error)),
    }
}

/// Prints the reflog of a reference, newest first; nothing where there is none.
fn print_log<F: Files, W: Write>(
    alloc: Global,
    store: &mut Store<F>,
    name: &[u8],
    out: &mut W,
) -> io::Result<u8>
    ensures prints { Prints (LogRan F.honest F.means F.faults F.Reader.ReadAt store.old store.new
        name.now) (W.contents out.old) (W.contents out.new) result }
    ensures leaves { F.honest → AtEveryStop F.means (files_of store.old)
        (files_of store.new) Unchanged }
{
    let name = match FullNameRef::try_from(name) {
        Ok(name) => name,
        Err(error) => return print(alloc, refused(alloc, Refusal::Name(error)), out),
    };
    let mut buf = [0; 4096];
    match store.reflog_iter_rev(alloc, name, &mut buf) {
        Ok(Some(mut lines)) => print_items(alloc, &mut lines, out),
        Ok(None) => Ok(0),
        Err(error) => print(alloc, refused(alloc, Refusal::Log(error)), out),
    }
}

/// Prints the listing of the names that a walk found, among the records of a buffer that was read for their prefix.
fn print_among<F: Files, W: Write>(
    alloc: Global,
    store: &mut Store<F>,
    names: LooseNames,
    packed: Option<&Buffer>,
    out: &mut W,
) -> io::Result<u8>
    ensures prints { Prints (ListRanAmong F.honest F.means F.faults store.old store.new names
        packed.entry) (W.contents out.old) (W.contents out.new) result }
    ensures unchanged { LooksUp F.honest F.means store.old store.new }
{
    match store.iter_walked(alloc, names, packed) {
        Ok(mut items) => {
            let status = list::print_items(alloc, &mut items, out);
            items.into_store();
            status
        }
        Err(error) => print(alloc, refused(alloc, Refusal::List(error)), out),
    }
}

/// Prints the listing of a prefix, or of all references. `packed-refs` is opened after the walk, so that a listing beside a program
/// that packs references misses none.
fn print_listing<F: Files, W: Write>(
    alloc: Global,
    store: &mut Store<F>,
    prefix: Option<&[u8]>,
    out: &mut W,
) -> io::Result<u8>
    ensures prints { Prints (ListRan F.honest F.means F.faults F.Reader.ReadAt store.old store.new
        (prefix_asked store.old (text_given prefix.entry)))
        (W.contents out.old) (W.contents out.new) result }
    ensures unchanged { LooksUp F.honest F.means store.old store.new }
{
    let prefix = match prefix {
        Some(prefix) => prefix,
        None => prefix_of_all(&store.namespace),
    };
    let names = match store.walk_prefixed(alloc, prefix) {
        Ok(names) => names,
        Err(error) => return print(alloc, refused(alloc, Refusal::List(error)), out),
    };
    match store.open_packed_prefixed(alloc, prefix) {
        Ok(packed) => print_among(alloc, store, names, packed.as_ref(), out),
        Err(error) => {
            let error = iter::Error::PackedOpen(error);
            print(alloc, refused(alloc, Refusal::List(error)), out)
        }
    }
}

/// Does what a command asks for, which is no script, and prints it. One that writes is a transaction of itself alone.
fn execute<F: Files, W: Write>(
    alloc: Global,
    store: &mut Store<F>,
    packed_refs: PackedRefs,
    line: &Line<'_>,
    out: &mut W,
) -> (PackedRefs, io::Result<u8>)
    requires { IsNoScript (asked_in line.now) }
    ensures packed_refs { result.0 ≡ packed_refs }
    ensures prints { Prints (CommandRan F.honest F.means F.faults F.Reader.ReadAt store.old
        store.new (terms_in line.now packed_refs) (asked_in line.now)) (W.contents out.old)
        (W.contents out.new) result.1 }
    ensures leaves { F.honest → Leaves (F.means (files_of store.old)) (F.means (files_of store.new))
        (IsStop F.honest F.means F.faults store.old (terms_in line.now packed_refs)
        (asked_in line.now)) }
    ensures loses { F.honest → IsWrite (asked_in line.now) → LosesFromRest F.means store.old
        store.new (IsWriteLoss F.honest F.means F.faults (terms_in line.now packed_refs)
        (asked_in line.now ∷ []) store.old) }
{
    if line.command.writes() {
        let (packed_refs, outcome) = transact(alloc, store, packed_refs, line, &[line.command]);
        return (packed_refs, print(alloc, outcome, out));
    }
    match &line.command {
        Command::Show { name } => (packed_refs, print(alloc, show(alloc, store, name), out)),
        Command::List { prefix } => (packed_refs, print_listing(alloc, store, *prefix, out)),
        Command::Log { name } => (packed_refs, print_log(alloc, store, name, out)),
        Command::Update { .. }
        | Command::Symbolic { .. }
        | Command::Delete { .. }
        | Command::Script { .. } => unreachable!(),
    }
}

/// The bytes of the file of a script.
fn read_script<F: Files>(alloc: Global, files: &mut F, path: &[u8]) -> Result<Vec<u8>, Refusal>
    ensures read { MatchResult result (λ text. HasText F.honest F.means F.faults files.old path.now
        text.items) (IsUnread F.honest F.means F.faults files.old files.new path.now) }
    ensures leaves { F.honest → AtEveryStop F.means files.old files.new Unchanged }
    ensures passes { F.honest → OnEveryDisk F.means files.old files.new Untouched }
{
    let mut text = Vec::new(alloc);
    match files.read(alloc, path, &mut text) {
        Ok(Node::File) => Ok(text),
        Err(FileError::Memory) => Err(Refusal::Memory),
        Ok(_) | Err(_) => Err(Refusal::ReadFileContents),
    }
}

/// Runs the lines of a script in its store, if there is one, and hands the files back.
fn run_text<F: Files, W: Write>(
    alloc: Global,
    files: F,
    packed_refs: PackedRefs,
    line: &Line<'_>,
    text: &[u8],
    out: &mut W,
) -> RunResult<F>
    ensures packed_refs { result.packed_refs ≡ packed_refs }
    ensures prints { Prints (TextRan F.honest F.means F.faults packed_refs F.Reader.ReadAt files
        result.files (line_asked line.now) text.now) (W.contents out.old) (W.contents out.new)
        result.status }
    ensures leaves { F.honest → Leaves (F.means files) (F.means result.files)
        (IsTextStop F.honest F.means F.faults packed_refs files (line_asked line.now) text.now) }
    ensures loses { F.honest → LosesIfReady F.honest F.means F.faults files result.files
        (line_asked line.now) (IsTextLoss F.honest F.means F.faults packed_refs files
        (line_asked line.now) text.now) }
{
    match store_in(alloc, files, line) {
        Ok(mut store) => {
            let (packed_refs, status) = run_lines(alloc, &mut store, packed_refs, line, text, out);
            RunResult {
                files: store.into_files(),
                packed_refs,
                status,
            }
        }
        Err((files, refusal)) => RunResult {
            files,
            packed_refs,
            status: print(alloc, refused(alloc, refusal), out),
        },
    }
}

/// Says why the text of a script was not read, where its store can be opened; and hands the files back.
fn print_unread<F, W: Write>(
    alloc: Global,
    files: F,
    packed_refs: PackedRefs,
    line: &Line<'_>,
    unread: Refusal,
    out: &mut W,
) -> RunResult<F>
    ensures packed_refs { result.packed_refs ≡ packed_refs }
    ensures files { result.files ≡ files }
    ensures prints { Prints (SaysOne (λ refusal. IsUnopened (line_asked line.now) refusal
        ⊎ (HasStore files (line_asked line.now) × (refusal ≡ unread))))
        (W.contents out.old) (W.contents out.new) result.status }
{
    match store_in(alloc, files, line) {
        Ok(store) => RunResult {
            files: store.into_files(),
            packed_refs,
            status: print(alloc, refused(alloc, unread), out),
        },
        Err((files, refusal)) => RunResult {
            files,
            packed_refs,
            status: print(alloc, refused(alloc, refusal), out),
        },
    }
}

/// Runs the script in a file, prints the outcomes of its lines, and hands the files back.
fn run_script<F: Files, W: Write>(
    alloc: Global,
    files: F,
    packed_refs: PackedRefs,
    line: &Line<'_>,
    path: &[u8],
    out: &mut W,
) -> RunResult<F>
    ensures packed_refs { result.packed_refs ≡ packed_refs }
    ensures prints { Prints (ScriptRan F.honest F.means F.faults packed_refs F.Reader.ReadAt files
        result.files (line_asked line.now) path.now) (W.contents out.old) (W.contents out.new)
        result.status }
    ensures leaves { F.honest → Leaves (F.means files) (F.means result.files)
        (IsStopInScript F.honest F.means F.faults packed_refs files
        (line_asked line.now) path.now) }
    ensures loses { F.honest → LosesIfReady F.honest F.means F.faults files result.files
        (line_asked line.now) (IsLossInScript F.honest F.means F.faults packed_refs files
        (line_asked line.now) path.now) }
{
    let mut files = files;
    match read_script(alloc, &mut files, path) {
        Ok(text) => run_text(alloc, files, packed_refs, line, &text, out),
        Err(unread) => print_unread(alloc, files, packed_refs, line, unread, out),
    }
}

/// Does what a line asks for, which is no script, prints it, and hands the files back.
fn run_command<F: Files, W: Write>(
    alloc: Global,
    files: F,
    packed_refs: PackedRefs,
    line: &Line<'_>,
    out: &mut W,
) -> RunResult<F>
    requires { IsNoScript (asked_in line.now) }
    ensures packed_refs { result.packed_refs ≡ packed_refs }
    ensures prints { Prints (LineRan F.honest F.means F.faults packed_refs F.Reader.ReadAt files
        result.files (line_asked line.now)) (W.contents out.old) (W.contents out.new)
        result.status }
    ensures leaves { F.honest → Leaves (F.means files) (F.means result.files)
        (IsStopIn F.honest F.means F.faults packed_refs files (line_asked line.now)) }
    ensures loses { F.honest → IsWrite (asked_in line.now) →
        LosesIfReady F.honest F.means F.faults files result.files (line_asked line.now)
        (IsLossIn F.honest F.means F.faults packed_refs files (line_asked line.now)) }
{
    match store_in(alloc, files, line) {
        Ok(mut store) => {
            let (packed_refs, status) = execute(alloc, &mut store, packed_refs, line, out);
            RunResult {
                files: store.into_files(),
                packed_refs,
                status,
            }
        }
        Err((files, refusal)) => RunResult {
            files,
            packed_refs,
            status: print(alloc, refused(alloc, refusal), out),
        },
    }
}

/// Does what a line asks for, prints it, and hands the files back.
fn run_line<F: Files, W: Write>(
    alloc: Global,
    files: F,
    packed_refs: PackedRefs,
    line: &Line<'_>,
    out: &mut W,
) -> RunResult<F>
    ensures packed_refs { result.packed_refs ≡ packed_refs }
    ensures prints { Prints (LineRan F.honest F.means F.faults packed_refs F.Reader.ReadAt files
        result.files (line_asked line.now)) (W.contents out.old) (W.contents out.new)
        result.status }
    ensures leaves { F.honest → Leaves (F.means files) (F.means result.files)
        (IsStopIn F.honest F.means F.faults packed_refs files (line_asked line.now)) }
    ensures loses { F.honest → MayWrite (asked_in line.now) →
        LosesIfReady F.honest F.means F.faults files result.files (line_asked line.now)
        (IsLossIn F.honest F.means F.faults packed_refs files (line_asked line.now)) }
{
    match line.command {
        Command::Script { path } => run_script(alloc, files, packed_refs, line, path, out),
        _ => run_command(alloc, files, packed_refs, line, out),
    }
}

/// Does what the words ask for, and prints it: nothing for an update or a deletion that was made; a target and a name for a reference
/// that is shown; for a reflog, newest first, the ids and the message of each line, or `fault: ` and the variant of the error; for a
/// script what its lines come to, up to the first that is refused; else `refused: ` and the variant of the error, or `wrong words`; and a
/// line for each lock that could not be removed. The status is 0, 1 for a refusal or a fault, 2 for wrong words; it is an error where
/// the writer failed, or where there was no memory for the text. (`git update-ref`, `git update-ref --stdin`, `git symbolic-ref`,
/// `git show-ref`, `git for-each-ref`, `git reflog show`)
///
/// The words are those after the name of the program. With a SIGNATURE updates write log lines, with the TEXT as their
/// message; without one there are none. Costs what `update` does, one call of files for a reference that
/// is shown. A listing of a prefix reads the folders and files that its names may be in, and of a sorted `packed-refs` the
/// records of the prefix. A listing and a reflog are written in blocks. The file of a script is read once, before its first
/// transaction, and each of its lines costs what `update` does: nothing grows with the lines before it.
pub fn run<F: Files, W: Write>(
    alloc: Global,
    files: F,
    packed_refs: PackedRefs,
    words: &[String],
    out: &mut W,
) -> RunResult<F>
    ensures packed_refs { result.packed_refs ≡ packed_refs }
    ensures ran { RunsWords F.honest F.means F.faults packed_refs F.Reader.ReadAt files result.files
        (string_texts words.now) (W.contents out.old) (W.contents out.new) result.status }
{
    let Ok(words) = lent_words(alloc, words) else {
        let status = print(alloc, refused(alloc, Refusal::Memory), out);
        return RunResult {
            files,
            packed_refs,
            status,
        };
    };
    let Some(line) = parse(&words) else {
        let status = print(alloc, Outcome::WrongWords, out);
        return RunResult {
            files,
            packed_refs,
            status,
        };
    };
    run_line(alloc, files, packed_refs, &line, out)
}
