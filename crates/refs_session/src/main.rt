//! `refs-session GITDIR [-z] [--sha256] [--namespace NAME] [--as SIGNATURE] [-m MESSAGE] [--create-reflog] [--without-syncs]
//! [--lock-timeout MS] [--packed-lock-timeout MS] [COMMAND]`: serves the commands of `git update-ref --stdin` from standard input, and
//! answers each at once; or answers one COMMAND. The status is 0, 128 after an error, which is written to standard error, and 129 for wrong
//! words; of a COMMAND that of Git.
#![tactic(auto)]

mod pack;

use bstr::ByteSlice;
use gix_ref_files::disk::Disk;
use gix_ref_pack::words::parse as parse_packing;
use gix_ref_program::open::lent_words;
use gix_ref_queries::answer::Answer;
use gix_ref_queries::ask::answer_to;
use gix_ref_session::fatal::Fatal;
use gix_ref_session::run::{open, run};
use gix_ref_session::words::{Line, Parsed, parse};
use std::io::{BufReader, Write};
use std::process::ExitCode;
use std::{env, io};

/// The words of the command line, without the name of the program.
fn read_words(rt: &HostRuntime, words: &mut Vec<String>) -> io::Result<()> {
    for word in env::args(rt)?.skip(1) {
        words.push(word)?;
    }
    Ok(())
}

/// The disk, with syncs or without.
fn disk(rt: &HostRuntime, line: &Line<'_>) -> Result<Disk, Fatal> {
    let files_rt = rt.clone()?;
    Ok(if line.without_syncs {
        Disk::without_syncs(files_rt)
    } else {
        Disk::new(files_rt)
    })
}

/// Serves the commands of standard input. The status is 0.
fn serve_input(rt: &HostRuntime, line: &Line<'_>) -> Result<u8, Fatal> {
    let files = disk(rt, line)?;
    let mut input = BufReader::new(rt.alloc(), rt.reader())?;
    let mut out = io::writer(rt);
    run(rt.alloc(), files, rt, line, &mut input, &mut out).result?;
    Ok(0)
}

/// The words after `pack-refs`, where that is the command.
fn packing_words<'a, 'w>(words: &'a [&'w [u8]]) -> Option<&'a [&'w [u8]]> {
    let (first, rest) = words.split_first()?;
    if *first == b"pack-refs".as_slice() {
        Some(rest)
    } else {
        None
    }
}

/// The answer to the words of a command; `None` where they are none.
fn answer_of(rt: &HostRuntime, parsed: &Parsed<'_, '_>) -> Result<Option<Answer>, Fatal> {
    let alloc = rt.alloc();
    let mut files = disk(rt, &parsed.line)?;
    let packing = match packing_words(parsed.rest) {
        Some(words) => {
            let Some(asked) = parse_packing(words) else {
                return Ok(None);
            };
            match pack::read_objects(alloc, &mut files, &asked)? {
                Ok(objects) => Some((asked, objects)),
                Err(answer) => return Ok(Some(answer)),
            }
        }
        None => None,
    };
    let mut store = match open(alloc, files, &parsed.line) {
        Ok(store) => store,
        Err((_, fatal)) => return Err(fatal),
    };
    match packing {
        Some((asked, objects)) => Ok(Some(pack::pack(alloc, &mut store, &asked, objects)?)),
        None => Ok(answer_to(alloc, &mut store, parsed.rest)?),
    }
}

/// Answers a command of the command line, and returns its status: 129 for one that is none.
fn answer_words(rt: &HostRuntime, parsed: &Parsed<'_, '_>) -> Result<u8, Fatal> {
    let Some(answer) = answer_of(rt, parsed)? else {
        let _ = eprintln!(rt; "usage: refs-session GITDIR [options] [command]");
        return Ok(129);
    };
    let mut out = io::writer(rt);
    if let Err(error) = out.write_all(&answer.text) {
        return Err(Fatal::Write(error));
    }
    let _ = eprint!(rt; "{}", answer.errors.as_slice().as_bstr());
    Ok(answer.status)
}

fn main(rt: HostRuntime) -> ExitCode {
    let mut words = Vec::new(rt.alloc());
    // Arguments that are no text are wrong words, as none at all are.
    if read_words(&rt, &mut words).is_err() {
        words.clear();
    }
    let Ok(lent) = lent_words(rt.alloc(), &words) else {
        return ExitCode::from(128);
    };
    let Some(parsed) = parse(&lent) else {
        let _ = eprintln!(rt; "usage: refs-session GITDIR [options] [command]");
        return ExitCode::from(129);
    };
    let status = if parsed.rest.is_empty() {
        serve_input(&rt, &parsed.line)
    } else {
        answer_words(&rt, &parsed)
    };
    match status {
        Ok(status) => ExitCode::from(status),
        Err(fatal) => {
            let _ = eprintln!(rt; "fatal: {fatal}");
            ExitCode::from(128)
        }
    }
}
