//! `refs DIR [--sha256] [--namespace NAME] [--as SIGNATURE] [--message TEXT] COMMAND`: updates, deletes, shows and lists
//! references of a folder of the disk. A command is `update [--deref] NAME ID [OLD]`, `symbolic NAME TARGET`,
//! `delete [--deref] NAME [OLD]`, `show NAME`, `list [PREFIX]`, `log NAME` or `script FILE`. With a SIGNATURE, `name <email> seconds +hhmm`,
//! updates write log lines, whose message is TEXT. All is printed on standard output; the status is 0, 1 for a refusal or a
//! fault, 2 for wrong words.
#![tactic(auto)]

use gix_ref_files::disk::Disk;
use gix_ref_program::run::run;
use gix_ref_store::file::transaction::PackedRefs;
use std::process::ExitCode;
use std::{env, io};

/// The words of the command line, without the name of the program.
fn read_words(rt: &HostRuntime, words: &mut Vec<String>) -> io::Result<()> {
    for word in env::args(rt)?.skip(1) {
        words.push(word)?;
    }
    Ok(())
}

fn main(rt: HostRuntime) -> ExitCode {
    let alloc = rt.alloc();
    let mut words = Vec::new(alloc);
    // Arguments that are no text are wrong words, as none at all are.
    if read_words(&rt, &mut words).is_err() {
        words.clear();
    }
    let mut out = io::writer(&rt);
    let ran = run(
        alloc,
        Disk::new(rt),
        PackedRefs::DeletionsOnly,
        &words,
        &mut out,
    );
    match ran.status {
        Ok(status) => ExitCode::from(status),
        Err(_) => ExitCode::from(1),
    }
}
