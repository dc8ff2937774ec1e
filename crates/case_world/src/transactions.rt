//! The verbs of transactions: `prepare`, `rollback` and `commit`, of the edits above, and `run WORD ..`, a run of the program `refs`.
//!
//! They print `prepared`, `given up`, `done`, `refused: CAUSE` or `failed: CAUSE`, then `lock left: PATH` for each lock that could not
//! be removed; `prepare edits`, `rollback edits` and `commit edits` print the edits that are handed back after that. `prepare` rolls
//! back. They use `packed-refs` as the case says, with the objects of the case, which each answer hands back. `run` prints what the
//! program does, and `status N` where that is not 0.
use crate::causes::{of_commit, of_prepare};
use crate::edits::edit_line;
use crate::objects::Objects;
use crate::texts::Texts;
use crate::twice::Twice;
use crate::world::World;
use anyhow::{Context, Result};
use bstr::ByteSlice;
use gix_ref_edits::transaction::RefEdit;
use gix_ref_files::files::Files;
use gix_ref_program::run::run;
use gix_ref_store::file::Store;
use gix_ref_store::file::transaction::{
    Done, Failed, PackedRefs, Plan, Prepared, Refused, RolledBack,
};
use std::alloc::Global;
use std::mem;

/// What a verb prints, line by line.
pub type Said = Vec<Vec<u8>>;

/// The lines of a text.
pub fn line(alloc: Global, text: &str) -> Result<Said> {
    let mut said = Vec::new(alloc);
    said.push(text.as_bytes().to_vec(alloc)?)?;
    Ok(said)
}

/// The lines of an outcome, with those of the locks that were left.
pub fn outcome(alloc: Global, text: &str, locks: &[Vec<u8>]) -> Result<Said> {
    let mut said = line(alloc, text)?;
    for lock in locks {
        let named = format!(in alloc; "lock left: {}", lock.as_slice().as_bstr())?;
        said.push(named.as_bytes().to_vec(alloc)?)?;
    }
    Ok(said)
}

/// Adds the edits that were handed back, if they are asked for.
fn with_edits(alloc: Global, mut said: Said, edits: &[RefEdit], option: &str) -> Result<Said> {
    if option == "edits" {
        for edit in edits {
            said.push(edit_line(alloc, edit)?)?;
        }
    }
    Ok(said)
}

/// What is said of a refusal.
fn refusal(world: &mut World, refused: Refused<Objects>) -> Result<Said> {
    let alloc = world.alloc;
    let Refused {
        error,
        edits: _edits,
        packed_refs,
        locks_left,
    } = refused;
    world.put_back(packed_refs)?;
    let cause = of_prepare(alloc, &error)?;
    let text = format!(in alloc; "refused: {cause}")?;
    outcome(alloc, text.as_str(), locks_left.as_slice())
}

/// Prepares the edits and gives them up.
fn given_up(world: &mut World, store: &mut Store<Twice>, text: &str, option: &str) -> Result<Said> {
    let (alloc, edits, mode) = (world.alloc, world.take_edits(), world.take_mode());
    match store.transaction().packed_refs(mode).prepare(alloc, edits) {
        Err(refused) => refusal(world, refused),
        Ok(prepared) => {
            let RolledBack {
                edits,
                packed_refs,
                locks_left,
            } = prepared.rollback();
            world.put_back(packed_refs)?;
            let said = outcome(alloc, text, locks_left.as_slice())?;
            with_edits(alloc, said, edits.as_slice(), option)
        }
    }
}

/// Commits a prepared transaction.
fn finished(
    world: &mut World,
    prepared: Prepared<'_, Twice, Plan<Objects>>,
    option: &str,
) -> Result<Said> {
    let alloc = world.alloc;
    match prepared.commit(alloc, world.signature()) {
        Ok(done) => {
            let Done {
                edits,
                packed_refs,
                locks_left,
            } = done;
            world.put_back(packed_refs)?;
            let said = outcome(alloc, "done", locks_left.as_slice())?;
            with_edits(alloc, said, edits.as_slice(), option)
        }
        Err(failed) => {
            let Failed {
                error,
                packed_refs,
                locks_left,
            } = failed;
            world.put_back(packed_refs)?;
            let cause = of_commit(alloc, &error)?;
            let text = format!(in alloc; "failed: {cause}")?;
            outcome(alloc, text.as_str(), locks_left.as_slice())
        }
    }
}

/// Prepares the edits and commits them.
fn committed(world: &mut World, store: &mut Store<Twice>, option: &str) -> Result<Said> {
    let (alloc, edits, mode) = (world.alloc, world.take_edits(), world.take_mode());
    match store.transaction().packed_refs(mode).prepare(alloc, edits) {
        Err(refused) => refusal(world, refused),
        Ok(prepared) => finished(world, prepared, option),
    }
}

/// Plays `prepare`, `rollback` or `commit`.
pub fn transact(world: &mut World, word: &str, option: &str) -> Result<Said> {
    let mut store = world.open()?;
    let said = match word {
        "prepare" => given_up(world, &mut store, "prepared", option),
        "rollback" => given_up(world, &mut store, "given up", option),
        _ => committed(world, &mut store, option),
    };
    world.files = store.into_files();
    said
}

/// Adds the lines of what was printed.
pub fn push_lines(alloc: Global, said: &mut Said, output: &[u8]) -> Result<()> {
    for line in output.lines() {
        said.push(line.to_vec(alloc)?)?;
    }
    Ok(())
}

/// Plays `run`.
pub fn run_words(world: &mut World, texts: &Texts, rest: &str) -> Result<Said> {
    world.hold_no_mode("run")?;
    let alloc = world.alloc;
    let words = texts.words(rest)?;
    let mut output = Vec::new(alloc);
    let files = mem::replace(&mut world.files, Twice::new(alloc));
    let ran = run(alloc, files, PackedRefs::default(), &words, &mut output);
    world.files = ran.files;
    let mut said = Vec::new(alloc);
    push_lines(alloc, &mut said, output.as_slice())?;
    let status = ran.status.ok().context("a writer that does not fail")?;
    if status != 0 {
        let text = format!(in alloc; "status {status}")?;
        said.push(text.as_bytes().to_vec(alloc)?)?;
    }
    Ok(said)
}
