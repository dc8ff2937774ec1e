//! The verbs that commit and read what was committed: `make`, `make-then-find NAME`, `make-then-list PREFIX` and
//! `make-then-read NAME PREFIX` print what `commit` does, and then what the lookup finds and what the listing gives. They use
//! `packed-refs` as the case says, and find no object.
//!
//! `packed-commit` and `packed-rollback` give the edits to a transaction of `packed-refs` alone, whose lock is held, and which asks the
//! objects of the case.
use crate::reads::{found_lines, item_line};
use anyhow::{Context, Result};
use bstr::ByteSlice;
use case_world::causes::{of_commit, of_prepare};
use case_world::texts::{Texts, split};
use case_world::transactions::{Said, line, outcome};
use case_world::twice::Twice;
use case_world::world::World;
use gix_ref_edits::transaction::RefEdit;
use gix_ref_files::lock::{Acquire, Lock};
use gix_ref_name::name::PartialNameRef;
use gix_ref_packed::packed::Buffer;
use gix_ref_packed_transaction::Transaction;
use gix_ref_read_back::error::Error;
use gix_ref_read_back::find::commit_then_find;
use gix_ref_read_back::list::commit_then_list;
use gix_ref_read_back::make::make;
use gix_ref_read_back::read::commit_then_read;
use gix_ref_store::file::Store;
use gix_ref_store::file::find::existing;
use gix_ref_store::file::iter::{self, loose_then_packed};
use gix_ref_store::raw::Reference;
use std::alloc::Global;

/// The edits of a transaction.
type Given = Vec<RefEdit>;

/// Why nothing was committed.
fn not_made(alloc: Global, error: &Error) -> Result<Said> {
    match error {
        Error::Prepare(refused) => {
            let cause = of_prepare(alloc, &refused.error)?;
            let text = format!(in alloc; "refused: {cause}")?;
            outcome(alloc, text.as_str(), refused.locks_left.as_slice())
        }
        Error::Commit(failed) => {
            let cause = of_commit(alloc, &failed.error)?;
            let text = format!(in alloc; "failed: {cause}")?;
            outcome(alloc, text.as_str(), failed.locks_left.as_slice())
        }
    }
}

/// The items of a listing, after these lines.
fn with_items(
    alloc: Global,
    mut said: Said,
    items: Result<Vec<Result<Reference, loose_then_packed::Error>>, iter::Error>,
) -> Result<Said> {
    match items {
        Ok(found) => {
            for item in found {
                said.push(item_line(alloc, item)?)?;
            }
        }
        Err(error) => {
            let text = format!(in alloc; "refused: {error}")?;
            said.push(text.as_bytes().to_vec(alloc)?)?;
        }
    }
    Ok(said)
}

/// The lines of what a lookup found, after these.
fn with_found(
    alloc: Global,
    mut said: Said,
    found: Result<Reference, existing::Error>,
) -> Result<Said> {
    for line in found_lines(alloc, found)? {
        said.push(line)?;
    }
    Ok(said)
}

/// Commits and lists.
fn then_list(world: &World, store: &mut Store<Twice>, given: Given, prefix: &[u8]) -> Result<Said> {
    let alloc = world.alloc;
    let mode = world.mode_without_objects();
    match commit_then_list(alloc, store, mode, given, world.signature(), prefix) {
        Ok(listed) => {
            let said = outcome(alloc, "done", listed.done.locks_left.as_slice())?;
            with_items(alloc, said, listed.items)
        }
        Err(error) => not_made(alloc, &error),
    }
}

/// Commits and looks up.
fn then_find(world: &World, store: &mut Store<Twice>, given: Given, name: &[u8]) -> Result<Said> {
    let alloc = world.alloc;
    let name = PartialNameRef::try_from(name).context("a partial name")?;
    let mode = world.mode_without_objects();
    match commit_then_find(alloc, store, mode, given, world.signature(), name) {
        Ok(made) => {
            let said = outcome(alloc, "done", made.done.locks_left.as_slice())?;
            with_found(alloc, said, made.found)
        }
        Err(error) => not_made(alloc, &error),
    }
}

/// Commits, looks up and lists.
fn then_read(
    world: &World,
    store: &mut Store<Twice>,
    given: Given,
    name: &[u8],
    prefix: &[u8],
) -> Result<Said> {
    let alloc = world.alloc;
    let name = PartialNameRef::try_from(name).context("a partial name")?;
    let mode = world.mode_without_objects();
    match commit_then_read(alloc, store, mode, given, world.signature(), name, prefix) {
        Ok(made) => {
            let said = outcome(alloc, "done", made.done.locks_left.as_slice())?;
            let said = with_found(alloc, said, made.found)?;
            with_items(alloc, said, made.items)
        }
        Err(error) => not_made(alloc, &error),
    }
}

/// Plays a verb that commits and reads.
pub fn make_and_read(world: &mut World, texts: &Texts, word: &str, rest: &str) -> Result<Said> {
    let (alloc, mode) = (world.alloc, world.mode_without_objects());
    let (first, second) = split(rest);
    let (first, second) = (texts.text(first)?, texts.text(second)?);
    let given = world.take_edits();
    let mut store = world.open()?;
    let said = match word {
        "make-then-find" => then_find(world, &mut store, given, first.as_slice()),
        "make-then-list" => then_list(world, &mut store, given, first.as_slice()),
        "make-then-read" => then_read(
            world,
            &mut store,
            given,
            first.as_slice(),
            second.as_slice(),
        ),
        _ => match make(alloc, &mut store, mode, given, world.signature()) {
            Ok(done) => outcome(alloc, "done", done.locks_left.as_slice()),
            Err(error) => not_made(alloc, &error),
        },
    };
    world.files = store.into_files();
    said
}

/// A transaction of `packed-refs` whose lock is held, or why there is none.
fn begun(world: &mut World) -> Result<Result<Transaction, String>> {
    let (alloc, kind) = (world.alloc, world.object_hash());
    let path = b"/r/packed-refs";
    let buffer = match Buffer::open(alloc, &mut world.files, path, 32_768, kind) {
        Ok(buffer) => buffer,
        Err(error) => return Ok(Err(format!(in alloc; "refused: {error}")?)),
    };
    let why = match Lock::acquire(alloc, &mut world.files, path) {
        Ok(acquired) => match acquired {
            Acquire::Held(lock) => {
                return Ok(Ok(Transaction::new(alloc, buffer, lock, kind)));
            }
            Acquire::Standing => "refused: packed-refs is locked".to_string(alloc),
            Acquire::Blocked => "refused: a file is in the path of packed-refs".to_string(alloc),
        },
        Err(error) => format!(in alloc; "refused: {error}"),
    };
    Ok(Err(why?))
}

/// Plays a verb of a transaction of `packed-refs`.
pub fn transact_packed(world: &mut World, word: &str) -> Result<Said> {
    let alloc = world.alloc;
    let given = world.take_edits();
    let mut transaction = match begun(world)? {
        Ok(transaction) => transaction,
        Err(refused) => return line(alloc, refused.as_str()),
    };
    let prepared = transaction.prepare(alloc, given.as_slice(), &world.objects);
    if word == "packed-rollback" || prepared.is_err() {
        let left = transaction.rollback(&mut world.files);
        return match (prepared, left) {
            (Err(error), _) => line(alloc, format!(in alloc; "refused: {error}")?.as_str()),
            (Ok(()), None) => line(alloc, "given up"),
            (Ok(()), Some(left)) => {
                let left = left.as_slice().as_bstr();
                line(
                    alloc,
                    format!(in alloc; "given up, lock left: {left}")?.as_str(),
                )
            }
        };
    }
    match transaction.commit(alloc, &mut world.files) {
        Ok(()) => line(alloc, "done"),
        Err(failed) => {
            let mut said = line(
                alloc,
                format!(in alloc; "failed: {}", failed.error)?.as_str(),
            )?;
            if let Some(left) = failed.lock_left {
                let text = format!(in alloc; "lock left: {}", left.as_slice().as_bstr())?;
                said.push(text.as_bytes().to_vec(alloc)?)?;
            }
            Ok(said)
        }
    }
}
