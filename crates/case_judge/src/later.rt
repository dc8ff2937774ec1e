//! Transactions after a stop or a fault, each the deletion of one reference: it is refused exactly where it needs a lock that is left,
//! and done once the locks are removed.
use anyhow::{Context, Result, bail};
use bstr::ByteSlice;
use case_world::edits::deletion;
use case_world::reading::reading;
use case_world::texts::Texts;
use case_world::transactions::transact;
use case_world::world::World;
use gix_ref_files::files::Files;
use std::alloc::Global;

/// What comes of the deletion of a reference beside these locks. Each name below `refs/` may have a record.
fn wanted(alloc: Global, name: &str, locks: &[Vec<u8>]) -> Result<String> {
    let own = format!(in alloc; "/r/{name}.lock")?;
    let is_left = |path: &[u8]| locks.iter().any(|lock| lock.as_slice() == path);
    if name.starts_with("refs/") && is_left(b"/r/packed-refs.lock") {
        return Ok("refused: packed-refs is locked".to_string(alloc)?);
    }
    if is_left(own.as_bytes()) {
        return Ok(format!(in alloc; "refused: the lock of {name} exists already")?);
    }
    Ok("done".to_string(alloc)?)
}

/// Deletes a reference, and compares what comes of it.
fn delete(world: &mut World, texts: &Texts, name: &str, locks: &[Vec<u8>]) -> Result<()> {
    let alloc = world.alloc;
    world.edits.push(deletion(alloc, texts, name)?)?;
    let said = transact(world, "commit", "")?;
    let said = said.as_slice().first().context("an answer")?;
    let wanted = wanted(alloc, name, locks)?;
    if said.as_slice() != wanted.as_bytes() {
        bail!(
            "later {name} is {}, not {wanted}",
            said.as_slice().as_bstr()
        )
    }
    Ok(())
}

/// Deletes each of these references beside the locks that are left, and again once these are removed.
pub fn hold_later(world: &mut World, texts: &Texts, names: &str, locks: &[Vec<u8>]) -> Result<()> {
    for name in names.split(' ') {
        delete(world, texts, name, locks)?;
    }
    for lock in locks {
        world.files.remove_file(lock.as_slice())?;
    }
    for name in names.split(' ') {
        delete(world, texts, name, &[])?;
    }
    let mut store = world.open()?;
    for name in names.split(' ') {
        if reading(world.alloc, &mut store, texts, name)?.as_str() != "absent" {
            bail!("later {name} is not deleted")
        }
    }
    world.files = store.into_files();
    Ok(())
}
