//! Sets the branch `main` of the repository in the folder `git`, which must not exist yet or have this value already, and shows it.
#![tactic(auto)]

use anyhow::{Context, Result, bail};
use gix_ref::file::Store;
use gix_ref::files::Disk;
use gix_ref::hash::{Kind, ObjectId};
use gix_ref::name::FullNameRef;
use gix_ref::store::{Options, WriteReflog};
use gix_ref::target::Target;
use gix_ref::transaction::{PreviousValue, RefEdit};

fn main(rt: HostRuntime) -> Result<()> {
    let alloc = rt.alloc();
    let name = FullNameRef::try_from("refs/heads/main").context("a name")?;
    let id = ObjectId::from_hex(b"1111111111111111111111111111111111111111").context("an id")?;

    // This store writes no reflog; for one that does `commit` takes a committer.
    let options = Options {
        write_reflog: WriteReflog::Disable,
        ..Options::default()
    };
    let files = Disk::new(rt.clone()?);
    let mut store = Store::at_opts(files, b"git".to_vec(alloc)?, Kind::Sha1, options)?;

    // This name gets this id, if there is no other value before.
    let (new, expected) = (Target::Object(id), PreviousValue::MustNotExist);
    let edit = RefEdit::update(name.to_owned(alloc)?, new, expected, Vec::new(alloc));
    let edits = vec![in alloc; edit]?;
    match store.transaction().prepare(alloc, edits) {
        Ok(prepared) => match prepared.commit(alloc, None) {
            Ok(done) => println!(rt; "{} edit", done.edits.len())?,
            Err(failed) => bail!("it failed: {failed}"),
        },
        Err(refused) => bail!("it was refused: {refused}"),
    }

    match store.find(alloc, name.as_partial_name()) {
        Ok(found) => println!(rt; "{} {}", found.target, found.name)?,
        Err(error) => bail!("it was not found: {error}"),
    }
    Ok(())
}
