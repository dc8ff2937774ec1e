//! Transactions that no case can write: a value that no text has, and a transaction that is given up before it is prepared.
use gix_ref::actor::SignatureRef;
use gix_ref::file::Store;
use gix_ref::file::transaction::{PackedRefs, prepare};
use gix_ref::files::{Files, Memory};
use gix_ref::hash::Kind;
use gix_ref::name::{FullName, FullNameRef, PartialNameRef};
use gix_ref::namespace::expand;
use gix_ref::object::Never;
use gix_ref::pack::{Objects, pack_refs};
use gix_ref::target::Target;
use gix_ref::theorems::read_back::error::Error;
use gix_ref::theorems::read_back::make::make;
use gix_ref::transaction::{Change, PreviousValue, RefEdit};
use std::alloc::Global;
use std::test::Fail;

/// The store in `/r`, without files.
fn store(alloc: Global) -> Result<Store<Memory>, Fail> {
    let folder = b"/r".to_vec(alloc)?;
    match Store::at(Memory::new(alloc), folder, Kind::Sha1) {
        Ok(store) => Ok(store),
        Err(_) => Err(Fail::from("a clean folder")),
    }
}

/// The store in `/r`, which is there, with a branch.
fn store_with(alloc: Global, name: FullName) -> Result<Store<Memory>, Fail> {
    let mut files = Memory::new(alloc);
    let Ok(true) = files.make_folders(b"/r") else {
        return Err(Fail::from("no git folder"));
    };
    let Ok(mut store) = Store::at(files, b"/r".to_vec(alloc)?, Kind::Sha1) else {
        return Err(Fail::from("a clean folder"));
    };
    let new = Target::Object(Kind::Sha1.null());
    let edit = RefEdit::update(name, new, PreviousValue::Any, Vec::new(alloc));
    let edits = vec![in alloc; edit]?;
    let mode = PackedRefs::<Never>::DeletionsOnly;
    let Some(committer) = SignatureRef::decode(b"C <c@example.com> 1234 +0800") else {
        return Err(Fail::from("a signature"));
    };
    match make(alloc, &mut store, mode, edits, Some(committer)) {
        Ok(_) => Ok(store),
        Err(_) => Err(Fail::from("no branch")),
    }
}

/// A `FullName` that is only a partial one, since its namespace was stripped.
fn merely_partial(alloc: Global) -> Result<FullName, Fail> {
    let mut name = FullNameRef::try_from("refs/namespaces/foo/main")?.to_owned(alloc)?;
    let namespace = expand(alloc, PartialNameRef::try_from("foo")?)?;
    name.strip_namespace(&namespace);
    Ok(name)
}

#[test]
fn a_symbolic_target_is_a_full_name(rt: HostRuntime) -> Result<(), Fail> {
    let alloc = rt.alloc();
    let name = FullNameRef::try_from("HEAD")?.to_owned(alloc)?;
    let new = Target::Symbolic(merely_partial(alloc)?);
    let edit = RefEdit::update(name, new, PreviousValue::Any, Vec::new(alloc));
    let edits = vec![in alloc; edit]?;
    let mut store = store(alloc)?;
    match store.transaction().prepare(alloc, edits) {
        Err(refused) => assert!(rt; matches!(refused.error, prepare::Error::TargetNotFull)),
        Ok(prepared) => {
            let _ = prepared.rollback();
            panic!(rt; "the target is no full name");
        }
    }
    assert_eq!(rt; store.into_files().calls(), 0, "no file is touched");
    Ok(())
}

/// The edits of a transaction that is refused.
fn refused_edits(
    alloc: Global,
    store: &mut Store<Memory>,
    edits: Vec<RefEdit>,
) -> Option<Vec<RefEdit>> {
    match store.transaction().prepare(alloc, edits) {
        Err(refused) => Some(refused.edits),
        Ok(prepared) => {
            let _ = prepared.rollback();
            None
        }
    }
}

#[test]
fn a_refused_edit_is_tried_again(rt: HostRuntime) -> Result<(), Fail> {
    let alloc = rt.alloc();
    let mut store = store(alloc)?;
    let name = FullNameRef::try_from("refs/heads/a")?.to_owned(alloc)?;
    let edits = vec![in alloc; RefEdit::delete(name, PreviousValue::MustExist)]?;
    let again = match refused_edits(alloc, &mut store, edits) {
        Some(edits) => refused_edits(alloc, &mut store, edits),
        None => panic!(rt; "there is no such reference"),
    };
    match again {
        Some(edits) => {
            assert_eq!(rt; edits.len(), 1, "the edit is handed back");
            let edit = &edits[0];
            assert!(rt;
                edit.name.to_path() == b"refs/heads/a".as_slice(),
                "with its name"
            );
            assert!(rt;
                matches!(edit.change, Change::Delete { .. }),
                "and its change"
            );
        }
        None => panic!(rt; "nor is there one now"),
    }
    Ok(())
}

#[test]
fn a_branch_is_packed(rt: HostRuntime) -> Result<(), Fail> {
    let alloc = rt.alloc();
    let name = FullNameRef::try_from("refs/heads/a")?;
    let mut store = store_with(alloc, name.to_owned(alloc)?)?;
    let packed = pack_refs(alloc, &mut store, true, true, Objects::new(alloc));
    assert!(rt; matches!(packed.result, Ok(1)), "one is packed");
    match store.find_full(alloc, name) {
        Ok(Some(found)) => {
            let target = found.target;
            assert!(rt;
                matches!(target, Target::Object(id) if id.is_null()),
                "as it was"
            );
        }
        Ok(None) | Err(_) => panic!(rt; "it is there"),
    }
    match store.loose_iter(alloc) {
        Ok(mut items) => assert!(rt; items.next().is_none(), "and not loose"),
        Err(_) => panic!(rt; "they are listed"),
    }
    Ok(())
}

#[test]
fn a_deletion_in_one_call(rt: HostRuntime) -> Result<(), Fail> {
    let alloc = rt.alloc();
    let mut store = store(alloc)?;
    let name = FullNameRef::try_from("refs/heads/a")?.to_owned(alloc)?;
    let edits = vec![in alloc; RefEdit::delete(name, PreviousValue::MustExist)]?;
    match make(
        alloc,
        &mut store,
        PackedRefs::<Never>::DeletionsOnly,
        edits,
        None,
    ) {
        Err(Error::Prepare(refused)) => {
            assert!(rt;
                matches!(
                    refused.error,
                    prepare::Error::DeleteReferenceMustExist { .. }
                )
            );
        }
        Err(Error::Commit(_)) | Ok(_) => panic!(rt; "there is no such reference"),
    }
    Ok(())
}

#[test]
fn given_up_before(rt: HostRuntime) -> Result<(), Fail> {
    let alloc = rt.alloc();
    let mut store = store(alloc)?;
    let back = store
        .transaction()
        .packed_refs(PackedRefs::<Never>::DeletionsOnly)
        .rollback(alloc);
    assert!(rt; back.edits.is_empty() && back.locks_left.is_empty());
    assert!(rt; matches!(back.packed_refs, PackedRefs::DeletionsOnly));
    assert_eq!(rt; store.into_files().calls(), 0, "no file is touched");
    Ok(())
}

#[test]
fn edits_are_shown_before_their_commit(rt: HostRuntime) -> Result<(), Fail> {
    let alloc = rt.alloc();
    let mut files = Memory::new(alloc);
    files.put(b"/r/HEAD", b"ref: refs/heads/main\n")?;
    let folder = b"/r".to_vec(alloc)?;
    let mut store = Store::at(files, folder, Kind::Sha1)?;
    let name = FullNameRef::try_from("HEAD")?.to_owned(alloc)?;
    let new = Target::Object(Kind::Sha1.null());
    let mut edit = RefEdit::update(name, new, PreviousValue::Any, Vec::new(alloc));
    edit.deref = true;
    let edits = vec![in alloc; edit]?;
    match store.transaction().prepare(alloc, edits) {
        Err(_) => panic!(rt; "nothing is against it"),
        Ok(prepared) => {
            let are_both = match prepared.edits(alloc) {
                Ok(shown) => {
                    shown.len() == 2
                        && shown[0].name.eq_bytes(b"HEAD")
                        && shown[1].name.eq_bytes(b"refs/heads/main")
                }
                Err(_) => false,
            };
            let back = prepared.rollback();
            assert!(rt; are_both && back.edits.len() == 2);
        }
    }
    Ok(())
}
