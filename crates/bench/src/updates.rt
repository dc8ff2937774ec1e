//! The modes that measure transactions in a repository. In each turn of `update` and `update-synced` one transaction gives
//! `refs/heads/main` one of the ids of the file `peers-ids.txt`, one a line, with a log line; only the second syncs what it writes.
//! `update-many` makes one transaction of TURNS updates with log lines, and `prepare-many` only prepares it; `delete-many` makes one of
//! TURNS deletions, of the names in `peers-names.txt`. `pack-many` makes one of TURNS updates without log lines that go into `packed-refs`
//! in place of their loose files, and `pack-many-beside` one that writes these too. These sync nothing.
use gix_ref_edits::transaction::{Change, LogChange, PreviousValue, RefEdit, RefLog};
use gix_ref_files::disk::Disk;
use gix_ref_files::files::Files;
use gix_ref_hash::hash::{Kind, ObjectId};
use gix_ref_log::actor::{SignatureRef, Time};
use gix_ref_name::name::FullNameRef;
use gix_ref_object::object::{Data, Find, FindError};
use gix_ref_store::file::Store;
use gix_ref_store::file::transaction::PackedRefs;
use gix_ref_store::store::{Options, WriteReflog};
use gix_ref_target::target::Target;
use std::alloc::Global;

/// A finder for which each id is that of a commit.
#[derive(Drop)]
struct Commits;

impl Find for Commits {
    ghost use Rattle.gix_ref_object.specs.Objects.Stored.{Absent};

    ghost meaning = { λ _ id. Absent };

    ghost claims = { λ _. ⊥ };

    fn try_find<'b>(
        &self,
        id: &ObjectId,
        _buf: &'b mut Vec<u8>,
    ) -> Result<Option<Data<'b>>, FindError> {
        Ok(Some(Data {
            kind: gix_ref_object::object::Kind::Commit,
            bytes: b"",
            object_hash: id.kind(),
        }))
    }
}

/// The ids of the file; a line that is no id is passed over.
fn ids_in(alloc: Global, files: &mut Disk, folder: &str) -> Option<Vec<ObjectId>> {
    let path = format!(in alloc; "{folder}/peers-ids.txt").ok()?;
    let mut text = Vec::new(alloc);
    files.read(alloc, path.as_bytes(), &mut text).ok()?;
    let mut ids = Vec::new(alloc);
    for line in text.split(|byte| *byte == b'\n') {
        if let Some(id) = ObjectId::from_hex(line) {
            ids.push(id).ok()?;
        }
    }
    Some(ids)
}

/// The update of a reference, with the message of its log line.
fn edit_to(alloc: Global, name: &str, id: ObjectId) -> Option<RefEdit> {
    let name = FullNameRef::try_from(name).ok()?;
    Some(RefEdit {
        change: Change::Update {
            log: LogChange {
                mode: RefLog::AndReference,
                force_create_reflog: false,
                message: b"m".to_vec(alloc).ok()?,
            },
            expected: PreviousValue::Any,
            new: Target::Object(id),
        },
        name: name.to_owned(alloc).ok()?,
        deref: false,
    })
}

/// The deletion of a reference.
fn deletion_of(alloc: Global, name: &str) -> Option<RefEdit> {
    let name = FullNameRef::try_from(name).ok()?;
    Some(RefEdit {
        change: Change::Delete {
            expected: PreviousValue::Any,
            log: RefLog::AndReference,
        },
        name: name.to_owned(alloc).ok()?,
        deref: false,
    })
}

/// The list of one update of `refs/heads/main`.
fn edits_to(alloc: Global, id: ObjectId) -> Option<Vec<RefEdit>> {
    let mut edits = Vec::with_capacity(alloc, 1).ok()?;
    edits.push(edit_to(alloc, "refs/heads/main", id)?).ok()?;
    Some(edits)
}

/// So many updates, of `refs/heads/00000000` and so on.
fn many_updates(alloc: Global, id: ObjectId, count: u64) -> Option<Vec<RefEdit>> {
    let mut edits = Vec::new(alloc);
    for number in 0..count {
        let name = format!(in alloc; "refs/heads/{number:08}").ok()?;
        edits.push(edit_to(alloc, &name, id)?).ok()?;
    }
    Some(edits)
}

/// Deletions of the references of the file `peers-names.txt`, so many of them.
fn many_deletions<F: Files>(
    alloc: Global,
    files: &mut F,
    folder: &str,
    count: u64,
) -> Option<Vec<RefEdit>> {
    let path = format!(in alloc; "{folder}/peers-names.txt").ok()?;
    let mut text = Vec::new(alloc);
    files.read(alloc, path.as_bytes(), &mut text).ok()?;
    let mut edits = Vec::new(alloc);
    for line in text.split(|byte| *byte == b'\n') {
        if edits.len() as u64 >= count || line.is_empty() {
            break;
        }
        let name = std::str::from_utf8(line).ok()?;
        edits.push(deletion_of(alloc, name)?).ok()?;
    }
    Some(edits)
}

/// One transaction: whether it was committed.
fn is_committed(
    alloc: Global,
    store: &mut Store<Disk>,
    packed_refs: PackedRefs<Commits>,
    edits: Vec<RefEdit>,
) -> bool {
    let committer = SignatureRef {
        name: b"C",
        email: b"c@example.com",
        time: Time {
            seconds: 1234,
            offset: 28800,
        },
    };
    let transaction = store.transaction().packed_refs(packed_refs);
    match transaction.prepare(alloc, edits) {
        Ok(prepared) => prepared.commit(alloc, Some(committer)).is_ok(),
        Err(_) => false,
    }
}

/// One update in each turn, in a store that is open.
fn update(alloc: Global, mut files: Disk, folder: &str, turns: u64) -> Option<u64> {
    let ids = ids_in(alloc, &mut files, folder)?;
    let count = ids.len() as u64;
    let mut store = Store::at(files, folder.as_bytes().to_vec(alloc).ok()?, Kind::Sha1).ok()?;
    let mut hits: u64 = 0;
    for turn in 0..turns {
        if count == 0 {
            return None;
        }
        let edits = edits_to(alloc, ids[(turn % count) as usize])?;
        if is_committed(alloc, &mut store, PackedRefs::DeletionsOnly, edits) {
            hits = hits.saturating_add(1);
        }
    }
    Some(hits)
}

/// One transaction of so many updates, each of another reference; prepared alone, and rolled back, or committed too.
fn update_many(
    alloc: Global,
    mut files: Disk,
    folder: &str,
    count: u64,
    commits: bool,
) -> Option<u64> {
    let ids = ids_in(alloc, &mut files, folder)?;
    let mut store = Store::at(files, folder.as_bytes().to_vec(alloc).ok()?, Kind::Sha1).ok()?;
    let edits = many_updates(alloc, *ids.first()?, count)?;
    if commits {
        return is_committed(alloc, &mut store, PackedRefs::DeletionsOnly, edits).then_some(count);
    }
    match store.transaction().prepare(alloc, edits) {
        Ok(prepared) => Some(prepared.rollback().edits.len() as u64),
        Err(_) => None,
    }
}

/// One transaction of so many updates that go into `packed-refs`, without log lines.
fn pack_many(
    alloc: Global,
    mut files: Disk,
    folder: &str,
    count: u64,
    packed_refs: PackedRefs<Commits>,
) -> Option<u64> {
    let ids = ids_in(alloc, &mut files, folder)?;
    let options = Options {
        write_reflog: WriteReflog::Disable,
        ..Options::default()
    };
    let folder = folder.as_bytes().to_vec(alloc).ok()?;
    let mut store = Store::at_opts(files, folder, Kind::Sha1, options).ok()?;
    let edits = many_updates(alloc, *ids.first()?, count)?;
    is_committed(alloc, &mut store, packed_refs, edits).then_some(count)
}

/// One transaction of so many deletions.
fn delete_many(alloc: Global, mut files: Disk, folder: &str, count: u64) -> Option<u64> {
    let edits = many_deletions(alloc, &mut files, folder, count)?;
    let mut store = Store::at(files, folder.as_bytes().to_vec(alloc).ok()?, Kind::Sha1).ok()?;
    is_committed(alloc, &mut store, PackedRefs::DeletionsOnly, edits).then_some(count)
}

/// The updates of a mode, and how many of them were made; `None` for another mode, or where the repository cannot be read.
pub fn run(alloc: Global, files: Disk, mode: &str, folder: &str, turns: u64) -> Option<u64> {
    match mode {
        "update" | "update-synced" => update(alloc, files, folder, turns),
        "prepare-many" => update_many(alloc, files, folder, turns, false),
        "update-many" => update_many(alloc, files, folder, turns, true),
        "pack-many" => {
            let alone = PackedRefs::DeletionsAndNonSymbolicUpdatesRemoveLooseSourceReference(
                Commits,
            );
            pack_many(alloc, files, folder, turns, alone)
        }
        "pack-many-beside" => {
            let beside = PackedRefs::DeletionsAndNonSymbolicUpdates(Commits);
            pack_many(alloc, files, folder, turns, beside)
        }
        "delete-many" => delete_many(alloc, files, folder, turns),
        _ => None,
    }
}
