//! `commit` by plain loops: the lines that are due, and then one write after the other.
use crate::causes::Failure;
use crate::files::{Held, copied, get, is_blocked, is_folder, put, remove, text};
use crate::made::{Edit, Expect, To, Who, digits};
use crate::names::{has_usual_log, key, log, place};
use crate::preparing::{digit_put, has_bad_record, release};
use crate::reading::{loose, record};
use crate::stores::{HEADER, Kept, Packed, Puts, Record, records_text};
use gix_ref_store::store::WriteReflog;
use std::alloc::Global;
use std::process::Abort;

/// The digit of the object that an edit expects.
fn expected_digit(edit: Edit) -> Option<char> {
    match edit.expect {
        Expect::Match(To::Object(digit)) | Expect::Existing(To::Object(digit)) => Some(digit),
        _ => None,
    }
}

/// The edit that was split from the one at a place.
fn child_of(edits: &[Edit], at: usize) -> Option<usize> {
    edits.iter().position(|edit| edit.parent == Some(at))
}

/// The object that the leaf of an edit expects: the last edit of those that were split from it.
fn leaf_digit(edits: &[Edit], at: usize) -> Option<char> {
    let mut leaf = child_of(edits, at)?;
    for _ in 0..5u32 {
        match child_of(edits, leaf) {
            Some(child) => leaf = child,
            None => return expected_digit(*edits.get(leaf)?),
        }
    }
    None
}

/// The previous and the new object of the line of an update to an object.
fn object_line(edits: &[Edit], at: usize, edit: Edit, new: char) -> Option<(char, char)> {
    let previous = match edit.found {
        Some(To::Object(digit)) => Some(digit),
        _ => leaf_digit(edits, at),
    };
    match previous {
        Some(digit) if digit == new => None,
        Some(digit) => Some((digit, new)),
        None => Some(('0', new)),
    }
}

/// The previous and the new object of the line of a symbolic update.
fn symbolic_line(edit: Edit) -> Option<(char, char)> {
    match edit.expect {
        Expect::Existing(To::Object(digit)) if edit.found.is_none() && digit != '0' => {
            Some(('0', digit))
        }
        _ => None,
    }
}

/// The previous and the new object of the line of an edit.
fn objects(edits: &[Edit], at: usize, edit: Edit) -> Option<(char, char)> {
    match edit.new? {
        To::Object(new) => object_line(edits, at, edit, new),
        To::Name(_) => symbolic_line(edit),
        To::Long | To::Partial => None,
    }
}

/// Whether an edit has a log: one that is there, or that is made.
fn has_log(rt: &impl Abort, alloc: Global, kept: &Kept, seen: &[Held], edit: Edit) -> bool {
    let log = log(rt, alloc, kept.setting, edit.name);
    match kept.setting.mode {
        WriteReflog::Disable => false,
        WriteReflog::Always => true,
        WriteReflog::Normal => {
            edit.is_forced || has_usual_log(kept.setting, edit.name) || get(seen, &log).is_some()
        }
    }
}

/// Why a line with this message cannot be made.
fn unmade(who: Who, message: &str) -> Option<Failure> {
    if who == Who::Nobody {
        return Some(Failure::MissingCommitter);
    }
    if message.contains('\n') {
        return Some(Failure::MessageWithNewlines);
    }
    if who == Who::Bracket {
        return Some(Failure::SignatureUnwritable);
    }
    None
}

/// The text of a line.
fn line(rt: &impl Abort, alloc: Global, objects: (char, char), message: &str) -> String {
    let (previous, new) = (digits(objects.0), digits(objects.1));
    let tab = if message.is_empty() { "" } else { "\t" };
    format!(in alloc; "{previous} {new} C <c@example.com> 1234 +0800{tab}{message}\n").expect(
        rt, "memory",
    )
}

/// The folder of a path.
fn folder(rt: &impl Abort, alloc: Global, path: &str) -> String {
    match path.rsplit_once('/') {
        Some((folder, _)) => text(rt, alloc, folder),
        None => text(rt, alloc, ""),
    }
}

/// The line that is due for an edit, where earlier lines have made their logs among the files that are seen.
fn due(
    rt: &impl Abort,
    alloc: Global,
    kept: &Kept,
    seen: &mut Vec<Held>,
    edits: &[Edit],
    at: usize,
    edit: Edit,
    who: Who,
) -> Result<Option<String>, Failure> {
    let Some(objects) = objects(edits, at, edit) else {
        return Ok(None);
    };
    if !has_log(rt, alloc, kept, seen, edit) {
        return Ok(None);
    }
    if let Some(failure) = unmade(who, edit.message) {
        return Err(failure);
    }
    let log = log(rt, alloc, kept.setting, edit.name);
    if is_blocked(seen, &log) {
        return Err(Failure::FileInPath(folder(rt, alloc, &log)));
    }
    put(rt, alloc, seen, &log, text(rt, alloc, ""));
    Ok(Some(line(rt, alloc, objects, edit.message)))
}

/// The lines that are due for all edits, each at the place of its edit.
fn lines(
    rt: &impl Abort,
    alloc: Global,
    kept: &Kept,
    edits: &[Edit],
    who: Who,
) -> Result<Vec<Option<String>>, Failure> {
    let mut seen = copied(rt, alloc, &kept.files);
    let mut lines = Vec::new(alloc);
    for (at, edit) in edits.iter().enumerate() {
        let line = due(rt, alloc, kept, &mut seen, edits, at, *edit, who)?;
        lines.push(line).expect(rt, "memory");
    }
    Ok(lines)
}

/// Whether an edit deletes its reference.
fn is_deletion(edit: Edit) -> bool {
    edit.new.is_none() && !edit.is_of_log
}

/// Whether an edit puts its object into `packed-refs` in place of its loose file.
fn is_put_alone(kept: &Kept, edit: Edit) -> bool {
    kept.puts == Puts::UpdatesAlone && digit_put(kept, edit).is_some()
}

/// Whether a record goes with a deletion, or for one that is put.
fn is_replaced(kept: &Kept, edits: &[Edit], record: Record) -> bool {
    for edit in edits {
        if (is_deletion(*edit) || digit_put(kept, *edit).is_some())
            && record.space == kept.setting.space
            && key(kept.setting, edit.name) == Some(record.name)
        {
            return true;
        }
    }
    false
}

/// Whether a deletion has a record, or one is put.
fn changes_records(kept: &Kept, edits: &[Edit]) -> bool {
    for edit in edits {
        if digit_put(kept, *edit).is_some()
            || (is_deletion(*edit) && record(kept, edit.name).is_some())
        {
            return true;
        }
    }
    false
}

/// Adds a line to its log.
fn append(
    rt: &impl Abort,
    alloc: Global,
    kept: &mut Kept,
    edit: Edit,
    line: &str,
) -> Result<(), Failure> {
    let log = log(rt, alloc, kept.setting, edit.name);
    if is_folder(&kept.files, &log) {
        return Err(Failure::FolderInPlace(log));
    }
    let old = get(&kept.files, &log).unwrap_or("");
    let new = format!(in alloc; "{old}{line}").expect(rt, "memory");
    put(rt, alloc, &mut kept.files, &log, new);
    Ok(())
}

/// The text of the loose file of an update, where it is written.
fn new_text(rt: &impl Abort, alloc: Global, kept: &Kept, edit: Edit) -> Option<String> {
    if edit.is_of_log || is_put_alone(kept, edit) {
        return None;
    }
    match edit.new? {
        To::Object(digit) => {
            let place = place(rt, alloc, kept.setting, edit.name);
            let is_undecodable = get(&kept.files, &place).is_some()
                && loose(rt, alloc, kept, edit.name).is_none();
            if edit.found == edit.new && !is_undecodable {
                return None;
            }
            let digits = digits(digit);
            Some(format!(in alloc; "{digits}\n").expect(rt, "memory"))
        }
        To::Name(name) => Some(format!(in alloc; "ref: {name}\n").expect(rt, "memory")),
        To::Long | To::Partial => None,
    }
}

/// Writes the loose file of an update over its lock.
fn write(rt: &impl Abort, alloc: Global, kept: &mut Kept, edit: Edit) -> Result<(), Failure> {
    if let Some(text) = new_text(rt, alloc, kept, edit) {
        let place = place(rt, alloc, kept.setting, edit.name);
        if is_folder(&kept.files, &place) {
            return Err(Failure::FolderInPlace(place));
        }
        put(rt, alloc, &mut kept.files, &place, text);
        release(rt, alloc, kept, &[edit]);
    }
    Ok(())
}

/// The updates, each with its line before it.
fn updates(
    rt: &impl Abort,
    alloc: Global,
    kept: &mut Kept,
    edits: &[Edit],
    lines: &[Option<String>],
) -> Result<(), Failure> {
    for (edit, line) in edits.iter().zip(lines) {
        if let Some(line) = line {
            append(rt, alloc, kept, *edit, line.as_str())?;
        }
        write(rt, alloc, kept, *edit)?;
    }
    Ok(())
}

/// The removals of the logs of deletions.
fn remove_logs(rt: &impl Abort, alloc: Global, kept: &mut Kept, edits: &[Edit]) {
    for edit in edits {
        if edit.new.is_none() {
            let log = log(rt, alloc, kept.setting, edit.name);
            remove(&mut kept.files, &log);
        }
    }
}

/// The record that an edit puts. The tag of the digit `a` leads to the object of the digit 3.
fn record_put(kept: &Kept, edit: Edit) -> Option<Record> {
    let digit = digit_put(kept, edit)?;
    Some(Record {
        space: kept.setting.space,
        name: key(kept.setting, edit.name)?,
        digit,
        is_peeled: digit == 'a',
    })
}

/// Whether the name of a record is below that of another one.
fn is_below(record: &Record, other: &Record) -> bool {
    let bytes = |record: &Record| record.space.bytes().chain(record.name.bytes());
    bytes(record).lt(bytes(other))
}

/// The records that stay.
fn staying(rt: &impl Abort, alloc: Global, kept: &Kept, edits: &[Edit]) -> Vec<Record> {
    let mut staying = Vec::new(alloc);
    for record in &kept.records {
        if !is_replaced(kept, edits, *record) {
            staying.push(*record).expect(rt, "memory");
        }
    }
    staying
}

/// The records that stay and those that are put, in the order of their names.
fn merged(rt: &impl Abort, alloc: Global, kept: &Kept, edits: &[Edit]) -> Vec<Record> {
    let mut records = staying(rt, alloc, kept, edits);
    for edit in edits {
        if let Some(new) = record_put(kept, *edit) {
            let place = records.iter().filter(|old| is_below(old, &new)).count();
            records.insert(place, new).expect(rt, "memory");
        }
    }
    records
}

/// The new `packed-refs`.
fn rewrite(rt: &impl Abort, alloc: Global, kept: &mut Kept, edits: &[Edit]) -> Result<(), Failure> {
    if !changes_records(kept, edits) {
        return Ok(());
    }
    if is_folder(&kept.files, "/r/packed-refs") {
        return Err(Failure::FolderInPlace(text(rt, alloc, "/r/packed-refs")));
    }
    let records = merged(rt, alloc, kept, edits);
    remove(&mut kept.files, "/r/packed-refs");
    if !records.is_empty() {
        let text = records_text(rt, alloc, HEADER, &records, "\n");
        put(rt, alloc, &mut kept.files, "/r/packed-refs", text);
    }
    Ok(())
}

/// The removals of the loose files of deletions, and of those in whose place a record is put.
fn remove_loose(rt: &impl Abort, alloc: Global, kept: &mut Kept, edits: &[Edit]) {
    for edit in edits {
        if is_deletion(*edit) || is_put_alone(kept, *edit) {
            let place = place(rt, alloc, kept.setting, edit.name);
            remove(&mut kept.files, &place);
        }
    }
}

/// Writes in order, up to the first failure.
fn write_all(
    rt: &impl Abort,
    alloc: Global,
    kept: &mut Kept,
    edits: &[Edit],
    who: Who,
) -> Result<(), Failure> {
    let lines = lines(rt, alloc, kept, edits, who)?;
    if changes_records(kept, edits) && has_bad_record(kept) {
        return Err(Failure::BadLine);
    }
    updates(rt, alloc, kept, edits, &lines)?;
    remove_logs(rt, alloc, kept, edits);
    rewrite(rt, alloc, kept, edits)?;
    remove_loose(rt, alloc, kept, edits);
    Ok(())
}

/// The records after edits, where they change.
fn records_after(
    rt: &impl Abort,
    alloc: Global,
    kept: &Kept,
    edits: &[Edit],
) -> Option<Vec<Record>> {
    if changes_records(kept, edits) {
        Some(merged(rt, alloc, kept, edits))
    } else {
        None
    }
}

/// Commits prepared edits: why that fails, with the files as they are then.
pub fn commit(
    rt: &impl Abort,
    alloc: Global,
    kept: &mut Kept,
    edits: &[Edit],
    who: Who,
) -> Result<(), Failure> {
    let records = records_after(rt, alloc, kept, edits);
    let done = write_all(rt, alloc, kept, edits, who);
    release(rt, alloc, kept, edits);
    if let (Ok(()), Some(records)) = (&done, records) {
        kept.packed = if records.is_empty() {
            Packed::Nothing
        } else {
            Packed::Sorted
        };
        kept.records = records;
    }
    done
}
