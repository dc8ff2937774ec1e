//! The objects of a repository, as far as packing has to know them.
ghost use Rattle.std.specs.Prelude.{◌≡◌, ◌≢◌, ◌++◌, List, [], None, IfErr, IfOk, MatchOption, OnOk};
ghost use Rattle.gix_ref_hash.specs.declared.hash.ObjectId.{ObjectId as Id};
ghost use Rattle.gix_ref_pack.specs.KnownObjects.{end_after, end_by, end_in, is_known, known_after, stored_in, tag_text};
ghost use Rattle.gix_ref_pack.specs.TableRows.{IsFirstLine, IsNoTable, IsRow, IsTable};
ghost use Rattle.gix_ref_pack.specs.declared.objects.Row.{Row as ARow};

use gix_ref_hash::bytes::cut;
use gix_ref_hash::hash::ObjectId;
use gix_ref_object::object::{Data, Find, FindError, Kind};
use std::alloc::{AllocError, Global};
use std::collections::BTreeMap;
use thiserror::Error;

/// A finder of objects by a table. Of a tag it has the object that the tag leads to; any other object of the table it takes for a commit,
/// which is as good for peeling.
#[derive(Drop)]
pub struct Objects {
    /// Each object, with the one at the end of its tags if it is a tag.
    ends: BTreeMap<ObjectId, Option<ObjectId>>,
}

/// Why a table is not read.
#[derive(Debug, Drop, Error)]
pub enum TableError {
    /// This line, counted from 1, does not begin with an id, or has something else than an id after its first blank.
    #[error("line {0} is no object")]
    Line(usize),
    /// There was no memory.
    #[error("out of memory")]
    Memory,
}

impl From<AllocError> for TableError {
    ghost use Rattle.std.specs.Prelude.{◌≡◌};
    ghost use Rattle.gix_ref_pack.specs.declared.objects.TableError.TheVariants.{Memory};

    ghost from_gives = { λ _ error. error ≡ Memory };

    fn from(_error: AllocError) -> TableError {
        TableError::Memory
    }
}

/// A line of a table: an object, and the one at the end of its tags if it is a tag.
#[derive(Clone, Copy)]
struct Row {
    id: ObjectId,
    end: Option<ObjectId>,
}

/// The object of a line `ID` or `ID `, and of a line `ID PEELED` with the one at the end of its tags; `None` for a line that is none.
fn row_of(line: &[u8]) -> Option<Row>
    ensures { MatchOption result ((row : ARow) → IsRow line.now row → ⊥) (IsRow line.now) }
{
    let Some((id, peeled)) = cut(line, b' ') else {
        return match ObjectId::from_hex(line) {
            Some(id) => Some(Row { id, end: None }),
            None => None,
        };
    };
    let Some(id) = ObjectId::from_hex(id) else {
        return None;
    };
    if peeled.is_empty() {
        return Some(Row { id, end: None });
    }
    match ObjectId::from_hex(peeled) {
        Some(end) => Some(Row { id, end: Some(end) }),
        None => None,
    }
}

/// The first line of a text, and what comes after it. The last line may have no line break.
fn first_line(text: &[u8]) -> (&[u8], &[u8])
    ensures { text.now ≢ [] → IsFirstLine text.now result.0.now result.1.now }
{
    match cut(text, b'\n') {
        Some((line, after)) => (line, after),
        None => (text, b"".as_slice()),
    }
}

impl Objects {
    /// No objects.
    pub fn new(alloc: Global) -> Objects
        ensures { (id : Id) → end_in result id ≡ None }
    {
        Objects {
            ends: BTreeMap::new(alloc),
        }
    }

    /// The objects of a table: a line `ID PEELED` for each tag, where PEELED is the object at the end of its tags, and a line `ID` or `ID `
    /// for any other object. Ids have 40 or 64 hex digits. Where PEELED has a line of its own, that counts; of two lines of one object the
    /// later does.
    ///
    /// `git cat-file --batch-check` has these ids, where it is given each object and, with `^{}` after it, the end of its tags.
    /// `%(*objectname)` of `git for-each-ref` will not do with git 2.39: of a tag of a tag it is the inner tag.
    ///
    /// `Line` with the number of the first line that is none; `Memory`.
    pub fn read(alloc: Global, table: &[u8]) -> Result<Objects, TableError>
        ensures read { IfOk result (λ objects. (rows : List ARow) × IsTable table.now rows
            × ((id : Id) → end_in objects id ≡ end_by rows id)) }
        ensures refused { IfErr result (IsNoTable table.now) }
    {
        let mut objects = Objects::new(alloc);
        let mut rest = table;
        let mut number = 0usize;
        while !rest.is_empty() {
            let (line, after) = first_line(rest);
            number += 1;
            let Some(row) = row_of(line) else {
                return Err(TableError::Line(number));
            };
            objects.add(row)?;
            rest = after;
        }
        Ok(objects)
    }

    /// Adds the objects of a line.
    fn add(&mut self, row: Row) -> Result<(), AllocError>
        ensures { OnOk result ((id : Id) → end_in self.new id
            ≡ end_after row (end_in self.old id) id) }
    {
        if let Some(end) = row.end {
            self.add_commit(end)?;
        }
        self.ends.insert(row.id, row.end)?;
        Ok(())
    }

    /// Adds an object that is no tag, unless it is known already. The error says that there was no memory for it.
    pub fn add_commit(&mut self, id: ObjectId) -> Result<(), AllocError>
        ensures added { OnOk result ((other : Id) → end_in self.new other
            ≡ known_after id (end_in self.old other) other) }
        ensures refused { IfErr result (λ _. (other : Id) → end_in self.new other
            ≡ end_in self.old other) }
    {
        if !self.has(&id) {
            self.ends.insert(id, None)?;
        }
        Ok(())
    }

    /// Whether an object is known.
    pub fn has(&self, id: &ObjectId) -> bool
        ensures { result ≡ is_known self.now id.now }
    {
        self.ends.get(id).is_some()
    }
}

/// Puts the text of a tag of this object into the buffer, as far as it is read.
fn put_tag(buf: &mut Vec<u8>, end: &ObjectId) -> Result<(), AllocError>
    ensures { OnOk result (buf.new.items ≡ buf.old.items ++ tag_text end.now) }
{
    buf.extend_from_slice(b"object ")?;
    end.push_hex(buf)?;
    buf.extend_from_slice(b"\n")?;
    Ok(())
}

impl Find for Objects {
    ghost meaning = { λ objects id. stored_in objects id };

    ghost claims = { λ _. Unit {0} };

    fn try_find<'b>(
        &self,
        id: &ObjectId,
        buf: &'b mut Vec<u8>,
    ) -> Result<Option<Data<'b>>, FindError> {
        let Some(end) = self.ends.get(id) else {
            return Ok(None);
        };
        buf.clear();
        let kind = match end {
            None => Kind::Commit,
            Some(end) => {
                if put_tag(buf, end).is_err() {
                    return Err(FindError::Memory);
                }
                Kind::Tag
            }
        };
        Ok(Some(Data {
            kind,
            bytes: buf,
            object_hash: id.kind(),
        }))
    }
}
