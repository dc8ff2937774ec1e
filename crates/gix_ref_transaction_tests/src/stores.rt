//! Small random stores, each as plain lists of files and records and as files in memory.
use crate::dice::Dice;
use crate::files::{Held, put, text};
use crate::made::digits;
use crate::names::{NAMES, OTHERS, Setting, log, place};
use gix_ref_memory::memory::Memory;
use gix_ref_store::store::WriteReflog;
use std::alloc::Global;
use std::process::Abort;

/// The first line of a sorted `packed-refs`.
pub const HEADER: &str = "# pack-refs with: peeled fully-peeled sorted \n";

/// The names of records, in the order of their bytes.
const RECORDED: &[&str] = &[
    "refs/heads/a",
    "refs/heads/a/b",
    "refs/heads/b",
    "refs/heads/c",
    "refs/tags/t",
    "refs/x/s",
];

/// A record of `packed-refs`.
#[derive(Clone, Copy, Debug)]
pub struct Record {
    /// The text in front of its name: none, or that of the namespace.
    pub space: &'static str,
    pub name: &'static str,
    /// The digit of its id, `z` for a text that is no id.
    pub digit: char,
    /// It has a peeled id.
    pub is_peeled: bool,
}

/// What `packed-refs` is.
#[derive(Clone, Copy, Debug, PartialEq, Eq)]
pub enum Packed {
    Nothing,
    Sorted,
    /// It has no header, and its records are in another order.
    Unsorted,
    /// It begins with a comment that is no header.
    BadHeader,
}

/// What its transactions put into `packed-refs`.
#[derive(Clone, Copy, Debug, PartialEq, Eq)]
pub enum Puts {
    Nothing,
    /// Updates to objects, beside their loose files.
    Updates,
    /// Updates to objects, in place of their loose files.
    UpdatesAlone,
}

/// A store. The file `packed-refs` is among its files, and its records are in the order of their names.
#[derive(Debug, Drop)]
pub struct Kept {
    pub puts: Puts,
    pub setting: Setting,
    pub files: Vec<Held>,
    pub packed: Packed,
    pub records: Vec<Record>,
}

/// Adds the lines of a record.
fn push_record(rt: &impl Abort, alloc: Global, text: &mut String, record: Record, end: &str) {
    let digits_of = digits(record.digit);
    let Record { space, name, .. } = record;
    let line = format!(in alloc; "{digits_of} {space}{name}{end}").expect(rt, "memory");
    text.push_str(line.as_str()).expect(rt, "memory");
    if record.is_peeled {
        let peeled = digits('3');
        let line = format!(in alloc; "^{peeled}{end}").expect(rt, "memory");
        text.push_str(line.as_str()).expect(rt, "memory");
    }
}

/// The lines of records, after this text.
pub fn records_text(
    rt: &impl Abort,
    alloc: Global,
    front: &str,
    records: &[Record],
    end: &str,
) -> String {
    let mut all = text(rt, alloc, front);
    for record in records {
        push_record(rt, alloc, &mut all, *record, end);
    }
    all
}

/// The same records, the last one first.
fn reversed(rt: &impl Abort, alloc: Global, records: &[Record]) -> Vec<Record> {
    let mut list = Vec::with_capacity(alloc, records.len()).expect(rt, "memory");
    for record in records.iter().rev() {
        list.push(*record).expect(rt, "room");
    }
    list
}

/// A digit of an object.
pub fn random_digit(dice: &mut Dice) -> char {
    match dice.roll() {
        0..=99 => '1',
        100..=199 => '2',
        _ => 'a',
    }
}

/// The name that a symbolic reference leads to.
pub fn random_target(dice: &mut Dice) -> &'static str {
    match dice.roll() {
        0..=235 => dice.pick(&NAMES),
        236..=251 => dice.pick(&OTHERS),
        _ => "logs/HEAD",
    }
}

/// The text of a symbolic reference, whose target has the namespace in front mostly.
fn symbolic_text(
    rt: &impl Abort,
    alloc: Global,
    dice: &mut Dice,
    setting: Setting,
    name: &str,
) -> String {
    let space = if dice.is_below(40) { "" } else { setting.space };
    format!(in alloc; "ref: {space}{name}\n").expect(rt, "memory")
}

/// The text of a loose file that is there.
fn random_text(rt: &impl Abort, alloc: Global, dice: &mut Dice, setting: Setting) -> String {
    let digits = digits(random_digit(dice));
    match dice.roll() {
        0..=159 => format!(in alloc; "{digits}\n").expect(rt, "memory"),
        160..=215 => {
            let name = random_target(dice);
            symbolic_text(rt, alloc, dice, setting, name)
        }
        216..=225 => format!(in alloc; "{digits} and more").expect(rt, "memory"),
        226..=233 => format!(in alloc; "{digits}{digits}").expect(rt, "memory"),
        234..=241 => text(rt, alloc, "ref:   refs/heads/b"),
        242..=247 => text(rt, alloc, "ref: main\n"),
        _ => text(rt, alloc, "xyz"),
    }
}

/// Puts a file, where nothing is in its way.
fn add(
    rt: &impl Abort,
    alloc: Global,
    kept: &mut Kept,
    memory: &mut Memory,
    path: &str,
    text: String,
) {
    if memory
        .put(path.as_bytes(), text.as_bytes())
        .expect(rt, "memory")
    {
        put(rt, alloc, &mut kept.files, path, text);
    }
}

/// Puts loose files of some of these names.
fn add_loose(
    rt: &impl Abort,
    alloc: Global,
    dice: &mut Dice,
    kept: &mut Kept,
    memory: &mut Memory,
    names: &[&'static str],
    limit: u32,
) {
    for name in names {
        if dice.is_below(limit) {
            let path = place(rt, alloc, kept.setting, name);
            let text = random_text(rt, alloc, dice, kept.setting);
            add(rt, alloc, kept, memory, &path, text);
        }
    }
}

/// Has `HEAD` lead to a branch, mostly.
fn add_head(rt: &impl Abort, alloc: Global, dice: &mut Dice, kept: &mut Kept, memory: &mut Memory) {
    if dice.is_below(160) {
        let path = place(rt, alloc, kept.setting, "HEAD");
        let name = dice.pick(&["refs/heads/a", "refs/heads/b", "refs/heads/c", "refs/x/s"]);
        let text = symbolic_text(rt, alloc, dice, kept.setting, name);
        add(rt, alloc, kept, memory, &path, text);
    }
}

/// Puts logs of some of these names.
fn add_logs(
    rt: &impl Abort,
    alloc: Global,
    dice: &mut Dice,
    kept: &mut Kept,
    memory: &mut Memory,
    names: &[&'static str],
) {
    if dice.is_below(6) {
        let path = dice.pick(&["/r/logs/refs/heads", "/r/logs/refs/x"]);
        add(
            rt,
            alloc,
            kept,
            memory,
            path,
            text(rt, alloc, "in the path"),
        );
    }
    for name in names {
        if dice.is_below(80) {
            let path = log(rt, alloc, kept.setting, name);
            add(rt, alloc, kept, memory, &path, text(rt, alloc, "a line\n"));
        }
    }
}

/// Puts a lock, which another process may have left, and seldom a folder at the path of `packed-refs`.
fn add_locks(
    rt: &impl Abort,
    alloc: Global,
    dice: &mut Dice,
    kept: &mut Kept,
    memory: &mut Memory,
) {
    if dice.is_below(20) {
        let path = place(rt, alloc, kept.setting, dice.pick(&NAMES));
        let path = format!(in alloc; "{path}.lock").expect(rt, "memory");
        add(
            rt,
            alloc,
            kept,
            memory,
            &path,
            text(rt, alloc, "their lock"),
        );
    }
    if dice.is_below(5) {
        add(
            rt,
            alloc,
            kept,
            memory,
            "/r/packed-refs.lock",
            text(rt, alloc, ""),
        );
    }
    if dice.is_below(3) {
        add(
            rt,
            alloc,
            kept,
            memory,
            "/r/refs/tags/t.lock/x",
            text(rt, alloc, ""),
        );
    }
    if kept.packed == Packed::Nothing && dice.is_below(8) {
        add(
            rt,
            alloc,
            kept,
            memory,
            "/r/packed-refs/x",
            text(rt, alloc, ""),
        );
    }
}

/// The record of a name; this many of 256 are bad.
fn random_record(dice: &mut Dice, space: &'static str, name: &'static str, bad: u32) -> Record {
    let digit = if dice.is_below(bad) {
        'z'
    } else if dice.is_below(50) {
        'A'
    } else {
        random_digit(dice)
    };
    Record {
        space,
        name,
        digit,
        is_peeled: dice.is_below(60),
    }
}

/// Records of some names; in a namespace, one outside of it is the first.
fn random_records(
    rt: &impl Abort,
    alloc: Global,
    dice: &mut Dice,
    space: &'static str,
    bad: u32,
) -> Vec<Record> {
    let mut records = Vec::new(alloc);
    if !space.is_empty() {
        let outside = Record {
            space: "",
            name: "refs/heads/a",
            digit: '3',
            is_peeled: false,
        };
        records.push(outside).expect(rt, "memory");
    }
    for name in RECORDED {
        if dice.is_below(110) {
            let record = random_record(dice, space, name, bad);
            records.push(record).expect(rt, "memory");
        }
    }
    records
}

/// What `packed-refs` is.
fn random_packed(dice: &mut Dice) -> Packed {
    match dice.roll() {
        0..=79 => Packed::Nothing,
        80..=189 => Packed::Sorted,
        190..=251 => Packed::Unsorted,
        _ => Packed::BadHeader,
    }
}

/// The text of `packed-refs`.
fn packed_text(rt: &impl Abort, alloc: Global, dice: &mut Dice, kept: &Kept) -> Option<String> {
    let end = if dice.is_below(40) { "\r\n" } else { "\n" };
    match kept.packed {
        Packed::Nothing => None,
        Packed::Sorted => Some(records_text(rt, alloc, HEADER, &kept.records, end)),
        Packed::Unsorted => {
            let records = reversed(rt, alloc, &kept.records);
            Some(records_text(rt, alloc, "", &records, end))
        }
        Packed::BadHeader => Some(records_text(rt, alloc, "# comment\n", &kept.records, end)),
    }
}

/// Puts `packed-refs`.
fn add_packed(
    rt: &impl Abort,
    alloc: Global,
    dice: &mut Dice,
    kept: &mut Kept,
    memory: &mut Memory,
) {
    kept.packed = random_packed(dice);
    if kept.packed != Packed::Nothing {
        let bad = if kept.packed == Packed::Sorted { 18 } else { 4 };
        kept.records = random_records(rt, alloc, dice, kept.setting.space, bad);
    }
    if let Some(text) = packed_text(rt, alloc, dice, kept) {
        add(rt, alloc, kept, memory, "/r/packed-refs", text);
    }
}

/// Folders and options.
fn random_setting(dice: &mut Dice) -> Setting {
    Setting {
        git: if dice.is_below(80) {
            "/r/worktrees/w"
        } else {
            "/r"
        },
        space: if dice.is_below(80) {
            "refs/namespaces/foo/"
        } else {
            ""
        },
        mode: match dice.roll() {
            0..=29 => WriteReflog::Disable,
            30..=69 => WriteReflog::Always,
            _ => WriteReflog::Normal,
        },
        prohibits: dice.is_below(128),
    }
}

/// A store, and the same files in memory.
pub fn random_store(rt: &impl Abort, alloc: Global, dice: &mut Dice) -> (Kept, Memory) {
    let setting = random_setting(dice);
    random_store_of(rt, alloc, dice, setting)
}

/// One with these folders and options.
pub fn random_store_of(
    rt: &impl Abort,
    alloc: Global,
    dice: &mut Dice,
    setting: Setting,
) -> (Kept, Memory) {
    let mut kept = Kept {
        puts: Puts::Nothing,
        setting,
        files: Vec::new(alloc),
        packed: Packed::Nothing,
        records: Vec::new(alloc),
    };
    let mut memory = Memory::new(alloc);
    add_packed(rt, alloc, dice, &mut kept, &mut memory);
    add_head(rt, alloc, dice, &mut kept, &mut memory);
    add_loose(rt, alloc, dice, &mut kept, &mut memory, &NAMES, 120);
    add_loose(rt, alloc, dice, &mut kept, &mut memory, &OTHERS, 40);
    add_logs(rt, alloc, dice, &mut kept, &mut memory, &NAMES);
    add_logs(rt, alloc, dice, &mut kept, &mut memory, &OTHERS);
    add_locks(rt, alloc, dice, &mut kept, &mut memory);
    (kept, memory)
}
