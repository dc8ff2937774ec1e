//! What is found of a reference: the target of its loose file, or else the object of its record.
use crate::files::get;
use crate::made::{To, digits};
use crate::names::{KNOWN, key, place};
use crate::stores::{Kept, Record};
use std::alloc::Global;
use std::process::Abort;

/// The name after `ref: `, without the namespace.
fn named(space: &str, rest: &str) -> Option<To> {
    let name = rest.trim();
    let name = name.strip_prefix(space).unwrap_or(name);
    for known in KNOWN {
        if *known == name {
            return Some(To::Name(known));
        }
    }
    None
}

/// The object whose digits a text begins with, where no further digit follows.
fn object(text: &str) -> Option<To> {
    for digit in ['0', '1', '2', '3', 'a'] {
        if let Some(rest) = text.strip_prefix(digits(digit)) {
            return if rest.starts_with(digit) {
                None
            } else {
                Some(To::Object(digit))
            };
        }
    }
    None
}

/// The target of a loose text.
fn decoded(space: &str, text: &str) -> Option<To> {
    match text.strip_prefix("ref: ") {
        Some(rest) => named(space, rest),
        None => object(text),
    }
}

/// The target of the loose file of a name.
pub fn loose(rt: &impl Abort, alloc: Global, kept: &Kept, name: &'static str) -> Option<To> {
    let place = place(rt, alloc, kept.setting, name);
    decoded(kept.setting.space, get(&kept.files, &place)?)
}

/// The record of a name.
pub fn record(kept: &Kept, name: &'static str) -> Option<Record> {
    let key = key(kept.setting, name)?;
    for record in &kept.records {
        if record.space == kept.setting.space && record.name == key {
            return Some(*record);
        }
    }
    None
}

/// The object of a record.
fn object_of(record: Record) -> To {
    match record.digit {
        'A' => To::Object('a'),
        digit => To::Object(digit),
    }
}

/// What is found of a name.
pub fn found(rt: &impl Abort, alloc: Global, kept: &Kept, name: &'static str) -> Option<To> {
    match loose(rt, alloc, kept, name) {
        Some(to) => Some(to),
        None => Some(object_of(record(kept, name)?)),
    }
}
