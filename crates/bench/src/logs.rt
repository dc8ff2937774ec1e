//! The modes of reflogs, which read the file `log` of the folder: `log-forward`, `log-backward`, `log-newest` (ten lines),
//! and `log-make`, which makes that file of TURNS lines of 150 bytes.
use anyhow::{Context, Result, bail};
use gix_ref_files::disk::Disk;
use gix_ref_files::files::{Files, ReadAt};
use gix_ref_log::actor::Time;
use gix_ref_log::log::iter::{ReverseError, decode, forward, reverse};
use gix_ref_log::log::{Line, LineRef};
use std::alloc::Global;
use std::fs;

/// The length of the window: 64 KB.
const WINDOW: usize = 65536;

/// A line of 150 bytes.
const LINE: &[u8] =
    b"1111111111111111111111111111111111111111 2222222222222222222222222222222222222222 C O Mitter <committer@example.com> 1618030561 +0800\tcommit: a thing\n";

/// Whether a line has any content: its lengths and its time are not all zero. Each field has a part in the result, so
/// that the making of none is left out of what is measured.
fn has_content(name: &[u8], email: &[u8], time: Time, message: &[u8]) -> bool {
    let lengths = name.len() | email.len() | message.len();
    (lengths != 0) | (time.seconds != 0) | (time.offset != 0)
}

/// Whether a borrowed line with any content was read.
fn is_read(line: &Result<LineRef<'_>, decode::Error>) -> bool {
    match line {
        Ok(line) => {
            let who = line.signature;
            has_content(who.name, who.email, who.time, line.message)
        }
        Err(_) => false,
    }
}

/// Whether an owned line with any content was read.
fn is_owned(line: &Result<Line, ReverseError>) -> bool {
    match line {
        Ok(line) => {
            let who = &line.signature;
            let has_content = has_content(&who.name, &who.email, who.time, &line.message);
            has_content && !(line.previous_oid.is_null() & line.new_oid.is_null())
        }
        Err(_) => false,
    }
}

/// How many lines of the log were read, oldest first.
fn read_forward(log: &[u8]) -> u64 {
    let mut hits = 0u64;
    for line in forward(log) {
        if is_read(&line) {
            hits = hits.wrapping_add(1);
        }
    }
    hits
}

/// How many lines of the log were read, newest first, of at most so many.
fn read_backward<F: ReadAt + Drop>(alloc: Global, log: F, buf: &mut [u8], most: u64) -> u64 {
    let mut hits = 0u64;
    let Ok(lines) = reverse(alloc, log, buf) else {
        return 0;
    };
    for line in lines {
        if hits >= most {
            return hits;
        }
        if is_owned(&line) {
            hits = hits.wrapping_add(1);
        }
    }
    hits
}

fn forward_turns(rt: &HostRuntime, path: &str, turns: u64) -> Result<u64> {
    let log = fs::read(rt, path)?;
    let mut hits = 0u64;
    for _ in 0..turns {
        hits = hits.wrapping_add(read_forward(&log));
    }
    Ok(hits)
}

fn backward_turns(rt: &HostRuntime, path: &str, turns: u64, most: u64) -> Result<u64> {
    let alloc = rt.alloc();
    let mut disk = Disk::new(rt.clone()?);
    let mut buf = vec![in alloc; 0u8; WINDOW]?;
    let mut hits = 0u64;
    for _ in 0..turns {
        let Some(log) = disk.open(alloc, path.as_bytes())? else {
            bail!("there is no log")
        };
        hits = hits.wrapping_add(read_backward(alloc, log, buf.as_mut_slice(), most));
    }
    Ok(hits)
}

fn make(rt: &HostRuntime, path: &str, lines: u64) -> Result<u64> {
    let mut text = Vec::new(rt.alloc());
    for _ in 0..lines {
        text.extend_from_slice(LINE)?;
    }
    fs::write(rt, path, text.as_slice())?;
    Ok(lines)
}

/// Does the work of a mode, and returns how many lines were read; `None` where there is no such mode.
pub fn run(rt: &HostRuntime, mode: &str, folder: &str, turns: u64) -> Result<Option<u64>> {
    let path = format!(in rt.alloc(); "{folder}/log").context("a path")?;
    let path = path.as_str();
    let hits = match mode {
        "log-forward" => forward_turns(rt, path, turns)?,
        "log-backward" => backward_turns(rt, path, turns, u64::MAX)?,
        "log-newest" => backward_turns(rt, path, turns, 10)?,
        "log-make" => make(rt, path, turns)?,
        _ => return Ok(None),
    };
    Ok(Some(hits))
}
