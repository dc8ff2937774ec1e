//! Measures the formats: `bench MODE FOLDER TURNS` does the work of the mode so many times on the files of the folder. It
//! prints the number of hits, and on standard error the nanoseconds that this took. The work of the modes that end in
//! `-make` is to write the files that the others read; `tiny` does a little of each.
//!
//! ```text
//! bench packed-make FOLDER 10000             makes FOLDER/packed-refs of so many records
//! bench packed-make-unsorted FOLDER 10000    the same, the last name first, without a header
//! bench packed-find FOLDER 1000              opens it, and searches so many times in memory
//! bench packed-file FOLDER 1000              searches so many times in the file, which it opens each time
//! bench packed-list FOLDER 20                reads all records so many times
//! bench packed-open FOLDER 20                opens it so many times
//! bench log-make FOLDER 10000                makes FOLDER/log of so many lines
//! bench log-forward FOLDER 20                reads it so many times, oldest first
//! bench log-backward FOLDER 20               and newest first
//! bench log-newest FOLDER 20                 and ten lines from its end
//! bench find-hit FOLDER 1000                 looks names up in a repository, with its packed-refs held in memory
//! bench find-miss FOLDER 1000                looks the same names up with `x` after them
//! bench open-find FOLDER 1000                opens the store for each lookup
//! bench list FOLDER 1                        lists all references, and reads `packed-refs` anew each time
//! bench list-prefix FOLDER 1000              lists those of the prefix in FOLDER/peers-prefix.txt
//! bench log10 FOLDER 1000                    reads the ten newest lines of the reflog of refs/heads/main
//! bench logall FOLDER 1                      reads all its lines, newest first
//! bench update FOLDER 1000                   makes one transaction a turn, of refs/heads/main with a log line, without syncs
//! bench update-synced FOLDER 1000            the same, on a disk that syncs
//! bench update-many FOLDER 1000              makes one transaction of so many updates, each of another reference, without syncs
//! bench prepare-many FOLDER 1000             prepares it, and gives it up
//! bench delete-many FOLDER 1000              makes one transaction of so many deletions
//! bench pack-many FOLDER 1000                makes one of so many updates that go into `packed-refs` alone, without log lines
//! bench pack-many-beside FOLDER 1000         makes one that writes their loose files too
//! ```
//!
//! The modes from `find-hit` on print `MODE TURNS NANOSECONDS HITS`; lookups take their names from the lines of
//! `FOLDER/peers-names.txt`, updates their ids from those of `FOLDER/peers-ids.txt`.
#![tactic(auto)]

mod listings;
mod logs;
mod lookups;
mod packed;
mod updates;

use anyhow::{Context, Result, bail};
use gix_ref_files::disk::Disk;
use gix_ref_memory::memory::Memory;
use std::env;
use std::time::Instant;

/// A little of each: packed references in memory, and the log of the folder.
fn tiny(rt: &HostRuntime, folder: &str, turns: u64) -> Result<u64> {
    let mut files = Memory::new(rt.alloc());
    let packed = packed::tiny(rt.alloc(), &mut files, turns);
    let logs = logs::run(rt, "log-forward", folder, turns)?;
    Ok(packed.saturating_add(logs.unwrap_or(0)))
}

/// The disk of a mode: only that of `update-synced` syncs.
fn disk_of(rt: &HostRuntime, mode: &str) -> Result<Disk> {
    if mode == "update-synced" {
        return Ok(Disk::new(rt.clone()?));
    }
    Ok(Disk::without_syncs(rt.clone()?))
}

/// The work of a mode over a repository; `None` for another mode, or where the repository cannot be read.
fn repository_hits(rt: &HostRuntime, mode: &str, folder: &str, turns: u64) -> Result<Option<u64>> {
    let alloc = rt.alloc();
    let found = lookups::run(alloc, Disk::new(rt.clone()?), mode, folder, turns);
    if found.is_some() {
        return Ok(found);
    }
    let listed = listings::run(alloc, Disk::new(rt.clone()?), mode, folder, turns);
    if listed.is_some() {
        return Ok(listed);
    }
    Ok(updates::run(alloc, disk_of(rt, mode)?, mode, folder, turns))
}

/// The work of a mode.
fn hits_of(rt: &HostRuntime, mode: &str, folder: &str, turns: u64) -> Result<u64> {
    if mode == "tiny" {
        return tiny(rt, folder, turns);
    }
    if let Some(hits) = logs::run(rt, mode, folder, turns)? {
        return Ok(hits);
    }
    let mut files = Disk::new(rt.clone()?);
    Ok(packed::run(rt.alloc(), &mut files, mode, folder, turns))
}

fn main(rt: HostRuntime) -> Result<()> {
    let mut words = env::args(&rt)?.skip(1);
    let (Some(mode), Some(folder), Some(turns)) = (words.next(), words.next(), words.next()) else {
        bail!("bench MODE FOLDER TURNS")
    };
    let turns = turns.parse::<u64>().context("TURNS")?;
    let start = Instant::now(&rt)?;
    if let Some(hits) = repository_hits(&rt, mode.as_str(), folder.as_str(), turns)? {
        let nanoseconds = start.elapsed(&rt)?.as_nanos();
        println!(rt; "{mode} {turns} {nanoseconds} {hits}")?;
        return Ok(());
    }
    let hits = hits_of(&rt, mode.as_str(), folder.as_str(), turns)?;
    let nanoseconds = start.elapsed(&rt)?.as_nanos();
    println!(rt; "{hits}")?;
    eprintln!(rt; "{nanoseconds}")?;
    Ok(())
}
