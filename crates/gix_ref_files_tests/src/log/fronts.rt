//! Each front of a log of two lines, from either end and through buffers of each length up to more than a line, beside a slow
//! reading that cuts the log at its line ends first.
use crate::log::items::Seen::{self, Fault, Line, Other, TooSmall};
use crate::log::items::{check_forward, line_x, read};
use crate::log::made::joined;
use crate::log::reader::Tally;
use std::alloc::Global;
use std::process::Abort;

/// The lines of a log. Nothing follows a final LF.
fn cut<'l>(rt: &impl Abort, alloc: Global, log: &'l [u8]) -> Vec<&'l [u8]> {
    let mut lines = Vec::new(alloc);
    for line in log.split_inclusive(|byte| *byte == b'\n') {
        let line = line.strip_suffix(b"\n").unwrap_or(line);
        lines.push(line).expect(rt, "memory");
    }
    lines
}

/// What a front of the line X gives: its message is `m`, and without that it is a line up to its zone.
fn seen_front(line: &[u8], number: u64) -> Seen {
    match line.len() {
        112 => Line,
        110 | 111 => Other,
        _ => Fault(number),
    }
}

/// The items from the end: a line fits with the LF before it, and the first one of the file alone.
fn slow_backward(rt: &impl Abort, alloc: Global, log: &[u8], room: usize) -> Vec<Seen> {
    let lines = cut(rt, alloc, log);
    let mut items = Vec::new(alloc);
    for (at, line) in lines.iter().enumerate().rev() {
        let before = usize::from(at > 0);
        if line.len().saturating_add(before) > room {
            items.push(TooSmall).expect(rt, "memory");
            return items;
        }
        let number = lines.len().saturating_sub(at) as u64;
        items.push(seen_front(line, number)).expect(rt, "memory");
    }
    items
}

#[test]
fn each_front_through_each_buffer(rt: HostRuntime) {
    let alloc = rt.alloc();
    let x = line_x(&rt, alloc);
    let log = joined(&rt, alloc, &[&x, &x]);
    for len in 0..=log.len() {
        let front = &log[..len];
        for room in 1..=120usize {
            let items = read(&rt, alloc, front, room, &Tally::new(0));
            let want = slow_backward(&rt, alloc, front, room);
            assert!(&rt; items == want, "{len} bytes through {room}");
        }
        let mut want = Vec::new(alloc);
        for (at, line) in cut(&rt, alloc, front).iter().enumerate() {
            let number = at.saturating_add(1) as u64;
            want.push(seen_front(line, number)).expect(&rt, "memory");
        }
        check_forward(&rt, front, &want);
    }
}
