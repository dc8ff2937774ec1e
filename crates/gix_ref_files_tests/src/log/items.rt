//! The items of logs from either end.
use crate::log::made::{ONES, ZEROS, joined};
use crate::log::reader::{Counted, Tally};
use gix_ref_files::files::FileError;
use gix_ref_log::log::iter::{EmptyBuffer, ReverseError, decode, forward, reverse};
use std::alloc::Global;
use std::io::ErrorKind;
use std::process::Abort;

/// What comes of a line.
#[derive(Clone, Copy, Debug, PartialEq, Eq)]
pub enum Seen {
    /// The line, whose message is `m`.
    Line,
    /// A decode fault with this number.
    Fault(u64),
    /// The line does not fit.
    TooSmall,
    /// The device failed.
    Io,
    /// Anything else.
    Other,
}

use Seen::{Fault, Io, Line, Other, TooSmall};

/// The line X of the worked rows: 113 bytes with its LF.
pub fn line_x(rt: &impl Abort, alloc: Global) -> Vec<u8> {
    let who = b" C <c@example.com> 1234 +0800\tm\n".as_slice();
    joined(rt, alloc, &[ZEROS, b" ", ONES, who])
}

/// A fault from the end.
fn seen_fault(error: ReverseError) -> Seen {
    match error {
        ReverseError::Decode(error) => match error.line {
            decode::LineNumber::FromEnd(n) => Fault(n),
            decode::LineNumber::FromStart(_) => Other,
        },
        ReverseError::BufferTooSmall => TooSmall,
        ReverseError::Io(FileError::Device(ErrorKind::Other)) => Io,
        _ => Other,
    }
}

/// An item from the end.
fn seen_backward(item: Result<gix_ref_log::log::Line, ReverseError>) -> Seen {
    match item {
        Ok(line) if line.message.as_slice() == b"m".as_slice() => Line,
        Ok(_) => Other,
        Err(error) => seen_fault(error),
    }
}

/// A lent item from the end.
fn seen_lent(item: Result<gix_ref_log::log::LineRef<'_>, ReverseError>) -> Seen {
    match item {
        Ok(line) if line.message == b"m".as_slice() => Line,
        Ok(_) => Other,
        Err(error) => seen_fault(error),
    }
}

/// The items from the end of a log, of a reader whose nth read fails, and then the end, twice.
pub fn read(rt: &impl Abort, alloc: Global, log: &[u8], room: usize, tally: &Tally) -> Vec<Seen> {
    let mut buf = vec![in alloc; 0u8; room].expect(rt, "memory");
    let mut items = Vec::new(alloc);
    let reader = Counted::new(log, tally);
    let mut lines = reverse(alloc, reader, buf.as_mut_slice()).expect(rt, "room");
    for _ in 0..1000000 {
        match lines.next() {
            Some(item) => items.push(seen_backward(item)).expect(rt, "memory"),
            None => {
                assert!(rt; lines.next().is_none(), "it stays ended");
                return items;
            }
        }
    }
    items
}

/// As `read`, of the lent items; every third one is owned where they are mixed.
fn read_lent(
    rt: &impl Abort,
    alloc: Global,
    log: &[u8],
    room: usize,
    tally: &Tally,
    mixed: bool,
) -> Vec<Seen> {
    let mut buf = vec![in alloc; 0u8; room].expect(rt, "memory");
    let mut items = Vec::new(alloc);
    let reader = Counted::new(log, tally);
    let mut lines = reverse(alloc, reader, buf.as_mut_slice()).expect(rt, "room");
    for turn in 0..1000000u64 {
        let seen = if mixed && turn % 3 == 2 {
            lines.next().map(|item| seen_backward(item))
        } else {
            lines.next_ref().map(|item| seen_lent(item))
        };
        match seen {
            Some(seen) => items.push(seen).expect(rt, "memory"),
            None => {
                assert!(rt; lines.next_ref().is_none(), "it stays ended");
                return items;
            }
        }
    }
    items
}

/// Logs without a line of a reflog, each with a buffer's length and the items from the end.
const FAULTS: &[(&[u8], usize, &[Seen], &str)] = &[
    (
        b"a\nbb\n",
        3,
        &[Fault(1), Fault(2)],
        "each line fits with the LF before it",
    ),
    (
        b"a\nbb\n",
        2,
        &[TooSmall],
        "no room for the LF before a line",
    ),
    (b"", 3, &[], "nothing"),
    (b"\n\n", 1, &[Fault(1), Fault(2)], "empty lines"),
    (b"\n", 1, &[Fault(1)], "an empty line"),
    (b"abc\nde", 3, &[Fault(1), Fault(2)], "no LF at the end"),
    (
        b"abcd\nde",
        3,
        &[Fault(1), TooSmall],
        "the first line does not fit",
    ),
    (b"a\nbcd", 3, &[TooSmall], "the last line does not fit"),
    (
        b"abc\n",
        3,
        &[Fault(1)],
        "the first line needs no LF before it",
    ),
    (b"abc", 2, &[TooSmall], "a byte too many"),
    (b"a\r\nb\r\n", 3, &[Fault(1), Fault(2)], "CR counts"),
    (b"a\r\nb\r\n", 2, &[TooSmall], "CR does not fit"),
];

#[test]
fn lines_that_are_none(rt: HostRuntime) {
    for &(log, room, want, what) in FAULTS {
        let items = read(&rt, rt.alloc(), log, room, &Tally::new(0));
        assert!(rt; items.as_slice() == want, "{what}");
    }
}

#[test]
fn an_empty_buffer(rt: HostRuntime) {
    let tally = Tally::new(0);
    let reader = Counted::new(b"a", &tally);
    assert!(rt;
        matches!(reverse(rt.alloc(), reader, &mut []), Err(EmptyBuffer)),
        "no room"
    );
}

/// No call of this test takes memory, so that it also holds where each growth is refused.
#[test]
fn faults_take_no_memory(rt: HostRuntime) {
    let tally = Tally::new(0);
    let reader = Counted::new(b"a\nbb\n", &tally);
    let mut buf = [0u8; 3];
    let mut lines = reverse(rt.alloc(), reader, &mut buf).expect(&rt, "room");
    for number in 1..3u64 {
        let item = lines.next().map(|item| seen_backward(item));
        assert_eq!(rt; item, Some(Fault(number)), "a fault");
    }
    assert!(rt; lines.next().is_none(), "the end");
}

/// How many lines X a log has, a buffer's length, and the items from the end.
const FITS: &[(usize, usize, &[Seen], &str)] = &[
    (1, 112, &[Line], "one line without its LF"),
    (1, 111, &[TooSmall], "a byte too few"),
    (2, 113, &[Line, Line], "a line with the LF before it"),
    (2, 112, &[TooSmall], "no room for the LF before it"),
    (3, 113, &[Line, Line, Line], "the window moves"),
    (3, 1000, &[Line, Line, Line], "the window holds all"),
];

#[test]
fn lines_that_fit_and_lines_that_do_not(rt: HostRuntime) {
    let x = line_x(&rt, rt.alloc());
    for &(count, room, want, what) in FITS {
        let mut log = Vec::new(rt.alloc());
        for _ in 0..count {
            log.extend_from_slice(&x).expect(&rt, "memory");
        }
        let items = read(&rt, rt.alloc(), &log, room, &Tally::new(0));
        assert!(rt; items.as_slice() == want, "{what}");
    }
}

#[test]
fn a_line_of_the_length_of_the_buffer(rt: HostRuntime) {
    let alloc = rt.alloc();
    let x = line_x(&rt, alloc);
    let long = [b' '; 3984];
    let y = joined(&rt, alloc, &[&long, &x]);
    let alone = read(&rt, alloc, &y, 4096, &Tally::new(0));
    assert!(rt;
        alone.as_slice() == [Fault(1)].as_slice(),
        "the first line of the file"
    );
    let behind = joined(&rt, alloc, &[&x, &y]);
    let items = read(&rt, alloc, &behind, 4096, &Tally::new(0));
    assert!(rt; items.as_slice() == [TooSmall].as_slice(), "another line");
    let items = read(&rt, alloc, &behind, 4097, &Tally::new(0));
    assert!(rt;
        items.as_slice() == [Fault(1), Line].as_slice(),
        "with room for the LF"
    );
}

#[test]
fn a_reader_whose_nth_read_fails(rt: HostRuntime) {
    let alloc = rt.alloc();
    let x = line_x(&rt, alloc);
    let log = joined(&rt, alloc, &[&x, b"a\n", &x, &x, b"bb\n", &x]);
    let tally = Tally::new(0);
    let all = read(&rt, alloc, &log, 120, &tally);
    let want = [Line, Fault(2), Line, Line, Fault(5), Line];
    assert!(rt; all.as_slice() == want.as_slice(), "no read fails");
    for n in 1..=tally.reads.get() {
        let mut items = read(&rt, alloc, &log, 120, &Tally::new(n));
        assert_eq!(rt; items.pop(), Some(Io), "one fault, at read {n}");
        assert!(rt; all.starts_with(&items), "a beginning, at read {n}");
    }
}

#[test]
fn lent_items_are_the_items(rt: HostRuntime) {
    let alloc = rt.alloc();
    for &(log, room, want, what) in FAULTS {
        let items = read_lent(&rt, alloc, log, room, &Tally::new(0), false);
        assert!(rt; items.as_slice() == want, "{what}");
    }
    let x = line_x(&rt, alloc);
    let log = joined(&rt, alloc, &[&x, b"a\n", &x, &x, b"bb\n", &x, &x]);
    for room in [112usize, 113, 120, 1000] {
        for n in 0..8u64 {
            let want = read(&rt, alloc, &log, room, &Tally::new(n));
            let lent = read_lent(&rt, alloc, &log, room, &Tally::new(n), false);
            assert!(rt; lent.as_slice() == want.as_slice(), "lent, at read {n}");
            let both = read_lent(&rt, alloc, &log, room, &Tally::new(n), true);
            assert!(rt; both.as_slice() == want.as_slice(), "mixed, at read {n}");
        }
    }
}

/// No call of this test takes memory, so that it also holds where each growth is refused.
#[test]
fn lent_lines_take_no_memory(rt: HostRuntime) {
    let tally = Tally::new(0);
    let log = b"0000000000000000000000000000000000000000 1111111111111111111111111111111111111111 \
        C <c@example.com> 1234 +0800\tm\na\n";
    let reader = Counted::new(log, &tally);
    let mut buf = [0u8; 120];
    let mut lines = reverse(rt.alloc(), reader, &mut buf).expect(&rt, "room");
    let fault = lines.next_ref().map(|item| seen_lent(item));
    assert_eq!(rt; fault, Some(Fault(1)), "a fault");
    match lines.next_ref() {
        Some(Ok(line)) => {
            assert!(rt;
                line.previous_oid == ZEROS && line.new_oid == ONES,
                "its ids"
            );
            assert!(rt; line.signature.name == b"C".as_slice(), "its name");
            assert!(rt; line.message == b"m".as_slice(), "its message");
        }
        _ => assert!(rt; false, "a line"),
    }
    assert!(rt; lines.next_ref().is_none(), "the end");
}

#[test]
fn ten_lines_of_a_long_log(rt: HostRuntime) {
    let alloc = rt.alloc();
    let x = line_x(&rt, alloc);
    let mut log = Vec::new(alloc);
    for _ in 0..10000 {
        log.extend_from_slice(&x).expect(&rt, "memory");
    }
    let tally = Tally::new(0);
    let mut buf = [0u8; 1024];
    let reader = Counted::new(&log, &tally);
    let mut lines = reverse(alloc, reader, &mut buf).expect(&rt, "room");
    for _ in 0..10 {
        assert!(rt; matches!(lines.next(), Some(Ok(_))), "a line");
    }
    assert!(rt; tally.reads.get() <= 2, "two reads");
    let all = Tally::new(0);
    let items = read(&rt, alloc, &log, 4096, &all);
    assert_eq!(rt; items.len(), 10000, "all lines");
    assert_eq!(rt; all.bytes.get(), 1130000, "each byte is read once");
    assert!(rt;
        all.reads.get() <= 285,
        "in reads of about the window's length"
    );
}

/// An item from the start.
fn seen_forward(item: Result<gix_ref_log::log::LineRef<'_>, decode::Error>) -> Seen {
    match item {
        Ok(line) if line.message == b"m".as_slice() => Line,
        Ok(_) => Other,
        Err(error) => match error.line {
            decode::LineNumber::FromStart(n) => Fault(n),
            decode::LineNumber::FromEnd(_) => Other,
        },
    }
}

/// Compares the items from the start of a log.
pub fn check_forward(rt: &impl Abort, log: &[u8], want: &[Seen]) {
    let mut lines = forward(log);
    for seen in want {
        let item = lines.next().map(|item| seen_forward(item));
        assert_eq!(rt; item, Some(*seen), "{log:?}");
    }
    assert!(rt; lines.next().is_none(), "the end of {log:?}");
    assert!(rt; lines.next().is_none(), "it stays ended");
}

#[test]
fn items_forward(rt: HostRuntime) {
    let x = line_x(&rt, rt.alloc());
    let body = x.as_slice().strip_suffix(b"\n").unwrap_or(&x);
    let odd = [b"a\n", x.as_slice(), b"bb\r\n", body, b"\r\n\n", body];
    let log = joined(&rt, rt.alloc(), &odd);
    check_forward(&rt, &log, &[Fault(1), Line, Fault(3), Line, Fault(5), Line]);
    check_forward(&rt, b"a\nbb\n", &[Fault(1), Fault(2)]);
    check_forward(&rt, b"a", &[Fault(1)]);
    check_forward(&rt, b"", &[]);
}
