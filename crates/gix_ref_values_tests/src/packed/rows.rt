//! Worked cases: records that are removed and put, and what is copied of the others.
use crate::made::id;
use gix_ref_hash::hash::Kind;
use gix_ref_packed_text::edit::{NewRecord, RecordEdit};
use gix_ref_packed_text::error::Error;
use gix_ref_packed_text::outcome::Rewrite;
use gix_ref_packed_text::rewrite::rewrite;
use std::alloc::Global;
use std::process::Abort;

/// What is wanted of a rewrite; a text is wanted without its header.
#[derive(Clone, Copy)]
enum Want {
    Unchanged,
    Removed,
    Records(&'static [u8]),
    BadLine(u64),
}

#[derive(Clone, Copy)]
struct Row {
    meaning: &'static str,
    records: &'static [u8],
    removed: &'static [&'static [u8]],
    want: Want,
}

const HEADER: &[u8] = b"# pack-refs with: peeled fully-peeled sorted \n";

/// Two tags, with ids of either case, the second with a peeled line.
const TAGS: &[u8] = b"1111111111111111111111111111111111111111 refs/tags/t\n\
AAAAAAAAAAAAAAAAAAAAAAAAAAAAAAAAAAAAAAAA refs/tags/u\n\
^3333333333333333333333333333333333333333\n";

/// The same with CRLF.
const CRLF: &[u8] = b"1111111111111111111111111111111111111111 refs/tags/t\r\n\
AAAAAAAAAAAAAAAAAAAAAAAAAAAAAAAAAAAAAAAA refs/tags/u\r\n\
^3333333333333333333333333333333333333333\r\n";

const T: &[u8] = b"1111111111111111111111111111111111111111 refs/tags/t\n";

const U: &[u8] = b"AAAAAAAAAAAAAAAAAAAAAAAAAAAAAAAAAAAAAAAA refs/tags/u\n\
^3333333333333333333333333333333333333333\n";

const ROWS: &[Row] = &[
    Row {
        meaning: "the first record goes, and the second stays as it was written",
        records: TAGS,
        removed: &[b"refs/tags/t"],
        want: Want::Records(U),
    },
    Row {
        meaning: "the second goes with its peeled line",
        records: TAGS,
        removed: &[b"refs/tags/u"],
        want: Want::Records(T),
    },
    Row {
        meaning: "a record that stays loses its CRs",
        records: CRLF,
        removed: &[b"refs/tags/t"],
        want: Want::Records(U),
    },
    Row {
        meaning: "lines with CRLF go as others do",
        records: CRLF,
        removed: &[b"refs/tags/u"],
        want: Want::Records(T),
    },
    Row {
        meaning: "both go: no record is left",
        records: TAGS,
        removed: &[b"refs/tags/t", b"refs/tags/u"],
        want: Want::Removed,
    },
    Row {
        meaning: "keys before, between and behind the records, and a part of a name, find none",
        records: TAGS,
        removed: &[
            b"refs/heads/t",
            b"refs/tags/",
            b"refs/tags/tu",
            b"refs/tags/v",
        ],
        want: Want::Unchanged,
    },
    Row {
        meaning: "one of several keys finds its record",
        records: TAGS,
        removed: &[b"refs/tags/a", b"refs/tags/t", b"refs/tags/tt"],
        want: Want::Records(U),
    },
    Row {
        meaning: "no edit",
        records: TAGS,
        removed: &[],
        want: Want::Unchanged,
    },
    Row {
        meaning: "no record",
        records: b"",
        removed: &[b"refs/tags/t"],
        want: Want::Unchanged,
    },
    Row {
        meaning: "a line behind the edited record is no record",
        records: b"1111111111111111111111111111111111111111 refs/tags/t\n\
^3333333333333333333333333333333333333333\n\
xyz\n",
        removed: &[b"refs/tags/t"],
        want: Want::BadLine(4),
    },
    Row {
        meaning: "a line before it is no record: its name is invalid",
        records: b"1111111111111111111111111111111111111111 refs/heads/a..b\n\
1111111111111111111111111111111111111111 refs/tags/t\n",
        removed: &[b"refs/tags/t"],
        want: Want::BadLine(2),
    },
];

/// The result of edits of the records of a file with a header.
fn rewritten(
    rt: &impl Abort,
    alloc: Global,
    records: &[u8],
    edits: &[RecordEdit<'_>],
) -> Result<Rewrite, u64> {
    match rewrite(alloc, records, 2, Kind::Sha1, edits) {
        Ok(found) => Ok(found),
        Err(Error::Iteration { line_number }) => Err(line_number),
        Err(Error::Memory) => {
            assert!(rt; false, "memory");
            Err(0)
        }
    }
}

fn is_wanted(found: &Result<Rewrite, u64>, want: Want) -> bool {
    match (found, want) {
        (Ok(Rewrite::Unchanged), Want::Unchanged) => true,
        (Ok(Rewrite::Removed), Want::Removed) => true,
        (Ok(Rewrite::Text(text)), Want::Records(records)) => {
            text.strip_prefix(HEADER) == Some(records)
        }
        (Err(line), Want::BadLine(number)) => *line == number,
        _ => false,
    }
}

#[test]
fn removals(rt: HostRuntime) {
    let alloc = rt.alloc();
    for row in ROWS {
        let mut edits = Vec::new(alloc);
        for key in row.removed {
            let edit = RecordEdit { key, put: None };
            edits.push(edit).expect(&rt, "memory");
        }
        let found = rewritten(&rt, alloc, row.records, &edits);
        assert!(rt; is_wanted(&found, row.want), "{}", row.meaning);
    }
}

#[test]
fn sizes(rt: HostRuntime) {
    let records = b"1111111111111111111111111111111111111111 refs/tags/t\n\
2222222222222222222222222222222222222222 refs/tags/u\n"
        .as_slice();
    let edits = [RecordEdit {
        key: b"refs/tags/t",
        put: None,
    }];
    assert!(rt; HEADER.len() + records.len() == 152);
    match rewritten(&rt, rt.alloc(), records, &edits) {
        Ok(Rewrite::Text(text)) => assert!(rt; text.len() == 99),
        _ => assert!(rt; false, "a text"),
    }
}

#[test]
fn puts(rt: HostRuntime) {
    let alloc = rt.alloc();
    let two = id(&rt, b"2222222222222222222222222222222222222222");
    let b = id(&rt, b"BBBBBBBBBBBBBBBBBBBBBBBBBBBBBBBBBBBBBBBB");
    let lone = NewRecord {
        target: two,
        peeled: None,
    };
    let tag = NewRecord {
        target: b,
        peeled: Some(two),
    };
    let edits = [
        RecordEdit {
            key: b"refs/heads/a",
            put: Some(lone),
        },
        RecordEdit {
            key: b"refs/tags/t",
            put: Some(tag),
        },
        RecordEdit {
            key: b"refs/tags/u",
            put: None,
        },
        RecordEdit {
            key: b"refs/tags/v",
            put: Some(lone),
        },
    ];
    let found = rewritten(&rt, alloc, TAGS, &edits);
    let want = Want::Records(
        b"2222222222222222222222222222222222222222 refs/heads/a\n\
bbbbbbbbbbbbbbbbbbbbbbbbbbbbbbbbbbbbbbbb refs/tags/t\n\
^2222222222222222222222222222222222222222\n\
2222222222222222222222222222222222222222 refs/tags/v\n",
    );
    assert!(rt;
        is_wanted(&found, want),
        "put before, in place of, and behind records"
    );
    let found = rewritten(&rt, alloc, b"", &edits[..1]);
    let want = Want::Records(b"2222222222222222222222222222222222222222 refs/heads/a\n");
    assert!(rt; is_wanted(&found, want), "the first record of a file");
}
