//! What is printed of transactions and their replies, and the rows that they leave.

use super::run::{
    ALL, Ended, Left, Script, expect, is_printed, leaves, no_faults, run_of, two_disk,
};
use std::alloc::{AllocError, Global};
use std::sync::Wait;
use std::test::Fail;
use std::thread::Threads;

// Scripts over two empty tables, what is printed of them, and what is left.
struct Case {
    name: &'static str,
    words: &'static [&'static str],
    scripts: &'static [Script],
    text: &'static str,
    left: Left,
}

static CASES: [Case; 6] = [
    // The greatest rowid is in use, and refused statements change nothing.
    Case {
        name: "refused statements",
        words: &["run", "b.db", "s1"],
        scripts: &[(
            "s1",
            b"BEGIN; INSERT INTO a VALUES (9223372036854775807, 1); INSERT INTO a (v) VALUES (2); INSERT INTO a VALUES (9223372036854775807, 3); INSERT INTO a VALUES (5, 'x'); SELECT count(*) FROM a; COMMIT;",
        )],
        text: "client 1\ntx 1 commit 1\n  inserted 9223372036854775807\n  error RowidsUsedUp\n  error RowidTaken\n  error Class\n  count 1\n",
        left: (
            "ok pages 6 tables 2 rows 1 free 2\n",
            "9223372036854775807|9223372036854775807|1\nrows 1\n",
            "rows 0\n",
        ),
    },
    // The script ends before its transaction.
    Case {
        name: "unfinished",
        words: &["run", "b.db", "s1"],
        scripts: &[("s1", b"BEGIN; INSERT INTO a VALUES (1, 1)")],
        text: "client 1\ntx 1 rollback 0\n  inserted 1\n",
        left: (
            "ok pages 6 tables 2 rows 0 free 2\n",
            "rows 0\n",
            "rows 0\n",
        ),
    },
    Case {
        name: "no transaction",
        words: &["run", "b.db", "s1", "s2"],
        scripts: &[("s1", b""), ("s2", b"; -- nothing\n;")],
        text: "client 1\nclient 2\n",
        left: (
            "ok pages 6 tables 2 rows 0 free 2\n",
            "rows 0\n",
            "rows 0\n",
        ),
    },
    // A statement outside is a transaction by itself; one that is rolled back saw those before it.
    Case {
        name: "alone",
        words: &["run", "b.db", "s1"],
        scripts: &[(
            "s1",
            b"INSERT INTO a VALUES (1, 10);\nSELECT * FROM a;\nBEGIN; UPDATE a SET v = 5; SELECT v FROM a; ROLLBACK;\nSELECT v FROM a WHERE id = 1;",
        )],
        text: "client 1\ntx 1 commit 1\n  inserted 1\ntx 2 commit 2\n  row 1|10\n  rows 1\ntx 3 rollback 2\n  changed 1\n  row 5\n  rows 1\ntx 4 commit 3\n  row 10\n  rows 1\n",
        left: (
            "ok pages 6 tables 2 rows 1 free 2\n",
            "1|1|10\nrows 1\n",
            "rows 0\n",
        ),
    },
    // Each client sees what those before it committed.
    Case {
        name: "one after another",
        words: &["run", "--workers=16", "b.db", "s1", "s2", "s1"],
        scripts: &[
            ("s1", b"INSERT INTO a (v) VALUES (NULL);"),
            (
                "s2",
                b"BEGIN; SELECT count(*) FROM a; UPDATE a SET v = x'0aff' WHERE id BETWEEN 1 AND 9; END;",
            ),
        ],
        text: "client 1\ntx 1 commit 1\n  inserted 1\nclient 2\ntx 1 commit 2\n  count 1\n  changed 1\nclient 3\ntx 1 commit 3\n  inserted 2\n",
        left: (
            "ok pages 6 tables 2 rows 2 free 2\n",
            "1|1|x'0aff'\n2|2|NULL\nrows 2\n",
            "rows 0\n",
        ),
    },
    // Statements of other tables and columns are refused, and the transaction goes on.
    Case {
        name: "names",
        words: &["run", "b.db", "s1"],
        scripts: &[(
            "s1",
            b"BEGIN; SELECT * FROM c; SELECT w FROM a; SELECT * FROM a WHERE v = 1; INSERT INTO a VALUES (1); UPDATE a SET id = 2; INSERT INTO B VALUES (7, 20); COMMIT;",
        )],
        text: "client 1\ntx 1 commit 1\n  error NoTable\n  error NoColumn\n  error NotByRowid\n  error Count\n  error RowidFixed\n  inserted 7\n",
        left: (
            "ok pages 6 tables 2 rows 1 free 2\n",
            "rows 0\n",
            "7|7|20\nrows 1\n",
        ),
    },
];

fn case_run<R: Threads + Wait + Sync>(
    rt: &R,
    alloc: Global,
    case: &Case,
) -> Result<Ended, AllocError> {
    let disk = two_disk(alloc, no_faults(alloc))?;
    run_of(rt, alloc, case.words, case.scripts, disk)
}

// Whether a run printed its case's text, and leaves what its case leaves.
fn has_replied<R: Threads + Wait + Sync>(
    rt: &R,
    alloc: Global,
    ended: &Ended,
    case: &Case,
) -> Result<bool, AllocError> {
    let printed = is_printed(ended, case.text);
    let left = leaves(rt, alloc, &ended.disk, ALL, &case.left)?;
    Ok(printed && left)
}

fn replies<R: Threads + Wait + Sync>(
    rt: &R,
    alloc: Global,
    case: &Case,
) -> Result<bool, AllocError> {
    let ended = case_run(rt, alloc, case)?;
    has_replied(rt, alloc, &ended, case)
}

#[test]
fn cases(rt: HostRuntime) -> Result<(), Fail> {
    for case in &CASES {
        let holds = replies(&rt, rt.alloc(), case)?;
        expect(&rt, case.name, 0, holds);
    }
    Ok(())
}
