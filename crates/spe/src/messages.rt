//! What a person at a terminal is told on standard error, beside what the program prints.

use spe_model::{HeaderFault, Words};

/// The commands, a line each with its options.
pub const USAGE: &str = "usage:
  spe check DATABASE             says whether all pages are sound
  spe rows DATABASE TABLE        prints the rows of a table
  spe prepare DATABASE LISTS     makes free lists for transactions, 1 to 16 of them
  spe release DATABASE           puts the free lists back as SQLite has them
  spe run DATABASE SCRIPT..      runs up to 64 scripts of statements, each one client
      --workers N                threads, 1 to 16, else 4; one is used so far
      --retries N                tries to get a lock, up to 1000000, else 1000; none is tried so far
      --slots N                  lock words, a power of two from 16 to 262144, else that
  spe work DATABASE SEED COUNT   not built yet: four generated clients, COUNT transactions each
Behind a word -- all words are names. DATABASE is the path of a SQLite 3 file.";

/// The version of the program.
pub const VERSION: &str = "spe 0.1";

/// What words that are no command may ask for.
#[derive(Clone, Copy, Debug, PartialEq, Eq)]
pub enum Asked {
    /// How to use the program.
    Usage,
    /// Which version this is.
    Version,
}

impl Asked {
    /// What the words ask for, where they are no command.
    pub fn of(words: &Words) -> Asked {
        match words.as_slice() {
            [only] if only.as_str() == "--version" => Asked::Version,
            _ => Asked::Usage,
        }
    }
}

// The header faults, by the line that is printed of them.
static HEADERS: [(&str, HeaderFault); 8] = [
    ("refused header 1\n", HeaderFault::Short),
    ("refused header 2\n", HeaderFault::NotADatabase),
    ("refused header 3\n", HeaderFault::Wal),
    ("refused header 4\n", HeaderFault::BadPageSize),
    ("refused header 5\n", HeaderFault::AutoVacuum),
    ("refused header 6\n", HeaderFault::Encoding),
    ("refused header 7\n", HeaderFault::Reserved),
    ("refused header 8\n", HeaderFault::SchemaFormat),
];

// What helps, by how the line begins that is printed.
static ADVICE: [(&str, &str); 17] = [
    (
        "refused no-script ",
        "there is no file of the name of this script, counted from 1",
    ),
    (
        "refused script ",
        "this script, counted from 1, is wrong on this line, and no database was looked at",
    ),
    (
        "refused no-such-database\n",
        "there is no file of this name",
    ),
    (
        "refused not-built\n",
        "this is not built yet: of the commands `work`, and of scripts BEGIN READONLY and DELETE",
    ),
    (
        "refused not-prepared\n",
        "the free lists are as SQLite has them, so there is nothing to release, and transactions need lists of their own: `spe prepare DATABASE LISTS` makes them",
    ),
    (
        "refused prepared\n",
        "the free lists are made for transactions already; `spe release DATABASE` puts them back as SQLite has them",
    ),
    (
        "refused full ",
        "with the pages that the free lists want the database would be larger than 1 GiB; nothing was changed",
    ),
    (
        "refused no-table\n",
        "the database has no table of this name; `sqlite3 DATABASE .tables` lists them",
    ),
    (
        "refused closed-table 1\n",
        "tables whose names begin with sqlite_ are SQLite's own and are closed",
    ),
    (
        "refused closed-table 2\n",
        "this table's definition is of a form that is not read here, so the table is closed; `sqlite3 DATABASE '.schema TABLE'` shows it",
    ),
    (
        "refused closed-table 3\n",
        "a table with an index is closed; a copy without one, `CREATE TABLE copy(..)` and `INSERT INTO copy SELECT * FROM TABLE` in sqlite3, is open",
    ),
    (
        "refused closed-table 4\n",
        "a table with a trigger is closed; without it, `DROP TRIGGER ..` in sqlite3, it is open",
    ),
    (
        "refused corrupt ",
        "this page is damaged, so the command goes no further; `spe check DATABASE` names the rule that it breaks",
    ),
    (
        "refused overlap ",
        "two hot journals hold one page, so which of them is right can not be told; nothing was changed",
    ),
    (
        "refused journal-page ",
        "this journal is of a database with pages of another size; nothing was changed",
    ),
    (
        "refused too-large ",
        "databases of more than 1 GiB are not read here",
    ),
    (
        "refused short-file ",
        "the file is shorter than its header says, so it was cut off or a journal of it is missing; nothing was changed",
    ),
];

// What a table has for a line.
fn found<T: Copy>(table: &[(&str, T)], line: &[u8]) -> Option<T> {
    for (begin, found) in table {
        if line.starts_with(begin.as_bytes()) {
            return Some(*found);
        }
    }
    None
}

/// The fault of a header that a line names, where it names one.
pub fn header_fault(line: &[u8]) -> Option<HeaderFault> {
    found(&HEADERS, line)
}

/// What there is to say on a line that refuses.
pub fn advice(line: &[u8]) -> Option<&'static str> {
    found(&ADVICE, line)
}
