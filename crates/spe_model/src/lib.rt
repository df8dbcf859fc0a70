//! What a database is: its values and tables, the files that hold it, and what those files may say.
//!
//! The types are plain values. The definitions in `specs/` are what every contract of the engine
//! above speaks of; they are over lists, maps and numbers alone.
#![tactic(auto)]

mod bytes;
mod catalog;
mod commit;
mod copies;
mod file;
mod header;
mod lists;
mod naming;
mod page;
mod record;
mod recovery;
mod reply;
mod statement;
mod table;
mod token;
mod transaction;
mod transcript;
mod value;
mod verdict;

pub use bytes::{u16_of, u32_of};
pub use catalog::{Catalog, Declaration, Entry};
pub use commit::{Commit, Commits};
pub use copies::Copies;
pub use file::FileNo;
pub use header::{Header, HeaderFault, page_count};
pub use lists::{Bytes, Names, Numbers, Text, Words};
pub use naming::Named;
pub use page::{Cell, Cells, Kind, PageCells, PageFault};
pub use record::RecordFault;
pub use recovery::{RecoverFault, Recovered};
pub use reply::{Refusal, Replies, Reply};
pub use statement::{Cond, Conds, Op, Set, Sets, Statement, Statements};
pub use table::{Affinity, Closed, Column, Columns, TableDef, Tables};
pub use token::{SqlFault, SqlKind, Token, TokenKind, Tokens};
pub use transaction::{End, Tx, TxKind, Txs};
pub use transcript::{Cause, Outcome, Transcript, Transcripts};
pub use value::{Rows, TableRows, Value, Values};
pub use verdict::Verdict;
