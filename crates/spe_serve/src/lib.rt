//! The commands of the program: `spe` does all that the program does.
//!
//! So far that is `check`, `rows` and `prepare`, over any database, and `release` and `run`, over one in server form.
//! Its contract names the bytes that are printed, the status, what may have gone wrong outside where it is 3,
//! the operations that were made on the files, and what the files hold then.
#![tactic(auto)]

mod ask;
mod failure;
mod file;
mod outcome;
mod pages;
mod prepare;
mod release;
mod reply;
mod row;
mod run;
mod scripts;
mod serve;
mod shared;
mod status;
mod table;
mod verdict;
mod writing;

pub use serve::{Finished, spe};
pub use spe_model::Words;
