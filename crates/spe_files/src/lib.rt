//! The real files and the standard output of the program.
//!
//! They tell nothing of what they hold, so that no clause speaks of bytes here; a call fails only
//! where a count of faults rose in it. What the system refuses is such a fault.
#![tactic(auto)]

mod file_disk;
mod file_fault;
mod file_scripts;
mod journals_folder;
mod open_files;
mod out_sink;
mod stock_journal;

pub use file_disk::FileDisk;
pub use file_fault::FileFault;
pub use file_scripts::FileScripts;
pub use out_sink::OutSink;
pub use stock_journal::is_cold_journal;
