//! What the engine asks of the outside: files, scripts, a sink for what it prints, and a gate.
//!
//! Each is a trait whose contract names what the outside tells, and counts its faults. A call answers
//! a fault only where such a count rose in it. For each there is an implementation in memory, which
//! tells all and fails just where it is asked to. `stopped_at` gives the disk in memory that a stop
//! leaves after any number of operations, and of bytes of the next one.
#![tactic(auto)]

mod disk;
mod entry;
mod files;
mod gate;
mod log;
mod mem_disk;
mod mem_file;
mod mem_scripts;
mod mem_sink;
mod memory;
mod replay;
mod scripts;
mod sink;
mod stop;

pub use disk::{Disk, Failed};
pub use gate::{Gate, OpenGate};
pub use mem_scripts::MemScripts;
pub use mem_sink::MemSink;
pub use memory::{Faults, MemDisk};
pub use scripts::{ScriptFault, Scripts};
pub use sink::{Sink, put_all};
pub use spe_model::FileNo;
pub use stop::stopped_at;
