//! Free lists in server form need pages, for which a file of nearly 2^30 bytes may have no room.

ghost use Rattle.std.specs.Prelude.{◌≡◌, true};
ghost use Rattle.spe_model.specs.Settled.{IsWithinLimits};

use spe_convert::{ConvertFault, prepare};
use spe_disk::{Disk, Failed, FileNo};
use spe_model::Recovered;
use std::alloc::Global;

// A disk whose files are all zeros, however long they are, and how many operations were made on it.
#[derive(Drop)]
struct Zeros {
    named: bool,
    made: u64,
}

impl Disk for Zeros {
    ghost use Rattle.std.specs.Prelude.{None};

    ghost told = { λ _. None };

    ghost attached = { λ d. d.named };

    ghost read_faults = { λ _. 0 };

    ghost op_faults = { λ _. 0 };

    ghost fresh = { λ _ _. tt };

    ghost whole = { λ _. tt };

    fn attach(&mut self, _name: &str) -> Result<bool, Failed> {
        self.named = true;
        Ok(true)
    }

    fn length(&mut self, _file: FileNo) -> Result<Option<u64>, Failed> {
        Ok(Some(0))
    }

    fn read_at(&mut self, _file: FileNo, _at: u64, buf: &mut [u8]) -> Result<usize, Failed> {
        buf.fill(0);
        Ok(buf.len())
    }

    fn write_at(&mut self, _file: FileNo, _at: u64, _bytes: &[u8]) -> Result<(), Failed> {
        self.made = self.made.saturating_add(1);
        Ok(())
    }

    fn cut(&mut self, _file: FileNo, _length: u64) -> Result<(), Failed> {
        self.made = self.made.saturating_add(1);
        Ok(())
    }

    fn make_journals(&mut self) -> Result<u8, Failed> {
        Ok(0)
    }
}

// Two pages fewer than such a file may have, and no free page.
fn nearly_full() -> Recovered
    ensures { IsWithinLimits result }
{
    Recovered {
        page_size: 65536,
        reserved: 0,
        pages: 16382,
        node: None,
        rolled: 0,
        ops: 0,
    }
}

// What is answered for so many lists, and whether an operation was made.
fn answer(alloc: Global, lists: u32) -> (Result<u32, ConvertFault>, bool) {
    let mut disk = Zeros {
        named: true,
        made: 0,
    };
    let answer = prepare(alloc, &mut disk, &nearly_full(), lists.clamp(1, 16));
    (answer, disk.made > 0)
}

#[test]
fn full_file(rt: HostRuntime) {
    let full = answer(rt.alloc(), 2) == (Err(ConvertFault::Full { pages: 16382 }), false);
    let room = answer(rt.alloc(), 1) == (Ok(16384), true);
    assert!(rt; full && room);
}
