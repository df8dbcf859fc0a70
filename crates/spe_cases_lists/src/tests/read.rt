//! The free pages of files in memory.

ghost use Rattle.std.specs.Prelude.{◌≡◌, false};
ghost use Rattle.spe_disk.specs.Memory.{is_attached};

use super::files::{Patch, disk_of, expect, file_of};
use spe_convert::{ConvertFault, read_free};
use spe_disk::{Disk, MemDisk};
use spe_recover::{Want, recover};
use std::alloc::{AllocError, Global};
use std::test::Fail;

// What is read.
#[derive(Clone, Copy, PartialEq, Eq)]
enum Read {
    // So many pages, the first and the last of them, and their sum.
    Free(usize, u32, u32, u64),
    Corrupt(u32),
    Other,
}

// A database of so many pages with these bytes on them.
struct Case {
    name: &'static str,
    pages: usize,
    bytes: &'static [Patch],
    read: Read,
}

static CASES: [Case; 11] = [
    Case {
        name: "no free page",
        pages: 3,
        bytes: &[],
        read: Read::Free(0, 0, 0, 0),
    },
    Case {
        name: "one trunk without leaves",
        pages: 3,
        bytes: &[(32, b"\x00\x00\x00\x03\x00\x00\x00\x01")],
        read: Read::Free(1, 3, 3, 3),
    },
    Case {
        name: "two trunks",
        pages: 7,
        bytes: &[
            (32, b"\x00\x00\x00\x06\x00\x00\x00\x05"),
            (
                2560,
                b"\x00\x00\x00\x02\x00\x00\x00\x02\x00\x00\x00\x07\x00\x00\x00\x05",
            ),
            (512, b"\x00\x00\x00\x00\x00\x00\x00\x01\x00\x00\x00\x03"),
        ],
        read: Read::Free(5, 2, 7, 23),
    },
    Case {
        name: "two lists in server form",
        pages: 6,
        bytes: &[
            (32, b"\x00\x00\x00\x04"),
            (1536, b"\x00\x00\x00\x02\x00\x00\x00\x05\x00\x00\x00\x06"),
        ],
        read: Read::Free(3, 4, 6, 15),
    },
    Case {
        name: "lists in server form with trunks and leaves",
        pages: 9,
        bytes: &[
            (32, b"\x00\x00\x00\x04"),
            (1536, b"\x00\x00\x00\x02\x00\x00\x00\x05\x00\x00\x00\x06"),
            (
                2048,
                b"\x00\x00\x00\x00\x00\x00\x00\x02\x00\x00\x00\x08\x00\x00\x00\x07",
            ),
            (2560, b"\x00\x00\x00\x09"),
            (4096, b"\x00\x00\x00\x00\x00\x00\x00\x01\x00\x00\x00\x02"),
        ],
        read: Read::Free(7, 2, 9, 41),
    },
    Case {
        name: "a trunk past the last page",
        pages: 3,
        bytes: &[(32, b"\x00\x00\x00\x04\x00\x00\x00\x01")],
        read: Read::Corrupt(4),
    },
    Case {
        name: "a leaf past the last page",
        pages: 3,
        bytes: &[
            (32, b"\x00\x00\x00\x02\x00\x00\x00\x02"),
            (512, b"\x00\x00\x00\x00\x00\x00\x00\x01\x00\x00\x00\x04"),
        ],
        read: Read::Corrupt(4),
    },
    Case {
        name: "a page twice",
        pages: 3,
        bytes: &[
            (32, b"\x00\x00\x00\x02\x00\x00\x00\x03"),
            (
                512,
                b"\x00\x00\x00\x00\x00\x00\x00\x02\x00\x00\x00\x03\x00\x00\x00\x03",
            ),
        ],
        read: Read::Corrupt(3),
    },
    Case {
        name: "page 1 as a leaf",
        pages: 3,
        bytes: &[
            (32, b"\x00\x00\x00\x02\x00\x00\x00\x02"),
            (512, b"\x00\x00\x00\x00\x00\x00\x00\x01\x00\x00\x00\x01"),
        ],
        read: Read::Corrupt(1),
    },
    Case {
        name: "a trunk after itself",
        pages: 3,
        bytes: &[
            (32, b"\x00\x00\x00\x02\x00\x00\x00\x01"),
            (512, b"\x00\x00\x00\x02"),
        ],
        read: Read::Corrupt(2),
    },
    Case {
        name: "a node page without lists",
        pages: 3,
        bytes: &[(32, b"\x00\x00\x00\x03")],
        read: Read::Corrupt(3),
    },
];

fn seen(free: &[u32]) -> Read {
    let first = match free.first() {
        Some(page) => *page,
        None => 0,
    };
    let mut last = 0;
    let mut sum = 0u64;
    for page in free {
        last = *page;
        sum = sum.wrapping_add(u64::from(*page));
    }
    Read::Free(free.len(), first, last, sum)
}

// What is read of a database that is attached and recovered.
fn read_of(alloc: Global, disk: &mut MemDisk) -> Result<Read, AllocError>
    requires { is_attached disk.old ≡ false }
{
    if disk.attach("lists.db").is_err() {
        return Ok(Read::Other);
    }
    let Ok(found) = recover(alloc, disk, Want::Any) else {
        return Ok(Read::Other);
    };
    let mut buf = vec![in alloc; 0u8; found.page_size as usize]?;
    Ok(match read_free(alloc, disk, &found, buf.as_mut_slice()) {
        Ok(free) => seen(free.as_slice()),
        Err(ConvertFault::Corrupt { page }) => Read::Corrupt(page),
        Err(_) => Read::Other,
    })
}

fn holds(alloc: Global, case: &Case) -> Result<bool, AllocError> {
    let file = file_of(alloc, case.pages, case.bytes)?;
    let mut disk = disk_of(alloc, &file, 0, false)?;
    Ok(read_of(alloc, &mut disk)? == case.read)
}

#[test]
fn free_pages(rt: HostRuntime) -> Result<(), Fail> {
    for case in &CASES {
        let holds = holds(rt.alloc(), case)?;
        expect(&rt, case.name, 0, holds);
    }
    Ok(())
}
