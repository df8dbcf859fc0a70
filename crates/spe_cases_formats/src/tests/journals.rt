use spe_journal::{JournalText, checksum, put_head, put_record};
use std::alloc::{AllocError, Global};
use std::process::Abort;
use std::test::Fail;

#[test]
fn sums(rt: HostRuntime) {
    assert_eq!(rt; checksum(5, &[0xff; 512]), 515);
    assert_eq!(rt; checksum(u32::MAX, &[0xff; 512]), 509);
    assert_eq!(rt; checksum(7, &[0xff; 200]), 7);
}

#[test]
fn head(rt: HostRuntime) {
    let mut out = [0x55u8; 512];
    put_head(16, 6, 512, &mut out);
    let front =
        b"\xd9\xd5\x05\xf9\x20\xa1\x63\xd7\xff\xff\xff\xff\x00\x00\x00\x10\x00\x00\x00\x06\x00\x00\x02\x00\x00\x00\x02\x00";
    assert!(rt; out.starts_with(front));
    assert!(rt; out.iter().skip(28).all(|byte| *byte == 0));
}

/// A journal of two records, of pages 3 and 2.
fn journal(alloc: Global) -> Result<Vec<u8>, AllocError> {
    let mut head = [0u8; 512];
    put_head(16, 6, 512, &mut head);
    let mut record = [0u8; 520];
    let mut journal = Vec::from_slice(alloc, &head)?;
    put_record(16, 3, &[0xff; 512], &mut record);
    journal.extend_from_slice(&record)?;
    put_record(16, 2, &[0; 512], &mut record);
    journal.extend_from_slice(&record)?;
    Ok(journal)
}

// How much of the journal is kept, a byte of it that is changed, how many records are hot, and byte
// 311 of the second one's page.
static HOT: [(usize, Option<usize>, usize, u8); 9] = [
    (1552, None, 2, 0),
    (1551, None, 1, 0),
    (1032, None, 1, 0),
    (1031, None, 0, 0),
    (512, None, 0, 0),
    // a byte that the checksum covers, one that it doesn't, the checksum, and one of the first record
    (1552, Some(1348), 1, 0),
    (1552, Some(1347), 2, 1),
    (1552, Some(1548), 1, 0),
    (1552, Some(828), 0, 0),
];

fn expect(
    rt: &impl Abort,
    alloc: Global,
    case: &(usize, Option<usize>, usize, u8),
) -> Result<(), AllocError> {
    let (length, changed, count, byte) = *case;
    let mut bytes = journal(alloc)?;
    if let Some(place) = changed.and_then(|at| bytes.get_mut(at)) {
        *place ^= 1;
    }
    bytes.truncate(length);
    let mut second = [0u8; 512];
    second[311] = byte;
    let wanted: [(u32, [u8; 512]); 2] = [(3, [0xff; 512]), (2, second)];
    match JournalText::read(alloc, &bytes, 512)? {
        JournalText::Hot(records) => {
            assert_eq!(rt; records.as_slice().len(), count, "{length}");
            for (record, (page, content)) in records.as_slice().iter().zip(wanted.iter()) {
                assert_eq!(rt; record.page, *page, "{length}");
                assert!(rt; record.content.as_slice() == content.as_slice(), "{length}");
            }
        }
        _ => assert!(rt; false, "not hot"),
    }
    Ok(())
}

#[test]
fn hot(rt: HostRuntime) -> Result<(), Fail> {
    for case in &HOT {
        expect(&rt, rt.alloc(), case)?;
    }
    Ok(())
}

#[test]
fn not_hot(rt: HostRuntime) -> Result<(), Fail> {
    let mut bytes = journal(rt.alloc())?;
    let other = JournalText::read(rt.alloc(), &bytes, 1024)?;
    assert!(rt; matches!(other, JournalText::OtherSize(512)));
    let none = JournalText::read(rt.alloc(), b"", 512)?;
    assert!(rt; matches!(none, JournalText::Cold));
    let short = JournalText::read(rt.alloc(), &bytes[..bytes.len().min(511)], 512)?;
    assert!(rt; matches!(short, JournalText::Cold));
    if let Some(first) = bytes.first_mut() {
        *first = 0;
    }
    let cold = JournalText::read(rt.alloc(), &bytes, 512)?;
    assert!(rt; matches!(cold, JournalText::Cold));
    Ok(())
}
