//! Scripts in memory.

use spe_disk::{MemScripts, Scripts};
use spe_model::Numbers;
use std::alloc::{AllocError, Global};
use std::test::Fail;

// Adds the scripts `a.sql`, twice, and `b.sql`.
fn add_all(scripts: &mut MemScripts) -> Result<(), AllocError> {
    scripts.add("a.sql", b"BEGIN;")?;
    scripts.add("b.sql", b"COMMIT;")?;
    scripts.add("a.sql", b"ROLLBACK;")
}

// These scripts; the third reading fails.
fn scripts_of(alloc: Global) -> Result<MemScripts, AllocError> {
    let fails = Numbers::new(Vec::from_slice(alloc, &[3])?);
    let mut scripts = MemScripts::new(alloc, fails);
    add_all(&mut scripts)?;
    Ok(scripts)
}

// Whether a reading gives this text.
fn gives(alloc: Global, scripts: &mut MemScripts, name: &str, wanted: &[u8]) -> bool {
    match scripts.read(alloc, name) {
        Ok(Some(text)) => text.as_slice() == wanted,
        _ => false,
    }
}

// Whether there is no such text.
fn lacks(alloc: Global, scripts: &mut MemScripts, name: &str) -> bool {
    matches!(scripts.read(alloc, name), Ok(None))
}

// Whether a reading fails.
fn fails(alloc: Global, scripts: &mut MemScripts, name: &str) -> bool {
    scripts.read(alloc, name).is_err()
}

// A text that is there, in its second form, one that is not, and a reading that fails.
fn are_read(alloc: Global, scripts: &mut MemScripts) -> bool {
    gives(alloc, scripts, "a.sql", b"ROLLBACK;")
        && lacks(alloc, scripts, "c.sql")
        && fails(alloc, scripts, "b.sql")
        && gives(alloc, scripts, "b.sql", b"COMMIT;")
}

#[test]
fn texts(rt: HostRuntime) -> Result<(), Fail> {
    let mut scripts = scripts_of(rt.alloc())?;
    let read = are_read(rt.alloc(), &mut scripts);
    assert!(rt; read);
    Ok(())
}
