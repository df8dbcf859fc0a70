//! Scripts in real files.

use spe_disk::{ScriptFault, Scripts};
use std::alloc::{AllocError, Global};
use std::fs::File;
use std::io::Read;
use std::rt::Files;
use std::{fs, io};

/// How many bytes of a script are read: one more than a script may have.
const MOST: u64 = 16_777_217;

/// The scripts in files of their names. Of a longer file the first 16777217 bytes are read, which
/// are more than a script may have.
///
/// Whatever the system refuses is a counted fault, but for want of memory.
#[derive(Drop)]
pub struct FileScripts<'a, R: Files<File = File>> {
    rt: &'a R,
    faults: u64,
}

impl<'a, R: Files<File = File>> FileScripts<'a, R> {
    /// The files that the runtime opens.
    pub fn new(rt: &'a R) -> Self {
        FileScripts { rt, faults: 0 }
    }

    fn text_of(&self, alloc: Global, name: &str) -> io::Result<Vec<u8>> {
        let mut text = Vec::new(alloc);
        let _ = fs::open(self.rt, name)?.take(MOST).read_to_end(&mut text)?;
        Ok(text)
    }
}

impl<R: Files<File = File>> Scripts for FileScripts<'_, R> {
    ghost use Rattle.std.specs.Prelude.{None};

    ghost texts = { λ _. None };

    ghost faults = { λ s. s.faults };

    fn read(&mut self, alloc: Global, name: &str) -> Result<Option<Vec<u8>>, ScriptFault> {
        match self.text_of(alloc, name) {
            Ok(text) => Ok(Some(text)),
            Err(error) => match error.kind() {
                io::ErrorKind::NotFound | io::ErrorKind::NotADirectory => Ok(None),
                io::ErrorKind::OutOfMemory => Err(ScriptFault::Memory(AllocError)),
                _ => {
                    self.faults = self.faults.saturating_add(1);
                    Err(ScriptFault::Failed)
                }
            },
        }
    }
}
