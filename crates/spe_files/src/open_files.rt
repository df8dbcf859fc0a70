//! A database file and its journals, each opened once.

ghost use Rattle.std.specs.Prelude.{◌≤◌, length, IfOk};
ghost use Rattle.spe_model.specs.Content.{IsFile};

use crate::file_fault::FileFault;
use crate::stock_journal::{FRONT_BYTES, is_cold_journal};
use spe_model::FileNo;
use std::alloc::{AllocError, Global};
use std::fs::{File, OpenOptions};
use std::os::unix::fs::FileExt;
use std::rt::Files;
use std::{fs, io};

/// The database file of a name and its journals, which lie in the folder of that name with
/// `-journal` behind it, each under its number with `-journal` behind it.
#[derive(Drop)]
pub struct OpenFiles<'a, R: Files<File = File>> {
    rt: &'a R,
    alloc: Global,
    name: String,
    database: Option<File>,
    journals: [Option<File>; 16],
}

impl<'a, R: Files<File = File>> OpenFiles<'a, R> {
    ghost use Rattle.std.specs.Prelude.{◌<◌, ◌≤◌, length, IfOk};
    ghost use Rattle.spe_model.specs.Content.{IsFile};

    /// No files yet.
    pub fn new(rt: &'a R, alloc: Global) -> Self {
        OpenFiles {
            rt,
            alloc,
            name: String::new(alloc),
            database: None,
            journals: [
                None, None, None, None, None, None, None, None, None, None, None, None, None, None,
                None, None,
            ],
        }
    }

    /// Opens the database file, and says whether there is one. A file in the place of the folder of
    /// journals is a journal of another program, which is passed over where it is cold.
    pub fn attach(&mut self, name: &str) -> Result<bool, FileFault> {
        self.name = String::from_str(self.alloc, name)?;
        if self.has_stock_journal()? {
            return Err(FileFault::StockJournal);
        }
        let Some(file) = open(self.rt, name)? else {
            return Ok(false);
        };
        if !file.metadata()?.is_file() {
            return Err(FileFault::NotPlain);
        }
        self.database = Some(file);
        Ok(true)
    }

    /// The path that a fault is of: that of the journal of another program, or else the database's.
    pub fn path(&self, fault: FileFault) -> Result<String, AllocError> {
        match fault {
            FileFault::StockJournal => self.folder_path(),
            _ => String::from_str(self.alloc, self.name.as_str()),
        }
    }

    /// The length of a file in bytes, or `None` where it is absent.
    pub fn length(&mut self, file: FileNo) -> io::Result<Option<u64>>
        requires { IsFile file }
    {
        self.find(file)?;
        match self.found(file) {
            Some(file) => Ok(Some(file.metadata()?.len())),
            None => Ok(None),
        }
    }

    /// Fills `buf` from a place in a file, with zeros past its end, and answers how many bytes there
    /// were. An absent file has none.
    pub fn read_at(&mut self, file: FileNo, at: u64, buf: &mut [u8]) -> io::Result<usize>
        requires { IsFile file }
        ensures { IfOk result (λ n. n ≤ length buf.old) }
    {
        self.find(file)?;
        match self.found(file) {
            Some(file) => fill(file, at, buf),
            None => {
                buf.fill(0);
                Ok(0)
            }
        }
    }

    /// Writes bytes from a place in a file on. An absent journal is made.
    pub fn write_at(&mut self, file: FileNo, at: u64, bytes: &[u8]) -> io::Result<()>
        requires { IsFile file }
    {
        if bytes.is_empty() {
            return Ok(());
        }
        let _ = self.make(file)?;
        match self.found(file) {
            Some(file) => file.write_all_at(bytes, at),
            None => Err(io::Error::from(io::ErrorKind::NotFound)),
        }
    }

    /// Cuts a file to at most this many bytes. An absent journal is made.
    pub fn cut(&mut self, file: FileNo, length: u64) -> io::Result<()>
        requires { IsFile file }
    {
        let _ = self.make(file)?;
        match self.found(file) {
            Some(file) if length < file.metadata()?.len() => file.set_len(length),
            Some(_) => Ok(()),
            None => Err(io::Error::from(io::ErrorKind::NotFound)),
        }
    }

    /// Makes the absent journals, and answers how many there were.
    pub fn make_journals(&mut self) -> io::Result<u8>
        ensures { IfOk result (λ n. n ≤ 16) }
    {
        if self.folder()?.is_none() {
            fs::create_dir(self.rt, self.folder_path()?.as_str())?;
        }
        let mut made = 0;
        for number in 0..16 {
            if self.make(FileNo::Journal(number))? {
                made += 1;
            }
        }
        Ok(made)
    }

    // What stands in the place of the folder of journals.
    fn folder(&self) -> io::Result<Option<fs::Metadata>> {
        there(fs::metadata(self.rt, self.folder_path()?.as_str()))
    }

    // Whether a journal of another program, which is not known to be cold, stands in the place of the
    // folder.
    fn has_stock_journal(&self) -> io::Result<bool> {
        match self.folder()? {
            None => Ok(false),
            Some(about) if about.is_dir() => Ok(false),
            Some(about) if about.is_file() => Ok(!self.is_stock_journal_cold()?),
            Some(_) => Ok(true),
        }
    }

    // Whether the journal of another program is cold; one that cannot be read is not known to be.
    fn is_stock_journal_cold(&self) -> Result<bool, AllocError> {
        let path = self.folder_path()?;
        let mut front = [0; FRONT_BYTES];
        match read_front(self.rt, path.as_str(), &mut front) {
            Ok(count) => Ok(is_cold_journal(&front[..count])),
            Err(_) => Ok(false),
        }
    }

    /// The runtime that opens them.
    pub fn runtime(&self) -> &'a R {
        self.rt
    }

    /// The path of the folder of journals.
    pub fn folder_path(&self) -> Result<String, AllocError> {
        let name = self.name.as_str();
        format!(in self.alloc; "{name}-journal")
    }

    fn journal_path(&self, number: u8) -> Result<String, AllocError> {
        let name = self.name.as_str();
        format!(in self.alloc; "{name}-journal/{number}-journal")
    }

    // Opens a journal that is not open yet, where there is one.
    fn find(&mut self, file: FileNo) -> io::Result<()>
        requires { IsFile file }
    {
        if let FileNo::Journal(number) = file {
            if self.journals[number as usize].is_none() {
                let path = self.journal_path(number)?;
                self.journals[number as usize] = open(self.rt, path.as_str())?;
            }
        }
        Ok(())
    }

    // A file that was found, or `None` where it is absent.
    fn found(&self, file: FileNo) -> Option<&File>
        requires { IsFile file }
    {
        match file {
            FileNo::Database => self.database.as_ref(),
            FileNo::Journal(number) => self.journals[number as usize].as_ref(),
        }
    }

    // Makes a journal where it is absent, and says whether it was.
    fn make(&mut self, file: FileNo) -> io::Result<bool>
        requires { IsFile file }
    {
        let FileNo::Journal(number) = file else {
            return Ok(false);
        };
        self.find(file)?;
        if self.found(file).is_some() {
            return Ok(false);
        }
        let path = self.journal_path(number)?;
        let mut how = OpenOptions::new();
        how.read(true).write(true).create(true);
        self.journals[number as usize] = Some(how.open(self.rt, path.as_str())?);
        Ok(true)
    }
}

// Opens a file for reading and, where the system lets it, for writing.
fn open<R: Files<File = File>>(rt: &R, path: &str) -> io::Result<Option<File>> {
    let mut how = OpenOptions::new();
    how.read(true).write(true);
    match how.open(rt, path) {
        Ok(file) => Ok(Some(file)),
        Err(_) => there(fs::open(rt, path)),
    }
}

// Fills `buf` from the front of a file, and answers how many bytes there were.
fn read_front<R: Files<File = File>>(rt: &R, path: &str, buf: &mut [u8]) -> io::Result<usize>
    ensures { IfOk result (λ n. n ≤ length buf.old) }
{
    fill(&fs::open(rt, path)?, 0, buf)
}

// What there is, or `None` where the path leads nowhere.
fn there<T>(found: io::Result<T>) -> io::Result<Option<T>> {
    match found {
        Ok(found) => Ok(Some(found)),
        Err(error) => match error.kind() {
            io::ErrorKind::NotFound | io::ErrorKind::NotADirectory => Ok(None),
            _ => Err(error),
        },
    }
}

// Fills `buf` from a place in a file, with zeros past its end, and answers how many bytes there were.
fn fill(file: &File, at: u64, buf: &mut [u8]) -> io::Result<usize>
    ensures { IfOk result (λ n. n ≤ length buf.old) }
{
    let mut done = 0;
    while done < buf.len() {
        let Some(place) = at.checked_add(done as u64) else {
            break;
        };
        let count = file.read_at(&mut buf[done..], place)?;
        if count == 0 {
            break;
        }
        done += count;
    }
    buf[done..].fill(0);
    Ok(done)
}
