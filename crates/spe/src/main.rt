//! The program: the words of its command line, the real files and standard output, and the top call;
//! on standard error, what helps a person.
#![tactic(auto)]

mod messages;
mod progress;

use crate::messages::{Asked, USAGE, VERSION, advice, header_fault};
use crate::progress::Progress;
use spe_disk::{Sink, put_all};
use spe_files::{FileDisk, FileScripts, OutSink};
use spe_model::{Text, Words};
use spe_serve::spe;
use std::alloc::Global;
use std::env::Env;
use std::fs::File;
use std::io::{ErrorKind, IsTerminal};
use std::process::ExitCode;
use std::rt::Files;
use std::{env, io};

const DONE: u8 = 0;

const NO_COMMAND: u8 = 1;

const REFUSED: u8 = 2;

const FAULT: u8 = 3;

const MEMORY: u8 = 4;

// How the line begins that is printed once free lists are in stock form.
const RELEASED: &[u8] = b"released free ";

fn words_of(rt: &(impl Env + Alloc<A = Global>)) -> io::Result<Words> {
    let mut words = Vec::new(rt.alloc());
    for word in env::args(rt)?.skip(1) {
        words.push(Text::new(word))?;
    }
    Ok(Words::new(words))
}

// Puts that there was no memory, and answers the status.
fn put_memory<W: Sink>(out: &mut W) -> u8 {
    match put_all(out, b"memory\n") {
        Ok(()) => MEMORY,
        Err(_) => FAULT,
    }
}

// Tells what the words may be.
fn tell_usage(rt: &impl Eprint, asked: Asked) -> io::Result<()> {
    match asked {
        Asked::Usage => eprintln!(rt; "{USAGE}"),
        Asked::Version => eprintln!(rt; "{VERSION}"),
    }
}

// Tells that there are no words, as the system did not give them.
fn tell_no_words(rt: &impl Eprint) -> io::Result<()> {
    eprintln!(rt; "spe: the system does not give the command line")
}

// Tells why the words were refused that this line answers.
fn tell_refusal(rt: &impl Eprint, line: &[u8]) -> io::Result<()> {
    if let Some(fault) = header_fault(line) {
        eprintln!(rt; "spe: {fault}")?;
    }
    if let Some(text) = advice(line) {
        eprintln!(rt; "spe: {text}")?;
    }
    Ok(())
}

// Tells what failed: the disk, or else standard output.
fn tell_fault<R: Files<File = File>>(rt: &impl Eprint, disk: &FileDisk<'_, R>) -> io::Result<()> {
    let Some(fault) = disk.first_fault() else {
        return eprintln!(rt; "spe: standard output takes no more");
    };
    let path = disk.path(fault)?;
    eprintln!(rt; "spe: {path}: {fault}")
}

// Tells on standard error what helps; standard output has the answer already.
fn tell<R: Files<File = File>>(
    rt: &impl Eprint,
    status: u8,
    asked: Asked,
    line: &[u8],
    disk: &FileDisk<'_, R>,
) -> io::Result<()> {
    match status {
        NO_COMMAND => tell_usage(rt, asked),
        REFUSED => tell_refusal(rt, line),
        FAULT => tell_fault(rt, disk),
        _ => Ok(()),
    }
}

// Removes the journals and their folder once free lists are in stock form, so that `sqlite3` opens the file.
// Where that fails they stay, and all is said all the same.
fn tidy<R: Files<File = File> + Alloc<A = Global> + Clone + Drop>(
    status: u8,
    line: &[u8],
    disk: &FileDisk<'_, R>,
) {
    if status == DONE && line.starts_with(RELEASED) {
        let _ = disk.remove_journals();
    }
}

fn main(rt: HostRuntime) -> io::Result<ExitCode> {
    let mut out = OutSink::new(&rt);
    let words = match words_of(&rt) {
        Ok(words) => words,
        // Words that are no text are refused as no words are.
        Err(fault) if fault.kind() == ErrorKind::InvalidData => Words::new(Vec::new(rt.alloc())),
        Err(fault) if fault.kind() == ErrorKind::OutOfMemory => {
            return Ok(ExitCode::from(put_memory(&mut out)));
        }
        Err(_) => {
            let _ = tell_no_words(&rt);
            return Ok(ExitCode::from(FAULT));
        }
    };
    let asked = Asked::of(&words);
    let progress = Progress::new(&rt, rt.stderr().is_terminal());
    let (finished, disk) = spe(
        &rt,
        rt.alloc(),
        words,
        FileDisk::new(&rt, rt.alloc()),
        &mut FileScripts::new(&rt),
        &mut out,
        &progress,
    );
    let _ = progress.end();
    tidy(finished.status, out.head(), &disk);
    let _ = tell(&rt, finished.status, asked, out.head(), &disk);
    Ok(ExitCode::from(finished.status))
}
