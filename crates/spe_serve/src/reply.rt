//! What the program answers, in words.

ghost use Rattle.std.specs.Prelude.{◌≡◌, IfOk, OnOk, ◌++◌, codes};
ghost use Rattle.spe_serve.specs.Asked.{script_text, word_of};
ghost use Rattle.spe_serve.specs.Reply.{number_of, closed_number};

use itoa::Buffer;
use spe_model::{Closed, HeaderFault, RecoverFault, TableRows};
use spe_script::ScriptKind;
use std::alloc::{AllocError, Global};

/// An answer.
#[derive(Debug, Drop)]
pub enum Reply {
    /// The words are no command.
    Words,
    /// There is no such file.
    NoDatabase,
    /// The files are not recovered, for this reason.
    Refused(RecoverFault),
    /// The command is not built yet.
    NotBuilt,
    /// No page breaks a rule, and there are so many pages, tables, rows in the open ones, and free
    /// pages.
    Sound {
        pages: u32,
        tables: u32,
        rows: u64,
        free: u32,
    },
    /// `check` found that this page is the first that breaks a rule, by the rule's number.
    Damage {
        page: u32,
        rule: u8,
    },
    /// This page is damaged, or is asked for and there is no such page, so that nothing is read.
    Corrupt {
        page: u32,
    },
    /// The database has no such table.
    NoTable,
    /// The table is closed, for this reason.
    ClosedTable(Closed),
    /// The rows of the table, by ascending rowid.
    Rows(TableRows),
    /// The free lists are in stock form; so many of so many pages are free.
    Released {
        free: u32,
        pages: u32,
    },
    /// The free lists are in server form, so many of them, and there are so many pages.
    Prepared {
        lists: u32,
        pages: u32,
    },
    /// The free lists are in server form as they are.
    AlreadyPrepared,
    /// With the pages to be added the file would be too large; there are so many.
    Full {
        pages: u32,
    },
}

fn fault_number(fault: HeaderFault) -> u8
    ensures { result ≡ number_of fault }
{
    fault as u8
}

fn closed_number(why: Closed) -> u8
    ensures { result ≡ closed_number why }
{
    why as u8
}

fn put_number(out: &mut Vec<u8>, number: u64) -> Result<(), AllocError>
    ensures { OnOk result (out.new.items ≡ out.old.items ++ decimal number) }
{
    out.extend_from_slice(Buffer::new().format(number).as_bytes())
}

// Adds two numbers with a blank between them.
fn put_pair(out: &mut Vec<u8>, a: u64, b: u64) -> Result<(), AllocError>
    ensures { OnOk result (out.new.items ≡ out.old.items ++ pair a b) }
{
    put_number(out, a)?;
    out.push(b' ')?;
    put_number(out, b)
}

// Adds why files are not recovered.
fn put_reason(out: &mut Vec<u8>, fault: RecoverFault) -> Result<(), AllocError>
    ensures { OnOk result (out.new.items ≡ out.old.items ++ reason fault) }
{
    match fault {
        RecoverFault::Header(fault) => {
            out.extend_from_slice(b"header ")?;
            put_number(out, u64::from(fault_number(fault)))
        }
        RecoverFault::JournalPage { id: journal, size } => {
            out.extend_from_slice(b"journal-page ")?;
            put_pair(out, u64::from(journal), u64::from(size))
        }
        RecoverFault::Overlap { page, a, b } => {
            out.extend_from_slice(b"overlap ")?;
            put_number(out, u64::from(page))?;
            out.push(b' ')?;
            put_pair(out, u64::from(a), u64::from(b))
        }
        RecoverFault::TooLarge { pages } => {
            out.extend_from_slice(b"too-large ")?;
            put_number(out, pages)
        }
        RecoverFault::ShortFile { pages, bytes } => {
            out.extend_from_slice(b"short-file ")?;
            put_pair(out, u64::from(pages), bytes)
        }
        RecoverFault::NotPrepared => out.extend_from_slice(b"not-prepared"),
        RecoverFault::Disk | RecoverFault::Memory => Ok(()),
    }
}

/// The line that says why files are not recovered.
pub fn refusal_line(alloc: Global, fault: RecoverFault) -> Result<Vec<u8>, AllocError>
    ensures { IfOk result (λ v. v.items ≡ line (codes "refused " ++ reason fault)) }
{
    let mut out = Vec::new(alloc);
    out.extend_from_slice(b"refused ")?;
    put_reason(&mut out, fault)?;
    out.push(b'\n')?;
    Ok(out)
}

/// The line that says what a sound database has.
pub fn sound_line(
    alloc: Global,
    pages: u32,
    tables: u32,
    rows: u64,
    free: u32,
) -> Result<Vec<u8>, AllocError>
    ensures { IfOk result (λ v. v.items ≡ line (counts pages tables rows free)) }
{
    let mut out = Vec::new(alloc);
    out.extend_from_slice(b"ok pages ")?;
    put_number(&mut out, u64::from(pages))?;
    out.extend_from_slice(b" tables ")?;
    put_number(&mut out, u64::from(tables))?;
    out.extend_from_slice(b" rows ")?;
    put_number(&mut out, rows)?;
    out.extend_from_slice(b" free ")?;
    put_number(&mut out, u64::from(free))?;
    out.push(b'\n')?;
    Ok(out)
}

/// The line that says how many pages are free once the free lists are in stock form, and how many there
/// are.
pub fn released_line(alloc: Global, free: u32, pages: u32) -> Result<Vec<u8>, AllocError>
    ensures { IfOk result (λ v. v.items ≡ line (released_counts free pages)) }
{
    let mut out = Vec::new(alloc);
    out.extend_from_slice(b"released free ")?;
    put_number(&mut out, u64::from(free))?;
    out.extend_from_slice(b" pages ")?;
    put_number(&mut out, u64::from(pages))?;
    out.push(b'\n')?;
    Ok(out)
}

/// The line that says how many free lists there are in server form, and how many pages.
pub fn prepared_line(alloc: Global, lists: u32, pages: u32) -> Result<Vec<u8>, AllocError>
    ensures { IfOk result (λ v. v.items ≡ line (prepared_counts lists pages)) }
{
    let mut out = Vec::new(alloc);
    out.extend_from_slice(b"prepared lists ")?;
    put_number(&mut out, u64::from(lists))?;
    out.extend_from_slice(b" pages ")?;
    put_number(&mut out, u64::from(pages))?;
    out.push(b'\n')?;
    Ok(out)
}

/// The line that says that the pages to be added would make the file too large.
pub fn full_line(alloc: Global, pages: u32) -> Result<Vec<u8>, AllocError>
    ensures { IfOk result (λ v. v.items ≡ line (codes "refused full " ++ decimal pages)) }
{
    let mut out = Vec::new(alloc);
    out.extend_from_slice(b"refused full ")?;
    put_number(&mut out, u64::from(pages))?;
    out.push(b'\n')?;
    Ok(out)
}

/// The line that names the first page that breaks a rule, and the rule.
pub fn damage_line(alloc: Global, page: u32, rule: u8) -> Result<Vec<u8>, AllocError>
    ensures { IfOk result (λ v. v.items ≡ line (codes "damage " ++ pair page rule)) }
{
    let mut out = Vec::new(alloc);
    out.extend_from_slice(b"damage ")?;
    put_pair(&mut out, u64::from(page), u64::from(rule))?;
    out.push(b'\n')?;
    Ok(out)
}

/// The line that names a damaged page.
pub fn corrupt_line(alloc: Global, page: u32) -> Result<Vec<u8>, AllocError>
    ensures { IfOk result (λ v. v.items ≡ line (codes "refused corrupt " ++ decimal page)) }
{
    let mut out = Vec::new(alloc);
    out.extend_from_slice(b"refused corrupt ")?;
    put_number(&mut out, u64::from(page))?;
    out.push(b'\n')?;
    Ok(out)
}

/// The line that says why a table is closed.
pub fn closed_line(alloc: Global, why: Closed) -> Result<Vec<u8>, AllocError>
    ensures { IfOk result (λ v. v.items ≡ line (codes "refused closed-table " ++ decimal (closed_number why))) }
{
    let mut out = Vec::new(alloc);
    out.extend_from_slice(b"refused closed-table ")?;
    put_number(&mut out, u64::from(closed_number(why)))?;
    out.push(b'\n')?;
    Ok(out)
}

ghost use Rattle.std.specs.Fmt.{decimal};
ghost use Rattle.spe_render.specs.Values.{line};
ghost use Rattle.spe_serve.specs.Reply.{pair, reason, counts, prepared_counts, released_counts};

/// The line that says that a client has no script.
pub fn no_script_line(alloc: Global, client: u32) -> Result<Vec<u8>, AllocError>
    ensures { IfOk result (λ v. v.items ≡ line (codes "refused no-script " ++ decimal client)) }
{
    let mut out = Vec::new(alloc);
    out.extend_from_slice(b"refused no-script ")?;
    put_number(&mut out, u64::from(client))?;
    out.push(b'\n')?;
    Ok(out)
}

// The word for what is wrong with a script.
fn word_of(kind: ScriptKind) -> &'static [u8]
    ensures { result.now ≡ word_of kind }
{
    match kind {
        ScriptKind::NotUtf8 => b"not-utf8",
        ScriptKind::Token => b"token",
        ScriptKind::Expected => b"expected",
        ScriptKind::Unsupported => b"unsupported",
        ScriptKind::NumberRange => b"number-range",
        ScriptKind::Nested => b"nested",
        ScriptKind::NotOpen => b"not-open",
        ScriptKind::TooLong => b"too-long",
        ScriptKind::Memory => b"memory",
    }
}

/// The line that says what is wrong with the script of a client, and on which line of it.
pub fn bad_script_line(
    alloc: Global,
    client: u32,
    at: u64,
    kind: ScriptKind,
) -> Result<Vec<u8>, AllocError>
    ensures { IfOk result (λ v. v.items ≡ line (script_text client at kind)) }
{
    let mut out = Vec::new(alloc);
    out.extend_from_slice(b"refused script ")?;
    put_number(&mut out, u64::from(client))?;
    out.extend_from_slice(b" line ")?;
    put_number(&mut out, at)?;
    out.push(b' ')?;
    out.extend_from_slice(word_of(kind))?;
    out.push(b'\n')?;
    Ok(out)
}
