//! The files that a log makes, played from its beginning.

ghost use Rattle.std.specs.Prelude.{◌≡◌, IfOk, OnOk, All, length};
ghost use Rattle.spe_model.specs.Trace.{made_by, after};
ghost use Rattle.spe_disk.specs.Log.{files_in, operation_in, operations_in, FileLiesIn, EntryLiesIn};
ghost use Rattle.spe_disk.specs.Stop.{torn};

use crate::entry::{Entry, Span};
use crate::files::Files;
use crate::mem_file::MemFile;
use std::alloc::{AllocError, Global};

/// The files at first.
pub fn first_files(
    alloc: Global,
    store: &[u8],
    firsts: &[Option<Span>],
) -> Result<Files, AllocError>
    requires count { length firsts.now ≡ 17 }
    requires lie { All (FileLiesIn (length store.now)) firsts.now }
    ensures { IfOk result (λ f. f.content ≡ files_in store.now firsts.now) }
{
    let mut list = Vec::with_capacity(alloc, 17)?;
    for first in firsts {
        let file = match first {
            None => MemFile::absent(alloc),
            Some(span) => MemFile::holding(alloc, &store[span.start..span.end])?,
        };
        list.push(file)?;
    }
    Files::of(list)
}

/// Makes some operations again.
pub fn play(store: &[u8], entries: &[Entry], files: &mut Files) -> Result<(), AllocError>
    requires { All (EntryLiesIn (length store.now)) entries.now }
    ensures { OnOk result (files.new.content ≡ after files.old.content (operations_in store.now entries.now)) }
{
    let mut left = entries;
    while let [entry, rest @ ..] = left {
        play_one(store, entry, files)?;
        left = rest;
    }
    Ok(())
}

fn play_one(store: &[u8], entry: &Entry, files: &mut Files) -> Result<(), AllocError>
    requires { EntryLiesIn (length store.now) entry.now }
    ensures { OnOk result (files.new.content ≡ made_by (operation_in store.now entry.now) files.old.content) }
{
    match entry {
        Entry::Written(file, at, span) => files.write(*file, *at, &store[span.start..span.end]),
        Entry::Cut(file, size) => {
            files.cut(*file, *size);
            Ok(())
        }
    }
}

/// Makes some first bytes of the next operation again, where it is a write.
pub fn tear(store: &[u8], rest: &[Entry], bytes: usize, files: &mut Files) -> Result<(), AllocError>
    requires { All (EntryLiesIn (length store.now)) rest.now }
    ensures { OnOk result (files.new.content ≡ after files.old.content (torn (operations_in store.now rest.now) bytes)) }
{
    match rest {
        [Entry::Written(file, at, span), ..] => {
            let whole = &store[span.start..span.end];
            let (front, _) = whole.split_at(bytes.min(whole.len()));
            files.write(*file, *at, front)
        }
        _ => Ok(()),
    }
}
