//! From words to commands.

ghost use Rattle.std.specs.Prelude.{◌≡◌, [], ℕ, All, Contains, IfOk, IsErrOf, codes, drop};
ghost use Rattle.std.specs.Str.{IsUtf8};
ghost use Rattle.clap.specs.Walk.{texts};
ghost use Rattle.spe_words.specs.Found.{FindsCommand, IsAsked, IsOf, IsSpelledBy, kind_options, kind_word};
ghost use Rattle.spe_words.specs.Grammar.{AskFor};

use crate::command::{Command, WordsFault};
use crate::kind::{Kind, kind_of};
use crate::line::{one, read_line, three, two};
use crate::number::number;
use crate::settings::{RUN_OPTIONS, read_settings, read_targets};
use clap::ArgMatches;
use spe_model::{Names, Text, Words};
use std::alloc::{AllocError, Global};

/// The command that words ask for. The first of them is the command word; the program's own name is
/// not among them.
pub fn read_words(alloc: Global, words: &Words) -> Result<Command, WordsFault>
    ensures command { IfOk result (AskFor words.now) }
    ensures no_other { IfOk result (λ c. (d : Command) → AskFor words.now d → d ≡ c) }
    ensures none { IsErrOf result WordsFault.Words → (c : Command) → ¬ AskFor words.now c }
{
    let texts = texts_of(alloc, words.as_slice())?;
    command_of(alloc, texts.as_slice())
}

// The words as string slices, where none is empty.
fn texts_of<'a>(alloc: Global, words: &'a [Text]) -> Result<Vec<&'a str>, WordsFault>
    ensures texts { IfOk result (λ v. texts v.items ≡ words.now) }
    ensures utf8 { IfOk result (λ _. All IsUtf8 words.now) }
    ensures no_empty { IfOk result (λ _. ¬ Contains words.now []) }
    ensures empty { IsErrOf result WordsFault.Words → Contains words.now [] }
{
    let mut texts = Vec::new(alloc);
    let mut left = words;
    while let [word, rest @ ..] = left {
        let text = word.as_str();
        let length = text.len();
        if length == 0 {
            return Err(WordsFault::Words);
        }
        texts.push(text)?;
        left = rest;
    }
    Ok(texts)
}

// The command that words ask for, of which none is empty.
fn command_of<'a>(alloc: Global, words: &'a [&'a str]) -> Result<Command, WordsFault>
    requires { All IsUtf8 (texts words.now) }
    ensures { FindsCommand (IsAsked (texts words.entry.now)) result }
{
    let [word, ..] = words else {
        return Err(WordsFault::Words);
    };
    match kind_of(word) {
        Some(Kind::Run) => read_kind(alloc, Kind::Run, word, RUN_OPTIONS.as_slice(), words),
        Some(kind) => read_kind(alloc, kind, word, &[], words),
        None => Err(WordsFault::Words),
    }
}

// The command of a kind, which has these options, that words ask for.
fn read_kind<'a>(
    alloc: Global,
    kind: Kind,
    command: &'a str,
    options: &[&'a str],
    words: &'a [&'a str],
) -> Result<Command, WordsFault>
    requires utf8 { All IsUtf8 (texts words.now) }
    requires options { texts options.now ≡ kind_options kind }
    ensures { FindsCommand (IsSpelledBy (kind_word kind) (drop 1 (texts words.entry.now))) result }
{
    let found = match read_line(alloc, command, options, words) {
        Ok(found) => found,
        Err(fault) => return Err(fault),
    };
    match kind {
        Kind::Rows => rows(alloc, &found),
        Kind::Check => check(alloc, &found),
        Kind::Prepare => prepare(alloc, &found),
        Kind::Release => release(alloc, &found),
        Kind::Run => run(alloc, &found),
        Kind::Work => work(alloc, &found),
    }
}

fn rows(alloc: Global, found: &ArgMatches<'_>) -> Result<Command, WordsFault>
    ensures { FindsCommand (IsOf (codes "rows") found.now) result }
{
    match two(found) {
        Some((db, table)) => Ok(Command::Rows {
            db: owned(alloc, db)?,
            table: owned(alloc, table)?,
        }),
        None => Err(WordsFault::Words),
    }
}

fn check(alloc: Global, found: &ArgMatches<'_>) -> Result<Command, WordsFault>
    ensures { FindsCommand (IsOf (codes "check") found.now) result }
{
    match one(found) {
        Some(db) => Ok(Command::Check {
            db: owned(alloc, db)?,
        }),
        None => Err(WordsFault::Words),
    }
}

fn prepare(alloc: Global, found: &ArgMatches<'_>) -> Result<Command, WordsFault>
    ensures { FindsCommand (IsOf (codes "prepare") found.now) result }
{
    let Some((db, lists)) = two(found) else {
        return Err(WordsFault::Words);
    };
    match number(lists, 1, 16) {
        Some(lists) => Ok(Command::Prepare {
            db: owned(alloc, db)?,
            lists,
        }),
        None => Err(WordsFault::Words),
    }
}

fn release(alloc: Global, found: &ArgMatches<'_>) -> Result<Command, WordsFault>
    ensures { FindsCommand (IsOf (codes "release") found.now) result }
{
    match one(found) {
        Some(db) => Ok(Command::Release {
            db: owned(alloc, db)?,
        }),
        None => Err(WordsFault::Words),
    }
}

fn run(alloc: Global, found: &ArgMatches<'_>) -> Result<Command, WordsFault>
    ensures { FindsCommand (IsOf (codes "run") found.now) result }
{
    let Some((db, scripts)) = read_targets(found) else {
        return Err(WordsFault::Words);
    };
    match read_settings(found) {
        Some(settings) => Ok(Command::Run {
            db: owned(alloc, db)?,
            scripts: names(alloc, scripts)?,
            workers: settings.workers,
            retries: settings.retries,
            slots: settings.slots,
        }),
        None => Err(WordsFault::Words),
    }
}

fn work(alloc: Global, found: &ArgMatches<'_>) -> Result<Command, WordsFault>
    ensures { FindsCommand (IsOf (codes "work") found.now) result }
{
    let Some((db, seed, count)) = three(found) else {
        return Err(WordsFault::Words);
    };
    let Some(seed) = number(seed, 0, u32::MAX) else {
        return Err(WordsFault::Words);
    };
    match number(count, 1, 100_000) {
        Some(count) => Ok(Command::Work {
            db: owned(alloc, db)?,
            seed,
            count,
        }),
        None => Err(WordsFault::Words),
    }
}

fn owned(alloc: Global, word: &str) -> Result<Text, AllocError>
    ensures { IfOk result (λ t. t ≡ word.now) }
{
    Ok(Text::new(String::from_str(alloc, word)?))
}

fn names(alloc: Global, words: &[&str]) -> Result<Names, AllocError>
    ensures { IfOk result (λ names. names ≡ texts words.now) }
{
    let mut names = Vec::new(alloc);
    let mut left = words;
    while let [word, rest @ ..] = left {
        let name = owned(alloc, word)?;
        names.push(name)?;
        left = rest;
    }
    Ok(Names::new(names))
}
