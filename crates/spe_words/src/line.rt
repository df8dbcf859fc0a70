//! The words after a command word, as `clap` reads them.

ghost use Rattle.std.specs.Prelude.{◌≡◌, All, IfOk, drop, true};
ghost use Rattle.std.specs.Str.{IsUtf8};
ghost use Rattle.clap.specs.Words.{app_of, with_rule};
ghost use Rattle.clap.specs.Walk.{texts};
ghost use Rattle.spe_words.specs.Found.{FindsLine, FindsOne, FindsThree, FindsTwo, are_names, positionals_of};
ghost use Rattle.spe_words.specs.Syntax.{option_rule, syntax_of};

use crate::command::WordsFault;
use clap::error::ErrorKind;
use clap::{Arg, ArgAction, ArgMatches, Command};
use std::alloc::{AllocError, Global};

// A command with any number of positionals, and options that have these names and one value each.
// How often a thing may stand is asked of what is found.
fn syntax<'a>(
    alloc: Global,
    command: &'a str,
    options: &[&'a str],
) -> Result<Command<'a>, AllocError>
    ensures { IfOk result (λ c. app_of c ≡ syntax_of command.entry.now (texts options.entry.now)) }
{
    let positionals = Arg::new(alloc, "words").action(ArgAction::Append);
    let mut syntax = Command::new(alloc, command)
        .disable_help_flag(true)
        .disable_version_flag(true)
        .arg(positionals)?;
    let mut left = options;
    while let [name, rest @ ..] = left {
        syntax = with_option(alloc, syntax, name)?;
        left = rest;
    }
    Ok(syntax)
}

fn with_option<'a>(
    alloc: Global,
    syntax: Command<'a>,
    name: &'a str,
) -> Result<Command<'a>, AllocError>
    ensures { IfOk result (λ c. app_of c ≡ with_rule (app_of syntax.entry) (option_rule name.entry.now)) }
{
    let option = Arg::new(alloc, name).long(name).action(ArgAction::Append);
    syntax.arg(option)
}

// What stands in words of which the first is the command word.
pub fn read_line<'a>(
    alloc: Global,
    command: &'a str,
    options: &[&'a str],
    words: &'a [&'a str],
) -> Result<ArgMatches<'a>, WordsFault>
    requires utf8 { All IsUtf8 (texts words.now) }
    requires names { are_names (texts options.now) ≡ true }
    ensures { FindsLine (texts options.entry.now) (drop 1 (texts words.entry.now)) result }
{
    let syntax = syntax(alloc, command, options)?;
    match syntax.try_get_matches_from(words) {
        Ok(matches) => Ok(matches),
        Err(error) if error.kind() == ErrorKind::OutOfMemory => Err(WordsFault::Memory),
        Err(_) => Err(WordsFault::Words),
    }
}

// The positional that is found, where it is one.
pub fn one<'a>(found: &ArgMatches<'a>) -> Option<&'a str>
    ensures { FindsOne (positionals_of found.now) result }
{
    match found.get_raw("words") {
        Some([first]) => Some(first),
        _ => None,
    }
}

// The positionals that are found, where they are two.
pub fn two<'a>(found: &ArgMatches<'a>) -> Option<(&'a str, &'a str)>
    ensures { FindsTwo (positionals_of found.now) result }
{
    match found.get_raw("words") {
        Some([first, second]) => Some((first, second)),
        _ => None,
    }
}

// The positionals that are found, where they are three.
pub fn three<'a>(found: &ArgMatches<'a>) -> Option<(&'a str, &'a str, &'a str)>
    ensures { FindsThree (positionals_of found.now) result }
{
    match found.get_raw("words") {
        Some([first, second, third]) => Some((first, second, third)),
        _ => None,
    }
}
