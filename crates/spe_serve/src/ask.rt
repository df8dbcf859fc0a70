//! The answers of the commands that read a database, over the pages of a space.

ghost use Rattle.std.specs.Prelude.{◌≡◌, ◌≤◌, ◌*◌, ◌^◌, true, [], None, IfErr, IfOk};
ghost use Rattle.spe_model.specs.Verdict.{verdict_of};
ghost use Rattle.spe_space.specs.Calls.{Reads, RefusesTree};
ghost use Rattle.spe_words.specs.declared.command.Command.TheVariants as commands;
ghost use Rattle.spe_serve.specs.Answer.{reply_of_verdict, only_reads, IsOfVerdict, IsOverPages};
ghost use Rattle.spe_serve.specs.Reply.{IsAbout, IsAboutRows, IsAboutVerdict};
ghost use Rattle.spe_serve.specs.Space.{AnswersTold, AsksInside, IsFaultAbout, IsOfFront, AsksOver, AsksTold, GivesOver};

use crate::reply::Reply;
use crate::table::table_reply;
use crate::verdict::verdict;
use spe_model::{Text, Verdict};
use spe_space::{Pages, TreeFault};
use spe_verdict::counts_law;
use spe_words::Command;
use std::alloc::Global;

// The answer of `check` to a verdict over so many pages.
fn reply_of(pages: u32, verdict: Verdict) -> Reply
    ensures { result ≡ reply_of_verdict pages verdict }
{
    match verdict {
        Verdict::Stands { tables, rows, free } => Reply::Sound {
            pages,
            tables,
            rows,
            free,
        },
        Verdict::Broken { page, rule } => Reply::Damage { page, rule },
    }
}

// The answer of `check` over so many pages.
fn check_reply<S: Pages>(alloc: Global, space: &mut S, pages: u32) -> Result<Reply, TreeFault>
    requires refusal { S.Pages.refusal space.old ≡ None }
    requires some { 1 ≤ pages }
    requires few { pages * S.Pages.size space.old ≤ 2 ^ 30 }
    ensures reply { GivesOver S.Pages space.old space.new (λ shown reply. reply ≡ reply_of_verdict pages (verdict_of (S.Pages.used space.old) pages shown)) result }
    ensures about { IfOk result IsAboutVerdict }
    ensures damage { IfErr result IsOfFront }
    ensures asks { AsksInside pages result }
    ensures kept { Reads S.Pages space.old space.new }
    ensures refusal { RefusesTree S.Pages space.old space.new result }
{
    let verdict = verdict(alloc, space, pages)?;
    Ok(reply_of(pages, verdict))
}

// The answer of `rows` over so many pages, of which the verdict comes first.
fn rows_reply<S: Pages>(
    alloc: Global,
    space: &mut S,
    pages: u32,
    name: &Text,
) -> Result<Reply, TreeFault>
    requires refusal { S.Pages.refusal space.old ≡ None }
    requires some { 1 ≤ pages }
    requires few { pages * S.Pages.size space.old ≤ 2 ^ 30 }
    ensures reply { GivesOver S.Pages space.old space.new (λ shown reply. IsOfVerdict name.now (S.Pages.used space.old) pages shown (verdict_of (S.Pages.used space.old) pages shown) reply) result }
    ensures about { IfOk result IsAboutRows }
    ensures asks { AsksOver S.Pages space.old space.new pages result }
    ensures kept { Reads S.Pages space.old space.new }
    ensures refusal { RefusesTree S.Pages space.old space.new result }
{
    counts_law();
    match verdict(alloc, space, pages) {
        Ok(Verdict::Stands { .. }) => table_reply(alloc, space, name),
        Ok(Verdict::Broken { page, .. }) => Ok(Reply::Corrupt { page }),
        Err(fault) => Err(fault),
    }
}

// The answer to a command over so many pages.
fn reply_over<S: Pages>(
    alloc: Global,
    space: &mut S,
    pages: u32,
    command: &Command,
) -> Result<Reply, TreeFault>
    requires reads { only_reads command.now ≡ true }
    requires refusal { S.Pages.refusal space.old ≡ None }
    requires some { 1 ≤ pages }
    requires few { pages * S.Pages.size space.old ≤ 2 ^ 30 }
    ensures reply { GivesOver S.Pages space.old space.new (IsOverPages command.now (S.Pages.used space.old) pages) result }
    ensures about { IfOk result (IsAbout command.now) }
    ensures fault { IfErr result (IsFaultAbout command.now pages) }
    ensures asks { AsksOver S.Pages space.old space.new pages result }
    ensures kept { Reads S.Pages space.old space.new }
    ensures refusal { RefusesTree S.Pages space.old space.new result }
{
    match command {
        Command::Rows { table, .. } => rows_reply(alloc, space, pages, table),
        Command::Check { .. } => check_reply(alloc, space, pages),
        Command::Prepare { .. }
        | Command::Release { .. }
        | Command::Run { .. }
        | Command::Work { .. } => unreachable!(),
    }
}

/// The answer of `check` over so many pages, which are those that the space tells.
pub fn check_answer<S: Pages>(alloc: Global, space: &mut S, pages: u32) -> Result<Reply, TreeFault>
    requires refusal { S.Pages.refusal space.old ≡ None }
    requires some { 1 ≤ pages }
    requires few { pages * S.Pages.size space.old ≤ 2 ^ 30 }
    ensures reply { AnswersTold S.Pages space.old (commands.Check []) pages result }
    ensures about { IfOk result IsAboutVerdict }
    ensures fault { IfErr result (IsFaultAbout (commands.Check []) pages) }
    ensures asks { AsksTold S.Pages space.old pages result }
    ensures kept { Reads S.Pages space.old space.new }
    ensures refusal { RefusesTree S.Pages space.old space.new result }
{
    check_reply(alloc, space, pages)
}

/// The answer to a command over so many pages, which are those that the space tells.
///
/// Corrupt never comes where the space tells its pages and page 1 has the front that was found before, and
/// PageOut then names one of so many pages. `check` answers Corrupt of page 1 alone, where that page, as it
/// is read now, no longer begins so.
pub fn answer<S: Pages>(
    alloc: Global,
    space: &mut S,
    pages: u32,
    command: &Command,
) -> Result<Reply, TreeFault>
    requires reads { only_reads command.now ≡ true }
    requires refusal { S.Pages.refusal space.old ≡ None }
    requires some { 1 ≤ pages }
    requires few { pages * S.Pages.size space.old ≤ 2 ^ 30 }
    ensures reply { AnswersTold S.Pages space.old command.now pages result }
    ensures about { IfOk result (IsAbout command.now) }
    ensures fault { IfErr result (IsFaultAbout command.now pages) }
    ensures asks { AsksTold S.Pages space.old pages result }
    ensures kept { Reads S.Pages space.old space.new }
    ensures refusal { RefusesTree S.Pages space.old space.new result }
{
    reply_over(alloc, space, pages, command)
}
