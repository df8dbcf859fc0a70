//! The statements of a transaction, carried out one after the other.

ghost use Rattle.std.specs.Prelude.{◌≡◌, ◌<◌, [], None, IfErr, OnOk, length};
ghost use Rattle.spe_space.specs.Calls.{Keeps, RefusesTree};
ghost use Rattle.spe_served.specs.Lists.{ListsStand};
ghost use Rattle.spe_exec.specs.Justifying.{JustifiedIn};
ghost use Rattle.spe_session.specs.Carried.{IsFront, WhereBegun};

use crate::passing::Passing;
use spe_disk::Gate;
use spe_exec::{justified_more, run};
use spe_model::{Catalog, Reply, Statement, TxKind};
use spe_space::{PageSpace, SpaceFault, TreeFault};
use std::alloc::Global;

/// Carries out statements one after the other, up to the first that fails, and keeps the replies to those
/// before it. Each passes the gate first. The faults are those of `run`, and want of memory for the replies.
pub fn carry_out<S: PageSpace, G: Gate>(
    alloc: Global,
    space: &mut S,
    catalog: &Catalog,
    statements: &[Statement],
    kind: TxKind,
    replies: &mut Vec<Reply>,
    passing: &Passing<'_, G>,
) -> Result<(), TreeFault>
    requires lists { ListsStand S.Pages }
    requires refusal { S.Pages.refusal space.old ≡ None }
    requires empty { replies.old.items ≡ [] }
    ensures done { OnOk result (WhereBegun S.Pages space.old catalog.now kind (λ opening.
        JustifiedIn S.Pages opening (record { kind = kind; statements = statements.now; replies = replies.new.items }) space.new)) }
    ensures front { WhereBegun S.Pages space.old catalog.now kind (λ opening. IsFront S.Pages opening kind statements.now replies.new.items space.new) }
    ensures short { IfErr result (λ _. length replies.new.items < length statements.now) }
    ensures kept { Keeps S.Pages space.old space.new }
    ensures refusal { RefusesTree S.Pages space.old space.new result }
{
    justified_more::<S>();
    let mut left = statements;
    while let [statement, rest @ ..] = left {
        passing.pass(replies.len());
        let reply = match run(alloc, space, catalog, statement, kind) {
            Ok(reply) => reply,
            Err(fault) => return Err(fault),
        };
        match replies.push(reply) {
            Ok(()) => (),
            Err(_) => return Err(TreeFault::Space(SpaceFault::Memory)),
        }
        left = rest;
    }
    Ok(())
}
