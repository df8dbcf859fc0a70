//! One transaction that changes page 2, and commits or is undone.

ghost use Rattle.std.specs.Prelude.{◌≡◌, [], OnOk};
ghost use Rattle.spe_store.specs.Call.{IsTied};
ghost use Rattle.spe_cases_store.specs.Only.{HasBegun, HasChanged};

use super::begin::Three;
use super::disk::{Blind, PAGE};
use spe_model::{End, Replies, Statements, Tx, TxKind};
use spe_store::{Log, Pass, Receipt, SessionSeat, Store, StoreFault};
use std::alloc::Global;

/// A transaction without statements.
pub fn log(alloc: Global) -> Log {
    Log {
        client: 4,
        tx: 7,
        body: Tx {
            kind: TxKind::ReadWrite,
            statements: Statements::new(Vec::new(alloc)),
            end: End::Commit,
        },
        replies: Replies::new(Vec::new(alloc)),
    }
}

// Opens the journal, saves page 2 and writes it.
fn change(store: &mut Store<Blind, Three>, pass: &mut Pass) -> Result<(), StoreFault>
    requires tied { IsTied store.old pass.old }
    requires begun { HasBegun store.old pass.old.id }
    ensures tied { IsTied store.new pass.new }
    ensures changed { OnOk result (HasChanged store.new pass.new.id) }
{
    store.open_journal(pass)?;
    store.journal(pass, 2)?;
    store.write(pass, 2, &[9; PAGE])
}

/// Begins a transaction in a store in which nothing was done, changes page 2 and commits.
pub fn commit(
    store: &mut Store<Blind, Three>,
    session: &mut SessionSeat,
    log: &Log,
) -> Result<Receipt, StoreFault>
    requires events { store.old.events ≡ [] }
    requires sized { store.old.page_size ≡ 512 }
    requires counted { store.old.count ≡ 3 }
{
    let Ok(mut pass) = store.take_pass(session) else {
        return Err(StoreFault::Memory);
    };
    change(store, &mut pass)?;
    store.keeps();
    let receipt = store.commit(&mut pass, session, log)?;
    let (seat, _) = store.finish(pass, session);
    store.put_back(session, seat);
    Ok(receipt)
}

/// Begins a transaction in a store in which nothing was done, changes page 2 and undoes it. Answers how
/// many pages were left each time.
pub fn undo(
    store: &mut Store<Blind, Three>,
    session: &mut SessionSeat,
) -> Result<(usize, usize), StoreFault>
    requires events { store.old.events ≡ [] }
    requires sized { store.old.page_size ≡ 512 }
    requires counted { store.old.count ≡ 3 }
{
    let Ok(mut pass) = store.take_pass(session) else {
        return Err(StoreFault::Memory);
    };
    change(store, &mut pass)?;
    let first = store.undo_one(&mut pass)?;
    let second = store.undo_one(&mut pass)?;
    if second > 0 {
        return Ok((first, second));
    }
    store.drop_journal(&mut pass)?;
    let (seat, _) = store.finish(pass, session);
    store.put_back(session, seat);
    Ok((first, second))
}
