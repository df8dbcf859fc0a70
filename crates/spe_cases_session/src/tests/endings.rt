//! Transactions that are given up, and that commit.

use super::begin::{First, Three, begun};
use super::disk::{Counted, PAGE, three_pages};
use spe_model::{End, Replies, Statements, Tx, TxKind};
use spe_session::{Ended, Left, Pager};
use spe_space::Pages;
use spe_store::{Log, SessionSeat};
use std::alloc::Global;
use std::test::Fail;

// A transaction that asks nothing.
fn log(alloc: Global) -> Log {
    Log {
        client: 1,
        tx: 1,
        body: Tx {
            kind: TxKind::ReadWrite,
            statements: Statements::new(Vec::new(alloc)),
            end: End::Commit,
        },
        replies: Replies::new(Vec::new(alloc)),
    }
}

// Puts a page of nines, where the pages are of that size.
fn put_nines(pager: &mut Pager<Counted, Three, First>, page: u32) -> bool {
    pager.page_size() as usize == PAGE && pager.put(page, &[9; PAGE]).is_ok()
}

// How many commits there are, what the session was told, and how many operations were tried.
fn give_up(pager: Pager<Counted, Three, First>) -> (u64, u64, u64) {
    let mut session = SessionSeat { number: 1, told: 0 };
    let Left { store, number } = pager.give_up(&mut session);
    (number, session.told, store.close().disk.made)
}

// The number of the commit, what the session was told, and how many operations were tried.
fn commit(pager: Pager<Counted, Three, First>, log: &Log) -> (Option<u64>, u64, u64) {
    let mut session = SessionSeat { number: 1, told: 0 };
    let Ended { store, answer } = pager.commit(&mut session, log);
    (answer.ok(), session.told, store.close().disk.made)
}

#[test]
fn a_transaction_that_is_given_up_writes_nothing(rt: HostRuntime) -> Result<(), Fail> {
    let alloc = rt.alloc();
    let mut pager = begun(alloc, three_pages(alloc, 0)?)?;
    let put = put_nines(&mut pager, 3);
    assert_eq!(rt; (put, give_up(pager)), (true, (0, 0, 0)));
    Ok(())
}

// A head, a record of the page, the page, and the cut.
#[test]
fn a_page_is_committed_in_four_operations(rt: HostRuntime) -> Result<(), Fail> {
    let alloc = rt.alloc();
    let mut pager = begun(alloc, three_pages(alloc, 0)?)?;
    let put = put_nines(&mut pager, 3);
    assert_eq!(rt; (put, commit(pager, &log(alloc))), (true, (Some(1), 1, 4)));
    Ok(())
}

#[test]
fn nothing_is_committed_without_an_operation(rt: HostRuntime) -> Result<(), Fail> {
    let alloc = rt.alloc();
    let pager = begun(alloc, three_pages(alloc, 0)?)?;
    assert_eq!(rt; commit(pager, &log(alloc)), (Some(1), 1, 0));
    Ok(())
}
