//! A transaction commits what it has written.

ghost use Rattle.std.specs.Prelude.{◌≡◌, ◌≤◌, ℕ, List, None, Some, IfErr, IfOk, OnErr, OnOk, false, length, true};
ghost use Rattle.spe_model.specs.Justified.{Justified};
ghost use Rattle.spe_store.specs.Call.{IsTied, MayEnd, own_count};
ghost use Rattle.spe_store.specs.Event.{broken_in, entries_in, lives_in, open_in, seen_in, written_in};
ghost use Rattle.spe_store.specs.Served.{asked_of};
ghost use Rattle.spe_session.specs.Alone.{IsAlone};
ghost use Rattle.spe_session.specs.Ending.{AddsEntry, FailsEnd, IsBrokenBy, NamesCut};
ghost use Rattle.spe_session.specs.Working.{IsFault, IsStop};

use crate::fault::{EndFault, end_fault};
use spe_disk::Disk;
use spe_store::{Log, Opening, Pass, SessionSeat, Store};

// Commits what was written, and answers the commit's number.
pub(crate) fn seal<D: Disk, N: Opening>(
    store: &mut Store<D, N>,
    pass: &mut Pass,
    session: &mut SessionSeat,
    log: &Log,
) -> Result<u64, EndFault>
    requires tied { IsTied store.old pass.old }
    requires lives { lives_in store.old.events pass.old.id ≡ true }
    requires may { MayEnd N.opened store.old pass.old.id }
    requires alone { IsAlone store.old.events pass.old.id }
    requires right { Justified N.opened.read (asked_of log.now) (seen_in store.old.events pass.old.id) (written_in store.old.events pass.old.id) }
    requires unbroken { broken_in store.old.events ≡ None }
    ensures number { IfOk result (λ number. number ≡ length (entries_in store.new.events)) }
    ensures entry { OnOk result (AddsEntry (entries_in store.old.events) (entries_in store.new.events) session.old.number log.now (written_in store.old.events pass.old.id)) }
    ensures counted { OnOk result (store.new.count ≡ own_count store.old pass.old.id) }
    ensures uncounted { OnErr result (store.new.count ≡ store.old.count) }
    ensures going { OnOk result (store.new.desk.stopped ≡ None) }
    ensures closed { OnOk result (open_in store.new.events pass.old.id ≡ false) }
    ensures alone { IsAlone store.new.events pass.old.id }
    ensures fault { IfErr result (IsFault N.opened store.new) }
    ensures fails { OnErr result (FailsEnd pass.old.id store.old store.new) }
    ensures broken { OnErr result (IsBrokenBy session.old.number log.now (broken_in store.new.events)) }
    ensures names { IfErr result (NamesCut (broken_in store.new.events)) }
    ensures stop { IfErr result IsStop }
    ensures told { IfOk result (λ number. session.new ≡ record session.old { told = number }) }
    ensures session { OnErr result (session.new ≡ session.old) }
    ensures tied { IsTied store.new pass.new }
    ensures id { pass.new.id ≡ pass.old.id }
    ensures sized { store.new.page_size ≡ store.old.page_size }
{
    match store.commit(pass, session, log) {
        Ok(receipt) => Ok(receipt.number),
        Err(fault) => Err(end_fault(fault)),
    }
}
