//! Recovery.

ghost use Rattle.std.specs.Prelude.{◌≡◌, ◌≤◌, true, ℕ, List, Ok, IfOk, IfErr, OnErr};
ghost use Rattle.spe_model.specs.Header.{is_page_size, node_of};
ghost use Rattle.spe_model.specs.Recovery.{file_page_size, recovered, recovered_header};
ghost use Rattle.spe_model.specs.Rollback.{rule_of};
ghost use Rattle.spe_model.specs.Settled.{IsFound, IsWithinLimits, LeavesPages};
ghost use Rattle.spe_recover.specs.declared.failure.Failure.TheVariants.{Memory};
ghost use Rattle.spe_recover.specs.Heads.{AreHeads};
ghost use Rattle.spe_recover.specs.Restored.{HasEitherFailure};
ghost use Rattle.spe_recover.specs.Survey.{IsLimited};
ghost use Rattle.spe_disk.specs.Added.{IfBothTold, IfTold, MakesCut};
ghost use Rattle.spe_recover.specs.Written.{IsReady, MakesCounted};
ghost use Rattle.spe_recover.specs.Recovered.{HasPages, AreHotBits, HasCauses, IsPlain, IsRefusal, is_prepared, is_wanted, rollback_of};

use crate::failure::Failure;
use crate::heads::JournalHead;
use crate::known::{Known, find_known};
use crate::rolled::find_rolled;
use crate::seen::Seen;
use crate::survey::Survey;
use crate::want::Want;
use crate::write_back::write_back;
use spe_crash::{recovered_pages, rollback_keeps, rollback_restores};
use spe_disk::Disk;
use spe_model::{Header, RecoverFault, Recovered};
use std::alloc::Global;
use std::collections::BTreeMap;

fn is_prepared(header: &Header) -> bool
    ensures { result ≡ is_prepared header.now }
{
    header.first_free != 0 && header.free_count == 0 && header.is_size_valid()
}

fn is_wanted(want: Want, header: &Header) -> bool
    ensures { result ≡ is_wanted want header.now }
{
    match want {
        Want::Any => true,
        Want::Prepared => is_prepared(header),
    }
}

// What recovery found and did.
fn recovered_of(survey: &Survey, rolled: u16, ops: u64) -> Recovered
    ensures page_size { result.page_size ≡ survey.now.page_size }
    ensures reserved { result.reserved ≡ survey.now.header.reserved }
    ensures pages { result.pages ≡ survey.now.pages }
    ensures node { result.node ≡ node_of survey.now.header }
    ensures rolled { result.rolled ≡ rolled }
    ensures ops { result.ops ≡ ops }
{
    Recovered {
        page_size: survey.page_size,
        reserved: survey.header.reserved,
        pages: survey.pages,
        node: survey.header.node(),
        rolled,
        ops,
    }
}

// Rolls back what is known to be rolled back.
fn roll_back<D: Disk>(
    alloc: Global,
    disk: &mut D,
    survey: &Survey,
    heads: &[JournalHead; 16],
    holders: &mut BTreeMap<u32, u8>,
) -> Result<Recovered, Failure>
    requires attached { D.attached disk.old ≡ true }
    requires low { 512 ≤ survey.now.page_size }
    requires high { survey.now.page_size ≤ 65536 }
    requires power { is_page_size survey.now.page_size ≡ true }
    requires limits { IsLimited survey.now }
    requires heads { IfTold (D.told disk.old) (λ content. AreHeads content survey.now.page_size heads.now) }
    requires ready { IfTold (D.told disk.old) (IsReady survey.now holders.old) }
    ensures limits { IfOk result IsWithinLimits }
    ensures page_size { IfOk result (λ found. found.page_size ≡ survey.now.page_size) }
    ensures reserved { IfOk result (λ found. found.reserved ≡ survey.now.header.reserved) }
    ensures pages { IfOk result (λ found. found.pages ≡ survey.now.pages) }
    ensures node { IfOk result (λ found. found.node ≡ node_of survey.now.header) }
    ensures rolled { IfOk result (λ found. IfTold (D.told disk.old) (λ content. AreHotBits content found.rolled)) }
    ensures made { IfOk result (λ found. MakesCounted (D.told disk.old) (D.told disk.new) (λ content. rule_of content survey.now.pages) found.ops) }
    ensures stopped { OnErr result (MakesCut (D.told disk.old) (D.told disk.new) (λ content. rule_of content survey.now.pages)) }
    ensures untouched { IfErr result (λ failure. failure ≡ Memory → D.told disk.new ≡ D.told disk.old) }
    ensures attached { D.attached disk.new ≡ true }
    ensures cause { HasEitherFailure (D.read_faults disk.old) (D.read_faults disk.new) (D.op_faults disk.old) (D.op_faults disk.new) result }
{
    let rolled = find_rolled(heads);
    let ops = write_back(alloc, disk, survey, heads, holders)?;
    Ok(recovered_of(survey, rolled, ops))
}

// Rolls back all hot journals together, or says why not.
fn recover_files<D: Disk>(
    alloc: Global,
    disk: &mut D,
    want: Want,
) -> Result<Recovered, RecoverFault>
    requires attached { D.attached disk.old ≡ true }
    ensures pages { IfOk result (λ found. IfTold (D.told disk.old) (λ content. HasPages content found.pages)) }
    ensures page_size { IfOk result (λ found. IfTold (D.told disk.old) (λ content. found.page_size ≡ file_page_size content)) }
    ensures reserved { IfOk result (λ found. IfTold (D.told disk.old) (λ content. found.reserved ≡ (recovered_header content).reserved)) }
    ensures node { IfOk result (λ found. IfTold (D.told disk.old) (λ content. found.node ≡ node_of (recovered_header content))) }
    ensures wanted { IfOk result (λ found. IfTold (D.told disk.old) (λ content. is_wanted want (recovered_header content) ≡ true)) }
    ensures limits { IfOk result IsWithinLimits }
    ensures rolled { IfOk result (λ found. IfTold (D.told disk.old) (λ content. AreHotBits content found.rolled)) }
    ensures made { IfOk result (λ found. MakesCounted (D.told disk.old) (D.told disk.new) (λ content. rule_of content found.pages) found.ops) }
    ensures cut { MakesCut (D.told disk.old) (D.told disk.new) rollback_of }
    ensures refusal { IfErr result (λ fault. IfTold (D.told disk.old) (IsRefusal want fault)) }
    ensures untouched { IfErr result (λ fault. IsPlain fault → D.told disk.new ≡ D.told disk.old) }
    ensures cause { HasCauses (D.read_faults disk.old) (D.read_faults disk.new) (D.op_faults disk.old) (D.op_faults disk.new) result }
    ensures attached { D.attached disk.new ≡ true }
{
    let known = match find_known(alloc, disk) {
        Ok(known) => known,
        Err(fault) => return Err(fault),
    };
    let Known {
        survey,
        seen,
        heads,
    } = known;
    if !is_wanted(want, &survey.header) {
        return Err(RecoverFault::NotPrepared);
    }
    let Seen { mut holders, .. } = seen;
    Ok(roll_back(alloc, disk, &survey, &heads, &mut holders)?)
}

/// Rolls back all hot journals of a database together, and says what its pages are then.
///
/// The pages are those of "The Rollback Journal" in SQLite's Database File Format, with each page's
/// first hot record, and page 1's first 24 bytes as the file has them, which is this project's own.
/// Each journal's first record of each page up to the page count is written back, then the file is
/// cut to its pages where it is longer, and then each journal that has bytes is cut to none. Where no
/// journal has bytes nothing is done.
///
/// Refused is, in this order: a file whose header keeps its page size from being known; a journal
/// whose head names another page size; a page that two journals hold; any other fault of the
/// recovered header; more than 2^30 bytes of pages; a page that is neither held by a journal nor
/// whole in the file; and with `Want::Prepared` a database that is not in server form. No operation is
/// made where the call is refused, nor where it answers `Memory`, since all memory is taken before the
/// first one. `Disk` is answered only where the disk failed. What was made then is a beginning of the
/// operations above, of which the last may be torn, and no recovered page changes by it: the call may
/// be made again.
///
/// In memory it holds the number of each page that a journal holds, and one record.
pub fn recover<D: Disk>(alloc: Global, disk: &mut D, want: Want) -> Result<Recovered, RecoverFault>
    requires attached { D.attached disk.old ≡ true }

    // What the pages are.
    ensures pages { IfOk result (λ found. IfTold (D.told disk.old) (λ content. HasPages content found.pages)) }
    ensures page_size { IfOk result (λ found. IfTold (D.told disk.old) (λ content. found.page_size ≡ file_page_size content)) }
    ensures reserved { IfOk result (λ found. IfTold (D.told disk.old) (λ content. found.reserved ≡ (recovered_header content).reserved)) }
    ensures node { IfOk result (λ found. IfTold (D.told disk.old) (λ content. found.node ≡ node_of (recovered_header content))) }
    ensures wanted { IfOk result (λ found. IfTold (D.told disk.old) (λ content. is_wanted want (recovered_header content) ≡ true)) }
    ensures limits { IfOk result IsWithinLimits }

    // What was done, and the files then.
    ensures rolled { IfOk result (λ found. IfTold (D.told disk.old) (λ content. AreHotBits content found.rolled)) }
    ensures made { IfOk result (λ found. MakesCounted (D.told disk.old) (D.told disk.new) (λ content. rule_of content found.pages) found.ops) }
    ensures settled { IfOk result (λ found. IfBothTold (D.told disk.old) (D.told disk.new) (λ content now. (pages : List (List ℕ)) → recovered content ≡ Ok pages → IsFound found now pages)) }

    // What it leaves, whatever it answers and wherever a stop cuts it.
    ensures cut { MakesCut (D.told disk.old) (D.told disk.new) rollback_of }
    ensures leaves { LeavesPages (D.told disk.old) (D.told disk.new) }

    // Why it is refused.
    ensures refusal { IfErr result (λ fault. IfTold (D.told disk.old) (IsRefusal want fault)) }
    ensures untouched { IfErr result (λ fault. IsPlain fault → D.told disk.new ≡ D.told disk.old) }
    ensures cause { HasCauses (D.read_faults disk.old) (D.read_faults disk.new) (D.op_faults disk.old) (D.op_faults disk.new) result }
    ensures attached { D.attached disk.new ≡ true }
{
    // The laws that the clauses on the files rest on.
    rollback_keeps();
    rollback_restores();
    recovered_pages();
    recover_files(alloc, disk, want)
}
