//! Writing all back.

ghost use Rattle.std.specs.Prelude.{◌≡◌, ◌≤◌, ◌+◌, true, length, IfOk, IfErr, OnErr};
ghost use Rattle.spe_model.specs.Rollback.{rule_of};
ghost use Rattle.spe_recover.specs.Restored.{HasEither, HasEitherFailure};
ghost use Rattle.spe_recover.specs.declared.failure.Failure.TheVariants.{Memory};
ghost use Rattle.spe_recover.specs.Heads.{AreHeads};
ghost use Rattle.spe_disk.specs.Added.{IfTold, MakesCut};
ghost use Rattle.spe_recover.specs.Written.{IsReady, MakesCounted, all_of};

use crate::clear::{any_length, cut_file, cut_journals};
use crate::failure::Failure;
use crate::heads::JournalHead;
use crate::restore::restore_all;
use crate::survey::Survey;
use spe_disk::{Disk, Failed};
use std::alloc::Global;
use std::collections::BTreeMap;

// Makes the operations of recovery where some journal has bytes, and answers how many there were.
fn write_files<D: Disk>(
    disk: &mut D,
    survey: &Survey,
    heads: &[JournalHead; 16],
    buf: &mut [u8],
    holders: &mut BTreeMap<u32, u8>,
) -> Result<u64, Failed>
    requires attached { D.attached disk.old ≡ true }
    requires low { 512 ≤ survey.now.page_size }
    requires high { survey.now.page_size ≤ 65536 }
    requires page { length buf.old ≡ survey.now.page_size + 8 }
    requires heads { IfTold (D.told disk.old) (λ content. AreHeads content survey.now.page_size heads.now) }
    requires ready { IfTold (D.told disk.old) (IsReady survey.now holders.old) }
    ensures made { IfOk result (MakesCounted (D.told disk.old) (D.told disk.new) (λ content. all_of content survey.now.pages)) }
    ensures stopped { OnErr result (MakesCut (D.told disk.old) (D.told disk.new) (λ content. all_of content survey.now.pages)) }
    ensures attached { D.attached disk.new ≡ true }
    ensures cause { HasEither (D.read_faults disk.old) (D.read_faults disk.new) (D.op_faults disk.old) (D.op_faults disk.new) result }
{
    let restored = restore_all(disk, heads, survey.page_size, survey.pages, buf, holders)?;
    let end = u64::from(survey.pages) * u64::from(survey.page_size);
    let cut = cut_file(disk, survey.size, end)?;
    let cleared = cut_journals(disk, heads)?;
    Ok(restored + cut + cleared)
}

/// Makes the operations of recovery, and answers how many there were.
pub fn write_back<D: Disk>(
    alloc: Global,
    disk: &mut D,
    survey: &Survey,
    heads: &[JournalHead; 16],
    holders: &mut BTreeMap<u32, u8>,
) -> Result<u64, Failure>
    requires attached { D.attached disk.old ≡ true }
    requires low { 512 ≤ survey.now.page_size }
    requires high { survey.now.page_size ≤ 65536 }
    requires heads { IfTold (D.told disk.old) (λ content. AreHeads content survey.now.page_size heads.now) }
    requires ready { IfTold (D.told disk.old) (IsReady survey.now holders.old) }
    ensures made { IfOk result (MakesCounted (D.told disk.old) (D.told disk.new) (λ content. rule_of content survey.now.pages)) }
    ensures stopped { OnErr result (MakesCut (D.told disk.old) (D.told disk.new) (λ content. rule_of content survey.now.pages)) }
    ensures untouched { IfErr result (λ failure. failure ≡ Memory → D.told disk.new ≡ D.told disk.old) }
    ensures attached { D.attached disk.new ≡ true }
    ensures cause { HasEitherFailure (D.read_faults disk.old) (D.read_faults disk.new) (D.op_faults disk.old) (D.op_faults disk.new) result }
{
    if !any_length(heads) {
        return Ok(0);
    }
    let mut buf = vec![in alloc; 0u8; survey.page_size as usize + 8]?;
    Ok(write_files(disk, survey, heads, &mut buf, holders)?)
}
