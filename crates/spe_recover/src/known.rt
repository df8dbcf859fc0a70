//! All that recovery rests on, read from a disk.

ghost use Rattle.std.specs.Prelude.{◌≡◌, ◌≤◌, true, take, length, IfOk};
ghost use Rattle.spe_model.specs.declared.file.FileNo.TheVariants.{Database};
ghost use Rattle.spe_model.specs.Content.{bytes_of};
ghost use Rattle.spe_model.specs.Header.{is_page_size, page_size_at};
ghost use Rattle.spe_model.specs.Recovery.{recovered};
ghost use Rattle.spe_recover.specs.Known.{IsFront, Tells, HasFault};
ghost use Rattle.spe_recover.specs.Survey.{IsLimited, sized_outcome};
ghost use Rattle.spe_disk.specs.Added.{IfTold};
ghost use Rattle.spe_recover.specs.Told.{FindsTold, HasDiskCause};

use crate::failure::Failure;
use crate::heads::{JournalHead, find_other, read_heads};
use crate::scan::scan;
use crate::seen::Seen;
use crate::survey::{Survey, survey_hot};
use spe_disk::{Disk, FileNo};
use spe_model::{Header, RecoverFault};
use std::alloc::Global;

/// What the recovered pages are, which journals hold which of them, and the journals' heads.
#[derive(Debug, Drop)]
pub struct Known {
    pub survey: Survey,
    pub seen: Seen,
    pub heads: [JournalHead; 16],
}

// Fills `front` with the first bytes of the file, and answers how many are there.
fn read_front<D: Disk>(disk: &mut D, front: &mut [u8; 100]) -> Result<usize, Failure>
    requires attached { D.attached disk.old ≡ true }
    ensures front { FindsTold (D.told disk.old) result (λ content n. take n front.new ≡ take 100 (bytes_of content Database)) }
    ensures within { IfOk result (λ n. n ≤ 100) }
    ensures same { D.told disk.new ≡ D.told disk.old }
    ensures attached { D.attached disk.new ≡ true }
    ensures operations { D.op_faults disk.new ≡ D.op_faults disk.old }
    ensures cause { HasDiskCause (D.read_faults disk.old) (D.read_faults disk.new) result }
{
    Ok(disk.read_at(FileNo::Database, 0, front)?)
}

// How many bytes the file has.
fn file_length<D: Disk>(disk: &mut D) -> Result<u64, Failure>
    requires attached { D.attached disk.old ≡ true }
    ensures length { FindsTold (D.told disk.old) result (λ content n. n ≡ length (bytes_of content Database)) }
    ensures same { D.told disk.new ≡ D.told disk.old }
    ensures attached { D.attached disk.new ≡ true }
    ensures operations { D.op_faults disk.new ≡ D.op_faults disk.old }
    ensures cause { HasDiskCause (D.read_faults disk.old) (D.read_faults disk.new) result }
{
    Ok(disk.length(FileNo::Database)?.unwrap_or(0))
}

// What is known, given the page size and the first bytes of the file.
fn survey_sized<D: Disk>(
    alloc: Global,
    disk: &mut D,
    page_size: u32,
    front: &mut [u8; 100],
) -> Result<Known, RecoverFault>
    requires attached { D.attached disk.old ≡ true }
    requires low { 512 ≤ page_size }
    requires high { page_size ≤ 65536 }
    requires power { is_page_size page_size ≡ true }
    requires paged { page_size ≡ page_size_at front.old }
    requires front { IfTold (D.told disk.old) (IsFront page_size front.old) }
    ensures answers { IfTold (D.told disk.old) (λ content. Tells content result (sized_outcome content)) }
    ensures low { IfOk result (λ known. 512 ≤ known.survey.page_size) }
    ensures high { IfOk result (λ known. known.survey.page_size ≤ 65536) }
    ensures power { IfOk result (λ known. is_page_size known.survey.page_size ≡ true) }
    ensures limits { IfOk result (λ known. IsLimited known.survey) }
    ensures same { D.told disk.new ≡ D.told disk.old }
    ensures attached { D.attached disk.new ≡ true }
    ensures operations { D.op_faults disk.new ≡ D.op_faults disk.old }
    ensures cause { HasFault (D.read_faults disk.old) (D.read_faults disk.new) result }
{
    let heads = read_heads(disk, page_size)?;
    if let Some(other) = find_other(&heads) {
        return Err(RecoverFault::JournalPage {
            id: other.id,
            size: other.size,
        });
    }
    let seen = scan(alloc, disk, &heads, page_size)?;
    let size = file_length(disk)?;
    match survey_hot(&seen, front, page_size, size) {
        Ok(survey) => Ok(Known {
            survey,
            seen,
            heads,
        }),
        Err(fault) => Err(fault),
    }
}

/// What is known of a disk, or the first reason why it is refused.
pub fn find_known<D: Disk>(alloc: Global, disk: &mut D) -> Result<Known, RecoverFault>
    requires attached { D.attached disk.old ≡ true }
    ensures answers { IfTold (D.told disk.old) (λ content. Tells content result (recovered content)) }
    ensures low { IfOk result (λ known. 512 ≤ known.survey.page_size) }
    ensures high { IfOk result (λ known. known.survey.page_size ≤ 65536) }
    ensures power { IfOk result (λ known. is_page_size known.survey.page_size ≡ true) }
    ensures limits { IfOk result (λ known. IsLimited known.survey) }
    ensures same { D.told disk.new ≡ D.told disk.old }
    ensures attached { D.attached disk.new ≡ true }
    ensures operations { D.op_faults disk.new ≡ D.op_faults disk.old }
    ensures cause { HasFault (D.read_faults disk.old) (D.read_faults disk.new) result }
{
    let mut front = [0u8; 100];
    let n = read_front(disk, &mut front)?;
    match Header::read_page_size(&front[..n]) {
        Ok(page_size) => survey_sized(alloc, disk, page_size, &mut front),
        Err(fault) => Err(RecoverFault::Header(fault)),
    }
}
