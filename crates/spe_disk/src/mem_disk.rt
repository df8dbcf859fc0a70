//! What a disk in memory answers.

ghost use Rattle.std.specs.Prelude.{◌≡◌, ◌-◌, ◌≤◌, ◌<◌, min, length};
ghost use Rattle.spe_model.specs.Content.{filled};

use crate::disk::{Disk, Failed};
use crate::memory::MemDisk;
use spe_model::FileNo;

impl Disk for MemDisk {
    ghost use Rattle.std.specs.Prelude.{◌≡◌, ◌≤◌, true, false, Some, IfOk, length};
    ghost use Rattle.spe_model.specs.Content.{IsFile};
    ghost use Rattle.spe_model.specs.Trace.{Operation, present};
    ghost use Rattle.spe_model.specs.Faults.{HasCause};
    ghost use Rattle.spe_disk.specs.Told.{Finds, Measures, ReadsBytes, Writes, Cuts, MakesJournals};
    ghost use Rattle.spe_disk.specs.Held.{room_taken};
    ghost use Rattle.spe_disk.specs.Memory.{history_of, is_attached, read_fault_count, op_fault_count, read_count, free_room, ReadsAsListed, OperatesAsListed, MakesAsListed, IsSameDisk};

    ghost told = { λ d. Some (history_of d) };

    ghost attached = { is_attached };

    ghost read_faults = { read_fault_count };

    ghost op_faults = { op_fault_count };

    ghost fresh = { λ d a. d.fresh a };

    ghost whole = { λ d. d.whole };

    fn attach(&mut self, _name: &str) -> Result<bool, Failed>
        requires { is_attached self.old ≡ false }
        ensures found { Finds (Some (history_of self.old)) result }
        ensures same { Some (history_of self.new) ≡ Some (history_of self.old) }
        ensures attached { is_attached self.new ≡ true }
        ensures cause { HasCause (read_fault_count self.old) (read_fault_count self.new) result }
        ensures operations { op_fault_count self.new ≡ op_fault_count self.old }
        ensures listed { ReadsAsListed self.old self.new result }
    {
        self.attach_once();
        self.count_read()?;
        Ok(self.file(FileNo::Database).is_some())
    }

    fn length(&mut self, file: FileNo) -> Result<Option<u64>, Failed>
        requires attached { is_attached self.old ≡ true }
        requires numbered { IsFile file }
        ensures length { Measures (Some (history_of self.old)) file result }
        ensures same { Some (history_of self.new) ≡ Some (history_of self.old) }
        ensures attached { is_attached self.new ≡ true }
        ensures cause { HasCause (read_fault_count self.old) (read_fault_count self.new) result }
        ensures operations { op_fault_count self.new ≡ op_fault_count self.old }
        ensures listed { ReadsAsListed self.old self.new result }
    {
        self.count_read()?;
        Ok(self.file(file).map(|bytes| bytes.len() as u64))
    }

    fn read_at(&mut self, file: FileNo, at: u64, buf: &mut [u8]) -> Result<usize, Failed>
        requires attached { is_attached self.old ≡ true }
        requires numbered { IsFile file }
        ensures within { IfOk result (λ n. n ≤ length buf.old) }
        ensures bytes { ReadsBytes (Some (history_of self.old)) file at (length buf.old) buf.new result }
        ensures same { Some (history_of self.new) ≡ Some (history_of self.old) }
        ensures attached { is_attached self.new ≡ true }
        ensures cause { HasCause (read_fault_count self.old) (read_fault_count self.new) result }
        ensures operations { op_fault_count self.new ≡ op_fault_count self.old }
        ensures listed { ReadsAsListed self.old self.new result }
    {
        self.count_read()?;
        match self.file(file) {
            None => Ok(copy_out(&[], at, buf)),
            Some(bytes) => Ok(copy_out(bytes, at, buf)),
        }
    }

    fn write_at(&mut self, file: FileNo, at: u64, bytes: &[u8]) -> Result<(), Failed>
        requires attached { is_attached self.old ≡ true }
        requires numbered { IsFile file }
        ensures written { Writes (Some (history_of self.old)) (Some (history_of self.new)) file at bytes.now result }
        ensures attached { is_attached self.new ≡ true }
        ensures cause { HasCause (op_fault_count self.old) (op_fault_count self.new) result }
        ensures readings { read_fault_count self.new ≡ read_fault_count self.old }
        ensures listed { OperatesAsListed self.old self.new (Operation.Write file at bytes.now) (room_taken (present (history_of self.old)) file at bytes.now) result }
    {
        let listed = self.count_operation();
        if listed && !self.makes_listed() {
            return self.fail();
        }
        let made = self.make_write(file, at, bytes);
        if listed || !made {
            return self.fail();
        }
        Ok(())
    }

    fn cut(&mut self, file: FileNo, length: u64) -> Result<(), Failed>
        requires attached { is_attached self.old ≡ true }
        requires numbered { IsFile file }
        ensures cut { Cuts (Some (history_of self.old)) (Some (history_of self.new)) file length result }
        ensures attached { is_attached self.new ≡ true }
        ensures cause { HasCause (op_fault_count self.old) (op_fault_count self.new) result }
        ensures readings { read_fault_count self.new ≡ read_fault_count self.old }
        ensures listed { OperatesAsListed self.old self.new (Operation.Cut file length) 0 result }
    {
        let listed = self.count_operation();
        if listed && !self.makes_listed() {
            return self.fail();
        }
        let made = self.make_cut(file, length);
        if listed || !made {
            return self.fail();
        }
        Ok(())
    }

    fn make_journals(&mut self) -> Result<u8, Failed>
        requires attached { is_attached self.old ≡ true }
        ensures within { IfOk result (λ n. n ≤ 16) }
        ensures made { MakesJournals (Some (history_of self.old)) (Some (history_of self.new)) result }
        ensures attached { is_attached self.new ≡ true }
        ensures cause { HasCause (op_fault_count self.old) (op_fault_count self.new) result }
        ensures readings { read_fault_count self.new ≡ read_fault_count self.old }
        ensures reads { read_count self.new ≡ read_count self.old }
        ensures room { free_room self.new ≡ free_room self.old }
        ensures disk { IsSameDisk self.old self.new }
        ensures listed { MakesAsListed self.old self.new result }
    {
        let mut made = 0;
        for number in 0..16 {
            match self.make_absent(number) {
                Ok(count) => made += count,
                Err(failed) => return Err(failed),
            }
        }
        Ok(made)
    }
}

impl MemDisk {
    ghost use Rattle.std.specs.Prelude.{◌≡◌, ◌≢◌, ◌<◌, ◌≤◌, ◌++◌, ◌∷◌, [], ℕ, List, true, IfOk, OnOk, OnErr, length};
    ghost use Rattle.spe_model.specs.declared.file.FileNo.{FileNo};
    ghost use Rattle.spe_model.specs.Content.{file_of};
    ghost use Rattle.spe_model.specs.Trace.{present};
    ghost use Rattle.spe_model.specs.Faults.{HasCause};
    ghost use Rattle.spe_disk.specs.Told.{absent_among, makings};
    ghost use Rattle.spe_disk.specs.Memory.{first_files, trace_of, history_of, is_attached, read_fault_count, op_fault_count, read_count, free_room, IsSameDisk, AreMadeAsListed, FailsAsListed};

    // Makes the journal of a number, where it is absent, and answers how many that were.
    fn make_absent(&mut self, number: u8) -> Result<u8, Failed>
        requires numbered { number < 16 }
        requires attached { is_attached self.old ≡ true }
        ensures count { IfOk result (λ n. n ≡ length (absent_among (present (history_of self.old)) (number ∷ []))) }
        ensures at_most { IfOk result (λ n. n ≤ 1) }
        ensures made { OnOk result (trace_of self.new ≡ trace_of self.old ++ makings (absent_among (present (history_of self.old)) (number ∷ []))) }
        ensures some { OnErr result ((front : List ℕ) × (rest : List ℕ) × (absent_among (present (history_of self.old)) (number ∷ []) ≡ front ++ rest) × (trace_of self.new ≡ trace_of self.old ++ makings front)) }
        ensures others { OnOk result ((j : ℕ) → j ≢ number → file_of (present (history_of self.new)) (FileNo.Journal j) ≡ file_of (present (history_of self.old)) (FileNo.Journal j)) }
        ensures first { first_files self.new ≡ first_files self.old }
        ensures attached { is_attached self.new ≡ true }
        ensures cause { HasCause (op_fault_count self.old) (op_fault_count self.new) result }
        ensures readings { read_fault_count self.new ≡ read_fault_count self.old }
        ensures reads { read_count self.new ≡ read_count self.old }
        ensures room { free_room self.new ≡ free_room self.old }
        ensures disk { IsSameDisk self.old self.new }
        ensures listed { OnOk result (AreMadeAsListed (absent_among (present (history_of self.old)) (number ∷ [])) self.old self.new) }
        ensures failing { OnErr result (FailsAsListed (absent_among (present (history_of self.old)) (number ∷ [])) self.old self.new) }
    {
        let journal = FileNo::Journal(number);
        if self.file(journal).is_some() {
            return Ok(0);
        }
        match self.cut(journal, 0) {
            Ok(()) => Ok(1),
            Err(failed) => Err(failed),
        }
    }
}

// Fills `buf` with the bytes from a place on, and with zeros past their end.
fn copy_out(bytes: &[u8], at: u64, buf: &mut [u8]) -> usize
    ensures filled { buf.new ≡ filled bytes.now at (length buf.old) }
    ensures count { result ≡ min (length buf.old) (length bytes.now - at) }
{
    let from = at.min(bytes.len() as u64) as usize;
    let (_, tail) = bytes.split_at(from);
    let count = buf.len().min(tail.len());
    buf.fill(0);
    buf[..count].copy_from_slice(&tail[..count]);
    count
}
