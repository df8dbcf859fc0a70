//! A disk in memory, which tells all.

ghost use Rattle.std.specs.Prelude.{◌≡◌, ◌≤◌, [], false, length};
ghost use Rattle.spe_model.specs.Trace.{after};

use crate::disk::Failed;
use crate::files::Files;
use crate::log::Log;
use spe_model::{FileNo, Numbers};
use std::alloc::{AllocError, Global};

/// Which calls of a disk in memory fail.
#[derive(Debug, Drop)]
pub struct Faults {
    /// The calls of `attach`, `length` and `read_at`, counted together from 1, that fail.
    pub reads: Numbers,
    /// Which operations fail: the first that is tried has number 1, and one that fails counts too.
    pub ops: Numbers,
    /// Whether a failing operation is made all the same.
    pub made: bool,
}

/// A disk in memory.
///
/// It takes all its memory when it is made. Every loaded byte, every byte of a write and every zero in
/// a gap before one costs a byte of room, and none comes back when a place is written again or a file
/// is cut. Where the room or the number of operations does not suffice, the operation fails and
/// changes nothing, also where `Faults` does not list it.
#[derive(Debug, Drop)]
pub struct MemDisk {
    room: usize,
    log: Log,
    files: Files,
    attached: bool,
    failing: Faults,
    reads: u64,
    tried: u64,
    read_faults: u64,
    op_faults: u64,
    ghost held: { files.content ≡ after log.first log.trace },
    ghost ready: { log.left ≡ files.room },
    ghost fresh: { attached ≡ false → log.trace ≡ [] },
    ghost whole: { length log.first ≡ 17 },
}

impl MemDisk {
    ghost use Rattle.std.specs.Prelude.{◌≡◌, ◌↔◌, ◌≤◌, ◌+◌, ◌-◌, ◌^◌, ◌<◌, ◌∷◌, ◌++◌, [], Bool, false, true, IsTrue, IsOk, IsErr, IfOk, is_err, nat_lt, length, min};
    ghost use Rattle.std.specs.Bool.{OnTrue, OnFalse};
    ghost use Rattle.std.specs.Option.{option_copied};
    ghost use Rattle.spe_model.specs.Content.{IsFile, file_of, with_file};
    ghost use Rattle.spe_model.specs.Trace.{Operation, History, after, present};
    ghost use Rattle.spe_model.specs.Faults.{HasCause};
    ghost use Rattle.spe_disk.specs.Held.{room_taken};
    ghost use Rattle.spe_disk.specs.Listed.{next_number};
    ghost use Rattle.spe_disk.specs.Stop.{cut_at};
    ghost use Rattle.spe_disk.specs.Memory.{IsSameDisk, faults_of, no_faults, read_count, try_count, is_read_listed, is_op_listed, fits, first_files, trace_of, history_of, whole_room, free_room, operation_limit, no_files, is_attached, read_fault_count, op_fault_count};

    /// An empty disk with room for this many bytes and operations, all of it taken now.
    pub fn new(
        alloc: Global,
        room: usize,
        operations: usize,
        faults: Faults,
    ) -> Result<MemDisk, AllocError>
        ensures files { IfOk result (λ d. first_files d ≡ no_files) }
        ensures trace { IfOk result (λ d. trace_of d ≡ []) }
        ensures whole { IfOk result (λ d. whole_room d ≡ room) }
        ensures room { IfOk result (λ d. free_room d ≡ room) }
        ensures limit { IfOk result (λ d. operation_limit d ≡ operations) }
        ensures attached { IfOk result (λ d. is_attached d ≡ false) }
        ensures no_read_faults { IfOk result (λ d. read_fault_count d ≡ 0) }
        ensures no_op_faults { IfOk result (λ d. op_fault_count d ≡ 0) }
        ensures fails { IfOk result (λ d. faults_of d ≡ faults) }
        ensures no_reads { IfOk result (λ d. read_count d ≡ 0) }
        ensures none_tried { IfOk result (λ d. try_count d ≡ 0) }
    {
        let files = Files::none(alloc)?;
        MemDisk::holding(alloc, files, room, operations, faults)
    }

    /// A disk that holds these files from the start.
    pub(crate) fn holding(
        alloc: Global,
        files: Files,
        room: usize,
        operations: usize,
        faults: Faults,
    ) -> Result<MemDisk, AllocError>
        ensures files { IfOk result (λ d. first_files d ≡ files.content) }
        ensures trace { IfOk result (λ d. trace_of d ≡ []) }
        ensures whole { IfOk result (λ d. whole_room d ≡ room) }
        ensures room { IfOk result (λ d. free_room d ≡ room) }
        ensures limit { IfOk result (λ d. operation_limit d ≡ operations) }
        ensures attached { IfOk result (λ d. is_attached d ≡ false) }
        ensures no_read_faults { IfOk result (λ d. read_fault_count d ≡ 0) }
        ensures no_op_faults { IfOk result (λ d. op_fault_count d ≡ 0) }
        ensures fails { IfOk result (λ d. faults_of d ≡ faults) }
        ensures no_reads { IfOk result (λ d. read_count d ≡ 0) }
        ensures none_tried { IfOk result (λ d. try_count d ≡ 0) }
    {
        let log = Log::of(alloc, &files, room, operations)?;
        let files = files.reserve(room)?;
        Ok(MemDisk {
            room,
            log,
            files,
            attached: false,
            failing: faults,
            reads: 0,
            tried: 0,
            read_faults: 0,
            op_faults: 0,
        })
    }

    /// Gives the disk a file before it is attached, in the place of one that was there. `false` says that
    /// the disk is as before, since it was attached already or has too little room.
    pub fn load(&mut self, file: FileNo, bytes: &[u8]) -> bool
        requires { IsFile file }
        ensures exact { IsTrue result ↔ ((is_attached self.old ≡ false) × (length bytes.now ≤ free_room self.old)) }
        ensures loaded { OnTrue result (first_files self.new ≡ with_file (first_files self.old) file bytes.now) }
        ensures room { OnTrue result (free_room self.new ≡ free_room self.old - length bytes.now) }
        ensures trace { trace_of self.new ≡ trace_of self.old }
        ensures whole { whole_room self.new ≡ whole_room self.old }
        ensures limit { operation_limit self.new ≡ operation_limit self.old }
        ensures attached { is_attached self.new ≡ is_attached self.old }
        ensures read_faults { read_fault_count self.new ≡ read_fault_count self.old }
        ensures op_faults { op_fault_count self.new ≡ op_fault_count self.old }
        ensures same { OnFalse result (self.new ≡ self.old) }
        ensures fails { faults_of self.new ≡ faults_of self.old }
        ensures reads { read_count self.new ≡ read_count self.old }
        ensures tried { try_count self.new ≡ try_count self.old }
    {
        if self.attached || self.log.left() < bytes.len() {
            return false;
        }
        if self.files.put(file, bytes).is_err() {
            return false;
        }
        self.log.load(file, bytes);
        true
    }

    /// How often a call has failed, up to the greatest number of its type.
    pub fn faults(&self) -> u64
        ensures { result ≡ min (read_fault_count self.now + op_fault_count self.now) (2 ^ 64 - 1) }
    {
        self.read_faults.saturating_add(self.op_faults)
    }

    /// How many operations were made since it was attached.
    pub fn ops(&self) -> u64
        ensures { result ≡ length (trace_of self.now) }
    {
        self.log.count() as u64
    }

    // The bytes of a file as it is now.
    pub(crate) fn file(&self, file: FileNo) -> Option<&[u8]>
        requires { IsFile file }
        ensures { option_copied result ≡ file_of (present (history_of self.now)) file }
    {
        self.files.get(file)
    }

    // From now on it is attached.
    pub(crate) fn attach_once(&mut self)
        ensures history { history_of self.new ≡ history_of self.old }
        ensures attached { is_attached self.new ≡ true }
        ensures read_faults { read_fault_count self.new ≡ read_fault_count self.old }
        ensures op_faults { op_fault_count self.new ≡ op_fault_count self.old }
        ensures reads { read_count self.new ≡ read_count self.old }
        ensures tried { try_count self.new ≡ try_count self.old }
        ensures room { free_room self.new ≡ free_room self.old }
        ensures disk { IsSameDisk self.old self.new }
    {
        self.attached = true;
    }

    // Counts a reading call, which fails if it is listed.
    pub(crate) fn count_read(&mut self) -> Result<(), Failed>
        ensures history { history_of self.new ≡ history_of self.old }
        ensures attached { is_attached self.new ≡ is_attached self.old }
        ensures cause { HasCause (read_fault_count self.old) (read_fault_count self.new) result }
        ensures op_faults { op_fault_count self.new ≡ op_fault_count self.old }
        ensures fails { is_err result ≡ is_read_listed self.old }
        ensures reads { read_count self.new ≡ next_number (read_count self.old) }
        ensures tried { try_count self.new ≡ try_count self.old }
        ensures room { free_room self.new ≡ free_room self.old }
        ensures disk { IsSameDisk self.old self.new }
    {
        self.reads = self.reads.saturating_add(1);
        if self.failing.reads.as_slice().contains(&self.reads) {
            self.read_faults = self.read_faults.saturating_add(1);
            return Err(Failed);
        }
        Ok(())
    }

    // Counts an operation that is tried. Whether it is listed as failing.
    pub(crate) fn count_operation(&mut self) -> bool
        ensures history { history_of self.new ≡ history_of self.old }
        ensures attached { is_attached self.new ≡ is_attached self.old }
        ensures read_faults { read_fault_count self.new ≡ read_fault_count self.old }
        ensures op_faults { op_fault_count self.new ≡ op_fault_count self.old }
        ensures listed { result ≡ is_op_listed self.old }
        ensures reads { read_count self.new ≡ read_count self.old }
        ensures tried { try_count self.new ≡ next_number (try_count self.old) }
        ensures room { free_room self.new ≡ free_room self.old }
        ensures disk { IsSameDisk self.old self.new }
    {
        self.tried = self.tried.saturating_add(1);
        self.failing.ops.as_slice().contains(&self.tried)
    }

    // Counts an operation that has failed.
    pub(crate) fn fail(&mut self) -> Result<(), Failed>
        ensures failed { IsErr result }
        ensures history { history_of self.new ≡ history_of self.old }
        ensures attached { is_attached self.new ≡ is_attached self.old }
        ensures cause { HasCause (op_fault_count self.old) (op_fault_count self.new) result }
        ensures read_faults { read_fault_count self.new ≡ read_fault_count self.old }
        ensures reads { read_count self.new ≡ read_count self.old }
        ensures tried { try_count self.new ≡ try_count self.old }
        ensures room { free_room self.new ≡ free_room self.old }
        ensures disk { IsSameDisk self.old self.new }
    {
        self.op_faults = self.op_faults.saturating_add(1);
        Err(Failed)
    }

    // Whether an operation that is to fail is made all the same.
    pub(crate) fn makes_listed(&self) -> bool
        ensures { result ≡ (faults_of self.now).made }
    {
        self.failing.made
    }

    // Whether one more operation may be made.
    fn may_make(&self) -> bool
        ensures { result ≡ nat_lt (length (trace_of self.now)) (operation_limit self.now) }
    {
        self.log.count() < self.log.limit()
    }

    // Makes a write, where there is room for it.
    #[tactic(auto, using(crate::proofs::StopLemmas::made_last))]
    pub(crate) fn make_write(&mut self, file: FileNo, at: u64, bytes: &[u8]) -> bool
        requires numbered { IsFile file }
        requires attached { is_attached self.old ≡ true }
        ensures exact { result ≡ fits self.old (room_taken (present (history_of self.old)) file at bytes.now) }
        ensures made { OnTrue result (trace_of self.new ≡ trace_of self.old ++ Operation.Write file at bytes.now ∷ []) }
        ensures room { OnTrue result (free_room self.new ≡ free_room self.old - room_taken (present (history_of self.old)) file at bytes.now) }
        ensures kept { OnFalse result (free_room self.new ≡ free_room self.old) }
        ensures same { OnFalse result (trace_of self.new ≡ trace_of self.old) }
        ensures first { first_files self.new ≡ first_files self.old }
        ensures attached { is_attached self.new ≡ true }
        ensures read_faults { read_fault_count self.new ≡ read_fault_count self.old }
        ensures op_faults { op_fault_count self.new ≡ op_fault_count self.old }
        ensures reads { read_count self.new ≡ read_count self.old }
        ensures tried { try_count self.new ≡ try_count self.old }
        ensures disk { IsSameDisk self.old self.new }
    {
        let gap = self.files.gap(file, at, bytes);
        let left = self.log.left();
        if left < bytes.len() || left - bytes.len() < gap || !self.may_make() {
            return false;
        }
        if self.files.write(file, at, bytes).is_err() {
            return false;
        }
        self.log.add_write(file, at, bytes, gap);
        true
    }

    // Makes a cut, where it may.
    #[tactic(auto, using(crate::proofs::StopLemmas::made_last))]
    pub(crate) fn make_cut(&mut self, file: FileNo, size: u64) -> bool
        requires numbered { IsFile file }
        requires attached { is_attached self.old ≡ true }
        ensures exact { result ≡ fits self.old 0 }
        ensures made { OnTrue result (trace_of self.new ≡ trace_of self.old ++ Operation.Cut file size ∷ []) }
        ensures room { free_room self.new ≡ free_room self.old }
        ensures same { OnFalse result (trace_of self.new ≡ trace_of self.old) }
        ensures first { first_files self.new ≡ first_files self.old }
        ensures attached { is_attached self.new ≡ true }
        ensures read_faults { read_fault_count self.new ≡ read_fault_count self.old }
        ensures op_faults { op_fault_count self.new ≡ op_fault_count self.old }
        ensures reads { read_count self.new ≡ read_count self.old }
        ensures tried { try_count self.new ≡ try_count self.old }
        ensures disk { IsSameDisk self.old self.new }
    {
        if !self.may_make() {
            return false;
        }
        self.files.cut(file, size);
        self.log.add_cut(file, size);
        true
    }

    // The disk that a stop leaves.
    pub(crate) fn stopped(
        &self,
        alloc: Global,
        ops: usize,
        bytes: usize,
    ) -> Result<MemDisk, AllocError>
        ensures files { IfOk result (λ d. first_files d ≡ after (first_files self.now) (cut_at (trace_of self.now) ops bytes)) }
        ensures trace { IfOk result (λ d. trace_of d ≡ []) }
        ensures whole { IfOk result (λ d. whole_room d ≡ whole_room self.now) }
        ensures room { IfOk result (λ d. free_room d ≡ whole_room self.now) }
        ensures limit { IfOk result (λ d. operation_limit d ≡ operation_limit self.now) }
        ensures attached { IfOk result (λ d. is_attached d ≡ false) }
        ensures no_read_faults { IfOk result (λ d. read_fault_count d ≡ 0) }
        ensures no_op_faults { IfOk result (λ d. op_fault_count d ≡ 0) }
        ensures faultless { IfOk result (λ d. faults_of d ≡ no_faults) }
        ensures no_reads { IfOk result (λ d. read_count d ≡ 0) }
        ensures none_tried { IfOk result (λ d. try_count d ≡ 0) }
    {
        let files = self.log.files_at(alloc, ops, bytes)?;
        let faults = Faults {
            reads: Numbers::new(Vec::new(alloc)),
            ops: Numbers::new(Vec::new(alloc)),
            made: false,
        };
        MemDisk::holding(alloc, files, self.room, self.log.limit(), faults)
    }
}
