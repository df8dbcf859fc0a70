//! What a stop leaves of a disk in memory.

ghost use Rattle.std.specs.Prelude.{◌≡◌, [], false, IfOk};
ghost use Rattle.spe_model.specs.Trace.{after, IsCut};
ghost use Rattle.spe_disk.specs.Stop.{cut_at};
ghost use Rattle.spe_disk.specs.Memory.{faults_of, no_faults, read_count, try_count, first_files, trace_of, whole_room, free_room, operation_limit, is_attached, read_fault_count, op_fault_count};

use crate::memory::MemDisk;
use std::alloc::{AllocError, Global};

/// A new disk with the files that are left when `disk` is stopped after so many operations and, where
/// the next one is a write, so many of its bytes. A number that is too large means the whole.
///
/// Nobody has attached the new disk, and none of its calls is to fail. For what is done to it, it has
/// as much room, and may make as many operations, as `disk` had from the start.
pub fn stopped_at(
    alloc: Global,
    disk: &MemDisk,
    ops: usize,
    bytes: usize,
) -> Result<MemDisk, AllocError>
    ensures files { IfOk result (λ d. first_files d ≡ after (first_files disk.now) (cut_at (trace_of disk.now) ops bytes)) }
    ensures cut { IsCut (trace_of disk.now) (cut_at (trace_of disk.now) ops bytes) }
    ensures trace { IfOk result (λ d. trace_of d ≡ []) }
    ensures whole { IfOk result (λ d. whole_room d ≡ whole_room disk.now) }
    ensures room { IfOk result (λ d. free_room d ≡ whole_room disk.now) }
    ensures limit { IfOk result (λ d. operation_limit d ≡ operation_limit disk.now) }
    ensures attached { IfOk result (λ d. is_attached d ≡ false) }
    ensures no_read_faults { IfOk result (λ d. read_fault_count d ≡ 0) }
    ensures faultless { IfOk result (λ d. faults_of d ≡ no_faults) }
    ensures no_reads { IfOk result (λ d. read_count d ≡ 0) }
    ensures none_tried { IfOk result (λ d. try_count d ≡ 0) }
    ensures no_op_faults { IfOk result (λ d. op_fault_count d ≡ 0) }
{
    disk.stopped(alloc, ops, bytes)
}
