//! The status of a run of clients.

ghost use Rattle.std.specs.Prelude.{◌≡◌};
ghost use Rattle.std.specs.List.{list_any};
ghost use Rattle.spe_clients.specs.Ended.{Answer};
ghost use Rattle.spe_serve.specs.Run.{has_outcome, is_damage, is_disk_fault, is_short, served_status};

use spe_model::{Cause, Outcome, Replies, Transcript};

fn is_disk_fault(outcome: Outcome) -> bool
    ensures { result ≡ is_disk_fault outcome }
{
    match outcome {
        Outcome::Fault {
            cause: Cause::Read | Cause::Stopped { .. },
            ..
        } => true,
        Outcome::Fault {
            cause: Cause::Corrupt { .. },
            ..
        }
        | Outcome::Commit { .. }
        | Outcome::Rollback { .. }
        | Outcome::ReadOnly { .. }
        | Outcome::Busy { .. }
        | Outcome::Full { .. }
        | Outcome::Memory { .. } => false,
    }
}

fn is_damage(outcome: Outcome) -> bool
    ensures { result ≡ is_damage outcome }
{
    match outcome {
        Outcome::Fault {
            cause: Cause::Corrupt { .. },
            ..
        } => true,
        Outcome::Fault {
            cause: Cause::Read | Cause::Stopped { .. },
            ..
        }
        | Outcome::Commit { .. }
        | Outcome::Rollback { .. }
        | Outcome::ReadOnly { .. }
        | Outcome::Busy { .. }
        | Outcome::Full { .. }
        | Outcome::Memory { .. } => false,
    }
}

fn is_short(outcome: Outcome) -> bool
    ensures { result ≡ is_short outcome }
{
    match outcome {
        Outcome::Memory { .. } => true,
        Outcome::Fault { .. }
        | Outcome::Commit { .. }
        | Outcome::Rollback { .. }
        | Outcome::ReadOnly { .. }
        | Outcome::Busy { .. }
        | Outcome::Full { .. } => false,
    }
}

fn any_disk_fault(answers: &[(Outcome, Replies)]) -> bool
    ensures { result ≡ list_any (λ (a : Answer). is_disk_fault a.0) answers.now }
{
    answers.iter().any(|answer| is_disk_fault(answer.0))
}

fn any_damage(answers: &[(Outcome, Replies)]) -> bool
    ensures { result ≡ list_any (λ (a : Answer). is_damage a.0) answers.now }
{
    answers.iter().any(|answer| is_damage(answer.0))
}

fn any_short(answers: &[(Outcome, Replies)]) -> bool
    ensures { result ≡ list_any (λ (a : Answer). is_short a.0) answers.now }
{
    answers.iter().any(|answer| is_short(answer.0))
}

// Whether a transaction could not go on as the disk failed.
fn has_disk_fault(transcripts: &[Transcript]) -> bool
    ensures { result ≡ has_outcome is_disk_fault transcripts.now }
{
    transcripts
        .iter()
        .any(|answers| any_disk_fault(answers.as_slice()))
}

// Whether one met damage.
fn has_damage(transcripts: &[Transcript]) -> bool
    ensures { result ≡ has_outcome is_damage transcripts.now }
{
    transcripts
        .iter()
        .any(|answers| any_damage(answers.as_slice()))
}

// Whether one was out of memory.
fn is_short_of(transcripts: &[Transcript]) -> bool
    ensures { result ≡ has_outcome is_short transcripts.now }
{
    transcripts
        .iter()
        .any(|answers| any_short(answers.as_slice()))
}

/// The status of clients that were served: 3 where the disk failed a transaction, else 5 where one met
/// damage, else 4 where one was out of memory, and else 0.
pub fn served_status(transcripts: &[Transcript]) -> u8
    ensures { result ≡ served_status transcripts.now }
{
    if has_disk_fault(transcripts) {
        3
    } else if has_damage(transcripts) {
        5
    } else if is_short_of(transcripts) {
        4
    } else {
        0
    }
}
