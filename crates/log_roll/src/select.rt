// The choice among the logs of the three metadata zones.
ghost use Rattle.std.specs.Prelude.{◌≡◌, IfOk};
ghost use Rattle.log_model.specs.LogSelection.{decides};
ghost use Rattle.log_roll.specs.Summaries.{IsSound, IsSoundLog};
ghost use Rattle.log_roll.specs.Choosing.{IsSoundChoice, are_twins, choice, chosen_from, counted, greatest_of, newer_of, newest_of, sequence_of, twin_among, twin_refusal};

use crate::summary::LogSummary;
use log_model::{Chosen, Damage, DamageWhy, Refusal};

/// The newest of these logs that isn't passed over. Two logs of one sequence are damage, and so is
/// what is wrong with the log that would be chosen.
pub(crate) fn select(
    first: Option<LogSummary>,
    second: Option<LogSummary>,
    third: Option<LogSummary>,
) -> Result<Chosen, Refusal>
    requires sound_first { IsSoundLog first }
    requires sound_second { IsSoundLog second }
    requires sound_third { IsSoundLog third }
    ensures exact { result ≡ choice first second third }
    ensures sound { IfOk result IsSoundChoice }
{
    if let Some(refusal) = twin_among(&first, &second, &third) {
        return Err(refusal);
    }
    let greatest = greatest_of(&first, &second, &third);
    let newest = newest_of(first, second, third);
    chosen_from(greatest, newest)
}

// The refusal of the first log that has an earlier one's sequence.
fn twin_among(
    first: &Option<LogSummary>,
    second: &Option<LogSummary>,
    third: &Option<LogSummary>,
) -> Option<Refusal>
    ensures { result ≡ twin_among first.now second.now third.now }
{
    if are_twins(first, second) {
        return twin_refusal(second);
    }
    if are_twins(first, third) || are_twins(second, third) {
        return twin_refusal(third);
    }
    None
}

// Whether two logs are there and have one sequence.
fn are_twins(log: &Option<LogSummary>, other: &Option<LogSummary>) -> bool
    ensures { result ≡ are_twins log.now other.now }
{
    match log {
        None => false,
        Some(log) => match other {
            None => false,
            Some(other) => log.superblock.sequence == other.superblock.sequence,
        },
    }
}

// The refusal of a log as the twin of an earlier one.
fn twin_refusal(log: &Option<LogSummary>) -> Option<Refusal>
    ensures { result ≡ twin_refusal log.now }
{
    match log {
        None => None,
        Some(log) => Some(Refusal::Damaged(Damage {
            zone: log.zone,
            block: 0,
            why: DamageWhy::Twin {
                sequence: log.superblock.sequence,
            },
        })),
    }
}

// The highest sequence.
fn greatest_of(
    first: &Option<LogSummary>,
    second: &Option<LogSummary>,
    third: &Option<LogSummary>,
) -> u32
    ensures { result ≡ greatest_of first.now second.now third.now }
{
    sequence_of(first).max(sequence_of(second).max(sequence_of(third)))
}

// A log's sequence, and 0 where there is none.
fn sequence_of(log: &Option<LogSummary>) -> u32
    ensures { result ≡ sequence_of log.now }
{
    match log {
        None => 0,
        Some(log) => log.superblock.sequence,
    }
}

// The newest log that isn't passed over.
fn newest_of(
    first: Option<LogSummary>,
    second: Option<LogSummary>,
    third: Option<LogSummary>,
) -> Option<LogSummary>
    requires sound_first { IsSoundLog first }
    requires sound_second { IsSoundLog second }
    requires sound_third { IsSoundLog third }
    ensures exact { result ≡ newest_of first second third }
    ensures sound { IsSoundLog result }
{
    newer_of(counted(first), newer_of(counted(second), counted(third)))
}

// The log, unless it is passed over: one without damage and without a snapshot is.
fn counted(log: Option<LogSummary>) -> Option<LogSummary>
    requires { IsSoundLog log }
    ensures exact { result ≡ counted log }
    ensures sound { IsSoundLog result }
{
    let Some(log) = log else {
        return None;
    };
    if decides(&log.snapshot) {
        Some(log)
    } else {
        None
    }
}

// Whether a snapshot is there, or damage.
fn decides(snapshot: &Result<bool, Refusal>) -> bool
    ensures { result ≡ decides snapshot.now }
{
    match snapshot {
        Ok(there) => *there,
        Err(_) => true,
    }
}

// The log of the higher sequence, where there are two.
fn newer_of(log: Option<LogSummary>, other: Option<LogSummary>) -> Option<LogSummary>
    requires sound_log { IsSoundLog log }
    requires sound_other { IsSoundLog other }
    ensures exact { result ≡ newer_of log other }
    ensures sound { IsSoundLog result }
{
    let Some(log) = log else {
        return other;
    };
    let Some(other) = other else {
        return Some(log);
    };
    if log.superblock.sequence < other.superblock.sequence {
        Some(other)
    } else {
        Some(log)
    }
}

// The choice of a log, unless it is damaged or there is none.
fn chosen_from(greatest: u32, log: Option<LogSummary>) -> Result<Chosen, Refusal>
    requires { IsSoundLog log }
    ensures exact { result ≡ chosen_from greatest log }
    ensures sound { IfOk result IsSoundChoice }
{
    let Some(log) = log else {
        return Err(Refusal::NoFileSystem);
    };
    match log.snapshot {
        Err(refusal) => Err(refusal),
        Ok(_) => Ok(Chosen {
            zone: log.zone,
            superblock: log.superblock,
            greatest,
            can_end: log.can_end,
        }),
    }
}
