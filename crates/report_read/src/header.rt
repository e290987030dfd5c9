//! What was asked for, from the header of a report.
ghost use Rattle.std.specs.Prelude.{◌≡◌, ◌<◌, ◌≤◌, length, IfOk};
ghost use Rattle.row_reader.specs.Rows.{rows_of};
ghost use Rattle.row_reader.specs.Gives.{Gives};
ghost use Rattle.report_read.specs.Reading.{caches_at, header_at};

use crate::rows::{first_row, fixed_at, number_at};
use kmp_base::{MOST_BUDGET, MOST_CORES, MachineKind, Policy, Setup, Turns};
use report_row_reader::{machine_row, policy_row, sets_row, turns_row};
use row_reader::Stuck;

/// The seed and the caches, and the setup with them.
#[tactic(auto, unfolding(report_row_reader::specs::Reading::sets_row_of, crate::specs::Reading::caches_at))]
fn caches<'a>(
    text: &'a [u8],
    machine: MachineKind,
    cores: u32,
    budget: u32,
    policy: Policy,
    turns: Turns,
) -> Result<(Setup, &'a [u8]), Stuck<'a>>
    ensures found { Gives (λ x. (x.0, rows_of x.1.now)) result (caches_at machine cores budget policy turns (rows_of text.now)) }
    ensures cores { IfOk result (λ x. x.0.cores ≡ cores) }
    ensures shorter { IfOk result (λ x. length x.1.now < length text.now) }
{
    let (seed, rest) = number_at(text, b"seed", 0, u32::MAX as u64)?;
    let (sets, rest) = first_row(rest, |row| sets_row(row))?;
    let (ways, rest) = number_at(rest, b"ways", 1, u64::from(machine.most_ways()))?;
    let setup = Setup {
        machine,
        cores,
        budget,
        policy,
        turns,
        seed: seed as u32,
        sets: sets as u32,
        ways: ways as u32,
    };
    Ok((setup, rest))
}

/// The setup that a header tells.
#[tactic(auto, unfolding(report_row_reader::specs::Reading::machine_row_of, report_row_reader::specs::Reading::policy_row_of, report_row_reader::specs::Reading::turns_row_of, crate::specs::Reading::header_at))]
pub(crate) fn header(text: &[u8]) -> Result<(Setup, &[u8]), Stuck<'_>>
    ensures found { Gives (λ x. (x.0, rows_of x.1.now)) result (header_at (rows_of text.now)) }
    ensures some { IfOk result (λ x. 0 < x.0.cores) }
    ensures few { IfOk result (λ x. x.0.cores ≤ 8) }
    ensures shorter { IfOk result (λ x. length x.1.now < length text.now) }
{
    let (_, rest) = fixed_at(text, b"kmp-report", b"1")?;
    let (machine, rest) = first_row(rest, |row| machine_row(row))?;
    let (cores, rest) = number_at(rest, b"cores", 1, MOST_CORES as u64)?;
    let (budget, rest) = number_at(rest, b"budget", 1, MOST_BUDGET as u64)?;
    let (policy, rest) = first_row(rest, |row| policy_row(row))?;
    let (turns, rest) = first_row(rest, |row| turns_row(row))?;
    caches(rest, machine, cores as u32, budget as u32, policy, turns)
}
