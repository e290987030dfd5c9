//! The report of a run's outcome.
ghost use Rattle.std.specs.Prelude.{◌≡◌, ◌*◌, ◌^◌, ◌<◌, ◌≤◌, length, IfOk};
ghost use Rattle.std.specs.List.{All, AllByRecursion};
ghost use Rattle.kmp_base.specs.Limits.{IsWithinLimits};
ghost use Rattle.kmp_base.specs.Machines.{most_ways};
ghost use Rattle.access_log.specs.Items.{transactions};
ghost use Rattle.right_run.specs.Right.{IsRight, FollowsOn};
ghost use Rattle.report_rows.specs.Bounds.{IsWord};
ghost use Rattle.report_text.specs.Form.{IsReport};
ghost use Rattle.report_text.specs.Report.{words_past, report_of};

use crate::counts::counts_of;
use image_file::Image;
use kmp_base::Setup;
use report_text::{MemoryWord, NoMemory, Report};
use std::alloc::Global;
use timetable::Outcome;

/// The words of memory past so many words of code that aren't 0.
fn words_past(alloc: Global, code: usize, memory: &[u32]) -> Result<Vec<MemoryWord>, NoMemory>
    requires { 4 * length memory.now < 2 ^ 32 }
    ensures words { IfOk result (λ words. words.items ≡ words_past code memory.now) }
    ensures fit { IfOk result (λ words. All (λ word. IsWord word.value) words.items) }
{
    let mut words = Vec::new(alloc);
    for index in code..memory.len() {
        let value = memory[index];
        if value != 0 {
            words.push(MemoryWord {
                addr: 4 * index as u32,
                value,
            })?;
        }
    }
    Ok(words)
}

/// The report of an outcome: it keeps the setup, the image, the history and the ends as they are. Where the outcome is
/// right, and there aren't more ways than the machine may have, it is within the bounds of reports that are read. It fails
/// only for want of memory.
#[tactic(auto, unfolding(report_text::specs::Report::report_of))]
pub fn build_report(
    alloc: Global,
    setup: &Setup,
    image: Image,
    outcome: Outcome,
) -> Result<Report, NoMemory>
    requires limits { IsWithinLimits setup.now }
    requires cores { length outcome.cores ≡ setup.now.cores }
    requires words { length outcome.words ≡ 2 * image.memory_lines }
    requires follows { FollowsOn setup.now.machine setup.now image outcome.items }
    requires lines { AllByRecursion (λ bus. bus.line < image.memory_lines) (transactions outcome.items) }
    ensures report { IfOk result (λ report. report ≡ report_of setup.now image outcome) }
    ensures form { IfOk result (λ report. setup.now.ways ≤ most_ways setup.now.machine → IsRight setup.now image outcome → IsReport report) }
{
    let Outcome {
        cores,
        words: memory,
        history,
    } = outcome;
    // A number is known to fit its type once it is read.
    let _seed = setup.seed;
    let words = words_past(alloc, image.code.len(), &memory.words)?;
    let counts = counts_of(alloc, setup, &image, &cores, history.items())?;
    Ok(Report {
        setup: *setup,
        image,
        history,
        cores,
        words,
        counts,
    })
}
