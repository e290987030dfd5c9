//! The segments of a source.
ghost use Rattle.std.specs.Prelude.{◌≡◌, ◌++◌, map, IfOk, OnOk};
ghost use Rattle.std.specs.List.{All, AllByRecursion};
ghost use Rattle.image_file.specs.Value.{IsNumber, HasWords};
ghost use Rattle.asm_layout.specs.Labels.{Addresses, HoldsLabels};
ghost use Rattle.asm_link.specs.Assembly.{data_words, words_before_next, addressed_segments, goes_on_behind_code, segments_of};

use crate::values::value_word;
use asm_layout::Labels;
use asm_parse::{Body, Statement};
use image_file::{NoMemory, Segment};
use std::alloc::Global;

/// Goes on with the data of a statement.
fn push_data(words: &mut Vec<u32>, labels: &Labels<'_>, body: &Body<'_>) -> Result<(), NoMemory>
    ensures words { OnOk result ((known : Addresses) → HoldsLabels labels.now known → words.new.items ≡ words.old.items ++ data_words known body.now) }
    ensures fit { All IsNumber words.old.items → OnOk result (All IsNumber words.new.items) }
{
    match body {
        Body::Word(value) => words.push(value_word(labels, value))?,
        Body::Space(bytes) => words.resize(words.len() + (*bytes / 4) as usize, 0)?,
        _ => {}
    }
    Ok(())
}

/// The data of the statements up to the next segment.
fn words_before_next(
    alloc: Global,
    labels: &Labels<'_>,
    statements: &[Statement<'_>],
) -> Result<Vec<u32>, NoMemory>
    ensures words { IfOk result (λ words. (known : Addresses) → HoldsLabels labels.now known → words.items ≡ words_before_next known (map (λ s. s.body) statements.now)) }
    ensures fit { IfOk result (λ words. AllByRecursion IsNumber words.items) }
{
    let mut words = Vec::new(alloc);
    let mut left = statements;
    while let [statement, rest @ ..] = left {
        if let Body::DataAt(_) = &statement.body {
            break;
        }
        push_data(&mut words, labels, &statement.body)?;
        left = rest;
    }
    Ok(words)
}

/// Whether a `.data` without an address stands before all of those with one.
fn goes_on_behind_code(statements: &[Statement<'_>]) -> bool
    ensures value { result ≡ goes_on_behind_code (map (λ s. s.body) statements.now) }
{
    let mut left = statements;
    while let [statement, rest @ ..] = left {
        match &statement.body {
            Body::Data => return true,
            Body::DataAt(_) => return false,
            _ => left = rest,
        }
    }
    false
}

/// Goes on with a segment for each `.data` with an address.
fn push_addressed(
    segments: &mut Vec<Segment>,
    alloc: Global,
    labels: &Labels<'_>,
    statements: &[Statement<'_>],
) -> Result<(), NoMemory>
    ensures segments { OnOk result ((known : Addresses) → HoldsLabels labels.now known → segments.new.items ≡ segments.old.items ++ addressed_segments known (map (λ s. s.body) statements.now)) }
    ensures fit { AllByRecursion HasWords segments.old.items → OnOk result (AllByRecursion HasWords segments.new.items) }
{
    let mut left = statements;
    while let [statement, rest @ ..] = left {
        if let Body::DataAt(start) = &statement.body {
            let words = words_before_next(alloc, labels, rest)?;
            segments.push(Segment {
                start: *start,
                words,
            })?;
        }
        left = rest;
    }
    Ok(())
}

/// The segments of a source whose code ends at `end`.
#[tactic(auto, unfolding(crate::specs::Assembly::segments_of))]
pub fn segments_of(
    alloc: Global,
    labels: &Labels<'_>,
    end: u32,
    statements: &[Statement<'_>],
) -> Result<Vec<Segment>, NoMemory>
    ensures segments { IfOk result (λ segments. (known : Addresses) → HoldsLabels labels.now known → segments.items ≡ segments_of known end (map (λ s. s.body) statements.now)) }
    ensures fit { IfOk result (λ segments. AllByRecursion HasWords segments.items) }
{
    let mut segments = Vec::new(alloc);
    if goes_on_behind_code(statements) {
        let words = words_before_next(alloc, labels, statements)?;
        segments.push(Segment { start: end, words })?;
    }
    push_addressed(&mut segments, alloc, labels, statements)?;
    Ok(segments)
}
