//! The rows of memory words.
ghost use Rattle.std.specs.Prelude.{◌≡◌, ◌+◌, ◌*◌, ◌/◌, ◌^◌, ◌<◌, ◌≤◌, [], ◌∷◌, length, IfSome, IfNone};
ghost use Rattle.report_text.specs.Report.{words_past};
ghost use Rattle.row_check.specs.Judgments.{first_told};
ghost use Rattle.replayer.specs.Lists.{words_judged};

use crate::Difference;
use crate::judgments::{found_word, memory_word};
use access_log::Found;
use image_file::Image;
use report_rows::MemoryWord;
use seq_machine::Machine;

/// The first word from an index on, below the last, that isn't 0.
fn next_word(machine: &Machine, from: u32, words: u32) -> Option<MemoryWord>
    requires words { words ≡ length machine.now.memory }
    requires small { words ≤ 2 ^ 22 }
    ensures none { IfNone result (words_past from machine.now.memory ≡ []) }
    ensures some { IfSome result (λ word. words_past from machine.now.memory ≡ word ∷ words_past (word.addr / 4 + 1) machine.now.memory) }
{
    for index in from..words {
        let value = machine.word(4 * index);
        if value != 0 {
            return Some(MemoryWord {
                addr: 4 * index,
                value,
            });
        }
    }
    None
}

/// The first row that differs from the next word of memory past an image's code that isn't 0, or the first such word that
/// has no row.
pub(crate) fn words_difference(
    machine: &Machine,
    image: &Image,
    kept: &[MemoryWord],
    first_line: u32,
) -> Option<Difference>
    requires words { length machine.now.memory ≡ 2 * image.now.memory_lines }
    requires lines { first_line + length kept.now < 2 ^ 32 }
    ensures { result ≡ first_told (words_judged first_line kept.now (words_past (length image.now.code) machine.now.memory)) }
{
    let words = 2 * image.memory_lines;
    let mut line = first_line;
    let mut index = image.code.len() as u32;
    for word in kept {
        let Some(next) = next_word(machine, index, words) else {
            return Some(memory_word(line, found_word(*word), Found::Nothing));
        };
        if *word != next {
            return Some(memory_word(line, found_word(*word), found_word(next)));
        }
        line += 1;
        index = next.addr / 4 + 1;
    }
    let missing = next_word(machine, index, words)?;
    Some(memory_word(line, Found::Nothing, found_word(missing)))
}
