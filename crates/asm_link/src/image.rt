//! The image of a source.
ghost use Rattle.std.specs.Prelude.{◌≡◌, ◌*◌, ◌≤◌, length};
ghost use Rattle.kmp_base.specs.Gives.{GivesAt};
ghost use Rattle.asm_parse.specs.Statements.{AreProper};
ghost use Rattle.asm_link.specs.Assembly.{image_of};

use crate::code::{code_words, pad};
use crate::segments::segments_of;
use asm_layout::{MOST_STATEMENTS, lay_out};
use asm_parse::{AsmFault, Statement};
use image_file::Image;
use std::alloc::Global;

/// The image of statements in a memory of so many lines, which are 8 bytes each.
///
/// The code begins at address 0, and an odd number of its words is followed by one `nop`. A segment begins at each
/// `.data` with an address, and behind the code where a `.data` without one stands before all of these. A label means
/// its byte address. What is wrong is told as [`AsmFault::At`]: that there is no code, at line 0; else the first line at
/// fault of the first pass that fails. The passes are over labels that stand twice, room, and the labels of operands.
#[tactic(auto, unfolding(crate::specs::Assembly::image_of))]
pub fn assemble(
    alloc: Global,
    statements: &[Statement<'_>],
    memory_lines: u32,
) -> Result<Image, AsmFault>
    requires some_lines { 2 ≤ memory_lines }
    requires lines { memory_lines ≤ 2097152 }
    requires proper { AreProper statements.now }
    requires few { length statements.now ≤ MOST_STATEMENTS }
    ensures meaning { GivesAt (λ image. image) result (image_of memory_lines statements.now) }
{
    let labels = lay_out(alloc, statements, 8 * u64::from(memory_lines))?;
    let mut code = code_words(alloc, &labels, statements)?;
    pad(&mut code)?;
    let segments = segments_of(alloc, &labels, (4 * code.len()) as u32, statements)?;
    Ok(Image {
        memory_lines,
        code,
        segments,
    })
}
