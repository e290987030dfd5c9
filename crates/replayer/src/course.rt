//! A core by itself, which goes on by what its accesses found.
ghost use Rattle.std.specs.Prelude.{◌≡◌, ◌≤◌, ◌∷◌, [], length, IfSome, IfNone};
ghost use Rattle.pipe_regs.specs.Slots.{IsProperWhere};
ghost use Rattle.access_log.specs.Items.{entries};
ghost use Rattle.access_log.specs.Replay.{own};
ghost use Rattle.timetable.specs.Trace.{instr_on};
ghost use Rattle.right_run.specs.Stages.{found_by, executed_by};

use access_log::Item;
use image_file::{Image, start_state};
use mips_isa::{CoreState, Instr, Next, steps};
use std::marker::Model;

/// The instructions that a core is still to execute, so many at most, as far as it goes by itself where its accesses find
/// what is told of them.
#[derive(Drop)]
pub(crate) struct Course<'a> {
    image: &'a Image,
    core: u32,
    state: CoreState,
    /// The accesses of all cores, of which its own are still to come.
    items: &'a [Item],
    left: u32,
}

impl<'a> Model for Course<'a> {
    ghost use Rattle.std.specs.Prelude.{List, Option};
    ghost use Rattle.mips_isa.specs.declared.Instr.{Instr};
    ghost use Rattle.image_file.specs.Value.{memory_bytes};
    ghost use Rattle.access_log.specs.Items.{entries};
    ghost use Rattle.access_log.specs.Replay.{own};
    ghost use Rattle.timetable.specs.Trace.{trace};
    ghost use Rattle.right_run.specs.Stages.{found_by};

    ghost Value = { List (Option Instr) };

    ghost view = { λ c. trace c.image.now.code (memory_bytes c.image.now) c.left c.state (found_by (own (entries c.items.now) c.core)) };
}

/// The instruction at an address; none off the code.
pub(crate) fn instr_on(image: &Image, dpc: u32) -> Option<Instr>
    ensures value { result ≡ instr_on image.now.code dpc }
    ensures proper { IsProperWhere result }
{
    if dpc % 4 != 0 || dpc >= 4 * image.code.len() as u32 {
        None
    } else {
        steps::instr_at(&image.code, dpc)
    }
}

/// What the first access of a core among these found, and the accesses behind it.
fn next_found(items: &[Item], core: u32) -> Option<(u32, &[Item])>
    ensures none { IfNone result (found_by (own (entries items.now) core) ≡ []) }
    ensures some { IfSome result (λ found. found_by (own (entries items.now) core) ≡ found.0 ∷ found_by (own (entries found.1.now) core)) }
{
    let mut left = items;
    while let [item, rest @ ..] = left {
        left = rest;
        if let Item::Done(entry) = item {
            if entry.core == core {
                return Some((entry.old, rest));
            }
        }
    }
    None
}

impl<'a> Course<'a> {
    /// So many instructions from its start on, of the core with a number, of so many.
    #[tactic(auto, using(crate::proofs::CourseLemmas::few_instrs))]
    pub(crate) fn new(
        image: &'a Image,
        items: &'a [Item],
        core: u32,
        cores: u32,
        retired: u32,
    ) -> Self
        ensures instrs { result ≡ executed_by image.now core cores (own (entries items.now) core) retired }
        ensures few { length result ≤ retired }
    {
        Course {
            image,
            core,
            state: start_state(image, core, cores),
            items,
            left: retired,
        }
    }

    /// The next instruction, where it goes so far; none in its place where the core is off the code.
    pub(crate) fn next_instr(&mut self) -> Option<Option<Instr>>
        ensures some { IfSome result (λ instr. self.old ≡ instr ∷ self.new) }
        ensures none { IfNone result (self.old ≡ []) }
        ensures proper { IfSome result (λ instr. IsProperWhere instr) }
    {
        if self.left == 0 {
            return None;
        }
        let image = self.image;
        let instr = instr_on(image, self.state.dpc);
        let next = steps::next(&image.code, 8 * image.memory_lines, &self.state);
        self.left = match next {
            Next::Stops(_) => 0,
            Next::Goes(state) => {
                self.state = state;
                self.left - 1
            }
            Next::Asks(_) => match next_found(self.items, self.core) {
                None => 0,
                Some((old, behind)) => {
                    self.state = steps::finish(&image.code, &self.state, old);
                    self.items = behind;
                    self.left - 1
                }
            },
        };
        Some(instr)
    }
}
