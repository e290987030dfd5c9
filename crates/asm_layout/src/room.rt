//! Whether the words of a source fit into the memory.
ghost use Rattle.std.specs.Prelude.{◌≡◌, ◌^◌, ◌<◌, ◌≤◌, [], length};
ghost use Rattle.asm_layout.specs.Passes.{first_fault, goes_past, room_fault, room_test};

use crate::MOST_STATEMENTS;
use crate::place::{Place, code_size, data_size};
use asm_parse::{AsmCause, Body, Statement};

/// The most bytes of code.
const CODE_LIMIT: u64 = 262_144;

/// Whether bytes behind `end` go past a limit.
fn goes_past(limit: u64, end: u64, size: u64) -> bool
    requires end { end < 2 ^ 62 }
    requires size { size < 2 ^ 62 }
    ensures value { result ≡ goes_past limit end size }
{
    0 < size && limit < end + size
}

/// What is wrong with the room of a statement.
fn room_fault(memory: u64, place: Place, body: &Body<'_>) -> Option<AsmCause>
    requires code { place.code_end < 2 ^ 62 }
    requires segment { place.data_end < 2 ^ 62 }
    ensures value { result ≡ room_fault memory place body.now }
{
    if let Body::DataAt(start) = body {
        let start = u64::from(*start);
        return (start < place.data_end || memory < start).then_some(AsmCause::Range);
    }
    let too_much = goes_past(memory.min(CODE_LIMIT), place.code_end, code_size(body))
        || goes_past(memory, place.data_end, data_size(body));
    too_much.then_some(AsmCause::TooMuch)
}

/// The first fault in the room of a source's statements, where its code ends at `end`.
pub fn first_without_room(
    statements: &[Statement<'_>],
    memory: u64,
    end: u64,
) -> Option<(AsmCause, u32)>
    requires few { length statements.now ≤ MOST_STATEMENTS }
    requires end { end ≤ 2 ^ 32 }
    ensures value { result ≡ first_fault (room_test memory end) [] statements.now }
{
    let mut place = Place::start(end);
    for statement in statements {
        if let Some(cause) = room_fault(memory, place, &statement.body) {
            return Some((cause, statement.line));
        }
        place = place.moved(&statement.body);
    }
    None
}
