//! The end of a call whose input has no program.
ghost use Rattle.std.specs.Prelude.{◌≡◌, []};
ghost use Rattle.kmp_call.specs.Outcome.{EndsUnloaded};

use crate::ending::Ending;
use crate::last_row::refuse_input;
use crate::status::Status;
use kmp_base::Sink;
use kmp_words::LoadFault;
use std::alloc::Global;

/// Ends a call whose input has no program: writes the row of its refusal, or nothing where it
/// couldn't be read or memory ran out.
pub fn end_unloaded<K: Sink>(alloc: Global, fault: LoadFault, sink: &mut K) -> Ending
    ensures ends { EndsUnloaded K.held K.faults fault sink.old sink.new result.status }
    ensures split { result.split.items ≡ [] }
{
    let status = match fault {
        LoadFault::Refused(refusal) => refuse_input(refusal, sink),
        LoadFault::Read => Status::ReadFault,
        LoadFault::Memory => Status::NoMemory,
    };
    Ending::of(alloc, status)
}
