//! A law of delay slots. It is the clause of a function that does nothing.
ghost use Rattle.asm_layout.specs.Worked.{WorkedDelaySlots};

/// What stands in delay slots, worked by hand: behind each branch and jump, and behind what is none.
pub fn worked_delay_slots()
    ensures law { WorkedDelaySlots }
{}
