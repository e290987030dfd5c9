//! A law of the sources. It is the clause of a function that does nothing.
ghost use Rattle.workload_gen.specs.Worked.{WorkedSources};

/// Sources, words and blocks that were worked out apart from this code are those of the definition.
pub fn worked_sources()
    ensures law { WorkedSources }
{}
