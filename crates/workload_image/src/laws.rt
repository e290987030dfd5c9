//! A law of the sources of random workloads. It is the clause of a function that does nothing.
ghost use Rattle.workload_image.specs.Drawn.{DrawnSourcesArePrograms};

/// The source of a random workload of at most 1,000 blocks is read as the statements of its blocks, these have room in
/// 65,536 bytes of memory, and the source means the program that they are.
pub fn drawn_sources_are_programs()
    ensures law { DrawnSourcesArePrograms }
{}
