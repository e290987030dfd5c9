//! A law of images. It is the clause of a function that does nothing.
ghost use Rattle.asm_link.specs.Assembly.{LoadsAreWhole};

/// The two instructions of `li` and `la` hold the whole word, its upper half in `lui` and its lower half in `ori`.
pub fn loads_are_whole()
    ensures law { LoadsAreWhole }
{}
