//! Laws of the assembler's lines, apart from its reader. Each is the clause of a function that does nothing.
ghost use Rattle.asm_parse.specs.Printing.{WrittenStatementsAreRead, WrittenLabelsAreRead, PrintedStatementsAreRead};
ghost use Rattle.asm_parse.specs.Macros.{WrittenMacrosAreRead};
ghost use Rattle.asm_parse.specs.Worked.{WorkedLinesAreRead};

/// A line that writes labels and a statement is read as these: each instruction by its mnemonic and its operands in the
/// order of the MIPS32 manuals, and each directive, whatever blanks stand between its tokens and whatever comment behind.
pub fn written_statements_are_read()
    ensures law { WrittenStatementsAreRead }
{}

/// A line that writes labels alone, or nothing, is read as these labels.
pub fn written_labels_are_read()
    ensures law { WrittenLabelsAreRead }
{}

/// A line that writes labels and a macro, a list of words, or an instruction with an operand left out, is read as these
/// labels and what that stands for.
pub fn written_macros_are_read()
    ensures law { WrittenMacrosAreRead }
{}

/// The statements of a text that is printed, a line for each, are those that were printed.
pub fn printed_statements_are_read()
    ensures law { PrintedStatementsAreRead }
{}

/// Lines that are worked by hand are read as they were worked.
pub fn worked_lines_are_read()
    ensures law { WorkedLinesAreRead }
{}
