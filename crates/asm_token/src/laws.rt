//! Laws of tokens. Each is the clause of a function that does nothing.
ghost use Rattle.asm_token.specs.Printing.{WrittenTokensAreRead, PrintedTokensAreRead};
ghost use Rattle.asm_token.specs.Worked.{WorkedTokensAreRead};

/// The tokens of a line that writes tokens are these tokens: whatever blanks stand between them and whatever comment
/// behind them, by names, registers, decimal numbers and marks.
pub fn written_tokens_are_read()
    ensures law { WrittenTokensAreRead }
{}

/// Tokens that are printed with one blank behind each are read as they were.
pub fn printed_tokens_are_read()
    ensures law { PrintedTokensAreRead }
{}

/// Lines that are worked by hand have the tokens that were worked.
pub fn worked_tokens_are_read()
    ensures law { WorkedTokensAreRead }
{}
