//! What is told on standard error. Nothing that happens there changes the status.
use crate::status::Status;
use kmp_words::{Input, Order, Program, read_words};
use std::io::IsTerminal;

/// Whether the words ask how the program is called: there is none, or the first one does.
fn ask_for_usage(words: &[&str]) -> bool {
    match words.first() {
        Some(first) => matches!(*first, "--help" | "-h" | "help"),
        None => true,
    }
}

/// What an order reads, if it reads something.
fn input_of(order: Order) -> Option<&'static str> {
    match order {
        Order::Run {
            setup: _,
            input: Input::Image,
        } => Some("an image"),
        Order::Run { .. } | Order::Asm { .. } => Some("a source"),
        Order::Replay => Some("a report"),
        Order::Trial { .. } => None,
    }
}

/// Tells that an input is waited for, where it comes from a terminal.
pub fn tell_reading(
    rt: &impl Eprint,
    program: Program,
    stdin: &impl IsTerminal,
    words: &Result<Vec<&str>, Status>,
) {
    let Ok(words) = words else { return };
    if let Ok(order) = read_words(words, program)
        && let Some(input) = input_of(order)
        && stdin.is_terminal()
    {
        let name = program.name();
        let _ = eprintln!(rt;
            "{name}: reading {input} from the terminal, to Ctrl-D on a line of its own"
        );
    }
}

/// Tells each line of a source at which a delay slot has only the first of two words.
pub fn tell_split(rt: &impl Eprint, program: Program, lines: &[u32]) {
    let name = program.name();
    for line in lines {
        let _ = eprintln!(rt;
            "{name}: line {line}: li and la are two words, and only the first stands in the delay slot; \
             write one word there, or nop"
        );
    }
}

/// Tells what is wrong and what to do, where a call came to another end than was asked for. `usage` has
/// the program's commands, their options and the statuses.
pub fn tell_end(
    rt: &impl Eprint,
    program: Program,
    usage: &str,
    words: &Result<Vec<&str>, Status>,
    status: Status,
) {
    let name = program.name();
    let _ = match (status, words) {
        (Status::Done | Status::OtherEnd, _) => Ok(()),
        (Status::WordsRefused(_), Ok(words)) if ask_for_usage(words) => rt.eprint(usage),
        _ => eprintln!(rt; "{name}: {status}"),
    };
}
