//! The words of the command line.
ghost use Rattle.std.specs.Prelude.{◌≡◌, IfOk, option_copied};
ghost use Rattle.kmp_words.specs.Words.{texts_of, name_in, value_in, no_options, option_in, options_from, order_of, words_meaning, IsRunnable};

use crate::fault::{WordCause, WordFault};
use crate::input::Input;
use crate::options::{Command, Options};
use crate::order::Order;
use crate::program::Program;
use kmp_base::{Setup, Turns};

/// What stands before the first `=`, and what stands behind it, where there is one.
fn split(word: &str) -> (&str, Option<&str>)
    ensures name { result.0.now ≡ name_in word.now }
    ensures value { option_copied result.1 ≡ value_in word.now }
{
    match word.split_once('=') {
        Some((name, value)) => (name, Some(value)),
        None => (word, None),
    }
}

/// The option in a word, put with those before it.
#[tactic(auto, unfolding(crate::specs::Words::option_in))]
fn option_in(
    command: Command,
    word: u32,
    text: &str,
    options: Options,
) -> Result<Options, WordFault>
    ensures value { result ≡ option_in command word text.now options }
{
    let (name, value) = split(text);
    let name = command
        .option(name)
        .ok_or(WordCause::UnknownOption.at(word))?;
    if options.has(name) {
        return Err(WordCause::OptionTwice.at(word));
    }
    options
        .with(name, word, value)
        .ok_or(WordCause::BadValue.at(word))
}

/// The options in the words behind the command.
#[tactic(auto, unfolding(crate::specs::Words::options_from))]
fn options_in(command: Command, texts: &[&str]) -> Result<Options, WordFault>
    ensures value { result ≡ options_from command 2 no_options (texts_of texts.now) }
{
    let mut options = Options::NONE;
    let mut word = 2;
    for text in texts {
        options = option_in(command, word, text, options)?;
        word += 1;
    }
    Ok(options)
}

/// What a command with its options asks for.
fn order_of(command: Command, options: Options) -> Order
    ensures value { result ≡ order_of command options }
{
    let source = Input::Source(options.memory_lines());
    let input = options.image.map_or(source, |_| Input::Image);
    match command {
        Command::Run => Order::Run {
            setup: options.setup(),
            input,
        },
        Command::RunOnThreads => Order::Run {
            setup: Setup {
                turns: Turns::Threads,
                ..options.setup()
            },
            input,
        },
        Command::Asm => Order::Asm {
            memory_lines: options.memory_lines(),
        },
        Command::Replay => Order::Replay,
        Command::Trial => Order::Trial {
            setup: options.setup(),
            size: options.size(),
        },
    }
}

/// What the words behind a program's name ask for.
///
/// The first word is the command: `run`, and for `kmp` also `asm`, `replay` and `trial`. Each later one is an option, which may
/// stand once; `replay` has none. `--memory=N` is for `run` and `asm`: N bytes of memory, a multiple of 8 from 16 to
/// 16,777,216, and 65,536 where it doesn't stand. For `run` and `trial` are `--machine=full`, cores with five stages over caches
/// and a bus, also where it doesn't stand, `--machine=pipe`, such cores over flat memory, or `--machine=plain`, unpipelined ones;
/// `--cores=N`, from 1 to 8, and 1 where it doesn't stand; `--budget=N`, cycles for each core from 1 to 100,000, and 20,000 where
/// it doesn't stand; `--seed=N`, any number of 32 bits, and 0 where it doesn't stand; `--sets=N`, of each cache, a power of two
/// from 1 to 256, and 16 where it doesn't stand; `--ways=1`, lines in each set, also where it doesn't stand; and for `kmp`
/// `--turns=round`, also where it doesn't stand, or `--turns=seeded`. `run` has `--image`, where it reads an image, and `trial`
/// `--size=N`, from 0 to 1000 blocks, and 100 where it doesn't stand. The first fault from the left answers, and behind them that
/// `--memory` and `--image` exclude each other.
#[tactic(auto, unfolding(crate::specs::Words::words_meaning))]
pub fn read_words(words: &[&str], program: Program) -> Result<Order, WordFault>
    ensures meaning { result ≡ words_meaning program (texts_of words.now) }
    ensures runnable { IfOk result (λ order. IsRunnable program order) }
{
    let [first, texts @ ..] = words else {
        return Err(WordCause::NoCommand(program).at(1));
    };
    let command = Command::named(program, first).ok_or(WordCause::UnknownCommand(program).at(1))?;
    let options = options_in(command, texts)?;
    match options.excluded_at() {
        Some(word) => Err(WordCause::Excluded.at(word)),
        None => Ok(order_of(command, options)),
    }
}
