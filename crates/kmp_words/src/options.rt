//! Commands and their options.
ghost use Rattle.std.specs.Prelude.{◌≡◌, option_and_then, option_copied};
ghost use Rattle.kmp_base.specs.Names.{named};
ghost use Rattle.kmp_words.specs.Words.{command_names, options_of, machine_options, number_in, lines_of, number_within, sets_in, machine_names};
ghost use Rattle.kmp_words.specs.Words.{turns_names, stands_in, with_option, excluded_at, memory_lines, or_default, setup_of};

use crate::program::Program;
use kmp_base::{
    MOST_BUDGET, MOST_CORES, MOST_SETS, MachineKind, Policy, Setup, Turns, decimal_of, named,
};

#[derive(Clone, Copy)]
pub enum Command {
    /// A run whose cores take turns.
    Run,
    /// A run whose cores are on threads of their own.
    RunOnThreads,
    Asm,
    Replay,
    Trial,
}

#[derive(Clone, Copy)]
pub enum OptionName {
    /// `--machine=X`: how much of the machine is there.
    Machine,
    /// `--cores=N`: so many cores.
    Cores,
    /// `--budget=N`: so many cycles for each core.
    Budget,
    /// `--turns=X`: the order of the cores' cycles.
    Turns,
    /// `--seed=N`: where what is drawn begins.
    Seed,
    /// `--sets=N`: so many sets in each cache.
    Sets,
    /// `--ways=N`: so many lines in each set.
    Ways,
    /// `--size=N`: so many blocks of a drawn source.
    Size,
    /// `--memory=N`: so many bytes of memory.
    Memory,
    /// `--image`: the input is an image.
    Image,
}

/// The options of a command line.
#[derive(Clone, Copy)]
pub struct Options {
    pub machine: Option<MachineKind>,
    pub cores: Option<u32>,
    pub budget: Option<u32>,
    pub turns: Option<Turns>,
    pub seed: Option<u32>,
    pub sets: Option<u32>,
    pub ways: Option<u32>,
    pub size: Option<u32>,
    /// The lines of memory, and the number of the word that says so.
    pub memory: Option<(u32, u32)>,
    /// The number of the word `--image`.
    pub image: Option<u32>,
}

/// The most blocks of a drawn source.
const MOST_SIZE: u32 = 1000;

/// The lines of memory where no option says otherwise.
const MEMORY_LINES: u32 = 8192;

impl Command {
    /// The command of a program that has a name.
    pub fn named(program: Program, name: &str) -> Option<Command>
        ensures value { result ≡ named (command_names program) name.now }
    {
        match program {
            Program::Kmp => kmp_command(name),
            Program::KmpMp => kmp_mp_command(name),
        }
    }

    /// The option of the command that has a name.
    pub fn option(self, name: &str) -> Option<OptionName>
        ensures value { result ≡ named (options_of self) name.now }
    {
        match self {
            Command::Run => run_option(name),
            Command::RunOnThreads => threads_option(name),
            Command::Asm => asm_option(name),
            Command::Replay => None,
            Command::Trial => trial_option(name),
        }
    }
}

fn kmp_command(name: &str) -> Option<Command>
    ensures value { result ≡ named (command_names Program.Kmp) name.now }
{
    match name {
        "run" => Some(Command::Run),
        "asm" => Some(Command::Asm),
        "replay" => Some(Command::Replay),
        "trial" => Some(Command::Trial),
        _ => None,
    }
}

fn kmp_mp_command(name: &str) -> Option<Command>
    ensures value { result ≡ named (command_names Program.KmpMp) name.now }
{
    match name {
        "run" => Some(Command::RunOnThreads),
        _ => None,
    }
}

fn run_option(name: &str) -> Option<OptionName>
    ensures value { result ≡ named (options_of Command.Run) name.now }
{
    match name {
        "--turns" => Some(OptionName::Turns),
        _ => threads_option(name),
    }
}

fn threads_option(name: &str) -> Option<OptionName>
    ensures value { result ≡ named (options_of Command.RunOnThreads) name.now }
{
    match name {
        "--memory" => Some(OptionName::Memory),
        "--image" => Some(OptionName::Image),
        _ => machine_option(name),
    }
}

fn trial_option(name: &str) -> Option<OptionName>
    ensures value { result ≡ named (options_of Command.Trial) name.now }
{
    match name {
        "--turns" => Some(OptionName::Turns),
        "--size" => Some(OptionName::Size),
        _ => machine_option(name),
    }
}

fn machine_option(name: &str) -> Option<OptionName>
    ensures value { result ≡ named machine_options name.now }
{
    match name {
        "--machine" => Some(OptionName::Machine),
        "--cores" => Some(OptionName::Cores),
        "--budget" => Some(OptionName::Budget),
        "--seed" => Some(OptionName::Seed),
        "--sets" => Some(OptionName::Sets),
        "--ways" => Some(OptionName::Ways),
        _ => None,
    }
}

fn asm_option(name: &str) -> Option<OptionName>
    ensures value { result ≡ named (options_of Command.Asm) name.now }
{
    match name {
        "--memory" => Some(OptionName::Memory),
        _ => None,
    }
}

/// The kind of machine that has a name.
fn machine_named(name: &str) -> Option<MachineKind>
    ensures value { result ≡ named machine_names name.now }
{
    let machines = [MachineKind::Plain, MachineKind::Pipe, MachineKind::Full];
    named(
        &machines.map(|machine| (machine.name(), machine)),
        name.as_bytes(),
    )
}

/// The turns that have a name.
fn turns_named(name: &str) -> Option<Turns>
    ensures value { result ≡ named turns_names name.now }
{
    let turns = [Turns::Round, Turns::Seeded];
    named(&turns.map(|turns| (turns.name(), turns)), name.as_bytes())
}

/// The number that a text spells, where it is within bounds.
#[tactic(auto, using(crate::proofs::WordsLemmas::number_in_decimal, crate::proofs::WordsLemmas::no_number_within))]
fn number_within(least: u32, most: u32, text: &str) -> Option<u32>
    ensures value { result ≡ number_within least most text.now }
{
    let number = decimal_of(text.as_bytes())?;
    if (u64::from(least)..=u64::from(most)).contains(&number) {
        Some(number as u32)
    } else {
        None
    }
}

/// The sets that a text spells, where these are a power of two that a cache may have.
fn sets_in(text: &str) -> Option<u32>
    ensures value { result ≡ sets_in text.now }
{
    let sets = number_within(1, MOST_SETS, text)?;
    if sets.is_power_of_two() {
        Some(sets)
    } else {
        None
    }
}

/// The lines of a memory of so many bytes, where these are a multiple of 8 from 16 to 2^24.
fn lines_of(bytes: u64) -> Option<u32>
    ensures value { result ≡ lines_of bytes }
{
    if (16..=1 << 24).contains(&bytes) && bytes % 8 == 0 {
        Some((bytes / 8) as u32)
    } else {
        None
    }
}

/// The lines of a memory whose bytes a text spells.
#[tactic(auto, using(crate::proofs::WordsLemmas::number_in_decimal, crate::proofs::WordsLemmas::no_number_in))]
fn lines_in(text: &str) -> Option<u32>
    ensures value { result ≡ option_and_then lines_of (number_in text.now) }
{
    lines_of(decimal_of(text.as_bytes())?)
}

impl Options {
    pub const NONE: Options = Options {
        machine: None,
        cores: None,
        budget: None,
        turns: None,
        seed: None,
        sets: None,
        ways: None,
        size: None,
        memory: None,
        image: None,
    };

    /// Whether the option stands already.
    pub fn has(&self, name: OptionName) -> bool
        ensures value { result ≡ stands_in self.now name }
    {
        match name {
            OptionName::Machine => self.machine.is_some(),
            OptionName::Cores => self.cores.is_some(),
            OptionName::Budget => self.budget.is_some(),
            OptionName::Turns => self.turns.is_some(),
            OptionName::Seed => self.seed.is_some(),
            OptionName::Sets => self.sets.is_some(),
            OptionName::Ways => self.ways.is_some(),
            OptionName::Size => self.size.is_some(),
            OptionName::Memory => self.memory.is_some(),
            OptionName::Image => self.image.is_some(),
        }
    }

    /// One option more, which stands at a word; `None` where it has no such value.
    pub fn with(self, name: OptionName, word: u32, value: Option<&str>) -> Option<Options>
        ensures value { result ≡ with_option self name word (option_copied value.entry) }
    {
        match (name, value) {
            (OptionName::Machine, Some(text)) => Some(Options {
                machine: Some(machine_named(text)?),
                ..self
            }),
            (OptionName::Cores, Some(text)) => Some(Options {
                cores: Some(number_within(1, MOST_CORES, text)?),
                ..self
            }),
            (OptionName::Budget, Some(text)) => Some(Options {
                budget: Some(number_within(1, MOST_BUDGET, text)?),
                ..self
            }),
            (OptionName::Turns, Some(text)) => Some(Options {
                turns: Some(turns_named(text)?),
                ..self
            }),
            (OptionName::Seed, Some(text)) => Some(Options {
                seed: Some(number_within(0, u32::MAX, text)?),
                ..self
            }),
            (OptionName::Sets, Some(text)) => Some(Options {
                sets: Some(sets_in(text)?),
                ..self
            }),
            (OptionName::Ways, Some(text)) => Some(Options {
                ways: Some(number_within(1, MachineKind::Full.most_ways(), text)?),
                ..self
            }),
            (OptionName::Size, Some(text)) => Some(Options {
                size: Some(number_within(0, MOST_SIZE, text)?),
                ..self
            }),
            (OptionName::Memory, Some(text)) => {
                let lines = lines_in(text)?;
                Some(Options {
                    memory: Some((lines, word)),
                    ..self
                })
            }
            (OptionName::Image, None) => Some(Options {
                image: Some(word),
                ..self
            }),
            _ => None,
        }
    }

    /// The word of the later of two options that exclude each other.
    pub fn excluded_at(&self) -> Option<u32>
        ensures value { result ≡ excluded_at self.now }
    {
        match (self.memory, self.image) {
            (Some((_, memory)), Some(image)) => Some(memory.max(image)),
            _ => None,
        }
    }

    /// The lines of memory, of 8 bytes each.
    pub fn memory_lines(&self) -> u32
        ensures value { result ≡ memory_lines self.now }
    {
        match self.memory {
            Some((lines, _)) => lines,
            None => MEMORY_LINES,
        }
    }

    /// The blocks of a drawn source.
    pub fn size(&self) -> u32
        ensures value { result ≡ or_default 100 self.now.size }
    {
        self.size.unwrap_or(100)
    }

    /// The setup of a run.
    pub fn setup(&self) -> Setup
        ensures value { result ≡ setup_of self.now }
    {
        Setup {
            machine: self.machine.unwrap_or(MachineKind::Full),
            cores: self.cores.unwrap_or(1),
            budget: self.budget.unwrap_or(20_000),
            policy: Policy::Fifo,
            turns: self.turns.unwrap_or(Turns::Round),
            seed: self.seed.unwrap_or(0),
            sets: self.sets.unwrap_or(16),
            ways: self.ways.unwrap_or(1),
        }
    }
}
