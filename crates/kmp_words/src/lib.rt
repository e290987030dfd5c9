//! What the words of the command line ask for, and the program that the input means.
#![tactic(auto)]

mod fault;
mod input;
mod options;
mod order;
mod program;
mod words;

pub use fault::{WordCause, WordFault};
pub use input::{IMAGE_LIMIT, Input, LoadFault, Loaded, Refusal, SOURCE_LIMIT, load, loaded_from};
pub use order::Order;
pub use program::Program;
pub use words::read_words;
