//! The words as the system hands them over.
ghost use Rattle.std.specs.Prelude.{◌≡◌, map, drop, Err, IfOk, IfErr, MatchResult};
ghost use Rattle.std.specs.String.{string_bytes};
ghost use Rattle.std.specs.Vec.Iter.{into_iter_items};
ghost use Rattle.kmp_words.specs.Words.{texts_of};
ghost use Rattle.kmp_call.specs.declared.status.Status.TheVariants as statuses;
ghost use Rattle.kmp_call.specs.Given.{IsWithheld};

use crate::status::Status;
use kmp_base::NoMemory;
use std::alloc::Global;
use std::env::Args;
use std::io::{self, ErrorKind};

// The words behind the program's name.
fn without_name(alloc: Global, args: Args) -> Result<Vec<String>, NoMemory>
    ensures words { IfOk result (λ words. words.items ≡ drop 1 (into_iter_items args)) }
{
    args.skip(1).collect(alloc)
}

/// The words behind the program's name, or the status of a call without them.
pub fn given_words(alloc: Global, args: io::Result<Args>) -> Result<Vec<String>, Status>
    ensures words { IfOk args (λ all. MatchResult result
        (λ words. words.items ≡ drop 1 (into_iter_items all))
        (λ status. status ≡ statuses.NoMemory)) }
    ensures withheld { IfErr args (λ error. MatchResult result
        (λ words. ⊥)
        (λ status. IsWithheld error status)) }
{
    match args {
        Ok(all) => without_name(alloc, all).map_err(|_| Status::NoMemory),
        Err(error) if error.kind() == ErrorKind::OutOfMemory => Err(Status::NoMemory),
        Err(_) => Err(Status::WordsUnreadable),
    }
}

// The texts of words.
fn texts_in(alloc: Global, words: &[String]) -> Result<Vec<&str>, NoMemory>
    ensures texts { IfOk result (λ texts. texts_of texts.items ≡ map string_bytes words.now) }
{
    words.iter().map(String::as_str).collect(alloc)
}

/// The texts of the words, or why there are none.
pub fn texts(alloc: Global, words: &Result<Vec<String>, Status>) -> Result<Vec<&str>, Status>
    ensures texts { IfOk words.now (λ words. MatchResult result
        (λ texts. texts_of texts.items ≡ map string_bytes words.items)
        (λ status. status ≡ statuses.NoMemory)) }
    ensures withheld { IfErr words.now (λ status. result ≡ Err status) }
{
    match words {
        Ok(words) => texts_in(alloc, words).map_err(|_| Status::NoMemory),
        Err(status) => Err(*status),
    }
}
