//! The words, read through `clap` as one flat command with plain texts. What these texts mean is said in `options`.

ghost use Rattle.std.specs.Prelude.{◌≡◌, IfOk, map, string_bytes};
ghost use Rattle.clap.specs.Matches.{found_of};
ghost use Rattle.clap.specs.Words.{app_of};
ghost use Rattle.st_words.specs.CommandLine.{flat_app, job_found};
ghost use Rattle.st_words.specs.Jobs.{job_asked};

use crate::job::Job;
use crate::options::{Options, job_named};
use clap::error::ErrorKind;
use clap::{Arg, ArgMatches, Command};
use std::alloc::{AllocError, Global};

/// The flat command: four options with a text each, and one further word. It has no help and no version option.
fn flat_command<'a>(alloc: Global) -> Result<Command<'a>, AllocError>
    ensures { IfOk result (λ command. app_of command ≡ flat_app) }
{
    let command = Command::new(alloc, "statesman")
        .no_binary_name(true)
        .disable_help_flag(true);
    let form = Arg::new(alloc, "form").long("form");
    let command = command.arg(form)?;
    let pods = Arg::new(alloc, "pods").long("pods");
    let command = command.arg(pods)?;
    let seed = Arg::new(alloc, "seed").long("seed");
    let command = command.arg(seed)?;
    let to = Arg::new(alloc, "to").long("to");
    let command = command.arg(to)?;
    let word = Arg::new(alloc, "command").required(true);
    command.arg(word)
}

/// What the texts that `clap` found ask for.
fn job_of(matches: &ArgMatches) -> Option<Job>
    ensures { result ≡ job_found (found_of matches.now) }
{
    let options = Options {
        form: matches.get_str("form"),
        pods: matches.get_str("pods"),
        seed: matches.get_str("seed"),
        to: matches.get_str("to"),
    };
    job_named(matches.get_str("command")?, options)
}

/// What the words after the program's name ask for. None exactly where they are not in the grammar of words, whose rules are:
///
/// - At most one each of the options `--form VALUE`, `--pods VALUE`, `--seed VALUE` and `--to VALUE`, and exactly one further
///   word, in any order. An option can be one word too, `--form=VALUE`; a value that is a word of its own does not begin with `-`.
///   After the word `--` there are no options. No option has a short name, none can be shortened, and there is no help.
/// - The further word is `serial`, `run` or `replay`, with which only `--form` goes, `check`, with which no option goes, `roll` or
///   `revert`, with which only `--to` goes, and which need it, or `gen` or `demo`, with which only `--pods` and `--seed` go.
/// - The form is `text`, `json` or `replay`, the pods are `4`, `6`, `8` or `10`, and the seed and the value of `--to` are numbers as
///   `st_text` reads them. Without them the form is `text`, the pods are 4, and the seed is 0.
///
/// An error is want of memory, here or within `clap`.
pub fn read_words<'a>(alloc: Global, words: &'a [String]) -> Result<Option<Job>, AllocError>
    ensures { IfOk result (λ job. job ≡ job_asked (map string_bytes words.now)) }
{
    let command = flat_command(alloc)?;
    match command.try_get_matches_from(words) {
        Ok(matches) => Ok(job_of(&matches)),
        Err(error) => match error.kind() {
            ErrorKind::OutOfMemory => Err(AllocError),
            _ => Ok(None),
        },
    }
}
