//! The command line, read with `clap`.
ghost use Rattle.std.specs.Prelude.{◌≡◌, IfOk, IfErr, List, Some, codes, false, map, string_bytes};
ghost use Rattle.ksm_base.specs.Values.{IsShape};
ghost use Rattle.clap.specs.Words.{app_of, found_of, kind_of, new_app, one_text, rule_of, with_rule};
ghost use Rattle.ksm_options.specs.CommandLine.{ksmbook, number_rule, required_rule};
ghost use Rattle.ksm_options.specs.Plain.{IsWellFormed};
ghost use Rattle.ksm_options.specs.Settings.{Given, Setting, name_of, text_of};
ghost use Rattle.ksm_options.specs.Told.{IsToldBy, Tells};

use clap::builder::ValueParser;
use clap::error::ErrorKind;
use clap::{Arg, ArgAction, ArgMatches, Command, Error};
use ksm_base::{MOST_FRAMES_PER_NODE, MOST_LIVES, MOST_NODES, MOST_PASSES, MOST_TRIES, Shape};
use std::alloc::{AllocError, Global};

/// The option `--NAME N`, where N is 1 to `most`.
fn number<'a>(alloc: Global, name: &'a str, most: u64, help: &'a str) -> Arg<'a>
    ensures rule { rule_of result ≡ number_rule name.entry.now most }
    ensures local { result.global ≡ false }
    ensures help { result.help ≡ Some help.entry }
{
    Arg::new(alloc, name)
        .long(name)
        .action(ArgAction::Set)
        .value_name("N")
        .value_parser(ValueParser::unsigned(1, most))
        .help(help)
}

/// The same option, which has to be given.
fn required<'a>(alloc: Global, name: &'a str, most: u64, help: &'a str) -> Arg<'a>
    ensures rule { rule_of result ≡ required_rule name.entry.now most }
    ensures local { result.global ≡ false }
    ensures help { result.help ≡ Some help.entry }
{
    number(alloc, name, most, help).required(true)
}

/// What stands under the options in the help.
const WHERE_TO_READ: &str =
    "ksmbook --version prints its version. The commands are in the manual page ksmbook(5), the rest in ksmbook(1); in a checkout both are docs/SCRIPT.md";

/// The command line without an option.
fn named<'a>(alloc: Global) -> Result<Command<'a>, AllocError>
    ensures { IfOk result (λ command. app_of command ≡ new_app (codes "ksmbook")) }
{
    let named = Command::new(alloc, "ksmbook").bin_name("ksmbook")?;
    Ok(
        named
            .about(
                "Keeps a book of merged pages: commands on standard input, replies on standard output",
            )
            .after_help(WHERE_TO_READ),
    )
}

/// A command line with one option more.
fn with<'a>(command: Command<'a>, option: Arg<'a>) -> Result<Command<'a>, AllocError>
    requires { option.global ≡ false }
    ensures { IfOk result (λ longer. app_of longer ≡ with_rule (app_of command.entry) (rule_of option.entry)) }
{
    command.arg(option)
}

/// The command line of the program.
fn command<'a>(alloc: Global) -> Result<Command<'a>, AllocError>
    ensures { IfOk result (λ command. app_of command ≡ ksmbook) }
{
    let nodes = required(alloc, "nodes", MOST_NODES as u64, "NUMA nodes, 1 to 4");
    let frames = required(
        alloc,
        "frames",
        MOST_FRAMES_PER_NODE as u64,
        "Frames of each node, 1 to 256",
    );
    let passes = number(
        alloc,
        "passes",
        MOST_PASSES as u64,
        "Passes, by which frames are looked up, 1 to 16 [default: 2]",
    );
    let tries = number(
        alloc,
        "tries",
        MOST_TRIES as u64,
        "Exchanges that a lookup makes at most, 1 to 64 [default: 8]",
    );
    let last_generation = number(
        alloc,
        "last-generation",
        MOST_LIVES,
        "How often a frame is given, 1 to 1099511627776 [default: 1099511627776]",
    );
    let with_nodes = with(named(alloc)?, nodes)?;
    let with_frames = with(with_nodes, frames)?;
    let with_passes = with(with_frames, passes)?;
    let with_tries = with(with_passes, tries)?;
    with(with_tries, last_generation)
}

/// What `clap` finds in the words.
fn parsed<'a>(alloc: Global, words: &'a [String]) -> Result<ArgMatches<'a>, Error>
    ensures told { IfOk result (λ m. (given : List Given) × Tells (map string_bytes words.entry.now) given
        × ((s : Setting) → one_text (found_of m) (name_of s) ≡ text_of s given)) }
    ensures memory { IfErr result (λ e. (given : List Given) → Tells (map string_bytes words.entry.now) given
        → kind_of e ≡ ErrorKind.OutOfMemory) }
{
    let command = command(alloc)?;
    command.try_get_matches_from(words)
}

/// Reads the shape of the table from the program's words, of which the first is its name.
///
/// `--nodes` and `--frames` have to be given; the others have defaults: 2 passes, 8 tries and
/// 1099511627776 as the last generation. Each number is in its range of `Shape`.
///
/// # Errors
///
/// Where the words are the two and any of the others, each once, as `--nodes 2` or `--nodes=2`,
/// with a number in its range, the error is `OutOfMemory` and the same words may be read again.
/// At all other words, `--help` among them, it is clap's word on them, or `OutOfMemory`.
pub fn options(alloc: Global, words: &[String]) -> Result<Shape, Error>
    ensures fits { IfOk result IsShape }
    ensures told { IfOk result (λ shape. IsToldBy (map string_bytes words.now) shape) }
    ensures memory { IfErr result (λ e. (given : List Given) → Tells (map string_bytes words.now) given
        → kind_of e ≡ ErrorKind.OutOfMemory) }
    ensures well_formed { IfErr result (λ e. (given : List Given) → IsWellFormed (map string_bytes words.now) given
        → kind_of e ≡ ErrorKind.OutOfMemory) }
{
    let matches = parsed(alloc, words)?;
    Ok(Shape {
        nodes: matches.get_one::<u32>("nodes").unwrap(),
        frames_per_node: matches.get_one::<u32>("frames").unwrap(),
        passes: matches.get_one::<u32>("passes").unwrap_or(2),
        last_generation: matches
            .get_one::<u64>("last-generation")
            .unwrap_or(MOST_LIVES),
        tries: matches.get_one::<u32>("tries").unwrap_or(8),
    })
}
