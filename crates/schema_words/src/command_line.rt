//! The words of the command line.

ghost use Rattle.std.specs.Prelude.{◌≡◌, IfNone, IfOk, IfSome, codes, false, map};
ghost use Rattle.clap.specs.Matches.{found_of};
ghost use Rattle.clap.specs.Simple.{app_of};
ghost use Rattle.clap.specs.Walk.{rows_of, rule_of};
ghost use Rattle.clap.specs.declared.builder.value_parser.ValueParser.{ValueParser};
ghost use Rattle.schema_words.specs.Asked.{Asks, AsksNothing, AsksTask};
ghost use Rattle.schema_words.specs.CommandLine.{AreRead, HasRule, TakesActions, action_rule};
ghost use Rattle.schema_words.specs.CommandLine.{app_with, hex_rule, names_rule, option_rule};
ghost use Rattle.schema_words.specs.CommandLine.{root_rule};
ghost use Rattle.schema_words.specs.declared.request.Task.{Task};

use crate::request::{Action, Request, Task};
use clap::{Arg, ArgAction, ArgMatches, Command, Error};
use std::alloc::{AllocError, Global};

/// What `--version` tells, with the program's name in front.
const VERSION: &str = "0.1.0";

const EXAMPLES: &str = "Examples:
  schema encode --type p.M a.proto < message.txt > message.bin
  schema decode --type p.M a.proto < message.bin
  schema recode --type p.M --set older.set < message.bin
  schema set --descriptor descriptor.proto a.proto b.proto > files.set";

/// What is done.
fn action<'a>(alloc: Global) -> Arg<'a>
    ensures { (parser : ValueParser) × TakesActions parser × HasRule (action_rule parser) result }
{
    Arg::new(alloc, "action")
        .value_name("ACTION")
        .required(true)
        .value_parser(["encode", "decode", "recode", "set"].as_slice())
        .help(
            "encode: text to wire bytes; decode: wire bytes to text; recode: wire bytes to their one written form; set: the schema's descriptor set",
        )
}

fn descriptor<'a>(alloc: Global) -> Arg<'a>
    ensures { HasRule (option_rule (codes "descriptor")) result }
{
    Arg::new(alloc, "descriptor")
        .long("descriptor")
        .value_name("FILE")
        .help("A descriptor.proto whose types the options are read by")
}

fn set<'a>(alloc: Global) -> Arg<'a>
    ensures { HasRule (option_rule (codes "set")) result }
{
    Arg::new(alloc, "set")
        .long("set")
        .value_name("FILE")
        .help("A descriptor set whose files come before the sources")
}

fn type_name<'a>(alloc: Global) -> Arg<'a>
    ensures { HasRule (option_rule (codes "type")) result }
{
    Arg::new(alloc, "type")
        .long("type")
        .value_name("NAME")
        .help("The full name of the message type; set does without")
}

fn root<'a>(alloc: Global) -> Arg<'a>
    ensures { HasRule root_rule result }
{
    Arg::new(alloc, "root")
        .long("root")
        .value_name("DIR")
        .default_value(".")
        .help("The folder that the sources stand in")
}

fn hex<'a>(alloc: Global) -> Arg<'a>
    ensures { HasRule hex_rule result }
{
    Arg::new(alloc, "hex")
        .long("hex")
        .action(ArgAction::SetTrue)
        .help("Reads and writes wire bytes as hexadecimal text")
}

fn names<'a>(alloc: Global) -> Arg<'a>
    ensures { HasRule names_rule result }
{
    Arg::new(alloc, "names")
        .value_name("NAMES")
        .num_args(0..)
        .help(
            "The .proto files, by their names under the folder; imports are not loaded by themselves",
        )
}

/// The command line that `schema` takes, with its argument for the type.
fn command<'a>(alloc: Global, type_name: Arg<'a>) -> Result<Command<'a>, AllocError>
    ensures { IfOk result (λ c. type_name.entry.global ≡ false → (parser : ValueParser)
        × TakesActions parser × (app_of c ≡ app_with parser (rule_of type_name.entry))) }
{
    Command::new(alloc, "schema")
        .no_binary_name(true)
        .about(
            "Translates protobuf messages between text and wire bytes, from standard input to standard output, or writes the descriptor set of a schema",
        )
        .version(VERSION)
        .after_help(EXAMPLES)
        .arg(action(alloc))?
        .arg(descriptor(alloc))?
        .arg(set(alloc))?
        .arg(type_name)?
        .arg(root(alloc))?
        .arg(hex(alloc))?
        .arg(names(alloc))
}

/// Reads the words, without the program's name. Whether a type is wanted is not asked yet.
pub fn parse<'a>(alloc: Global, words: &'a [&'a str]) -> Result<ArgMatches<'a>, Error>
    ensures { AreRead (map (λ word. word.now) words.now) result }
{
    command(alloc, type_name(alloc))?.try_get_matches_from(words)
}

/// Reads the words again, and asks that a payload has a type; a refusal is told in the words of the
/// command line.
pub fn require_type(alloc: Global, words: &[&str]) -> Result<(), Error> {
    let type_name = type_name(alloc)
        .required_if_eq("action", "encode")?
        .required_if_eq("action", "decode")?
        .required_if_eq("action", "recode")?;
    command(alloc, type_name)?.try_get_matches_from(words)?;
    Ok(())
}

/// What is asked of the payload, or of the schema itself; nothing where a word is missing that the
/// command line requires.
fn asked_task<'m, 'a>(matches: &'m ArgMatches<'a>) -> Option<Task<'m>>
    ensures asked { IfSome result (AsksTask (rows_of (found_of matches.now))) }
    ensures none { IfNone result ((task : Task) → AsksTask (rows_of (found_of matches.now)) task → ⊥) }
{
    let action = match matches.get_str("action")? {
        "encode" => Action::Encode,
        "decode" => Action::Decode,
        "recode" => Action::Recode,
        "set" => return Some(Task::Set),
        _ => return None,
    };
    Some(Task::Payload(action, matches.get_str("type")?))
}

/// What the words that were read ask for; nothing where a word is missing that the command line
/// requires.
pub fn requested<'m, 'a>(matches: &'m ArgMatches<'a>) -> Option<Request<'m>>
    ensures asked { IfSome result (Asks (rows_of (found_of matches.now))) }
    ensures none { IfNone result (AsksNothing (rows_of (found_of matches.now))) }
{
    Some(Request {
        task: asked_task(matches)?,
        descriptor: matches.get_str("descriptor"),
        set: matches.get_str("set"),
        root: matches.get_str("root")?,
        is_hex: matches.get_flag("hex"),
        names: matches.get_strs("names").unwrap_or(&[]),
    })
}
