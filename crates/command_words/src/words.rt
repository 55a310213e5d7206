//! Reads the words of the program.
ghost use Rattle.std.specs.Prelude.{◌≡◌, ℕ, List, true, is_some, map, codes, IfOk, Some};
ghost use Rattle.clap.specs.Words.{FailsBy, first_value, found_of, kind_of, rule_of};
ghost use Rattle.clap.specs.declared.error.kind.ErrorKind.TheVariants.{OutOfMemory};
ghost use Rattle.command_words.specs.Forms.{form_fault, form_given, form_of, rule_of_part};
ghost use Rattle.command_words.specs.Words.{HasAll, IsBare, IsNumberOf, IsTaskOf, Reads, ReadsBehind};
ghost use Rattle.command_words.specs.declared.words.WordsFault.TheVariants.{NoMemory as out_of_memory, Refused};

use crate::forms::{KINDS, Kind, Part, form_of, kind_in};
use crate::numbers::number_in;
use clap::error::ErrorKind;
use clap::{Arg, ArgAction, ArgMatches, Command, Error};
use std::alloc::{AllocError, Global};
use wire_core::{NoMemory, Text, Word};

/// The addresses that a session is served between: the one to accept the client at, and the one of the target.
#[derive(Debug, Drop)]
pub struct Addresses {
    pub listen: Text,
    pub target: Text,
}

/// The number of a script, from 1 to 1,000, and its digits as they were given: 4 at most.
#[derive(Debug, Drop)]
pub struct ScriptNumber {
    pub digits: Text,
    pub number: u32,
}

/// What the words ask for: a session between these addresses, one of the script in this file, the session log of this
/// file once more, a session of the script of this number whose log goes to this file, a session between these
/// addresses that is recorded in this file, or the stacks of all threads of the target at this address.
#[derive(Debug, Drop)]
pub enum Task {
    Serve(Addresses),
    Script(Word),
    Replay(Word),
    Generate(ScriptNumber, Word),
    Record(Addresses, Word),
    Dump(Text),
}

/// Why words ask for nothing: they are refused, or memory ran out.
#[derive(Clone, Copy, Debug, PartialEq, Eq)]
pub enum WordsFault {
    Refused,
    NoMemory,
}

impl From<NoMemory> for WordsFault {
    ghost use Rattle.std.specs.Prelude.{◌≡◌};
    ghost use Rattle.command_words.specs.declared.words.WordsFault.TheVariants.{NoMemory as out_of_memory};

    ghost from_gives = { λ _ fault. fault ≡ out_of_memory };

    fn from(_refused: NoMemory) -> WordsFault {
        WordsFault::NoMemory
    }
}

impl From<AllocError> for WordsFault {
    ghost use Rattle.std.specs.Prelude.{◌≡◌};
    ghost use Rattle.command_words.specs.declared.words.WordsFault.TheVariants.{NoMemory as out_of_memory};

    ghost from_gives = { λ _ fault. fault ≡ out_of_memory };

    fn from(_refused: AllocError) -> WordsFault {
        WordsFault::NoMemory
    }
}

/// Reads the words of the program: the command's name, and what that command is given. `Refused` comes exactly where
/// there is no name, the name is unknown, `clap` refuses the rest for another cause than memory, or the number of a script
/// isn't 1 to 4 decimal digits with a value from 1 to 1,000; `NoMemory` comes where memory is refused.
pub fn read_words(alloc: Global, words: &[Word]) -> Result<Task, WordsFault>
    ensures { Reads words.now result }
{
    match words {
        [name, rest @ ..] => match kind_in(&KINDS, name.as_str()) {
            Some(kind) => read_behind(alloc, *kind, rest),
            None => Err(WordsFault::Refused),
        },
        [] => Err(WordsFault::Refused),
    }
}

// Reads the words behind the name of a command.
fn read_behind(alloc: Global, kind: Kind, words: &[Word]) -> Result<Task, WordsFault>
    ensures { ReadsBehind kind words.now result }
{
    let texts = texts_of(alloc, words)?;
    match matches_of(alloc, kind, texts.as_slice()) {
        Ok(matches) => task_of(alloc, kind, &matches),
        Err(error) => Err(fault_of(&error)),
    }
}

// The task of a command that was given what it has to be given; `Refused` where that is no number of a script.
fn task_of(alloc: Global, kind: Kind, matches: &ArgMatches) -> Result<Task, WordsFault>
    requires { HasAll kind (first_value (found_of matches.now)) }
    ensures { IsTaskOf kind (first_value (found_of matches.now)) result }
{
    Ok(match kind {
        Kind::Serve => Task::Serve(addresses_of(alloc, matches)?),
        Kind::Script => Task::Script(value_of(alloc, matches, "file")?),
        Kind::Replay => Task::Replay(value_of(alloc, matches, "file")?),
        Kind::Generate => Task::Generate(
            number_of(alloc, matches)?,
            value_of(alloc, matches, "out")?,
        ),
        Kind::Record => Task::Record(
            addresses_of(alloc, matches)?,
            value_of(alloc, matches, "out")?,
        ),
        Kind::Dump => Task::Dump(value_of(alloc, matches, "target")?),
    })
}

fn number_of(alloc: Global, matches: &ArgMatches) -> Result<ScriptNumber, WordsFault>
    requires { is_some (first_value (found_of matches.now) (codes "number")) ≡ true }
    ensures { IsNumberOf (first_value (found_of matches.now) (codes "number")) result }
{
    let digits = value_of(alloc, matches, "number")?;
    match number_in(digits.as_bytes()) {
        Some(number) => Ok(ScriptNumber { digits, number }),
        None => Err(WordsFault::Refused),
    }
}

fn addresses_of(alloc: Global, matches: &ArgMatches) -> Result<Addresses, NoMemory>
    requires listen { is_some (first_value (found_of matches.now) (codes "listen")) ≡ true }
    requires target { is_some (first_value (found_of matches.now) (codes "target")) ≡ true }
    ensures listen { IfOk result (λ a. first_value (found_of matches.now) (codes "listen") ≡ Some a.listen) }
    ensures target { IfOk result (λ a. first_value (found_of matches.now) (codes "target") ≡ Some a.target) }
{
    Ok(Addresses {
        listen: value_of(alloc, matches, "listen")?,
        target: value_of(alloc, matches, "target")?,
    })
}

fn texts_of<'a>(alloc: Global, words: &'a [Word]) -> Result<Vec<&'a str>, AllocError>
    ensures { IfOk result (λ texts. map (λ text. text.now) texts.items ≡ words.entry.now) }
{
    let mut texts = Vec::new(alloc);
    for word in words {
        texts.push(word.as_str())?;
    }
    Ok(texts)
}

// A command, as `clap` reads it: one simple command, whose values all have to be there.
fn matches_of<'a>(alloc: Global, kind: Kind, words: &'a [&'a str]) -> Result<ArgMatches<'a>, Error>
    ensures kinds { FailsBy (form_fault (form_of kind) (map (λ word. word.now) words.entry.now)) result }
    ensures values { IfOk result (λ matches. first_value (found_of matches)
        ≡ form_given (form_of kind) (map (λ word. word.now) words.entry.now)) }
    ensures given { IfOk result (λ matches. HasAll kind (first_value (found_of matches))) }
{
    let (name, parts) = form_of(kind);
    let bare = bare_command(alloc, name);
    let command = bare.args(args_of(alloc, parts)?)?;
    command.try_get_matches_from(words)
}

// Values that have to be there, as `clap` knows them.
fn args_of<'a>(alloc: Global, parts: &'a [Part<'a>]) -> Result<Vec<Arg<'a>>, AllocError>
    ensures { IfOk result (λ args. map rule_of args.items ≡ map rule_of_part parts.entry.now) }
{
    let mut args = Vec::new(alloc);
    for part in parts {
        args.push(arg_of(alloc, *part))?;
    }
    Ok(args)
}

fn arg_of<'a>(alloc: Global, part: Part<'a>) -> Arg<'a>
    ensures { rule_of result ≡ rule_of_part part.entry }
{
    let arg = match part {
        Part::Option(name) => Arg::new(alloc, name).long(name),
        Part::Value(name) => Arg::new(alloc, name),
    };
    arg.action(ArgAction::Set).required(true)
}

// A command without the flags for help and version, which is given just the words behind its name.
fn bare_command<'a>(alloc: Global, name: &'a str) -> Command<'a>
    ensures { IsBare result name.entry.now }
{
    Command::new(alloc, name)
        .no_binary_name(true)
        .disable_help_flag(true)
        .disable_version_flag(true)
}

fn value_of(alloc: Global, matches: &ArgMatches, option: &str) -> Result<Text, NoMemory>
    requires { is_some (first_value (found_of matches.now) option.now) ≡ true }
    ensures { IfOk result (λ value. first_value (found_of matches.now) option.now ≡ Some value) }
{
    let value = matches.get_str(option).unwrap();
    Text::from_str(alloc, value)
}

fn fault_of(error: &Error) -> WordsFault
    ensures refused { result ≡ Refused → ¬ (kind_of error.now ≡ OutOfMemory) }
    ensures no_memory { result ≡ out_of_memory → kind_of error.now ≡ OutOfMemory }
{
    match error.kind() {
        ErrorKind::OutOfMemory => WordsFault::NoMemory,
        _ => WordsFault::Refused,
    }
}
