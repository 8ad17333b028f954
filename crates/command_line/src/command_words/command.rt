//! The command `sec`, made with `clap`.

ghost use Rattle.std.specs.Prelude.{◌≡◌, false, IfOk};
ghost use Rattle.clap.specs.Words.{rule_of, app_of, new_app, with_rule, with_subcommand};
ghost use Rattle.clap.specs.declared.builder.command.Command.TheViews.{out-Command};
ghost use Rattle.std.specs.Prelude.{Some};
ghost use Rattle.clap.specs.declared.builder.value_parser.ValueParser.TheVariants as parser;
ghost use Rattle.command_line.specs.command_words.Command.{top_app, sec_app, place, option, option_with, flag};
ghost use Rattle.command_line.specs.command_words.Words.{word_rule, with_words, app_of_subcommand};

use clap::builder::ValueParser;
use clap::{Arg, ArgAction, Command};
use std::alloc::{AllocError, Global};

/// What may stand behind the name of a subcommand.
#[derive(Clone, Copy)]
enum Word<'a> {
    /// A word that must stand.
    Place(&'a str),
    /// An option with a value.
    Option(&'a str),
    /// An option with a value where it isn't given.
    OptionWith(&'a str, &'a str),
    Flag(&'a str),
    /// The conflicts of one query.
    Conflicts,
    /// The last cycle of a search.
    Cycles,
    /// A number of 64 bits that must stand.
    Number,
}

/// The subcommands of `sec`.
#[derive(Clone, Copy)]
enum Subcommand {
    Check,
    Graph,
    Sim,
    Replay,
    Settle,
    Gen,
    /// Clauses, and a text that refutes them.
    Lrat,
    /// Two circuits, the name of outputs, and the form of their certificate.
    Cert,
    /// Two circuits that are compared from their initial values by blocks of latches, or by ties of signals.
    Induct,
}

const SUBCOMMANDS: [Subcommand; 9] = [
    Subcommand::Check,
    Subcommand::Graph,
    Subcommand::Sim,
    Subcommand::Replay,
    Subcommand::Settle,
    Subcommand::Gen,
    Subcommand::Lrat,
    Subcommand::Cert,
    Subcommand::Induct,
];

const MODE: Word<'static> = Word::OptionWith("mode", "plain");

const CHECK: [Word<'static>; 12] = [
    Word::Place("a"),
    Word::Place("b"),
    MODE,
    Word::Flag("expose"),
    Word::Conflicts,
    Word::Flag("reset"),
    Word::Option("assume"),
    Word::Flag("settles"),
    Word::Cycles,
    Word::Option("after"),
    Word::Option("pair"),
    Word::Option("pairs"),
];

const GRAPH: [Word<'static>; 2] = [Word::Place("a"), MODE];

const SIM: [Word<'static>; 6] = [
    Word::Place("a"),
    Word::Place("s"),
    MODE,
    Word::Option("power"),
    Word::Flag("reset"),
    Word::Option("after"),
];

const REPLAY: [Word<'static>; 7] = [
    Word::Place("a"),
    Word::Place("b"),
    Word::Place("s"),
    MODE,
    Word::Flag("settles"),
    Word::Flag("reset"),
    Word::Option("after"),
];

const SETTLE: [Word<'static>; 4] = [Word::Place("a"), Word::Place("b"), Word::Place("s"), MODE];

const GEN: [Word<'static>; 3] = [Word::Number, Word::Flag("regroup"), Word::Conflicts];

const LRAT: [Word<'static>; 2] = [Word::Place("f"), Word::Place("l")];

const CERT: [Word<'static>; 5] = [
    Word::Place("a"),
    Word::Place("b"),
    Word::Place("pair"),
    Word::Place("form"),
    Word::Conflicts,
];

const INDUCT: [Word<'static>; 6] = [
    Word::Place("a"),
    Word::Place("b"),
    Word::Conflicts,
    Word::Flag("signals"),
    Word::Option("after"),
    Word::Option("assume"),
];

/// The name of a subcommand, and its words.
fn words_of<'a>(which: Subcommand) -> (&'a str, &'a [Word<'a>])
    ensures { with_words (new_app result.0.now) result.1.now ≡ app_of_subcommand which }
{
    match which {
        Subcommand::Check => ("check", &CHECK),
        Subcommand::Graph => ("graph", &GRAPH),
        Subcommand::Sim => ("sim", &SIM),
        Subcommand::Replay => ("replay", &REPLAY),
        Subcommand::Settle => ("settle", &SETTLE),
        Subcommand::Gen => ("gen", &GEN),
        Subcommand::Lrat => ("lrat", &LRAT),
        Subcommand::Cert => ("cert", &CERT),
        Subcommand::Induct => ("induct", &INDUCT),
    }
}

/// A word that must stand.
fn place<'a>(alloc: Global, id: &'a str) -> Arg<'a>
    ensures rule { rule_of result ≡ place id.now }
    ensures local { result.global ≡ false }
{
    Arg::new(alloc, id).required(true)
}

/// An option with a value.
fn option<'a>(alloc: Global, id: &'a str) -> Arg<'a>
    ensures rule { rule_of result ≡ option id.now }
    ensures local { result.global ≡ false }
{
    Arg::new(alloc, id).long(id)
}

/// An option with a value where it isn't given.
fn option_with<'a>(alloc: Global, id: &'a str, value: &'a str) -> Arg<'a>
    ensures rule { rule_of result ≡ option_with id.now value.now }
    ensures local { result.global ≡ false }
{
    option(alloc, id).default_value(value)
}

fn flag<'a>(alloc: Global, id: &'a str) -> Arg<'a>
    ensures rule { rule_of result ≡ flag id.now }
    ensures local { result.global ≡ false }
{
    option(alloc, id).action(ArgAction::SetTrue)
}

/// The argument, whose value is a number of 0 to `most`.
fn counted<'a>(argument: Arg<'a>, most: u64) -> Arg<'a>
    ensures rule { rule_of result ≡ record (rule_of argument.entry) { parser = Some (parser.Unsigned 0 most) } }
    ensures local { result.global ≡ argument.entry.global }
{
    argument.value_parser(ValueParser::Unsigned(0, most))
}

/// What the word is to the parser.
fn argument<'a>(alloc: Global, word: Word<'a>) -> Arg<'a>
    ensures rule { rule_of result ≡ word_rule word.entry }
    ensures local { result.global ≡ false }
{
    match word {
        Word::Place(id) => place(alloc, id),
        Word::Option(id) => option(alloc, id),
        Word::OptionWith(id, value) => option_with(alloc, id, value),
        Word::Flag(id) => flag(alloc, id),
        Word::Conflicts => counted(option_with(alloc, "conflicts", "20000"), 200_000),
        Word::Cycles => counted(option(alloc, "cycles"), 1_000),
        Word::Number => counted(place(alloc, "n"), u64::MAX),
    }
}

/// The command with an argument more.
fn with_word<'a>(
    alloc: Global,
    command: Command<'a>,
    word: Word<'a>,
) -> Result<Command<'a>, AllocError>
    requires local { (out-Command command).has_globals ≡ false }
    ensures { IfOk result (λ c. (app_of c ≡ with_rule (app_of command.entry) (word_rule word.entry)) × ((out-Command c).has_globals ≡ false)) }
{
    command.arg(argument(alloc, word))
}

/// The subcommand with its words.
fn subcommand_with_words<'a>(alloc: Global, which: Subcommand) -> Result<Command<'a>, AllocError>
    ensures { IfOk result (λ c. (app_of c ≡ app_of_subcommand which) × ((out-Command c).has_globals ≡ false)) }
{
    let (name, words) = words_of(which);
    let mut command = Command::new(alloc, name);
    for word in words {
        command = with_word(alloc, command, *word)?;
    }
    Ok(command)
}

fn top_command<'a>(alloc: Global) -> Command<'a>
    ensures app { app_of result ≡ top_app }
{
    Command::new(alloc, "sec")
        .no_binary_name(true)
        .subcommand_required(true)
}

/// The command with a subcommand more.
fn add_subcommand<'a>(
    alloc: Global,
    command: Command<'a>,
    which: Subcommand,
) -> Result<Command<'a>, AllocError>
    ensures { IfOk result (λ c. app_of c ≡ with_subcommand (app_of command.entry) (app_of_subcommand which).top) }
{
    match subcommand_with_words(alloc, which) {
        Ok(subcommand) => command.subcommand(subcommand),
        Err(error) => Err(error),
    }
}

/// The command `sec` with its subcommands.
pub fn sec_command<'a>(alloc: Global) -> Result<Command<'a>, AllocError>
    ensures { IfOk result (λ c. app_of c ≡ sec_app) }
{
    let mut command = top_command(alloc);
    for which in SUBCOMMANDS {
        command = add_subcommand(alloc, command, which)?;
    }
    Ok(command)
}
