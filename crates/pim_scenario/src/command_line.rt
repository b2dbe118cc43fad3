//! The command line: `pimlab run FILE [--wire memory|udp] [--tables] [--tables-each] [--from ROUTER=FILE ..]
//! [--save ROUTER=FILE ..]` and `pimlab check FILE`.
ghost use Rattle.std.specs.Prelude.{◌≡◌, ◌≢◌, [], map, option_map, None, IfOk, IfErr, false};
ghost use Rattle.clap.specs.Words.{app_of, fault_of, rule_of, subcommand_rows_of, HasKind, Kinds};
ghost use Rattle.clap.specs.Words.{first_of, found_of, new_app, rows_of, with_rule, with_subcommand};
ghost use Rattle.clap.specs.declared.builder.command.Command.TheViews.{out-Command};
ghost use Rattle.pim_scenario.specs.CommandLine.{pimlab_app, top_app, run_app, check_app, file_rule, from_rule, save_rule, shown_app, wire_rule, tables_rule, tables_each_rule};
ghost use Rattle.pim_scenario.specs.CommandLine.{words_in, meaning_in, meaning_of, meant_by, meant_in, CanAnswer};
ghost use Rattle.pim_scenario.specs.CommandLine.{all_values, command_named, wire_named, is_set};

use clap::error::ErrorKind;
use clap::{Arg, ArgAction, ArgMatches};
use pim_types::Fault;
use std::alloc::{AllocError, Global};

/// What is to be done with the scenario.
#[derive(Clone, Copy)]
pub enum Command {
    /// `run`: the scenario's moves are done, and their outcomes are printed.
    Run,
    /// `check`: the scenario is read, and its routers are made.
    Check,
}

/// What carries the frames between the routers.
#[derive(Clone, Copy, PartialEq, Eq)]
pub enum WireKind {
    Memory,
    /// Sockets on the loopback address.
    Udp,
}

/// Which tables are printed.
#[derive(Clone, Copy)]
pub struct Tables {
    /// `--tables-each`: the tables of the router that answered, after each answer and its packets.
    pub after_each: bool,
    /// `--tables`: the tables of all routers, after the last move.
    pub at_end: bool,
}

/// The words of a command line that was accepted.
#[derive(Drop)]
pub struct Words<'a> {
    pub command: Command,
    /// The scenario's file; `-` is standard input.
    pub file: &'a str,
    pub wire: WireKind,
    pub tables: Tables,
    /// The routers that begin in a saved state, each with the state's file: `ROUTER=FILE`.
    pub from: Vec<&'a str>,
    /// The routers whose states are saved at the end, each with the state's file: `ROUTER=FILE`.
    pub save: Vec<&'a str>,
}

/// What a command line means.
#[derive(Drop)]
pub enum Answer<'a> {
    Accepted(Words<'a>),
    /// The command line has a mistake.
    Refused,
    /// The command line asks for help: the text to print.
    Help(String),
}

/// Reads the words of a command line, of which the first is the program's name: they mean what clap's
/// rules for a simple command make of them. The only fault is want of memory.
pub fn read_words<'a>(alloc: Global, words: &'a [&'a str]) -> Result<Answer<'a>, Fault>
    ensures accepted { IfOk result (λ a. words_in a ≡ meaning_of (map (λ w. w.now) words.entry.now)) }
    ensures kinds { IfOk result (λ a. CanAnswer a
        (fault_of pimlab_app (map (λ w. w.now) words.entry.now))) }
    ensures memory { IfErr result (λ e. e ≡ Fault.Memory) }
{
    let command = pimlab_command(alloc)?;
    match command.try_get_matches_from(words) {
        Ok(matches) => accepted(alloc, &matches),
        Err(error) => unaccepted(alloc, &error),
    }
}

/// The whole command line.
fn pimlab_command<'a>(alloc: Global) -> Result<clap::Command<'a>, AllocError>
    ensures { IfOk result (λ c. app_of c ≡ pimlab_app) }
{
    let check = check_command(alloc)?;
    command_with_run(alloc)?.subcommand(check)
}

/// The command line with its first subcommand only.
fn command_with_run<'a>(alloc: Global) -> Result<clap::Command<'a>, AllocError>
    ensures { IfOk result (λ c. app_of c ≡ with_subcommand top_app run_app.top) }
{
    let run = run_command(alloc)?;
    clap::Command::new(alloc, "pimlab")
        .about("Runs the multicast routers of a scenario")
        .subcommand_required(true)
        .subcommand(run)
}

fn run_command<'a>(alloc: Global) -> Result<clap::Command<'a>, AllocError>
    ensures app { IfOk result (λ c. app_of c ≡ run_app) }
    ensures local { IfOk result (λ c. (out-Command c).has_globals ≡ false) }
{
    shown_command(alloc)?
        .arg(from_argument(alloc))?
        .arg(save_argument(alloc))
}

/// The command `run`, with what it shows.
fn shown_command<'a>(alloc: Global) -> Result<clap::Command<'a>, AllocError>
    ensures app { IfOk result (λ c. app_of c ≡ shown_app) }
    ensures local { IfOk result (λ c. (out-Command c).has_globals ≡ false) }
{
    file_command(
        alloc,
        "run",
        "Does the moves of a scenario and prints what they bring",
    )?
    .arg(wire_argument(alloc))?
    .arg(tables_argument(alloc))?
    .arg(tables_each_argument(alloc))
}

fn check_command<'a>(alloc: Global) -> Result<clap::Command<'a>, AllocError>
    ensures app { IfOk result (λ c. app_of c ≡ check_app) }
    ensures local { IfOk result (λ c. (out-Command c).has_globals ≡ false) }
{
    file_command(alloc, "check", "Reads a scenario and makes its routers")
}

/// A command with a scenario's file.
fn file_command<'a>(
    alloc: Global,
    name: &'a str,
    about: &'a str,
) -> Result<clap::Command<'a>, AllocError>
    ensures app { IfOk result (λ c. app_of c ≡ with_rule (new_app name.now) file_rule) }
    ensures local { IfOk result (λ c. (out-Command c).has_globals ≡ false) }
{
    clap::Command::new(alloc, name)
        .about(about)
        .arg(file_argument(alloc))
}

fn file_argument<'a>(alloc: Global) -> Arg<'a>
    ensures rule { rule_of result ≡ file_rule }
    ensures local { result.global ≡ false }
{
    Arg::new(alloc, "FILE")
        .required(true)
        .help("The scenario; - is standard input")
}

fn wire_argument<'a>(alloc: Global) -> Arg<'a>
    ensures rule { rule_of result ≡ wire_rule }
    ensures local { result.global ≡ false }
{
    Arg::new(alloc, "wire")
        .long("wire")
        .value_name("memory|udp")
        .default_value("memory")
        .help("What carries the frames")
}

fn tables_argument<'a>(alloc: Global) -> Arg<'a>
    ensures rule { rule_of result ≡ tables_rule }
    ensures local { result.global ≡ false }
{
    Arg::new(alloc, "tables")
        .long("tables")
        .action(ArgAction::SetTrue)
        .help("Prints the tables of all routers at the end")
}

fn tables_each_argument<'a>(alloc: Global) -> Arg<'a>
    ensures rule { rule_of result ≡ tables_each_rule }
    ensures local { result.global ≡ false }
{
    Arg::new(alloc, "tables-each")
        .long("tables-each")
        .action(ArgAction::SetTrue)
        .help("Prints after each answer the tables of its router")
}

fn from_argument<'a>(alloc: Global) -> Arg<'a>
    ensures rule { rule_of result ≡ from_rule }
    ensures local { result.global ≡ false }
{
    Arg::new(alloc, "from")
        .long("from")
        .value_name("ROUTER=FILE")
        .action(ArgAction::Append)
        .help("The router begins in the state saved in FILE")
}

fn save_argument<'a>(alloc: Global) -> Arg<'a>
    ensures rule { rule_of result ≡ save_rule }
    ensures local { result.global ≡ false }
{
    Arg::new(alloc, "save")
        .long("save")
        .value_name("ROUTER=FILE")
        .action(ArgAction::Append)
        .help("Saves the router's state in FILE at the end")
}

/// What the matches say. An option's value that clap doesn't judge is refused here. The only fault is want of memory.
fn accepted<'a>(alloc: Global, matches: &ArgMatches<'a>) -> Result<Answer<'a>, Fault>
    ensures meant { IfOk result (λ a. words_in a ≡ meant_by (subcommand_rows_of matches.now)) }
    ensures no_help { IfOk result (λ a. CanAnswer a []) }
    ensures memory { IfErr result (λ e. e ≡ Fault.Memory) }
{
    let Some((name, inner)) = matches.subcommand() else {
        return Ok(Answer::Refused);
    };
    match words_of(alloc, name, inner)? {
        Some(words) => Ok(Answer::Accepted(words)),
        None => Ok(Answer::Refused),
    }
}

fn words_of<'a>(
    alloc: Global,
    name: &str,
    matches: &ArgMatches<'a>,
) -> Result<Option<Words<'a>>, AllocError>
    ensures words { IfOk result (λ words. option_map meaning_in words ≡ meant_in name.now (rows_of (found_of matches.now))) }
{
    let Some(command) = command_named(name) else {
        return Ok(None);
    };
    let Some(wire) = wire_named(value_of(matches, "wire")) else {
        return Ok(None);
    };
    let Some(file) = value_of(matches, "FILE") else {
        return Ok(None);
    };
    let tables = Tables {
        after_each: is_set(matches, "tables-each"),
        at_end: is_set(matches, "tables"),
    };
    Ok(Some(Words {
        command,
        file,
        wire,
        tables,
        from: values_of(alloc, matches, "from")?,
        save: values_of(alloc, matches, "save")?,
    }))
}

/// Whether an option that takes no value is given.
fn is_set(matches: &ArgMatches<'_>, id: &str) -> bool
    ensures { result ≡ is_set id.now (rows_of (found_of matches.now)) }
{
    value_of(matches, id) == Some("true")
}

/// The first value of an argument.
fn value_of<'a>(matches: &ArgMatches<'a>, id: &str) -> Option<&'a str>
    ensures { option_map (λ v. v.now) result ≡ first_of id.now (rows_of (found_of matches.now)) }
{
    matches.get_str(id)
}

/// All values of an argument, in the order in which they are given.
fn values_of<'a>(
    alloc: Global,
    matches: &ArgMatches<'a>,
    id: &str,
) -> Result<Vec<&'a str>, AllocError>
    ensures { IfOk result (λ values. map (λ v. v.now) values.items
        ≡ all_values id.now (rows_of (found_of matches.now))) }
{
    let mut values = Vec::new(alloc);
    let Some(given) = matches.get_strs(id) else {
        return Ok(values);
    };
    values.extend_from_slice(given)?;
    Ok(values)
}

fn command_named(name: &str) -> Option<Command>
    ensures { result ≡ command_named name.now }
{
    match name {
        "run" => Some(Command::Run),
        "check" => Some(Command::Check),
        _ => None,
    }
}

/// The wire that an option names; memory where the command has no such option.
fn wire_named(name: Option<&str>) -> Option<WireKind>
    ensures { result ≡ wire_named (option_map (λ n. n.now) name.entry) }
{
    match name {
        None | Some("memory") => Some(WireKind::Memory),
        Some("udp") => Some(WireKind::Udp),
        Some(_) => None,
    }
}

fn unaccepted<'a>(alloc: Global, error: &clap::Error) -> Result<Answer<'a>, Fault>
    ensures ok { IfOk result (λ a. words_in a ≡ None) }
    ensures kinds { IfOk result (λ a. (kinds : Kinds) → HasKind kinds error.now → (kinds ≢ []) × CanAnswer a kinds) }
    ensures memory { IfErr result (λ e. e ≡ Fault.Memory) }
{
    match error.kind() {
        ErrorKind::OutOfMemory => Err(Fault::Memory),
        ErrorKind::DisplayHelp => Ok(Answer::Help(format!(in alloc; "{error}")?)),
        _ => Ok(Answer::Refused),
    }
}
