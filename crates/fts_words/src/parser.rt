//! `clap` takes each accepted list, as a command with subcommands, and gives the values: it refuses none but for want of memory, and what it reads
//! is what the definition says (`specs/CommandLine.antt`).
ghost use Rattle.std.specs.Prelude.{◌≡◌, ◌↔◌, Ok, None, true, false, IfOk, IfSome, map, string_bytes, codes, option_and_then};
ghost use Rattle.clap.specs.Words.{app_of, found_of, rows_of, rule_of, subcommand_rows_of};
ghost use Rattle.fts_words.specs.Words.{asked_in, IsInRange, port_of, lanes_of, connections_of, number_given, tries_of, job_of};
ghost use Rattle.fts_words.specs.CommandLine.{option_rule, bare_command, bare_serve, serve_command, query_command, with_client_options, service_line, command_line, value_in, values_in, asked_by, asked_entered, IsTaken};

use crate::asked::{Asked, Command as Name};
use crate::options::{Given, Numbers};
use crate::reader::read_words;
use clap::error::ErrorKind;
use clap::{Arg, ArgAction, ArgMatches, Command};
use fts_tables::Memory;
use std::alloc::{AllocError, Global};

/// What words ask for, taken by `clap` where they are accepted. `Ok(None)` exactly where they are not, and then no memory is asked for.
pub fn take_words(alloc: Global, words: &[String]) -> Result<Option<Asked>, Memory>
    ensures taken { IfOk result (λ asked. asked ≡ asked_in (map string_bytes words.now)) }
    ensures range { IfSome (asked_in (map string_bytes words.now)) IsInRange }
    ensures refused { (result ≡ Ok None) ↔ (asked_in (map string_bytes words.now) ≡ None) }
{
    match read_words(words) {
        None => Ok(None),
        Some(_) => match by_clap(alloc, words) {
            Ok(given) => Ok(given),
            Err(ErrorKind::OutOfMemory) => Err(Memory),
            // No accepted list is refused.
            Err(_) => unreachable!(),
        },
    }
}

/// The command line.
fn command_line<'a>(alloc: Global) -> Result<Command<'a>, AllocError>
    ensures { IfOk result (λ line. app_of line ≡ command_line) }
{
    service_line(alloc)?
        .subcommand(with_client_options(alloc, bare_command(alloc, "submit"))?)?
        .subcommand(query(alloc)?)?
        .subcommand(bare_command(alloc, "delete"))?
        .subcommand(with_client_options(alloc, bare_command(alloc, "follow"))?)
}

/// The command line with the commands of a service.
fn service_line<'a>(alloc: Global) -> Result<Command<'a>, AllocError>
    ensures { IfOk result (λ line. app_of line ≡ service_line) }
{
    Command::new(alloc, "fts")
        .no_binary_name(true)
        .disable_help_flag(true)
        .disable_help_subcommand(true)
        .subcommand(bare_command(alloc, "session"))?
        .subcommand(bare_command(alloc, "show"))?
        .subcommand(bare_command(alloc, "load").arg(option(alloc, "number"))?)?
        .subcommand(serve(alloc)?)
}

/// A command without options.
fn bare_command<'a>(alloc: Global, name: &'a str) -> Command<'a>
    ensures { app_of result ≡ bare_command name.now }
{
    Command::new(alloc, name).disable_help_flag(true)
}

/// The command that serves, with the options of numbers.
fn bare_serve<'a>(alloc: Global) -> Result<Command<'a>, AllocError>
    ensures { IfOk result (λ serve. app_of serve ≡ bare_serve) }
{
    bare_command(alloc, "serve")
        .arg(option(alloc, "port"))?
        .arg(option(alloc, "lanes"))?
        .arg(option(alloc, "connections"))
}

/// The command that serves, with the options of paths behind the others.
fn serve<'a>(alloc: Global) -> Result<Command<'a>, AllocError>
    ensures { IfOk result (λ serve. app_of serve ≡ serve_command) }
{
    bare_serve(alloc)?
        .arg(option(alloc, "socket"))?
        .arg(option(alloc, "log"))
}

fn query<'a>(alloc: Global) -> Result<Command<'a>, AllocError>
    ensures { IfOk result (λ query. app_of query ≡ query_command) }
{
    let bare = bare_command(alloc, "query").arg(option(alloc, "job"))?;
    with_client_options(alloc, bare)
}

/// A client's options behind those that a command has.
fn with_client_options<'a>(alloc: Global, command: Command<'a>) -> Result<Command<'a>, AllocError>
    ensures { IfOk result (λ client. app_of client ≡ with_client_options (app_of command.entry)) }
{
    command
        .arg(option(alloc, "port"))?
        .arg(option(alloc, "tries"))
}

/// An option that takes one value.
fn option<'a>(alloc: Global, name: &'a str) -> Arg<'a>
    ensures rule { rule_of result ≡ option_rule name.now }
    ensures local { result.global ≡ false }
{
    Arg::new(alloc, name).long(name).action(ArgAction::Set)
}

/// What words ask for, as `clap` reads them, or why it refuses them.
pub(crate) fn by_clap(alloc: Global, words: &[String]) -> Result<Option<Asked>, ErrorKind>
    ensures { IsTaken (asked_by (map string_bytes words.now)) result }
{
    let command = match command_line(alloc) {
        Ok(command) => command,
        Err(AllocError) => return Err(ErrorKind::OutOfMemory),
    };
    match command.try_get_matches_from(words) {
        Ok(matches) => Ok(asked_entered(&matches)),
        Err(error) => Err(error.kind()),
    }
}

/// What the subcommand that was entered asks for.
fn asked_entered(matches: &ArgMatches<'_>) -> Option<Asked>
    ensures { result ≡ asked_entered (subcommand_rows_of matches.now) }
{
    let (name, values) = matches.subcommand()?;
    let command = Name::named(name)?;
    values_in(command, values).asked(command)
}

/// The numbers of the options that a command was given, and whether it was given paths.
fn values_in(command: Name, values: &ArgMatches<'_>) -> Numbers
    ensures { result ≡ values_in command (rows_of (found_of values.now)) }
{
    Numbers {
        port: port_in(command, values),
        lanes: lanes_in(command, values),
        connections: connections_in(command, values),
        number: number_in(command, values),
        tries: tries_in(command, values),
        job: job_in(command, values),
        socket: value_in(command, "socket", "--socket", values).is_some(),
        log: value_in(command, "log", "--log", values).is_some(),
    }
}

fn port_in(command: Name, values: &ArgMatches<'_>) -> Option<u16>
    ensures { result ≡ option_and_then port_of (value_in command (codes "port") (codes "--port") (rows_of (found_of values.now))) }
{
    match value_in(command, "port", "--port", values) {
        Some(Given::Port(number)) => Some(number),
        Some(_) | None => None,
    }
}

fn lanes_in(command: Name, values: &ArgMatches<'_>) -> Option<u32>
    ensures { result ≡ option_and_then lanes_of (value_in command (codes "lanes") (codes "--lanes") (rows_of (found_of values.now))) }
{
    match value_in(command, "lanes", "--lanes", values) {
        Some(Given::Lanes(number)) => Some(number),
        Some(_) | None => None,
    }
}

fn connections_in(command: Name, values: &ArgMatches<'_>) -> Option<u32>
    ensures { result ≡ option_and_then connections_of (value_in command (codes "connections") (codes "--connections") (rows_of (found_of values.now))) }
{
    match value_in(command, "connections", "--connections", values) {
        Some(Given::Connections(number)) => Some(number),
        Some(_) | None => None,
    }
}

fn number_in(command: Name, values: &ArgMatches<'_>) -> Option<u64>
    ensures { result ≡ option_and_then number_given (value_in command (codes "number") (codes "--number") (rows_of (found_of values.now))) }
{
    match value_in(command, "number", "--number", values) {
        Some(Given::Number(number)) => Some(number),
        Some(_) | None => None,
    }
}

fn tries_in(command: Name, values: &ArgMatches<'_>) -> Option<u32>
    ensures { result ≡ option_and_then tries_of (value_in command (codes "tries") (codes "--tries") (rows_of (found_of values.now))) }
{
    match value_in(command, "tries", "--tries", values) {
        Some(Given::Tries(number)) => Some(number),
        Some(_) | None => None,
    }
}

fn job_in(command: Name, values: &ArgMatches<'_>) -> Option<u128>
    ensures { result ≡ option_and_then job_of (value_in command (codes "job") (codes "--job") (rows_of (found_of values.now))) }
{
    match value_in(command, "job", "--job", values) {
        Some(Given::Job(id)) => Some(id),
        Some(_) | None => None,
    }
}

/// The option of a command that was given under an id, which its words name so.
fn value_in(command: Name, id: &str, name: &str, values: &ArgMatches<'_>) -> Option<Given>
    ensures { result ≡ value_in command id.now name.now (rows_of (found_of values.now)) }
{
    match values.get_str(id) {
        Some(value) => Given::read(command, name, value),
        None => None,
    }
}
