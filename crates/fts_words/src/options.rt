//! One option of a command, and the options that were given so far, each at most once (`specs/Words.antt`).
//! A value is read as 1 to 20 decimal digits; a number that no `u64` holds is in no range. That of `--job` is read as the text of a UUID,
//! and those of `--socket` and `--log` stay in their words: an option keeps that they are paths, and that they were given.
ghost use Rattle.std.specs.Prelude.{◌≡◌, List, [], ◌∷◌, ◌++◌, Option, Some, None, true, if◌then◌else◌, ◌&&◌, nat_le, length, IfSome, is_some, option_and_then};
ghost use Rattle.std.specs.List.{list_all, list_any};
ghost use Rattle.fts_words.specs.Words.{option_of, given_by, given_to_client, names_job, job_named, names_path, path_named, path_given, begins_plainly, is_no_zero, number_of, numbers_of, is_same_option, asked_with, command_of};

use crate::Asked;
use crate::asked::Command;
use crate::numbers::number_of;
use fts_tables::limits::MAX_LANES;
use uuid::Uuid;

/// How many lanes there are where none are named.
const DEFAULT_LANES: u32 = 4;

/// How many tries there are where none are named.
const DEFAULT_TRIES: u32 = 3;

/// The most tries.
const MAX_TRIES: u64 = 10;

/// The most bytes of a socket's path: the system's address of a socket holds them and a zero.
const MAX_SOCKET_PATH: usize = 107;

/// The most bytes of a log's path.
const MAX_LOG_PATH: usize = 4095;

/// An option that was given, with its number. That of a path has none.
#[derive(Clone, Copy, Debug, PartialEq, Eq)]
pub enum Given {
    Port(u16),
    Lanes(u32),
    Connections(u32),
    Number(u64),
    Tries(u32),
    Job(u128),
    Socket,
    Log,
}

impl Given {
    /// The option of a command by its name and its value; none where the command hasn't it, or its value isn't a number in its range, or no id, or no path.
    pub fn read(command: Command, name: &str, value: &str) -> Option<Given>
        ensures { result ≡ option_of command name.now value.now }
    {
        if is_job(command, name) {
            of_id(value)
        } else if is_path(command, name) {
            of_path(name, value)
        } else {
            of_number(command, name, value)
        }
    }
}

/// Whether a name is that of the option which names a job.
fn is_job(command: Command, name: &str) -> bool
    ensures { result ≡ names_job command name.now }
{
    match command {
        Command::Session | Command::Show | Command::Load | Command::Serve => false,
        Command::Query => name == "--job",
        Command::Submit | Command::Delete | Command::Follow => false,
    }
}

/// Whether a name is that of an option whose value is a path.
fn is_path(command: Command, name: &str) -> bool
    ensures { result ≡ names_path command name.now }
{
    let has_paths = match command {
        Command::Session | Command::Show | Command::Load => false,
        Command::Serve => true,
        Command::Submit | Command::Query | Command::Delete | Command::Follow => false,
    };
    has_paths && (name == "--socket" || name == "--log")
}

/// The option whose value is a path, by its name.
fn of_path(name: &str, value: &str) -> Option<Given>
    ensures { result ≡ path_named name.now value.now }
{
    if name == "--socket" {
        path_given(Given::Socket, MAX_SOCKET_PATH, value)
    } else if name == "--log" {
        path_given(Given::Log, MAX_LOG_PATH, value)
    } else {
        None
    }
}

/// An option, where its value is a path of at most so many bytes.
fn path_given(option: Given, most: usize, value: &str) -> Option<Given>
    ensures { result ≡ path_given option most value.now }
{
    let bytes = value.as_bytes();
    if 1 <= bytes.len() && bytes.len() <= most && begins_plainly(bytes) && has_no_zero(bytes) {
        Some(option)
    } else {
        None
    }
}

/// Whether bytes begin with another than a hyphen.
fn begins_plainly(bytes: &[u8]) -> bool
    ensures { result ≡ begins_plainly bytes.now }
{
    match bytes {
        [] => false,
        [first, ..] => *first != 0x2d,
    }
}

fn has_no_zero(bytes: &[u8]) -> bool
    ensures { result ≡ list_all is_no_zero bytes.now }
{
    bytes.iter().all(|byte| *byte != 0)
}

/// The job whose id a value is the text of.
fn of_id(value: &str) -> Option<Given>
    ensures { result ≡ job_named value.now }
{
    match Uuid::parse_str(value) {
        Ok(id) => Some(Given::Job(id.as_u128())),
        Err(_) => None,
    }
}

/// The option of a command by its name, with a value that is a number.
fn of_number(command: Command, name: &str, value: &str) -> Option<Given>
    ensures { result ≡ option_and_then (given_by command name.now) (number_of value.now) }
{
    match number_of(value) {
        Some(number) => by_name(command, name, number),
        None => None,
    }
}

/// The option of a command by its name, with a number in its range.
fn by_name(command: Command, name: &str, number: u64) -> Option<Given>
    ensures { result ≡ given_by command name.now number }
{
    match command {
        Command::Session | Command::Show | Command::Delete => None,
        Command::Submit | Command::Query | Command::Follow => of_client(name, number),
        Command::Load => {
            if name == "--number" {
                Some(Given::Number(number))
            } else {
                None
            }
        }
        Command::Serve => of_serve(name, number),
    }
}

fn of_serve(name: &str, number: u64) -> Option<Given>
    ensures { result ≡ given_by Command.Serve name.now number }
{
    if name == "--port" {
        if 1 <= number && number <= 65_535 {
            Some(Given::Port(number as u16))
        } else {
            None
        }
    } else if name == "--lanes" {
        if 1 <= number && number <= u64::from(MAX_LANES) {
            Some(Given::Lanes(number as u32))
        } else {
            None
        }
    } else if name == "--connections" {
        if 1 <= number && number <= 1_000_000 {
            Some(Given::Connections(number as u32))
        } else {
            None
        }
    } else {
        None
    }
}

fn of_client(name: &str, number: u64) -> Option<Given>
    ensures { result ≡ given_to_client name.now number }
{
    if name == "--port" {
        if 1 <= number && number <= 65_535 {
            Some(Given::Port(number as u16))
        } else {
            None
        }
    } else if name == "--tries" {
        if 1 <= number && number <= MAX_TRIES {
            Some(Given::Tries(number as u32))
        } else {
            None
        }
    } else {
        None
    }
}

/// A value, where none was given before.
fn first<T: Copy>(given: Option<T>, value: T) -> Option<T>
    ensures { result ≡ (if is_some given then None else Some value) }
{
    match given {
        None => Some(value),
        Some(_) => None,
    }
}

/// The numbers of options, each where it was given, and whether those of paths were.
#[derive(Clone, Copy, Debug, PartialEq, Eq)]
pub struct Numbers {
    pub port: Option<u16>,
    pub lanes: Option<u32>,
    pub connections: Option<u32>,
    pub number: Option<u64>,
    pub tries: Option<u32>,
    pub job: Option<u128>,
    pub socket: bool,
    pub log: bool,
}

impl Numbers {
    /// Those of no option.
    pub const NONE: Numbers = Numbers {
        port: None,
        lanes: None,
        connections: None,
        number: None,
        tries: None,
        job: None,
        socket: false,
        log: false,
    };

    /// With one option more; none where it was given already.
    pub fn with(self, option: Given) -> Option<Numbers>
        ensures { (before : List _) → self ≡ numbers_of before → result ≡ (if list_any (is_same_option option) before then None else Some (numbers_of (before ++ option ∷ []))) }
    {
        match option {
            Given::Port(number) => Some(Numbers {
                port: Some(first(self.port, number)?),
                ..self
            }),
            Given::Lanes(number) => Some(Numbers {
                lanes: Some(first(self.lanes, number)?),
                ..self
            }),
            Given::Connections(number) => Some(Numbers {
                connections: Some(first(self.connections, number)?),
                ..self
            }),
            Given::Number(number) => Some(Numbers {
                number: Some(first(self.number, number)?),
                ..self
            }),
            Given::Tries(number) => Some(Numbers {
                tries: Some(first(self.tries, number)?),
                ..self
            }),
            Given::Job(id) => Some(Numbers {
                job: Some(first(self.job, id)?),
                ..self
            }),
            Given::Socket => self.with_socket(),
            Given::Log => self.with_log(),
        }
    }

    /// With a socket; none where it was given already.
    fn with_socket(self) -> Option<Numbers>
        ensures { result ≡ (if self.socket then None else Some (record self { socket = true })) }
    {
        if self.socket {
            None
        } else {
            Some(Numbers {
                socket: true,
                ..self
            })
        }
    }

    /// With a log; none where it was given already.
    fn with_log(self) -> Option<Numbers>
        ensures { result ≡ (if self.log then None else Some (record self { log = true })) }
    {
        if self.log {
            None
        } else {
            Some(Numbers { log: true, ..self })
        }
    }

    /// What it is to serve with these: connections at a port or at a socket, at one of the two.
    fn served(self) -> Option<Asked>
        ensures asked { result ≡ asked_with Command.Serve self }
        ensures command { IfSome result (λ asked. command_of asked ≡ Command.Serve) }
    {
        if self.port.is_some() == self.socket {
            return None;
        }
        Some(Asked::Serve {
            port: self.port,
            lanes: self.lanes.unwrap_or(DEFAULT_LANES),
            connections: self.connections,
        })
    }

    /// What a command asks for with these.
    pub fn asked(self, command: Command) -> Option<Asked>
        ensures asked { result ≡ asked_with command self }
        ensures command { IfSome result (λ asked. command_of asked ≡ command) }
    {
        match command {
            Command::Session => Some(Asked::Session),
            Command::Show => Some(Asked::Show),
            Command::Load => match self.number {
                Some(number) => Some(Asked::Load { number }),
                None => None,
            },
            Command::Serve => self.served(),
            Command::Submit => match self.port {
                Some(port) => Some(Asked::Submit {
                    port,
                    tries: self.tries.unwrap_or(DEFAULT_TRIES),
                }),
                None => None,
            },
            Command::Query => match (self.port, self.job) {
                (Some(port), Some(job)) => Some(Asked::Query {
                    port,
                    job,
                    tries: self.tries.unwrap_or(DEFAULT_TRIES),
                }),
                (Some(_), None) | (None, _) => None,
            },
            Command::Delete => Some(Asked::Delete),
            Command::Follow => match self.port {
                Some(port) => Some(Asked::Follow {
                    port,
                    tries: self.tries.unwrap_or(DEFAULT_TRIES),
                }),
                None => None,
            },
        }
    }
}
