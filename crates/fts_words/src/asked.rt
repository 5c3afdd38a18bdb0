//! Commands, and what a list of words asks for.
ghost use Rattle.std.specs.Prelude.{◌≡◌};
ghost use Rattle.fts_words.specs.Words.{command_named};

/// What accepted words ask for.
#[derive(Clone, Copy, Debug, PartialEq, Eq)]
pub enum Asked {
    /// One connection on the input and the output.
    Session,
    /// The text of the tables.
    Show,
    /// The large input that this number makes.
    Load {
        number: u64,
    },
    /// Connections on this port, in 1 to 8 lanes, each of which takes so many, 1 to 1,000,000, or as many as come. There is no port where they come at
    /// the socket that the words name.
    Serve {
        port: Option<u16>,
        lanes: u32,
        connections: Option<u32>,
    },
    /// The submission of the input's document to the service of this port, in 1 to 10 tries.
    Submit {
        port: u16,
        tries: u32,
    },
    /// What the service of this port says of a job, in 1 to 10 tries.
    Query {
        port: u16,
        job: u128,
        tries: u32,
    },
    /// The deletions that the input's document names, and those that wait.
    Delete,
    /// The entries of the service of this port, each in 1 to 10 tries.
    Follow {
        port: u16,
        tries: u32,
    },
}

/// A command's name.
#[derive(Clone, Copy, Debug, PartialEq, Eq)]
pub enum Command {
    Session,
    Show,
    Load,
    Serve,
    Submit,
    Query,
    Delete,
    Follow,
}

impl Command {
    /// The command of a name.
    pub fn named(name: &str) -> Option<Command>
        ensures { result ≡ command_named name.now }
    {
        if name == "session" {
            Some(Command::Session)
        } else if name == "show" {
            Some(Command::Show)
        } else if name == "load" {
            Some(Command::Load)
        } else if name == "serve" {
            Some(Command::Serve)
        } else if name == "submit" {
            Some(Command::Submit)
        } else if name == "query" {
            Some(Command::Query)
        } else if name == "delete" {
            Some(Command::Delete)
        } else if name == "follow" {
            Some(Command::Follow)
        } else {
            None
        }
    }
}
