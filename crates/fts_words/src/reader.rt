//! Which lists of words are accepted, and what they ask for. It takes no memory.
ghost use Rattle.std.specs.Prelude.{◌≡◌, map, string_bytes, IfSome};
ghost use Rattle.fts_words.specs.Words.{asked_in, asked_of, command_of, IsInRange};

use crate::Asked;
use crate::asked::Command;
use crate::options::{Given, Numbers};

/// What words ask for. `None` exactly where they are not accepted.
#[tactic(auto, using(crate::proofs::Ranges::asked_in_range))]
pub fn read_words(words: &[String]) -> Option<Asked>
    ensures asked { result ≡ asked_in (map string_bytes words.now) }
    ensures range { IfSome (asked_in (map string_bytes words.now)) IsInRange }
{
    match words {
        [] => None,
        [name, options @ ..] => match Command::named(name.as_str()) {
            Some(command) => read_options(command, options),
            None => None,
        },
    }
}

/// What a command asks for with these words behind its name.
pub(crate) fn read_options(command: Command, words: &[String]) -> Option<Asked>
    ensures asked { result ≡ asked_of command (map string_bytes words.now) }
    ensures command { IfSome result (λ asked. command_of asked ≡ command) }
{
    let mut numbers = Numbers::NONE;
    // A name whose value comes next.
    let mut waiting: Option<&str> = None;
    'words: for word in words {
        let text = word.as_str();
        let option = match waiting {
            Some(name) => Given::read(command, name, text)?,
            None => match text.split_once('=') {
                Some((name, value)) => Given::read(command, name, value)?,
                None => {
                    waiting = Some(text);
                    continue 'words;
                }
            },
        };
        waiting = None;
        numbers = numbers.with(option)?;
    }
    match waiting {
        Some(_) => None,
        None => numbers.asked(command),
    }
}
