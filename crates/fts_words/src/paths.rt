//! The paths that accepted words name, as texts of those words. They take no memory.
//! Order: `read_words` decides whether words are accepted; then the first value behind the option's name is the path, and there is no second.
ghost use Rattle.std.specs.Prelude.{◌≡◌, None, Some, map, string_bytes, codes, IfSome, is_some};
ghost use Rattle.std.specs.Option.{option_copied};
ghost use Rattle.fts_words.specs.Words.{asked_in, socket_in, log_in, accepted_value, value_behind, IsServedAt};

use crate::reader::read_words;

/// The path of the socket that accepted words name, 1 to 107 bytes. None where they name none, or are not accepted.
pub fn socket_of(words: &[String]) -> Option<&str>
    ensures path { option_copied result ≡ socket_in (map string_bytes words.now) }
    ensures port { IfSome (asked_in (map string_bytes words.now)) (IsServedAt (is_some result)) }
{
    accepted_value(words, "--socket")
}

/// The path of the log that accepted words name, 1 to 4095 bytes. None where they name none, or are not accepted.
pub fn log_of(words: &[String]) -> Option<&str>
    ensures { option_copied result ≡ log_in (map string_bytes words.now) }
{
    accepted_value(words, "--log")
}

fn accepted_value<'a>(words: &'a [String], wanted: &str) -> Option<&'a str>
    ensures { option_copied result ≡ accepted_value wanted.now (map string_bytes words.now) }
{
    match read_words(words) {
        None => None,
        Some(_) => match words {
            [] => None,
            [_, options @ ..] => value_behind(options, wanted),
        },
    }
}

/// The first value that words have for an option, by its name.
fn value_behind<'a>(words: &'a [String], wanted: &str) -> Option<&'a str>
    ensures { option_copied result ≡ value_behind wanted.now None (map string_bytes words.now) }
{
    // A name whose value comes next.
    let mut waiting: Option<&str> = None;
    for word in words {
        let text = word.as_str();
        match waiting {
            Some(name) => {
                if name == wanted {
                    return Some(text);
                }
                waiting = None;
            }
            None => match text.split_once('=') {
                Some((name, value)) => {
                    if name == wanted {
                        return Some(value);
                    }
                }
                None => waiting = Some(text),
            },
        }
    }
    None
}
