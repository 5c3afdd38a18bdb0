//! Of `fts_words`: that the definition means what the rows of `words_cases` say, and that `clap` takes a list of every shape that is accepted, with the same
//! values; and which paths they name.
use super::checks::{check, must};
use super::words_cases::{LENGTHS, NO_PATHS, OPTIONS, PATHS, WORDS};
use fts_words::{Asked, log_of, read_words, socket_of, take_words};
use std::alloc::{AllocError, Global};

/// The words of a text with single spaces between them.
fn words_of(alloc: Global, text: &str) -> Result<Vec<String>, AllocError> {
    let mut words = Vec::new(alloc);
    for word in text.split(' ') {
        words.push(String::from_str(alloc, word)?)?;
    }
    Ok(words)
}

#[test]
fn words_ask_for_what_their_row_says(rt: HostRuntime) {
    check(&rt, take_words(rt.alloc(), &[]) == Ok(None), "no words");
    for (text, asked) in WORDS {
        let words = must(&rt, words_of(rt.alloc(), text), text);
        let is_asked = take_words(rt.alloc(), words.as_slice()) == Ok(*asked);
        check(&rt, is_asked, text);
    }
}

/// Whether words ask for this, and `clap` takes them where they are accepted, with the same values.
fn are_read(alloc: Global, words: &[String], asked: Option<Asked>) -> bool {
    read_words(words) == asked && take_words(alloc, words) == Ok(asked)
}

#[test]
fn clap_takes_options_of_every_shape(rt: HostRuntime) {
    for (text, asked) in OPTIONS {
        let words = must(&rt, words_of(rt.alloc(), text), text);
        check(&rt, are_read(rt.alloc(), words.as_slice(), *asked), text);
    }
}

#[test]
fn accepted_words_name_their_paths(rt: HostRuntime) {
    for (text, asked, socket, log) in PATHS {
        let words = must(&rt, words_of(rt.alloc(), text), text);
        check(&rt, are_read(rt.alloc(), words.as_slice(), *asked), text);
        check(&rt, socket_of(words.as_slice()) == *socket, text);
        check(&rt, log_of(words.as_slice()) == *log, text);
    }
}

#[test]
fn words_that_are_not_accepted_name_no_path(rt: HostRuntime) {
    for text in NO_PATHS {
        let words = must(&rt, words_of(rt.alloc(), text), text);
        check(&rt, are_read(rt.alloc(), words.as_slice(), None), text);
        check(&rt, socket_of(words.as_slice()) == None, text);
        check(&rt, log_of(words.as_slice()) == None, text);
    }
}

/// The words of a service whose last option is a path of so many bytes.
fn words_with_path(alloc: Global, options: &str, length: usize) -> Result<Vec<String>, AllocError> {
    let mut text = String::new(alloc);
    text.push_str("serve ")?;
    text.push_str(options)?;
    for _ in 0..length {
        text.push('p')?;
    }
    words_of(alloc, text.as_str())
}

#[test]
fn a_path_has_at_most_so_many_bytes(rt: HostRuntime) {
    for (options, length, is_accepted) in LENGTHS {
        let words = must(&rt, words_with_path(rt.alloc(), options, *length), options);
        let is_asked = take_words(rt.alloc(), words.as_slice()).is_ok_and(|asked| asked.is_some()
            == *is_accepted);
        check(&rt, is_asked, options);
    }
}
