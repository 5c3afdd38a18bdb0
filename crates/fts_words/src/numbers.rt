//! A number on a command line: a value of 1 to 20 decimal digits.
ghost use Rattle.std.specs.Prelude.{◌≡◌, ◌<◌, None, Some, IfSome};
ghost use Rattle.std.specs.List.{list_all};
ghost use Rattle.fts_tables.specs.Names.{is_digit};
ghost use Rattle.fts_words.specs.Words.{number_of};

/// The most decimal digits of a value.
const MAX_DIGITS: usize = 20;

/// The number that a value is. None where it isn't 1 to 20 decimal digits, and where no `u64` holds its number.
pub fn number_of(value: &str) -> Option<u64>
    ensures number { IfSome result (λ number. number_of value.now ≡ Some number) }
    ensures none { result ≡ None → IfSome (number_of value.now) (λ number. u64.MAX < number) }
{
    let bytes = value.as_bytes();
    if bytes.is_empty() || bytes.len() > MAX_DIGITS || !are_digits(bytes) {
        return None;
    }
    match value.parse() {
        Ok(number) => Some(number),
        Err(_) => None,
    }
}

fn are_digits(bytes: &[u8]) -> bool
    ensures { result ≡ list_all is_digit bytes.now }
{
    bytes.iter().all(|byte| 0x30 <= *byte && *byte <= 0x39)
}
