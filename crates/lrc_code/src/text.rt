//! Numbers of requests as they are written.
ghost use Rattle.std.specs.Prelude.{◌≡◌, ◌≤◌, length, true};
ghost use Rattle.std.specs.List.{list_all};
ghost use Rattle.std.specs.Str.Parse.{digits_value};
ghost use Rattle.lrc_code.specs.Text.{is_digit, number};

/// A number has at most so many digits.
const MOST_DIGITS: usize = 7;

/// The number that one to seven decimal digits write; leading zeros are allowed, a sign is not.
pub fn parse_number(text: &[u8]) -> Option<u32>
    ensures { result ≡ number text.now }
{
    if are_digits(text) && !text.is_empty() && text.len() <= MOST_DIGITS {
        Some(value_of(text))
    } else {
        None
    }
}

/// Whether all of these bytes are decimal digits.
fn are_digits(text: &[u8]) -> bool
    ensures { result ≡ list_all is_digit text.now }
{
    text.iter().all(|b| b'0' <= *b && *b <= b'9')
}

/// The value of at most seven digits.
fn value_of(digits: &[u8]) -> u32
    requires digits { list_all is_digit digits.now ≡ true }
    requires short { length digits.now ≤ 7 }
    ensures { result ≡ digits_value 10 digits.now }
{
    let mut value = 0u32;
    for digit in digits {
        value = value * 10 + (*digit - b'0') as u32;
    }
    value
}
