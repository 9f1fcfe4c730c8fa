//! Bytes as hexadecimal digits. The loops over many digits have no branch on one of them, so that they run over several at once.
ghost use Rattle.std.specs.Prelude.{◌≡◌, ◌*◌, ◌%◌, ◌<◌, ◌++◌, length, IfOk, OnOk, Ok, Some, None, unwrap_or, slice_index, if◌then◌else◌};
ghost use Rattle.std.specs.Option.{option_map};
ghost use Rattle.std.specs.Result.{result_ok};
ghost use Rattle.hex.specs.Hex.{decode_of, encode_upper, hex_digit_value, upper_digits};

use std::alloc::AllocError;

/// What no digit is worth.
const NO_DIGIT: u8 = 255;

/// Fewer digits than these are looked up one by one: a loop over many at once is no gain for them.
const FEW_DIGITS: usize = 64;

/// What each byte is worth as a digit.
static DIGIT_VALUES: [u8; 256] = [
    255, 255, 255, 255, 255, 255, 255, 255, 255, 255, 255, 255, 255, 255, 255, 255, 255, 255, 255,
    255, 255, 255, 255, 255, 255, 255, 255, 255, 255, 255, 255, 255, 255, 255, 255, 255, 255, 255,
    255, 255, 255, 255, 255, 255, 255, 255, 255, 255, 0, 1, 2, 3, 4, 5, 6, 7, 8, 9, 255, 255, 255,
    255, 255, 255, 255, 10, 11, 12, 13, 14, 15, 255, 255, 255, 255, 255, 255, 255, 255, 255, 255,
    255, 255, 255, 255, 255, 255, 255, 255, 255, 255, 255, 255, 255, 255, 255, 255, 10, 11, 12, 13,
    14, 15, 255, 255, 255, 255, 255, 255, 255, 255, 255, 255, 255, 255, 255, 255, 255, 255, 255,
    255, 255, 255, 255, 255, 255, 255, 255, 255, 255, 255, 255, 255, 255, 255, 255, 255, 255, 255,
    255, 255, 255, 255, 255, 255, 255, 255, 255, 255, 255, 255, 255, 255, 255, 255, 255, 255, 255,
    255, 255, 255, 255, 255, 255, 255, 255, 255, 255, 255, 255, 255, 255, 255, 255, 255, 255, 255,
    255, 255, 255, 255, 255, 255, 255, 255, 255, 255, 255, 255, 255, 255, 255, 255, 255, 255, 255,
    255, 255, 255, 255, 255, 255, 255, 255, 255, 255, 255, 255, 255, 255, 255, 255, 255, 255, 255,
    255, 255, 255, 255, 255, 255, 255, 255, 255, 255, 255, 255, 255, 255, 255, 255, 255, 255, 255,
    255, 255, 255, 255, 255, 255, 255, 255, 255, 255, 255, 255, 255, 255, 255, 255, 255, 255, 255,
    255, 255, 255,
];

/// The bytes that pairs of digits write, in either case; none where the text is anything else. They are put into the memory of `room`,
/// whatever that holds.
pub(crate) fn decode(mut room: Vec<u8>, text: &[u8]) -> Result<Option<Vec<u8>>, AllocError>
    ensures { IfOk result (λ bytes. option_map (λ v. v.items) bytes ≡ result_ok (decode_of text.now)) }
{
    if text.len() % 2 != 0 {
        return Ok(None);
    }
    room.resize(text.len() / 2, 0)?;
    let are_digits = if text.len() < FEW_DIGITS {
        decode_few_into(text, room.as_mut_slice())
    } else {
        decode_into(text, room.as_mut_slice())
    };
    if are_digits { Ok(Some(room)) } else { Ok(None) }
}

/// Writes the bytes that pairs of digits write, and says whether all are digits.
fn decode_into(text: &[u8], bytes: &mut [u8]) -> bool
    requires { length text.now ≡ 2 * length bytes.old }
    ensures len { length bytes.new ≡ length bytes.old }
    ensures value { result_ok (decode_of text.now) ≡ (if result then Some bytes.new else None) }
{
    let mut greatest = 0u8;
    'pairs: for i in 0..bytes.len() {
        let high = digit_value(text[2 * i]);
        let low = digit_value(text[2 * i + 1]);
        bytes[i] = high.wrapping_mul(16).wrapping_add(low);
        greatest = greatest.max(high).max(low);
    }
    greatest < 16
}

/// Writes the bytes that few pairs of digits write, each digit by the table, and says whether all are digits. The loop gathers the bits
/// of all values, since keeping the greatest of them took a branch for each digit.
fn decode_few_into(text: &[u8], bytes: &mut [u8]) -> bool
    requires { length text.now ≡ 2 * length bytes.old }
    ensures len { length bytes.new ≡ length bytes.old }
    ensures value { result_ok (decode_of text.now) ≡ (if result then Some bytes.new else None) }
{
    let mut seen = 0u8;
    'pairs: for i in 0..bytes.len() {
        let high = table_value(text[2 * i]);
        let low = table_value(text[2 * i + 1]);
        bytes[i] = high.wrapping_mul(16).wrapping_add(low);
        seen |= high | low;
    }
    seen < 16
}

/// What a digit is worth, by the table.
#[inline]
fn table_value(digit: u8) -> u8
    ensures { result ≡ unwrap_or (hex_digit_value digit) 255 }
{
    listed_value(digit)
}

/// What the table has for a byte.
#[inline]
fn listed_value(digit: u8) -> u8
    ensures { result ≡ slice_index DIGIT_VALUES digit }
{
    DIGIT_VALUES[digit as usize]
}

/// What a digit is worth.
#[inline]
fn digit_value(digit: u8) -> u8
    ensures { result ≡ unwrap_or (hex_digit_value digit) 255 }
{
    let decimal = digit.wrapping_sub(b'0');
    let upper = digit.wrapping_sub(b'A');
    let lower = digit.wrapping_sub(b'a');
    let value = if decimal < 10 { decimal } else { NO_DIGIT };
    let value = if upper < 6 { upper + 10 } else { value };
    if lower < 6 { lower + 10 } else { value }
}

/// Adds the digits of bytes, in upper case.
pub(crate) fn append_upper(text: &mut Vec<u8>, bytes: &[u8]) -> Result<(), AllocError>
    ensures { OnOk result (text.new.items ≡ text.old.items ++ encode_upper bytes.now) }
{
    let start = text.len();
    let Some(end) = bytes
        .len()
        .checked_mul(2)
        .and_then(|n| n.checked_add(start))
    else {
        return Err(AllocError);
    };
    text.resize(end, 0)?;
    encode_into(bytes, &mut text[start..]);
    Ok(())
}

/// Writes the digits of bytes into their room, in upper case.
fn encode_into(bytes: &[u8], digits: &mut [u8])
    requires { length digits.old ≡ 2 * length bytes.now }
    ensures { digits.new ≡ encode_upper bytes.now }
{
    'pairs: for i in 0..bytes.len() {
        let byte = bytes[i];
        digits[2 * i] = upper_digit(byte >> 4);
        digits[2 * i + 1] = upper_digit(byte & 0x0f);
    }
}

/// The digit of a number.
#[inline]
fn upper_digit(value: u8) -> u8
    requires { value < 16 }
    ensures { result ≡ slice_index upper_digits value }
{
    let first = if value < 10 { b'0' } else { b'A' - 10 };
    first + value
}
