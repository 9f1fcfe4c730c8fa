//! Lines on standard error and standard output. A name can't end a line or steer the terminal.
ghost use Rattle.std.specs.Prelude.{◌≡◌, false, IfOk, IfSome, OnOk, string_bytes};
ghost use Rattle.std.specs.Char.{is_control};
ghost use Rattle.store_faults.specs.Lines.{AreShown};

use std::alloc::{AllocError, Global};
use std::io;

/// Says a line on standard error. Where that is closed or full the work goes on: its status and its summary say what was done.
pub fn say(rt: &HostRuntime, line: Result<String, AllocError>) -> Result<(), AllocError> {
    let line = escaped(rt.alloc(), line?.as_str())?;
    let _ = eprintln!(rt; "{line}");
    Ok(())
}

/// Writes a line to standard output.
pub fn write(rt: &HostRuntime, line: Result<String, AllocError>) -> io::Result<()> {
    let line = escaped(rt.alloc(), line?.as_str())?;
    println!(rt; "{line}")
}

/// A text with each control character written as `ls -b` does it: `\n`, `\t` and so on, or the octal digits of its bytes.
pub fn escaped(alloc: Global, text: &str) -> Result<String, AllocError>
    ensures { IfOk result (λ line. AreShown (string_bytes line)) }
{
    let mut line = String::new(alloc);
    'letters: for letter in text.chars() {
        push_escaped(&mut line, letter)?;
    }
    Ok(line)
}

/// Appends a character, or what is written for it.
fn push_escaped(line: &mut String, letter: char) -> Result<(), AllocError>
    ensures { OnOk result (AreShown (string_bytes line.old) → AreShown (string_bytes line.new)) }
{
    match short_escape(letter) {
        Some(escape) => append(line, escape),
        None if letter.is_control() => push_octal(line, letter),
        None => push_shown(line, letter),
    }
}

/// Appends a character that is no control character.
fn push_shown(line: &mut String, letter: char) -> Result<(), AllocError>
    requires { is_control letter ≡ false }
    ensures { OnOk result (AreShown (string_bytes line.old) → AreShown (string_bytes line.new)) }
{
    line.push(letter)
}

/// Appends a text without control characters.
fn append(line: &mut String, text: &str) -> Result<(), AllocError>
    requires { AreShown text.now }
    ensures { OnOk result (AreShown (string_bytes line.old) → AreShown (string_bytes line.new)) }
{
    line.push_str(text)
}

/// The short form of a control character, if it has one.
fn short_escape(letter: char) -> Option<&'static str>
    ensures { IfSome result (λ s. AreShown s.now) }
{
    match letter {
        '\n' => Some("\\n"),
        '\r' => Some("\\r"),
        '\t' => Some("\\t"),
        '\x07' => Some("\\a"),
        '\x08' => Some("\\b"),
        '\x0b' => Some("\\v"),
        '\x0c' => Some("\\f"),
        _ => None,
    }
}

/// Appends the octal digits of a character's bytes. A control character is below 256, and has two bytes from 128 on.
fn push_octal(line: &mut String, letter: char) -> Result<(), AllocError>
    ensures { OnOk result (AreShown (string_bytes line.old) → AreShown (string_bytes line.new)) }
{
    let code = letter as u32;
    append(line, before_digits(code))?;
    append(line, digit(code >> 6))?;
    append(line, digit(code >> 3))?;
    append(line, digit(code))
}

/// What is before the three digits of a control character's last byte.
fn before_digits(code: u32) -> &'static str
    ensures { AreShown result.now }
{
    if code >= 128 { "\\302\\" } else { "\\" }
}

/// The last octal digit of a number.
fn digit(number: u32) -> &'static str
    ensures { AreShown result.now }
{
    match number % 8 {
        0 => "0",
        1 => "1",
        2 => "2",
        3 => "3",
        4 => "4",
        5 => "5",
        6 => "6",
        _ => "7",
    }
}
