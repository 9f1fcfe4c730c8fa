//! What the system says of what it refused, without the number that is put after its words.
use std::alloc::{AllocError, Global};
use std::io;

/// The words of an error.
pub fn words_of(alloc: Global, error: &io::Error) -> Result<String, AllocError> {
    let text = format!(in alloc; "{error}")?;
    String::from_str(alloc, without_number(text.as_str()))
}

/// A text without the number of an error at its end, as ` (os error 2)`.
pub fn without_number(text: &str) -> &str {
    let Some(inner) = text.strip_suffix(')') else {
        return text;
    };
    match inner.rsplit_once(" (os error ") {
        Some((words, number)) if number.parse::<u32>().is_ok() => words,
        _ => text,
    }
}
