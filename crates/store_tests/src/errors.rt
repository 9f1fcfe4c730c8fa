//! What is said of errors that no system has. gate/store-results.py gives words of some, and tests what is shown.
use std::io::{self, Read};
use std::process::Abort;
use std::str;
use store_faults::words_of;

/// Shows what is said of an error of these words.
fn show_words(rt: &(impl Abort + AllocGlobal + Print), words: &str) {
    let said = words_of(rt.alloc(), &io::Error::other(words)).expect(rt, "words");
    let _ = println!(rt; "{said}");
}

/// Shows it for each line of standard input.
#[test]
fn words_of_errors(rt: HostRuntime) {
    let mut bytes = Vec::new(rt.alloc());
    rt.stdin()
        .read_to_end(&mut bytes)
        .expect(&rt, "standard input");
    for words in str::from_utf8(&bytes).unwrap_or("").lines() {
        show_words(&rt, words);
    }
}
