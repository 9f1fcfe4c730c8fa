//! The words of a line.
ghost use Rattle.std.specs.Prelude.{◌≡◌, ◌==◌, not, position};

use crate::scanning::find_byte;

/// The words of a line, which are between spaces.
#[derive(Drop)]
pub(crate) struct LineWords<'a> {
    rest: &'a [u8],
}

impl<'a> LineWords<'a> {
    /// All words of the line.
    pub(crate) fn new(line: &'a [u8]) -> LineWords<'a>
        ensures { result.rest.now ≡ line.now }
    {
        LineWords { rest: line }
    }
}

impl<'a> Iterator for LineWords<'a> {
    ghost use Rattle.std.specs.Prelude.{length};
    ghost use Rattle.std.specs.Iterator.{YieldsFirstBy, at_most};
    ghost use Rattle.line_mode.specs.Line.{words};

    type Item = &'a [u8];

    ghost next_gives = { YieldsFirstBy (λ word. word.now) (λ s. words s.rest.now) };

    ghost remaining = { λ s. at_most (length s.rest.now) };

    fn next(&mut self) -> Option<&'a [u8]> {
        let Some(start) = find_other(self.rest, b' ') else {
            self.rest = &[];
            return None;
        };
        let word = &self.rest[start..];
        let end = find_byte(word, b' ').unwrap_or(word.len());
        self.rest = &word[end..];
        Some(&word[..end])
    }
}

/// The first index of another byte.
fn find_other(bytes: &[u8], byte: u8) -> Option<usize>
    ensures { result ≡ position (λ b. not (b == byte)) bytes.now }
{
    bytes.iter().position(|b| *b != byte)
}
