//! An input, cut into its lines.
ghost use Rattle.std.specs.Prelude.{◌≡◌};
ghost use Rattle.std.specs.Str.Lines.{strip_carriage_return};

use crate::scanning::find_byte;

/// The lines of an input: it is cut at each line feed, and one carriage return before a line feed is dropped. A
/// last line without a line feed counts where it isn't empty.
#[derive(Drop)]
pub(crate) struct Lines<'a> {
    rest: &'a [u8],
}

impl<'a> Lines<'a> {
    /// All lines of the input.
    pub(crate) fn new(input: &'a [u8]) -> Lines<'a>
        ensures { result.rest.now ≡ input.now }
    {
        Lines { rest: input }
    }
}

impl<'a> Iterator for Lines<'a> {
    ghost use Rattle.std.specs.Prelude.{length};
    ghost use Rattle.std.specs.Iterator.{YieldsFirstBy, at_most};
    ghost use Rattle.std.specs.Str.Lines.{lines};

    type Item = &'a [u8];

    ghost next_gives = { YieldsFirstBy (λ line. line.now) (λ s. lines s.rest.now) };

    ghost remaining = { λ s. at_most (length s.rest.now) };

    fn next(&mut self) -> Option<&'a [u8]> {
        let rest = self.rest;
        match find_byte(rest, b'\n') {
            Some(end) => {
                self.rest = &rest[end + 1..];
                Some(without_return(&rest[..end]))
            }
            None if rest.is_empty() => None,
            None => {
                self.rest = &[];
                Some(rest)
            }
        }
    }
}

/// A line without the carriage return at its end, if it has one.
fn without_return(line: &[u8]) -> &[u8]
    ensures { result.now ≡ strip_carriage_return line.now }
{
    match line {
        [front @ .., b'\r'] => front,
        _ => line,
    }
}
