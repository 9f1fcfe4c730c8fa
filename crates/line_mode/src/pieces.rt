//! The replies to a long input, whose pieces are replied to at once.
ghost use Rattle.std.specs.Prelude.{◌≡◌, ◌≤◌, ◌∷◌, ◌++◌, ℕ, List, [], IfOk, IfSome, length, take, drop};
ghost use denote.Param.Send.{IsSync};
ghost use Rattle.line_mode.specs.LineMode.{input_limit};
ghost use Rattle.line_mode.specs.Replies.{Answers, IsCut};

use crate::replies::{Replies, reply_to_lines};
use crate::scanning::find_byte;
use std::alloc::{AllocError, Global};
use std::thread::{Threads, join};

/// The least bytes of an input that is cut: of fewer, a piece isn't worth a thread.
const LEAST_CUT_BYTES: usize = 262_144;

/// How often a piece is cut in two: there are at most four.
const MOST_CUTS: u8 = 2;

/// The replies to the lines of an input: those of a long one in up to four pieces, each in a thread of its own. Where no thread can be
/// started the pieces follow one another.
pub(crate) fn reply_in_pieces<R: Threads + Sync>(
    rt: &R,
    alloc: Global,
    input: &[u8],
) -> Result<Replies, AllocError>
    requires { length input.now ≤ input_limit }
    ensures { IfOk result (Answers input.now) }
{
    reply_in_halves(rt, alloc, input, MOST_CUTS)
}

/// The replies to a piece of an input, which is cut in two, and each half again, until it was cut so often or isn't long.
#[cycle(halves)]
fn reply_in_halves<R: Threads + Sync>(
    rt: &R,
    alloc: Global,
    input: &[u8],
    cuts: u8,
) -> Result<Replies, AllocError>
    requires { length input.now ≤ input_limit }
    ensures { IfOk result (Answers input.now) }
{
    if cuts == 0 {
        return reply_to_lines(alloc, input);
    }
    let Some(cut) = cut_of(input) else {
        return reply_to_lines(alloc, input);
    };
    let left = cuts - 1;
    let front = &input[..cut];
    let back = &input[cut..];
    let (first, second) = join(
        rt,
        || -> Result<Replies, AllocError>
            requires { IsSync R.row × (length front.now ≤ input_limit) }
            ensures { IfOk result (Answers front.entry.now) }
        { reply_in_halves(rt, alloc, front, left) },
        || -> Result<Replies, AllocError>
            requires { IsSync R.row × (length back.now ≤ input_limit) }
            ensures { IfOk result (Answers back.entry.now) }
        { reply_in_halves(rt, alloc, back, left) },
    );
    let mut replies = first?;
    replies.append(&second?)?;
    Ok(replies)
}

/// Where an input is cut in two, which is after a line feed, if it is long.
fn cut_of(input: &[u8]) -> Option<usize>
    ensures { IfSome result (IsCut input.now) }
{
    if input.len() < LEAST_CUT_BYTES {
        return None;
    }
    let half = input.len() / 2;
    let end = find_byte(&input[half..], b'\n')?;
    Some(half + end + 1)
}
