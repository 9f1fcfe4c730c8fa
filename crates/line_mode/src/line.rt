//! Line mode: each line of the input is a request for a fragment, and each line of the output the reply to one.
ghost use Rattle.std.specs.Prelude.{◌≡◌, IfOk, IfErr};
ghost use Rattle.std.specs.Io.KnownBytes.{Appends};
ghost use Rattle.line_mode.specs.LineMode.{Explains, Replied, status_of};
ghost use Rattle.line_mode.specs.declared.outcomes.LineFault.TheVariants.{Device};

use crate::input::read_input;
use crate::outcomes::{LineCount, LineFault};
use crate::pieces::reply_in_pieces;
use crate::replies::{Replies, reply_to_lines};
use command_line::{DEVICE, DONE, NO_RESOURCES, REFUSED};
use std::alloc::Global;
use std::io::{Read, Write};
use std::thread::Threads;

/// Replies to each line of the whole input: reads it all, makes the whole text, and then writes it.
///
/// How much of the text a failed write put out isn't said.
///
/// ```rust
/// let mut input = b"a x0 1 x1=02 x2=03 px=00\n".as_slice();
/// let mut output = Vec::new(alloc);
/// let count = line_mode(alloc, &mut input, &mut output)?;
/// assert_eq!(rt; output.as_slice(), b"rebuilt 01\n".as_slice());
/// assert_eq!(rt; count, LineCount { answered: 1, refused: 0 });
/// ```
pub fn line_mode<R: Read, W: Write>(
    alloc: Global,
    input: &mut R,
    output: &mut W,
) -> Result<LineCount, LineFault>
    // All input was read, and what was written is the replies to its lines and nothing else.
    ensures replied { IfOk result (Replied (R.remaining input.old) (R.remaining input.new) (W.contents output.old)
        (W.contents output.new)) }

    // An input too long was read past the limit, and nothing is written before all input was read.
    ensures fault { IfErr result (Explains (R.remaining input.old) (R.remaining input.new) (W.contents output.old)
        (W.contents output.new)) }
{
    let bytes = read_input(alloc, input)?;
    let replies = reply_to_lines(alloc, &bytes)?;
    write_replies(output, &replies)
}

/// Replies to each line of the whole input as `line_mode`. An input of 262,144 bytes or more is replied to in up to four threads; where
/// none can be started, this one makes all replies.
pub fn line_mode_in_threads<T: Threads + Sync, R: Read, W: Write>(
    rt: &T,
    alloc: Global,
    input: &mut R,
    output: &mut W,
) -> Result<LineCount, LineFault>
    ensures replied { IfOk result (Replied (R.remaining input.old) (R.remaining input.new) (W.contents output.old)
        (W.contents output.new)) }
    ensures fault { IfErr result (Explains (R.remaining input.old) (R.remaining input.new) (W.contents output.old)
        (W.contents output.new)) }
{
    let bytes = read_input(alloc, input)?;
    let replies = reply_in_pieces(rt, alloc, &bytes)?;
    write_replies(output, &replies)
}

/// Writes the text of replies, and gives their counts.
fn write_replies<W: Write>(output: &mut W, replies: &Replies) -> Result<LineCount, LineFault>
    ensures written { IfOk result (λ count. Appends (W.contents output.old) (W.contents output.new) replies.now.text.items
        × (count ≡ replies.now.count)) }
    ensures fault { IfErr result (λ fault. fault ≡ Device) }
{
    if output.write_all(&replies.text).is_err() || output.flush().is_err() {
        return Err(LineFault::Device);
    }
    Ok(replies.count)
}

/// The exit status of line mode: 0 where every line was answered, 1 where a line was refused or the input was too
/// long, 3 for a failed device and 4 if memory was refused.
pub fn line_status(outcome: &Result<LineCount, LineFault>) -> u8
    ensures { result ≡ status_of outcome.now }
{
    match outcome {
        Ok(count) if count.refused == 0 => DONE,
        Ok(_) | Err(LineFault::InputTooLong) => REFUSED,
        Err(LineFault::Device) => DEVICE,
        Err(LineFault::OutOfMemory) => NO_RESOURCES,
    }
}
