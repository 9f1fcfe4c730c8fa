//! Line mode over standard input and output, by tests that show what the program doesn't: the counts, the text of a fault, flushes, and the
//! replies of `line_mode`, which starts no threads. gate/line-mode.py runs them over inputs and tests what they show; without an input they
//! reply nothing.
use line_mode::{LineCount, LineFault, line_mode, line_mode_in_threads, line_status};
use std::alloc::Global;
use std::io;
use std::io::{Read, Stdin, Stdout, Write};
use std::thread::Threads;

/// Standard output. A flush is a write of no bytes, so that it is seen from outside, and can fail.
#[derive(Drop)]
struct ShownOutput {
    output: Stdout,
}

impl Write for ShownOutput {
    fn write(&mut self, buf: &[u8]) -> io::Result<usize> {
        self.output.write(buf)
    }

    fn flush(&mut self) -> io::Result<()> {
        match self.output.write(&[]) {
            Ok(_) => Ok(()),
            Err(e) => Err(e),
        }
    }
}

/// Line mode over any reader and writer, in one thread or, as the program does for a long input, in several.
fn replied<R: Read, W: Write>(
    rt: &(impl Threads + Sync),
    alloc: Global,
    in_threads: bool,
    input: &mut R,
    output: &mut W,
) -> Result<LineCount, LineFault> {
    if in_threads {
        line_mode_in_threads(rt, alloc, input, output)
    } else {
        line_mode(alloc, input, output)
    }
}

/// Replies to the lines of standard input, and says on standard error how that ended. There are no other faults and counts: with another
/// name among these this doesn't compile.
fn show_replies(
    rt: &(impl Threads + Sync + AllocGlobal + Eprint),
    in_threads: bool,
    mut input: Stdin,
    output: Stdout,
) {
    let mut output = ShownOutput { output };
    let answer = replied(rt, rt.alloc(), in_threads, &mut input, &mut output);
    let status = line_status(&answer);
    let _ = match answer {
        Ok(LineCount { answered, refused }) => {
            eprintln!(rt; "{answered} answered, {refused} refused: status {status}")
        }
        Err(fault @ (LineFault::InputTooLong | LineFault::Device | LineFault::OutOfMemory)) => {
            eprintln!(rt; "E{}: {fault}: status {status}", fault.number())
        }
    };
}

#[test]
fn replied_to_in_one_thread(rt: HostRuntime) {
    show_replies(&rt, false, rt.stdin(), rt.stdout());
}

#[test]
fn replied_to_in_threads(rt: HostRuntime) {
    show_replies(&rt, true, rt.stdin(), rt.stdout());
}
