//! The replies to the lines of an input, and their text.
ghost use Rattle.std.specs.Prelude.{◌≡◌, ◌<◌, ◌≤◌, ◌+◌, ◌^◌, ◌++◌, ◌∷◌, [], List, OnOk, IfOk, length};
ghost use Rattle.std.specs.List.{list_all};
ghost use Rattle.lrc_code.specs.Text.{is_space};
ghost use Rattle.line_mode.specs.LineMode.{input_limit, text_of};
ghost use Rattle.line_mode.specs.Replies.{Answers, Holds};
ghost use Rattle.line_mode.specs.LineReply.{IsReply, LineReply, fault_number, reply_text};

use crate::hexadecimal::append_upper;
use crate::lines::Lines;
use crate::memory::KeptMemory;
use crate::outcomes::LineCount;
use crate::parsing::parse_line;
use crate::refusals::LineRefusal;
use lrc_code::Outcome;
use lrc_plan::RememberedPlans;
use std::alloc::{AllocError, Global};

/// The reply to a line.
type LineReply = Result<Outcome, LineRefusal>;

/// Replies one after the other: their text, and how many there are of each kind.
#[derive(Drop)]
pub(crate) struct Replies {
    pub(crate) text: Vec<u8>,
    pub(crate) count: LineCount,
}

impl Replies {
    /// No replies.
    fn new(alloc: Global) -> Replies
        ensures { Holds result [] }
    {
        let count = LineCount {
            answered: 0,
            refused: 0,
        };
        Replies {
            text: Vec::new(alloc),
            count,
        }
    }

    /// Adds a reply after the others.
    fn add(&mut self, alloc: Global, reply: &LineReply) -> Result<(), AllocError>
        requires { self.old.count.answered + self.old.count.refused < 2 ^ 63 }
        ensures { OnOk result ((replies : List LineReply) → Holds self.old replies → Holds self.new (replies ++ reply.now ∷ [])) }
    {
        push_reply(alloc, &mut self.text, reply)?;
        self.text.push(b'\n')?;
        if reply.is_ok() {
            self.count.answered += 1;
        } else {
            self.count.refused += 1;
        }
        Ok(())
    }

    /// Adds the replies of another after these.
    pub(crate) fn append(&mut self, others: &Replies) -> Result<(), AllocError>
        requires answered { self.old.count.answered + others.now.count.answered < 2 ^ 64 }
        requires refused { self.old.count.refused + others.now.count.refused < 2 ^ 64 }
        ensures { OnOk result ((these those : List LineReply) → Holds self.old these → Holds others.now those
            → Holds self.new (these ++ those)) }
    {
        self.text.extend_from_slice(&others.text)?;
        self.count.answered += others.count.answered;
        self.count.refused += others.count.refused;
        Ok(())
    }
}

/// The replies to the lines of an input.
pub(crate) fn reply_to_lines(alloc: Global, input: &[u8]) -> Result<Replies, AllocError>
    requires { length input.now ≤ input_limit }
    ensures { IfOk result (Answers input.now) }
{
    let mut replies = Replies::new(alloc);
    let mut plans = RememberedPlans::new(alloc);
    let mut memory = KeptMemory::new(alloc);
    for line in Lines::new(input) {
        if !is_blank(line) {
            replies.add(alloc, &reply_to_line(alloc, &mut plans, &mut memory, line)?)?;
        }
    }
    Ok(replies)
}

/// Whether a line has nothing but spaces, so that it gets no reply.
fn is_blank(line: &[u8]) -> bool
    ensures { result ≡ list_all is_space line.now }
{
    line.iter().all(|b| *b == b' ')
}

/// The reply to a line that isn't blank. The memory of a request that was answered is kept for a later line's.
fn reply_to_line(
    alloc: Global,
    plans: &mut RememberedPlans,
    memory: &mut KeptMemory,
    line: &[u8],
) -> Result<LineReply, AllocError>
    ensures { IfOk result (IsReply line.now) }
{
    match parse_line(alloc, memory, line)? {
        Ok(request) => {
            let outcome = plans.solve(alloc, &request)?;
            memory.keep(request)?;
            Ok(Ok(outcome))
        }
        Err(refusal) => Ok(Err(refusal)),
    }
}

/// Adds a reply's text, without its line feed.
fn push_reply(alloc: Global, text: &mut Vec<u8>, reply: &LineReply) -> Result<(), AllocError>
    ensures { OnOk result (text.new.items ≡ text.old.items ++ reply_text reply.now) }
{
    match reply {
        Ok(Outcome::Rebuilt(bytes)) => {
            text.extend_from_slice(b"rebuilt ")?;
            append_upper(text, bytes.as_slice())
        }
        Ok(Outcome::Contradiction) => text.extend_from_slice(b"contradiction"),
        Ok(Outcome::Several) => text.extend_from_slice(b"several"),
        Err(refusal) => {
            let line = format!(in alloc; "refused E{}", refusal.number())?;
            text.extend_from_slice(line.as_bytes())
        }
    }
}
