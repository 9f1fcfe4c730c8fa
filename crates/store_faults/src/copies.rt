//! The copies of the description of a stripe's file: which of them is believed, and why one isn't as it should be.
ghost use Rattle.std.specs.Prelude.{◌≡◌, MatchOption, option_copied};
ghost use Rattle.store_records.specs.declared.descriptions.Described.{Described};
ghost use Rattle.store_faults.specs.Copies.{IsBelieved, IsSaidByMost, IsSaidWith, agreeing, is_of_device, is_readable};
ghost use Rattle.store_faults.specs.Copies.{may_be_replaced, readable, reason_of, same, says};

use crate::system_words::without_number;
use lrc_code::Code;
use std::alloc::{AllocError, Global};
use std::io;
use store_records::{Described, Digest, MOST_BYTES};
use thiserror::Error;

/// What is under the name of a copy.
#[derive(Debug, Drop)]
pub enum CopyState {
    Absent,
    /// What it says, and its digest.
    There(Described, Digest),
    /// A file of so many bytes that is no description.
    Odd { length: u64 },
    /// No regular file.
    NoFile,
    Unread(io::Error),
}

/// A copy of a description.
#[derive(Drop)]
pub struct FoundCopy {
    pub name: String,
    pub state: CopyState,
    /// Whether it has to be there. The one in the store's own folder that a store has which was made before doesn't.
    pub is_wanted: bool,
}

/// The copies of a stripe's description.
#[derive(Drop)]
pub struct Copies {
    pub all: Vec<FoundCopy>,
    /// The digest that they have to have, where the store's sums say one.
    pub listed: Option<Digest>,
}

/// Why a copy, or a stripe, isn't as it should be.
#[derive(Debug, Drop, Error)]
pub enum CopyReason {
    #[error("is lost")]
    Lost,
    #[error("isn't a line with a length, a digest and a code")]
    Odd,
    #[error("is no regular file")]
    NoFile,
    #[error("differs from the other descriptions of its stripe")]
    Differs,
    #[error("differs from the checksums")]
    DiffersFromSums,
    #[error("can't be read: {0}")]
    Unread(io::Error),
    #[error("can't be put in its place: {0}")]
    Unwritten(io::Error),
    #[error("has come meanwhile, or one that was replaced is kept beside it: it stays as it is")]
    CameMeanwhile,
    /// Of a stripe.
    #[error("its descriptions differ, and nothing says which is right")]
    Undecided,
    /// Of a stripe.
    #[error("contradiction: its description says that it is of the code {0}")]
    OtherCode(&'static str),
}

impl CopyReason {
    /// Whether the system refused to read or write something.
    pub fn is_of_device(&self) -> bool
        ensures { result ≡ is_of_device self.now }
    {
        matches!(self, CopyReason::Unread(_) | CopyReason::Unwritten(_))
    }
}

/// What isn't as it should be, of a copy of this name or of a stripe.
pub struct CopyFinding {
    pub name: String,
    pub reason: CopyReason,
}

impl Drop for CopyFinding {
    fn drop(self) {
        let CopyFinding { name: _, reason: _ } = self;
    }
}

impl CopyFinding {
    /// What is said of it.
    pub fn text(&self, alloc: Global) -> Result<String, AllocError> {
        let name = self.name.as_str();
        let reason = &self.reason;
        let text = format!(in alloc; "{name}: {reason}")?;
        String::from_str(alloc, without_number(text.as_str()))
    }
}

/// What became of the copies of a stripe's description.
pub struct Descriptions {
    /// The names of those that were made, or would be.
    pub made: Vec<String>,
    pub findings: Vec<CopyFinding>,
    /// How many of the findings are of copies that would be replaced if that were asked for.
    pub replaceable: u64,
    /// What is believed of the file.
    pub described: Option<Described>,
}

impl Drop for Descriptions {
    fn drop(self) {
        let Descriptions {
            made: _,
            findings: _,
            replaceable: _,
            described: _,
        } = self;
    }
}

impl Copies {
    /// What is believed of the file: what a copy says that has the digest of the sums, or, where these say none, what more than half of the
    /// copies say.
    pub fn believed(&self) -> Option<Described>
        ensures { MatchOption result ((described : Described) → ¬ IsBelieved self.now described)
            (λ described. IsBelieved self.now described) }
    {
        match &self.listed {
            Some(digest) => self.said_with(digest),
            None => self.said_by_most(),
        }
    }

    /// What a copy says that has this digest.
    fn said_with(&self, digest: &Digest) -> Option<Described>
        ensures { MatchOption result ((described : Described) → ¬ IsSaidWith self.now digest.now described)
            (λ described. IsSaidWith self.now digest.now described) }
    {
        for copy in &self.all {
            let CopyState::There(described, other) = copy.state else {
                continue;
            };
            if other == *digest {
                return Some(described);
            }
        }
        None
    }

    /// What more than half of the copies say that can be read.
    fn said_by_most(&self) -> Option<Described>
        ensures { MatchOption result ((described : Described) → ¬ IsSaidByMost self.now described)
            (λ described. IsSaidByMost self.now described) }
    {
        let readable = self.readable();
        for copy in &self.all {
            let CopyState::There(described, _) = copy.state else {
                continue;
            };
            if self.agreeing(&described) > readable / 2 {
                return Some(described);
            }
        }
        None
    }

    /// How many copies can be read and are descriptions.
    fn readable(&self) -> usize
        ensures { result ≡ readable self.now }
    {
        self.all
            .iter()
            .filter(|copy| copy.state.is_readable())
            .count()
    }

    /// How many copies say the same.
    fn agreeing(&self, described: &Described) -> usize
        ensures { result ≡ agreeing self.now described.now }
    {
        self.all
            .iter()
            .filter(|copy| copy.state.says(described))
            .count()
    }

    /// What isn't as it should be of the stripe.
    pub fn stripe_findings(
        &self,
        alloc: Global,
        code: Code,
        stripe: &str,
    ) -> Result<Vec<CopyFinding>, AllocError> {
        let mut findings = Vec::new(alloc);
        let has_some = self
            .all
            .iter()
            .any(|copy| matches!(copy.state, CopyState::There(..)));
        let reason = match self.believed() {
            Some(described) if described.code != code => {
                Some(CopyReason::OtherCode(described.code.text()))
            }
            None if has_some && self.listed.is_none() => Some(CopyReason::Undecided),
            _ => None,
        };
        if let Some(reason) = reason {
            let name = String::from_str(alloc, stripe)?;
            findings.push(CopyFinding { name, reason })?;
        }
        Ok(findings)
    }
}

impl CopyState {
    /// Whether it can be read and is a description.
    fn is_readable(&self) -> bool
        ensures { result ≡ is_readable self.now }
    {
        matches!(self, CopyState::There(..))
    }

    /// Whether it says this of the file.
    fn says(&self, described: &Described) -> bool
        ensures { result ≡ says self.now described.now }
    {
        match self {
            CopyState::There(other, _) => is_same(other, described),
            CopyState::Absent | CopyState::Odd { .. } | CopyState::NoFile | CopyState::Unread(_) =>
                false,
        }
    }

    /// Whether what is there may be replaced: a file that could be read, and that isn't longer than a description.
    pub fn may_be_replaced(&self) -> bool
        ensures { result ≡ may_be_replaced self.now }
    {
        match self {
            CopyState::There(..) => true,
            CopyState::Odd { length } => *length <= MOST_BYTES,
            CopyState::Absent | CopyState::NoFile | CopyState::Unread(_) => false,
        }
    }

    /// Why a copy isn't as it should be, by what is believed of the file.
    pub fn reason(self, believed: Option<&Described>, has_sums: bool) -> Option<CopyReason>
        ensures { result ≡ reason_of self (option_copied believed.entry) has_sums }
    {
        match self {
            CopyState::Absent => Some(CopyReason::Lost),
            CopyState::Odd { .. } => Some(CopyReason::Odd),
            CopyState::NoFile => Some(CopyReason::NoFile),
            CopyState::Unread(error) => Some(CopyReason::Unread(error)),
            CopyState::There(described, _) => match believed {
                Some(other) if is_same(other, &described) => None,
                _ if has_sums => Some(CopyReason::DiffersFromSums),
                Some(_) => Some(CopyReason::Differs),
                None => None,
            },
        }
    }
}

/// Whether two descriptions say the same.
fn is_same(one: &Described, other: &Described) -> bool
    ensures { result ≡ same one.now other.now }
{
    *one == *other
}
