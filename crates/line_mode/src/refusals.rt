//! The refusals of lines, and the number that a reply gives of each, as in `refused E3`.
ghost use Rattle.std.specs.Prelude.{◌≡◌};
ghost use Rattle.line_mode.specs.LineReply.{fault_number};

use lrc_code::RequestFault;
use thiserror::Error;

/// Why a line is refused.
#[derive(Clone, Copy, Debug, Error, PartialEq, Eq)]
pub(crate) enum LineRefusal {
    /// The line doesn't have the form of a request.
    #[error("the line does not have the form of a request")]
    BadLine,
    /// The line's request is refused.
    #[error("{0}")]
    Refused(RequestFault),
}

impl LineRefusal {
    /// The refusal's number in the table of refusals.
    pub(crate) fn number(self) -> u8
        ensures { result ≡ fault_number self }
    {
        match self {
            LineRefusal::BadLine => 22,
            LineRefusal::Refused(fault) => fault.code(),
        }
    }
}
