//! What is noted of a fragment that can't be read or written, by the error that its file gave.
ghost use Rattle.std.specs.Prelude.{◌≡◌, ◌≢◌, ◌++◌, [], Option, IfOk, OnOk};
ghost use Rattle.lrc_code.specs.declared.places.Place.{Place};
ghost use Rattle.store_repair.specs.Findings.{named, named_by};
ghost use Rattle.store_repair.specs.Scrubbed.{damaged_by, said_damaged};

use crate::outcomes::{Finding, Reason, note};
use lrc_code::Place;
use std::alloc::AllocError;
use std::io::{self, ErrorKind};

/// Notes why the fragment at a place, or something of the stripe, can't be read.
pub(crate) fn note_unread(
    findings: &mut Vec<Finding>,
    place: Option<Place>,
    error: io::Error,
) -> Result<(), AllocError>
    ensures said { OnOk result (said_damaged findings.new.items ≡ said_damaged findings.old.items) }
    ensures named { OnOk result (named findings.new.items ≡ named findings.old.items ++ named_by place) }
    ensures some { OnOk result (findings.new.items ≢ []) }
{
    note(findings, place, read_fault(error)?)
}

/// Notes why the fragment at a place, or something of the stripe, can't be written.
pub(crate) fn note_unwritten(
    findings: &mut Vec<Finding>,
    place: Option<Place>,
    error: io::Error,
) -> Result<(), AllocError>
    ensures named { OnOk result (named findings.new.items ≡ named findings.old.items ++ named_by place) }
    ensures some { OnOk result (findings.new.items ≢ []) }
{
    note(findings, place, write_fault(error)?)
}

/// Why a fragment can't be read. An error of the kind `InvalidData` says that it differs from the store's checksums, and one of the kind
/// `ResourceBusy` that it was changed since it was opened.
fn read_fault(error: io::Error) -> Result<Reason, AllocError>
    ensures { IfOk result (λ reason. (place : Option Place) → damaged_by reason place ≡ []) }
{
    match error.kind() {
        ErrorKind::OutOfMemory => Err(AllocError),
        ErrorKind::InvalidData => Ok(Reason::Differs),
        ErrorKind::ResourceBusy => Ok(Reason::Changed),
        _ => Ok(Reason::Unread(error)),
    }
}

/// Why a fragment can't be written. An error of the kind `InvalidData` says that it differs from the store's checksums.
fn write_fault(error: io::Error) -> Result<Reason, AllocError> {
    match error.kind() {
        ErrorKind::OutOfMemory => Err(AllocError),
        ErrorKind::InvalidData => Ok(Reason::RebuiltDiffers),
        _ => Ok(Reason::Unwritten(error)),
    }
}
