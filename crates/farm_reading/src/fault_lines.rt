//! How the command `farm` ends: its exit statuses, and the lines that report its faults.
ghost use Rattle.std.specs.Prelude.{◌≡◌, ◌++◌, IfOk, OnOk, string_bytes};
ghost use Rattle.farm_reading.specs.FarmFaults.{fault_text, list_fault_text, reason_text, reported, status_of};

use crate::faults::ServeFault;
use command_line::{DEVICE, DONE, NO_RESOURCES, REFUSED};
use farm_lists::{ListFault, list_file};
use std::alloc::{AllocError, Global};
use std::fmt::Write;

/// The fault as it is reported: memory that was refused while a list was read is no fault of that list.
fn reported(fault: ServeFault) -> ServeFault
    ensures { result ≡ reported fault }
{
    match fault {
        ServeFault::List {
            fault: ListFault::OutOfMemory,
            ..
        } => ServeFault::OutOfMemory,
        other => other,
    }
}

/// The exit status of the command `farm`: 0 where the folder was served, 1 where a list was refused, there was none or
/// there were too many racks or feeds, 3 for a failed device and 4 where memory or a thread was refused.
pub fn farm_status<T>(outcome: &Result<T, ServeFault>) -> u8
    ensures { result ≡ status_of outcome.now }
{
    let Err(fault) = outcome else {
        return DONE;
    };
    match reported(*fault) {
        ServeFault::List { .. }
        | ServeFault::BadFeeds
        | ServeFault::TooManyRacks
        | ServeFault::NoRacks => REFUSED,
        ServeFault::Device => DEVICE,
        ServeFault::OutOfMemory | ServeFault::NoThread => NO_RESOURCES,
    }
}

/// The line that reports a fault, without a line end: the list's file, the record and the numbers of the refusals.
pub fn fault_line(alloc: Global, fault: &ServeFault) -> Result<String, AllocError>
    ensures { IfOk result (λ line. string_bytes line ≡ fault_text fault.now) }
{
    match reported(*fault) {
        ServeFault::List { rack, feed, fault } => list_fault_line(alloc, rack, feed, fault),
        ServeFault::BadFeeds => String::from_str(alloc, "E28"),
        ServeFault::TooManyRacks => String::from_str(alloc, "E18"),
        ServeFault::NoRacks => String::from_str(alloc, "E23"),
        ServeFault::Device => String::from_str(alloc, "E24"),
        ServeFault::NoThread => String::from_str(alloc, "E17"),
        ServeFault::OutOfMemory => String::from_str(alloc, "E16"),
    }
}

/// The line that reports the fault of the list of a rack's feed: the file's name, and what is wrong with the list.
fn list_fault_line(
    alloc: Global,
    rack: usize,
    feed: usize,
    fault: ListFault,
) -> Result<String, AllocError>
    ensures { IfOk result (λ line. string_bytes line ≡ list_fault_text rack feed fault) }
{
    let mut line = list_file(alloc, rack, feed)?;
    line.push_str(": ")?;
    push_reason(&mut line, fault)?;
    Ok(line)
}

/// Adds what is wrong with a list.
fn push_reason(line: &mut String, fault: ListFault) -> Result<(), AllocError>
    ensures { OnOk result (string_bytes line.new ≡ string_bytes line.old ++ reason_text fault) }
{
    match fault {
        ListFault::OutOfMemory => line.push_str("E16"),
        ListFault::BadHeader => line.push_str("E19"),
        ListFault::BadRecord { number } => write!(line, "record {number}: E20"),
        ListFault::Refused { number, fault } => {
            write!(line, "record {number}: E21 E{}", fault.code())
        }
        ListFault::InputTooLong => line.push_str("E25"),
        ListFault::TooManyOrders => line.push_str("E26"),
    }
}
