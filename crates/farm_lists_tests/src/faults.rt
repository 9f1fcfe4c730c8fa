//! How the command `farm` ends: statuses and fault lines; and the texts of the faults of lists, requests and serving, written out.
use crate::asserting::{are_same_texts, assert_holds, given};
use farm_lists::ListFault;
use farm_reading::{ServeFault, farm_status, fault_line};
use lrc_code::RequestFault;
use std::fmt::Display;
use std::process::Abort;

/// Faults with their status and line: those of no list or of no record, and those of the list of a rack's feed, whose line names the list's
/// file, and gives both numbers of a refused request.
static ENDS: [(ServeFault, u8, &str); 17] = [
    (ServeFault::TooManyRacks, 1, "E18"),
    (ServeFault::BadFeeds, 1, "E28"),
    (ServeFault::NoRacks, 1, "E23"),
    (ServeFault::Device, 3, "E24"),
    (ServeFault::OutOfMemory, 4, "E16"),
    (ServeFault::NoThread, 4, "E17"),
    (
        ServeFault::List {
            rack: 0,
            feed: 0,
            fault: ListFault::OutOfMemory,
        },
        4,
        "E16",
    ),
    (
        ServeFault::List {
            rack: 0,
            feed: 0,
            fault: ListFault::BadHeader,
        },
        1,
        "rack0.csv: E19",
    ),
    (
        ServeFault::List {
            rack: 7,
            feed: 0,
            fault: ListFault::InputTooLong,
        },
        1,
        "rack7.csv: E25",
    ),
    (
        ServeFault::List {
            rack: 15,
            feed: 0,
            fault: ListFault::TooManyOrders,
        },
        1,
        "rack15.csv: E26",
    ),
    (
        ServeFault::List {
            rack: 3,
            feed: 0,
            fault: ListFault::BadRecord { number: 4096 },
        },
        1,
        "rack3.csv: record 4096: E20",
    ),
    (
        ServeFault::List {
            rack: 0,
            feed: 1,
            fault: ListFault::BadHeader,
        },
        1,
        "rack0.feed1.csv: E19",
    ),
    (
        ServeFault::List {
            rack: 12,
            feed: 3,
            fault: ListFault::BadRecord { number: 2 },
        },
        1,
        "rack12.feed3.csv: record 2: E20",
    ),
    (
        ServeFault::List {
            rack: 10,
            feed: 0,
            fault: ListFault::Refused {
                number: 1,
                fault: RequestFault::BadStripe,
            },
        },
        1,
        "rack10.csv: record 1: E21 E1",
    ),
    (
        ServeFault::List {
            rack: 10,
            feed: 0,
            fault: ListFault::Refused {
                number: 20,
                fault: RequestFault::BadLength,
            },
        },
        1,
        "rack10.csv: record 20: E21 E2",
    ),
    (
        ServeFault::List {
            rack: 10,
            feed: 0,
            fault: ListFault::Refused {
                number: 3,
                fault: RequestFault::Repeated,
            },
        },
        1,
        "rack10.csv: record 3: E21 E3",
    ),
    (
        ServeFault::List {
            rack: 10,
            feed: 0,
            fault: ListFault::Refused {
                number: 4,
                fault: RequestFault::NotLost,
            },
        },
        1,
        "rack10.csv: record 4: E21 E4",
    ),
];

/// Whether a fault ends the program with this status and this line.
fn ends_with(rt: &(impl Abort + AllocGlobal), row: &(ServeFault, u8, &str)) -> bool {
    let line = given(rt, fault_line(rt.alloc(), &row.0));
    let ended: Result<(), ServeFault> = Err(row.0);
    are_same_texts(&line, row.2) & (farm_status(&ended) == row.1)
}

/// Served folders end with status 0.
#[test]
fn faults_end_with_their_number_and_name_their_list(rt: HostRuntime) {
    let served: Result<(), ServeFault> = Ok(());
    assert_holds(&rt, farm_status(&served) == 0, 0usize);
    for number in 0..ENDS.len() {
        let row = &ENDS[number];
        assert_holds(&rt, ends_with(&rt, row), row.2);
    }
}

/// The faults of requests, by the order of their tests.
static REQUEST_FAULTS: [(RequestFault, &str); 6] = [
    (
        RequestFault::BadStripe,
        "the stripe's name is not 1 to 32 characters of a to z, 0 to 9 and -",
    ),
    (RequestFault::BadLength, "the length is not 1 to 65536"),
    (
        RequestFault::WrongCode,
        "the target or a survivor is not a place of the code",
    ),
    (RequestFault::Repeated, "a survivor is listed twice"),
    (RequestFault::NotLost, "the target is among the survivors"),
    (
        RequestFault::WrongLength,
        "a survivor does not have as many bytes as the length says",
    ),
];

/// The faults of lists: a list holds 1,048,576 bytes and 4,096 orders at most.
static LIST_FAULTS: [(ListFault, &str); 6] = [
    (
        ListFault::InputTooLong,
        "the list has more than 1048576 bytes",
    ),
    (ListFault::BadHeader, "the first record is not the header"),
    (
        ListFault::BadRecord { number: 7 },
        "record 7 is neither a rebuild nor a close",
    ),
    (
        ListFault::Refused {
            number: 12,
            fault: RequestFault::BadLength,
        },
        "the request of record 12 is refused: the length is not 1 to 65536",
    ),
    (
        ListFault::TooManyOrders,
        "the list has more than 4096 orders",
    ),
    (ListFault::OutOfMemory, "out of memory"),
];

/// The faults of serving. A list's fault says which list it is of.
static SERVE_FAULTS: [(ServeFault, &str); 7] = [
    (
        ServeFault::List {
            rack: 11,
            feed: 3,
            fault: ListFault::BadHeader,
        },
        "the list of feed 3 of rack 11: the first record is not the header",
    ),
    (ServeFault::BadFeeds, "a rack has more than 4 feeds"),
    (ServeFault::TooManyRacks, "there are more than 16 racks"),
    (ServeFault::NoRacks, "there is no rack0.csv"),
    (ServeFault::Device, "the device failed"),
    (ServeFault::NoThread, "a thread was refused"),
    (ServeFault::OutOfMemory, "out of memory"),
];

/// Whether a fault says this.
fn says<T: Display>(rt: &(impl Abort + AllocGlobal), fault: &T, text: &str) -> bool {
    are_same_texts(&given(rt, format!(in rt.alloc(); "{fault}")), text)
}

/// Asserts that each fault says its text.
fn assert_said<T: Display>(rt: &(impl Abort + AllocGlobal), faults: &[(T, &str)]) {
    for number in 0..faults.len() {
        let row = &faults[number];
        assert_holds(rt, says(rt, &row.0, row.1), row.1);
    }
}

#[test]
fn faults_say_what_failed_and_the_limits(rt: HostRuntime) {
    assert_said(&rt, &REQUEST_FAULTS);
    assert_said(&rt, &LIST_FAULTS);
    assert_said(&rt, &SERVE_FAULTS);
}
