//! Serving with a pause, and answering in batches of any size, by tests that show what the program doesn't: what the pause is given, how
//! often the devices failed, and the answers and requests. gate/farm-batches.py runs them beside the folders `in` and `out`, and gives them
//! the number of workers and the size of a batch.
use crate::files::calls::Calls;
use crate::files::given::{given_bytes, number};
use farm_core::Settings;
use farm_files::{
    Answered, Batching, FeedAnswer, Folders, ListFault, ReadRequest, ServeFault, Served, Shelf,
    answer_lists, read_lists, serve,
};
use std::process::Abort;
use std::str;

/// Shows a list's fault. There are no others: with another name among these, or another field, this doesn't compile.
fn number_of_list_fault(fault: ListFault) -> u8 {
    match fault {
        ListFault::OutOfMemory => 16,
        ListFault::BadHeader => 19,
        ListFault::BadRecord { number: _ } => 20,
        ListFault::Refused {
            number: _,
            fault: _,
        } => 21,
        ListFault::InputTooLong => 25,
        ListFault::TooManyOrders => 26,
    }
}

/// And a fault of serving.
fn number_of_fault(fault: ServeFault) -> u8 {
    match fault {
        ServeFault::List {
            rack: _,
            feed: _,
            fault,
        } => number_of_list_fault(fault),
        ServeFault::BadFeeds => 28,
        ServeFault::TooManyRacks => 18,
        ServeFault::NoRacks => 23,
        ServeFault::Device => 24,
        ServeFault::NoThread => 17,
        ServeFault::OutOfMemory => 16,
    }
}

/// Serves the one folder into the other, with a queue of one.
#[test]
fn served_with_a_pause(rt: HostRuntime) {
    let bytes = given_bytes(&rt, rt.alloc(), rt.stdin());
    let mut words = str::from_utf8(&bytes).unwrap_or("").split_whitespace();
    let Ok(settings) = Settings::new(number(&mut words), 1) else {
        return;
    };
    let calls = Calls::new();
    let mut folders = Folders::open(&rt, rt.alloc(), "in", "out").expect(&rt, "folders");
    let served = serve(
        &rt,
        rt.alloc(),
        &mut folders.input,
        &mut folders.output,
        settings,
        &calls,
    );
    let _ = match served {
        Ok(Served { racks, answers }) => println!(&rt; "{racks} {answers}"),
        Err(fault) => println!(&rt; "E{}", number_of_fault(fault)),
    };
    let _ = println!(&rt;
        "{} {} {}",
        folders.input.failures(),
        folders.output.failures(),
        folders.output.path()
    );
    calls.show(&rt);
}

/// Shows the answers of a rack.
fn show_answers(rt: &impl Print, rack: usize, answers: &[FeedAnswer]) {
    for (feed, outcome) in answers {
        let _ = println!(rt; "answer {rack} {feed} {outcome:?}");
    }
}

/// Shows the requests of a rack's feeds, each with the survivors that were left out.
fn show_requests(rt: &impl Print, rack: usize, feeds: &[Vec<ReadRequest>]) {
    for feed in 0..feeds.len() {
        for request in feeds[feed].as_slice() {
            let ReadRequest { listed, unread } = request;
            let _ = println!(rt;
                "request {rack} {feed} {} {:?}",
                listed.stripe(),
                unread.as_slice()
            );
        }
    }
}

fn show_answered(rt: &impl Print, answered: &Answered) {
    let Answered { answers, requests } = answered;
    for rack in 0..answers.len() {
        show_answers(rt, rack, answers[rack].as_slice());
    }
    for rack in 0..requests.len() {
        show_requests(rt, rack, requests[rack].as_slice());
    }
}

/// Answers the lists of the one folder in batches.
#[test]
fn answered_in_batches(rt: HostRuntime) {
    let bytes = given_bytes(&rt, rt.alloc(), rt.stdin());
    let mut words = str::from_utf8(&bytes).unwrap_or("").split_whitespace();
    let Ok(settings) = Settings::new(number(&mut words), 1) else {
        return;
    };
    let calls = Calls::new();
    let batching = Batching {
        settings,
        pause: &calls,
        most: number(&mut words) as u64,
    };
    let mut folders = Folders::open(&rt, rt.alloc(), "in", "out").expect(&rt, "folders");
    let lists = read_lists(rt.alloc(), &mut folders.input).expect(&rt, "lists");
    let answered = answer_lists(
        &rt,
        rt.alloc(),
        &mut folders.input,
        lists.as_slice(),
        &batching,
    );
    show_answered(&rt, &answered.expect(&rt, "answers"));
    calls.show(&rt);
}
