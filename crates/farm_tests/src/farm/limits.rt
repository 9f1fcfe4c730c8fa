//! Limits, each by its last accepted value and its first refused one.
use crate::farm::asserting::assert_holds;
use farm_core::{
    Feeds, FeedsFault, Order, RackList, Racks, Settings, SettingsFault, TooManyOrders,
    TooManyRacks, limits,
};
use std::alloc::Global;
use std::process::Abort;

/// What is tried, and what has to come of it.
enum Limit {
    /// A limit is this number.
    Is(usize, usize),
    /// A list of so many orders is accepted, or not.
    Orders(usize, bool),
    /// So many racks are accepted, or not.
    Racks(usize, bool),
    /// So many racks of so many feeds, of which the last has another number of them, and what refuses them: that racks are too many, or
    /// not. The number of racks is tested before that of their feeds.
    Feeds(usize, usize, usize, Option<bool>),
    /// So many workers and a queue of so many jobs, and what refuses them.
    Settings(usize, usize, Option<SettingsFault>),
    /// What a fault of settings says.
    Says(SettingsFault, &'static str),
}

fn closes(rt: &impl Abort, alloc: Global, count: usize) -> Vec<Order> {
    let mut orders = Vec::new(alloc);
    for _ in 0..count {
        orders.push(Order::Close).expect(rt, "orders");
    }
    orders
}

fn empty_lists(rt: &impl Abort, alloc: Global, count: usize) -> Vec<RackList> {
    let mut lists = Vec::new(alloc);
    for _ in 0..count {
        let list = RackList::new(Vec::new(alloc)).expect(rt, "a list");
        lists.push(list).expect(rt, "lists");
    }
    lists
}

fn feeds(
    rt: &impl Abort,
    alloc: Global,
    racks: usize,
    each: usize,
    last: usize,
) -> Vec<Vec<RackList>> {
    let mut all = Vec::new(alloc);
    for rack in 1..=racks {
        let count = if rack == racks { last } else { each };
        all.push(empty_lists(rt, alloc, count)).expect(rt, "racks");
    }
    all
}

/// Whether so many closes are accepted as a list that serves nothing and gives them back, or handed back.
fn are_orders(orders: Vec<Order>, count: usize, accepted: bool) -> bool {
    match RackList::new(orders) {
        Ok(list) => {
            let holds = accepted && list.orders().len() == count && list.served() == 0;
            list.into_orders().len() == count && holds
        }
        Err(TooManyOrders { orders }) => !accepted && orders.len() == count,
    }
}

/// Whether so many racks are accepted, or handed back.
fn are_racks(lists: Vec<RackList>, count: usize, accepted: bool) -> bool {
    match Racks::new(lists) {
        Ok(racks) => accepted && racks.lists().len() == count,
        Err(TooManyRacks { lists }) => !accepted && lists.len() == count,
    }
}

/// Whether there are so many racks, and so many feeds of the last of them.
fn are_sizes(racks: &[Vec<RackList>], count: usize, feeds: usize) -> bool {
    match racks.last() {
        Some(last) => racks.len() == count && last.len() == feeds,
        None => count == 0,
    }
}

/// Whether racks of feeds are accepted, and seen and given back as they are; or handed back as they are, since they are too many or not.
fn are_feeds(racks: Vec<Vec<RackList>>, count: usize, last: usize, refused: Option<bool>) -> bool {
    match Feeds::new(racks) {
        Ok(feeds) => {
            let seen = are_sizes(feeds.racks(), count, last);
            let back = feeds.into_racks();
            refused.is_none() && seen && are_sizes(back.as_slice(), count, last)
        }
        Err(FeedsFault::TooManyRacks { racks }) => {
            refused == Some(true) && are_sizes(racks.as_slice(), count, last)
        }
        Err(FeedsFault::BadFeeds { racks }) => {
            refused == Some(false) && are_sizes(racks.as_slice(), count, last)
        }
    }
}

/// Whether so many workers and a queue of so many jobs are accepted, or refused for this.
fn are_settings(workers: usize, queue: usize, refused: Option<SettingsFault>) -> bool {
    match Settings::new(workers, queue) {
        Ok(settings) => {
            refused.is_none() && settings.workers() == workers && settings.queue() == queue
        }
        Err(fault) => refused == Some(fault),
    }
}

/// Whether that comes of it that must.
fn is_limit(rt: &impl Abort, alloc: Global, limit: &Limit) -> bool {
    match limit {
        Limit::Is(limit, wanted) => limit == wanted,
        Limit::Orders(count, accepted) => {
            are_orders(closes(rt, alloc, *count), *count, *accepted)
        }
        Limit::Racks(count, accepted) => {
            are_racks(empty_lists(rt, alloc, *count), *count, *accepted)
        }
        Limit::Feeds(racks, each, last, refused) => {
            are_feeds(
                feeds(rt, alloc, *racks, *each, *last),
                *racks,
                *last,
                *refused,
            )
        }
        Limit::Settings(workers, queue, refused) => are_settings(*workers, *queue, *refused),
        Limit::Says(fault, text) => says(rt, alloc, *fault, text),
    }
}

fn says(rt: &impl Abort, alloc: Global, fault: SettingsFault, text: &str) -> bool {
    let said = format!(in alloc; "{fault}").expect(rt, "a text");
    said.as_str() == text
}

const LIMITS: &[(&str, Limit)] = &[
    ("the most orders", Limit::Is(limits::MOST_ORDERS, 4096)),
    ("the most racks", Limit::Is(limits::MOST_RACKS, 16)),
    ("the most feeds", Limit::Is(limits::MOST_FEEDS, 4)),
    ("the most workers", Limit::Is(limits::MOST_WORKERS, 16)),
    ("the greatest queue", Limit::Is(limits::MOST_QUEUE, 1024)),
    ("4096 orders", Limit::Orders(4096, true)),
    ("4097 orders", Limit::Orders(4097, false)),
    ("16 racks", Limit::Racks(16, true)),
    ("17 racks", Limit::Racks(17, false)),
    ("no racks", Limit::Feeds(0, 0, 0, None)),
    ("1 rack of 1 feed", Limit::Feeds(1, 1, 1, None)),
    ("1 of 4", Limit::Feeds(1, 4, 4, None)),
    ("15 of 1 and 1 of 4", Limit::Feeds(16, 1, 4, None)),
    ("16 of 4", Limit::Feeds(16, 4, 4, None)),
    ("1 of none", Limit::Feeds(1, 4, 0, Some(false))),
    ("1 of 4 and 1 of none", Limit::Feeds(2, 4, 0, Some(false))),
    ("15 of 4 and 1 of none", Limit::Feeds(16, 4, 0, Some(false))),
    ("1 of 5", Limit::Feeds(1, 4, 5, Some(false))),
    ("1 of 4 and 1 of 5", Limit::Feeds(2, 4, 5, Some(false))),
    ("15 of 4 and 1 of 5", Limit::Feeds(16, 4, 5, Some(false))),
    ("16 of 4 and 1 of none", Limit::Feeds(17, 4, 0, Some(true))),
    ("16 of 4 and 1 of 1", Limit::Feeds(17, 4, 1, Some(true))),
    ("17 of 4", Limit::Feeds(17, 4, 4, Some(true))),
    ("16 of 4 and 1 of 5", Limit::Feeds(17, 4, 5, Some(true))),
    ("16 workers, 1024 jobs", Limit::Settings(16, 1024, None)),
    ("1 worker, 1 job", Limit::Settings(1, 1, None)),
    (
        "no worker, no job",
        Limit::Settings(0, 0, Some(SettingsFault::BadWorkers)),
    ),
    (
        "17 workers",
        Limit::Settings(17, 1, Some(SettingsFault::BadWorkers)),
    ),
    (
        "no job",
        Limit::Settings(1, 0, Some(SettingsFault::BadQueue)),
    ),
    (
        "1025 jobs",
        Limit::Settings(1, 1025, Some(SettingsFault::BadQueue)),
    ),
    (
        "what is said of workers",
        Limit::Says(
            SettingsFault::BadWorkers,
            "the number of workers is not 1 to 16",
        ),
    ),
    (
        "what is said of the queue",
        Limit::Says(SettingsFault::BadQueue, "the queue is not 1 to 1024"),
    ),
];

#[test]
fn limits_are_kept_and_said(rt: HostRuntime) {
    for (name, limit) in LIMITS {
        let is = is_limit(&rt, rt.alloc(), limit);
        assert_holds(&rt, is, name, "it is another limit");
    }
}
