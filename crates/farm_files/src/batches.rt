//! Answering the lists batch by batch: in memory are the survivors of a batch, and those of the next, which may be read beside it.
ghost use Rattle.std.specs.Prelude.{◌≡◌, ◌∷◌, [], ◌+◌, ◌*◌, ◌<◌, ◌≤◌, ◌^◌, List, IfOk, IfSome, OnOk, length, map, true, false};
ghost use Rattle.std.specs.List.{All};
ghost use Rattle.farm_orders.specs.Limits.{feed_limit, order_limit, rack_limit};
ghost use Rattle.farm_reading.specs.Limits.{all_survivors, rack_survivors};
ghost use Rattle.farm_core.specs.Merge.{AreAllMergedAnswers, AreMergedAnswers, AreOpen, HaveClose, joined};
ghost use Rattle.farm_files.specs.AnsweredRacks.{AreAnswered, IsAnsweredOnce, all_answers, all_requests, rack_requests};
ghost use Rattle.farm_reading.specs.Reading.{Reads, all_failures, rack_failures};

use crate::batch_pause::BatchPause;
use farm_core::{FarmError, FeedAnswer, Feeds, Pause, RackList, Settings, run_feeds};
use farm_lists::{ReadRequest, Record};
use farm_orders::limits::MOST_ORDERS;
use farm_reading::RackLists;
use farm_reading::ahead::{files_of_batch, files_of_piece};
use farm_reading::cutting::{end_of_positions, end_of_racks, lists_through_close, piece_of};
use farm_reading::fragments::{read_feeds, read_piece};
use farm_reading::rooms::rooms_of;
use farm_shelves::{FileRead, Shelf};
use std::alloc::{AllocError, Global};
use std::mem;
use std::sync::Wait;
use std::thread::Threads;

/// The most bytes of memory that the survivors of a batch may take by what is listed; one request of each of four feeds takes less. Each
/// survivor counts 512 bytes beside its own, and each request as many, so that a batch is bounded in files too.
pub const MOST_BATCH_BYTES: u64 = 16_777_216;

/// Of each rack the answers, each with its feed's number, and feed by feed the requests before the close, each with the places of the
/// survivors that weren't read.
#[derive(Drop)]
pub struct Answered<'a> {
    pub answers: Vec<Vec<FeedAnswer>>,
    pub requests: Vec<Vec<Vec<ReadRequest<'a>>>>,
}

/// How batches are answered: by farms of these settings with this pause, each batch with survivors of so many bytes at most, as
/// `MOST_BATCH_BYTES` counts them.
#[derive(Drop)]
pub struct Batching<'p, P> {
    pub settings: Settings,
    pub pause: &'p P,
    pub most: u64,
}

/// What one batch is answered with: the farm's settings, its pause, and the files that are read after the batch.
#[derive(Drop)]
struct Batch<'b, P> {
    settings: Settings,
    pause: &'b P,
    after: Vec<FileRead>,
}

/// The answers to the pieces of a rack so far, and whether a close has ended it.
#[derive(Drop)]
struct RackAnswers {
    answers: Vec<FeedAnswer>,
    ended: bool,
}

/// The answers to the lists of all racks, and their requests with what was left out of each. A batch is racks whose survivors take at most
/// so many bytes together; a rack with more is cut into pieces, each the requests of all its feeds from one position to another.
/// A `Pause` is given the numbers of all lists; one that holds a request until one of a later batch begins waits in vain. Where the
/// shelf has a batch answered once more (`Shelf::read_beside`), a `Pause` is given its requests again.
pub fn answer_lists<'a, R: Threads + Wait + Sync, I: Shelf, P: Pause>(
    rt: &R,
    alloc: Global,
    input: &mut I,
    racks: &'a [RackLists],
    batching: &Batching<'_, P>,
) -> Result<Answered<'a>, FarmError>
    requires room { I.failed input.old < 2 ^ 62 }
    requires count { length racks.now ≤ rack_limit }
    ensures same { I.files input.new ≡ I.files input.old }
    ensures answered { IfOk result (λ v. (reads : List (List (List Reads)))
        × AreAnswered (I.files input.old) racks.now reads (all_answers v.answers.items) (all_requests v.requests.items)
        × (I.failed input.new ≡ I.failed input.old + all_failures reads)) }
    ensures more { I.failed input.old ≤ I.failed input.new }
    ensures few { I.failed input.new ≤ I.failed input.old + all_survivors }
{
    let mut answers = Vec::new(alloc);
    let mut requests = Vec::new(alloc);
    let mut first = 0;
    while first < racks.len() {
        let end = end_of_racks(racks, first, batching.most);
        // Without memory for their names they are read in their turn.
        let after = files_of_batch(alloc, racks, end, batching.most).unwrap_or(Vec::new(alloc));
        let batch = Batch {
            settings: batching.settings,
            pause: &BatchPause {
                pause: batching.pause,
                rack: first,
                number: 0,
                position: 0,
            },
            after,
        };
        let mut part = answer_racks(rt, alloc, input, &racks[first..end], batch, batching.most)?;
        answers.append(&mut part.answers)?;
        requests.append(&mut part.requests)?;
        first = end;
    }
    Ok(Answered { answers, requests })
}

/// The answers to the lists of the racks of one batch, or of one rack, which is cut.
fn answer_racks<'a, R: Threads + Wait + Sync, I: Shelf, P: Pause>(
    rt: &R,
    alloc: Global,
    input: &mut I,
    racks: &'a [RackLists],
    batch: Batch<'_, P>,
    most: u64,
) -> Result<Answered<'a>, FarmError>
    requires room { I.failed input.old + rack_survivors * length racks.now < 2 ^ 63 }
    requires count { length racks.now ≤ rack_limit }
    ensures same { I.files input.new ≡ I.files input.old }
    ensures answered { IfOk result (λ v. (reads : List (List (List Reads)))
        × AreAnswered (I.files input.old) racks.now reads (all_answers v.answers.items) (all_requests v.requests.items)
        × (I.failed input.new ≡ I.failed input.old + all_failures reads)) }
    ensures more { I.failed input.old ≤ I.failed input.new }
    ensures few { I.failed input.new ≤ I.failed input.old + rack_survivors * length racks.now }
{
    if let Some(lists) = only_rack(racks) {
        return answer_rack(rt, alloc, input, lists, batch, most);
    }
    let (feeds, requests) = read_feeds(rt, alloc, input, racks, batch.settings.workers())?;
    let answers = answer_feeds(rt, alloc, input, feeds, batch)?;
    Ok(Answered { answers, requests })
}

/// The answers to feeds, whose survivors' memory goes back to the shelf. Beside it the files may be read ahead that are read after it.
fn answer_feeds<R: Threads + Wait + Sync, I: Shelf, P: Pause>(
    rt: &R,
    alloc: Global,
    input: &mut I,
    feeds: Feeds,
    batch: Batch<'_, P>,
) -> Result<Vec<Vec<FeedAnswer>>, FarmError>
    ensures answers { IfOk result (λ v. AreAllMergedAnswers feeds (map (λ answers. answers.items) v.items)) }
    ensures same { I.files input.new ≡ I.files input.old }
    ensures calm { I.failed input.new ≡ I.failed input.old }
{
    let Batch {
        settings,
        pause,
        after,
    } = batch;
    // Nothing is read into the memory of the last batch.
    let is_last = after.is_empty();
    let lent = &feeds;
    let run = move || -> Result<Vec<Vec<FeedAnswer>>, FarmError>
        ensures { IfOk result (λ v. AreAllMergedAnswers lent.entry.now (map (λ answers. answers.items) v.items)) }
    { run_feeds(rt, alloc, lent, settings, pause) };
    let answers = input.read_beside(rt, alloc, after, settings.workers(), run)?;
    let rooms = if is_last {
        Vec::new(alloc)
    } else {
        rooms_of(alloc, feeds)
    };
    input.keep_rooms(rooms);
    Ok(answers)
}

/// The lists of a single rack.
fn only_rack(racks: &[RackLists]) -> Option<&[Vec<Record>]>
    ensures lists { IfSome result (λ lists. (racks.now ≡ map (λ list. list.items) lists.now ∷ []) × (length racks.now ≡ 1)) }
    ensures feeds { IfSome result (λ lists. (0 < length lists.now) × (length lists.now ≤ feed_limit)) }
    ensures orders { IfSome result (λ lists. All (λ l. length l.items ≤ order_limit) lists.now) }
{
    match racks {
        [rack] => Some(rack.feeds()),
        _ => None,
    }
}

/// The answers to the lists of one rack, piece by piece. A piece that has a close ends the rack: of the pieces after it the survivors are
/// read alone, since the report names those that are left out of any request before its own list's close.
fn answer_rack<'a, R: Threads + Wait + Sync, I: Shelf, P: Pause>(
    rt: &R,
    alloc: Global,
    input: &mut I,
    lists: &'a [Vec<Record>],
    batch: Batch<'_, P>,
    most: u64,
) -> Result<Answered<'a>, FarmError>
    requires room { I.failed input.old + rack_survivors < 2 ^ 63 }
    requires feeds { (0 < length lists.now) × (length lists.now ≤ feed_limit) }
    requires orders { All (λ l. length l.items ≤ order_limit) lists.now }
    ensures same { I.files input.new ≡ I.files input.old }
    ensures answered { IfOk result (λ v. (reads : List (List Reads))
        × AreAnswered (I.files input.old) (map (λ l. l.items) lists.now ∷ []) (reads ∷ []) (all_answers v.answers.items)
        (all_requests v.requests.items)
        × (I.failed input.new ≡ I.failed input.old + rack_failures reads)) }
    ensures more { I.failed input.old ≤ I.failed input.new }
    ensures few { I.failed input.new ≤ I.failed input.old + rack_survivors }
{
    let Batch {
        settings,
        pause,
        after: mut next,
    } = batch;
    let served = lists_through_close(alloc, lists)?;
    let mut so_far = RackAnswers {
        answers: Vec::new(alloc),
        ended: false,
    };
    let mut requests = none_of_each(alloc, served.as_slice())?;
    let mut first = 0;
    while first < MOST_ORDERS {
        let end = end_of_positions(served.as_slice(), first, most);
        let part = piece_of(alloc, served.as_slice(), first, end)?;
        let (orders, later) = read_piece(rt, alloc, input, part.as_slice(), settings.workers())?;
        requests = append_each(alloc, requests, later)?;
        let after = files_after(alloc, served.as_slice(), end, most, &mut next);
        let piece = Batch {
            settings,
            pause: &BatchPause {
                pause,
                rack: 0,
                number: so_far.answers.len(),
                position: first,
            },
            after,
        };
        so_far = answer_piece(rt, alloc, input, orders, piece, so_far)?;
        first = end;
    }
    Ok(one_rack(alloc, so_far.answers, requests)?)
}

/// The files that are read after the piece that ends at a position: those of the rack's next piece, or where it has none the others, once.
fn files_after(
    alloc: Global,
    lists: &[&[Record]],
    end: usize,
    most: u64,
    others: &mut Vec<FileRead>,
) -> Vec<FileRead>
    requires { length lists.now ≤ feed_limit }
{
    match files_of_piece(alloc, lists, end, most) {
        Ok(files) if !files.is_empty() => files,
        _ => mem::replace(others, Vec::new(alloc)),
    }
}

/// No requests of each list.
fn none_of_each<'a>(
    alloc: Global,
    lists: &[&'a [Record]],
) -> Result<Vec<Vec<ReadRequest<'a>>>, AllocError>
    ensures { IfOk result (λ v. rack_requests v.items ≡ map (λ _. []) lists.now) }
{
    let mut requests = Vec::new(alloc);
    for _list in lists {
        requests.push(Vec::new(alloc))?;
    }
    Ok(requests)
}

/// Each feed's requests, and after them those of the next piece. Taken from the front of at most four.
fn append_each<'a>(
    alloc: Global,
    mut requests: Vec<Vec<ReadRequest<'a>>>,
    mut later: Vec<Vec<ReadRequest<'a>>>,
) -> Result<Vec<Vec<ReadRequest<'a>>>, AllocError>
    requires { length requests.items ≡ length later.items }
    ensures { IfOk result (λ v. rack_requests v.items ≡ joined (rack_requests requests.entry.items) (rack_requests later.entry.items)) }
{
    let mut all = Vec::new(alloc);
    while !requests.is_empty() {
        let mut feed = requests.remove(0);
        let mut rest = later.remove(0);
        feed.append(&mut rest)?;
        all.push(feed)?;
    }
    Ok(all)
}

/// The answers to a rack with those to a piece's orders, which are dropped with the survivors, unless a close ended the rack before.
fn answer_piece<R: Threads + Wait + Sync, I: Shelf, P: Pause>(
    rt: &R,
    alloc: Global,
    input: &mut I,
    orders: Vec<RackList>,
    piece: Batch<'_, P>,
    so_far: RackAnswers,
) -> Result<RackAnswers, FarmError>
    requires { (0 < length orders.items) × (length orders.items ≤ feed_limit) }
    ensures answered { IfOk result (λ v. IsAnsweredOnce orders.items so_far.ended so_far.answers.items v.answers.items v.ended) }
    ensures same { I.files input.new ≡ I.files input.old }
    ensures calm { I.failed input.new ≡ I.failed input.old }
{
    if so_far.ended {
        return Ok(so_far);
    }
    let ended = have_close(orders.as_slice());
    let RackAnswers { mut answers, .. } = so_far;
    let mut more = answer_orders(rt, alloc, input, orders, piece)?;
    answers.append(&mut more)?;
    Ok(RackAnswers { answers, ended })
}

/// Whether some list has a close.
fn have_close(lists: &[RackList]) -> bool
    ensures closed { result ≡ true → HaveClose lists.now }
    ensures opened { result ≡ false → AreOpen lists.now }
{
    for index in 0..lists.len() {
        // An order that isn't among the requests before the close is the close or after it.
        let list = &lists[index];
        if list.served() < list.orders().len() {
            return true;
        }
    }
    false
}

/// The answers to the orders of one rack's feeds.
fn answer_orders<R: Threads + Wait + Sync, I: Shelf, P: Pause>(
    rt: &R,
    alloc: Global,
    input: &mut I,
    orders: Vec<RackList>,
    batch: Batch<'_, P>,
) -> Result<Vec<FeedAnswer>, FarmError>
    requires { (0 < length orders.items) × (length orders.items ≤ feed_limit) }
    ensures answered { IfOk result (λ v. AreMergedAnswers orders.items v.items) }
    ensures same { I.files input.new ≡ I.files input.old }
    ensures calm { I.failed input.new ≡ I.failed input.old }
{
    let feeds = feeds_of_rack(alloc, orders)?;
    let mut answers = answer_feeds(rt, alloc, input, feeds, batch)?;
    let Some(outcomes) = answers.pop() else {
        unreachable!();
    };
    Ok(outcomes)
}

/// The orders of one rack's feeds as those of all racks.
fn feeds_of_rack(alloc: Global, orders: Vec<RackList>) -> Result<Feeds, AllocError>
    requires { (0 < length orders.items) × (length orders.items ≤ feed_limit) }
    ensures { IfOk result (λ f. f ≡ orders.items ∷ []) }
{
    let mut racks = Vec::new(alloc);
    racks.push(orders)?;
    Ok(Feeds::from_checked(racks))
}

/// The answers and the requests of one rack as those of all racks.
fn one_rack<'a>(
    alloc: Global,
    answers: Vec<FeedAnswer>,
    requests: Vec<Vec<ReadRequest<'a>>>,
) -> Result<Answered<'a>, AllocError>
    ensures answers { IfOk result (λ v. all_answers v.answers.items ≡ answers.items ∷ []) }
    ensures requests { IfOk result (λ v. all_requests v.requests.items ≡ rack_requests requests.entry.items ∷ []) }
{
    let mut all_answers = Vec::new(alloc);
    all_answers.push(answers)?;
    let mut all_requests = Vec::new(alloc);
    all_requests.push(requests)?;
    Ok(Answered {
        answers: all_answers,
        requests: all_requests,
    })
}
