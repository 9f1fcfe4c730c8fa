//! Reading the fragments of the requests that are listed.
ghost use Rattle.std.specs.Prelude.{◌≡◌, ◌+◌, ◌*◌, ◌++◌, ◌∷◌, [], OnOk, ◌<◌, ◌≤◌, ◌^◌, List, Bool, Option, Some, None, Ok, Err, IfOk};
ghost use Rattle.std.specs.Prelude.{IfSome, if◌then◌else◌, length, map, option_map};
ghost use Rattle.std.specs.List.{All, AllZip, filter_map, flat_map};
ghost use Rattle.farm_orders.specs.Limits.{feed_limit, order_limit, rack_limit};
ghost use Rattle.farm_reading.specs.Limits.{rack_survivors};
ghost use Rattle.farm_reading.specs.Pieces.{AreOrdersOf, record_count};
ghost use Rattle.lrc_code.specs.Requests.{Asked};
ghost use Rattle.farm_lists.specs.Listed.{survivor_limit};
ghost use Rattle.farm_orders.specs.Orders.{before_close};
ghost use Rattle.farm_orders.specs.declared.orders.Order.TheVariants.{Rebuild, Close};
ghost use Rattle.farm_lists.specs.Requests.{listed_before_close, read_of};
ghost use Rattle.lrc_code.specs.Survivors.{survivors_of};
ghost use Rattle.farm_lists.specs.declared.listing.Record.{Record};
ghost use Rattle.farm_shelves.specs.Files.{Files};
ghost use Rattle.farm_reading.specs.Reading.{listed_counts};
ghost use Rattle.farm_reading.specs.Ahead.{fragment_reads, named_limit};
ghost use Rattle.farm_reading.specs.Reading.{AreAllReads, AreRackReads, AreReads, Reads, all_failures, all_read, asked, asked_feed};
ghost use Rattle.farm_reading.specs.Reading.{failures, feed_failures, feed_read, fragment, orders_all, orders_feed, orders_rack};
ghost use Rattle.farm_reading.specs.Reading.{rack_failures, rack_read, request_read, survivor, unread};
ghost use Rattle.farm_lists.specs.Parts.{ArePart};

use crate::cutting::lists_through_close;
use crate::rack_lists::RackLists;
use farm_lists::{
    Listed, ReadRequest, Record, fragment_file, requests_before_close, write_fragment_file,
};
use farm_orders::{Feeds, Order, RackList};
use farm_shelves::{FileRead, Shelf, ShelfFault};
use lrc_code::{Fragment, Place, Request};
use std::alloc::{AllocError, Global};
use std::thread::Threads;

/// The bytes of a listed survivor, where they are there and as many as listed and the device doesn't fail. One byte more than listed
/// is read, so that a longer file shows. Its name is made in this text.
fn read_fragment<I: Shelf>(
    alloc: Global,
    input: &mut I,
    name: &mut String,
    listed: &Listed,
    place: Place,
) -> Result<Option<Vec<u8>>, AllocError>
    requires { I.failed input.old < 2 ^ 63 }
    ensures same { I.files input.new ≡ I.files input.old }
    ensures read { IfOk result (λ v. (failed : Bool) × (I.failed input.new ≡ I.failed input.old + (if failed then 1 else 0))
        × ((there : Files) → I.files input.old ≡ Some there → option_map (λ b. b.items) v ≡ fragment there listed.now (place, failed))) }
    ensures whole { IfOk result (λ v. IfSome v (λ b. length b.items ≡ listed.now.len)) }
    ensures more { I.failed input.old ≤ I.failed input.new }
    ensures few { I.failed input.new ≤ I.failed input.old + 1 }
{
    write_fragment_file(name, listed.stripe(), place)?;
    let length = listed.length() as usize;
    let bytes = match input.read(alloc, name.as_str(), length + 1) {
        Ok(Some(bytes)) => bytes,
        Ok(None) => return Ok(None),
        Err(ShelfFault::Device) => return Ok(None),
        Err(ShelfFault::OutOfMemory) => return Err(AllocError),
    };
    if bytes.len() == length {
        Ok(Some(bytes))
    } else {
        Ok(None)
    }
}

/// The fragments of a request's listed survivors that were read, and the places of the others.
fn read_survivors<I: Shelf>(
    alloc: Global,
    input: &mut I,
    name: &mut String,
    listed: &Listed,
) -> Result<(Vec<Fragment>, Vec<Place>), AllocError>
    requires { I.failed input.old + survivor_limit < 2 ^ 63 }
    ensures same { I.files input.new ≡ I.files input.old }
    ensures read { IfOk result (λ v. (reads : Reads) × AreReads listed.now reads
        × (I.failed input.new ≡ I.failed input.old + failures reads)
        × ((there : Files) → I.files input.old ≡ Some there → (survivors_of v.0.items ≡ filter_map (survivor there listed.now) reads)
        × (v.1.items ≡ unread there listed.now reads))) }
    ensures part { IfOk result (λ v. ArePart listed.now.len listed.now.survivors (survivors_of v.0.items)) }
    ensures more { I.failed input.old ≤ I.failed input.new }
    ensures few { I.failed input.new ≤ I.failed input.old + survivor_limit }
{
    let mut fragments = Vec::new(alloc);
    let mut unread = Vec::new(alloc);
    let places = listed.survivors();
    for index in 0..places.len() {
        let place = places[index];
        match read_fragment(alloc, input, name, listed, place)? {
            Some(bytes) => fragments.push(Fragment { place, bytes })?,
            None => unread.push(place)?,
        }
    }
    Ok((fragments, unread))
}

/// A listed request with the survivors that were read, and beside it the places of the others.
fn read_request<'a, I: Shelf>(
    alloc: Global,
    input: &mut I,
    name: &mut String,
    listed: &'a Listed,
) -> Result<(Request, ReadRequest<'a>), AllocError>
    requires { I.failed input.old + survivor_limit < 2 ^ 63 }
    ensures same { I.files input.new ≡ I.files input.old }
    ensures read { IfOk result (λ v. (reads : Reads) × AreReads listed.now reads
        × (I.failed input.new ≡ I.failed input.old + failures reads)
        × ((there : Files) → I.files input.old ≡ Some there → (v.0 ≡ asked there listed.now reads)
        × (read_of v.1 ≡ request_read there listed.now reads))) }
    ensures more { I.failed input.old ≤ I.failed input.new }
    ensures few { I.failed input.new ≤ I.failed input.old + survivor_limit }
{
    let (fragments, unread) = read_survivors(alloc, input, name, listed)?;
    let stripe = String::from_str(alloc, listed.stripe())?;
    let request = Request::from_checked(
        listed.code(),
        stripe,
        listed.target(),
        listed.length(),
        fragments,
    );
    Ok((request, ReadRequest { listed, unread }))
}

/// The names of the files of the requests' listed survivors, each with the limit that it is read up to, in the order of the reads.
fn fragment_files(alloc: Global, requests: &[&Listed]) -> Result<Vec<FileRead>, AllocError>
    ensures { IfOk result (λ v. map named_limit v.items ≡ flat_map (λ r. fragment_reads r.now) requests.now) }
{
    let mut files = Vec::new(alloc);
    for index in 0..requests.len() {
        push_fragment_files(alloc, &mut files, requests[index])?;
    }
    Ok(files)
}

/// Adds the files of a request's listed survivors.
pub fn push_fragment_files(
    alloc: Global,
    files: &mut Vec<FileRead>,
    listed: &Listed,
) -> Result<(), AllocError>
    ensures { OnOk result (map named_limit files.new.items ≡ map named_limit files.old.items ++ fragment_reads listed.now) }
{
    let limit = listed.length() as usize + 1;
    let places = listed.survivors();
    for index in 0..places.len() {
        let name = fragment_file(alloc, listed.stripe(), places[index])?;
        files.push((name, limit))?;
    }
    Ok(())
}

/// Whether the shelf has read the requests' listed survivors ahead: none are to be read, where memory is refused to ask.
fn has_ahead<I: Shelf>(alloc: Global, input: &I, requests: &[&Listed]) -> bool {
    let mut count = 0usize;
    for listed in requests {
        count = count.saturating_add(listed.survivors().len());
    }
    for listed in requests {
        if let Some(place) = listed.survivors().first() {
            return match fragment_file(alloc, listed.stripe(), *place) {
                Ok(name) => input.has_ahead(name.as_str(), listed.length() as usize + 1, count),
                Err(_) => true,
            };
        }
    }
    true
}

/// Lets the shelf read the requests' listed survivors ahead, unless it did or memory is refused for their names.
fn read_ahead<R: Threads + Sync, I: Shelf>(
    rt: &R,
    alloc: Global,
    input: &mut I,
    requests: &[&Listed],
    threads: usize,
)
    ensures same { I.files input.new ≡ I.files input.old }
    ensures calm { I.failed input.new ≡ I.failed input.old }
{
    if has_ahead(alloc, input, requests) {
        return;
    }
    if let Ok(files) = fragment_files(alloc, requests) {
        input.read_ahead(rt, alloc, files, threads);
    }
}

/// The orders of requests with the survivors that were read, and of a close after them where one is asked for; and each request with the
/// places of the others.
fn read_requests<'a, R: Threads + Sync, I: Shelf>(
    rt: &R,
    alloc: Global,
    input: &mut I,
    requests: &[&'a Listed],
    closes: bool,
    threads: usize,
) -> Result<(RackList, Vec<ReadRequest<'a>>), AllocError>
    requires room { I.failed input.old + survivor_limit * length requests.now < 2 ^ 63 }
    requires orders { length requests.now + (if closes then 1 else 0) ≤ order_limit }
    ensures same { I.files input.new ≡ I.files input.old }
    ensures read { IfOk result (λ v. (reads : List Reads) × AllZip AreReads (map (λ r. r.now) requests.now) reads
        × (I.failed input.new ≡ I.failed input.old + feed_failures reads)
        × ((there : Files) → I.files input.old ≡ Some there
        → (v.0 ≡ map Rebuild (asked_feed there (map (λ r. r.now) requests.now) reads) ++ (if closes then Close ∷ [] else []))
        × (map read_of v.1.items ≡ feed_read there (map (λ r. r.now) requests.now) reads))) }
    ensures orders { IfOk result (λ v. (wanted : List Asked) × (length wanted ≡ length requests.now)
        × (v.0 ≡ map Rebuild wanted ++ (if closes then Close ∷ [] else []))) }
    ensures counted { IfOk result (λ v. length v.1.items ≡ length requests.now) }
    ensures more { I.failed input.old ≤ I.failed input.new }
    ensures few { I.failed input.new ≤ I.failed input.old + survivor_limit * length requests.now }
{
    read_ahead(rt, alloc, input, requests, threads);
    let mut orders = Vec::new(alloc);
    let mut read = Vec::new(alloc);
    let mut name = String::new(alloc);
    for index in 0..requests.len() {
        let (request, with_unread) = read_request(alloc, input, &mut name, requests[index])?;
        orders.push(Order::Rebuild(request))?;
        read.push(with_unread)?;
    }
    push_close(&mut orders, closes)?;
    Ok((RackList::from_checked(orders), read))
}

/// Adds a close, where one is asked for.
fn push_close(orders: &mut Vec<Order>, closes: bool) -> Result<(), AllocError>
    ensures { OnOk result (orders.new.items ≡ orders.old.items ++ (if closes then Close ∷ [] else [])) }
{
    if closes {
        orders.push(Order::Close)?;
    }
    Ok(())
}

/// The orders of a feed's list up to its first close, with the survivors that were read, and each request with the places of the others.
fn read_feed<'a, R: Threads + Sync, I: Shelf>(
    rt: &R,
    alloc: Global,
    input: &mut I,
    list: &'a [Record],
    threads: usize,
) -> Result<(RackList, Vec<ReadRequest<'a>>), AllocError>
    requires room { I.failed input.old + survivor_limit * length list.now < 2 ^ 63 }
    requires orders { length list.now ≤ order_limit }
    ensures same { I.files input.new ≡ I.files input.old }
    ensures read { IfOk result (λ v. (reads : List Reads) × AllZip AreReads (listed_before_close list.now) reads
        × (I.failed input.new ≡ I.failed input.old + feed_failures reads)
        × ((there : Files) → I.files input.old ≡ Some there → (v.0 ≡ orders_feed there list.now reads)
        × (map read_of v.1.items ≡ feed_read there (listed_before_close list.now) reads))) }
    ensures orders { IfOk result (λ v. AreOrdersOf list.now v.0) }
    ensures counted { IfOk result (λ v. length v.1.items ≡ length (listed_before_close list.now)) }
    ensures more { I.failed input.old ≤ I.failed input.new }
    ensures few { I.failed input.new ≤ I.failed input.old + survivor_limit * length list.now }
{
    let requests = requests_before_close(alloc, list)?;
    // A record that isn't among the requests before the close is the close or after it.
    let closes = requests.len() < list.len();
    read_requests(rt, alloc, input, requests.as_slice(), closes, threads)
}

/// The orders of each feed of a rack's piece up to its first close, with the survivors that were read, and each request with the places
/// of the others.
pub fn read_piece<'a, R: Threads + Sync, I: Shelf>(
    rt: &R,
    alloc: Global,
    input: &mut I,
    lists: &[&'a [Record]],
    threads: usize,
) -> Result<(Vec<RackList>, Vec<Vec<ReadRequest<'a>>>), AllocError>
    requires room { I.failed input.old + survivor_limit * record_count (map (λ l. l.now) lists.now) < 2 ^ 63 }
    requires orders { All (λ l. length l.now ≤ order_limit) lists.now }
    ensures same { I.files input.new ≡ I.files input.old }
    ensures read { IfOk result (λ v. (reads : List (List Reads)) × AreRackReads (map (λ l. l.now) lists.now) reads
        × (I.failed input.new ≡ I.failed input.old + rack_failures reads)
        × ((there : Files) → I.files input.old ≡ Some there → (v.0.items ≡ orders_rack there (map (λ l. l.now) lists.now) reads)
        × (map (λ rs. map read_of rs.items) v.1.items ≡ rack_read there (map (λ l. l.now) lists.now) reads))) }
    ensures orders { IfOk result (λ v. AllZip AreOrdersOf (map (λ l. l.now) lists.now) v.0.items) }
    ensures counted { IfOk result (λ v. map (λ rs. length rs.items) v.1.items ≡ map (λ l. length (listed_before_close l.now)) lists.now) }
    ensures more { I.failed input.old ≤ I.failed input.new }
    ensures few { I.failed input.new ≤ I.failed input.old + survivor_limit * record_count (map (λ l. l.now) lists.now) }
{
    let mut feeds = Vec::new(alloc);
    let mut read = Vec::new(alloc);
    for feed in 0..lists.len() {
        let (list, requests) = read_feed(rt, alloc, input, lists[feed], threads)?;
        feeds.push(list)?;
        read.push(requests)?;
    }
    Ok((feeds, read))
}

/// The orders of each feed of a whole rack up to its first close, with the survivors that were read, and each request with the places of
/// the others.
fn read_rack<'a, R: Threads + Sync, I: Shelf>(
    rt: &R,
    alloc: Global,
    input: &mut I,
    lists: &'a [Vec<Record>],
    threads: usize,
) -> Result<(Vec<RackList>, Vec<Vec<ReadRequest<'a>>>), AllocError>
    requires room { I.failed input.old + rack_survivors < 2 ^ 63 }
    requires feeds { length lists.now ≤ feed_limit }
    requires orders { All (λ l. length l.items ≤ order_limit) lists.now }
    ensures same { I.files input.new ≡ I.files input.old }
    ensures read { IfOk result (λ v. (reads : List (List Reads)) × AreRackReads (map (λ l. l.items) lists.now) reads
        × (I.failed input.new ≡ I.failed input.old + rack_failures reads)
        × ((there : Files) → I.files input.old ≡ Some there → (v.0.items ≡ orders_rack there (map (λ l. l.items) lists.now) reads)
        × (map (λ rs. map read_of rs.items) v.1.items ≡ rack_read there (map (λ l. l.items) lists.now) reads))) }
    ensures orders { IfOk result (λ v. map (λ os. length (before_close os)) v.0.items
        ≡ map (λ l. length (listed_before_close l.items)) lists.now) }
    ensures counted { IfOk result (λ v. map (λ rs. length rs.items) v.1.items ≡ map (λ l. length (listed_before_close l.items)) lists.now) }
    ensures more { I.failed input.old ≤ I.failed input.new }
    ensures few { I.failed input.new ≤ I.failed input.old + rack_survivors }
{
    let whole = lists_through_close(alloc, lists)?;
    let read = read_piece(rt, alloc, input, whole.as_slice(), threads)?;
    Ok(read)
}

/// The feeds of all racks with the survivors that were read, and each request with the places of the others.
pub fn read_feeds<'a, R: Threads + Sync, I: Shelf>(
    rt: &R,
    alloc: Global,
    input: &mut I,
    racks: &'a [RackLists],
    threads: usize,
) -> Result<(Feeds, Vec<Vec<Vec<ReadRequest<'a>>>>), AllocError>
    requires room { I.failed input.old + rack_survivors * length racks.now < 2 ^ 63 }
    requires count { length racks.now ≤ rack_limit }
    ensures same { I.files input.new ≡ I.files input.old }
    ensures read { IfOk result (λ v. (reads : List (List (List Reads))) × AreAllReads racks.now reads
        × (I.failed input.new ≡ I.failed input.old + all_failures reads)
        × ((there : Files) → I.files input.old ≡ Some there → (v.0 ≡ orders_all there racks.now reads)
        × (map (λ fs. map (λ rs. map read_of rs.items) fs.items) v.1.items ≡ all_read there racks.now reads))) }
    ensures orders { IfOk result (λ v. map (λ feeds. map (λ os. length (before_close os)) feeds) v.0 ≡ listed_counts racks.now) }
    ensures counted { IfOk result (λ v. map (λ fs. map (λ rs. length rs.items) fs.items) v.1.items ≡ listed_counts racks.now) }
    ensures more { I.failed input.old ≤ I.failed input.new }
    ensures few { I.failed input.new ≤ I.failed input.old + rack_survivors * length racks.now }
{
    let mut lists = Vec::new(alloc);
    let mut read = Vec::new(alloc);
    for rack in 0..racks.len() {
        let (feeds, requests) = read_rack(rt, alloc, input, racks[rack].feeds(), threads)?;
        lists.push(feeds)?;
        read.push(requests)?;
    }
    Ok((Feeds::from_checked(lists), read))
}
