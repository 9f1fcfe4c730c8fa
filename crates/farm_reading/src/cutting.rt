//! Cutting racks into pieces: where a batch ends, and what a piece has of each feed.
ghost use Rattle.std.specs.Prelude.{◌≡◌, ◌<◌, ◌≤◌, ◌+◌, ◌*◌, IfOk, length, map, sum_by};
ghost use Rattle.std.specs.List.{All, slice_range};
ghost use Rattle.farm_orders.specs.Limits.{feed_limit, order_limit, rack_limit};
ghost use Rattle.farm_reading.specs.Pieces.{IsBatchEnd, list_bytes, listed_bytes, piece, rack_bytes, record_bytes, record_most};
ghost use Rattle.farm_reading.specs.Pieces.{request_room, survivor_room, through_close};

use crate::rack_lists::RackLists;
use farm_lists::{Listed, Record, count_requests};
use farm_orders::limits::MOST_ORDERS;
use std::alloc::{AllocError, Global};

/// What a survivor takes in memory beside its bytes, and a request beside its survivors: names, paths and rooms. With them a batch is
/// bounded in files too.
const SURVIVOR_ROOM: u64 = 512;

const REQUEST_ROOM: u64 = 512;

/// The bytes of memory that a request's survivors may take by what it lists.
fn request_bytes(listed: &Listed) -> u64
    ensures bytes { result ≡ (listed.now.len + survivor_room) * length listed.now.survivors + request_room }
    ensures few { result ≤ record_most }
{
    let count = listed.survivors().len() as u64;
    (u64::from(listed.length()) + SURVIVOR_ROOM)
        .saturating_mul(count)
        .saturating_add(REQUEST_ROOM)
}

/// The bytes of a record's survivors.
fn record_bytes(row: &Record) -> u64
    ensures bytes { result ≡ record_bytes row.now }
    ensures few { result ≤ record_most }
{
    match row {
        Record::Rebuild(listed) => request_bytes(listed),
        Record::Close => 0,
    }
}

/// The bytes of a list's survivors.
fn list_bytes(list: &[Record]) -> u64
    requires { length list.now ≤ order_limit }
    ensures bytes { result ≡ list_bytes list.now }
    ensures few { result ≤ order_limit * record_most }
{
    let mut bytes = 0u64;
    for index in 0..list.len() {
        bytes += record_bytes(&list[index]);
    }
    bytes
}

/// The bytes of the survivors of a rack's lists together.
fn rack_bytes(lists: &[Vec<Record>]) -> u64
    requires feeds { length lists.now ≤ feed_limit }
    requires orders { All (λ l. length l.items ≤ order_limit) lists.now }
    ensures bytes { result ≡ rack_bytes lists.now }
    ensures few { result ≤ feed_limit * (order_limit * record_most) }
{
    let mut bytes = 0u64;
    for index in 0..lists.len() {
        bytes += list_bytes(lists[index].as_slice());
    }
    bytes
}

/// Where the batch ends that begins at a rack: it has this rack, and those after it while their survivors take at most so many bytes
/// together, by what is listed.
pub fn end_of_racks(racks: &[RackLists], first: usize, most: u64) -> usize
    requires first { first < length racks.now }
    requires count { length racks.now ≤ rack_limit }
    ensures within { (first < result) × (result ≤ length racks.now) }
    ensures end { IsBatchEnd (λ from to. sum_by listed_bytes (slice_range racks.now from to)) (length racks.now) most first result }
{
    let mut bytes = 0u64;
    for rack in first..racks.len() {
        bytes += rack_bytes(racks[rack].feeds());
        if rack > first && bytes > most {
            return rack;
        }
    }
    racks.len()
}

/// The bytes of the survivors of a list's record at a position, where it has one there.
fn bytes_at(list: &[Record], position: usize) -> u64
    ensures bytes { result ≡ list_bytes (slice_range list.now position (position + 1)) }
    ensures few { result ≤ record_most }
{
    if position < list.len() {
        record_bytes(&list[position])
    } else {
        0
    }
}

/// The bytes of the survivors of all feeds' records at one position.
fn position_bytes(lists: &[&[Record]], position: usize) -> u64
    requires { length lists.now ≤ feed_limit }
    ensures bytes { result ≡ listed_bytes (piece (map (λ list. list.now) lists.now) position (position + 1)) }
    ensures few { result ≤ feed_limit * record_most }
{
    let mut bytes = 0u64;
    for index in 0..lists.len() {
        bytes += bytes_at(lists[index], position);
    }
    bytes
}

/// Where the piece of a rack ends that begins at a position: it has this position of each feed, and those after it while the survivors of
/// all feeds take at most so many bytes together.
pub fn end_of_positions(lists: &[&[Record]], first: usize, most: u64) -> usize
    requires first { first < order_limit }
    requires feeds { length lists.now ≤ feed_limit }
    ensures within { (first < result) × (result ≤ order_limit) }
    ensures end { IsBatchEnd (λ from to. listed_bytes (piece (map (λ list. list.now) lists.now) from to)) order_limit most first result }
{
    let mut bytes = 0u64;
    for position in first..MOST_ORDERS {
        bytes += position_bytes(lists, position);
        if position > first && bytes > most {
            return position;
        }
    }
    MOST_ORDERS
}

/// Of each list the records up to its first close, with that close: those after it are never served.
pub fn lists_through_close<'a>(
    alloc: Global,
    lists: &'a [Vec<Record>],
) -> Result<Vec<&'a [Record]>, AllocError>
    ensures { IfOk result (λ v. map (λ list. list.now) v.items ≡ map (λ list. through_close list.items) lists.now) }
{
    let mut cut = Vec::new(alloc);
    for index in 0..lists.len() {
        cut.push(list_through_close(lists[index].as_slice()))?;
    }
    Ok(cut)
}

/// A list up to its first close, with that close.
fn list_through_close(list: &[Record]) -> &[Record]
    ensures { result.now ≡ through_close list.now }
{
    let count = count_requests(list);
    // A record that isn't among the requests before the close is the close or after it.
    if count < list.len() {
        &list[..count + 1]
    } else {
        list
    }
}

/// The piece of a rack: of each list the records from one position to another, as far as it has them.
pub fn piece_of<'a>(
    alloc: Global,
    lists: &[&'a [Record]],
    first: usize,
    end: usize,
) -> Result<Vec<&'a [Record]>, AllocError>
    requires { first ≤ end }
    ensures { IfOk result (λ v. map (λ list. list.now) v.items ≡ piece (map (λ list. list.now) lists.now) first end) }
{
    let mut part = Vec::new(alloc);
    for index in 0..lists.len() {
        part.push(part_of(lists[index], first, end))?;
    }
    Ok(part)
}

/// The records of a list from one position to another, as far as it has them.
fn part_of(list: &[Record], first: usize, end: usize) -> &[Record]
    requires { first ≤ end }
    ensures { result.now ≡ slice_range list.now first end }
{
    let from = first.min(list.len());
    let to = end.min(list.len());
    &list[from..to]
}
