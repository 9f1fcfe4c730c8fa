//! The requests that lists have before their first closes, and what was read of each.
ghost use Rattle.std.specs.Prelude.{◌≡◌, IfOk, length, map};
ghost use Rattle.farm_lists.specs.Requests.{listed_before_close};

use crate::listed::Listed;
use crate::listing::Record;
use lrc_code::Place;
use std::alloc::{AllocError, Global};

/// A request of a list whose survivors were read, and the places of those that were left out, in the list's order.
#[derive(Drop)]
pub struct ReadRequest<'a> {
    pub listed: &'a Listed,
    pub unread: Vec<Place>,
}

/// The requests of a list before its first close.
pub fn requests_before_close(alloc: Global, list: &[Record]) -> Result<Vec<&Listed>, AllocError>
    ensures { IfOk result (λ v. map (λ r. r.now) v.items ≡ listed_before_close list.now) }
{
    let mut requests = Vec::new(alloc);
    for record in list {
        match record {
            Record::Rebuild(listed) => requests.push(listed)?,
            Record::Close => return Ok(requests),
        }
    }
    Ok(requests)
}

/// How many requests a list has before its first close. Takes no memory.
pub fn count_requests(list: &[Record]) -> usize
    ensures { result ≡ length (listed_before_close list.now) }
{
    let mut count = 0;
    for record in list {
        match record {
            Record::Rebuild(_) => count += 1,
            Record::Close => return count,
        }
    }
    count
}
