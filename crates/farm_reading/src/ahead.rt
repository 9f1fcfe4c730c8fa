//! The files that are read after a batch, which the shelf may read ahead while the batch is answered. No contract says which they are,
//! since a shelf that reads others ahead, or none, only takes longer.
ghost use Rattle.std.specs.Prelude.{◌≤◌, length};
ghost use Rattle.farm_orders.specs.Limits.{feed_limit, rack_limit};

use crate::cutting::{end_of_positions, end_of_racks, lists_through_close, piece_of};
use crate::fragments::push_fragment_files;
use crate::rack_lists::RackLists;
use farm_lists::{Record, requests_before_close};
use farm_orders::limits::MOST_ORDERS;
use farm_shelves::FileRead;
use std::alloc::{AllocError, Global};

/// The files of the survivors that are read of the batch that begins at a rack; none after the last rack. A batch's bytes bound them.
pub fn files_of_batch(
    alloc: Global,
    racks: &[RackLists],
    first: usize,
    most: u64,
) -> Result<Vec<FileRead>, AllocError>
    requires { length racks.now ≤ rack_limit }
{
    if first >= racks.len() {
        return Ok(Vec::new(alloc));
    }
    let end = end_of_racks(racks, first, most);
    if end == first + 1 {
        let lists = lists_through_close(alloc, racks[first].feeds())?;
        return files_of_piece(alloc, lists.as_slice(), 0, most);
    }
    let mut files = Vec::new(alloc);
    for rack in first..end {
        let lists = lists_through_close(alloc, racks[rack].feeds())?;
        push_files(alloc, &mut files, lists.as_slice())?;
    }
    Ok(files)
}

/// The files of the survivors that are read of the piece of a rack that begins at a position; none after the last position.
pub fn files_of_piece(
    alloc: Global,
    lists: &[&[Record]],
    first: usize,
    most: u64,
) -> Result<Vec<FileRead>, AllocError>
    requires { length lists.now ≤ feed_limit }
{
    let mut files = Vec::new(alloc);
    if first < MOST_ORDERS {
        let end = end_of_positions(lists, first, most);
        let part = piece_of(alloc, lists, first, end)?;
        push_files(alloc, &mut files, part.as_slice())?;
    }
    Ok(files)
}

/// Adds the files of lists, one list after the other.
fn push_files(
    alloc: Global,
    files: &mut Vec<FileRead>,
    lists: &[&[Record]],
) -> Result<(), AllocError> {
    for list in lists {
        for listed in requests_before_close(alloc, list)? {
            push_fragment_files(alloc, files, listed)?;
        }
    }
    Ok(())
}
