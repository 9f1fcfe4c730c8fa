//! The memory of a batch's survivors, into which those of a later batch are read. No contract says which it is, since a shelf that reads
//! into other memory only takes longer.
use farm_orders::{Feeds, Order, RackList};
use std::alloc::{AllocError, Global};

/// The memory of the survivors of feeds, in their order; less of it where memory is refused to list it.
pub fn rooms_of(alloc: Global, feeds: Feeds) -> Vec<Vec<u8>> {
    let mut rooms = Vec::new(alloc);
    for rack in feeds.into_racks() {
        for list in rack {
            if push_rooms(&mut rooms, list).is_err() {
                return rooms;
            }
        }
    }
    rooms
}

/// Adds the memory of the survivors of a list's requests.
fn push_rooms(rooms: &mut Vec<Vec<u8>>, list: RackList) -> Result<(), AllocError> {
    for order in list.into_orders() {
        if let Order::Rebuild(request) = order {
            for fragment in request.into_survivors() {
                rooms.push(fragment.bytes)?;
            }
        }
    }
    Ok(())
}
