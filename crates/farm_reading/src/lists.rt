//! Reading the lists.
ghost use Rattle.std.specs.Prelude.{◌≡◌, ◌+◌, ◌++◌, ◌∷◌, [], OnOk, ◌<◌, ◌≤◌, ◌^◌, List, Option, Some, None, Ok, Err, IfOk, IfErr, IfSome};
ghost use Rattle.std.specs.Prelude.{is_some, length, map, option_map};
ghost use Rattle.std.specs.List.{All};
ghost use Rattle.farm_orders.specs.Limits.{feed_limit, order_limit, rack_limit};
ghost use Rattle.farm_lists.specs.Listing.{list_of};
ghost use Rattle.farm_lists.specs.declared.listing.Record.{Record};
ghost use Rattle.farm_shelves.specs.Files.{Files};
ghost use Rattle.farm_lists.specs.Names.{list_name};
ghost use Rattle.farm_reading.specs.Reading.{AreLists, HaveFeeds};
ghost use Rattle.farm_reading.specs.Faults.{CountsFault, Explains, IsListFault, IsRackFault, IsReadFault, serve_fault};

use crate::faults::ServeFault;
use crate::rack_lists::RackLists;
use farm_lists::{ListFault, MOST_LIST_BYTES, Record, list_file, read_list};
use farm_orders::limits::{MOST_FEEDS, MOST_RACKS};
use farm_shelves::Shelf;
use std::alloc::Global;

/// One byte more than a list may have.
const LIST_ROOM: usize = MOST_LIST_BYTES + 1;

/// The list of a rack's feed, where it is there.
fn read_feed_list<I: Shelf>(
    alloc: Global,
    input: &mut I,
    rack: usize,
    feed: usize,
) -> Result<Option<Vec<Record>>, ServeFault>
    requires { I.failed input.old < 2 ^ 63 }
    ensures same { I.files input.new ≡ I.files input.old }
    ensures few { IfOk result (λ list. IfSome list (λ l. length l.items ≤ order_limit)) }
    ensures list { IfOk result (λ list. (there : Files) → I.files input.old ≡ Some there
        → option_map list_of (there (list_name rack feed)) ≡ option_map (λ v. Ok v.items) list) }
    ensures calm { IfOk result (λ list. I.failed input.new ≡ I.failed input.old) }
    ensures fault { IfErr result (λ f. IsListFault f rack feed (I.files input.old) (I.failed input.old) (I.failed input.new)) }
{
    let name = list_file(alloc, rack, feed)?;
    let Some(bytes) = input.read(alloc, name.as_str(), LIST_ROOM)? else {
        return Ok(None);
    };
    match read_list(alloc, bytes.as_slice()) {
        Ok(list) => Ok(Some(list)),
        Err(fault) => Err(list_fault(rack, feed, fault)),
    }
}

/// The fault of a list, as serving's.
fn list_fault(rack: usize, feed: usize, fault: ListFault) -> ServeFault
    ensures { result ≡ serve_fault rack feed fault }
{
    match fault {
        ListFault::OutOfMemory => ServeFault::OutOfMemory,
        _ => ServeFault::List { rack, feed, fault },
    }
}

/// The lists of a rack's feeds; none where the rack is absent.
fn read_rack_lists<I: Shelf>(
    alloc: Global,
    input: &mut I,
    rack: usize,
) -> Result<Vec<Vec<Record>>, ServeFault>
    requires { I.failed input.old < 2 ^ 63 }
    ensures same { I.files input.new ≡ I.files input.old }
    ensures lists { IfOk result (λ v. (there : Files) → I.files input.old ≡ Some there → HaveFeeds there rack 0 (map (λ l. l.items) v.items)
        × (there (list_name rack (length v.items)) ≡ None)) }
    ensures feeds { IfOk result (λ v. length v.items ≤ feed_limit) }
    ensures orders { IfOk result (λ v. All (λ l. length l.items ≤ order_limit) v.items) }
    ensures calm { IfOk result (λ v. I.failed input.new ≡ I.failed input.old) }
    ensures why { IfErr result (λ f. (there : Files) → I.files input.old ≡ Some there → IsRackFault f rack there) }
    ensures fault { IfErr result (λ f. CountsFault f (I.failed input.old) (I.failed input.new)) }
{
    let mut feeds = Vec::new(alloc);
    for feed in 0..MOST_FEEDS {
        match read_feed_list(alloc, input, rack, feed)? {
            Some(list) => feeds.push(list)?,
            None => return Ok(feeds),
        }
    }
    if has_list(alloc, input, rack, MOST_FEEDS)? {
        return Err(ServeFault::BadFeeds);
    }
    Ok(feeds)
}

/// The lists of all racks: of each rack its feeds, up to one that is absent, and then those of the next rack.
pub fn read_lists<I: Shelf>(alloc: Global, input: &mut I) -> Result<Vec<RackLists>, ServeFault>
    requires { I.failed input.old < 2 ^ 62 }
    ensures same { I.files input.new ≡ I.files input.old }
    ensures lists { IfOk result (λ v. (there : Files) → I.files input.old ≡ Some there → AreLists there v.items) }
    ensures racks { IfOk result (λ v. length v.items ≤ rack_limit) }
    ensures feeds { IfOk result (λ v. All (λ feeds. (0 < length feeds) × (length feeds ≤ feed_limit)) v.items) }
    ensures orders { IfOk result (λ v. All (λ feeds. All (λ l. length l ≤ order_limit) feeds) v.items) }
    ensures calm { IfOk result (λ v. I.failed input.new ≡ I.failed input.old) }
    ensures why { IfErr result (λ f. (there : Files) → I.files input.old ≡ Some there → Explains f there) }
    ensures fault { IfErr result (λ f. CountsFault f (I.failed input.old) (I.failed input.new)) }
{
    let mut racks = Vec::new(alloc);
    for rack in 0..MOST_RACKS {
        let feeds = read_rack_lists(alloc, input, rack)?;
        if feeds.is_empty() {
            if rack == 0 {
                return Err(ServeFault::NoRacks);
            }
            return Ok(racks);
        }
        racks.push(RackLists::from_checked(feeds))?;
    }
    if has_list(alloc, input, MOST_RACKS, 0)? {
        return Err(ServeFault::TooManyRacks);
    }
    Ok(racks)
}

/// Whether the list of a rack's feed is there.
fn has_list<I: Shelf>(
    alloc: Global,
    input: &mut I,
    rack: usize,
    feed: usize,
) -> Result<bool, ServeFault>
    requires { I.failed input.old < 2 ^ 63 }
    ensures same { I.files input.new ≡ I.files input.old }
    ensures has { IfOk result (λ has. (there : Files) → I.files input.old ≡ Some there → is_some (there (list_name rack feed)) ≡ has) }
    ensures calm { IfOk result (λ has. I.failed input.new ≡ I.failed input.old) }
    ensures fault { IfErr result (λ f. IsReadFault f (I.failed input.old) (I.failed input.new)) }
{
    let name = list_file(alloc, rack, feed)?;
    Ok(input.read(alloc, name.as_str(), 0)?.is_some())
}
