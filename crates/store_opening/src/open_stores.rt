//! Stores: a folder, its code, and what is in it.
use crate::expecting::{expect_stripes, expect_sums, sums_of};
use crate::locks::Locks;
use crate::opening::{Access, Opening};
use crate::refusing::{refuse_other_code, refuse_watched, refuse_writing};
use crate::shared::shared_names;
use crate::unlisted::{listed, say_unlisted, say_unlisted_target};
use crate::unmounted::{LeftAlone, leave_alone, left_alone};
use lrc_code::Code;
use std::alloc::{AllocError, Global};
use std::mem;
use store_faults::{COUNTER_PREFIX, REPORT_HEADER, ROW_BEGIN, StoreFault, device_fault};
use store_folder::{Shared, Site, Sums, followed};
use store_listing::{Listing, StoreStripes, StripeNames, Unlisted, Wanted, Watched};
use store_repair::Stripe;

/// How what runs write to such paths begins.
const WRITTEN: [&str; 3] = [REPORT_HEADER, ROW_BEGIN, COUNTER_PREFIX];

/// A store that is open.
pub struct OpenStore {
    pub folder: String,
    pub code: Code,
    pub listing: Listing,
    /// Its stripes, and what is of none.
    pub found: StoreStripes,
    /// The digests that fragments have to have.
    pub sums: Option<Sums>,
    /// Keep other repairs out for as long as the store is open for one.
    pub locks: Locks,
    /// What is in the folder that rebuilt fragments are written to, if that isn't the store's.
    pub target: Option<Listing>,
    /// Whether a folder couldn't be listed that is there.
    pub has_unlisted: bool,
    /// The folders of disks at which none is mounted, and into which nothing is to be written.
    pub unmounted: Vec<String>,
    /// The names under which nothing is to be written, since others lead there too.
    pub shared: Shared,
}

impl Drop for OpenStore {
    fn drop(self) {
        let OpenStore {
            folder: _,
            code: _,
            listing: _,
            found: _,
            sums: _,
            locks: _,
            target: _,
            has_unlisted: _,
            unmounted: _,
            shared: _,
        } = self;
    }
}

/// Opens a store; where it is to be written into, no other run that writes works in it meanwhile. Its code is the one that is given, or
/// else `StripeNames::code`, which the descriptions and the places of the files say.
pub fn open_store(rt: &HostRuntime, opening: &Opening<'_>) -> Result<OpenStore, StoreFault> {
    let locks = match opening.access {
        Access::Writes { .. } => {
            let target = opening.to.unwrap_or(opening.folder);
            Locks::take(rt, target, opening.part)?
        }
        Access::Reads => Locks::none(rt.alloc()),
    };
    match open_locked(rt, opening, &locks) {
        Ok(opened) => Ok(opened.with(locks)),
        Err(fault) => {
            let _ = locks.release(rt);
            Err(fault)
        }
    }
}

/// What is in the folder of a store, and in the one that rebuilt fragments are written to, if that isn't the store's.
#[derive(Drop)]
struct Listings {
    listing: Listing,
    target: Option<Listing>,
}

/// What is known of a store by what is in its folder, but for its digests.
#[derive(Drop)]
struct Known {
    folder: String,
    code: Code,
    found: StoreStripes,
    has_unlisted: bool,
    unmounted: Vec<String>,
    shared: Shared,
}

/// A store that is open, but for its locks.
struct Unlocked {
    listings: Listings,
    known: Known,
    sums: Option<Sums>,
}

impl Drop for Unlocked {
    fn drop(self) {
        let Unlocked {
            listings: _,
            known: _,
            sums: _,
        } = self;
    }
}

impl Unlocked {
    /// The open store, with these locks.
    fn with(self, locks: Locks) -> OpenStore {
        let Unlocked {
            listings: Listings { listing, target },
            known: Known {
                folder,
                code,
                found,
                has_unlisted,
                unmounted,
                shared,
            },
            sums,
        } = self;
        OpenStore {
            folder,
            code,
            listing,
            found,
            sums,
            locks,
            target,
            has_unlisted,
            unmounted,
            shared,
        }
    }
}

/// Opens a store whose locks are taken. What the path of a report or of counters leads to is looked out for: it may be the name of a
/// fragment that is lost.
fn open_locked(
    rt: &HostRuntime,
    opening: &Opening<'_>,
    locks: &Locks,
) -> Result<Unlocked, StoreFault> {
    let alloc = rt.alloc();
    let mut ends = Vec::new(alloc);
    for path in [opening.report, opening.progress] {
        if let Some(path) = path {
            ends.push((String::from_str(alloc, path)?, end_of_links(rt, path)?))?;
        }
    }
    let mut watched = Vec::new(alloc);
    for (given, end) in &ends {
        match Watched::at(rt, given.as_str(), end.as_str(), &WRITTEN) {
            Ok(Some(path)) => watched.push(path)?,
            Ok(None) => {}
            Err(error) => {
                return Err(device_fault(String::from_str(alloc, given.as_str())?, error));
            }
        }
    }
    open_watched(rt, opening, locks, watched.as_slice())
}

/// The path that a path's links lead to. Where that can't be seen, a report might be written over a file of the store.
fn end_of_links(rt: &HostRuntime, path: &str) -> Result<String, StoreFault> {
    match followed(rt, String::from_str(rt.alloc(), path)?) {
        Ok(end) => Ok(end),
        Err(error) => Err(device_fault(String::from_str(rt.alloc(), path)?, error)),
    }
}

/// Opens a store, and looks out for paths that may be some of its own. What was made is handed on by reference: a function proves at each
/// of its ends that it drops all that it owns. That the digests can't be taken is said last.
fn open_watched(
    rt: &HostRuntime,
    opening: &Opening<'_>,
    locks: &Locks,
    watched: &[Watched<'_>],
) -> Result<Unlocked, StoreFault> {
    let sums = sums_of(rt, opening);
    let mut listings = match &sums {
        Ok(sums) => listings_of(rt, opening, locks, watched, sums.as_ref())?,
        Err(_) => listings_of(rt, opening, locks, watched, None)?,
    };
    let sums = sums?;
    match opened_in(rt, opening, sums.as_ref(), &mut listings) {
        Ok(known) => Ok(Unlocked {
            listings,
            known,
            sums,
        }),
        Err(fault) => Err(fault),
    }
}

/// Lists the folders of a store, and what has to be there by a list; a store is refused by what is in its folders.
fn listings_of(
    rt: &HostRuntime,
    opening: &Opening<'_>,
    locks: &Locks,
    watched: &[Watched<'_>],
    sums: Option<&Sums>,
) -> Result<Listings, StoreFault> {
    let wanted = Wanted {
        pattern: opening.pattern,
        code: opening.code.unwrap_or(Code::Wide),
        knows_code: opening.code.is_some(),
        has_stripes: true,
        part: opening.part,
        links: opening.links,
        asks_copies: true,
        sums,
        watched,
    };
    let listing = listed(rt, opening.folder, &wanted)?;
    match listed_target(rt, opening, &wanted) {
        Ok(target) => allowed(rt, opening, locks, Listings { listing, target }),
        Err(fault) => Err(fault),
    }
}

/// Folders that were listed, if the store isn't refused by what is in them.
fn allowed(
    rt: &HostRuntime,
    opening: &Opening<'_>,
    locks: &Locks,
    listings: Listings,
) -> Result<Listings, StoreFault> {
    let mut listings = listings;
    refuse_listed(rt, opening, locks, &listings)?;
    match expect_stripes(rt, opening, &mut listings.listing) {
        Ok(()) => Ok(listings),
        Err(fault) => Err(fault),
    }
}

/// What is known of a store whose folders were listed, if it may be opened.
fn opened_in(
    rt: &HostRuntime,
    opening: &Opening<'_>,
    sums: Option<&Sums>,
    listings: &mut Listings,
) -> Result<Known, StoreFault> {
    let code = opening.code.unwrap_or(Code::Wide);
    expect_sums(rt, opening, code, sums, &mut listings.listing)?;
    known_of(rt, opening, listings)
}

/// Refuses a store by what is in its folders.
fn refuse_listed(
    rt: &HostRuntime,
    opening: &Opening<'_>,
    locks: &Locks,
    listings: &Listings,
) -> Result<(), StoreFault> {
    let Listings { listing, target } = listings;
    refuse_watched(rt, listing)?;
    if let Some(target) = target {
        refuse_watched(rt, target)?;
    }
    refuse_writing(rt, opening, locks, target.as_ref().unwrap_or(listing))
}

/// What is known of a store by what is in its folder.
fn known_of(
    rt: &HostRuntime,
    opening: &Opening<'_>,
    listings: &mut Listings,
) -> Result<Known, StoreFault> {
    let Listings { listing, target } = listings;
    let code = match opening.code {
        Some(code) => code,
        None => listing.names.code(),
    };
    refuse_other_code(rt, opening, listing, code)?;
    let alloc = rt.alloc();
    let names = mem::replace(&mut listing.names, StripeNames::new(alloc, None));
    let is_empty = names.is_empty();
    let mut found = names.settled(alloc, &opening.pattern, code)?;
    let has_unlisted = say_unlisted(rt, listing, &opening.pattern, code, &found)?;
    refuse_empty(alloc, opening, &found, is_empty)?;
    let LeftAlone {
        names: unmounted,
        has_unseen,
    } = left_out(rt, opening, code, listing.unlisted.as_slice(), &mut found)?;
    let is_unlisted = match target.as_ref() {
        Some(target) => say_unlisted_target(rt, target)?,
        None => false,
    };
    let shared = shared_names(rt, opening, code, listing, target.as_ref())?;
    Ok(Known {
        folder: String::from_str(rt.alloc(), opening.folder)?,
        code,
        found,
        has_unlisted: has_unlisted || has_unseen || is_unlisted,
        unmounted,
        shared,
    })
}

/// The folders of disks that aren't mounted, whose stripes' files are taken from what was found.
fn left_out(
    rt: &HostRuntime,
    opening: &Opening<'_>,
    code: Code,
    unlisted: &[Unlisted],
    found: &mut StoreStripes,
) -> Result<LeftAlone, StoreFault> {
    let alone = left_alone(rt, opening, code, unlisted)?;
    leave_alone(
        rt.alloc(),
        &opening.pattern,
        code,
        alone.names.as_slice(),
        found,
    )?;
    Ok(alone)
}

/// What runs have left in the folder that rebuilt fragments are written to, if that isn't the store's.
fn listed_target(
    rt: &HostRuntime,
    opening: &Opening<'_>,
    wanted: &Wanted<'_>,
) -> Result<Option<Listing>, StoreFault> {
    let Some(to) = opening.to else {
        return Ok(None);
    };
    let left = Wanted {
        has_stripes: false,
        ..*wanted
    };
    Ok(Some(listed(rt, to, &left)?))
}

/// Refuses a store in which there are no stripes, or no names of fragments in any part.
fn refuse_empty(
    alloc: Global,
    opening: &Opening<'_>,
    found: &StoreStripes,
    is_empty: bool,
) -> Result<(), StoreFault> {
    if opening.needs_stripes && (is_empty || (opening.part.is_none() && found.files.is_empty())) {
        return Err(StoreFault::NoFragments {
            folder: String::from_str(alloc, opening.folder)?,
            names: String::from_str(alloc, opening.names)?,
        });
    }
    Ok(())
}

impl OpenStore {
    /// The stripes, in the order of their names.
    pub fn stripes(&self, rt: &HostRuntime) -> Result<Vec<Stripe<'_>>, AllocError> {
        let mut stripes = Vec::with_capacity(rt.alloc(), self.found.files.len())?;
        for (name, files) in self.found.files.iter() {
            stripes.push(Stripe {
                name: name.as_str(),
                files: *files,
            })?;
        }
        Ok(stripes)
    }

    /// Where the store is for a command that writes nothing into it.
    pub fn site_of<'a>(&'a self, opening: &Opening<'a>) -> Site<'a> {
        Site {
            folder: self.folder.as_str(),
            target: self.folder.as_str(),
            pattern: opening.pattern,
            code: self.code,
            sums: self.sums.as_ref(),
            tag: "",
            links: opening.links,
            unmounted: self.unmounted.as_slice(),
            shared: Some(&self.shared),
        }
    }
}
