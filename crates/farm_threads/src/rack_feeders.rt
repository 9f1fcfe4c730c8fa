//! The threads of a rack's feeders.
ghost use Rattle.std.specs.Prelude.{◌≡◌, ◌<◌, ◌≤◌, [], IfOk, vec_len, vec_capacity};
ghost use Rattle.list_members.specs.Lists.{Each};
ghost use Rattle.farm_orders.specs.Limits.{feed_limit};
ghost use Rattle.farm_threads.specs.Threads.{AreOfGate};

use crate::feeder::{Fed, FeederHandle};
use crate::given::Feeder;
use farm_lanes::{Gate, Right};
use std::alloc::{AllocError, Global};

/// Empty lists with room for so many feeders of a rack, for their threads, and for what they give back.
#[derive(Drop)]
pub struct FeederSpace<'a> {
    pub feeds: usize,
    pub feeders: Vec<Feeder<'a>>,
    pub handles: Vec<FeederHandle<'a>>,
    pub given_back: Vec<Fed<'a>>,
    pub rights: Vec<Right>,
    pub ghost given: { (feeders.items ≡ []) × (feeds ≤ vec_capacity feeders) × (handles.items ≡ []) × (feeds ≤ vec_capacity handles) },
    pub ghost left: { (given_back.items ≡ []) × (feeds ≤ vec_capacity given_back) × (rights.items ≡ []) × (feeds ≤ vec_capacity rights) },
}

/// Empty lists with room for so many feeders of a rack.
pub fn feeder_space_for<'a>(alloc: Global, feeds: usize) -> Result<FeederSpace<'a>, AllocError>
    ensures { IfOk result (λ s. s.feeds ≡ feeds) }
{
    Ok(FeederSpace {
        feeds,
        feeders: Vec::with_capacity(alloc, feeds)?,
        handles: Vec::with_capacity(alloc, feeds)?,
        given_back: Vec::with_capacity(alloc, feeds)?,
        rights: Vec::with_capacity(alloc, feeds)?,
    })
}

/// The threads of a rack's feeders, with their gate, and room for what they give back.
#[derive(Drop)]
pub struct RackFeeders<'a> {
    pub gate: &'a Gate,
    pub handles: Vec<FeederHandle<'a>>,
    pub given_back: Vec<Fed<'a>>,
    pub rights: Vec<Right>,
    pub ghost own: { AreOfGate gate.now handles.items },
    pub ghost some: { (0 < vec_len handles) × (vec_len handles ≤ feed_limit) },
    pub ghost room: { (given_back.items ≡ []) × (vec_len handles ≤ vec_capacity given_back) × (rights.items ≡ [])
        × (vec_len handles ≤ vec_capacity rights) },
}

/// A rack's feeders before their threads start, with their gate, and room for what they give back.
#[derive(Drop)]
pub struct RackRoom<'a> {
    pub gate: &'a Gate,
    pub feeders: Vec<Feeder<'a>>,
    pub handles: Vec<FeederHandle<'a>>,
    pub given_back: Vec<Fed<'a>>,
    pub rights: Vec<Right>,
    pub ghost own: { Each (λ f. f.gate.now ≡ gate.now) feeders.items },
    pub ghost some: { (0 < vec_len feeders) × (vec_len feeders ≤ feed_limit) },
    pub ghost room: { (handles.items ≡ []) × (vec_len feeders ≤ vec_capacity handles) × (given_back.items ≡ [])
        × (vec_len feeders ≤ vec_capacity given_back) × (rights.items ≡ []) × (vec_len feeders ≤ vec_capacity rights) },
}
