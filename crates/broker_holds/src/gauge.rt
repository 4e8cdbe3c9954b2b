//! How much waits for each other node, and whether that is too much.

ghost use Rattle.std.specs.Prelude.{◌≡◌, IfOk, replicate, slice_index_or, slice_set};
ghost use Rattle.broker_holds.specs.Lanes.{KeepsRoom, empty_lane, is_strained, lane_after, most_waiting};

use std::alloc::{AllocError, Global};

/// The most messages that may wait for another node that takes some of them before clients are held back.
const MOST_WAITING: usize = 4096;

/// While it takes none, one more may wait for each of so many milliseconds.
const EACH_MORE: u64 = 2;

/// A node that has taken nothing of what waits for it for so many milliseconds isn't waited for.
const STILL: u64 = 60_000;

/// What waits for another node.
#[derive(Clone, Copy, Debug)]
pub(crate) struct Lane {
    /// How many messages waited when that was told last.
    waiting: usize,
    /// When they last were 4,096 or fewer, or became fewer.
    moved: u64,
}

impl Lane {
    /// So many wait at a moment.
    fn after(self, waiting: usize, at: u64) -> Lane
        ensures { result ≡ lane_after waiting at self }
    {
        let moves = waiting <= MOST_WAITING || waiting < self.waiting;
        let moved = if moves { at } else { self.moved };
        Lane { waiting, moved }
    }

    /// How many messages may wait at a moment before clients are held back.
    fn most_waiting(&self, at: u64) -> u64
        ensures { result ≡ most_waiting at self.now }
    {
        MOST_WAITING as u64 + at.saturating_sub(self.moved) / EACH_MORE
    }

    /// Whether more wait than may, for a node whose link stands and that took some of them less than 60,000 milliseconds ago.
    fn is_strained(&self, stands: bool, at: u64) -> bool
        ensures { result ≡ is_strained stands at self.now }
    {
        stands
            && self.waiting as u64 > self.most_waiting(at)
            && at.saturating_sub(self.moved) < STILL
    }
}

/// Nothing waits.
const EMPTY: Lane = Lane {
    waiting: 0,
    moved: 0,
};

/// What waits for each node of a cluster.
#[derive(Drop)]
pub struct LaneGauge {
    lanes: Vec<Lane>,
}

impl LaneGauge {
    /// Nothing waits for any of so many nodes.
    pub fn new(alloc: Global, nodes: u16) -> Result<LaneGauge, AllocError>
        ensures { IfOk result (λ gauge. gauge.lanes.items ≡ replicate nodes empty_lane) }
    {
        let mut lanes = Vec::new(alloc);
        for _ in 0..nodes {
            lanes.push(EMPTY)?;
        }
        Ok(LaneGauge { lanes })
    }

    /// What waits for a node.
    fn lane(&self, node: u16) -> Lane
        ensures { result ≡ slice_index_or self.now.lanes.items node empty_lane }
    {
        match self.lanes.get(node as usize) {
            Some(lane) => *lane,
            None => EMPTY,
        }
    }

    /// So many messages wait for a node at a moment, and its link stands or not. It answers whether these are too many.
    pub fn note(&mut self, node: u16, waiting: usize, stands: bool, at: u64) -> bool
        ensures told { result ≡ is_strained stands at (lane_after waiting at (slice_index_or self.old.lanes.items node empty_lane)) }
        ensures noted { self.new.lanes.items ≡ slice_set self.old.lanes.items node (lane_after waiting at (slice_index_or self.old.lanes.items node empty_lane)) }
    {
        let lane = self.lane(node).after(waiting, at);
        if let Some(place) = self.lanes.get_mut(node as usize) {
            *place = lane;
        }
        lane.is_strained(stands, at)
    }
}

/// Nobody is held back for a node without a link, nor while no more than 4,096 messages wait. And while nobody is held back for a node whose link
/// stands, and that took some of what waits within a minute, there is room in its lane for 31,440 more.
pub fn lanes_keep_room()
    ensures { KeepsRoom }
{}
