//! A walk through the places of a region, while it is under construction.

use lh_flat::Flat;
use lh_flat_parts::PartTable;
use lh_region::ahead::{Ahead, EdgeList};
use lh_region::rows::Rows;
use lh_region_places::places::Places;
use lh_term::term::TermId;

/// A region of a flat text.
#[derive(Clone, Copy)]
pub struct Region<'f> {
    pub flat: &'f Flat,
    pub parts: &'f PartTable,
    /// The head of the process.
    pub head: u32,
    /// Whether a probe gives the value of its part at an earlier activation.
    pub is_past: bool,
    /// Whether an edge to the head is an end.
    pub ends_at_head: bool,
}

/// A walk under construction.
#[derive(Drop)]
pub struct Walk {
    /// The places that were treated, in their order; the last one is being treated.
    pub places: Places,
    /// The edges to places that are still to be treated.
    pub ahead: Ahead,
    /// How many instructions the places of this region have so far.
    pub insts: usize,
    pub rows: Rows,
    /// The edges by which the ends go on, in the order of the ends.
    pub sources: EdgeList,
}

/// Where the instructions of a place stand.
#[derive(Clone, Copy)]
pub struct WalkPoint {
    pub place: usize,
    pub block: u32,
    pub turns: u32,
    pub cond: TermId,
}
