//! Edges to a place.

use lh_term::term::TermId;

/// An edge to a place: the place that it comes from, the block of that, and when it is taken.
#[derive(Clone, Copy)]
pub struct Edge {
    pub from: usize,
    pub block: u32,
    pub cond: TermId,
}
