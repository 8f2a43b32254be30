//! The shapes of processes.

use crate::reason::Reason;
use lh_edge::EdgeRowList;
use lh_region::DriveList;
use lh_term::part::PartList;

/// What a process may be lowered to.
#[derive(Drop)]
pub enum Shape {
    /// It reacts to every change of what it probes: the parts that it waits on, and its drives, merged.
    Comb { waited: PartList, drives: DriveList },
    /// It reacts to edges: its drives, each at the edges of triggers.
    Edge(EdgeRowList),
    /// It drives once and halts.
    Once(DriveList),
    /// It stays as it is.
    Left(Reason),
}
