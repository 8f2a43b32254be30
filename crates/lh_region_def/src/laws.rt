//! The law of rows, each law as the contract of a function that does nothing.
ghost use Rattle.lh_region_def.specs.Adjacent.{AdjacentDrivesMerge, MergedDriveIsTyped};
ghost use Rattle.lh_region_def.specs.Solved.{RegionIsSolved};
ghost use Rattle.lh_region_def.specs.Laws.{AgainFromHead, FirstActivation, HeadStaysKnown, RowsAreTyped, SecondRegion};

/// The first activation of an instance comes to exactly one end of its first region: the one whose condition holds. Its wish has
/// the drives whose conditions hold, in order, and what is known at the end is held.
pub fn first_activation()
    ensures { FirstActivation }
{}

/// So does each activation that begins where the process waits for the head.
pub fn again_from_head()
    ensures { AgainFromHead }
{}

/// What is known at the head is still held where a process waits for it, whatever the parts' values are then.
pub fn head_stays_known()
    ensures { HeadStaysKnown }
{}

/// Every term of the rows of the first region is typed.
pub fn rows_are_typed()
    ensures { RowsAreTyped }
{}

/// An activation that begins at the `wait` at which the first region ended goes through the second region, and where that ends by
/// entering the head, through the first one again: its wish has the drives of both.
pub fn second_region()
    ensures { SecondRegion }
{}

/// Two drives of one part and one delay that follow each other wish what they wish as one: where either condition holds, the second
/// value where the second does. As one they are typed, where each is.
pub fn adjacent_drives_merge()
    ensures merge { AdjacentDrivesMerge }
    ensures typed { MergedDriveIsTyped }
{}

/// A region is what its equations say: each place to which edges lead has the condition that one of them is taken and the knowledge in which
/// they join, and the edges and rows of the region are those that its places give so, in the order of places.
pub fn region_is_solved()
    ensures { RegionIsSolved }
{}
