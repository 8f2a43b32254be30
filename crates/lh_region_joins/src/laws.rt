//! Laws of joining edges. Each is the contract of a function that does nothing, so that other crates can cite it.
ghost use Rattle.lh_region_joins.specs.Joins.{MergedByConditions, TakenByConditions};

/// Whether some of the edges is taken depends on their conditions alone.
pub fn taken_law()
    ensures { TakenByConditions }
{}

/// What is merged depends on the conditions of the edges alone.
pub fn merged_law()
    ensures { MergedByConditions }
{}
