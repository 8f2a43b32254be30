//! The laws of questions on a flow, each as the contract of a function that does nothing.
ghost use Rattle.lh_verify_flow.specs.Laws.{LackingIsReached, GivenAtStart, GivenAtEnd};

/// A value is lacking only at a block to which some route leads.
pub fn lacking_is_reached()
    ensures { LackingIsReached }
{}

/// A value is not lacking at the start of a block exactly where it is given before the block on each route.
pub fn given_at_start()
    ensures { GivenAtStart }
{}

/// A value is not lacking at the end of a block exactly where it is given before the block, or in it, on each route.
pub fn given_at_end()
    ensures { GivenAtEnd }
{}
