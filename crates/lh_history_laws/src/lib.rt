//! Laws of a history of wishes: the order of its entries, and the greatest of those that are due. Each is
//! the contract of a function that does nothing, so that other crates can cite it.
#![tactic(auto)]

ghost use Rattle.std.specs.Cmp.{IsTotalOrder};
ghost use Rattle.lh_types.specs.History.{claim_cmp};
ghost use Rattle.lh_history_laws.specs.Claims.{EqualInstantsAreOne, LevelAreMadeTogether};
ghost use Rattle.lh_history_laws.specs.Greatest.{GreatestIsFound, GreatestAreLevel};
ghost use Rattle.lh_history_laws.specs.Frames.{WishesSplit, HistoriesJoin, FramesSplit};

/// The entries of a history are in one total order. Two that are level in it were made by one
/// instance, at one instant and for one instant; instants that are level are one.
pub fn claim_law()
    ensures order { IsTotalOrder claim_cmp }
    ensures instants { EqualInstantsAreOne }
    ensures together { LevelAreMadeTogether }
{}

/// What is computed as the greatest of the entries that are due on a bit is the greatest, and it is
/// there exactly where one is due. Two greatest are level.
pub fn greatest_law()
    ensures found { GreatestIsFound }
    ensures level { GreatestAreLevel }
{}

/// The entries of what an instance wishes are those of its writes, one due instant after the other. So the wishes of one frame add
/// to a history what each instance in order wrote for each due instant, and nothing else.
pub fn frame_law()
    ensures wishes { WishesSplit }
    ensures histories { HistoriesJoin }
    ensures frames { FramesSplit }
{}
