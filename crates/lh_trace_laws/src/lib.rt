//! Laws of what a file means: activations, values, frames and traces. Each is the contract of a function that does
//! nothing, so that other crates can cite it.
#![tactic(auto)]

ghost use Rattle.lh_trace_laws.specs.Activations.{ActivationComputes, RunawayComputes, OneActivation};
ghost use Rattle.lh_trace_laws.specs.Values.{ValueComputes, OneValue, ValueOfDue, BitsOfDue, BitsHaveValues, AsManyBits};
ghost use Rattle.lh_trace_laws.specs.Wishes.{WishExt, LaterDriveReplaces, ActsInOrder, FirstHistoryIsSound, HistoryStaysSound};
ghost use Rattle.lh_trace_laws.specs.FirstFault.{OneFirstFault, FaultlessHasNone, FaultlessOrFaulty};
ghost use Rattle.lh_trace_laws.specs.Frames.{NextComputes, BitsStay, TraceIsPrefix, TraceIsWithin, EqualSameTrace, SameTraceTurns, SameTraceLinks, RunGoesOn, RunHasEnded, LaterIsReached, WokenAreListed, WokenRise, ToggledBits};
ghost use Rattle.lh_trace_laws.specs.Paths.{PathComputes, TopPath, ChildPath, DesignsHaveParentsBefore};
ghost use Rattle.lh_trace_laws.specs.Probes.{ReadValuesFit};
ghost use Rattle.lh_trace_laws.specs.Replacing.{ReplacedSameTrace};

/// An activation is a list of executed instructions. The computing form finds it, there is at most
/// one, and a runaway is where there is none.
pub fn activation_law()
    ensures computes { ActivationComputes }
    ensures runaway { RunawayComputes }
    ensures one { OneActivation }
{}

/// The value of a bit at an instant is that of the greatest entry due by then. It depends on the set
/// of these entries alone: not on the order of the wishes, and on none that is due later.
pub fn value_law()
    ensures computes { ValueComputes }
    ensures one { OneValue }
    ensures due { ValueOfDue }
    ensures bits_of_due { BitsOfDue }
    ensures bits { BitsHaveValues }
    ensures as_many { AsManyBits }
{}

/// A wish is a map: two that give the same are one, and a later drive replaces an earlier one of the
/// same bits at the same instant. What an instance wishes in a frame is due later.
pub fn wish_law()
    ensures ext { WishExt }
    ensures replaces { LaterDriveReplaces }
    ensures acts { ActsInOrder }
{}

/// Where no two entries of a history compete and none is made later than the last frame, it stays so in
/// each frame that follows, so each bit has one value. A design begins so.
pub fn history_law()
    ensures first { FirstHistoryIsSound }
    ensures stays { HistoryStaysSound }
{}

/// A module has at most one first fault, and none where no instruction has a fault. What a text reads
/// as has one, or no instruction of it has a fault.
pub fn first_fault_law()
    ensures one { OneFirstFault }
    ensures none { FaultlessHasNone }
    ensures found { FaultlessOrFaulty }
{}

/// A value that is read from bits is of the type, whatever the bits are: so what a probe gives is always of its type.
pub fn probe_law()
    ensures { ReadValuesFit }
{}

/// The next instant is the least later one at which a wish is due or a process wakes by itself.
pub fn next_law()
    ensures { NextComputes }
{}

/// What is wished in a frame is due later, so the bits of the last frame are those by the history.
pub fn frame_law()
    ensures { BitsStay }
{}

/// The trace up to n frames has at most n, and is a prefix of the trace up to n + 1.
pub fn trace_law()
    ensures prefix { TraceIsPrefix }
    ensures within { TraceIsWithin }
{}

/// A run goes on from the world after k frames as it does from there; where there is none it has ended.
pub fn later_law()
    ensures goes_on { RunGoesOn }
    ensures ended { RunHasEnded }
    ensures reached { LaterIsReached }
{}

/// The instances that are listed as woken in a frame are those that are woken, in rising order.
pub fn woken_law()
    ensures listed { WokenAreListed }
    ensures rise { WokenRise }
{}

/// The bits of a signal that toggle are those in which it differs.
pub fn toggled_law()
    ensures { ToggledBits }
{}

/// An instance of a design has one path: the top's is its label, any other's is its parent's, a dot and its label.
pub fn path_law()
    ensures computes { PathComputes }
    ensures top { TopPath }
    ensures child { ChildPath }
    ensures parents { DesignsHaveParentsBefore }
{}

/// Having the same trace is an equivalence, and equal contents have it.
pub fn same_trace_law()
    ensures equal { EqualSameTrace }
    ensures turns { SameTraceTurns }
    ensures links { SameTraceLinks }
{}

/// A module in which any number of units are replaced, item by item, by units that may stand for
/// them has the same trace, for every top unit and every number of frames.
pub fn replaced_law()
    ensures { ReplacedSameTrace }
{}
