//! Laws of the states of processes, each as the contract of a function that does nothing.
ghost use Rattle.lh_exec.specs.Laws.{FittingStands, WaitsAsHeld, WaitsWithin};
ghost use Rattle.lh_exec.specs.Steady.{ActivationsBegin, ActivationsAreSteady};

/// Each state that fits stands for some state. The parts of the signals for which it waits, and the instant at which it wakes by
/// itself, are those of what it stands for; these parts lie within the signals.
pub fn state_law()
    ensures stands { FittingStands }
    ensures waits { WaitsAsHeld }
    ensures within { WaitsWithin }
{}

/// Nothing goes wrong in an activation of a process of a well-formed module, from whatever state that fits, also one that no run
/// reaches, and whatever the bits of the signals and the instant are. A process that has not halted has a place to begin. At
/// each point that is reached what is held fits the types of its names, an instruction comes next, and it finds what it looks
/// for, so that no default is ever met. Nothing stops an activation but a call of a function, where as many as may be are open.
pub fn steady_law()
    ensures begins { ActivationsBegin }
    ensures steady { ActivationsAreSteady }
{}
