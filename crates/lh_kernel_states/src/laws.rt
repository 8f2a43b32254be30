//! Laws of what is kept of instances, each as the contract of a function that does nothing.
ghost use Rattle.lh_kernel_states.specs.Laws.{FittingStand, SensesAlike, WakesAlike, SensesWithin, InstanceUnitIsNamed};

/// Whatever fits stands for a state of the definition; and what stands for one senses and wakes as it does, within the signals.
pub fn state_law()
    ensures stand { FittingStand }
    ensures senses { SensesAlike }
    ensures wakes { WakesAlike }
    ensures within { SensesWithin }
    ensures named { InstanceUnitIsNamed }
{}
