//! Laws of edge-shown conditions, each the contract of a function that does nothing.
ghost use Rattle.lh_edge.specs.Sorted.{TriggersAreInOrder};
ghost use Rattle.lh_edge.specs.Laws.{ValuationsTellAll, TriggersShow, RestsWithoutChange, TriggersAreWaited};

use lh_term::laws::swaps_keep_meaning;

/// What holds of the valuations of at most twelve atoms holds of all functions that give bits to terms.
pub fn valuations_tell_all()
    ensures { ValuationsTellAll }
{}

/// An edge-shown condition is 1 exactly where some trigger fires: its part changes as it says, and its gate is 1.
pub fn triggers_show()
    ensures { TriggersShow }
{
    swaps_keep_meaning();
}

/// An edge-shown condition is 0 where no trigger's part changes.
pub fn rests_without_change()
    ensures { RestsWithoutChange }
{
    swaps_keep_meaning();
}

/// The part of each trigger is of one bit, which is waited on.
pub fn triggers_are_waited()
    ensures { TriggersAreWaited }
{}

/// The triggers of a condition are the rise and fall of each part that can show it, the parts by argument and then by lowest bit: those of
/// one bit that are waited on and whose values before are atoms of its edge part, each once.
pub fn triggers_are_in_order()
    ensures { TriggersAreInOrder }
{}
