//! A place gives terms to values and variables.
ghost use Rattle.std.specs.Prelude.{◌≡◌, ◌<◌, length, OnOk};
ghost use Rattle.lh_region_places.specs.Asked.{IsWithAt};
ghost use Rattle.lh_region.specs.Gives.{GivesTerm};

use lh_region_places::places::Places;
use lh_term::term::TermId;
use lh_types::memory::NoMemory;

/// Gives a term to a value or variable at the place that is treated.
pub fn give(places: &mut Places, at: usize, value: u32, term: TermId) -> Result<(), NoMemory>
    requires { at < length places.old.items }
    ensures with_term { OnOk result (IsWithAt places.old.items at value term places.new.items) }
    ensures gives { OnOk result (GivesTerm places.old.items at value term places.new.items) }
{
    places.keep(at, value, term)?;
    Ok(())
}
