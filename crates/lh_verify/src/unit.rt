//! The first faulty instruction of a unit.
ghost use Rattle.std.specs.Prelude.{◌≡◌, ◌<◌, map, None, IsSome, IfOk, OnOk};
ghost use Rattle.std.specs.List.{list_any};
ghost use Rattle.lh_unit.specs.Arena.{IsArena, unit_count, kind_at, inst_count, table_at, contents, unit_text_at};
ghost use Rattle.lh_unit.specs.Within.{Each};
ghost use Rattle.lh_verify.specs.FirstFound as spec;
ghost use Rattle.lh_verify.specs.FirstFound.{FindsFault, LacksFirst, found_or};
ghost use Rattle.lh_verify.specs.Faults.{hides_paths as spot_hides_paths};
ghost use Rattle.lh_verify.specs.PhisById.{wrong_phi_at};
ghost use Rattle.lh_verify.specs.Spots.{spots_of};
ghost use Rattle.lh_verify_values.specs.Numbers.{NumbersGrow, NumbersParams};
ghost use Rattle.lh_verify_values.specs.Facts.{IsScope, items_in, text_in};
ghost use Rattle.lh_verify.specs.SpotsWithin.{SpotWithin};

use crate::phis::wrong_phis;
use crate::place::{hides_paths, lowest};
use crate::spots::{Spot, spots};
use lh_defined::{DefinedFault, defined};
use lh_types::memory::NoMemory;
use lh_unit::inst::{InstId, UnitId};
use lh_unit::module::Module;
use lh_verify_labels::labels::labels;
use lh_verify_labels::probes::probed;
use lh_verify_values::facts::facts;
use lh_verify_values::numbers::Types;
use lh_verify_values::params::NumberList;
use lh_verify_values::scope::Scope;
use std::alloc::Global;

/// A faulty instruction, and the number of its lowest fault.
#[derive(Clone, Copy, Debug)]
pub struct InstFault {
    pub inst: InstId,
    pub number: u8,
}

/// The first faulty instruction of a defined unit, if there is one, where the numbers of all parameters' types are known. Types of the unit
/// that have no number yet get one.
pub fn first_fault(
    alloc: Global,
    m: &Module,
    unit: UnitId,
    types: &mut Types,
    params: &[NumberList],
) -> Result<Option<InstFault>, NoMemory>
    requires unit { unit.0 < unit_count m.now }
    requires begun { IsSome (kind_at m.now unit.0) }
    requires params { NumbersParams types.old m.now params.now }
    ensures found { IfOk result (λ found. FindsFault (contents m.now) (unit_text_at m.now unit.0) found) }
    ensures grows { OnOk result (NumbersGrow types.old types.new) }
{
    let list = spots(alloc, m, unit)?;
    let insts = m.inst_count(unit);
    let known = facts(alloc, m, unit, insts, types)?;
    let from_probe = probed(alloc, m, unit, insts)?;
    let standing = labels(alloc, m, unit)?;
    let wrong = wrong_phis(alloc, m, unit, list.as_slice())?;
    let scope = Scope {
        module: m,
        unit,
        facts: known.as_slice(),
        probed: from_probe.as_slice(),
        labels: standing.as_slice(),
        types,
        params,
    };
    first_in(alloc, &scope, list.as_slice(), &wrong)
}

/// The first fault at these places, where what there is to know of the unit is known, and of each place whether it is a `phi` with fault 6.
fn first_in(
    alloc: Global,
    scope: &Scope<'_>,
    places: &[Spot],
    wrong_phis: &[bool],
) -> Result<Option<InstFault>, NoMemory>
    requires sound { IsArena scope.now.module.now }
    requires scope { IsScope scope.now }
    requires begun { IsSome (kind_at scope.now.module.now scope.now.unit.0) }
    requires places { places.now ≡ spots_of (table_at scope.now.module.now scope.now.unit.0) }
    requires within { Each (SpotWithin (inst_count scope.now.module.now scope.now.unit.0)) places.now }
    requires wrong { wrong_phis.now ≡ map (wrong_phi_at (table_at scope.now.module.now scope.now.unit.0)) places.now }
    ensures { IfOk result (λ found. FindsFault (items_in scope.now) (text_in scope.now) found) }
{
    let found = first_at(alloc, scope, places, wrong_phis, None)?;
    let hidden = are_hidden(alloc, scope, places, wrong_phis, found)?;
    match first_lacking(alloc, scope, places, hidden)? {
        None => Ok(found),
        Some(inst) => first_at(alloc, scope, places, wrong_phis, Some(inst)),
    }
}

/// Whether paths are not asked for, where it is known which is the first instruction with another fault than 7: where none has one,
/// no instruction needs to be looked at again.
fn are_hidden(
    alloc: Global,
    scope: &Scope<'_>,
    places: &[Spot],
    wrong_phis: &[bool],
    found: Option<InstFault>,
) -> Result<bool, NoMemory>
    requires scope { IsScope scope.now }
    requires within { Each (SpotWithin (inst_count scope.now.module.now scope.now.unit.0)) places.now }
    requires wrong { wrong_phis.now ≡ map (wrong_phi_at (table_at scope.now.module.now scope.now.unit.0)) places.now }
    requires found { found ≡ spec.first_at scope.now None places.now }
    ensures { IfOk result (λ b. b ≡ list_any (spot_hides_paths scope.now) places.now) }
{
    match found {
        None => Ok(false),
        Some(_) => any_hides_paths(alloc, scope, places, wrong_phis),
    }
}

/// The first instruction with fault 7, where it is asked for: `hidden` where some fault hides the paths.
fn first_lacking(
    alloc: Global,
    scope: &Scope<'_>,
    places: &[Spot],
    hidden: bool,
) -> Result<Option<InstId>, NoMemory>
    requires sound { IsArena scope.now.module.now }
    requires scope { IsScope scope.now }
    requires begun { IsSome (kind_at scope.now.module.now scope.now.unit.0) }
    requires places { places.now ≡ spots_of (table_at scope.now.module.now scope.now.unit.0) }
    requires hidden { hidden ≡ list_any (spot_hides_paths scope.now) places.now }
    ensures { IfOk result (λ lacks. LacksFirst (items_in scope.now) (text_in scope.now) lacks) }
{
    if hidden {
        return Ok(None);
    }
    match defined(alloc, scope.module, scope.unit) {
        Ok(()) => Ok(None),
        Err(DefinedFault::NotDefined { inst, value: _ }) => Ok(Some(inst)),
        Err(DefinedFault::OutOfMemory) => Err(NoMemory),
    }
}

/// Whether some instruction has one of the faults after which paths are not asked for.
fn any_hides_paths(
    alloc: Global,
    scope: &Scope<'_>,
    places: &[Spot],
    wrong_phis: &[bool],
) -> Result<bool, NoMemory>
    requires scope { IsScope scope.now }
    requires within { Each (SpotWithin (inst_count scope.now.module.now scope.now.unit.0)) places.now }
    requires wrong { wrong_phis.now ≡ map (wrong_phi_at (table_at scope.now.module.now scope.now.unit.0)) places.now }
    ensures { IfOk result (λ b. b ≡ list_any (spot_hides_paths scope.now) places.now) }
{
    for (k, place) in places.iter().enumerate() {
        if hides_paths(alloc, scope, *place, wrong_phis[k])? {
            return Ok(true);
        }
    }
    Ok(false)
}

/// The first of these instructions that has a fault, where it is known which is the first with fault 7.
fn first_at(
    alloc: Global,
    scope: &Scope<'_>,
    places: &[Spot],
    wrong_phis: &[bool],
    lacks: Option<InstId>,
) -> Result<Option<InstFault>, NoMemory>
    requires scope { IsScope scope.now }
    requires within { Each (SpotWithin (inst_count scope.now.module.now scope.now.unit.0)) places.now }
    requires wrong { wrong_phis.now ≡ map (wrong_phi_at (table_at scope.now.module.now scope.now.unit.0)) places.now }
    ensures { IfOk result (λ found. found ≡ spec.first_at scope.now lacks places.now) }
{
    for (k, place) in places.iter().enumerate() {
        let is_lacking = is_at(lacks, *place);
        if let Some(number) = lowest(alloc, scope, *place, wrong_phis[k], is_lacking)? {
            return Ok(Some(InstFault {
                inst: place.inst,
                number,
            }));
        }
    }
    Ok(None)
}

fn is_at(lacks: Option<InstId>, place: Spot) -> bool
    ensures { result ≡ spec.is_at lacks place }
{
    match lacks {
        Some(inst) => inst.0 == place.inst.0,
        None => false,
    }
}
