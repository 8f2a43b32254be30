//! The faults of an instruction at its place.
ghost use Rattle.std.specs.Prelude.{◌≡◌, ◌<◌, option_map, IfOk};
ghost use Rattle.lh_unit.specs.Arena.{inst_count, table_at};
ghost use Rattle.lh_unit.specs.Naming.{inst_text};
ghost use Rattle.lh_unit.specs.Within.{Each, InstWithin};
ghost use Rattle.lh_unit.specs.WellFormed as spec;
ghost use Rattle.lh_unit.specs.WellFormed.{number_of};
ghost use Rattle.lh_verify_operands.specs.Operands.{UseWithin};
ghost use Rattle.lh_verify.specs.PhisById.{phi_is_wrong, wrong_phi_at};
ghost use Rattle.lh_verify_values.specs.Facts.{IsScope, HasItsSig, text_in, naming_in, sizes_in, items_in};
ghost use Rattle.lh_verify_operands.specs.Uses.{uses_of};
ghost use Rattle.lh_verify.specs.Faults as faults;
ghost use Rattle.lh_verify.specs.Faults.{lowest_of_operands, lowest_of_place};

use crate::allowed::{ends_wrong, in_function, is_allowed};
use crate::arguments::{arguments_differ, result_fits};
use crate::kinds::{any_has_no_kind, any_has_wrong_kind};
use crate::spots::Spot;
use crate::undefined::is_undefined;
use crate::units::names_function;
use lh_types::memory::NoMemory;
use lh_unit::inst::Inst;
use lh_verify_operands::uses::{Use, UseList, uses};
use lh_verify_types::types_fit;
use lh_verify_values::scope::Scope;
use std::alloc::Global;

/// Whether kinds and types are asked: those of a `ret` only in a function.
fn is_asked(scope: &Scope<'_>, inst: &Inst) -> bool
    requires { IsScope scope.now }
    ensures { result ≡ spec.is_asked (text_in scope.now) (inst_text (naming_in scope.now) inst.now) }
{
    match inst {
        Inst::Ret(None) | Inst::Ret(Some(_)) => in_function(scope.kind()),
        _ => true,
    }
}

/// Whether `inst` names a function, or `call` names none.
fn names_wrong_unit(scope: &Scope<'_>, inst: &Inst) -> bool
    requires scope { IsScope scope.now }
    requires within { InstWithin (sizes_in scope.now) inst.now }
    ensures { result ≡ spec.names_wrong_unit (items_in scope.now) (inst_text (naming_in scope.now) inst.now) }
{
    match inst {
        Inst::Child { unit, .. } => names_function(scope, *unit),
        Inst::Call { unit, .. } => !names_function(scope, *unit),
        _ => false,
    }
}

/// Whether it is a `sig` whose operand comes from a `prb`.
fn probes_for_signal(scope: &Scope<'_>, inst: &Inst) -> bool
    requires scope { IsScope scope.now }
    requires within { InstWithin (sizes_in scope.now) inst.now }
    requires sig { HasItsSig scope.now inst.now }
    ensures { result ≡ spec.probes_for_signal (text_in scope.now) (inst_text (naming_in scope.now) inst.now) }
{
    match inst {
        Inst::Sig(of) => scope.comes_from_probe(of.value),
        _ => false,
    }
}

/// Fault 2 of an instruction with these operands.
fn is_wrong_kind(scope: &Scope<'_>, inst: &Inst, operands: &[Use]) -> bool
    requires scope { IsScope scope.now }
    requires within { InstWithin (sizes_in scope.now) inst.now }
    requires sig { HasItsSig scope.now inst.now }
    requires operands { operands.now ≡ uses_of inst.now }
    requires operands_within { Each (UseWithin (sizes_in scope.now)) operands.now }
    ensures { result ≡ spec.is_wrong_kind (items_in scope.now) (text_in scope.now) (inst_text (naming_in scope.now) inst.now) }
{
    if !is_asked(scope, inst) {
        return false;
    }
    if any_has_wrong_kind(scope, operands) {
        return true;
    }
    if names_wrong_unit(scope, inst) {
        return true;
    }
    probes_for_signal(scope, inst)
}

/// Fault 3 of an instruction with these operands.
fn is_wrong_type(scope: &Scope<'_>, inst: &Inst, operands: &[Use]) -> bool
    requires scope { IsScope scope.now }
    requires within { InstWithin (sizes_in scope.now) inst.now }
    requires operands { operands.now ≡ uses_of inst.now }
    requires operands_within { Each (UseWithin (sizes_in scope.now)) operands.now }
    ensures { result ≡ spec.is_wrong_type (items_in scope.now) (text_in scope.now) (inst_text (naming_in scope.now) inst.now) }
{
    if !is_asked(scope, inst) {
        return false;
    }
    if any_has_no_kind(scope, operands) {
        return true;
    }
    if !types_fit(scope, inst) {
        return true;
    }
    !result_fits(scope, inst)
}

/// The operands of an instruction.
fn operands_of(alloc: Global, scope: &Scope<'_>, inst: &Inst) -> Result<UseList, NoMemory>
    requires { InstWithin (sizes_in scope.now) inst.now }
    ensures { IfOk result (λ list. (list ≡ uses_of inst.now) × Each (UseWithin (sizes_in scope.now)) list) }
{
    uses(alloc, inst)
}

/// Faults 1 to 3 of an instruction: the lowest.
fn operand_fault(alloc: Global, scope: &Scope<'_>, inst: &Inst) -> Result<Option<u8>, NoMemory>
    requires scope { IsScope scope.now }
    requires within { InstWithin (sizes_in scope.now) inst.now }
    requires sig { HasItsSig scope.now inst.now }
    ensures { IfOk result (λ n. n ≡ lowest_of_operands (items_in scope.now) (text_in scope.now) (inst_text (naming_in scope.now) inst.now)) }
{
    let list = operands_of(alloc, scope, inst)?;
    Ok(lowest_by_operands(scope, inst, list.as_slice()))
}

/// Faults 1 to 3 of an instruction with these operands: the lowest.
fn lowest_by_operands(scope: &Scope<'_>, inst: &Inst, operands: &[Use]) -> Option<u8>
    requires scope { IsScope scope.now }
    requires within { InstWithin (sizes_in scope.now) inst.now }
    requires sig { HasItsSig scope.now inst.now }
    requires operands { operands.now ≡ uses_of inst.now }
    requires operands_within { Each (UseWithin (sizes_in scope.now)) operands.now }
    ensures { result ≡ lowest_of_operands (items_in scope.now) (text_in scope.now) (inst_text (naming_in scope.now) inst.now) }
{
    if is_undefined(scope, inst, operands) {
        return Some(1);
    }
    if is_wrong_kind(scope, inst, operands) {
        return Some(2);
    }
    if is_wrong_type(scope, inst, operands) {
        return Some(3);
    }
    None
}

/// Faults 4 to 8 of an instruction, where it is known whether it has the faults 6 and 7: the lowest.
fn place_fault(
    scope: &Scope<'_>,
    spot: Spot,
    inst: &Inst,
    wrong_phi: bool,
    lacks: bool,
) -> Option<u8>
    requires scope { IsScope scope.now }
    requires within { InstWithin (sizes_in scope.now) inst.now }
    requires phi { wrong_phi ≡ phi_is_wrong (table_at scope.now.module.now scope.now.unit.0) spot inst.now }
    ensures { result ≡ lowest_of_place scope.now spot inst.now lacks }
{
    let kind = scope.kind();
    if !is_allowed(scope, kind, inst) {
        return Some(4);
    }
    if ends_wrong(scope, kind, inst, spot.last) {
        return Some(5);
    }
    if wrong_phi {
        return Some(6);
    }
    if lacks {
        return Some(7);
    }
    if arguments_differ(scope, inst) {
        return Some(8);
    }
    None
}

/// The number of the lowest fault of the instruction at a place, where it is known whether it has the faults 6 and 7.
pub fn lowest(
    alloc: Global,
    scope: &Scope<'_>,
    spot: Spot,
    wrong_phi: bool,
    lacks: bool,
) -> Result<Option<u8>, NoMemory>
    requires scope { IsScope scope.now }
    requires within { spot.inst.0 < inst_count scope.now.module.now scope.now.unit.0 }
    requires phi { wrong_phi ≡ wrong_phi_at (table_at scope.now.module.now scope.now.unit.0) spot }
    ensures { IfOk result (λ n. n ≡ option_map number_of (faults.lowest scope.now spot lacks)) }
{
    let inst = scope.inst(spot.inst);
    match operand_fault(alloc, scope, inst)? {
        Some(number) => Ok(Some(number)),
        None => Ok(place_fault(scope, spot, inst, wrong_phi, lacks)),
    }
}

/// Whether the instruction at a place has one of the faults 1, 5 and 6, after which paths are not asked for, where it is
/// known whether it has fault 6.
pub fn hides_paths(
    alloc: Global,
    scope: &Scope<'_>,
    spot: Spot,
    wrong_phi: bool,
) -> Result<bool, NoMemory>
    requires scope { IsScope scope.now }
    requires within { spot.inst.0 < inst_count scope.now.module.now scope.now.unit.0 }
    requires phi { wrong_phi ≡ wrong_phi_at (table_at scope.now.module.now scope.now.unit.0) spot }
    ensures { IfOk result (λ b. b ≡ faults.hides_paths scope.now spot) }
{
    if wrong_phi {
        return Ok(true);
    }
    let inst = scope.inst(spot.inst);
    if ends_wrong(scope, scope.kind(), inst, spot.last) {
        return Ok(true);
    }
    let list = operands_of(alloc, scope, inst)?;
    Ok(is_undefined(scope, inst, list.as_slice()))
}
