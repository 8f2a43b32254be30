//! Fault 1: an instruction names a value, label or unit that is defined nowhere in its scope.
ghost use Rattle.std.specs.Prelude.{◌≡◌, ◌<◌, not, map};
ghost use Rattle.std.specs.List.{list_any};
ghost use Rattle.lh_unit.specs.Naming.{edge_text, inst_text};
ghost use Rattle.lh_unit.specs.Within.{Each, EdgeWithin, InstWithin};
ghost use Rattle.lh_unit.specs.WellFormed as spec;
ghost use Rattle.lh_verify.specs.OperandTests.{label_is_missing as name_is_missing, edge_is_missing, label_is_missing_in, unit_is_missing_in};
ghost use Rattle.lh_verify_operands.specs.Operands.{UseWithin};
ghost use Rattle.lh_verify_values.specs.Facts.{IsScope, items_in, text_in, naming_in, sizes_in};
ghost use Rattle.lh_verify_operands.specs.Uses.{uses_of};
ghost use Rattle.lh_verify_operands.specs.Leading.{led_to};
ghost use Rattle.lh_unit.specs.declared.inst.BlockId.{BlockId};

use crate::kinds::any_names_nothing;
use crate::units::is_missing;
use lh_unit::inst::{BlockId, Inst, PhiEdge};
use lh_verify_operands::successors::{Successors, successors_of};
use lh_verify_operands::uses::Use;
use lh_verify_values::scope::Scope;

/// Whether no block of the unit has a label.
fn label_is_missing(scope: &Scope<'_>, block: BlockId) -> bool
    requires scope { IsScope scope.now }
    requires within { block.0 < (sizes_in scope.now).labels }
    ensures { result ≡ name_is_missing (text_in scope.now) ((naming_in scope.now).label_name block.0) }
{
    !scope.stands(block)
}

/// Whether an edge of a `phi` names a label that no block has.
fn some_edge_is_missing(scope: &Scope<'_>, edges: &[PhiEdge]) -> bool
    requires scope { IsScope scope.now }
    requires within { Each (EdgeWithin (sizes_in scope.now)) edges.now }
    ensures { result ≡ list_any (edge_is_missing (text_in scope.now)) (map (edge_text (naming_in scope.now)) edges.now) }
{
    for edge in edges {
        if label_is_missing(scope, edge.block) {
            return true;
        }
    }
    false
}

/// Whether an instruction leads to a label that no block has.
fn some_target_is_missing(scope: &Scope<'_>, to: Successors) -> bool
    requires scope { IsScope scope.now }
    requires within { Each (λ (b : BlockId). b.0 < (sizes_in scope.now).labels) (led_to to) }
    ensures { result ≡ list_any (λ n. name_is_missing (text_in scope.now) n) (map (λ (b : BlockId). (naming_in scope.now).label_name b.0) (led_to to)) }
{
    match to {
        Successors::Nowhere => false,
        Successors::To(to) => label_is_missing(scope, to),
        Successors::Either(zero, one) => {
            label_is_missing(scope, zero) || label_is_missing(scope, one)
        }
    }
}

/// Whether an instruction names a label that no block has.
fn names_missing_label(scope: &Scope<'_>, inst: &Inst) -> bool
    requires scope { IsScope scope.now }
    requires within { InstWithin (sizes_in scope.now) inst.now }
    ensures { result ≡ label_is_missing_in (text_in scope.now) (inst_text (naming_in scope.now) inst.now) }
{
    match inst {
        Inst::Phi { ty: _, edges } => some_edge_is_missing(scope, edges.as_slice()),
        _ => some_target_is_missing(scope, successors_of(inst)),
    }
}

/// Whether an instruction names a unit that is defined nowhere.
fn names_missing_unit(scope: &Scope<'_>, inst: &Inst) -> bool
    requires scope { IsScope scope.now }
    requires within { InstWithin (sizes_in scope.now) inst.now }
    ensures { result ≡ unit_is_missing_in (items_in scope.now) (inst_text (naming_in scope.now) inst.now) }
{
    match inst {
        Inst::Child { unit, .. } => is_missing(scope, *unit),
        Inst::Call { unit, .. } => is_missing(scope, *unit),
        _ => false,
    }
}

/// Whether an instruction with these operands names something that is defined nowhere.
pub fn is_undefined(scope: &Scope<'_>, inst: &Inst, operands: &[Use]) -> bool
    requires scope { IsScope scope.now }
    requires within { InstWithin (sizes_in scope.now) inst.now }
    requires operands { operands.now ≡ uses_of inst.now }
    requires operands_within { Each (UseWithin (sizes_in scope.now)) operands.now }
    ensures { result ≡ spec.is_undefined (items_in scope.now) (text_in scope.now) (inst_text (naming_in scope.now) inst.now) }
{
    if any_names_nothing(scope, operands) {
        return true;
    }
    if names_missing_label(scope, inst) {
        return true;
    }
    names_missing_unit(scope, inst)
}
