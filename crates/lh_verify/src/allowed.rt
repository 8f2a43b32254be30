//! Fault 4: an instruction stands in a kind of unit in which it is not allowed. And fault 5: how a block ends.
ghost use Rattle.std.specs.Prelude.{◌≡◌, ◌&&◌, not, false, map, if◌then◌else◌};
ghost use Rattle.std.specs.Option.{option_map_or};
ghost use Rattle.lh_types.specs.Kind.{type_of_kind};
ghost use Rattle.lh_unit.specs.Typing.{first_type};
ghost use Rattle.lh_unit.specs.TypingRows.{is_signal as test_signal};
ghost use Rattle.lh_unit.specs.Places.{is_terminator as text_is_terminator};
ghost use Rattle.lh_unit.specs.WellFormed as spec;
ghost use Rattle.lh_unit.specs.Naming.{operand_text, inst_text};
ghost use Rattle.lh_verify_values.specs.Facts.{naming_in};
ghost use Rattle.lh_verify.specs.OperandTests.{ends_wrong as asks_ends_wrong};

use lh_types::op::Op;
use lh_unit::inst::{Inst, Typed, UnitKind};
use lh_verify_values::scope::Scope;

/// Whether a unit of this kind is a function.
pub fn in_function(kind: UnitKind) -> bool
    ensures { result ≡ spec.in_function kind }
{
    matches!(kind, UnitKind::Func)
}

fn in_process(kind: UnitKind) -> bool
    ensures { result ≡ spec.in_process kind }
{
    matches!(kind, UnitKind::Proc)
}

fn in_entity(kind: UnitKind) -> bool
    ensures { result ≡ spec.in_entity kind }
{
    matches!(kind, UnitKind::Entity)
}

/// Whether it is an `extf` or `exts` of a signal, as the type that is written says.
fn takes_signal_part(scope: &Scope<'_>, op: Op, args: &[Typed]) -> bool
    ensures { result ≡ spec.takes_signal_part op (map (operand_text (naming_in scope.now)) args.now) }
{
    match op {
        Op::Extf(_) | Op::Exts { .. } => writes_signal(scope, args),
        _ => false,
    }
}

fn writes_signal(scope: &Scope<'_>, args: &[Typed]) -> bool
    ensures { result ≡ option_map_or test_signal (first_type (map (operand_text (naming_in scope.now)) args.now)) false }
{
    match args.split_first() {
        None => false,
        Some((first, _)) => match first.ty.get() {
            None => false,
            Some(ty) => ty.is_signal(),
        },
    }
}

/// Whether an instruction is allowed in this kind of unit.
pub fn is_allowed(scope: &Scope<'_>, kind: UnitKind, inst: &Inst) -> bool
    ensures { result ≡ spec.is_allowed kind (inst_text (naming_in scope.now) inst.now) }
{
    match inst {
        Inst::Const(_) => true,
        Inst::Pure { op, args } => {
            !in_function(kind) || !takes_signal_part(scope, *op, args.as_slice())
        }
        Inst::Var(_)
        | Inst::Ld(_)
        | Inst::St { .. }
        | Inst::Call { .. }
        | Inst::Phi { .. }
        | Inst::Br(_)
        | Inst::Branch { .. } => !in_entity(kind),
        Inst::Sig(_) | Inst::Reg { .. } | Inst::Child { .. } => in_entity(kind),
        Inst::Prb(_) | Inst::Drv { .. } => !in_function(kind),
        Inst::Wait { .. } | Inst::Halt => in_process(kind),
        Inst::Ret(None) | Inst::Ret(Some(_)) => in_function(kind),
    }
}

/// Whether an instruction ends a block.
pub fn is_terminator(scope: &Scope<'_>, inst: &Inst) -> bool
    ensures { result ≡ text_is_terminator (inst_text (naming_in scope.now) inst.now) }
{
    match inst {
        Inst::Br(_)
        | Inst::Branch { .. }
        | Inst::Wait { .. }
        | Inst::Halt
        | Inst::Ret(None)
        | Inst::Ret(Some(_)) => true,
        _ => false,
    }
}

/// Whether, in a function or process, the last instruction of a block is no terminator, or another is one.
pub fn ends_wrong(scope: &Scope<'_>, kind: UnitKind, inst: &Inst, last: bool) -> bool
    ensures { result ≡ asks_ends_wrong kind last (inst_text (naming_in scope.now) inst.now) }
{
    !in_entity(kind) && last != is_terminator(scope, inst)
}
