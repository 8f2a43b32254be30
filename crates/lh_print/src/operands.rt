//! Operands, operations on values, and the triggers and edges of lists.
#![tactic(auto, using(crate::proofs::Joined::steps))]

ghost use Rattle.std.specs.Prelude.{◌≡◌, ◌<◌, ◌++◌, ◌∷◌, map, decimal};
ghost use Rattle.lh_text_buffer.specs.Writing.{Writes};
ghost use Rattle.lh_unit.specs.Arena.{naming, sizes};
ghost use Rattle.lh_unit.specs.Naming.{operand_text, trigger_text, edge_text, value_text};
ghost use Rattle.lh_unit.specs.Within.{Each, OperandWithin, TriggerWithin, EdgeWithin, ValueWithin};
ghost use Rattle.lh_unit.specs.Pieces.{render, commas, behind_commas, percent, number};
ghost use Rattle.lh_unit.specs.CanonWords as spec;
ghost use Rattle.lh_unit.specs.CanonWords.{op_numbers};
ghost use Rattle.lh_unit.specs.Canon.{operand, operands, operation, trigger, edge};

use crate::names::{put_label, put_maybe, put_value};
use crate::types::put_type;
use crate::words::{mode_word, op_word};
use lh_text_buffer::Text;
use lh_types::op::Op;
use lh_unit::inst::{PhiEdge, RegTrigger, Typed, ValueId};
use lh_unit::view::UnitView;

/// Writes an operand with the type that it has.
fn put_typed(out: &mut Text, view: UnitView<'_>, typed: &Typed)
    requires placed { OperandWithin (sizes view.module.now view.unit.0) typed.now }
    ensures { Writes out.old out.new (render (operand (operand_text (naming view.entry.module.now view.entry.unit.0) typed.now))) }
{
    match typed.ty.get() {
        None => put_value(out, b"%", view, typed.value),
        Some(ty) => {
            put_type(out, ty);
            put_value(out, b" %", view, typed.value);
        }
    }
}

/// Writes a text, and then an operand with the type that it has.
#[inline]
pub fn put_operand(out: &mut Text, before: &[u8], view: UnitView<'_>, typed: &Typed)
    requires placed { OperandWithin (sizes view.module.now view.unit.0) typed.now }
    ensures { Writes out.old out.new (before.now ++ render (operand (operand_text (naming view.entry.module.now view.entry.unit.0) typed.now))) }
{
    out.put(before);
    put_typed(out, view, typed);
}

/// Writes operands, with a comma and a space between them.
fn put_operands(out: &mut Text, view: UnitView<'_>, args: &[Typed])
    requires placed { Each (OperandWithin (sizes view.module.now view.unit.0)) args.now }
    ensures { Writes out.old out.new (render (operands (map (operand_text (naming view.entry.module.now view.entry.unit.0)) args.now))) }
{
    match args.split_first() {
        None => {}
        Some((first, rest)) => {
            put_typed(out, view, first);
            put_operands_behind(out, view, rest);
        }
    }
}

fn put_operands_behind(out: &mut Text, view: UnitView<'_>, args: &[Typed])
    requires placed { Each (OperandWithin (sizes view.module.now view.unit.0)) args.now }
    ensures { Writes out.old out.new (render (behind_commas (map operand (map (operand_text (naming view.entry.module.now view.entry.unit.0)) args.now)))) }
{
    for typed in args {
        put_operand(out, b", ", view, typed);
    }
}

/// Writes signals, with a comma and a space before each.
pub fn put_signals_behind(out: &mut Text, view: UnitView<'_>, signals: &[ValueId])
    requires placed { Each (ValueWithin (sizes view.module.now view.unit.0)) signals.now }
    ensures { Writes out.old out.new (render (behind_commas (map percent (map (value_text (naming view.entry.module.now view.entry.unit.0)) signals.now)))) }
{
    for signal in signals {
        put_value(out, b", %", view, *signal);
    }
}

/// Writes a trigger of a register behind a comma.
fn put_trigger(out: &mut Text, view: UnitView<'_>, t: &RegTrigger)
    requires placed { TriggerWithin (sizes view.module.now view.unit.0) t.now }
    ensures { Writes out.old out.new (44 ∷ 32 ∷ render (trigger (trigger_text (naming view.entry.module.now view.entry.unit.0) t.now))) }
{
    put_value(out, b", [%", view, t.value);
    out.put(b", ");
    out.put(mode_word(t.mode));
    put_value(out, b" %", view, t.trigger);
    put_maybe(out, b"if", view, t.gate);
    put_maybe(out, b"after", view, t.after);
    out.put(b"]");
}

/// Writes the triggers of a register, with a comma and a space before each.
pub fn put_triggers_behind(out: &mut Text, view: UnitView<'_>, triggers: &[RegTrigger])
    requires placed { Each (TriggerWithin (sizes view.module.now view.unit.0)) triggers.now }
    ensures { Writes out.old out.new (render (behind_commas (map trigger (map (trigger_text (naming view.entry.module.now view.entry.unit.0)) triggers.now)))) }
{
    for t in triggers {
        put_trigger(out, view, t);
    }
}

/// Writes a text, and then an edge of a `phi`.
fn put_edge(out: &mut Text, before: &[u8], view: UnitView<'_>, e: &PhiEdge)
    requires placed { EdgeWithin (sizes view.module.now view.unit.0) e.now }
    ensures { Writes out.old out.new (before.now ++ render (edge (edge_text (naming view.entry.module.now view.entry.unit.0) e.now))) }
{
    out.put(before);
    put_value(out, b"[%", view, e.value);
    put_label(out, b", %", view, e.block);
    out.put(b"]");
}

/// Writes the edges of a `phi`, with a comma and a space between them.
pub fn put_edges(out: &mut Text, view: UnitView<'_>, edges: &[PhiEdge])
    requires placed { Each (EdgeWithin (sizes view.module.now view.unit.0)) edges.now }
    ensures { Writes out.old out.new (render (commas (map edge (map (edge_text (naming view.entry.module.now view.entry.unit.0)) edges.now)))) }
{
    let mut before: &[u8] = b"";
    for e in edges {
        put_edge(out, before, view, e);
        before = b", ";
    }
}

/// Writes a number behind a comma.
fn put_number_behind(out: &mut Text, n: u32)
    ensures { Writes out.old out.new (44 ∷ 32 ∷ decimal n) }
{
    out.put(b", ");
    out.put_number(u64::from(n));
}

/// Writes the numbers of an operation, with a comma and a space before each.
fn put_numbers_behind(out: &mut Text, op: Op)
    ensures { Writes out.old out.new (render (behind_commas (map number (op_numbers op)))) }
{
    match op {
        Op::Extf(k) | Op::Insf(k) => put_number_behind(out, k),
        Op::Exts { at, len } | Op::Inss { at, len } => {
            put_number_behind(out, at);
            put_number_behind(out, len);
        }
        _ => {}
    }
}

/// Writes operands between brackets.
#[inline]
pub fn put_bracketed(out: &mut Text, begin: &[u8], view: UnitView<'_>, args: &[Typed], end: &[u8])
    requires placed { Each (OperandWithin (sizes view.module.now view.unit.0)) args.now }
    ensures { Writes out.old out.new (begin.now ++ (render (operands (map (operand_text (naming view.entry.module.now view.entry.unit.0)) args.now)) ++ end.now)) }
{
    out.put(begin);
    put_operands(out, view, args);
    out.put(end);
}

/// Writes an operation that has a word.
fn put_worded(out: &mut Text, view: UnitView<'_>, op: Op, args: &[Typed])
    requires placed { Each (OperandWithin (sizes view.module.now view.unit.0)) args.now }
    ensures { Writes out.old out.new (spec.op_word op ++ (32 ∷ (render (operands (map (operand_text (naming view.entry.module.now view.entry.unit.0)) args.now)) ++ render (behind_commas (map number (op_numbers op)))))) }
{
    out.put(op_word(op));
    out.put(b" ");
    put_operands(out, view, args);
    put_numbers_behind(out, op);
}

/// Writes an operation on values or on parts of signals.
pub fn put_operation(out: &mut Text, view: UnitView<'_>, op: Op, args: &[Typed])
    requires placed { Each (OperandWithin (sizes view.module.now view.unit.0)) args.now }
    ensures { Writes out.old out.new (render (operation op (map (operand_text (naming view.entry.module.now view.entry.unit.0)) args.now))) }
{
    match op {
        Op::Array => put_bracketed(out, b"[", view, args, b"]"),
        Op::Tuple => put_bracketed(out, b"{", view, args, b"}"),
        Op::Repeat(n) => {
            out.put(b"[");
            out.put_number(u64::from(n));
            put_bracketed(out, b" x ", view, args, b"]");
        }
        _ => put_worded(out, view, op, args),
    }
}
