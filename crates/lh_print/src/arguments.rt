//! Arguments of units.
#![tactic(auto, using(crate::proofs::Joined::steps))]

ghost use Rattle.std.specs.Prelude.{◌≡◌, ◌<◌, ◌++◌, ◌∷◌, map};
ghost use Rattle.lh_text_buffer.specs.Writing.{Writes};
ghost use Rattle.lh_unit.specs.Table.{ArgsWithin};
ghost use Rattle.lh_unit.specs.Arena.{value_count, naming, args_at, result_type_at};
ghost use Rattle.lh_unit.specs.Naming.{arg_text};
ghost use Rattle.lh_unit.specs.Pieces.{render, in_parens, ◌␣◌};
ghost use Rattle.lh_unit.specs.Canon.{argument, arguments, on_side, side_of, ports, result_pieces};

use crate::names::put_value;
use crate::types::put_type;
use lh_text_buffer::Text;
use lh_unit::inst::Arg;
use lh_unit::view::UnitView;

/// Writes a text, and then an argument.
fn put_argument(out: &mut Text, before: &[u8], view: UnitView<'_>, arg: &Arg)
    requires placed { arg.now.value.0 < value_count view.module.now view.unit.0 }
    ensures { Writes out.old out.new (before.now ++ render (argument (arg_text (naming view.entry.module.now view.entry.unit.0) arg.now))) }
{
    out.put(before);
    put_type(out, &arg.ty);
    put_value(out, b" %", view, arg.value);
}

/// Writes arguments, with a comma and a space between them.
fn put_arguments(out: &mut Text, view: UnitView<'_>, args: &[Arg])
    requires placed { ArgsWithin (value_count view.module.now view.unit.0) args.now }
    ensures { Writes out.old out.new (render (arguments (map (arg_text (naming view.entry.module.now view.entry.unit.0)) args.now))) }
{
    let mut before: &[u8] = b"";
    for arg in args {
        put_argument(out, before, view, arg);
        before = b", ";
    }
}

/// Whether an argument is an output, or whether it is none.
fn is_on_side(output: bool, arg: &Arg, view: UnitView<'_>) -> bool
    ensures { result ≡ on_side output (arg_text (naming view.entry.module.now view.entry.unit.0) arg.now) }
{
    if output { arg.output } else { !arg.output }
}

/// Writes the outputs among arguments, or the others, with a comma and a space between them.
fn put_side(out: &mut Text, output: bool, view: UnitView<'_>, args: &[Arg])
    requires placed { ArgsWithin (value_count view.module.now view.unit.0) args.now }
    ensures { Writes out.old out.new (render (arguments (side_of output (map (arg_text (naming view.entry.module.now view.entry.unit.0)) args.now)))) }
{
    let mut before: &[u8] = b"";
    for arg in args {
        if is_on_side(output, arg, view) {
            put_argument(out, before, view, arg);
            before = b", ";
        }
    }
}

/// Writes ` (S1 %a1) -> (S2 %a2) {`.
pub fn put_ports(out: &mut Text, view: UnitView<'_>)
    ensures { Writes out.old out.new (32 ∷ render (ports (map (arg_text (naming view.entry.module.now view.entry.unit.0)) (args_at view.entry.module.now view.entry.unit.0)))) }
{
    let args = view.args();
    out.put(b" (");
    put_side(out, false, view, args);
    out.put(b") -> (");
    put_side(out, true, view, args);
    out.put(b") {");
}

/// Writes ` (V1 %a1, V2 %a2) R {`.
pub fn put_signature(out: &mut Text, view: UnitView<'_>)
    ensures { Writes out.old out.new (32 ∷ render (in_parens (arguments (map (arg_text (naming view.entry.module.now view.entry.unit.0)) (args_at view.entry.module.now view.entry.unit.0))) ␣ result_pieces (result_type_at view.entry.module.now view.entry.unit.0))) }
{
    out.put(b" (");
    put_arguments(out, view, view.args());
    out.put(b") ");
    match view.result() {
        None => out.put(b"{"),
        Some(ty) => {
            put_type(out, ty);
            out.put(b" {");
        }
    }
}
