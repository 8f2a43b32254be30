//! Items and their lines.
#![tactic(auto, using(crate::proofs::Joined::steps))]

ghost use Rattle.std.specs.Prelude.{◌≡◌, ◌<◌, ◌++◌, ◌∷◌, [], map};
ghost use Rattle.lh_text_buffer.specs.Writing.{Writes};
ghost use Rattle.lh_unit.specs.Contents.{unit_text};
ghost use Rattle.lh_unit.specs.Table.{line_at};
ghost use Rattle.lh_unit.specs.Naming.{maybe_text, line_text, label_text, block_text};
ghost use Rattle.lh_unit.specs.Within.{Each, MaybeWithin};
ghost use Rattle.lh_unit.specs.Arena.{value_count, inst_count, naming, sizes, table_at, kind_at, blocks_at, unit_text_at, item_text_at, contents};
ghost use Rattle.lh_unit.specs.declared.inst.UnitKind.TheVariants as kind;
ghost use Rattle.lh_unit.specs.Pieces.{render, keyword, in_parens, ◌␣◌};
ghost use Rattle.lh_unit.specs.Canon as spec;
ghost use Rattle.lh_unit.specs.Canon.{unit_name_pieces, ports, assigned, canon_inst_line, label_lines, block_lines, blocks_lines, header, declaration, item_lines, text_of, canon};
ghost use Rattle.lh_unit.specs.Placed.{IsInstOf, IsLabelled, IsBlockOf, IsItemOf};

use crate::arguments::{put_ports, put_signature};
use crate::insts::put_inst;
use crate::names::{put_label, put_unit_name, put_value};
use crate::types::{put_type, put_types};
use lh_text_buffer::Text;
use lh_types::ty::Ty;
use lh_unit::inst::{BlockId, Declare, InstId, Item, UnitKind, ValueId};
use lh_unit::module::Module;
use lh_unit::view::UnitView;
use lh_unit_names::name::UnitName;

/// Writes `%r = ` where there is a result.
fn put_assigned(out: &mut Text, view: UnitView<'_>, value: Option<ValueId>)
    requires value { MaybeWithin (sizes view.module.now view.unit.0) value }
    ensures { Writes out.old out.new (render (assigned (maybe_text (naming view.entry.module.now view.entry.unit.0) value))) }
{
    match value {
        None => {}
        Some(value) => {
            put_value(out, b"%", view, value);
            out.put(b" = ");
        }
    }
}

/// Writes the line of an instruction.
fn put_line(out: &mut Text, view: UnitView<'_>, inst: InstId)
    requires inst { IsInstOf view.module.now view.unit.0 inst }
    ensures { Writes out.old out.new (text_of (canon_inst_line (line_text (naming view.entry.module.now view.entry.unit.0) (line_at (table_at view.entry.module.now view.entry.unit.0) inst.0)) ∷ [])) }
{
    out.put(b"    ");
    put_assigned(out, view, view.result_of(inst));
    put_inst(out, view, view.inst(inst));
    out.put(b"\n");
}

/// Writes the lines of instructions.
fn put_lines(out: &mut Text, view: UnitView<'_>, insts: &[InstId])
    requires insts { Each (IsInstOf view.module.now view.unit.0) insts.now }
    ensures { Writes out.old out.new (text_of (map canon_inst_line (map (λ i. line_text (naming view.entry.module.now view.entry.unit.0) (line_at (table_at view.entry.module.now view.entry.unit.0) i.0)) insts.now))) }
{
    for inst in insts {
        put_line(out, view, *inst);
    }
}

/// Writes the line of a label; an entity's block has none.
fn put_label_line(out: &mut Text, view: UnitView<'_>, block: BlockId)
    requires labelled { IsLabelled view.module.now view.unit.0 (kind_at view.module.now view.unit.0) block }
    ensures { Writes out.old out.new (text_of (label_lines (label_text (naming view.entry.module.now view.entry.unit.0) (kind_at view.entry.module.now view.entry.unit.0) block))) }
{
    match view.kind() {
        Some(UnitKind::Entity) => {}
        None | Some(UnitKind::Func) | Some(UnitKind::Proc) => {
            put_label(out, b"", view, block);
            out.put(b":\n");
        }
    }
}

/// Writes the lines of a block.
fn put_block(out: &mut Text, view: UnitView<'_>, block: BlockId)
    requires block { IsBlockOf view.module.now view.unit.0 block }
    ensures { Writes out.old out.new (text_of (block_lines (block_text (naming view.entry.module.now view.entry.unit.0) (table_at view.entry.module.now view.entry.unit.0) block))) }
{
    put_label_line(out, view, block);
    put_lines(out, view, view.insts(block));
}

/// Writes the lines of blocks.
fn put_blocks(out: &mut Text, view: UnitView<'_>, blocks: &[BlockId])
    requires blocks { Each (IsBlockOf view.module.now view.unit.0) blocks.now }
    ensures { Writes out.old out.new (text_of (blocks_lines (map (block_text (naming view.entry.module.now view.entry.unit.0) (table_at view.entry.module.now view.entry.unit.0)) blocks.now))) }
{
    for block in blocks {
        put_block(out, view, *block);
    }
}

/// Writes `func @n (V1 %a1, V2 %a2) R {`.
fn put_func_header(out: &mut Text, view: UnitView<'_>)
    ensures { let u = unit_text_at view.entry.module.now view.entry.unit.0 in Writes out.old out.new (render (header kind.Func u.name u.args u.result)) }
{
    put_unit_name(out, b"func ", view.name());
    put_signature(out, view);
}

/// Writes a word, and then `@n (S1 %a1) -> (S2 %a2) {`.
fn put_ports_header(out: &mut Text, word: &[u8], view: UnitView<'_>)
    ensures { let u = unit_text_at view.entry.module.now view.entry.unit.0 in Writes out.old out.new (word.now ++ render (unit_name_pieces u.name ␣ ports u.args)) }
{
    put_unit_name(out, word, view.name());
    put_ports(out, view);
}

/// Writes the first line of a unit, without its end.
fn put_header(out: &mut Text, view: UnitView<'_>)
    ensures { let u = unit_text_at view.entry.module.now view.entry.unit.0 in Writes out.old out.new (render (header u.kind u.name u.args u.result)) }
{
    match view.kind() {
        None | Some(UnitKind::Func) => put_func_header(out, view),
        Some(UnitKind::Proc) => put_ports_header(out, b"proc ", view),
        Some(UnitKind::Entity) => put_ports_header(out, b"entity ", view),
    }
}

/// Writes the lines of a unit.
pub fn put_unit(out: &mut Text, view: UnitView<'_>)
    ensures { Writes out.old out.new (text_of (item_lines (unit_text (unit_text_at view.entry.module.now view.entry.unit.0)))) }
{
    put_header(out, view);
    out.put(b"\n");
    put_blocks(out, view, view.blocks());
    out.put(b"}\n");
}

/// Writes a text, and then types and a closing parenthesis.
fn put_listed(out: &mut Text, before: &[u8], types: &[Ty])
    ensures { Writes out.old out.new (before.now ++ (render (spec.types types.now) ++ 41 ∷ [])) }
{
    out.put(before);
    put_types(out, types);
    out.put(b")");
}

/// Writes `declare @n (V1, V2)`.
fn put_declared(out: &mut Text, name: &UnitName, params: &[Ty])
    ensures { Writes out.old out.new (render (keyword "declare" ␣ unit_name_pieces name.now ␣ in_parens (spec.types params.now))) }
{
    put_unit_name(out, b"declare ", name);
    put_listed(out, b" (", params);
}

/// Writes a declaration, without the end of its line.
fn put_declaration(out: &mut Text, declare: &Declare)
    ensures { Writes out.old out.new (render (declaration declare.now)) }
{
    match declare {
        Declare::Func {
            name,
            params,
            result,
        } => {
            put_declared(out, name, params.as_slice());
            out.put(b" ");
            put_type(out, result);
        }
        Declare::Unit {
            name,
            inputs,
            outputs,
        } => {
            put_declared(out, name, inputs.as_slice());
            put_listed(out, b" -> (", outputs.as_slice());
        }
    }
}

/// Writes the lines of an item.
fn put_item(out: &mut Text, m: &Module, item: &Item)
    requires { IsItemOf m.now item.now }
    ensures { Writes out.old out.new (text_of (item_lines (item_text_at m.now item.now))) }
{
    match item {
        Item::Unit(unit) => put_unit(out, m.unit(*unit)),
        Item::Declare(declare) => {
            put_declaration(out, declare);
            out.put(b"\n");
        }
    }
}

/// Writes the canonical text of a module.
pub fn put_items(out: &mut Text, m: &Module)
    ensures { Writes out.old out.new (canon (contents m.now)) }
{
    for item in m.items() {
        put_item(out, m, item);
    }
}
