//! Names of units, values and labels.
#![tactic(auto, using(crate::proofs::Joined::steps))]

ghost use Rattle.std.specs.Prelude.{◌≡◌, ◌<◌, ◌++◌};
ghost use Rattle.lh_text_buffer.specs.Writing.{Writes};
ghost use Rattle.lh_unit.specs.Arena.{value_count, label_count, value_name_at, label_name_at, naming, sizes, unit_name_at};
ghost use Rattle.lh_unit.specs.Naming.{maybe_text};
ghost use Rattle.lh_unit.specs.Within.{MaybeWithin};
ghost use Rattle.lh_unit.specs.Pieces.{render};
ghost use Rattle.lh_unit.specs.Canon.{unit_name_pieces, maybe};

use lh_text_buffer::Text;
use lh_unit::inst::{BlockId, ValueId};
use lh_unit::view::UnitView;
use lh_unit_names::name::{Name, UnitName};

/// Writes a text, and then the name of a unit.
#[inline]
pub fn put_unit_name(out: &mut Text, before: &[u8], name: &UnitName)
    ensures { Writes out.old out.new (before.now ++ render (unit_name_pieces name.now)) }
{
    out.put(before);
    let sigil: &[u8] = if name.sigil == b'@' { b"@" } else { b"%" };
    out.put(sigil);
    put_name(out, &name.name);
}

// On its own, so that a text before it is put where the caller stands.
fn put_name(out: &mut Text, name: &Name)
    ensures { Writes out.old out.new name.now }
{
    out.put(name.as_bytes());
}

/// Writes a text, and then the name of a value.
#[inline(always)]
pub fn put_value(out: &mut Text, before: &[u8], view: UnitView<'_>, value: ValueId)
    requires value { value.0 < value_count view.module.now view.unit.0 }
    ensures { Writes out.old out.new (before.now ++ value_name_at view.entry.module.now view.entry.unit.0 value.0) }
{
    out.put(before);
    put_name(out, view.value_name(value));
}

/// Writes a text, and then the name of a label.
pub fn put_label(out: &mut Text, before: &[u8], view: UnitView<'_>, block: BlockId)
    requires block { block.0 < label_count view.module.now view.unit.0 }
    ensures { Writes out.old out.new (before.now ++ label_name_at view.entry.module.now view.entry.unit.0 block.0) }
{
    out.put(before);
    put_name(out, view.block_name(block));
}

/// Writes a word and a value, such as ` if %c`, where there is a value.
pub fn put_maybe(out: &mut Text, word: &[u8], view: UnitView<'_>, value: Option<ValueId>)
    requires value { MaybeWithin (sizes view.module.now view.unit.0) value }
    ensures { Writes out.old out.new (render (maybe word.now (maybe_text (naming view.entry.module.now view.entry.unit.0) value))) }
{
    match value {
        None => {}
        Some(value) => {
            out.put(b" ");
            out.put(word);
            put_value(out, b" %", view, value);
        }
    }
}
