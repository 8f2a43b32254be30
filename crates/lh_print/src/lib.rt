//! The canonical text of a module.
#![tactic(auto)]

ghost use Rattle.std.specs.Prelude.{◌≡◌, IfOk};
ghost use Rattle.lh_unit.specs.Arena.{contents, unit_text_at};
ghost use Rattle.lh_unit.specs.Canon.{canon, item_lines, text_of};
ghost use Rattle.lh_unit.specs.Contents.{unit_text};

mod arguments;
mod insts;
mod names;
mod operands;
pub mod types;
mod units;
mod values;
mod words;

use lh_text_buffer::Text;
use lh_types::memory::NoMemory;
use lh_unit::module::Module;
use lh_unit::view::UnitView;
use std::alloc::Global;
/// The canonical text of a module: its items in file order, one line each, as the language reference spells them.
///
/// Integers are unsigned, times stand in the largest unit in which they are whole, and a type that may be left out
/// stands where the module has it. The only error is running out of memory.
pub fn print(alloc: Global, m: &Module) -> Result<Vec<u8>, NoMemory>
    ensures { IfOk result (λ v. v.items ≡ canon (contents m.now)) }
{
    let mut out = Text::new(alloc);
    units::put_items(&mut out, m);
    out.finish()
}

/// The canonical text of a unit: its lines in a module's. Running out of memory is the only error.
pub fn print_unit(alloc: Global, unit: UnitView<'_>) -> Result<Vec<u8>, NoMemory>
    ensures { IfOk result (λ v. v.items ≡ text_of (item_lines (unit_text (unit_text_at unit.entry.module.now unit.entry.unit.0)))) }
{
    let mut out = Text::new(alloc);
    units::put_unit(&mut out, unit);
    out.finish()
}
