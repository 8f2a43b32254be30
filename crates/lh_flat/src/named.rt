//! The names of a module. What is known of a name is told where it is read, so each is read once.
ghost use Rattle.lh_unit.specs.Arena.{value_count, label_count, value_name_at, label_name_at};
ghost use Rattle.std.specs.Prelude.{ℕ, ◌<◌};
ghost use Rattle.lh_unit_names.specs.Names.{IsName};
ghost use Rattle.lh_flat.specs.Marks.{UnitIsNamed, UnitsAreNamed};

use lh_unit::inst::{BlockId, UnitId, ValueId};
use lh_unit::module::Module;
use lh_unit::view::UnitView;

/// Each value and each label of a module has a name without marks.
pub fn read_names(m: &Module)
    ensures { UnitsAreNamed m.now }
{
    for unit in 0..m.units() {
        let view = m.unit(UnitId(unit));
        read_unit(view);
    }
}

/// Those of a unit.
fn read_unit(view: UnitView<'_>)
    ensures { UnitIsNamed view.entry.module.now view.entry.unit.0 }
{
    read_values(view);
    read_labels(view);
}

fn read_values(view: UnitView<'_>)
    ensures { let a = view.entry.module.now in (v : ℕ) → v < value_count a view.entry.unit.0 → IsName (value_name_at a view.entry.unit.0 v) }
{
    for value in 0..view.values() {
        let _bytes = view.value_name(ValueId(value)).as_bytes();
    }
}

fn read_labels(view: UnitView<'_>)
    ensures { let a = view.entry.module.now in (b : ℕ) → b < label_count a view.entry.unit.0 → IsName (label_name_at a view.entry.unit.0 b) }
{
    for label in 0..view.labels() {
        let _bytes = view.block_name(BlockId(label)).as_bytes();
    }
}
