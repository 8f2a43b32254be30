//! Which labels of a unit have a block.
ghost use Rattle.std.specs.Prelude.{◌≡◌, ◌<◌, length, replicate, false, IfOk};
ghost use Rattle.lh_unit.specs.Table.{BlocksWithin};
ghost use Rattle.lh_unit.specs.Arena.{unit_count, label_count};
ghost use Rattle.lh_verify_labels.specs.Marking.{BlockMarks, MarksLabels, has_labels as kind_has_labels};

use lh_types::memory::NoMemory;
use lh_unit::inst::{BlockId, UnitId, UnitKind};
use lh_unit::module::Module;
use lh_verify_values::facts::no_marks;
use std::alloc::Global;

/// By the ids of labels, whether a block of the unit has the label. In an entity none has.
pub fn labels(alloc: Global, m: &Module, unit: UnitId) -> Result<Vec<bool>, NoMemory>
    requires { unit.0 < unit_count m.now }
    ensures { IfOk result (λ marks. MarksLabels m.now unit.0 marks.items) }
{
    let mut marks = no_marks(alloc, m.labels(unit))?;
    mark_labels(&mut marks, m, unit);
    Ok(marks)
}

fn mark_labels(marks: &mut [bool], m: &Module, unit: UnitId)
    requires unit { unit.0 < unit_count m.now }
    requires marks { marks.old ≡ replicate (label_count m.now unit.0) false }
    ensures { MarksLabels m.now unit.0 marks.new }
{
    if !has_labels(m.kind(unit)) {
        return;
    }
    mark_blocks(marks, m.blocks(unit));
}

/// Whether the blocks of a unit of this kind have labels.
fn has_labels(kind: Option<UnitKind>) -> bool
    ensures { result ≡ kind_has_labels kind }
{
    match kind {
        Some(UnitKind::Func) | Some(UnitKind::Proc) => true,
        Some(UnitKind::Entity) | None => false,
    }
}

fn mark_blocks(marks: &mut [bool], blocks: &[BlockId])
    requires within { BlocksWithin (length marks.old) blocks.now }
    requires marks { marks.old ≡ replicate (length marks.old) false }
    ensures { BlockMarks blocks.now (length marks.old) marks.new }
{
    for block in blocks {
        marks[block.0 as usize] = true;
    }
}
