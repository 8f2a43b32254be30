//! The units of a module as a graph: how long each is, and the functions that it calls.
ghost use Rattle.std.specs.Prelude.{◌≡◌, ◌<◌, ◌++◌, ◌∷◌, [], IfOk, OnOk};
ghost use Rattle.lh_unit.specs.Arena.{IsArena, InstPlaced, unit_count};
ghost use Rattle.lh_flat.specs.Graph.{no_node, called_of, callee_of, CalleeWithin, with_inst, with_block, node_of, BlockPlaced, IsGraph, counted};

use lh_types::list::ListOf;
use lh_types::memory::NoMemory;
use lh_unit::inst::{BlockId, Inst, UnitId};
use lh_unit::module::Module;
use lh_unit::view::UnitView;
use std::alloc::Global;

/// What is counted of a unit. Each number saturates at its type's end.
#[derive(Drop)]
pub struct CallNode {
    /// How many instructions it has.
    pub insts: u32,
    /// How many pieces its calls cut its blocks into.
    pub blocks: u32,
    /// The functions that it calls, in text order.
    pub callees: ListOf<UnitId>,
}

/// The sum of two counts; it saturates at its type's end.
pub fn counted(count: u32, more: u32) -> u32
    ensures { result ≡ counted count more }
{
    count.saturating_add(more)
}

/// The function that an instruction of a unit calls; none where it is no `call`, or one of `@llhd.assert`.
pub fn callee(view: UnitView<'_>, inst: &Inst) -> Option<UnitId>
    requires { InstPlaced view.module.now view.unit.0 inst.now }
    ensures callee { result ≡ callee_of view.entry.module.now inst.now }
    ensures within { CalleeWithin view.entry.module.now result }
{
    match inst {
        Inst::Call { unit, .. } => called(view.module(), *unit),
        _ => None,
    }
}

/// A unit that is called, unless it is `@llhd.assert`.
fn called(m: &Module, unit: UnitId) -> Option<UnitId>
    requires { unit.0 < unit_count m.now }
    ensures callee { result ≡ called_of m.now unit }
    ensures within { CalleeWithin m.now result }
{
    if m.unit_name(unit).is_assert() {
        None
    } else {
        Some(unit)
    }
}

/// The units of a module by their ids.
pub fn graph(alloc: Global, m: &Module) -> Result<Vec<CallNode>, NoMemory>
    ensures graph { IfOk result (λ nodes. IsGraph m.now nodes.items) }
    ensures sound { IsArena m.now }
{
    let mut nodes = Vec::new(alloc);
    for unit in 0..m.units() {
        put_node(&mut nodes, unit_node(alloc, m.unit(UnitId(unit)))?)?;
    }
    Ok(nodes)
}

fn put_node(nodes: &mut Vec<CallNode>, node: CallNode) -> Result<(), NoMemory>
    ensures { OnOk result (nodes.new.items ≡ nodes.old.items ++ node ∷ []) }
{
    nodes.push(node)?;
    Ok(())
}

/// What is counted of a unit.
fn unit_node(alloc: Global, view: UnitView<'_>) -> Result<CallNode, NoMemory>
    ensures { IfOk result (λ node. node ≡ node_of view.entry.module.now view.entry.unit.0) }
{
    let mut node = CallNode {
        insts: 0,
        blocks: 0,
        callees: ListOf::new(alloc),
    };
    for block in view.blocks() {
        node.take_block(view, *block)?;
    }
    Ok(node)
}

impl CallNode {
    /// Takes one more block into account.
    fn take_block(&mut self, view: UnitView<'_>, block: BlockId) -> Result<(), NoMemory>
        requires { BlockPlaced view.module.now view.unit.0 block }
        ensures { OnOk result (self.new ≡ with_block view.entry.module.now view.entry.unit.0 self.old block) }
    {
        self.blocks = counted(self.blocks, 1);
        for inst in view.insts(block) {
            self.take(callee(view, view.inst(*inst)))?;
        }
        Ok(())
    }

    /// Takes one more instruction into account, which calls this function or none.
    fn take(&mut self, callee: Option<UnitId>) -> Result<(), NoMemory>
        ensures { OnOk result (self.new ≡ with_inst self.old callee) }
    {
        self.insts = counted(self.insts, 1);
        match callee {
            None => Ok(()),
            Some(callee) => {
                self.blocks = counted(self.blocks, 1);
                self.callees.push(callee)
            }
        }
    }
}
