//! The units of a module as a graph: of each unit the bits of its signals, and the units that it instantiates.
ghost use Rattle.std.specs.Prelude.{◌≡◌, ◌<◌, ◌+◌, ◌++◌, ◌∷◌, [], min, IfOk, OnOk, Some};
ghost use Rattle.lh_unit.specs.Arena.{IsArena, unit_count, kind_at};
ghost use Rattle.lh_elab.specs.Graph.{no_node, node_after, node_of, IsGraph, max_counted};

use lh_elab_plan::width::width;
use lh_types::list::ListOf;
use lh_types::memory::NoMemory;
use lh_unit::inst::{BlockId, Inst, UnitId, UnitKind};
use lh_unit::module::Module;
use std::alloc::Global;

/// What is counted of a unit. Only an entity has signals, and only in an entity are instances.
#[derive(Drop)]
pub struct HierarchyNode {
    /// The bits of its own signals; the number saturates at one more than are allowed.
    pub bits: u32,
    /// The units that its `inst` instructions name, in text order.
    pub targets: ListOf<UnitId>,
}

/// The units of a module by their ids.
pub fn graph(alloc: Global, m: &Module) -> Result<Vec<HierarchyNode>, NoMemory>
    ensures graph { IfOk result (λ nodes. IsGraph m.now nodes.items) }
    ensures sound { IsArena m.now }
{
    let mut nodes = Vec::new(alloc);
    for unit in 0..m.units() {
        put_node(&mut nodes, unit_node(alloc, m, UnitId(unit))?)?;
    }
    Ok(nodes)
}

fn put_node(nodes: &mut Vec<HierarchyNode>, node: HierarchyNode) -> Result<(), NoMemory>
    ensures { OnOk result (nodes.new.items ≡ nodes.old.items ++ node ∷ []) }
{
    nodes.push(node)?;
    Ok(())
}

/// What is counted of a unit.
fn unit_node(alloc: Global, m: &Module, unit: UnitId) -> Result<HierarchyNode, NoMemory>
    requires { unit.0 < unit_count m.now }
    ensures { IfOk result (λ node. node ≡ node_of m.now unit.0) }
{
    match m.kind(unit) {
        Some(UnitKind::Entity) => entity_node(alloc, m, unit),
        _ => Ok(HierarchyNode::new(alloc)),
    }
}

fn entity_node(alloc: Global, m: &Module, unit: UnitId) -> Result<HierarchyNode, NoMemory>
    requires unit { unit.0 < unit_count m.now }
    requires entity { kind_at m.now unit.0 ≡ Some UnitKind.Entity }
    requires sound { IsArena m.now }
    ensures { IfOk result (λ node. node ≡ node_of m.now unit.0) }
{
    let mut node = HierarchyNode::new(alloc);
    for inst in m.insts(unit, BlockId(0)) {
        node.take(m.inst(unit, *inst))?;
    }
    Ok(node)
}

impl HierarchyNode {
    fn new(alloc: Global) -> HierarchyNode
        ensures { result ≡ no_node }
    {
        HierarchyNode {
            bits: 0,
            targets: ListOf::new(alloc),
        }
    }

    /// Takes one more instruction into account.
    fn take(&mut self, inst: &Inst) -> Result<(), NoMemory>
        ensures { OnOk result (self.new ≡ node_after self.old inst.now) }
    {
        match inst {
            Inst::Sig(typed) => {
                self.bits = counted(self.bits, width(&typed.ty));
                Ok(())
            }
            Inst::Child { unit, .. } => self.targets.push(*unit),
            _ => Ok(()),
        }
    }
}

/// The sum of two numbers of bits, or one more than are allowed where that is less.
pub fn counted(bits: u32, more: u32) -> u32
    ensures { result ≡ min (bits + more) max_counted }
{
    bits.saturating_add(more).min(MAX_BITS + 1)
}

/// How many bits the signals of a design have at most.
pub const MAX_BITS: u32 = 16_777_216;
