//! The flat text of a process: first all is counted, and then its units are copied, a call's before what follows it.
ghost use Rattle.std.specs.Prelude.{◌≡◌, ◌<◌, IfOk, Some};
ghost use Rattle.lh_unit.specs.Arena.{contents, unit_count, kind_at};
ghost use Rattle.lh_unit.specs.declared.inst.UnitKind.TheVariants.{Proc};
ghost use Rattle.lh_unit.specs.WellFormed.{IsWellFormed};
ghost use Rattle.lh_flat.specs.Graph.{IsGraph};
ghost use Rattle.lh_flat.specs.Marks.{UnitsAreNamed};
ghost use Rattle.lh_unit_graph.specs.Searches.{IsSettled};
ghost use Rattle.lh_flat.specs.Measures.{measuring};
ghost use Rattle.lh_flat.specs.Made.{IsMade, TopHasRoom, top_text};
ghost use Rattle.lh_flat.specs.Below.{IdsBelow};
ghost use Rattle.lh_flat.specs.Reads.{Flattens};

use crate::build::FlatBuilder;
use crate::calls::{CallNode, graph};
use crate::copy::{CopyPlace, UnitCopy, own_ids};
use crate::fault::FlatFault;
use crate::flat::{ArgList, Flat};
use crate::measure::CallMeasure;
use crate::named::read_names;
use lh_types::memory::NoMemory;
use lh_unit::inst::{Arg, UnitId};
use lh_unit::module::Module;
use lh_unit::view::UnitView;
use lh_unit_graph::UnitSearch;
use std::alloc::Global;

/// How many calls may nest.
pub const MAX_NESTED: u32 = 64;

/// How many instructions a flat text may have.
pub const MAX_INSTS: u32 = 65_536;

/// The flat text of a process of a well-formed module.
///
/// Its refusals come in their order, before anything is copied: `RecursiveCall` where a function that the process reaches by calls
/// calls itself, `CallTooDeep` where more than 64 calls nest, `FlatTooLarge` where the text would have more than 65,536 instructions.
/// `OutOfMemory` comes where memory runs out. The module is as before.
pub fn flat(alloc: Global, m: &Module, unit: UnitId) -> Result<Flat, FlatFault>
    requires formed { IsWellFormed (contents m.now) }
    requires within { unit.0 < unit_count m.now }
    requires process { kind_at m.now unit.0 ≡ Some Proc }
    ensures flat { Flattens m.now unit.0 result }
    ensures below { IfOk result IdsBelow }
{
    let mut flattener = Flattener::new(alloc, m)?;
    flattener.flat(unit)
}

/// What is known of the calls of a module, for the flat texts of all its processes.
#[derive(Drop)]
pub struct Flattener<'m> {
    alloc: Global,
    m: &'m Module,
    nodes: Vec<CallNode>,
    search: UnitSearch<CallMeasure>,
    ghost graph: { IsGraph m.now nodes.items },
    ghost settled: { IsSettled measuring nodes.items search },
    ghost named: { UnitsAreNamed m.now },
}

impl<'m> Flattener<'m> {
    /// The calls of each unit of a module; none is followed yet. It takes memory in proportion to the module.
    pub fn new(alloc: Global, m: &'m Module) -> Result<Flattener<'m>, NoMemory>
        ensures { IfOk result (λ f. f.m.now ≡ m.now) }
    {
        read_names(m);
        let nodes = graph(alloc, m)?;
        let search = UnitSearch::new(alloc, nodes.len())?;
        Ok(Flattener {
            alloc,
            m,
            nodes,
            search,
        })
    }

    /// The flat text of a process of the module, as `flat` gives it. Work that was done to count one process is not done again for the
    /// next; after a refusal the next process is asked for in the same way.
    pub fn flat(&mut self, unit: UnitId) -> Result<Flat, FlatFault>
        requires formed { IsWellFormed (contents self.old.m.now) }
        requires within { unit.0 < unit_count self.old.m.now }
        requires process { kind_at self.old.m.now unit.0 ≡ Some Proc }
        ensures flat { Flattens self.old.m.now unit.0 result }
        ensures below { IfOk result IdsBelow }
        ensures same { self.new.m.now ≡ self.old.m.now }
    {
        let units = self.m.units();
        prove!(unit.0 < units);
        let measure = self.search.measure_of(self.nodes.as_slice(), unit)?;
        if measure.depth > MAX_NESTED + 1 {
            return Err(FlatFault::CallTooDeep);
        }
        if measure.insts > MAX_INSTS {
            return Err(FlatFault::FlatTooLarge);
        }
        let view = self.m.unit(unit);
        if view.values() > u32::MAX - MAX_INSTS {
            return Err(FlatFault::OutOfMemory);
        }
        Ok(made(self.alloc, view)?)
    }
}

/// All that is built for a process, in which at most 64 calls nest.
fn made(alloc: Global, view: UnitView<'_>) -> Result<Flat, NoMemory>
    requires { TopHasRoom view.module.now view.unit.0 }
    ensures { IfOk result (IsMade view.entry.module.now view.entry.unit.0) }
{
    let args = copied(alloc, view.args())?;
    match text_of(alloc, view) {
        Ok(text) => Ok(flat_of(args, text)),
        Err(fault) => {
            drop(args);
            Err(fault)
        }
    }
}

/// The text of a process with its calls replaced.
fn text_of(alloc: Global, view: UnitView<'_>) -> Result<FlatBuilder, NoMemory>
    requires { TopHasRoom view.module.now view.unit.0 }
    ensures { IfOk result (λ text. text ≡ top_text view.entry.module.now view.entry.unit.0) }
{
    let place = CopyPlace { at: 0, back: 0 };
    let copy = UnitCopy::new(alloc, MAX_NESTED, view, own_ids(alloc, view)?, place)?;
    let mut text = FlatBuilder::new(alloc, view.values());
    let added = text.add_unit(MAX_NESTED, &copy);
    drop(copy);
    match added {
        Ok(()) => Ok(text),
        Err(fault) => {
            drop(text);
            Err(fault)
        }
    }
}

/// A text with its arguments.
fn flat_of(args: ArgList, text: FlatBuilder) -> Flat
    ensures args { result.args ≡ args }
    ensures blocks { result.blocks ≡ text.blocks }
    ensures values { result.values ≡ text.values }
{
    let FlatBuilder { blocks, values, .. } = text;
    Flat {
        args,
        blocks,
        values,
    }
}

/// Equal arguments.
fn copied(alloc: Global, args: &[Arg]) -> Result<ArgList, NoMemory>
    ensures { IfOk result (λ list. list ≡ args.now) }
{
    let mut list = ArgList::new(alloc);
    for arg in args {
        list.push(Arg {
            value: arg.value,
            ty: arg.ty.copy()?,
            output: arg.output,
        })?;
    }
    Ok(list)
}
