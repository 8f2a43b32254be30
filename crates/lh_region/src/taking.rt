//! The values that an instruction takes, and what an operation or a `phi` makes of them.
ghost use Rattle.std.specs.Prelude.{◌≡◌, ◌<◌, ◌++◌, ◌∷◌, [], length, IfOk, OnOk};
ghost use Rattle.lh_term.specs.Arena.{Grows};
ghost use Rattle.lh_region_places.specs.Asked.{edges_at, SamePlaces};
ghost use Rattle.lh_region.specs.Taken as taken;

use crate::operand::operand_from;
use lh_region_joins::Edge;
use lh_region_places::asking::{merged_at, value_at};
use lh_region_places::places::Places;
use lh_term::term::{TermId, TermList};
use lh_term::terms::Terms;
use lh_types::memory::NoMemory;
use lh_types::op::Op;
use lh_unit::inst::{OperandList, PhiEdge, Typed};
use std::alloc::Global;

/// A value that is asked for at a place.
#[derive(Clone, Copy)]
pub struct PlaceValue {
    pub place: usize,
    pub value: u32,
}

/// The terms of values at places.
pub fn ask_all(
    alloc: Global,
    terms: &mut Terms,
    places: &mut Places,
    asks: &[PlaceValue],
) -> Result<TermList, NoMemory>
    requires { taken.CanAskAll terms.old places.old.items asks.now }
    ensures kept { Grows terms.old terms.new }
    ensures same { OnOk result (SamePlaces places.old.items places.new.items) }
    ensures still { OnOk result (taken.StillToldAll terms.old places.old.items terms.new places.new.items asks.now) }
    ensures terms { IfOk result (λ ts. taken.ValuesAreTold terms.old places.old.items terms.new asks.now ts) }
{
    let mut values = TermList::new(alloc);
    for ask in asks {
        let value = value_at(alloc, terms, places, ask.place, ask.value)?;
        values.push(value)?;
    }
    Ok(values)
}

/// An operation on values at a place.
pub fn operate(
    alloc: Global,
    terms: &mut Terms,
    places: &mut Places,
    at: usize,
    op: Op,
    args: &OperandList,
) -> Result<TermId, NoMemory>
    requires is_in { at < length places.old.items }
    requires operation { taken.IsOperation terms.old places.old.items at op args.now }
    ensures kept { Grows terms.old terms.new }
    ensures same { OnOk result (SamePlaces places.old.items places.new.items) }
    ensures still { OnOk result (taken.StillToldAll terms.old places.old.items terms.new places.new.items (taken.asks_at at args.now)) }
    ensures made { IfOk result (λ t. taken.IsOperated terms.old places.old.items terms.new at op args.now t) }
{
    let asks = asks_at(alloc, at, args.as_slice())?;
    let operands = ask_all(alloc, terms, places, asks.as_slice())?;
    let made = terms.op(&op, operands.as_slice())?;
    Ok(made)
}

/// What is asked for as the operands of an instruction at a place.
pub fn asks_at(alloc: Global, at: usize, args: &[Typed]) -> Result<Vec<PlaceValue>, NoMemory>
    ensures { IfOk result (λ asks. asks.items ≡ taken.asks_at at args.now) }
{
    let mut asks = Vec::new(alloc);
    for arg in args {
        put(
            &mut asks,
            PlaceValue {
                place: at,
                value: arg.value.0,
            },
        )?;
    }
    Ok(asks)
}

fn put(asks: &mut Vec<PlaceValue>, ask: PlaceValue) -> Result<(), NoMemory>
    ensures { OnOk result (asks.new.items ≡ asks.old.items ++ ask ∷ []) }
{
    asks.push(ask)?;
    Ok(())
}

/// What a `phi` at a place gives: the value of the edge that was taken.
pub fn phi_at(
    alloc: Global,
    terms: &mut Terms,
    places: &mut Places,
    at: usize,
    operands: &[PhiEdge],
) -> Result<TermId, NoMemory>
    requires is_in { at < length places.old.items }
    requires merge { taken.IsMerge terms.old places.old.items at operands.now }
    ensures kept { Grows terms.old terms.new }
    ensures same { OnOk result (SamePlaces places.old.items places.new.items) }
    ensures still { OnOk result (taken.StillToldAll terms.old places.old.items terms.new places.new.items (taken.phi_asks operands.now (edges_at places.old.items at))) }
    ensures made { IfOk result (λ t. taken.IsMerged terms.old places.old.items terms.new at operands.now t) }
{
    let asks = phi_asks(alloc, places.edges(at), operands)?;
    let values = ask_all(alloc, terms, places, asks.as_slice())?;
    let merged = merged_at(alloc, terms, places, at, values.as_slice())?;
    Ok(merged)
}

/// The value that a `phi` names for each of these edges.
fn phi_asks(
    alloc: Global,
    edges: &[Edge],
    operands: &[PhiEdge],
) -> Result<Vec<PlaceValue>, NoMemory>
    requires { taken.NamesEach operands.now edges.now }
    ensures { IfOk result (λ asks. asks.items ≡ taken.phi_asks operands.now edges.now) }
{
    let mut asks = Vec::new(alloc);
    for edge in edges {
        let value = operand_from(operands, edge.block);
        put(
            &mut asks,
            PlaceValue {
                place: edge.from,
                value: value.0,
            },
        )?;
    }
    Ok(asks)
}
