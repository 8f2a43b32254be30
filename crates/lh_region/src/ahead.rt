//! The edges that lead to places which are still to be treated. A place gets its number only when it is treated, so that edges to it
//! come from places of lower numbers.
ghost use Rattle.std.specs.Prelude.{◌≡◌, ◌<◌, ◌++◌, ◌∷◌, [], ℕ, ◌&&◌, length, replicate, IfOk, OnOk};
ghost use Rattle.lh_region.specs.Ahead.{led_to, none_led, LeadsNowhere, IsLedAlso, BlockIsReached};

use lh_region_joins::Edge;
use lh_types::list::ListOf;
use lh_types::memory::NoMemory;
use std::alloc::Global;

/// Edges in the order of their sources.
pub type EdgeList = ListOf<Edge>;

/// The edges to the places of this turn and of the next one.
#[derive(Drop)]
pub struct Ahead {
    /// The edges to each block at this turn.
    pub here: Vec<EdgeList>,
    /// The edges to each block at the next turn.
    pub next: Vec<EdgeList>,
}

impl Ahead {
    /// No edges to this many blocks.
    pub fn new(alloc: Global, blocks: usize) -> Result<Ahead, NoMemory>
        ensures here { IfOk result (λ ahead. LeadsNowhere blocks ahead.here.items) }
        ensures next { IfOk result (λ ahead. LeadsNowhere blocks ahead.next.items) }
    {
        let here = no_edges(alloc, blocks)?;
        let next = no_edges(alloc, blocks)?;
        Ok(Ahead { here, next })
    }

    /// One more edge to a block at this turn.
    pub fn lead_here(&mut self, block: u32, edge: Edge) -> Result<(), NoMemory>
        requires { block < length self.old.here.items }
        ensures here { OnOk result (IsLedAlso self.old.here.items block edge self.new.here.items) }
        ensures next { self.new.next ≡ self.old.next }
    {
        lead(&mut self.here, block, edge)
    }

    /// One more edge to a block at the next turn.
    pub fn lead_next(&mut self, block: u32, edge: Edge) -> Result<(), NoMemory>
        requires { block < length self.old.next.items }
        ensures here { self.new.here ≡ self.old.here }
        ensures next { OnOk result (IsLedAlso self.old.next.items block edge self.new.next.items) }
    {
        lead(&mut self.next, block, edge)
    }

    /// The edges to a block at this turn, where it is treated now.
    pub fn reach(&mut self, alloc: Global, block: usize) -> EdgeList
        requires { block < length self.old.here.items }
        ensures edges { result ≡ led_to self.old.here.items block }
        ensures here { BlockIsReached self.old.here.items block self.new.here.items }
        ensures next { self.new.next ≡ self.old.next }
    {
        std::mem::replace(&mut self.here[block], EdgeList::new(alloc))
    }

    /// Goes to the next turn, once all places of this one are treated.
    pub fn turn(&mut self, alloc: Global) -> Result<(), NoMemory>
        ensures here { OnOk result (self.new.here ≡ self.old.next) }
        ensures next { OnOk result (LeadsNowhere (length self.old.next.items) self.new.next.items) }
    {
        let later = no_edges(alloc, self.next.len())?;
        self.here = std::mem::replace(&mut self.next, later);
        Ok(())
    }

    /// Whether no edge leads to a place that is still to be treated.
    pub fn is_empty(&self) -> bool
        ensures { result ≡ (none_led self.now.here.items && none_led self.now.next.items) }
    {
        leads_nowhere(self.here.as_slice()) && leads_nowhere(self.next.as_slice())
    }
}

fn leads_nowhere(led: &[EdgeList]) -> bool
    ensures { result ≡ none_led led.now }
{
    for edges in led {
        if edges.len() > 0 {
            return false;
        }
    }
    true
}

fn no_edges(alloc: Global, blocks: usize) -> Result<Vec<EdgeList>, NoMemory>
    ensures { IfOk result (λ led. LeadsNowhere blocks led.items) }
{
    let mut led = Vec::new(alloc);
    for _ in 0..blocks {
        put(&mut led, EdgeList::new(alloc))?;
    }
    Ok(led)
}

fn put(led: &mut Vec<EdgeList>, edges: EdgeList) -> Result<(), NoMemory>
    ensures { OnOk result (led.new.items ≡ led.old.items ++ edges ∷ []) }
{
    led.push(edges)?;
    Ok(())
}

fn lead(led: &mut Vec<EdgeList>, block: u32, edge: Edge) -> Result<(), NoMemory>
    requires { block < length led.old.items }
    ensures { OnOk result (IsLedAlso led.old.items block edge led.new.items) }
{
    led[block as usize].push(edge)
}
