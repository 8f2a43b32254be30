//! Edges from block to block, with the `phi` of the block that is entered, and `wait`.
ghost use Rattle.std.specs.Prelude.{◌≡◌, ◌<◌, ℕ, List, [], ◌∷◌, ◌++◌, true, length, map, Option, Some, IfOk, OnOk};
ghost use Rattle.std.specs.Option.{option_and_then};
ghost use Rattle.lh_unit.specs.Activation as act;
ghost use Rattle.lh_unit.specs.Activation.{Point, Control, jumps, entered, chosen, ends_at, waiting};
ghost use Rattle.lh_unit.specs.Arena.{Arena, IsArena, unit_count, value_count, inst_count, label_count, label_name_at, block_count, block_insts_at, table_at, naming, blocks_at, result_at};
ghost use Rattle.lh_unit.specs.Held.{test_at, parts_at};
ghost use Rattle.lh_unit.specs.Naming.{value_text, maybe_text};
ghost use Rattle.lh_unit.specs.Table.{is_block, line_at};
ghost use Rattle.lh_unit.specs.Within.{Each};
ghost use Rattle.lh_unit.specs.declared.inst.InstId.{InstId as Id};
ghost use Rattle.lh_unit.specs.declared.inst.ValueId.{ValueId as Value};
ghost use Rattle.lh_unit.specs.declared.inst.PhiEdge.{PhiEdge as Edge};
ghost use Rattle.lh_types.specs.Values.{Datum};
ghost use Rattle.lh_types.specs.ValueOf.{datum_of};
ghost use Rattle.lh_eval.specs.Holding as holding;
ghost use Rattle.lh_eval.specs.Holding.{MaybeIn};
ghost use Rattle.lh_exec.specs.Standing as standing;
ghost use Rattle.lh_exec.specs.Standing.{Does, wake_in};
ghost use Rattle.lh_exec.specs.Taking.{edge_in, taken_of, one_taken, all_taken, in_front, put_all, TakesValues, TakesMore};

use crate::machine::{Flow, Machine, Taken, UnitFrame};
use crate::state::WaitOn;
use lh_bits::mostly_one::MostlyOne;
use lh_eval::held::{Held, Slots};
use lh_eval::operands::{datum_in, delay_in, part_in, test_in};
use lh_time::{Instant, due};
use lh_types::memory::NoMemory;
use lh_types::part::Range;
use lh_types::val::Val;
use lh_unit::inst::{BlockId, Inst, InstId, PhiEdge, ValueId};
use lh_unit::module::Module;
use std::alloc::Global;

impl Machine {
    /// Goes along the edge to a block, where its `phi` take their values together.
    pub(crate) fn enter(&mut self, m: &Module, to: BlockId) -> Result<Flow, NoMemory>
        requires arena { IsArena m.now }
        requires unit { self.old.frame.unit.0 < unit_count m.now }
        requires to { to.0 < label_count m.now self.old.frame.unit.0 }
        requires stands { is_block (blocks_at m.now self.old.frame.unit.0) to.0 ≡ true }
        requires slots { length self.old.frame.slots ≡ value_count m.now self.old.frame.unit.0 }
        ensures { Does result m.now self.old self.new (λ p. jumps p (entered p.control.unit p.control.held p.control.block (label_name_at m.now self.old.frame.unit.0 to.0))) }
    {
        let insts = m.insts(self.frame.unit, to);
        self.taken.clear();
        if !take_phis(m, &self.frame, insts, &mut self.taken)? {
            return Ok(Flow::Lost);
        }
        put_taken(&mut self.taken, &mut self.frame.slots);
        self.frame.block = to;
        self.frame.next = 0;
        Ok(Flow::Goes)
    }

    /// Goes to the block that a condition chooses.
    pub(crate) fn run_branch(
        &mut self,
        m: &Module,
        cond: ValueId,
        zero: BlockId,
        one: BlockId,
    ) -> Result<Flow, NoMemory>
        requires arena { IsArena m.now }
        requires unit { self.old.frame.unit.0 < unit_count m.now }
        requires cond { cond.0 < length self.old.frame.slots }
        requires zero { zero.0 < label_count m.now self.old.frame.unit.0 }
        requires one { one.0 < label_count m.now self.old.frame.unit.0 }
        requires zero_stands { is_block (blocks_at m.now self.old.frame.unit.0) zero.0 ≡ true }
        requires one_stands { is_block (blocks_at m.now self.old.frame.unit.0) one.0 ≡ true }
        requires slots { length self.old.frame.slots ≡ value_count m.now self.old.frame.unit.0 }
        ensures { let f = naming m.now self.old.frame.unit.0 in Does result m.now self.old self.new (λ p. jumps p (option_and_then (entered p.control.unit p.control.held p.control.block) (chosen (test_at p.control.held (value_text f cond)) (f.label_name zero.0) (f.label_name one.0)))) }
    {
        match test_in(&self.frame.slots, cond) {
            Some(false) => self.enter(m, zero),
            Some(true) => self.enter(m, one),
            None => Ok(Flow::Lost),
        }
    }

    /// Waits for a change of parts of the signals or for an instant; there is no call open then.
    pub(crate) fn run_wait(
        &self,
        alloc: Global,
        at: Instant,
        to: BlockId,
        after: Option<ValueId>,
        signals: &[ValueId],
    ) -> Result<Flow, NoMemory>
        requires after { MaybeIn self.now.frame.slots after }
        requires signals { Each (λ (v : Value). v.0 < length self.now.frame.slots) signals.now }
        ensures { (a : Arena) → to.0 < label_count a self.now.frame.unit.0 → let f = naming a self.now.frame.unit.0 in Does result a self.now self.now (λ p. ends_at p p.callers (waiting p.control.block (f.label_name to.0) (parts_at p.control.held (map (value_text f) signals.now)) (act.wake_at at p.control.held (maybe_text f after)))) }
    {
        if !self.callers.is_empty() {
            return Ok(Flow::Lost);
        }
        match parts_in(alloc, &self.frame.slots, signals)? {
            Some(parts) => Ok(self.wait_on(at, to, after, parts)),
            None => Ok(Flow::Lost),
        }
    }

    /// Waits for a change of these parts, which the signals of the `wait` are, or for an instant.
    fn wait_on(
        &self,
        at: Instant,
        to: BlockId,
        after: Option<ValueId>,
        parts: MostlyOne<Range>,
    ) -> Flow
        requires after { MaybeIn self.now.frame.slots after }
        requires calls { self.now.callers.items ≡ [] }
        ensures { (a : Arena) (signals : List Value) → to.0 < label_count a self.now.frame.unit.0 → Each (λ (v : Value). v.0 < length self.now.frame.slots) signals → standing.parts_in self.now.frame.slots signals ≡ Some parts → (p : Point) → standing.MachineIs a self.now p → let f = naming a self.now.frame.unit.0 in standing.InstLeads a self.now result p.control.unit (ends_at p p.callers (waiting p.control.block (f.label_name to.0) (parts_at p.control.held (map (value_text f) signals)) (act.wake_at at p.control.held (maybe_text f after)))) }
    {
        match wake(at, &self.frame.slots, after) {
            Some(wake) => Flow::Waits {
                to,
                on: WaitOn { parts, wake },
            },
            None => Flow::Lost,
        }
    }

    /// Halts; there is no call open then.
    pub(crate) fn run_halt(&self) -> Flow
        ensures { (a : Arena) (p : Point) → standing.MachineIs a self.now p → standing.InstLeads a self.now result p.control.unit (ends_at p p.callers (Some act.halted)) }
    {
        if self.callers.is_empty() {
            Flow::Halts
        } else {
            Flow::Lost
        }
    }
}

/// Takes the values of the `phi` among these instructions; false where one of them is not there.
fn take_phis(
    m: &Module,
    frame: &UnitFrame,
    insts: &[InstId],
    taken: &mut Vec<Taken>,
) -> Result<bool, NoMemory>
    requires unit { frame.now.unit.0 < unit_count m.now }
    requires insts { Each (λ (i : Id). i.0 < inst_count m.now frame.now.unit.0) insts.now }
    requires slots { length frame.now.slots ≡ value_count m.now frame.now.unit.0 }
    requires none { taken.old.items ≡ [] }
    ensures { IfOk result (λ there. TakesValues there (map taken_of taken.new.items) (all_taken frame.now.block frame.now.slots (table_at m.now frame.now.unit.0) insts.now)) }
{
    for inst in insts {
        if !take_phi(m, frame, *inst, taken)? {
            return Ok(false);
        }
    }
    Ok(true)
}

/// Takes the value of an instruction, if it is a `phi`; false where that is not there.
fn take_phi(
    m: &Module,
    frame: &UnitFrame,
    inst: InstId,
    taken: &mut Vec<Taken>,
) -> Result<bool, NoMemory>
    requires unit { frame.now.unit.0 < unit_count m.now }
    requires inst { inst.0 < inst_count m.now frame.now.unit.0 }
    requires slots { length frame.now.slots ≡ value_count m.now frame.now.unit.0 }
    ensures { let l = line_at (table_at m.now frame.now.unit.0) inst.0 in (more : Option (List (Value × Datum))) → IfOk result (λ there. TakesMore there (map taken_of taken.old.items) (map taken_of taken.new.items) more (one_taken frame.now.block frame.now.slots l.inst l.result more)) }
{
    match m.inst(frame.unit, inst) {
        Inst::Phi { ty: _, edges } => {
            let name = m.result_of(frame.unit, inst);
            take_edge(frame, edges.as_slice(), name, taken)
        }
        _ => Ok(true),
    }
}

/// Takes the value of a `phi` with these edges and this name; false where it is not there.
fn take_edge(
    frame: &UnitFrame,
    edges: &[PhiEdge],
    name: Option<ValueId>,
    taken: &mut Vec<Taken>,
) -> Result<bool, NoMemory>
    requires edges { Each (λ (e : Edge). e.value.0 < length frame.now.slots) edges.now }
    ensures { (more : Option (List (Value × Datum))) → IfOk result (λ there. TakesMore there (map taken_of taken.old.items) (map taken_of taken.new.items) more (in_front name (option_and_then (holding.datum_in frame.now.slots) (edge_in frame.now.block edges.now)) more)) }
{
    let Some(value) = edge_value(edges, frame.block) else {
        return Ok(false);
    };
    let Some(value) = datum_in(&frame.slots, value) else {
        return Ok(false);
    };
    if let Some(name) = name {
        push_copy(taken, name, value)?;
    }
    Ok(true)
}

/// The operand that a `phi` names for an edge from this block.
fn edge_value(edges: &[PhiEdge], from: BlockId) -> Option<ValueId>
    ensures { result ≡ edge_in from edges.now }
{
    for edge in edges {
        if edge.block == from {
            return Some(edge.value);
        }
    }
    None
}

fn push_copy(taken: &mut Vec<Taken>, name: ValueId, value: &Val) -> Result<(), NoMemory>
    ensures { OnOk result (map taken_of taken.new.items ≡ map taken_of taken.old.items ++ (name, datum_of value.now) ∷ []) }
{
    let value = value.copy()?;
    taken.push(Taken { name, value })?;
    Ok(())
}

/// Holds by its name each of the values that were taken, the last one first.
fn put_taken(taken: &mut Vec<Taken>, slots: &mut Slots)
    requires { Each (λ (t : Value × Datum). t.0.0 < length slots.old) (map taken_of taken.old.items) }
    ensures { slots.new ≡ put_all (map taken_of taken.old.items) slots.old }
{
    while let Some(last) = taken.pop() {
        slots.set(last.name, Held::Datum(last.value));
    }
}

/// The parts of the signals that values hold, where each holds one.
fn parts_in(
    alloc: Global,
    slots: &Slots,
    signals: &[ValueId],
) -> Result<Option<MostlyOne<Range>>, NoMemory>
    requires { Each (λ (v : Value). v.0 < length slots.now) signals.now }
    ensures { IfOk result (λ parts. parts ≡ standing.parts_in slots.now signals.now) }
{
    let mut parts = room_for(alloc, signals.len())?;
    for signal in signals {
        match part_in(slots, *signal) {
            Some(part) => parts.push(part)?,
            None => return Ok(None),
        }
    }
    Ok(Some(parts))
}

/// An empty list with room for this many parts. Most processes wait for one, which takes no memory of its own.
fn room_for(alloc: Global, count: usize) -> Result<MostlyOne<Range>, NoMemory>
    ensures { IfOk result (λ parts. parts ≡ []) }
{
    if count < 2 {
        return Ok(MostlyOne::new(alloc));
    }
    let parts = Vec::with_capacity(alloc, count)?;
    Ok(MostlyOne::from_vec(parts))
}

/// When a `wait` wakes by itself: never without a delay, or where the delay is never due.
fn wake(at: Instant, slots: &Slots, after: Option<ValueId>) -> Option<Option<Instant>>
    requires { MaybeIn slots.now after }
    ensures { result ≡ wake_in at slots.now after }
{
    let Some(after) = after else {
        return Some(None);
    };
    let delay = delay_in(slots, after)?;
    Some(due(at, delay))
}
