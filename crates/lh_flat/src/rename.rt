//! A unit's instructions with the ids of a copy.
ghost use Rattle.std.specs.Prelude.{◌≡◌, ◌<◌, length, map, IfOk};
ghost use Rattle.std.specs.Option.{option_map};
ghost use Rattle.lh_unit.specs.Within.{Each, InstWithin, MaybeWithin};
ghost use Rattle.lh_unit.specs.declared.inst.Typed.{Typed as Operand};
ghost use Rattle.lh_unit.specs.declared.inst.PhiEdge.{PhiEdge as Edge};
ghost use Rattle.lh_unit.specs.declared.inst.ValueId.{ValueId as Id};
ghost use Rattle.lh_flat.specs.Renames.{no_span, value_in, span_in, first_in, last_in, operand_in, edge_in, renamed, sizes_in, max_units};

use lh_types::list::ListOf;
use lh_types::memory::NoMemory;
use lh_types::op::Op;
use lh_types::ty::Ty;
use lh_unit::inst::{
    BlockId, Inst, OperandList, PhiEdge, PhiEdgeList, Typed, TypedList, UnitId, ValueId,
    ValueIdList,
};
use std::alloc::Global;

/// The first and the last piece of a block in the flat text.
#[derive(Clone, Copy)]
pub struct Span {
    pub first: BlockId,
    pub last: BlockId,
}

impl Span {
    /// The pieces of a block that does not stand in the unit.
    pub fn nowhere() -> Span
        ensures { result ≡ no_span }
    {
        Span {
            first: BlockId(0),
            last: BlockId(0),
        }
    }
}

/// The pieces of blocks, by the ids of labels.
pub type SpanList = ListOf<Span>;

/// The new ids of a unit in a copy of it.
#[derive(Drop)]
pub struct Renaming {
    /// The new id of each value.
    pub values: ValueIdList,
    /// The pieces of each block, by the ids of labels.
    pub spans: SpanList,
    /// The block to which a `ret` leads.
    pub back: BlockId,
}

impl Renaming {
    /// The new id of a value.
    pub fn value(&self, value: ValueId) -> ValueId
        requires { value.0 < length self.now.values }
        ensures { result ≡ value_in self.now value }
    {
        self.values.as_slice()[value.0 as usize]
    }

    /// The pieces of a block.
    fn span(&self, block: BlockId) -> Span
        ensures { result ≡ span_in self.now block }
    {
        match self.spans.as_slice().get(block.0 as usize) {
            Some(span) => *span,
            None => Span::nowhere(),
        }
    }

    /// Where a block begins.
    pub fn first(&self, block: BlockId) -> BlockId
        ensures { result ≡ first_in self.now block }
    {
        self.span(block).first
    }

    /// The last piece of a block.
    pub fn last(&self, block: BlockId) -> BlockId
        ensures { result ≡ last_in self.now block }
    {
        self.span(block).last
    }

    /// The new id of a value, if there is one.
    pub fn maybe(&self, value: Option<ValueId>) -> Option<ValueId>
        requires { MaybeWithin (sizes_in 0 self.now) value }
        ensures { result ≡ option_map (value_in self.now) value }
    {
        match value {
            None => None,
            Some(value) => Some(self.value(value)),
        }
    }

    fn operand(&self, operand: &Typed) -> Result<Typed, NoMemory>
        requires { operand.now.value.0 < length self.now.values }
        ensures { IfOk result (λ o. o ≡ operand_in self.now operand.now) }
    {
        Ok(Typed {
            value: self.value(operand.value),
            ty: operand.ty.share()?,
        })
    }

    fn operands(&self, alloc: Global, operands: &[Typed]) -> Result<TypedList, NoMemory>
        requires { Each (λ (o : Operand). o.value.0 < length self.now.values) operands.now }
        ensures { IfOk result (λ list. list ≡ map (operand_in self.now) operands.now) }
    {
        let mut to = TypedList::new(alloc);
        for operand in operands {
            to.push(self.operand(operand)?)?;
        }
        Ok(to)
    }

    fn edge(&self, edge: PhiEdge) -> PhiEdge
        requires { edge.value.0 < length self.now.values }
        ensures { result ≡ edge_in self.now edge }
    {
        PhiEdge {
            value: self.value(edge.value),
            block: self.last(edge.block),
        }
    }

    fn edges(&self, edges: &PhiEdgeList) -> Result<PhiEdgeList, NoMemory>
        requires { Each (λ (e : Edge). e.value.0 < length self.now.values) edges.now }
        ensures { IfOk result (λ list. list ≡ map (edge_in self.now) edges.now) }
    {
        let items = edges.as_slice();
        let mut to = PhiEdgeList::new(edges.allocator());
        for edge in items {
            to.push(self.edge(*edge))?;
        }
        Ok(to)
    }

    /// The new ids of operands.
    pub fn values(&self, operands: &TypedList) -> Result<ValueIdList, NoMemory>
        requires { Each (λ (o : Operand). o.value.0 < length self.now.values) operands.now }
        ensures { IfOk result (λ list. list ≡ map (λ (o : Operand). value_in self.now o.value) operands.now) }
    {
        let items = operands.as_slice();
        let mut to = ValueIdList::new(operands.allocator());
        for operand in items {
            to.push(self.value(operand.value))?;
        }
        Ok(to)
    }

    fn signals(&self, signals: &ValueIdList) -> Result<ValueIdList, NoMemory>
        requires { Each (λ (v : Id). v.0 < length self.now.values) signals.now }
        ensures { IfOk result (λ list. list ≡ map (value_in self.now) signals.now) }
    {
        let items = signals.as_slice();
        let mut to = ValueIdList::new(signals.allocator());
        for signal in items {
            to.push(self.value(*signal))?;
        }
        Ok(to)
    }

    fn pure_inst(&self, op: Op, args: &OperandList) -> Result<Inst, NoMemory>
        requires { Each (λ (o : Operand). o.value.0 < length self.now.values) args.now }
        ensures { IfOk result (λ i. i ≡ Inst.Pure op (map (operand_in self.now) args.now)) }
    {
        let args = self.operands(args.allocator(), args.as_slice())?;
        let args = OperandList::from_list(args);
        Ok(Inst::Pure { op, args })
    }

    fn st(&self, to: &Typed, value: ValueId) -> Result<Inst, NoMemory>
        requires to { to.now.value.0 < length self.now.values }
        requires value { value.0 < length self.now.values }
        ensures { IfOk result (λ i. i ≡ Inst.St (operand_in self.now to.now) (value_in self.now value)) }
    {
        let to = self.operand(to)?;
        Ok(Inst::St {
            to,
            value: self.value(value),
        })
    }

    fn drv(
        &self,
        to: &Typed,
        value: ValueId,
        after: ValueId,
        cond: Option<ValueId>,
    ) -> Result<Inst, NoMemory>
        requires to { to.now.value.0 < length self.now.values }
        requires value { value.0 < length self.now.values }
        requires after { after.0 < length self.now.values }
        requires cond { MaybeWithin (sizes_in 0 self.now) cond }
        ensures { IfOk result (λ i. i ≡ Inst.Drv (operand_in self.now to.now) (value_in self.now value) (value_in self.now after) (option_map (value_in self.now) cond)) }
    {
        let to = self.operand(to)?;
        Ok(Inst::Drv {
            to,
            value: self.value(value),
            after: self.value(after),
            cond: self.maybe(cond),
        })
    }

    fn call(&self, unit: UnitId, ty: &Ty, args: &TypedList) -> Result<Inst, NoMemory>
        requires { Each (λ (o : Operand). o.value.0 < length self.now.values) args.now }
        ensures { IfOk result (λ i. i ≡ Inst.Call unit ty.now (map (operand_in self.now) args.now)) }
    {
        let ty = ty.copy()?;
        let args = self.operands(args.allocator(), args.as_slice())?;
        Ok(Inst::Call {
            unit,
            result: ty,
            args,
        })
    }

    fn phi(&self, ty: &Ty, edges: &PhiEdgeList) -> Result<Inst, NoMemory>
        requires { Each (λ (e : Edge). e.value.0 < length self.now.values) edges.now }
        ensures { IfOk result (λ i. i ≡ Inst.Phi ty.now (map (edge_in self.now) edges.now)) }
    {
        let edges = self.edges(edges)?;
        let ty = ty.copy()?;
        Ok(Inst::Phi { ty, edges })
    }

    fn wait(
        &self,
        to: BlockId,
        after: Option<ValueId>,
        signals: &ValueIdList,
    ) -> Result<Inst, NoMemory>
        requires after { MaybeWithin (sizes_in 0 self.now) after }
        requires signals { Each (λ (v : Id). v.0 < length self.now.values) signals.now }
        ensures { IfOk result (λ i. i ≡ Inst.Wait (first_in self.now to) (option_map (value_in self.now) after) (map (value_in self.now) signals.now)) }
    {
        let signals = self.signals(signals)?;
        Ok(Inst::Wait {
            to: self.first(to),
            after: self.maybe(after),
            signals,
        })
    }

    /// An instruction in this copy; a `ret` becomes a branch to what follows the call.
    pub fn inst(&self, inst: &Inst) -> Result<Inst, NoMemory>
        requires { InstWithin (sizes_in max_units self.now) inst.now }
        ensures { IfOk result (λ i. i ≡ renamed self.now inst.now) }
    {
        match inst {
            Inst::Const(value) => Ok(Inst::Const(value.copy()?)),
            Inst::Pure { op, args } => self.pure_inst(*op, args),
            Inst::Var(of) => Ok(Inst::Var(self.operand(of)?)),
            Inst::Ld(of) => Ok(Inst::Ld(self.operand(of)?)),
            Inst::St { to, value } => self.st(to, *value),
            Inst::Sig(_) | Inst::Reg { .. } | Inst::Child { .. } => inst.copy(),
            Inst::Prb(of) => Ok(Inst::Prb(self.operand(of)?)),
            Inst::Drv {
                to,
                value,
                after,
                cond,
            } => self.drv(to, *value, *after, *cond),
            Inst::Call { unit, result, args } => self.call(*unit, result, args),
            Inst::Phi { ty, edges } => self.phi(ty, edges),
            Inst::Br(to) => Ok(Inst::Br(self.first(*to))),
            Inst::Branch { cond, zero, one } => Ok(Inst::Branch {
                cond: self.value(*cond),
                zero: self.first(*zero),
                one: self.first(*one),
            }),
            Inst::Wait { to, after, signals } => self.wait(*to, *after, signals),
            Inst::Halt => Ok(Inst::Halt),
            Inst::Ret(_) => Ok(Inst::Br(self.back)),
        }
    }
}
