//! Equal copies of instructions and declarations. Each answers `NoMemory` only when memory runs out. What has the most forms is copied
//! last, since its destructor would stand at each early return behind it.
ghost use Rattle.std.specs.Prelude.{◌≡◌, IfOk};

use crate::inst::{
    BlockId, Declare, Inst, OperandList, PhiEdgeList, RegTriggerList, Typed, TypedList, UnitId,
    ValueId, ValueIdList,
};
use lh_types::memory::NoMemory;
use lh_types::op::Op;
use lh_types::ty::{Ty, TyList};
use lh_unit_names::name::UnitName;
use std::alloc::Global;

impl Typed {
    /// An equal operand, which shares its type.
    pub fn copy(&self) -> Result<Typed, NoMemory>
        ensures { IfOk result (λ t. t ≡ self.now) }
    {
        Ok(Typed {
            value: self.value,
            ty: self.ty.share()?,
        })
    }
}

fn copy_operands(alloc: Global, operands: &[Typed]) -> Result<TypedList, NoMemory>
    ensures { IfOk result (λ list. list ≡ operands.now) }
{
    let mut to = TypedList::with_room(alloc, operands.len())?;
    for operand in operands {
        let operand = operand.copy()?;
        to.push(operand)?;
    }
    Ok(to)
}

impl Inst {
    /// An equal instruction.
    pub fn copy(&self) -> Result<Inst, NoMemory>
        ensures { IfOk result (λ inst. inst ≡ self.now) }
    {
        match self {
            Inst::Const(value) => Ok(Inst::Const(value.copy()?)),
            Inst::Pure { op, args } => copy_pure(*op, args),
            Inst::Var(of) => Ok(Inst::Var(of.copy()?)),
            Inst::Ld(of) => Ok(Inst::Ld(of.copy()?)),
            Inst::St { to, value } => copy_st(to, *value),
            Inst::Sig(of) => Ok(Inst::Sig(of.copy()?)),
            Inst::Prb(of) => Ok(Inst::Prb(of.copy()?)),
            Inst::Drv {
                to,
                value,
                after,
                cond,
            } => copy_drv(to, *value, *after, *cond),
            Inst::Reg { to, triggers } => copy_reg(to, triggers),
            Inst::Child {
                unit,
                inputs,
                outputs,
            } => copy_child(*unit, inputs, outputs),
            Inst::Call { unit, result, args } => copy_call(*unit, result, args),
            Inst::Phi { ty, edges } => copy_phi(ty, edges),
            Inst::Br(to) => Ok(Inst::Br(*to)),
            Inst::Branch { cond, zero, one } => Ok(Inst::Branch {
                cond: *cond,
                zero: *zero,
                one: *one,
            }),
            Inst::Wait { to, after, signals } => copy_wait(*to, *after, signals),
            Inst::Halt => Ok(Inst::Halt),
            Inst::Ret(of) => copy_ret(of),
        }
    }
}

fn copy_pure(op: Op, args: &OperandList) -> Result<Inst, NoMemory>
    ensures { IfOk result (λ inst. inst ≡ Inst.Pure op args.now) }
{
    let args = copy_operands(args.allocator(), args.as_slice())?;
    let args = OperandList::from_list(args);
    Ok(Inst::Pure { op, args })
}

fn copy_st(to: &Typed, value: ValueId) -> Result<Inst, NoMemory>
    ensures { IfOk result (λ inst. inst ≡ Inst.St to.now value) }
{
    let to = to.copy()?;
    Ok(Inst::St { to, value })
}

fn copy_drv(
    to: &Typed,
    value: ValueId,
    after: ValueId,
    cond: Option<ValueId>,
) -> Result<Inst, NoMemory>
    ensures { IfOk result (λ inst. inst ≡ Inst.Drv to.now value after cond) }
{
    let to = to.copy()?;
    Ok(Inst::Drv {
        to,
        value,
        after,
        cond,
    })
}

fn copy_reg(to: &Typed, triggers: &RegTriggerList) -> Result<Inst, NoMemory>
    ensures { IfOk result (λ inst. inst ≡ Inst.Reg to.now triggers.now) }
{
    let triggers = triggers.copy()?;
    let to = to.copy()?;
    Ok(Inst::Reg { to, triggers })
}

fn copy_child(unit: UnitId, inputs: &TypedList, outputs: &TypedList) -> Result<Inst, NoMemory>
    ensures { IfOk result (λ inst. inst ≡ Inst.Child unit inputs.now outputs.now) }
{
    let inputs = copy_operands(inputs.allocator(), inputs.as_slice())?;
    let outputs = copy_operands(outputs.allocator(), outputs.as_slice())?;
    Ok(Inst::Child {
        unit,
        inputs,
        outputs,
    })
}

fn copy_call(unit: UnitId, ty: &Ty, args: &TypedList) -> Result<Inst, NoMemory>
    ensures { IfOk result (λ inst. inst ≡ Inst.Call unit ty.now args.now) }
{
    let args = copy_operands(args.allocator(), args.as_slice())?;
    let result = ty.copy()?;
    Ok(Inst::Call { unit, result, args })
}

fn copy_phi(ty: &Ty, edges: &PhiEdgeList) -> Result<Inst, NoMemory>
    ensures { IfOk result (λ inst. inst ≡ Inst.Phi ty.now edges.now) }
{
    let edges = edges.copy()?;
    let ty = ty.copy()?;
    Ok(Inst::Phi { ty, edges })
}

fn copy_wait(to: BlockId, after: Option<ValueId>, signals: &ValueIdList) -> Result<Inst, NoMemory>
    ensures { IfOk result (λ inst. inst ≡ Inst.Wait to after signals.now) }
{
    let signals = signals.copy()?;
    Ok(Inst::Wait { to, after, signals })
}

fn copy_ret(of: &Option<Typed>) -> Result<Inst, NoMemory>
    ensures { IfOk result (λ inst. inst ≡ Inst.Ret of.now) }
{
    match of {
        None => Ok(Inst::Ret(None)),
        Some(of) => {
            let of = of.copy()?;
            Ok(Inst::Ret(Some(of)))
        }
    }
}

impl Declare {
    /// An equal declaration.
    pub fn copy(&self) -> Result<Declare, NoMemory>
        ensures { IfOk result (λ declare. declare ≡ self.now) }
    {
        match self {
            Declare::Func {
                name,
                params,
                result,
            } => copy_func(name, params, result),
            Declare::Unit {
                name,
                inputs,
                outputs,
            } => copy_unit(name, inputs, outputs),
        }
    }
}

fn copy_func(name: &UnitName, params: &TyList, ty: &Ty) -> Result<Declare, NoMemory>
    ensures { IfOk result (λ declare. declare ≡ Declare.Func name.now params.now ty.now) }
{
    let params = params.copy()?;
    let name = name.copy()?;
    let result = ty.copy()?;
    Ok(Declare::Func {
        name,
        params,
        result,
    })
}

fn copy_unit(name: &UnitName, inputs: &TyList, outputs: &TyList) -> Result<Declare, NoMemory>
    ensures { IfOk result (λ declare. declare ≡ Declare.Unit name.now inputs.now outputs.now) }
{
    let inputs = inputs.copy()?;
    let outputs = outputs.copy()?;
    let name = name.copy()?;
    Ok(Declare::Unit {
        name,
        inputs,
        outputs,
    })
}
