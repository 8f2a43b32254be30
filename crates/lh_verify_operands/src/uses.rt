//! The operands of an instruction, and of which kind each must be.
#![tactic(auto, using(crate::proofs::Lists::steps))]

ghost use Rattle.std.specs.Prelude.{◌≡◌, ◌++◌, ◌∷◌, [], IfOk, IfSome, OnOk};
ghost use Rattle.lh_types.specs.Kind.{type_of_kind};
ghost use Rattle.lh_verify_operands.specs.Uses as spec;
ghost use Rattle.lh_verify_operands.specs.Uses.{first_type, uses_of, used, all_used, values_used, maybe_used, edges_used, trigger_uses, triggers_uses};

use lh_types::memory::NoMemory;
use lh_types::op::Op;
use lh_types::ty::TyKind;
use lh_unit::inst::{Inst, PhiEdge, RegTrigger, Typed, ValueId};
use smallvec::SmallVec;
use std::alloc::Global;
use std::marker::Model;

/// What a row takes in one place.
#[derive(Clone, Copy, Debug, PartialEq, Eq)]
pub enum Need {
    /// An integer, an array or a struct.
    Data,
    /// A delay.
    Time,
    /// A signal.
    Signal,
    /// A pointer.
    Pointer,
    /// Data or a delay.
    DataOrTime,
    /// Data or a signal: where the type that is written tells neither.
    DataOrSignal,
}

/// An operand, and what its row takes in its place.
#[derive(Clone, Copy, Debug)]
pub struct Use {
    /// The value, by its id in the unit.
    pub value: ValueId,
    /// What its place takes.
    pub need: Need,
}

// What fills a place of a list that no operand has taken.
impl Default for Use {
    fn default() -> Use {
        Use {
            value: ValueId(0),
            need: Need::Data,
        }
    }
}

/// A list of operands; up to four, as nearly all instructions have, need no memory of their own.
#[derive(Drop)]
pub struct UseList {
    items: SmallVec<Use, 4>,
}

impl Model for UseList {
    ghost use Rattle.std.specs.Prelude.{List};
    ghost use Rattle.lh_verify_operands.specs.declared.uses.Use.{Use};

    ghost Value = { List Use };

    ghost view = { λ a. a.items.items };
}

impl UseList {
    /// An empty list, which takes no memory.
    fn new(alloc: Global) -> UseList
        ensures { result ≡ [] }
    {
        UseList {
            items: SmallVec::new(alloc),
        }
    }

    /// One operand.
    fn one(alloc: Global, operand: Use) -> UseList
        ensures { result ≡ operand ∷ [] }
    {
        let none = Use::default();
        let items = [operand, none, none, none];
        UseList {
            items: SmallVec::from_buf_and_len(alloc, items, 1),
        }
    }

    /// Two operands.
    fn two(alloc: Global, first: Use, second: Use) -> UseList
        ensures { result ≡ first ∷ second ∷ [] }
    {
        let none = Use::default();
        let items = [first, second, none, none];
        UseList {
            items: SmallVec::from_buf_and_len(alloc, items, 2),
        }
    }

    /// Adds an operand at the end.
    fn push(&mut self, operand: Use) -> Result<(), NoMemory>
        ensures { OnOk result (self.new ≡ self.old ++ operand ∷ []) }
    {
        self.items.push(operand)?;
        Ok(())
    }

    /// The operands in order.
    pub fn as_slice(&self) -> &[Use]
        ensures { result.now ≡ self.now }
    {
        self.items.as_slice()
    }
}

/// The operands of an instruction, in the order of the spelling; an error only when memory runs out.
pub fn uses(alloc: Global, inst: &Inst) -> Result<UseList, NoMemory>
    ensures { IfOk result (λ list. list ≡ uses_of inst.now) }
{
    if let Inst::Pure { op, args } = inst {
        if let Some(list) = few_uses(alloc, *op, args.as_slice()) {
            return Ok(list);
        }
    }
    let mut list = UseList::new(alloc);
    put_uses(&mut list, inst)?;
    Ok(list)
}

/// The operands of an operation that has one or two, as most have.
fn few_uses(alloc: Global, op: Op, args: &[Typed]) -> Option<UseList>
    ensures { IfSome result (λ list. list ≡ all_used (spec.operation_need op args.now) args.now) }
{
    match args {
        [one] => Some(UseList::one(alloc, used(operation_need(op, args), one))),
        [first, second] => {
            let need = operation_need(op, args);
            Some(UseList::two(alloc, used(need, first), used(need, second)))
        }
        _ => None,
    }
}

fn used(need: Need, operand: &Typed) -> Use
    ensures { result ≡ used need operand.now.value }
{
    Use {
        value: operand.value,
        need,
    }
}

fn put_uses(list: &mut UseList, inst: &Inst) -> Result<(), NoMemory>
    ensures { OnOk result (list.new ≡ list.old ++ uses_of inst.now) }
{
    match inst {
        Inst::Const(_) | Inst::Br(_) | Inst::Halt | Inst::Ret(None) => Ok(()),
        Inst::Pure { op, args } => put_operation(list, *op, args.as_slice()),
        Inst::Var(of) | Inst::Ret(Some(of)) => put(list, Need::DataOrTime, of.value),
        Inst::Ld(from) => put(list, Need::Pointer, from.value),
        Inst::St { to, value } => put_two(list, Need::Pointer, to.value, Need::DataOrTime, *value),
        Inst::Sig(of) => put(list, initial_need(of), of.value),
        Inst::Prb(of) => put(list, Need::Signal, of.value),
        Inst::Drv {
            to,
            value,
            after,
            cond,
        } => put_drive(list, to.value, *value, *after, *cond),
        Inst::Reg { to, triggers } => put_register(list, to.value, triggers.as_slice()),
        Inst::Child {
            unit: _,
            inputs,
            outputs,
        } => put_ports(list, inputs.as_slice(), outputs.as_slice()),
        Inst::Call {
            unit: _,
            result: _,
            args,
        } => put_all(list, Need::DataOrTime, args.as_slice()),
        Inst::Phi { ty: _, edges } => put_edges(list, edges.as_slice()),
        Inst::Branch {
            cond,
            zero: _,
            one: _,
        } => put(list, Need::Data, *cond),
        Inst::Wait {
            to: _,
            after,
            signals,
        } => put_wait(list, *after, signals.as_slice()),
    }
}

fn put(list: &mut UseList, need: Need, value: ValueId) -> Result<(), NoMemory>
    ensures { OnOk result (list.new ≡ list.old ++ used need value ∷ []) }
{
    list.push(Use { value, need })
}

fn put_two(
    list: &mut UseList,
    first_need: Need,
    first: ValueId,
    second_need: Need,
    second: ValueId,
) -> Result<(), NoMemory>
    ensures { OnOk result (list.new ≡ list.old ++ used first_need first ∷ used second_need second ∷ []) }
{
    put(list, first_need, first)?;
    put(list, second_need, second)
}

fn put_maybe(list: &mut UseList, need: Need, value: Option<ValueId>) -> Result<(), NoMemory>
    ensures { OnOk result (list.new ≡ list.old ++ maybe_used need value) }
{
    match value {
        None => Ok(()),
        Some(value) => put(list, need, value),
    }
}

fn put_all(list: &mut UseList, need: Need, operands: &[Typed]) -> Result<(), NoMemory>
    ensures { OnOk result (list.new ≡ list.old ++ all_used need operands.now) }
{
    for operand in operands {
        put(list, need, operand.value)?;
    }
    Ok(())
}

fn put_values(list: &mut UseList, need: Need, values: &[ValueId]) -> Result<(), NoMemory>
    ensures { OnOk result (list.new ≡ list.old ++ values_used need values.now) }
{
    for value in values {
        put(list, need, *value)?;
    }
    Ok(())
}

fn put_edges(list: &mut UseList, edges: &[PhiEdge]) -> Result<(), NoMemory>
    ensures { OnOk result (list.new ≡ list.old ++ edges_used edges.now) }
{
    for edge in edges {
        put(list, Need::DataOrTime, edge.value)?;
    }
    Ok(())
}

fn put_operation(list: &mut UseList, op: Op, args: &[Typed]) -> Result<(), NoMemory>
    ensures { OnOk result (list.new ≡ list.old ++ all_used (spec.operation_need op args.now) args.now) }
{
    put_all(list, operation_need(op, args), args)
}

fn put_drive(
    list: &mut UseList,
    to: ValueId,
    value: ValueId,
    after: ValueId,
    cond: Option<ValueId>,
) -> Result<(), NoMemory>
    ensures { OnOk result (list.new ≡ list.old ++ used Need.Signal to ∷ used Need.Data value ∷ used Need.Time after ∷ maybe_used Need.Data cond) }
{
    put_two(list, Need::Signal, to, Need::Data, value)?;
    put(list, Need::Time, after)?;
    put_maybe(list, Need::Data, cond)
}

fn put_trigger(list: &mut UseList, trigger: RegTrigger) -> Result<(), NoMemory>
    ensures { OnOk result (list.new ≡ list.old ++ trigger_uses trigger) }
{
    put_two(list, Need::Data, trigger.value, Need::Data, trigger.trigger)?;
    put_maybe(list, Need::Data, trigger.gate)?;
    put_maybe(list, Need::Time, trigger.after)
}

fn put_triggers(list: &mut UseList, triggers: &[RegTrigger]) -> Result<(), NoMemory>
    ensures { OnOk result (list.new ≡ list.old ++ triggers_uses triggers.now) }
{
    for trigger in triggers {
        put_trigger(list, *trigger)?;
    }
    Ok(())
}

fn put_register(list: &mut UseList, to: ValueId, triggers: &[RegTrigger]) -> Result<(), NoMemory>
    ensures { OnOk result (list.new ≡ list.old ++ used Need.Signal to ∷ triggers_uses triggers.now) }
{
    put(list, Need::Signal, to)?;
    put_triggers(list, triggers)
}

fn put_ports(list: &mut UseList, inputs: &[Typed], outputs: &[Typed]) -> Result<(), NoMemory>
    ensures { OnOk result (list.new ≡ list.old ++ (all_used Need.Signal inputs.now ++ all_used Need.Signal outputs.now)) }
{
    put_all(list, Need::Signal, inputs)?;
    put_all(list, Need::Signal, outputs)
}

fn put_wait(list: &mut UseList, after: Option<ValueId>, signals: &[ValueId]) -> Result<(), NoMemory>
    ensures { OnOk result (list.new ≡ list.old ++ (maybe_used Need.Time after ++ values_used Need.Signal signals.now)) }
{
    put_maybe(list, Need::Time, after)?;
    put_values(list, Need::Signal, signals)
}

// `extf` and `exts` are of data or of a signal, as the type that is written says.
fn operation_need(op: Op, args: &[Typed]) -> Need
    ensures { result ≡ spec.operation_need op args.now }
{
    match op {
        Op::Extf(_) | Op::Exts { .. } => first_need(args),
        _ => Need::Data,
    }
}

fn first_need(args: &[Typed]) -> Need
    ensures { result ≡ spec.step_need (first_type args.now) }
{
    match args.split_first() {
        None => Need::DataOrSignal,
        Some((first, _)) => match first.ty.get() {
            None => Need::DataOrSignal,
            Some(ty) => step_need(ty.kind()),
        },
    }
}

fn step_need(ty: TyKind<'_>) -> Need
    ensures { result ≡ spec.step_need (Some (type_of_kind ty.entry)) }
{
    match ty {
        TyKind::Signal(_) => Need::Signal,
        TyKind::Int(_) | TyKind::Array(_, _) | TyKind::Tuple(_) => Need::Data,
        TyKind::Time | TyKind::Void | TyKind::Pointer(_) => Need::DataOrSignal,
    }
}

// A time is of the right kind where `time` is written: the type is then wrong.
fn initial_need(of: &Typed) -> Need
    ensures { result ≡ spec.initial_need of.now.ty }
{
    match of.ty.get() {
        None => Need::Data,
        Some(ty) => match ty.kind() {
            TyKind::Time => Need::DataOrTime,
            _ => Need::Data,
        },
    }
}
