//! Instructions, with ids in place of names.
ghost use Rattle.std.specs.Prelude.{◌≡◌};
ghost use Rattle.lh_unit.specs.ById.{is_sig};

use crate::constant::Constant;
use lh_types::few::FewOf;
use lh_types::list::ListOf;
use lh_types::op::Op;
use lh_types::ty::{Ty, TyList};
use lh_types::written::WrittenTy;
use lh_unit_names::name::{Name, UnitName};
use thiserror::Error;

/// A unit of a module.
#[derive(Clone, Copy, Debug, PartialEq, Eq)]
pub struct UnitId(pub u32);

/// A basic block of a unit; an entity's one block is `BlockId(0)`.
#[derive(Clone, Copy, Debug, PartialEq, Eq)]
pub struct BlockId(pub u32);

/// An instruction of a unit, counted from 0 in file order.
#[derive(Clone, Copy, Debug, PartialEq, Eq)]
pub struct InstId(pub u32);

/// A value of a unit: an argument or the result of an instruction.
#[derive(Clone, Copy, Debug, PartialEq, Eq)]
pub struct ValueId(pub u32);

/// What defines a value of a unit.
#[derive(Clone, Copy, Debug, PartialEq, Eq)]
pub enum ValueDef {
    /// Nothing: the value is named and has no definition.
    Missing,
    /// It is the argument of this number, counted from 0.
    Arg(u32),
    /// It is the result of this instruction.
    Inst(InstId),
}

impl ValueDef {
    ghost use Rattle.std.specs.Prelude.{◌≡◌};
    ghost use Rattle.lh_unit.specs.Table.{has_definition};

    /// Whether there is an argument or an instruction.
    pub fn is_some(self) -> bool
        ensures { result ≡ has_definition self }
    {
        match self {
            ValueDef::Missing => false,
            ValueDef::Arg(_) | ValueDef::Inst(_) => true,
        }
    }
}

/// The three kinds of units.
#[derive(Clone, Copy, Debug, PartialEq, Eq)]
pub enum UnitKind {
    /// Computes in no time.
    Func,
    /// Runs and waits.
    Proc,
    /// A network of signals and registers.
    Entity,
}

/// An operand, with the type that is written directly before it.
#[derive(Drop)]
pub struct Typed {
    pub value: ValueId,
    pub ty: WrittenTy,
}

/// A list of operands.
pub type TypedList = ListOf<Typed>;

/// The operands of an operation, mostly one or two.
pub type OperandList = FewOf<Typed>;

/// A list of values.
pub type ValueIdList = ListOf<ValueId>;

/// What a register's trigger looks for.
#[derive(Clone, Copy, Debug, PartialEq, Eq)]
pub enum Mode {
    Rise,
    Fall,
    Both,
    High,
    Low,
}

/// One trigger of a register: the value it stores, and when.
#[derive(Clone, Copy, Debug)]
pub struct RegTrigger {
    pub value: ValueId,
    pub mode: Mode,
    pub trigger: ValueId,
    pub gate: Option<ValueId>,
    pub after: Option<ValueId>,
}

/// The triggers of a register, in order.
pub type RegTriggerList = ListOf<RegTrigger>;

/// The value that a `phi` takes where control came from this block.
#[derive(Clone, Copy, Debug)]
pub struct PhiEdge {
    pub value: ValueId,
    pub block: BlockId,
}

/// The edges of a `phi`, in order.
pub type PhiEdgeList = ListOf<PhiEdge>;

/// An instruction.
#[derive(Drop)]
pub enum Inst {
    /// `const`
    Const(Constant),
    /// An operation on values or parts of signals, its operands in the order of the spelling.
    Pure {
        op: Op,
        args: OperandList,
    },
    /// `var`
    Var(Typed),
    /// `ld`
    Ld(Typed),
    /// `st`
    St {
        to: Typed,
        value: ValueId,
    },
    /// `sig`
    Sig(Typed),
    /// `prb`
    Prb(Typed),
    /// `drv`
    Drv {
        to: Typed,
        value: ValueId,
        after: ValueId,
        cond: Option<ValueId>,
    },
    /// `reg`
    Reg {
        to: Typed,
        triggers: RegTriggerList,
    },
    /// `inst`
    Child {
        unit: UnitId,
        inputs: TypedList,
        outputs: TypedList,
    },
    /// `call`
    Call {
        unit: UnitId,
        result: Ty,
        args: TypedList,
    },
    /// `phi`
    Phi {
        ty: Ty,
        edges: PhiEdgeList,
    },
    /// `br` with one label
    Br(BlockId),
    /// `br` with a condition: the label that 0 takes, then the one that 1 takes
    Branch {
        cond: ValueId,
        zero: BlockId,
        one: BlockId,
    },
    /// `wait`
    Wait {
        to: BlockId,
        after: Option<ValueId>,
        signals: ValueIdList,
    },
    /// `halt`
    Halt,
    /// `ret`
    Ret(Option<Typed>),
}

impl Inst {
    /// Whether it makes a signal.
    pub fn is_sig(&self) -> bool
        ensures { result ≡ is_sig self.now }
    {
        match self {
            Inst::Sig(_) => true,
            _ => false,
        }
    }
}

/// An argument of a unit.
#[derive(Drop)]
pub struct Arg {
    pub value: ValueId,
    pub ty: Ty,
    pub output: bool,
}

/// A declaration of a unit that is defined elsewhere. It is kept and printed, and makes no entry.
#[derive(Drop)]
pub enum Declare {
    Func {
        name: UnitName,
        params: TyList,
        result: Ty,
    },
    Unit {
        name: UnitName,
        inputs: TyList,
        outputs: TyList,
    },
}

/// An item of a file.
#[derive(Drop)]
pub enum Item {
    Unit(UnitId),
    Declare(Declare),
}

/// Why a builder refuses; the module is then unchanged.
#[derive(Clone, Copy, Debug, PartialEq, Eq, Error)]
pub enum UnitFault {
    /// It would be the 65,537th instruction of its unit.
    #[error("a unit has at most 65536 instructions")]
    UnitTooLarge,
    /// The unit, value or label is defined already.
    #[error("the name is defined already")]
    DuplicateName,
    /// Memory ran out.
    #[error("out of memory")]
    OutOfMemory,
}

/// The name of a value, as a list of bytes.
pub type NameList = ListOf<Name>;
