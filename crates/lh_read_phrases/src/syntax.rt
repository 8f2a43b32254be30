//! What one line says, with names where they stand in the line.
ghost use Rattle.std.specs.Prelude.{◌≡◌};

use lh_read_pieces::tokens::{NameText, UnitNameText};
use lh_types::few::FewOf;
use lh_types::list::ListOf;
use lh_types::op::Op;
use lh_types::ty::{Ty, TyList};
use lh_types::val::Val;
use lh_unit::inst::Mode;
use std::marker::Model;

/// An operand, with the type that is written directly before it.
#[derive(Drop)]
pub struct Operand<'a> {
    pub value: NameText<'a>,
    pub ty: Option<Ty>,
}

/// One trigger of a register.
#[derive(Drop)]
pub struct TriggerSyntax<'a> {
    pub value: NameText<'a>,
    pub mode: Mode,
    pub trigger: NameText<'a>,
    pub gate: Option<NameText<'a>>,
    pub after: Option<NameText<'a>>,
}

/// The value that a `phi` takes where control came from this block.
#[derive(Drop)]
pub struct EdgeSyntax<'a> {
    pub value: NameText<'a>,
    pub block: NameText<'a>,
}

/// An argument of a unit: a name with the type that is written before it.
#[derive(Drop)]
pub struct Param<'a> {
    pub(crate) ty: Ty,
    pub(crate) name: NameText<'a>,
}

impl<'a> Model for Param<'a> {
    ghost use Rattle.std.specs.Coded.{codes};
    ghost use Rattle.lh_types.specs.Types.{type_coded};
    ghost use Rattle.lh_unit.specs.Spells.{TypedName};

    ghost Value = { TypedName };

    ghost coded = { Prim.hlevel (codes, type_coded) };

    ghost view = { λ a. record { ty = a.ty; name = a.name } };
}

impl<'a> Param<'a> {
    /// The type that is written before the name.
    pub fn ty(&self) -> &Ty
        ensures { result.now ≡ self.now.ty }
    {
        &self.ty
    }

    /// The name.
    pub fn name(&self) -> &NameText<'a>
        ensures { result.now ≡ self.now.name }
    {
        &self.name
    }
}

/// An instruction.
#[derive(Drop)]
pub enum InstSyntax<'a> {
    /// `const`
    Const(Val),
    /// An operation on values or parts of signals, its operands in the order of the spelling.
    Pure {
        op: Op,
        args: FewOf<Operand<'a>>,
    },
    /// `var`
    Var(Operand<'a>),
    /// `ld`
    Ld(Operand<'a>),
    /// `st`
    St {
        to: Operand<'a>,
        value: NameText<'a>,
    },
    /// `sig`
    Sig(Operand<'a>),
    /// `prb`
    Prb(Operand<'a>),
    /// `drv`
    Drv {
        to: Operand<'a>,
        value: NameText<'a>,
        after: NameText<'a>,
        cond: Option<NameText<'a>>,
    },
    /// `reg`
    Reg {
        to: Operand<'a>,
        triggers: ListOf<TriggerSyntax<'a>>,
    },
    /// `inst`
    Child {
        unit: UnitNameText<'a>,
        inputs: ListOf<Operand<'a>>,
        outputs: ListOf<Operand<'a>>,
    },
    /// `call`
    Call {
        unit: UnitNameText<'a>,
        result: Ty,
        args: ListOf<Operand<'a>>,
    },
    /// `phi`
    Phi {
        ty: Ty,
        edges: ListOf<EdgeSyntax<'a>>,
    },
    /// `br` with one label
    Br(NameText<'a>),
    /// `br` with a condition: the label that 0 takes, then the one that 1 takes
    Branch {
        cond: NameText<'a>,
        zero: NameText<'a>,
        one: NameText<'a>,
    },
    /// `wait`
    Wait {
        to: NameText<'a>,
        after: Option<NameText<'a>>,
        signals: ListOf<NameText<'a>>,
    },
    /// `halt`
    Halt,
    /// `ret`
    Ret(Option<Operand<'a>>),
}

/// The arguments of a process or an entity.
#[derive(Drop)]
pub struct Ports<'a> {
    pub inputs: ListOf<Param<'a>>,
    pub outputs: ListOf<Param<'a>>,
}

/// What a line says.
#[derive(Drop)]
pub enum LineSyntax<'a> {
    /// Nothing, or only a comment.
    Empty,
    /// The head of a function.
    Func {
        name: UnitNameText<'a>,
        params: ListOf<Param<'a>>,
        result: Ty,
    },
    /// The head of a process.
    Proc {
        name: UnitNameText<'a>,
        ports: Ports<'a>,
    },
    /// The head of an entity.
    Entity {
        name: UnitNameText<'a>,
        ports: Ports<'a>,
    },
    /// A function that is defined elsewhere.
    DeclareFunc {
        name: UnitNameText<'a>,
        params: TyList,
        result: Ty,
    },
    /// A process or an entity that is defined elsewhere.
    DeclareUnit {
        name: UnitNameText<'a>,
        inputs: TyList,
        outputs: TyList,
    },
    /// A label, which opens a block.
    Label(NameText<'a>),
    /// An instruction and the name of its result.
    Inst {
        result: Option<NameText<'a>>,
        inst: InstSyntax<'a>,
    },
    /// The end of a unit.
    Close,
}
