//! The operations of the language, by name and with the numbers that their spelling writes, and the class of each.
ghost use Rattle.std.specs.Prelude.{◌≡◌};
ghost use Rattle.lh_types.specs.Classes.{class_of};

use crate::part::Step;

/// An operation on values, one variant for each row of the table of operations.
///
/// A number in a variant is the one that the instruction writes: the element or field of `extf` and `insf`,
/// the first bit or element and their count in `exts` and `inss`, the count of a repeated element.
#[derive(Clone, Copy, Debug, PartialEq, Eq)]
pub enum Op {
    Not,
    Neg,
    Add,
    Sub,
    Umul,
    Smul,
    Udiv,
    Sdiv,
    Umod,
    Smod,
    Urem,
    Srem,
    And,
    Or,
    Xor,
    Eq,
    Neq,
    Slt,
    Sgt,
    Sle,
    Sge,
    Ult,
    Ugt,
    Ule,
    Uge,
    Shl,
    Shr,
    Mux,
    Extf(u32),
    Exts { at: u32, len: u32 },
    Insf(u32),
    Inss { at: u32, len: u32 },
    Array,
    Repeat(u32),
    Tuple,
}

/// What the operations of one class have in common: how many operands they take, how these are written, of which types
/// they are, and of which type the result is.
#[derive(Clone, Copy, Debug)]
pub enum OpClass {
    /// One integer, and a result of its type.
    Unary,
    /// Two integers of one type, and a result of this type.
    Binary,
    /// Two integers of one type, and a truth value: which is the greater.
    Relation,
    /// Two values of one type, and a truth value: whether they are equal.
    Equality,
    /// Two integers of one type, an amount, and a result of that type: the funnel shifts.
    Shift,
    /// An array and a number, and the element of this number.
    Select,
    /// A value or a signal, and the part of it that the step leads to.
    TakePart(Step),
    /// A value and a part, and the value with this part in the place that the step leads to.
    PutPart(Step),
    /// The elements of an array.
    Array,
    /// An element, and the array of this many copies.
    Repeat(u32),
    /// The fields of a struct.
    Tuple,
}

impl Op {
    /// The class of the operation.
    pub fn class(self) -> OpClass
        ensures { result ≡ class_of self }
    {
        match self {
            Op::Not | Op::Neg => OpClass::Unary,
            Op::Add | Op::Sub | Op::Umul | Op::Smul => OpClass::Binary,
            Op::Udiv | Op::Sdiv | Op::Umod | Op::Smod | Op::Urem | Op::Srem => OpClass::Binary,
            Op::And | Op::Or | Op::Xor => OpClass::Binary,
            Op::Slt | Op::Sgt | Op::Sle | Op::Sge => OpClass::Relation,
            Op::Ult | Op::Ugt | Op::Ule | Op::Uge => OpClass::Relation,
            Op::Eq | Op::Neq => OpClass::Equality,
            Op::Shl | Op::Shr => OpClass::Shift,
            Op::Mux => OpClass::Select,
            Op::Extf(k) => OpClass::TakePart(Step::Field(k)),
            Op::Exts { at, len } => OpClass::TakePart(Step::Slice { at, len }),
            Op::Insf(k) => OpClass::PutPart(Step::Field(k)),
            Op::Inss { at, len } => OpClass::PutPart(Step::Slice { at, len }),
            Op::Array => OpClass::Array,
            Op::Repeat(n) => OpClass::Repeat(n),
            Op::Tuple => OpClass::Tuple,
        }
    }
}
