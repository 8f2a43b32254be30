//! Terms to which no equation applies, and constants that an equation gives.
ghost use Rattle.std.specs.Prelude.{◌≡◌, IfOk};
ghost use Rattle.lh_types.specs.Types.{array_type, tuple_type, row_of};
ghost use Rattle.lh_term.specs.Tree.{operation_on, tree_row};
ghost use Rattle.lh_term.specs.Types.{TakesTypes, type_of, types_of, row_result};
ghost use Rattle.lh_term.specs.Types as spec;
ghost use Rattle.lh_term.specs.Arena.{trees, tree_at, trees_at, IsIn, AreIn, StandsForTree, Grows};

use crate::term::{Term, TermId, TermList, TermNode};
use crate::terms::Terms;
use crate::types::{element_type, field_type, slice_type};
use lh_types::memory::NoMemory;
use lh_types::op::Op;
use lh_types::ty::{Ty, TyFault, TyList};
use std::alloc::Global;

impl Terms {
    /// The operation itself.
    pub(crate) fn plain(&mut self, op: &Op, args: &[TermId]) -> Result<TermId, NoMemory>
        requires within { AreIn self.old args.now }
        requires fits { TakesTypes op.now (types_of (tree_row (trees_at self.old args.now))) }
        ensures made { IfOk result (λ t. StandsForTree self.new t (operation_on op.now (trees_at self.old args.now))) }
        ensures kept { Grows self.old self.new }
    {
        self.are_typed(args);
        let list = TermList::from_slice(self.allocator(), args)?;
        let Ok(ty) = self.result_type(op, args) else {
            return Err(NoMemory);
        };
        self.intern(TermNode {
            term: Term::Op {
                op: *op,
                args: list,
            },
            ty,
        })
    }

    /// The type of what a row gives on terms; a fault where there is none.
    fn result_type(&self, op: &Op, args: &[TermId]) -> Result<Ty, TyFault>
        requires { AreIn self.now args.now }
        ensures { IfOk result (λ t. t ≡ row_result op.now (types_of (tree_row (trees_at self.now args.now)))) }
    {
        if gives_bit(op) {
            return Ty::int(1);
        }
        let [first, ..] = args else {
            return Err(TyFault::Empty);
        };
        self.type_by_first(op, *first, args)
    }

    /// The type of what a row that does not tell a bit gives on terms, by the first.
    fn type_by_first(&self, op: &Op, first: TermId, args: &[TermId]) -> Result<Ty, TyFault>
        requires first_in { IsIn self.now first }
        requires args_in { AreIn self.now args.now }
        ensures { IfOk result (λ t. t ≡ spec.type_by_first op.now (type_of (tree_at (trees self.now) first)) (types_of (tree_row (trees_at self.now args.now)))) }
    {
        let alloc = self.allocator();
        let of = self.ty(first);
        match op {
            Op::Mux => element_type(of),
            Op::Extf(k) => field_type(of, *k),
            Op::Exts { len, .. } => slice_type(alloc, of, *len),
            Op::Array => array_of(alloc, of, args.len()),
            Op::Repeat(n) => array_of(alloc, of, *n as usize),
            Op::Tuple => self.tuple_type(args),
            _ => Ok(of.copy()?),
        }
    }

    /// The type of the struct of terms.
    fn tuple_type(&self, args: &[TermId]) -> Result<Ty, TyFault>
        requires { AreIn self.now args.now }
        ensures { IfOk result (λ t. t ≡ tuple_type (row_of (types_of (tree_row (trees_at self.now args.now))))) }
    {
        let mut fields = TyList::new(self.allocator());
        let mut left = args;
        while let [t, rest @ ..] = left {
            let of = self.ty(*t).copy()?;
            fields.push(of)?;
            left = rest;
        }
        Ty::tuple(fields)
    }
}

/// Whether a row tells one bit.
fn gives_bit(op: &Op) -> bool
    ensures { result ≡ spec.gives_bit op.now }
{
    match op {
        Op::Eq | Op::Neq | Op::Slt | Op::Sgt | Op::Sle | Op::Sge => true,
        Op::Ult | Op::Ugt | Op::Ule | Op::Uge => true,
        _ => false,
    }
}

/// The type of the array of `count` elements.
fn array_of(alloc: Global, of: &Ty, count: usize) -> Result<Ty, TyFault>
    ensures { IfOk result (λ t. t ≡ array_type count of.now) }
{
    if count > 65536 {
        return Err(TyFault::TooManyBits);
    }
    let of = of.copy()?;
    Ty::array(alloc, count as u32, of)
}
