//! The forms that the equations match, and the constants that they give.
ghost use Rattle.std.specs.Prelude.{◌≡◌, ◌≤◌, ◌-◌, ◌^◌, ◌||◌, ℕ, true, map, IfOk};
ghost use Rattle.lh_types.specs.Types.{IsData, int_type};
ghost use Rattle.lh_types.specs.ValueOf.{datum_of};
ghost use Rattle.lh_types.specs.Apply as rows;
ghost use Rattle.lh_term.specs.Tree.{constant, tree_row};
ghost use Rattle.lh_term.specs.Types.{FitsTerm, TakesTypes, type_of, types_of};
ghost use Rattle.lh_term.specs.Make as table;
ghost use Rattle.lh_term.specs.Arena.{trees, tree_at, trees_at, IsIn, AreIn, StandsForTree, Grows};
ghost use Rattle.lh_term.specs.Found.{FindsTerm, FindsPair};
ghost use Rattle.lh_term.specs.Found as find;

use crate::term::{Term, TermId};
use crate::terms::Terms;
use lh_ops::{apply, apply_int};
use lh_types::memory::NoMemory;
use lh_types::op::Op;
use lh_types::ty::TyKind;
use lh_types::val::Val;

impl Terms {
    pub(crate) fn is_constant(&self, x: TermId) -> bool
        requires { IsIn self.now x }
        ensures { result ≡ table.is_constant (tree_at (trees self.now) x) }
    {
        match self.view(x) {
            Term::Konst(_) => true,
            _ => false,
        }
    }

    pub(crate) fn are_constant(&self, xs: &[TermId]) -> bool
        requires { AreIn self.now xs.now }
        ensures { result ≡ table.all_constant (trees_at self.now xs.now) }
    {
        let mut left = xs;
        while let [x, rest @ ..] = left {
            if !self.is_constant(*x) {
                return false;
            }
            left = rest;
        }
        true
    }

    /// Whether it is the integer 0.
    pub(crate) fn is_zero(&self, x: TermId) -> bool
        requires { IsIn self.now x }
        ensures { result ≡ table.is_zero (tree_at (trees self.now) x) }
    {
        match self.view(x) {
            Term::Konst(v) => is_zero_value(v),
            _ => false,
        }
    }

    /// Whether it is the integer whose bits are all 1.
    pub(crate) fn is_ones(&self, x: TermId) -> bool
        requires { IsIn self.now x }
        ensures { result ≡ table.is_ones (tree_at (trees self.now) x) }
    {
        match self.view(x) {
            Term::Konst(v) => is_ones_value(v),
            _ => false,
        }
    }

    /// Whether it is this integer of one bit.
    pub(crate) fn is_bit(&self, x: TermId, bit: u128) -> bool
        requires { IsIn self.now x }
        ensures { result ≡ table.is_bit bit (tree_at (trees self.now) x) }
    {
        match self.view(x) {
            Term::Konst(v) => is_bit_value(v, bit),
            _ => false,
        }
    }

    /// `y` where the term is `not y`.
    pub(crate) fn negated(&self, x: TermId) -> Option<TermId>
        requires { IsIn self.now x }
        ensures { FindsTerm self.now result (table.negated (tree_at (trees self.now) x)) }
    {
        match self.view(x) {
            Term::Op { op, args } => not_operand(op, args.as_slice()),
            _ => None,
        }
    }

    /// Whether `y` is `not x`.
    pub(crate) fn is_not_of(&self, y: TermId, x: TermId) -> bool
        requires y_in { IsIn self.now y }
        requires x_in { IsIn self.now x }
        ensures { result ≡ table.is_not_of (tree_at (trees self.now) y) (tree_at (trees self.now) x) }
    {
        match self.negated(y) {
            Some(z) => self.same(z, x),
            None => false,
        }
    }

    /// `q` and `a` where the term is `and(q, a)`.
    fn anded(&self, x: TermId) -> Option<(TermId, TermId)>
        requires { IsIn self.now x }
        ensures { FindsPair self.now result (table.anded (tree_at (trees self.now) x)) }
    {
        match self.view(x) {
            Term::Op { op, args } => and_operands(op, args.as_slice()),
            _ => None,
        }
    }

    /// `q` where the terms are `and(q, a)` and `and(q, b)`, and one of `a` and `b` is `not` the other.
    pub(crate) fn halves(&self, x: TermId, y: TermId) -> Option<TermId>
        requires x_in { IsIn self.now x }
        requires y_in { IsIn self.now y }
        ensures { FindsTerm self.now result (table.halves (table.anded (tree_at (trees self.now) x)) (table.anded (tree_at (trees self.now) y))) }
    {
        let (q, a) = self.anded(x)?;
        let (r, b) = self.anded(y)?;
        if self.same(q, r) && self.are_opposite(a, b) {
            return Some(q);
        }
        None
    }

    /// Whether one of two terms is `not` the other.
    fn are_opposite(&self, a: TermId, b: TermId) -> bool
        requires a_in { IsIn self.now a }
        requires b_in { IsIn self.now b }
        ensures { result ≡ (table.is_not_of (tree_at (trees self.now) b) (tree_at (trees self.now) a) || table.is_not_of (tree_at (trees self.now) a) (tree_at (trees self.now) b)) }
    {
        self.is_not_of(b, a) || self.is_not_of(a, b)
    }

    /// The constant that an operation on constants gives.
    pub(crate) fn folded(&mut self, op: &Op, args: &[TermId]) -> Result<TermId, NoMemory>
        requires within { AreIn self.old args.now }
        requires fits { TakesTypes op.now (types_of (tree_row (trees_at self.old args.now))) }
        requires constants { table.all_constant (trees_at self.old args.now) ≡ true }
        ensures made { IfOk result (λ t. StandsForTree self.new t (constant (rows.apply op.now (table.values_in (trees_at self.old args.now))))) }
        ensures kept { Grows self.old self.new }
    {
        self.are_typed(args);
        let values = self.values(args)?;
        let value = apply(self.allocator(), op, &values)?;
        self.konst(value)
    }

    /// The values of constants.
    fn values(&self, args: &[TermId]) -> Result<Vec<Val>, NoMemory>
        requires within { AreIn self.now args.now }
        requires constants { table.all_constant (trees_at self.now args.now) ≡ true }
        ensures { IfOk result (λ vs. map datum_of vs.items ≡ table.values_in (trees_at self.now args.now)) }
    {
        let mut values = Vec::new(self.allocator());
        let mut left = args;
        while let [x, rest @ ..] = left {
            let value = self.value(*x)?;
            values.push(value)?;
            left = rest;
        }
        Ok(values)
    }

    /// The value of a constant.
    fn value(&self, x: TermId) -> Result<Val, NoMemory>
        requires is_in { IsIn self.now x }
        requires constant { table.is_constant (tree_at (trees self.now) x) ≡ true }
        ensures { IfOk result (λ v. datum_of v ≡ table.value_in (tree_at (trees self.now) x)) }
    {
        match self.view(x) {
            Term::Konst(v) => v.copy(),
            _ => unreachable!(),
        }
    }

    /// 0 of the type of an integer.
    pub(crate) fn zero_like(&mut self, x: TermId) -> Result<TermId, NoMemory>
        requires is_in { IsIn self.old x }
        requires integer { (n : ℕ) × (type_of (tree_at (trees self.old) x) ≡ int_type n) × IsData (int_type n) }
        ensures made { IfOk result (λ t. StandsForTree self.new t (table.zero_like (tree_at (trees self.old) x))) }
        ensures kept { Grows self.old self.new }
    {
        let width = self.width(x);
        self.konst(Val::Int { width, bits: 0 })
    }

    /// The integer of ones of the type of an integer.
    pub(crate) fn ones_like(&mut self, x: TermId) -> Result<TermId, NoMemory>
        requires is_in { IsIn self.old x }
        requires integer { (n : ℕ) × (type_of (tree_at (trees self.old) x) ≡ int_type n) × IsData (int_type n) }
        ensures made { IfOk result (λ t. StandsForTree self.new t (table.ones_like (tree_at (trees self.old) x))) }
        ensures kept { Grows self.old self.new }
    {
        let width = self.width(x);
        self.konst(Val::Int {
            width,
            bits: ones(width),
        })
    }

    /// The width of an integer.
    fn width(&self, x: TermId) -> u32
        requires is_in { IsIn self.now x }
        ensures { result ≡ table.width_in (type_of (tree_at (trees self.now) x)) }
    {
        match self.ty(x).kind() {
            TyKind::Int(n) => n,
            _ => 0,
        }
    }

    /// An integer of one bit.
    pub(crate) fn bit(&mut self, b: bool) -> Result<TermId, NoMemory>
        ensures made { IfOk result (λ t. StandsForTree self.new t (table.bit_of b)) }
        ensures kept { Grows self.old self.new }
    {
        self.konst(Val::Int {
            width: 1,
            bits: b as u128,
        })
    }
}

fn is_zero_value(v: &Val) -> bool
    ensures { result ≡ table.is_zero_value (datum_of v.now) }
{
    match v {
        Val::Int { bits, .. } => *bits == 0,
        _ => false,
    }
}

fn is_ones_value(v: &Val) -> bool
    requires { FitsTerm (datum_of v.now) }
    ensures { result ≡ table.is_ones_value (datum_of v.now) }
{
    match v {
        Val::Int { width, bits } => *bits == ones(*width),
        _ => false,
    }
}

fn is_bit_value(v: &Val, bit: u128) -> bool
    ensures { result ≡ table.is_bit_value bit (datum_of v.now) }
{
    match v {
        Val::Int { width, bits } => *width == 1 && *bits == bit,
        _ => false,
    }
}

/// The integer of this width whose bits are all 1.
#[tactic(auto, unfolding(lh_types::specs::ApplyInt::integer_row))]
pub(crate) fn ones(width: u32) -> u128
    requires { (1 ≤ width) × (width ≤ 128) }
    ensures { result ≡ 2 ^ width - 1 }
{
    apply_int(&Op::Not, width, 0, 0)
}

/// The operand of `not`.
fn not_operand(op: &Op, args: &[TermId]) -> Option<TermId>
    ensures { result ≡ find.not_operand op.now args.now }
{
    match (op, args) {
        (Op::Not, [x]) => Some(*x),
        _ => None,
    }
}

/// The operands of `and`.
pub(crate) fn and_operands(op: &Op, args: &[TermId]) -> Option<(TermId, TermId)>
    ensures { result ≡ find.and_operands op.now args.now }
{
    match (op, args) {
        (Op::And, [q, a]) => Some((*q, *a)),
        _ => None,
    }
}
