//! Making terms: the first equation that matches gives the term.
ghost use Rattle.std.specs.Prelude.{◌∷◌, [], IfOk};
ghost use Rattle.lh_types.specs.Types.{IsData};
ghost use Rattle.lh_types.specs.ValueOf.{datum_of};
ghost use Rattle.lh_term.specs.Tree.{constant, past_of, now_of, tree_row};
ghost use Rattle.lh_term.specs.Types.{FitsTerm, TakesTypes, Chooses, type_of, types_of};
ghost use Rattle.lh_term.specs.Make as table;
ghost use Rattle.lh_term.specs.Arena.{trees, tree_at, trees_at, IsIn, AreIn, StandsForTree, Grows};

use crate::part::Part;
use crate::term::{Term, TermId, TermNode};
use crate::terms::Terms;
use crate::types::value_type;
use lh_types::memory::NoMemory;
use lh_types::op::Op;
use lh_types::val::Val;

impl Terms {
    /// The constant of a value of a data type, or of a time.
    ///
    /// When memory runs out, here and in the calls below, the terms made before keep their ids.
    pub fn konst(&mut self, v: Val) -> Result<TermId, NoMemory>
        requires { FitsTerm (datum_of v) }
        ensures made { IfOk result (λ t. StandsForTree self.new t (constant (datum_of v))) }
        ensures kept { Grows self.old self.new }
    {
        let Ok(ty) = value_type(self.allocator(), &v) else {
            return Err(NoMemory);
        };
        self.intern(TermNode {
            term: Term::Konst(v),
            ty,
        })
    }

    /// The value of a part at an earlier activation; the part is of a data type.
    pub fn past(&mut self, p: &Part) -> Result<TermId, NoMemory>
        requires { IsData p.now.ty }
        ensures made { IfOk result (λ t. StandsForTree self.new t (past_of p.now)) }
        ensures kept { Grows self.old self.new }
    {
        let ty = p.ty.copy()?;
        let p = p.copy()?;
        self.intern(TermNode {
            term: Term::Past(p),
            ty,
        })
    }

    /// The value of a part now; the part is of a data type.
    pub fn now(&mut self, p: &Part) -> Result<TermId, NoMemory>
        requires { IsData p.now.ty }
        ensures made { IfOk result (λ t. StandsForTree self.new t (now_of p.now)) }
        ensures kept { Grows self.old self.new }
    {
        let ty = p.ty.copy()?;
        let p = p.copy()?;
        self.intern(TermNode {
            term: Term::Now(p),
            ty,
        })
    }

    /// An operation on terms that its row takes: where all are constant, the constant that it gives; else the first equation of
    /// the operation that matches; else the operation itself.
    pub fn op(&mut self, op: &Op, args: &[TermId]) -> Result<TermId, NoMemory>
        requires within { AreIn self.old args.now }
        requires fits { TakesTypes op.now (types_of (tree_row (trees_at self.old args.now))) }
        ensures made { IfOk result (λ t. StandsForTree self.new t (table.make_operation op.now (trees_at self.old args.now))) }
        ensures kept { Grows self.old self.new }
    {
        if self.are_constant(args) {
            return self.folded(op, args);
        }
        match args {
            [x] => self.unary(op, *x),
            [x, y] => self.binary(op, *x, *y),
            _ => self.plain(op, args),
        }
    }

    /// `f` where the condition `c` of one bit is 0, and `t` of the same type where it is 1: the first equation that matches, else
    /// the choice itself.
    pub fn choice(&mut self, c: TermId, f: TermId, t: TermId) -> Result<TermId, NoMemory>
        requires c_in { IsIn self.old c }
        requires f_in { IsIn self.old f }
        requires t_in { IsIn self.old t }
        requires fits { Chooses (type_of (tree_at (trees self.old) c)) (type_of (tree_at (trees self.old) f)) (type_of (tree_at (trees self.old) t)) }
        ensures made { IfOk result (λ x. StandsForTree self.new x (table.make_choice (tree_at (trees self.old) c) (tree_at (trees self.old) f) (tree_at (trees self.old) t))) }
        ensures kept { Grows self.old self.new }
    {
        if self.is_bit(c, 0) {
            return Ok(f);
        }
        if self.is_bit(c, 1) {
            return Ok(t);
        }
        if self.same(f, t) {
            return Ok(f);
        }
        if self.is_bit(f, 0) && self.is_bit(t, 1) {
            return Ok(c);
        }
        if self.is_bit(f, 1) && self.is_bit(t, 0) {
            return self.negation(c);
        }
        self.are_typed(&[c, f, t]);
        let ty = self.ty(f).copy()?;
        self.intern(TermNode {
            term: Term::Choice { c, f, t },
            ty,
        })
    }
}

impl Terms {
    /// An operation on one term that is not constant.
    fn unary(&mut self, op: &Op, x: TermId) -> Result<TermId, NoMemory>
        requires is_in { IsIn self.old x }
        requires fits { TakesTypes op.now (type_of (tree_at (trees self.old) x) ∷ []) }
        ensures made { IfOk result (λ t. StandsForTree self.new t (table.rows_of op.now (tree_at (trees self.old) x ∷ []))) }
        ensures kept { Grows self.old self.new }
    {
        match op {
            Op::Not => self.not_term(x),
            _ => self.plain(op, &[x]),
        }
    }

    /// An operation on two terms that are not both constant.
    fn binary(&mut self, op: &Op, x: TermId, y: TermId) -> Result<TermId, NoMemory>
        requires x_in { IsIn self.old x }
        requires y_in { IsIn self.old y }
        requires fits { TakesTypes op.now (type_of (tree_at (trees self.old) x) ∷ type_of (tree_at (trees self.old) y) ∷ []) }
        ensures made { IfOk result (λ t. StandsForTree self.new t (table.rows_of op.now (tree_at (trees self.old) x ∷ tree_at (trees self.old) y ∷ []))) }
        ensures kept { Grows self.old self.new }
    {
        match op {
            Op::And => self.and_terms(x, y),
            Op::Or => self.or_terms(x, y),
            Op::Eq => self.eq_terms(x, y),
            Op::Neq => self.neq_terms(x, y),
            _ => self.plain(op, &[x, y]),
        }
    }

    /// `not x`, by its constructor.
    fn negation(&mut self, x: TermId) -> Result<TermId, NoMemory>
        requires is_in { IsIn self.old x }
        requires fits { TakesTypes Op.Not (type_of (tree_at (trees self.old) x) ∷ []) }
        ensures made { IfOk result (λ t. StandsForTree self.new t (table.make_not (tree_at (trees self.old) x))) }
        ensures kept { Grows self.old self.new }
    {
        if self.is_constant(x) {
            return self.folded(&Op::Not, &[x]);
        }
        self.not_term(x)
    }

    fn not_term(&mut self, x: TermId) -> Result<TermId, NoMemory>
        requires is_in { IsIn self.old x }
        requires fits { TakesTypes Op.Not (type_of (tree_at (trees self.old) x) ∷ []) }
        ensures made { IfOk result (λ t. StandsForTree self.new t (table.not_rows (tree_at (trees self.old) x))) }
        ensures kept { Grows self.old self.new }
    {
        match self.negated(x) {
            Some(y) => Ok(y),
            None => self.plain(&Op::Not, &[x]),
        }
    }

    fn and_terms(&mut self, x: TermId, y: TermId) -> Result<TermId, NoMemory>
        requires x_in { IsIn self.old x }
        requires y_in { IsIn self.old y }
        requires fits { TakesTypes Op.And (type_of (tree_at (trees self.old) x) ∷ type_of (tree_at (trees self.old) y) ∷ []) }
        ensures made { IfOk result (λ t. StandsForTree self.new t (table.and_rows (tree_at (trees self.old) x) (tree_at (trees self.old) y))) }
        ensures kept { Grows self.old self.new }
    {
        if self.is_zero(y) {
            return Ok(y);
        }
        if self.is_zero(x) {
            return Ok(x);
        }
        if self.is_ones(y) {
            return Ok(x);
        }
        if self.is_ones(x) {
            return Ok(y);
        }
        if self.same(x, y) {
            return Ok(x);
        }
        if self.is_not_of(y, x) {
            return self.zero_like(x);
        }
        if self.is_not_of(x, y) {
            return self.zero_like(x);
        }
        self.plain(&Op::And, &[x, y])
    }

    fn or_terms(&mut self, x: TermId, y: TermId) -> Result<TermId, NoMemory>
        requires x_in { IsIn self.old x }
        requires y_in { IsIn self.old y }
        requires fits { TakesTypes Op.Or (type_of (tree_at (trees self.old) x) ∷ type_of (tree_at (trees self.old) y) ∷ []) }
        ensures made { IfOk result (λ t. StandsForTree self.new t (table.or_rows (tree_at (trees self.old) x) (tree_at (trees self.old) y))) }
        ensures kept { Grows self.old self.new }
    {
        if self.is_zero(y) {
            return Ok(x);
        }
        if self.is_zero(x) {
            return Ok(y);
        }
        if self.is_ones(y) {
            return Ok(y);
        }
        if self.is_ones(x) {
            return Ok(x);
        }
        if self.same(x, y) {
            return Ok(x);
        }
        if self.is_not_of(y, x) {
            return self.ones_like(x);
        }
        if self.is_not_of(x, y) {
            return self.ones_like(x);
        }
        match self.halves(x, y) {
            Some(q) => Ok(q),
            None => self.plain(&Op::Or, &[x, y]),
        }
    }

    fn eq_terms(&mut self, x: TermId, y: TermId) -> Result<TermId, NoMemory>
        requires x_in { IsIn self.old x }
        requires y_in { IsIn self.old y }
        requires fits { TakesTypes Op.Eq (type_of (tree_at (trees self.old) x) ∷ type_of (tree_at (trees self.old) y) ∷ []) }
        ensures made { IfOk result (λ t. StandsForTree self.new t (table.eq_rows (tree_at (trees self.old) x) (tree_at (trees self.old) y))) }
        ensures kept { Grows self.old self.new }
    {
        if self.same(x, y) {
            return self.bit(true);
        }
        if self.is_bit(y, 1) {
            return Ok(x);
        }
        if self.is_bit(x, 1) {
            return Ok(y);
        }
        if self.is_bit(y, 0) {
            return self.negation(x);
        }
        if self.is_bit(x, 0) {
            return self.negation(y);
        }
        self.plain(&Op::Eq, &[x, y])
    }

    fn neq_terms(&mut self, x: TermId, y: TermId) -> Result<TermId, NoMemory>
        requires x_in { IsIn self.old x }
        requires y_in { IsIn self.old y }
        requires fits { TakesTypes Op.Neq (type_of (tree_at (trees self.old) x) ∷ type_of (tree_at (trees self.old) y) ∷ []) }
        ensures made { IfOk result (λ t. StandsForTree self.new t (table.neq_rows (tree_at (trees self.old) x) (tree_at (trees self.old) y))) }
        ensures kept { Grows self.old self.new }
    {
        if self.same(x, y) {
            return self.bit(false);
        }
        if self.is_bit(y, 0) {
            return Ok(x);
        }
        if self.is_bit(x, 0) {
            return Ok(y);
        }
        if self.is_bit(y, 1) {
            return self.negation(x);
        }
        if self.is_bit(x, 1) {
            return self.negation(y);
        }
        self.plain(&Op::Neq, &[x, y])
    }
}
