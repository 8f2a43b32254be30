//! Terms by the ids of their operands.
ghost use Rattle.std.specs.Prelude.{◌≡◌, [], ◌∷◌, ◌++◌, length, IfOk, OnOk, OnErr};
ghost use Rattle.lh_term.specs.SameTerm.{same_ids};
ghost use Rattle.lh_term.specs.Same as same;

use crate::part::Part;
use crate::salt::salt_of_value;
use lh_types::memory::NoMemory;
use lh_types::op::Op;
use lh_types::ty::Ty;
use lh_types::val::Val;
use smallvec::SmallVec;
use std::alloc::Global;
use std::hash::{Hash, Hasher};
use std::marker::Model;

/// A term of an arena, by its number there.
#[derive(Clone, Copy, Debug, Default, PartialEq, Eq, Hash)]
pub struct TermId(pub usize);

/// A list of terms of an arena; up to three need no memory of their own.
#[derive(Drop)]
pub struct TermList {
    items: SmallVec<TermId, 3>,
}

impl Model for TermList {
    ghost use Rattle.std.specs.Prelude.{List};
    ghost use Rattle.lh_term.specs.declared.term.TermId.{TermId};

    ghost Value = { List TermId };

    ghost view = { λ a. a.items.items };
}

impl TermList {
    /// An empty list, which takes no memory yet.
    pub fn new(alloc: Global) -> TermList
        ensures { result ≡ [] }
    {
        TermList {
            items: SmallVec::new(alloc),
        }
    }

    /// A list of these terms.
    pub fn from_slice(alloc: Global, items: &[TermId]) -> Result<TermList, NoMemory>
        ensures { IfOk result (λ a. a ≡ items.now) }
    {
        let items = SmallVec::from_slice(alloc, items)?;
        Ok(TermList { items })
    }

    /// Adds a term at the end; when memory runs out the list stays as it was.
    pub fn push(&mut self, t: TermId) -> Result<(), NoMemory>
        ensures ok { OnOk result (self.new ≡ self.old ++ t ∷ []) }
        ensures err { OnErr result (self.new ≡ self.old) }
    {
        self.items.push(t)?;
        Ok(())
    }

    /// How many terms there are.
    pub fn len(&self) -> usize
        ensures { result ≡ length self.now }
    {
        self.items.len()
    }

    /// The terms in order.
    pub fn as_slice(&self) -> &[TermId]
        ensures { result.now ≡ self.now }
    {
        self.items.as_slice()
    }
}

/// A term of an arena; its operands are named by their ids.
#[derive(Drop)]
pub enum Term {
    /// A constant.
    Konst(Val),
    /// The value of a part at an earlier activation.
    Past(Part),
    /// The value of a part now.
    Now(Part),
    /// An operation on terms.
    Op { op: Op, args: TermList },
    /// `f` where the condition `c` is 0, and `t` where it is 1.
    Choice { c: TermId, f: TermId, t: TermId },
}

/// A term with its type.
#[derive(Drop)]
pub struct TermNode {
    pub(crate) term: Term,
    pub(crate) ty: Ty,
}

impl PartialEq for TermNode {
    ghost use Rattle.std.specs.Cmp.{partial_equiv_from_equiv};
    ghost use Rattle.lh_term.specs.SameNode.{same_node, same_node_equiv};

    ghost eq = { same_node };

    ghost laws = { partial_equiv_from_equiv same_node_equiv };

    fn eq(&self, other: &TermNode) -> bool {
        self.term == other.term
    }
}

impl Eq for TermNode {
    ghost use Rattle.lh_term.specs.SameNode.{same_node_equiv};

    ghost laws = { same_node_equiv };
}

impl PartialEq for Term {
    ghost use Rattle.std.specs.Cmp.{partial_equiv_from_equiv};
    ghost use Rattle.lh_term.specs.SameTerm.{same_term, same_term_equiv};

    ghost eq = { same_term };

    ghost laws = { partial_equiv_from_equiv same_term_equiv };

    fn eq(&self, other: &Term) -> bool {
        match (self, other) {
            (Term::Konst(v), Term::Konst(w)) => *v == *w,
            (Term::Past(p), Term::Past(q)) => *p == *q,
            (Term::Now(p), Term::Now(q)) => *p == *q,
            (Term::Op { op, args }, Term::Op { op: o, args: a }) => are_one(op, o)
                && are_same(args.as_slice(), a.as_slice()),
            (Term::Choice { c, f, t }, Term::Choice { c: d, f: g, t: u }) => c.0 == d.0
                && f.0 == g.0
                && t.0 == u.0,
            _ => false,
        }
    }
}

/// Whether these are the same terms.
fn are_same(a: &[TermId], b: &[TermId]) -> bool
    ensures { result ≡ same_ids a.now b.now }
{
    a == b
}

impl Eq for Term {
    ghost use Rattle.lh_term.specs.SameTerm.{same_term_equiv};

    ghost laws = { same_term_equiv };
}

impl Hash for TermNode {
    ghost use Rattle.lh_term.specs.Fed.{fed_term, fed_alike};

    ghost hash_input = { λ n. fed_term n.term };

    ghost respects_eq = { fed_alike };

    fn hash<H: Hasher>(&self, state: &mut H) {
        match &self.term {
            Term::Konst(v) => salt_of_value(v).hash(state),
            Term::Past(p) => {
                p.arg.hash(state);
                p.lo.hash(state);
                p.extent().hash(state);
            }
            Term::Now(p) => {
                p.lo.hash(state);
                p.arg.hash(state);
                p.extent().hash(state);
            }
            Term::Op { op, args } => {
                op_tag(op).hash(state);
                op_first(op).hash(state);
                op_second(op).hash(state);
                args.as_slice().hash(state);
            }
            Term::Choice { c, f, t } => {
                c.hash(state);
                f.hash(state);
                t.hash(state);
            }
        }
    }
}

/// A number for each operation.
fn op_tag(op: &Op) -> u8
    ensures { result ≡ same.op_tag op.now }
{
    match op {
        Op::Not => 0,
        Op::Neg => 1,
        Op::Add => 2,
        Op::Sub => 3,
        Op::Umul => 4,
        Op::Smul => 5,
        Op::Udiv => 6,
        Op::Sdiv => 7,
        Op::Umod => 8,
        Op::Smod => 9,
        Op::Urem => 10,
        Op::Srem => 11,
        Op::And => 12,
        Op::Or => 13,
        Op::Xor => 14,
        Op::Eq => 15,
        Op::Neq => 16,
        Op::Slt => 17,
        Op::Sgt => 18,
        Op::Sle => 19,
        Op::Sge => 20,
        Op::Ult => 21,
        Op::Ugt => 22,
        Op::Ule => 23,
        Op::Uge => 24,
        Op::Shl => 25,
        Op::Shr => 26,
        Op::Mux => 27,
        Op::Array => 28,
        Op::Tuple => 29,
        Op::Extf(_) => 30,
        Op::Exts { .. } => 31,
        Op::Insf(_) => 32,
        Op::Inss { .. } => 33,
        Op::Repeat(_) => 34,
    }
}

/// The first number that an operation has, and 0 where it has none.
fn op_first(op: &Op) -> u32
    ensures { result ≡ same.op_first op.now }
{
    match op {
        Op::Extf(k) | Op::Insf(k) | Op::Repeat(k) => *k,
        Op::Exts { at, .. } | Op::Inss { at, .. } => *at,
        _ => 0,
    }
}

/// Its second number.
fn op_second(op: &Op) -> u32
    ensures { result ≡ same.op_second op.now }
{
    match op {
        Op::Exts { len, .. } | Op::Inss { len, .. } => *len,
        _ => 0,
    }
}

/// Whether these are one operation with the same numbers.
fn are_one(a: &Op, b: &Op) -> bool
    ensures { result ≡ same.same_op a.now b.now }
{
    op_tag(a) == op_tag(b) && op_first(a) == op_first(b) && op_second(a) == op_second(b)
}
