//! An operation as the line of an entity says it.
ghost use Rattle.std.specs.Prelude.{◌≡◌, [], ◌∷◌, None, map, if◌then◌else◌, IfOk};
ghost use Rattle.lh_types.specs.ValueOf.{datum_of};
ghost use Rattle.lh_term.specs.Tree.{tree_row};
ghost use Rattle.lh_term.specs.Types.{TakesTypes, type_of, types_of};
ghost use Rattle.lh_term.specs.Arena.{trees, tree_at, trees_at, IsIn, AreIn, StandsForTree, Grows};
ghost use Rattle.lh_edge.specs.Atoms as atoms;
ghost use Rattle.lh_cert_terms.specs.Rebuilding as spec;
ghost use Rattle.lh_cert_terms.specs.Made.{FindsTwo, BothFit, array_operands, two_in, elements_in, data_of, constants_of};

use lh_edge::atoms::is_one_bit;
use lh_term::term::{Term, TermId};
use lh_term::terms::Terms;
use lh_types::memory::NoMemory;
use lh_types::op::Op;
use lh_types::val::Val;

/// An operation on terms that its row takes: a `mux` by one bit of an array whose two elements are known is a choice between these, and
/// any other operation is as it is made.
///
/// Where memory runs out, the terms made before keep their ids.
pub fn read_operation(terms: &mut Terms, op: &Op, args: &[TermId]) -> Result<TermId, NoMemory>
    requires within { AreIn terms.old args.now }
    requires fits { TakesTypes op.now (types_of (tree_row (trees_at terms.old args.now))) }
    ensures made { IfOk result (λ t. StandsForTree terms.new t (spec.read_operation op.now (trees_at terms.old args.now))) }
    ensures kept { Grows terms.old terms.new }
{
    match (op, args) {
        (Op::Mux, [x, s]) => selected(terms, *x, *s),
        _ => terms.op(op, args),
    }
}

/// What a `mux` gives.
fn selected(terms: &mut Terms, x: TermId, s: TermId) -> Result<TermId, NoMemory>
    requires x_in { IsIn terms.old x }
    requires s_in { IsIn terms.old s }
    requires fits { TakesTypes Op.Mux (type_of (tree_at (trees terms.old) x) ∷ type_of (tree_at (trees terms.old) s) ∷ []) }
    ensures made { IfOk result (λ t. StandsForTree terms.new t (spec.selected (tree_at (trees terms.old) x) (tree_at (trees terms.old) s) (if atoms.is_one_bit (tree_at (trees terms.old) s) then spec.pair_in (tree_at (trees terms.old) x) else None))) }
    ensures kept { Grows terms.old terms.new }
{
    if !is_one_bit(terms, s) {
        return terms.op(&Op::Mux, &[x, s]);
    }
    let _array = terms.view(x);
    let _selector = terms.view(s);
    match pair_in(terms, x)? {
        Some((f, t)) => terms.choice(s, f, t),
        None => terms.op(&Op::Mux, &[x, s]),
    }
}

/// The two elements of an array that is known: those of a constant of two, or the operands of the array operation on two.
fn pair_in(terms: &mut Terms, x: TermId) -> Result<Option<(TermId, TermId)>, NoMemory>
    requires { IsIn terms.old x }
    ensures found { IfOk result (λ p. FindsTwo terms.new p (spec.pair_in (tree_at (trees terms.old) x))) }
    ensures kept { Grows terms.old terms.new }
{
    match terms.view(x) {
        Term::Op { op, args } => Ok(operands(op, args.as_slice())),
        Term::Konst(v) => {
            let two = elements(v)?;
            constants(terms, two)
        }
        Term::Past(_) | Term::Now(_) | Term::Choice { .. } => Ok(None),
    }
}

/// The operands of the array operation, if they are two.
fn operands(op: &Op, args: &[TermId]) -> Option<(TermId, TermId)>
    ensures { result ≡ array_operands op.now args.now }
{
    match (op, args) {
        (Op::Array, [f, t]) => Some((*f, *t)),
        _ => None,
    }
}

/// The elements of an array, if they are two.
fn elements(v: &Val) -> Result<Option<(Val, Val)>, NoMemory>
    ensures { IfOk result (λ two. data_of two ≡ elements_in (datum_of v.now)) }
{
    match v {
        Val::Array(values) => two_of(values.as_slice()),
        _ => Ok(None),
    }
}

/// The values of a list, if they are two.
fn two_of(values: &[Val]) -> Result<Option<(Val, Val)>, NoMemory>
    ensures { IfOk result (λ two. data_of two ≡ two_in (map datum_of values.now)) }
{
    match values {
        [f, t] => {
            let f = f.copy()?;
            let t = t.copy()?;
            Ok(Some((f, t)))
        }
        _ => Ok(None),
    }
}

/// The constants of two values, if there are two.
fn constants(
    terms: &mut Terms,
    two: Option<(Val, Val)>,
) -> Result<Option<(TermId, TermId)>, NoMemory>
    requires { BothFit (data_of two) }
    ensures found { IfOk result (λ p. FindsTwo terms.new p (constants_of (data_of two))) }
    ensures kept { Grows terms.old terms.new }
{
    match two {
        Some((f, t)) => {
            let f = terms.konst(f)?;
            let t = terms.konst(t)?;
            Ok(Some((f, t)))
        }
        None => Ok(None),
    }
}
