//! The arena of terms.
ghost use Rattle.std.specs.Prelude.{◌≡◌, [], true, Some, length, slice_get, IfOk};
ghost use Rattle.lh_term.specs.Tree.{tree_row};
ghost use Rattle.lh_term.specs.Types.{IsTyped, AreTyped, type_of};
ghost use Rattle.lh_term.specs.SameTree.{same_tree};
ghost use Rattle.lh_term.specs.Arena.{trees, tree_at, trees_at, terms_in, term_tree, term_below, IsTypedNode, IsIn, AreIn, OneId, AllTyped, StandsForTree, Grows};

use crate::term::{Term, TermId, TermNode};
use indexmap::IndexSet;
use lh_types::memory::NoMemory;
use lh_types::ty::Ty;
use std::alloc::Global;
use std::marker::Model;

/// An arena of terms, in which equal terms have one id.
#[derive(Drop)]
pub struct Terms {
    nodes: IndexSet<TermNode>,
}

impl Model for Terms {
    ghost use Rattle.std.specs.Prelude.{List};
    ghost use Rattle.std.specs.Coded.{codes};
    ghost use Rattle.lh_types.specs.Types.{type_coded};
    ghost use Rattle.lh_types.specs.Values.{datum_coded};
    ghost use Rattle.lh_term.specs.declared.term.TermNode.{TermNode};

    ghost Value = { List TermNode };

    ghost coded = { Prim.hlevel (codes, type_coded, datum_coded) };

    ghost use Rattle.lh_term.specs.Arena.{IsArena};

    ghost view = { λ a. a.nodes.keys };

    ghost invariant = { λ a. IsArena a.nodes.keys };
}

impl Terms {
    /// An arena without terms, which takes no memory yet.
    pub fn new(alloc: Global) -> Terms
        ensures { result ≡ [] }
    {
        Terms {
            nodes: IndexSet::new(alloc),
        }
    }

    /// How many terms there are; their ids are the numbers below.
    pub fn len(&self) -> usize
        ensures { result ≡ length self.now }
    {
        self.nodes.len()
    }

    /// The term of an id, by the ids of its operands, which are lower.
    pub fn view(&self, t: TermId) -> &Term
        requires { IsIn self.now t }
        ensures term { slice_get (terms_in self.now) t.0 ≡ Some result.now }
        ensures shown { term_tree (trees self.now) result.now ≡ tree_at (trees self.now) t }
        ensures below { term_below t.0 result.now ≡ true }
        ensures typed { IsTyped (tree_at (trees self.now) t) }
    {
        &self.node(t).term
    }

    /// The type of a term.
    pub fn ty(&self, t: TermId) -> &Ty
        requires { IsIn self.now t }
        ensures { result.now ≡ type_of (tree_at (trees self.now) t) }
    {
        &self.node(t).ty
    }

    fn node(&self, t: TermId) -> &TermNode
        requires { IsIn self.now t }
        ensures term { slice_get (terms_in self.now) t.0 ≡ Some result.now.term }
        ensures shown { term_tree (trees self.now) result.now.term ≡ tree_at (trees self.now) t }
        ensures below { term_below t.0 result.now.term ≡ true }
        ensures typed { IsTyped (tree_at (trees self.now) t) }
        ensures ty { result.now.ty ≡ type_of (tree_at (trees self.now) t) }
    {
        match self.nodes.get_index(t.0) {
            Some(node) => node,
            None => unreachable!(),
        }
    }

    /// Whether two terms are equal: equal terms have one id.
    pub fn same(&self, x: TermId, y: TermId) -> bool
        requires x_in { IsIn self.now x }
        requires y_in { IsIn self.now y }
        ensures { result ≡ same_tree (tree_at (trees self.now) x) (tree_at (trees self.now) y) }
    {
        let _ = &self.nodes;
        x.0 == y.0
    }

    /// Terms of the arena are typed; it does nothing.
    pub(crate) fn are_typed(&self, xs: &[TermId])
        requires { AreIn self.now xs.now }
        ensures { AreTyped (tree_row (trees_at self.now xs.now)) }
    {
        let _ = &self.nodes;
        let _ = xs;
    }

    /// No two ids of the arena stand for one term; it does nothing.
    pub fn are_apart(&self)
        ensures { OneId self.now }
    {
        let _ = &self.nodes;
    }

    /// Every term of the arena is typed; it does nothing.
    pub(crate) fn are_all_typed(&self)
        ensures { AllTyped self.now }
    {
        let _ = &self.nodes;
    }

    pub(crate) fn allocator(&self) -> Global {
        *self.nodes.allocator()
    }

    /// The id of a term, which is added if it is not there.
    pub(crate) fn intern(&mut self, node: TermNode) -> Result<TermId, NoMemory>
        requires below { term_below (length self.old) node.term ≡ true }
        requires typed { IsTypedNode (trees self.old) node }
        ensures made { IfOk result (λ t. StandsForTree self.new t (term_tree (trees self.old) node.term)) }
        ensures kept { Grows self.old self.new }
    {
        let (i, _) = self.nodes.insert_full(node)?;
        Ok(TermId(i))
    }
}
