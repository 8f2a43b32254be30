//! The values of the terms that were emitted.
ghost use Rattle.std.specs.Prelude.{◌≡◌, ◌<◌, ◌++◌, ℕ, None, [], ◌∷◌, length, slice_index_or, IfOk, OnOk};
ghost use Rattle.lh_term.specs.declared.term.TermId.{TermId as Id};
ghost use Rattle.lh_emit.specs.Values.{value_in, KeepsOtherValues};

use lh_term::term::TermId;
use lh_types::memory::NoMemory;
use lh_unit::inst::ValueId;
use std::alloc::Global;

/// The values by the ids of their terms.
#[derive(Drop)]
pub struct Values {
    items: Vec<Option<ValueId>>,
}

impl Values {
    /// No term has a value.
    pub fn new(alloc: Global) -> Values
        ensures { (x : Id) → value_in result x ≡ None }
    {
        Values {
            items: Vec::new(alloc),
        }
    }

    /// The value of a term, where it has one.
    #[tactic(auto, using(std::proofs::lemmas::List::get_or_past))]
    pub fn get(&self, term: TermId) -> Option<ValueId>
        ensures { result ≡ value_in self.now term }
    {
        if term.0 < self.items.len() {
            self.items[term.0]
        } else {
            None
        }
    }

    /// Keeps the value of a term.
    pub fn keep(&mut self, term: TermId, value: ValueId) -> Result<(), NoMemory>
        ensures { OnOk result (KeepsOtherValues self.old term value self.new) }
    {
        make_room(&mut self.items, term.0)?;
        self.items[term.0] = Some(value);
        Ok(())
    }
}

/// Adds places without a value until there is one of this number.
fn make_room(items: &mut Vec<Option<ValueId>>, place: usize) -> Result<(), NoMemory>
    ensures long { OnOk result (place < length items.new.items) }
    ensures same { OnOk result ((x : ℕ) → slice_index_or items.new.items x None ≡ slice_index_or items.old.items x None) }
{
    while items.len() <= place {
        push_none(items)?;
    }
    Ok(())
}

fn push_none(items: &mut Vec<Option<ValueId>>) -> Result<(), NoMemory>
    ensures { IfOk result (λ _. items.new.items ≡ items.old.items ++ None ∷ []) }
{
    items.push(None)?;
    Ok(())
}
