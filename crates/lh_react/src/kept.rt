//! Lists that are kept between runs.
ghost use Rattle.std.specs.Prelude.{◌≡◌, IfOk};

use lh_types::list::ListOf;
use lh_types::memory::NoMemory;
use std::alloc::Global;
use std::marker::Model;
use std::rc::Rc;

/// A list that is kept between runs, by several owners. Contracts see the list.
#[derive(Drop)]
pub(crate) struct Kept<T: Drop> {
    items: Rc<ListOf<T>>,
}

impl<T: Drop> Model for Kept<T> {
    ghost use Rattle.std.specs.Prelude.{List};
    ghost use Rattle.std.specs.Rc.{rc_value};

    ghost Value = { List T };

    ghost view = { λ k. rc_value k.items };
}

impl<T: Drop> Kept<T> {
    /// These items, kept.
    pub fn new(alloc: Global, items: ListOf<T>) -> Result<Kept<T>, NoMemory>
        ensures { IfOk result (λ k. k ≡ items) }
    {
        let items = Rc::new(alloc, items)?;
        Ok(Kept { items })
    }

    /// The items, shared with one owner more.
    pub fn share(&self) -> Result<Kept<T>, NoMemory>
        ensures { IfOk result (λ k. k ≡ self.now) }
    {
        let items = self.items.clone()?;
        Ok(Kept { items })
    }

    /// The items.
    pub fn list(&self) -> &ListOf<T>
        ensures { result.now ≡ self.now }
    {
        &self.items
    }
}
