//! Lists that are mostly short.
ghost use Rattle.std.specs.Prelude.{◌≡◌, ◌∷◌, []};
ghost use Rattle.lh_types.specs.Few.{few_items};

use crate::list::ListOf;
use std::alloc::Global;
use std::marker::Model;

/// A list that holds one or two items in place, without memory of its own. Contracts see it as the list of its items.
#[derive(Drop)]
pub struct FewOf<T> {
    alloc: Global,
    items: Few<T>,
}

/// The items of a list that is mostly short, as they are held.
#[derive(Drop)]
pub enum Few<T> {
    /// One item, in place.
    One([T; 1]),
    /// Two items, in place.
    Two([T; 2]),
    /// Any items, mostly none or many.
    Other(ListOf<T>),
}

impl<T> Model for FewOf<T> {
    ghost use Rattle.std.specs.Prelude.{List};
    ghost use Rattle.lh_types.specs.Few.{few_items};

    ghost Value = { List T };

    ghost view = { λ a. few_items a.items };
}

impl<T> FewOf<T> {
    /// The items in order.
    pub fn as_slice(&self) -> &[T]
        ensures { result.now ≡ self.now }
    {
        match &self.items {
            Few::One(items) => items,
            Few::Two(items) => items,
            Few::Other(items) => items.as_slice(),
        }
    }

    /// The allocator that the list was made with.
    pub fn allocator(&self) -> Global {
        self.alloc
    }

    /// The items as they are held, without memory.
    pub fn into_items(self) -> Few<T>
        ensures { few_items result ≡ self }
    {
        self.items
    }

    /// The list of one item.
    pub fn one(alloc: Global, item: T) -> FewOf<T>
        ensures { result ≡ item ∷ [] }
    {
        let items = Few::One([item]);
        FewOf { alloc, items }
    }

    /// The list of two items.
    pub fn two(alloc: Global, first: T, second: T) -> FewOf<T>
        ensures { result ≡ first ∷ second ∷ [] }
    {
        let items = Few::Two([first, second]);
        FewOf { alloc, items }
    }
}

impl<T: Drop> FewOf<T> {
    /// The list of these items, without memory; what memory they had is given back where they are one or two.
    pub fn from_list(list: ListOf<T>) -> FewOf<T>
        ensures { result ≡ list }
    {
        let alloc = list.allocator();
        let mut items = list.into_vec();
        let items = match items.len() {
            1 => match items.pop() {
                Some(one) => Few::One([one]),
                None => unreachable!(),
            },
            2 => match (items.pop(), items.pop()) {
                (Some(second), Some(first)) => Few::Two([first, second]),
                _ => unreachable!(),
            },
            _ => Few::Other(ListOf::from_vec(items)),
        };
        FewOf { alloc, items }
    }
}
