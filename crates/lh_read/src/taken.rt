//! Lists that are taken item by item.
ghost use Rattle.std.specs.Prelude.{◌≡◌};

use lh_types::list::ListOf;
use std::marker::Model;

/// After so many items the room of those that were taken is given back.
const ITEMS_AT_ONCE: usize = 65_536;

/// The items of a list, from the front. A long line and what is made of it are never both held in full.
#[derive(Drop)]
pub(crate) struct Taken<T> {
    // The next item is the last of these.
    rest: Vec<T>,
}

impl<T> Model for Taken<T> {
    ghost use Rattle.std.specs.Prelude.{List, reverse};

    ghost Value = { List T };

    ghost view = { λ t. reverse t.rest.items };
}

impl<T> Taken<T> {
    /// The items of this list.
    pub fn new(list: ListOf<T>) -> Taken<T>
        ensures { result ≡ list }
    {
        let mut rest = list.into_vec();
        rest.reverse();
        Taken { rest }
    }
}

impl<T: Drop> Iterator for Taken<T> {
    ghost use Rattle.std.specs.Prelude.{List};
    ghost use Rattle.std.specs.Iterator.{YieldsFirst, item_count};

    type Item = T;

    ghost next_gives = { YieldsFirst (λ (xs : List T). xs) };

    ghost remaining = { item_count (λ (xs : List T). xs) };

    fn next(&mut self) -> Option<T> {
        let item = self.rest.pop();
        if self.rest.len() % ITEMS_AT_ONCE == 0 {
            self.rest.shrink_to_fit();
        }
        item
    }
}
