//! Lists that mostly have one item.
ghost use Rattle.std.specs.Prelude.{◌≡◌, ◌∷◌, ◌++◌, [], length, OnOk, OnErr, IfOk, IfErr};
ghost use Rattle.lh_bits.specs.MostlyOne.{items_in};

use lh_types::memory::NoMemory;
use std::alloc::Global;
use std::marker::Model;
use std::mem;

/// A list that holds one item in place, without memory of its own. Contracts see it as the list of its items.
#[derive(Drop)]
pub struct MostlyOne<T> {
    alloc: Global,
    items: Items<T>,
}

/// The items of a list that mostly has one, as they are held.
#[derive(Drop)]
pub enum Items<T> {
    /// No item.
    Empty,
    /// One item, in place.
    One([T; 1]),
    /// Any items, mostly more.
    Many(Vec<T>),
}

impl<T> Model for MostlyOne<T> {
    ghost use Rattle.std.specs.Prelude.{List};
    ghost use Rattle.lh_bits.specs.MostlyOne.{items_in};

    ghost Value = { List T };

    ghost view = { λ a. items_in a.items };
}

impl<T> MostlyOne<T> {
    /// An empty list.
    pub fn new(alloc: Global) -> MostlyOne<T>
        ensures { result ≡ [] }
    {
        let items = Items::Empty;
        MostlyOne { alloc, items }
    }

    /// The list of one item.
    pub fn one(alloc: Global, item: T) -> MostlyOne<T>
        ensures { result ≡ item ∷ [] }
    {
        let items = Items::One([item]);
        MostlyOne { alloc, items }
    }

    /// The list of these items, without memory.
    pub fn from_vec(items: Vec<T>) -> MostlyOne<T>
        ensures { result ≡ items.items }
    {
        let alloc = *items.allocator();
        let items = Items::Many(items);
        MostlyOne { alloc, items }
    }

    /// How many items there are.
    pub fn len(&self) -> usize
        ensures { result ≡ length self.now }
    {
        self.as_slice().len()
    }

    /// The items in order.
    pub fn as_slice(&self) -> &[T]
        ensures { result.now ≡ self.now }
    {
        match &self.items {
            Items::Empty => &[],
            Items::One(item) => item,
            Items::Many(items) => items.as_slice(),
        }
    }

    /// The items as they are held, without memory.
    pub fn into_items(self) -> Items<T>
        ensures { items_in result ≡ self }
    {
        self.items
    }

    /// The allocator that the list was made with.
    pub fn allocator(&self) -> Global {
        self.alloc
    }
}

impl<T: Drop> MostlyOne<T> {
    /// Adds an item at the end; when memory runs out the list stays as it was.
    pub fn push(&mut self, item: T) -> Result<(), NoMemory>
        ensures ok { OnOk result (self.new ≡ self.old ++ item ∷ []) }
        ensures err { OnErr result (self.new ≡ self.old) }
    {
        let alloc = self.alloc;
        let items = mem::replace(&mut self.items, Items::Empty);
        let (items, pushed) = with_one_more(alloc, items, item);
        self.items = items;
        pushed
    }
}

/// The items with one more at the end; when memory runs out the same as before.
fn with_one_more<T: Drop>(
    alloc: Global,
    items: Items<T>,
    item: T,
) -> (Items<T>, Result<(), NoMemory>)
    ensures ok { IfOk result.1 (λ _. items_in result.0 ≡ items_in items ++ item ∷ []) }
    ensures err { IfErr result.1 (λ _. items_in result.0 ≡ items_in items) }
{
    match items {
        Items::Empty => (Items::One([item]), Ok(())),
        Items::One([first]) => two(alloc, first, item),
        Items::Many(mut items) => match items.push(item) {
            Ok(()) => (Items::Many(items), Ok(())),
            Err(_) => (Items::Many(items), Err(NoMemory)),
        },
    }
}

/// Two items; when memory runs out the first.
fn two<T: Drop>(alloc: Global, first: T, second: T) -> (Items<T>, Result<(), NoMemory>)
    ensures ok { IfOk result.1 (λ _. items_in result.0 ≡ first ∷ second ∷ []) }
    ensures err { IfErr result.1 (λ _. items_in result.0 ≡ first ∷ []) }
{
    match Vec::with_capacity(alloc, 2) {
        Ok(mut items) => {
            items.push_reserved(first);
            items.push_reserved(second);
            (Items::Many(items), Ok(()))
        }
        Err(_) => (Items::One([first]), Err(NoMemory)),
    }
}
