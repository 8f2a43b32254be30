//! A list of rising numbers.
ghost use Rattle.std.specs.Prelude.{◌≡◌, ◌<◌, ◌≤◌, ◌-◌, [], false, true, length, get_or, vec_len, IfOk, OnOk, OnErr, IsTrue, ◌↔◌};
ghost use Rattle.std.specs.List.{insert};
ghost use Rattle.lh_kernel_wakes.specs.Rising.{IsOneOf, IsRising, HasOneMore, HasOneLess};

use lh_types::memory::NoMemory;
use std::alloc::Global;
use std::marker::Model;

/// The first number makes room for this many, so that a short list takes memory once.
const ROOM: usize = 16;

/// Numbers, each less than those after it. Contracts see the list of them.
#[derive(Drop)]
pub struct Rising {
    numbers: Vec<u32>,
}

impl Model for Rising {
    ghost use Rattle.std.specs.Prelude.{ℕ, List};
    ghost use Rattle.lh_kernel_wakes.specs.Rising.{IsRising};

    ghost Value = { List ℕ };

    ghost view = { λ r. r.numbers.items };

    ghost invariant = { λ r. IsRising r.numbers.items };
}

impl Rising {
    /// No numbers; this takes no memory yet.
    pub fn new(alloc: Global) -> Rising
        ensures { result ≡ [] }
    {
        Rising {
            numbers: Vec::new(alloc),
        }
    }

    /// The numbers, rising.
    pub fn as_slice(&self) -> &[u32]
        ensures same { result.now ≡ self.now }
        ensures rising { IsRising self.now }
    {
        self.numbers.as_slice()
    }

    /// Whether a number is there.
    pub fn has(&self, n: u32) -> bool
        ensures { (result ≡ true) ↔ IsOneOf n self.now }
    {
        // Most numbers come in order.
        if is_above(self.numbers.as_slice(), n) {
            return false;
        }
        match self.numbers.binary_search(&n) {
            Ok(_) => true,
            Err(_) => false,
        }
    }

    /// Adds a number, unless it is there; answers whether it was added. After `NoMemory` the list is as it was.
    #[inline]
    pub fn enter(&mut self, n: u32) -> Result<bool, NoMemory>
        ensures has { IfOk result (λ added. HasOneMore self.old n self.new) }
        ensures there { IfOk result (λ added. (added ≡ false) ↔ IsOneOf n self.old) }
        ensures err { OnErr result (self.new ≡ self.old) }
    {
        // Most numbers come in order.
        if comes_last(self.numbers.as_slice(), self.numbers.capacity(), n) {
            self.numbers.push_reserved(n);
            return Ok(true);
        }
        self.enter_in_place(n)
    }

    /// Enters a number wherever it comes among the others.
    #[inline(never)]
    fn enter_in_place(&mut self, n: u32) -> Result<bool, NoMemory>
        ensures has { IfOk result (λ added. HasOneMore self.old n self.new) }
        ensures there { IfOk result (λ added. (added ≡ false) ↔ IsOneOf n self.old) }
        ensures err { OnErr result (self.new ≡ self.old) }
    {
        match self.numbers.binary_search(&n) {
            Ok(_) => Ok(false),
            Err(place) => {
                begin_with_room(&mut self.numbers)?;
                put_in(&mut self.numbers, place, n)?;
                Ok(true)
            }
        }
    }

    /// Takes a number out, if it is there. It takes no memory.
    pub fn leave(&mut self, n: u32)
        ensures { HasOneLess self.old n self.new }
    {
        if let Ok(place) = self.numbers.binary_search(&n) {
            self.numbers.remove(place);
        }
    }
}

/// Puts a number in at a place; at the end no other one is moved. After `NoMemory` the numbers are as they were.
fn put_in(numbers: &mut Vec<u32>, place: usize, n: u32) -> Result<(), NoMemory>
    requires { place ≤ vec_len numbers.old }
    ensures items { OnOk result (numbers.new.items ≡ insert numbers.old.items place n) }
    ensures err { OnErr result (numbers.new.items ≡ numbers.old.items) }
{
    if place == numbers.len() {
        numbers.push(n)?;
    } else {
        numbers.insert(place, n)?;
    }
    Ok(())
}

/// Makes room in an empty list.
fn begin_with_room(numbers: &mut Vec<u32>) -> Result<(), NoMemory>
    ensures { numbers.new.items ≡ numbers.old.items }
{
    if numbers.is_empty() {
        numbers.reserve(ROOM)?;
    }
    Ok(())
}

/// Whether a number is greater than the last one, where there is room for it.
fn comes_last(numbers: &[u32], room: usize, n: u32) -> bool
    ensures some { IsTrue result → 0 < length numbers.now }
    ensures last { IsTrue result → get_or numbers.now (length numbers.now - 1) 0 < n }
    ensures room { IsTrue result → length numbers.now < room }
{
    numbers.len() < room && is_above(numbers, n)
}

/// Whether there is a last number, and a number is greater.
fn is_above(numbers: &[u32], n: u32) -> bool
    ensures some { IsTrue result → 0 < length numbers.now }
    ensures last { IsTrue result → get_or numbers.now (length numbers.now - 1) 0 < n }
{
    let len = numbers.len();
    len > 0 && numbers[len - 1] < n
}
