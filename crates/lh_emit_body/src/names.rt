//! New names: `v0`, `v1` and so on, those of arguments passed over.
ghost use Rattle.std.specs.Prelude.{◌≡◌, ◌+◌, ◌<◌, ◌≤◌, ◌^◌, List, [], length, IfOk, OnOk};
ghost use Rattle.lh_unit.specs.Contents.{ArgText};
ghost use Rattle.lh_unit.specs.Lexemes.{begins};
ghost use Rattle.lh_emit_def.specs.Names.{value_name, free_from, free_number};
ghost use Rattle.lh_emit_body.specs.Fresh.{is_among, IsFresh, PassesOver};

use lh_types::memory::NoMemory;
use lh_types::text::{put, put_number};
use lh_unit_names::name::Name;
use std::alloc::Global;
use std::collections::HashSet;

/// The names that are left.
#[derive(Drop)]
pub struct Fresh {
    alloc: Global,
    /// How many arguments there are.
    count: usize,
    /// Those of their names that begin as a new one does, which may be all: each new name is looked up here.
    taken: HashSet<Name>,
    /// The number from which the next name is sought.
    next: u64,
}

impl Fresh {
    /// All names.
    pub fn new(alloc: Global) -> Fresh
        ensures fresh { IsFresh [] result }
        ensures next { result.next ≡ 0 }
    {
        Fresh {
            alloc,
            count: 0,
            taken: HashSet::new(alloc),
            next: 0,
        }
    }

    /// Passes over the name of an argument.
    pub fn pass_over(&mut self, name: &Name) -> Result<(), NoMemory>
        requires { self.old.count < 2 ^ 32 }
        ensures next { OnOk result (self.new.next ≡ self.old.next) }
        ensures count { OnOk result (self.new.count ≡ self.old.count + 1) }
        ensures passed { OnOk result (PassesOver name.now self.old self.new) }
    {
        self.count += 1;
        if begins_as_new(name) {
            self.taken.insert(name.copy()?)?;
        }
        Ok(())
    }

    /// How many arguments there are.
    pub fn count(&self) -> usize
        ensures { result ≡ self.now.count }
    {
        self.count
    }

    /// The next name.
    pub fn name(&mut self) -> Result<Name, NoMemory>
        requires { self.old.next + self.old.count < 2 ^ 63 }
        ensures name { IfOk result (λ n. (args : List ArgText) → IsFresh args self.old → n ≡ value_name (free_number args self.old.next)) }
        ensures next { OnOk result ((args : List ArgText) → IsFresh args self.old → self.new.next ≡ free_number args self.old.next + 1) }
        ensures fresh { OnOk result ((args : List ArgText) → IsFresh args self.old → IsFresh args self.new) }
        ensures count { OnOk result (self.new.count ≡ self.old.count) }
        ensures near { OnOk result (self.new.next ≤ self.old.next + self.old.count + 1) }
    {
        let mut number = self.next;
        let mut name = number_name(self.alloc, number)?;
        let mut tries = self.count;
        while tries > 0 && self.is_taken(&name) {
            tries -= 1;
            number += 1;
            name = number_name(self.alloc, number)?;
        }
        self.next = number + 1;
        Ok(name)
    }

    fn is_taken(&self, name: &Name) -> bool
        ensures { result ≡ is_among self.now.taken.keys name.now }
    {
        self.taken.contains(name)
    }
}

/// Whether a name begins as those of numbers do.
fn begins_as_new(name: &Name) -> bool
    ensures { result ≡ begins 118 name.now }
{
    name.as_bytes()[0] == b'v'
}

/// The name of a number.
fn number_name(alloc: Global, number: u64) -> Result<Name, NoMemory>
    ensures { IfOk result (λ n. n ≡ value_name number) }
{
    let mut bytes = Vec::new(alloc);
    put(&mut bytes, b"v")?;
    put_number(&mut bytes, number)?;
    Name::new(alloc, bytes.as_slice())
}
