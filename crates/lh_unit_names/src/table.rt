//! The names of one kind in a unit, by numbers.
ghost use Rattle.std.specs.Prelude.{◌≡◌, ◌<◌, ◌≤◌, [], ◌∷◌, ◌++◌, length, not, nat_eq, slice_get, slice_index_or, Some, IfOk, OnOk, OnErr, vec_len, vec_capacity};
ghost use Rattle.indexmap.specs.IndexSet.{insert_key};
ghost use lib.Pointwise.{pointwise};
ghost use Rattle.lh_unit_names.specs.Distinct.{AllDistinct, has_name};
ghost use Rattle.lh_unit_names.specs.NameTables.{names_of, IsIndexed};

use crate::name::Name;
use indexmap::IndexSet;
use lh_types::memory::NoMemory;
use std::alloc::Global;
use std::marker::Model;
use std::mem;

/// So many names more have room in an index that is made: those of a unit of ordinary size, of which it need not grow.
const ROOM: usize = 64;

/// Names in the order in which they came, no two alike. They are found by an index, which takes some 30 bytes a name, about as much
/// as the names do. The first name makes it; it is given back where no more are to come, and a name that comes nevertheless makes it again.
#[derive(Drop)]
pub struct NameTable {
    kept: KeptNames,
}

#[derive(Drop)]
enum KeptNames {
    Indexed(IndexSet<Name>),
    Listed(Vec<Name>),
}

impl Model for NameTable {
    ghost use Rattle.std.specs.Prelude.{ℕ, List};
    ghost use Rattle.lh_unit_names.specs.Distinct.{AllDistinct};
    ghost use Rattle.lh_unit_names.specs.NameTables.{names_of};

    ghost Value = { List (List ℕ) };

    ghost view = { λ t. names_of t.kept };

    ghost invariant = { λ t. AllDistinct (names_of t.kept) };
}

impl NameTable {
    /// A table without names.
    pub fn new(alloc: Global) -> NameTable
        ensures { result ≡ [] }
    {
        NameTable {
            kept: KeptNames::Listed(Vec::new(alloc)),
        }
    }

    /// The number of a name, and whether it is new: a new one comes behind all others. When memory runs out the table stays as it was.
    #[inline(always)]
    pub fn enter(&mut self, name: Name) -> Result<(usize, bool), NoMemory>
        ensures added { IfOk result (λ r. r.1 ≡ not (has_name self.old name)) }
        ensures names { IfOk result (λ r. self.new ≡ insert_key (pointwise nat_eq) self.old name) }
        ensures stored { IfOk result (λ r. slice_get self.new r.0 ≡ Some name) }
        ensures err { OnErr result (self.new ≡ self.old) }
    {
        open(&mut self.kept)?;
        enter(&mut self.kept, name)
    }

    /// Gives back the index, where there is memory for the names without it, and the room that nothing needs.
    pub fn close(&mut self)
        ensures { self.new ≡ self.old }
    {
        close(&mut self.kept);
    }

    /// How many names there are.
    pub fn len(&self) -> usize
        ensures { result ≡ length self.now }
    {
        match &self.kept {
            KeptNames::Indexed(names) => names.len(),
            KeptNames::Listed(names) => names.len(),
        }
    }

    /// The name of a number.
    pub fn name(&self, number: usize) -> &Name
        requires { number < length self.now }
        ensures { result.now ≡ slice_index_or self.now number [] }
    {
        match &self.kept {
            KeptNames::Indexed(names) => &names.as_slice()[number],
            KeptNames::Listed(names) => &names[number],
        }
    }
}

// Makes the index anew where it was given back.
fn open(kept: &mut KeptNames) -> Result<(), NoMemory>
    requires { AllDistinct (names_of kept.old) }
    ensures same { names_of kept.new ≡ names_of kept.old }
    ensures indexed { OnOk result (IsIndexed kept.new) }
{
    match kept {
        KeptNames::Indexed(_) => Ok(()),
        KeptNames::Listed(_) => reopen(kept),
    }
}

// The same, apart from what each name goes through, since it takes a large frame.
#[inline(never)]
fn reopen(kept: &mut KeptNames) -> Result<(), NoMemory>
    requires { AllDistinct (names_of kept.old) }
    ensures same { names_of kept.new ≡ names_of kept.old }
    ensures indexed { OnOk result (IsIndexed kept.new) }
{
    if let KeptNames::Listed(names) = kept {
        let names = indexed(names)?;
        *kept = KeptNames::Indexed(names);
    }
    Ok(())
}

#[inline(always)]
fn enter(kept: &mut KeptNames, name: Name) -> Result<(usize, bool), NoMemory>
    requires { IsIndexed kept.old }
    ensures added { IfOk result (λ r. r.1 ≡ not (has_name (names_of kept.old) name)) }
    ensures names { IfOk result (λ r. names_of kept.new ≡ insert_key (pointwise nat_eq) (names_of kept.old) name) }
    ensures stored { IfOk result (λ r. slice_get (names_of kept.new) r.0 ≡ Some name) }
    ensures err { OnErr result (names_of kept.new ≡ names_of kept.old) }
{
    match kept {
        KeptNames::Indexed(names) => Ok(names.insert_full(name)?),
        KeptNames::Listed(_) => unreachable!(),
    }
}

fn close(kept: &mut KeptNames)
    ensures { names_of kept.new ≡ names_of kept.old }
{
    if let KeptNames::Indexed(names) = kept {
        let alloc = *names.allocator();
        if let Ok(room) = Vec::with_capacity(alloc, names.len()) {
            let names = mem::replace(names, IndexSet::new(alloc));
            *kept = KeptNames::Listed(listed(names, room));
        }
    }
}

// An index of these names, each copied, with room for more.
fn indexed(names: &Vec<Name>) -> Result<IndexSet<Name>, NoMemory>
    requires { AllDistinct names.now.items }
    ensures { IfOk result (λ index. index.keys ≡ names.now.items) }
{
    let room = names.len().saturating_add(ROOM);
    let mut index = IndexSet::with_capacity(*names.allocator(), room)?;
    for name in names.as_slice() {
        let name = name.copy()?;
        index.insert_full(name)?;
    }
    Ok(index)
}

// The names of an index, in room that was made for them.
fn listed(names: IndexSet<Name>, mut room: Vec<Name>) -> Vec<Name>
    requires empty { room.items ≡ [] }
    requires enough { length names.keys ≤ vec_capacity room }
    ensures { result.items ≡ names.keys }
{
    for name in names {
        room.push_reserved(name);
    }
    room
}
