//! Values of the language.
ghost use Rattle.std.specs.Prelude.{◌≡◌, [], ◌∷◌, ◌++◌, length, map, IfOk, OnOk, OnErr};
ghost use Rattle.lh_types.specs.Values.{data_row};
ghost use Rattle.lh_types.specs.ValueOf.{datum_of};
ghost use Rattle.lh_types.specs.SameValue.{same_datum, same_parts};

use crate::memory::NoMemory;
use lh_time::Delay;
use std::alloc::Global;
use std::marker::Model;

/// A value.
///
/// A clause that speaks of a value of a type says that it fits the type: the bits of an integer are
/// below 2^width, and an array or struct has a value of the right type for each of its parts.
#[cycle(val)]
#[derive(Drop)]
pub enum Val {
    Int { width: u32, bits: u128 },
    Time(Delay),
    Array(ValList),
    Tuple(ValList),
}

/// A list of values.
#[cycle(val)]
#[derive(Drop)]
pub struct ValList {
    list: Vec<Val>,
}

impl Model for ValList {
    ghost use Rattle.std.specs.Prelude.{ℕ, List, map};
    ghost use Rattle.std.specs.Coded.{coded_list};
    ghost use Rattle.lh_types.specs.Values.{Datum, datum_count_row, data_row, datum_coded};

    ghost Value = { List Datum };

    ghost coded = { coded_list datum_coded };

    ghost use Rattle.lh_types.specs.ValueOf.{datum_of};

    ghost view = { λ a. map datum_of a.list.items };

    ghost size = { λ vs. datum_count_row (data_row vs) };

    ghost use Rattle.lh_types.specs.ValueSize.{most_le-node_count};

    ghost size_decreases = { λ a h. most_le-node_count a.list.items };
}

impl ValList {
    /// An empty list, which takes no memory yet.
    pub fn new(alloc: Global) -> ValList
        ensures { result ≡ [] }
    {
        ValList {
            list: Vec::new(alloc),
        }
    }

    /// An empty list with room for this many values, so that adding these makes no other room.
    pub fn with_room(alloc: Global, room: usize) -> Result<ValList, NoMemory>
        ensures { IfOk result (λ list. list ≡ []) }
    {
        let list = Vec::with_capacity(alloc, room)?;
        Ok(ValList { list })
    }

    /// The list of these values, without memory.
    pub fn from_vec(list: Vec<Val>) -> ValList
        ensures { result ≡ map datum_of list.items }
    {
        ValList { list }
    }

    /// The values, without memory.
    pub fn into_vec(self) -> Vec<Val>
        ensures { map datum_of result.items ≡ self }
    {
        self.list
    }

    /// How many values there are.
    pub fn len(&self) -> usize
        ensures { result ≡ length self.now }
    {
        self.list.len()
    }

    /// The values in order.
    pub fn as_slice(&self) -> &[Val]
        ensures { map datum_of result.now ≡ self.now }
    {
        self.list.as_slice()
    }

    /// Gives back the room that no value needs.
    pub fn shrink(&mut self)
        ensures { self.new ≡ self.old }
    {
        self.list.shrink_to_fit();
    }

    /// Adds a value at the end; when memory runs out the list stays as it was.
    pub fn push(&mut self, x: Val) -> Result<(), NoMemory>
        ensures ok { OnOk result (self.new ≡ self.old ++ datum_of x ∷ []) }
        ensures err { OnErr result (self.new ≡ self.old) }
    {
        self.list.push(x)?;
        Ok(())
    }
}

impl Val {
    /// An equal value.
    #[cycle(copy_val)]
    pub fn copy(&self) -> Result<Val, NoMemory>
        ensures { IfOk result (λ v. v ≡ self.now) }
    {
        match self {
            Val::Int { width, bits } => Ok(Val::Int {
                width: *width,
                bits: *bits,
            }),
            Val::Time(d) => Ok(Val::Time(*d)),
            Val::Array(vs) => {
                let vs = vs.copy()?;
                Ok(Val::Array(vs))
            }
            Val::Tuple(vs) => {
                let vs = vs.copy()?;
                Ok(Val::Tuple(vs))
            }
        }
    }
}

impl ValList {
    /// An equal list.
    #[cycle(copy_val)]
    pub fn copy(&self) -> Result<ValList, NoMemory>
        ensures { IfOk result (λ vs. vs ≡ self.now) }
    {
        let mut to = ValList::with_room(*self.list.allocator(), self.list.len())?;
        for v in self.list.as_slice() {
            let v = v.copy()?;
            to.push(v)?;
        }
        Ok(to)
    }
}

impl PartialEq for Val {
    ghost use Rattle.std.specs.Cmp.{partial_equiv_from_equiv};
    ghost use Rattle.lh_types.specs.SameValue.{same_val};
    ghost use Rattle.lh_types.specs.SameValueLaws.{same_val_equiv};

    ghost eq = { same_val };

    ghost laws = { partial_equiv_from_equiv same_val_equiv };

    fn eq(&self, other: &Val) -> bool {
        self.same(other)
    }
}

impl Eq for Val {
    ghost use Rattle.lh_types.specs.SameValueLaws.{same_val_equiv};

    ghost laws = { same_val_equiv };
}

impl Val {
    #[cycle(same_val)]
    fn same(&self, other: &Val) -> bool
        ensures { result ≡ same_datum (datum_of self.now) (datum_of other.now) }
    {
        match (self, other) {
            (Val::Int { width, bits }, Val::Int { width: w, bits: b }) => *width == *w
                && *bits == *b,
            (Val::Time(d), Val::Time(e)) => *d == *e,
            (Val::Array(vs), Val::Array(ws)) => same_values(vs, ws),
            (Val::Tuple(vs), Val::Tuple(ws)) => same_values(vs, ws),
            _ => false,
        }
    }
}

#[cycle(same_val)]
fn same_values(vs: &ValList, ws: &ValList) -> bool
    ensures { result ≡ same_parts (data_row vs.now) (data_row ws.now) }
{
    let (vs, ws) = (vs.list.as_slice(), ws.list.as_slice());
    if vs.len() != ws.len() {
        return false;
    }
    for (i, v) in vs.iter().enumerate() {
        if !v.same(&ws[i]) {
            return false;
        }
    }
    true
}
