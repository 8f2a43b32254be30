//! Constants of instructions.
ghost use Rattle.std.specs.Prelude.{◌≡◌, IfOk};
ghost use Rattle.lh_types.specs.Values.{int_value};
ghost use Rattle.lh_types.specs.ValueOf.{datum_of};

use lh_types::memory::NoMemory;
use lh_types::val::Val;
use std::alloc::Global;
use std::boxed::Box;
use std::marker::Model;

/// The value of a `const`. An integer below 2^64 lies in place, and every other value behind a pointer, so that instructions stay small.
#[derive(Drop)]
pub struct Constant {
    kept: KeptValue,
}

#[derive(Drop)]
enum KeptValue {
    Short { width: u32, bits: u64 },
    Other(Box<Val>),
}

impl Model for Constant {
    ghost use Rattle.lh_types.specs.Values.{Datum, datum_coded};
    ghost use Rattle.lh_unit.specs.Constants.{value_of};

    ghost Value = { Datum };

    ghost coded = { datum_coded };

    ghost view = { λ c. value_of c.kept };
}

impl Constant {
    /// The constant of this value.
    pub fn new(alloc: Global, value: Val) -> Result<Constant, NoMemory>
        ensures { IfOk result (λ c. c ≡ datum_of value) }
    {
        match value {
            Val::Int { width, bits } if bits <= u64::MAX as u128 => Ok(short(width, bits as u64)),
            other => boxed(alloc, other),
        }
    }

    /// Its value.
    pub fn value(&self) -> Result<Val, NoMemory>
        ensures { IfOk result (λ v. datum_of v ≡ self.now) }
    {
        match &self.kept {
            KeptValue::Short { width, bits } => Ok(Val::Int {
                width: *width,
                bits: *bits as u128,
            }),
            KeptValue::Other(value) => value.copy(),
        }
    }

    /// An equal constant.
    pub fn copy(&self) -> Result<Constant, NoMemory>
        ensures { IfOk result (λ c. c ≡ self.now) }
    {
        match &self.kept {
            KeptValue::Short { width, bits } => Ok(short(*width, *bits)),
            KeptValue::Other(value) => boxed(*Box::allocator(value), value.copy()?),
        }
    }
}

fn short(width: u32, bits: u64) -> Constant
    ensures { result ≡ int_value width bits }
{
    Constant {
        kept: KeptValue::Short { width, bits },
    }
}

fn boxed(alloc: Global, value: Val) -> Result<Constant, NoMemory>
    ensures { IfOk result (λ c. c ≡ datum_of value) }
{
    let value = Box::new(alloc, value)?;
    Ok(Constant {
        kept: KeptValue::Other(value),
    })
}
