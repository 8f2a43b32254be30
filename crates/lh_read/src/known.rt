//! What the lines before have said, by which the next are read faster.
ghost use Rattle.std.specs.Prelude.{◌≡◌, ◌<◌, true};
ghost use Rattle.lh_unit.specs.Arena.{unit_count, value_count, value_name_at};

use lh_read_pieces::tokens::NameText;
use lh_types::written::SharedTypes;
use lh_unit::inst::{UnitId, ValueId};
use lh_unit::module::Module;
use std::alloc::Global;

/// What the lines before have said.
#[derive(Drop)]
pub struct Known {
    /// The types that they have written.
    pub types: SharedTypes,
    /// By digests of names, ids of values that they named. Any id may stand there: its name is compared with the one that is asked for.
    pub values: [u32; 256],
}

impl Known {
    /// Nothing, before the first line.
    pub fn new(alloc: Global) -> Known {
        Known {
            types: SharedTypes::new(alloc),
            values: [0; 256],
        }
    }
}

/// A digest of a name: its place among the values that are kept.
pub fn digest(name: &NameText) -> u8 {
    let mut sum: u8 = 0;
    for byte in name.as_bytes() {
        sum = sum.wrapping_mul(31).wrapping_add(*byte);
    }
    sum
}

/// Whether a value of a unit has this name.
pub fn is_named(m: &Module, unit: UnitId, value: ValueId, name: &NameText) -> bool
    requires { unit.0 < unit_count m.now }
    ensures within { result ≡ true → value.0 < value_count m.now unit.0 }
    ensures name { result ≡ true → value_name_at m.now unit.0 value.0 ≡ name.now }
{
    if value.0 >= m.values(unit) {
        return false;
    }
    m.value_name(unit, value).as_bytes() == name.as_bytes()
}
