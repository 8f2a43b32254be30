//! The values of the parts that were emitted.
ghost use Rattle.std.specs.Prelude.{◌≡◌, None, IfOk, OnOk};
ghost use Rattle.lh_term.specs.declared.part.Part.{Part as APart};
ghost use Rattle.lh_emit.specs.Parts.{part_in, KeepsPart};

use lh_term::part::Part;
use lh_types::memory::NoMemory;
use lh_unit::inst::ValueId;
use std::alloc::Global;
use std::collections::HashMap;
use std::hash::{Hash, Hasher};

/// A part by which a value is found.
#[derive(Drop)]
pub struct PartKey {
    pub part: Part,
}

impl PartKey {
    /// The key of an equal part.
    pub fn of(part: &Part) -> Result<PartKey, NoMemory>
        ensures { IfOk result (λ key. key.part ≡ part.now) }
    {
        let part = part.copy()?;
        Ok(PartKey { part })
    }
}

impl PartialEq for PartKey {
    ghost use Rattle.std.specs.Cmp.{partial_equiv_from_equiv};
    ghost use Rattle.lh_emit.specs.Parts.{same_key, same_key_equiv};

    ghost eq = { same_key };

    ghost laws = { partial_equiv_from_equiv same_key_equiv };

    fn eq(&self, other: &PartKey) -> bool {
        self.part == other.part
    }
}

impl Eq for PartKey {
    ghost use Rattle.lh_emit.specs.Parts.{same_key_equiv};

    ghost laws = { same_key_equiv };
}

impl Hash for PartKey {
    ghost use Rattle.lh_emit.specs.Parts.{fed_key, fed_alike};

    ghost hash_input = { fed_key };

    ghost respects_eq = { fed_alike };

    fn hash<H: Hasher>(&self, state: &mut H) {
        self.part.arg.hash(state);
        self.part.lo.hash(state);
        self.part.extent().hash(state);
    }
}

/// The values by their parts.
#[derive(Drop)]
pub struct Parts {
    values: HashMap<PartKey, ValueId>,
}

impl Parts {
    /// No part has a value.
    pub fn new(alloc: Global) -> Parts
        ensures { (p : APart) → part_in result p ≡ None }
    {
        Parts {
            values: HashMap::new(alloc),
        }
    }

    /// The value of a part, where it has one.
    pub fn get(&self, key: &PartKey) -> Option<ValueId>
        ensures { result ≡ part_in self.now key.now.part }
    {
        self.values.get(key).copied()
    }

    /// Keeps the value of a part.
    pub fn keep(&mut self, key: PartKey, value: ValueId) -> Result<(), NoMemory>
        ensures { OnOk result (KeepsPart self.old key.part value self.new) }
    {
        self.values.insert(key, value)?;
        Ok(())
    }
}
