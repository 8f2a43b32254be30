//! A unit under verification, with what is known of its values.
ghost use Rattle.std.specs.Prelude.{◌≡◌, ◌<◌, option_map};
ghost use Rattle.std.specs.Option.{option_copied};

use crate::numbers::{Numbered, Types};
use crate::params::NumberList;
use lh_types::ty::Ty;
use lh_unit::inst::{BlockId, Inst, InstId, UnitId, UnitKind, ValueId};
use lh_unit::module::Module;

/// The four kinds of values.
#[derive(Clone, Copy, Debug, PartialEq, Eq)]
pub enum ValueKind {
    /// An integer, an array or a struct.
    Datum,
    /// A delay.
    Time,
    /// What can be read by `prb` and driven by `drv`.
    Signal,
    /// What `var` gives, for `ld` and `st`.
    Pointer,
}

/// What is known of one value of a unit.
#[derive(Clone, Copy, Debug)]
pub struct Fact {
    /// Whether an argument or an instruction gives it.
    pub defined: bool,
    /// Its kind; none where it is not defined, or gives nothing that has a type.
    pub kind: Option<ValueKind>,
    /// The number of its type; none where no type of the language is such.
    pub ty: Option<u32>,
}

/// A unit of a module, with what is known of each of its values.
#[derive(Clone, Copy)]
pub struct Scope<'a> {
    /// The module.
    pub module: &'a Module,
    /// The unit, which has an entry in the module.
    pub unit: UnitId,
    /// By the ids of values.
    pub facts: &'a [Fact],
    /// By the ids of values, whether it comes from a `prb`; in a unit without a `sig` nothing asks, and it says nothing.
    pub probed: &'a [bool],
    /// By the ids of labels, whether a block has this label.
    pub labels: &'a [bool],
    /// The types by their numbers.
    pub types: &'a Types,
    /// By the ids of units, the numbers of the types of their parameters.
    pub params: &'a [NumberList],
}

impl Scope<'_> {
    ghost use Rattle.std.specs.Prelude.{true, Some, is_some, slice_get, IfSome};
    ghost use Rattle.lh_verify_values.specs.Numbers.{IsNumbered, AreNumbersOf};
    ghost use Rattle.lh_unit.specs.TypingRows.{has_type};
    ghost use Rattle.lh_unit.specs.Contents.{defines_value, defines_label};
    ghost use Rattle.lh_unit.specs.Typing.{value_type};
    ghost use Rattle.lh_unit.specs.Kinds.{value_kind};
    ghost use Rattle.lh_unit.specs.Naming.{value_text};
    ghost use Rattle.lh_unit.specs.Within.{ValueWithin};
    ghost use Rattle.lh_unit.specs.Within.{InstWithin};
    ghost use Rattle.lh_unit.specs.Arena.{inst_count, inst_at, args_at};
    ghost use Rattle.lh_verify_values.specs.Facts.{IsScope, FactHolds, HasItsSig, has_sig, kind_as, from_probe, text_in, naming_in, sizes_in};

    /// What is known of a value.
    fn fact(&self, value: ValueId) -> &Fact
        requires scope { IsScope self.now }
        requires within { ValueWithin (sizes_in self.now) value }
        ensures { FactHolds self.now.types.now (text_in self.now) (value_text (naming_in self.now) value) result.now }
    {
        &self.facts[value.0 as usize]
    }

    /// Whether an argument or an instruction of the unit gives a value.
    pub fn defines(&self, value: ValueId) -> bool
        requires scope { IsScope self.now }
        requires within { ValueWithin (sizes_in self.now) value }
        ensures { result ≡ defines_value (value_text (naming_in self.now) value) (text_in self.now) }
    {
        self.fact(value).defined
    }

    /// The kind of a value, if it is of any.
    pub fn kind_of(&self, value: ValueId) -> Option<ValueKind>
        requires scope { IsScope self.now }
        requires within { ValueWithin (sizes_in self.now) value }
        ensures { option_map kind_as result ≡ value_kind (text_in self.now) (value_text (naming_in self.now) value) }
    {
        self.fact(value).kind
    }

    /// The type of a value, if it has one.
    pub fn type_of(&self, value: ValueId) -> Option<&Ty>
        requires scope { IsScope self.now }
        requires within { ValueWithin (sizes_in self.now) value }
        ensures { option_copied result ≡ value_type (text_in self.now) (value_text (naming_in self.now) value) }
    {
        match self.fact(value).ty {
            Some(number) => self.types.get(number),
            None => None,
        }
    }

    /// The number of a type, where a value has it.
    pub fn number_if(&self, value: ValueId, ty: &Ty) -> Option<u32>
        requires scope { IsScope self.now }
        requires within { ValueWithin (sizes_in self.now) value }
        ensures number { IfSome result (λ n. slice_get self.now.types.now n ≡ Some ty.now) }
        ensures has { is_some result ≡ has_type (text_in self.now) ty.now (value_text (naming_in self.now) value) }
    {
        match self.fact(value).ty {
            Some(number) => self.types.checked(number, ty),
            None => None,
        }
    }

    /// Whether a value has a type, of which the number is known.
    pub fn has_number(&self, value: ValueId, of: &Numbered<'_>) -> bool
        requires scope { IsScope self.now }
        requires within { ValueWithin (sizes_in self.now) value }
        requires number { IsNumbered self.now.types.now of.now }
        ensures { result ≡ has_type (text_in self.now) of.now.ty.now (value_text (naming_in self.now) value) }
    {
        match self.fact(value).ty {
            Some(number) => self.types.same(number, of.number),
            None => false,
        }
    }

    /// The numbers of the types of a unit's parameters.
    pub fn params_of(&self, unit: UnitId) -> &[u32]
        requires scope { IsScope self.now }
        requires within { unit.0 < (sizes_in self.now).units }
        ensures { AreNumbersOf self.now.types.now (args_at self.now.module.now unit.0) result.now }
    {
        self.params[unit.0 as usize].as_slice()
    }

    /// The result type of the unit, which only a function has.
    pub fn result_type(&self) -> Option<&Ty>
        requires { IsScope self.now }
        ensures { option_copied result ≡ (text_in self.now).result }
    {
        self.module.result(self.unit)
    }

    /// Whether a block of the unit has this label.
    pub fn stands(&self, block: BlockId) -> bool
        requires scope { IsScope self.now }
        requires within { block.0 < (sizes_in self.now).labels }
        ensures { result ≡ defines_label ((naming_in self.now).label_name block.0) (text_in self.now) }
    {
        self.labels[block.0 as usize]
    }

    /// Whether a value comes from a `prb`, in a unit with a `sig`.
    pub fn comes_from_probe(&self, value: ValueId) -> bool
        requires scope { IsScope self.now }
        requires sig { has_sig self.now ≡ true }
        requires within { ValueWithin (sizes_in self.now) value }
        ensures { result ≡ from_probe (text_in self.now) (value_text (naming_in self.now) value) }
    {
        self.probed[value.0 as usize]
    }

    /// The kind of the unit.
    pub fn kind(&self) -> UnitKind
        requires { IsScope self.now }
        ensures { result ≡ (text_in self.now).kind }
    {
        match self.module.kind(self.unit) {
            Some(kind) => kind,
            None => UnitKind::Func,
        }
    }

    /// An instruction of the unit.
    pub fn inst(&self, inst: InstId) -> &Inst
        requires scope { IsScope self.now }
        requires within { inst.0 < inst_count self.now.module.now self.now.unit.0 }
        ensures inst { result.now ≡ inst_at self.now.module.now self.now.unit.0 inst.0 }
        ensures placed { InstWithin (sizes_in self.now) result.now }
        ensures sig { HasItsSig self.now result.now }
    {
        self.module.inst(self.unit, inst)
    }
}
