//! Types by numbers: equal types have one number, so that whether two are equal is a comparison of numbers.
ghost use Rattle.std.specs.Prelude.{◌≡◌, [], false, Some, is_some, slice_get, IfOk, IfSome, OnOk};
ghost use Rattle.std.specs.Option.{option_copied, option_map_or};
ghost use Rattle.lh_types.specs.Types.{TypeTree, row_of, same_type};
ghost use Rattle.lh_types.specs.Kind.{type_of_kind};
ghost use Rattle.lh_verify_values.specs.Digest.{mixed, digest_of, digest_of_row};
ghost use Rattle.lh_verify_values.specs.Numbers.{NumbersGrow, IsNumberOf};

use indexmap::IndexSet;
use lh_types::memory::NoMemory;
use lh_types::ty::{Ty, TyKind};
use std::alloc::Global;
use std::hash::{Hash, Hasher};
use std::marker::Model;

/// A type as a key, which is hashed by its digest.
#[derive(Drop)]
pub struct TypeKey {
    ty: Ty,
}

impl Model for TypeKey {
    ghost use Rattle.lh_types.specs.Types.{TypeTree, type_coded};

    ghost Value = { TypeTree };

    ghost coded = { type_coded };

    ghost view = { λ k. k.ty };
}

impl PartialEq for TypeKey {
    ghost use Rattle.std.specs.Cmp.{partial_equiv_from_equiv};
    ghost use Rattle.lh_types.specs.Types.{same_type};
    ghost use Rattle.lh_types.specs.Same.{same_type_equiv};

    ghost eq = { same_type };

    ghost laws = { partial_equiv_from_equiv same_type_equiv };

    fn eq(&self, other: &TypeKey) -> bool {
        self.ty == other.ty
    }
}

impl Eq for TypeKey {
    ghost use Rattle.lh_types.specs.Same.{same_type_equiv};

    ghost laws = { same_type_equiv };
}

impl Hash for TypeKey {
    ghost use Rattle.lh_verify_values.specs.Digest.{fed_type, fed_alike};

    ghost hash_input = { fed_type };

    ghost respects_eq = { fed_alike };

    fn hash<H: Hasher>(&self, state: &mut H) {
        digest(&self.ty).hash(state);
    }
}

/// A digest of a type.
#[cycle(digest)]
fn digest(t: &Ty) -> u64
    ensures { result ≡ digest_of t.now }
{
    match t.kind() {
        TyKind::Int(n) => n as u64,
        TyKind::Time => 129,
        TyKind::Void => 130,
        TyKind::Array(n, of) => mix(mix(131, n as u64), digest(of)),
        TyKind::Tuple(fields) => digest_of_fields(fields),
        TyKind::Signal(of) => mix(133, digest(of)),
        TyKind::Pointer(of) => mix(134, digest(of)),
    }
}

/// The digest of a struct of these fields.
#[cycle(digest)]
fn digest_of_fields(fields: &[Ty]) -> u64
    ensures { result ≡ digest_of_row 132 (row_of fields.now) }
{
    let mut sum = 132;
    for field in fields {
        sum = mix(sum, digest(field));
    }
    sum
}

/// A digest of two.
#[tactic(auto, unfolding(crate::specs::Digest::mixed))]
fn mix(first: u64, second: u64) -> u64
    ensures { result ≡ mixed first second }
{
    first.wrapping_mul(6364136223846793005).wrapping_add(second)
}

/// A type with its number.
#[derive(Clone, Copy)]
pub struct Numbered<'a> {
    /// The type.
    pub ty: &'a Ty,
    /// Its number.
    pub number: u32,
}

/// Types in the order of their numbers, which are from 0 on.
#[derive(Drop)]
pub struct Types {
    set: IndexSet<TypeKey>,
    // By digests, numbers of types that came before. Any number may stand there: its type is compared with the one that is asked for.
    recent: [u32; RECENT],
}

// How many numbers are kept: a prime, so that the digests of the types of a module mostly have places of their own.
const RECENT: usize = 251;

impl Model for Types {
    ghost use Rattle.std.specs.Prelude.{List};
    ghost use Rattle.std.specs.List.{IsDistinct};
    ghost use Rattle.std.specs.Coded.{coded_list};
    ghost use Rattle.lh_types.specs.Types.{TypeTree, type_coded, same_type};

    ghost Value = { List TypeTree };

    ghost coded = { coded_list type_coded };

    ghost view = { λ a. a.set.keys };

    ghost invariant = { λ a. IsDistinct same_type a.set.keys };
}

impl Types {
    /// No types, which takes no memory yet.
    pub fn new(alloc: Global) -> Types
        ensures { result ≡ [] }
    {
        Types {
            set: IndexSet::new(alloc),
            recent: [0; RECENT],
        }
    }

    /// The type of a number, if there is one.
    pub fn get(&self, number: u32) -> Option<&Ty>
        ensures { option_copied result ≡ slice_get self.now number }
    {
        match self.set.get_index(number as usize) {
            Some(key) => Some(&key.ty),
            None => None,
        }
    }

    /// A number, where it is that of this type.
    pub fn checked(&self, number: u32, ty: &Ty) -> Option<u32>
        ensures number { IfSome result (λ n. slice_get self.now n ≡ Some ty.now) }
        ensures is { is_some result ≡ option_map_or (λ t. same_type t ty.now) (slice_get self.now number) false }
    {
        match self.get(number) {
            Some(of) if *of == *ty => Some(number),
            _ => None,
        }
    }

    /// Whether the types of two numbers are equal: equal types have one number.
    pub fn same(&self, number: u32, other: u32) -> bool
        ensures { (t u : TypeTree) → slice_get self.now number ≡ Some t → slice_get self.now other ≡ Some u → result ≡ same_type t u }
    {
        // That no type has two numbers is known where the set is named.
        let _ = &self.set;
        number == other
    }

    /// The number of a type, which is added if it is not there.
    pub fn number(&mut self, ty: Ty) -> Result<u32, NoMemory>
        ensures made { IfOk result (λ n. slice_get self.new n ≡ Some ty) }
        ensures grows { OnOk result (NumbersGrow self.old self.new) }
    {
        let (number, _) = self.set.insert_full(TypeKey { ty })?;
        if number > u32::MAX as usize {
            return Err(NoMemory);
        }
        Ok(number as u32)
    }

    /// The number of an equal type. What came before mostly has it at hand; what is new is copied and added.
    pub fn number_like(&mut self, ty: &Ty) -> Result<u32, NoMemory>
        ensures made { IfOk result (λ n. slice_get self.new n ≡ Some ty.now) }
        ensures grows { OnOk result (NumbersGrow self.old self.new) }
    {
        let place = (digest(ty) % RECENT as u64) as usize;
        if let Some(number) = self.checked(self.recent[place], ty) {
            return Ok(number);
        }
        let number = self.number(ty.copy()?)?;
        self.recent[place] = number;
        Ok(number)
    }

    /// The number of a type that may be absent.
    pub fn number_of(&mut self, ty: Option<&Ty>) -> Result<Option<u32>, NoMemory>
        ensures made { IfOk result (λ n. IsNumberOf self.new n (option_copied ty.entry)) }
        ensures grows { OnOk result (NumbersGrow self.old self.new) }
    {
        match ty {
            None => Ok(None),
            Some(ty) => Ok(Some(self.number_like(ty)?)),
        }
    }
}
