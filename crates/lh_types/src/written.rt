//! Types that are written in many places, where equal ones share one.
ghost use Rattle.std.specs.Prelude.{◌≡◌, ◌<◌, true, None, IfOk, length};
ghost use Rattle.std.specs.Option.{option_copied};

use crate::memory::NoMemory;
use crate::ty::{Ty, TyKind};
use std::alloc::Global;
use std::marker::Model;
use std::rc::Rc;

/// The type that is written before an operand, or none, in one word. Contracts see it as `Option<Ty>`.
#[derive(Drop)]
pub struct WrittenTy {
    ty: Rc<Option<Ty>>,
}

impl Model for WrittenTy {
    ghost use Rattle.std.specs.Prelude.{Option};
    ghost use Rattle.std.specs.Coded.{coded_option};
    ghost use Rattle.std.specs.Rc.{rc_value};
    ghost use Rattle.lh_types.specs.Types.{TypeTree, type_coded};

    ghost Value = { Option TypeTree };

    ghost coded = { coded_option type_coded };

    ghost view = { λ w. rc_value w.ty };
}

impl WrittenTy {
    /// This type, or none, for one owner.
    pub fn new(alloc: Global, ty: Option<Ty>) -> Result<WrittenTy, NoMemory>
        ensures { IfOk result (λ w. w ≡ ty) }
    {
        let ty = Rc::new(alloc, ty)?;
        Ok(WrittenTy { ty })
    }

    /// No type.
    pub fn none(alloc: Global) -> Result<WrittenTy, NoMemory>
        ensures { IfOk result (λ w. w ≡ None) }
    {
        WrittenTy::new(alloc, None)
    }

    /// The type, if there is one.
    pub fn get(&self) -> Option<&Ty>
        ensures { option_copied result ≡ self.now }
    {
        match self.ty.as_ref() {
            Some(ty) => Some(ty),
            None => None,
        }
    }

    /// The type, shared with one owner more.
    pub fn share(&self) -> Result<WrittenTy, NoMemory>
        ensures { IfOk result (λ w. w ≡ self.now) }
    {
        let ty = self.ty.clone()?;
        Ok(WrittenTy { ty })
    }

    // Whether it is this type, or none.
    fn is(&self, ty: Option<&Ty>) -> bool
        ensures { result ≡ true → self.now ≡ option_copied ty.entry }
    {
        match (self.get(), ty) {
            (None, None) => true,
            (Some(own), Some(ty)) => *own == *ty,
            _ => false,
        }
    }
}

/// Types that were shared before, so that a type that comes again is stored once. It keeps at most 256.
#[derive(Drop)]
pub struct SharedTypes {
    // By digests; empty until the first type comes.
    slots: Vec<WrittenTy>,
}

impl SharedTypes {
    /// No types, which takes no memory yet.
    pub fn new(alloc: Global) -> SharedTypes {
        SharedTypes {
            slots: Vec::new(alloc),
        }
    }

    /// A type equal to this one, or none, for one owner more.
    pub fn share(&mut self, alloc: Global, ty: Option<&Ty>) -> Result<WrittenTy, NoMemory>
        ensures { IfOk result (λ w. w ≡ option_copied ty.entry) }
    {
        if self.slots.is_empty() {
            self.slots = no_types(alloc)?;
        }
        let at = digest(ty) % self.slots.len();
        let slot = &mut self.slots[at];
        if slot.is(ty) {
            return slot.share();
        }
        let made = WrittenTy::new(alloc, copied(ty)?)?;
        *slot = made.share()?;
        Ok(made)
    }
}

// Slots for 256 types, with none in each.
fn no_types(alloc: Global) -> Result<Vec<WrittenTy>, NoMemory>
    ensures { IfOk result (λ slots. 0 < length slots.items) }
{
    let none = WrittenTy::none(alloc)?;
    let mut slots = Vec::with_capacity(alloc, 256)?;
    slots.push(none.share()?)?;
    for _ in 1..256 {
        slots.push(none.share()?)?;
    }
    Ok(slots)
}

// An equal type, or none.
fn copied(ty: Option<&Ty>) -> Result<Option<Ty>, NoMemory>
    ensures { IfOk result (λ t. t ≡ option_copied ty.entry) }
{
    match ty {
        Some(ty) => Ok(Some(ty.copy()?)),
        None => Ok(None),
    }
}

// A number by which a type is looked up; equal types have one.
fn digest(ty: Option<&Ty>) -> usize {
    match ty {
        None => 0,
        Some(ty) => match ty.kind() {
            TyKind::Signal(of) => level(of) ^ 0x80,
            TyKind::Pointer(of) => level(of) ^ 0xc0,
            _ => level(ty),
        },
    }
}

// The same of the outermost level alone.
fn level(ty: &Ty) -> usize {
    match ty.kind() {
        TyKind::Int(width) => width as usize,
        TyKind::Time => 129,
        TyKind::Void => 130,
        TyKind::Array(count, _) => count as usize,
        TyKind::Tuple(fields) => fields.len(),
        TyKind::Signal(_) => 133,
        TyKind::Pointer(_) => 134,
    }
}
