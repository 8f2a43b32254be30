//! Tests of one type, and the type that it is made for.
ghost use Rattle.std.specs.Prelude.{◌≡◌, IsTrue, IfSome};
ghost use Rattle.std.specs.Option.{option_copied};
ghost use Rattle.lh_types.specs.Types.{IsData, IsLimited, time_type, same_type};
ghost use Rattle.lh_types.specs.TypeTests as test;

use crate::ty::{Ty, TyKind};

impl Ty {
    /// Whether it is the type of a truth value.
    pub fn is_bit(&self) -> bool
        ensures test { result ≡ same_type self.now test.bit }
        ensures bit { IsTrue result → self.now ≡ test.bit }
    {
        match self.kind() {
            TyKind::Int(width) => width == 1,
            _ => false,
        }
    }

    /// Whether it is the type of delays.
    pub fn is_time(&self) -> bool
        ensures { result ≡ same_type self.now time_type }
    {
        match self.kind() {
            TyKind::Time => true,
            _ => false,
        }
    }

    /// Whether it is the type of nothing.
    pub fn is_void(&self) -> bool
        ensures { result ≡ test.is_void self.now }
    {
        match self.kind() {
            TyKind::Void => true,
            _ => false,
        }
    }

    /// Whether it is an integer of any width.
    pub fn is_integer(&self) -> bool
        ensures { result ≡ test.is_integer self.now }
    {
        match self.kind() {
            TyKind::Int(_) => true,
            _ => false,
        }
    }

    /// Whether it is an array whose elements have this type.
    pub fn is_array_of(&self, of: &Ty) -> bool
        ensures { result ≡ test.is_array_of of.now self.now }
    {
        match self.kind() {
            TyKind::Array(_, element) => *element == *of,
            _ => false,
        }
    }

    /// Whether it is a signal.
    pub fn is_signal(&self) -> bool
        ensures { result ≡ test.is_signal self.now }
    {
        match self.kind() {
            TyKind::Signal(_) => true,
            _ => false,
        }
    }

    /// Whether it is a pointer.
    pub fn is_pointer(&self) -> bool
        ensures { result ≡ test.is_pointer self.now }
    {
        match self.kind() {
            TyKind::Pointer(_) => true,
            _ => false,
        }
    }

    /// Whether it is a data type or time.
    pub fn is_value_type(&self) -> bool
        ensures test { result ≡ test.is_value_type self.now }
        ensures limited { IsLimited self.now }
    {
        match self.kind() {
            TyKind::Int(_) | TyKind::Array(_, _) | TyKind::Tuple(_) | TyKind::Time => true,
            TyKind::Void | TyKind::Signal(_) | TyKind::Pointer(_) => false,
        }
    }

    /// What a signal of this type carries; none where it is no signal.
    pub fn carried(&self) -> Option<&Ty>
        ensures of { option_copied result ≡ test.carried self.now }
        ensures data { IfSome result (λ t. IsData t.now) }
    {
        match self.kind() {
            TyKind::Signal(of) => Some(of),
            _ => None,
        }
    }

    /// What a pointer of this type points to; none where it is no pointer.
    pub fn pointed(&self) -> Option<&Ty>
        ensures { option_copied result ≡ test.pointed self.now }
    {
        match self.kind() {
            TyKind::Pointer(of) => Some(of),
            _ => None,
        }
    }
}
