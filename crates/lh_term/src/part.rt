//! Parts of a unit's arguments.
ghost use Rattle.std.specs.Prelude.{◌≡◌, IfOk};
ghost use Rattle.lh_term.specs.Parts.{extent_of};

use lh_types::list::ListOf;
use lh_types::memory::NoMemory;
use lh_types::ty::{Ty, TyKind};

/// A part of an argument of a unit: the value of type `ty` whose lowest bit is bit `lo` of argument `arg`.
#[derive(Drop)]
pub struct Part {
    pub arg: u32,
    pub lo: u32,
    pub ty: Ty,
}

/// A list of parts.
pub type PartList = ListOf<Part>;

impl PartialEq for Part {
    ghost use Rattle.std.specs.Cmp.{partial_equiv_from_equiv};
    ghost use Rattle.lh_term.specs.Same.{same_part, same_part_equiv};

    ghost eq = { same_part };

    ghost laws = { partial_equiv_from_equiv same_part_equiv };

    fn eq(&self, other: &Part) -> bool {
        self.arg == other.arg && self.lo == other.lo && self.ty == other.ty
    }
}

impl Eq for Part {
    ghost use Rattle.lh_term.specs.Same.{same_part_equiv};

    ghost laws = { same_part_equiv };
}

impl Part {
    /// The width of an integer, the length of an array, and else 0. What begins at one bit nests, so few of the parts of one argument
    /// that begin at a bit have one extent.
    pub fn extent(&self) -> u32
        ensures { result ≡ extent_of self.now.ty }
    {
        match self.ty.kind() {
            TyKind::Int(width) => width,
            TyKind::Array(len, _) => len,
            _ => 0,
        }
    }

    /// An equal part.
    pub fn copy(&self) -> Result<Part, NoMemory>
        ensures { IfOk result (λ p. p ≡ self.now) }
    {
        let ty = self.ty.copy()?;
        Ok(Part {
            arg: self.arg,
            lo: self.lo,
            ty,
        })
    }
}
