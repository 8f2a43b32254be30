//! The first fault of a module, and modules that have none.
ghost use Rattle.std.specs.Prelude.{◌≡◌, IfOk, OnOk};
ghost use Rattle.lh_unit.specs.Arena.{contents};
ghost use Rattle.lh_unit.specs.WellFormed.{IsSpelled, IsWellFormed};
ghost use Rattle.lh_verify.specs.FirstFound.{IsFew};
ghost use Rattle.lh_unit.specs.Placed.{IsItemOf};
ghost use Rattle.lh_verify_values.specs.Numbers.{NumbersGrow, NumbersParams};
ghost use Rattle.lh_verify.specs.Verifying.{Verifies, FirstFaultOf, FirstFaultOfItem, ItemBegun, named_fault};

use crate::unit::{InstFault, first_fault};
use lh_types::memory::NoMemory;
use lh_unit::inst::{Item, UnitId};
use lh_unit::module::Module;
use lh_verify_values::numbers::Types;
use lh_verify_values::params::{NumberList, params};
use std::alloc::Global;
use std::marker::Model;
use thiserror::Error;

/// A faulty instruction: its unit, its number in the unit from 1, and the number of its lowest fault, from 1 to 8.
#[derive(Clone, Copy, Debug, PartialEq, Eq)]
pub struct Fault {
    pub unit: UnitId,
    pub inst: u32,
    pub number: u8,
}

/// Why a module was not verified.
#[derive(Clone, Copy, Debug, PartialEq, Eq, Error)]
pub enum VerifyCause {
    /// The first faulty instruction in file order, with its lowest fault.
    #[error("instruction {}: fault {}", .0.inst, .0.number)]
    Invalid(Fault),
    /// Memory ran out.
    #[error("out of memory")]
    OutOfMemory,
}

/// A module that was not verified, as it was handed in, and why.
#[derive(Drop, Error)]
#[derive_where(Debug)]
#[error("{cause}")]
pub struct VerifyFault {
    #[derive_where(skip)]
    pub module: Module,
    pub cause: VerifyCause,
}

/// A module that is well formed: it is spelled, and no instruction has a fault.
#[derive(Drop)]
pub struct Verified {
    module: Module,
}

impl Model for Verified {
    ghost use Rattle.std.specs.Coded.{codes};
    ghost use Rattle.lh_types.specs.Types.{type_coded};
    ghost use Rattle.lh_types.specs.Values.{datum_coded};
    ghost use Rattle.lh_unit.specs.Arena.{Arena, contents};
    ghost use Rattle.lh_unit.specs.WellFormed.{IsWellFormed};

    ghost Value = { Arena };

    ghost coded = { Prim.hlevel (codes, type_coded, datum_coded) };

    ghost view = { λ v. v.module };

    ghost invariant = { λ v. IsWellFormed (contents v.module) };
}

impl Verified {
    /// A module that is known to be well formed.
    pub fn of_well_formed(m: Module) -> Verified
        requires { IsWellFormed (contents m) }
        ensures { result ≡ m }
    {
        Verified { module: m }
    }

    /// The module.
    pub fn module(&self) -> &Module
        ensures module { result.now ≡ self.now }
        ensures formed { IsWellFormed (contents self.now) }
    {
        &self.module
    }

    /// The module, without memory.
    pub fn into_module(self) -> Module
        ensures module { result ≡ self }
        ensures formed { IsWellFormed (contents self) }
    {
        self.module
    }
}

/// Verifies a module that is spelled, as each that is read is: `Ok` exactly where no instruction has a fault, and else
/// `Invalid` with the first faulty instruction in file order and its lowest fault. An error hands the module back as it was.
pub fn verify(alloc: Global, m: Module) -> Result<Verified, VerifyFault>
    requires { IsSpelled (contents m) }
    ensures { Verifies result m }
{
    match find(alloc, &m) {
        Ok(None) => Ok(Verified { module: m }),
        Ok(Some(fault)) => Err(VerifyFault {
            module: m,
            cause: VerifyCause::Invalid(fault),
        }),
        Err(NoMemory) => Err(VerifyFault {
            module: m,
            cause: VerifyCause::OutOfMemory,
        }),
    }
}

/// The first fault of a module, if there is one.
fn find(alloc: Global, m: &Module) -> Result<Option<Fault>, NoMemory>
    ensures { IfOk result (λ fault. FirstFaultOf m.now fault) }
{
    let mut types = Types::new(alloc);
    let numbers = params(alloc, m, &mut types)?;
    find_among(alloc, m, &mut types, numbers.as_slice())
}

/// The first fault of a module, where the numbers of all parameters' types are known.
fn find_among(
    alloc: Global,
    m: &Module,
    types: &mut Types,
    params: &[NumberList],
) -> Result<Option<Fault>, NoMemory>
    requires { NumbersParams types.old m.now params.now }
    ensures { IfOk result (λ fault. FirstFaultOf m.now fault) }
{
    for item in m.items() {
        if let Some(fault) = find_in(alloc, m, item, types, params)? {
            return Ok(Some(fault));
        }
    }
    Ok(None)
}

/// The first fault of an item, if there is one.
fn find_in(
    alloc: Global,
    m: &Module,
    item: &Item,
    types: &mut Types,
    params: &[NumberList],
) -> Result<Option<Fault>, NoMemory>
    requires placed { IsItemOf m.now item.now }
    requires begun { ItemBegun m.now item.now }
    requires params { NumbersParams types.old m.now params.now }
    ensures says { IfOk result (λ fault. FirstFaultOfItem m.now item.now fault) }
    ensures grows { OnOk result (NumbersGrow types.old types.new) }
{
    match item {
        Item::Declare(_) => Ok(None),
        Item::Unit(unit) => {
            let found = first_fault(alloc, m, *unit, types, params)?;
            Ok(fault_of(*unit, found))
        }
    }
}

fn fault_of(unit: UnitId, found: Option<InstFault>) -> Option<Fault>
    requires { IsFew found }
    ensures { result ≡ named_fault unit found }
{
    let found = found?;
    Some(Fault {
        unit,
        inst: found.inst.0 + 1,
        number: found.number,
    })
}
