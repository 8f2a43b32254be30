//! The file of a chain, from its text to a well-formed module.
ghost use Rattle.std.specs.Prelude.{◌≡◌, ◌≤◌, IfOk};
ghost use Rattle.lh_unit.specs.Arena.{contents};
ghost use Rattle.lh_unit.specs.WellFormed.{IsFaultless, IsSpelled};
ghost use Rattle.lh_verify.specs.Verifying.{HasCause};
ghost use Rattle.lh_selftest.specs.SelfTest.{CanRun, IsChain, IsTextOf, RunsAs};

use lh_read::{TextFault, read};
use lh_selftest_design::generator::generated;
use lh_selftest_laws::laws::{elaborates_law, reading_law, well_formed_law};
use lh_types::memory::NoMemory;
use lh_unit::module::Module;
use lh_verify::verify::{Verified, VerifyCause, VerifyFault, verify};
use std::alloc::Global;

/// The file of a chain of this many links.
pub fn chain(alloc: Global, links: u32) -> Result<Verified, NoMemory>
    requires some { 1 ≤ links }
    requires few { links ≤ 1000 }
    ensures { IfOk result (λ file. IsChain links (contents file)) }
{
    let text = chain_text(alloc, links)?;
    file_of(alloc, &text)
}

/// The text of a chain of this many links, which reads and has no fault.
fn chain_text(alloc: Global, links: u32) -> Result<Vec<u8>, NoMemory>
    requires some { 1 ≤ links }
    requires few { links ≤ 1000 }
    ensures is { IfOk result (λ text. IsTextOf links text.items) }
    ensures can_run { IfOk result (λ text. CanRun text.items) }
{
    reading_law();
    well_formed_law();
    elaborates_law();
    generated(alloc, links)
}

/// The file of a text that reads and has no fault.
fn file_of(alloc: Global, text: &[u8]) -> Result<Verified, NoMemory>
    requires { CanRun text.now }
    ensures { IfOk result (λ file. RunsAs text.now (contents file)) }
{
    match read(alloc, text) {
        Ok(module) => verified(alloc, module),
        Err(fault) => Err(wanting(fault)),
    }
}

/// What is wanting where a text that reads was not read.
fn wanting(fault: TextFault) -> NoMemory
    requires { fault ≡ TextFault.OutOfMemory }
{
    match fault {
        TextFault::OutOfMemory => NoMemory,
        TextFault::Syntax(_) | TextFault::UnitTooLarge(_) | TextFault::DuplicateName(_) => {
            unreachable!()
        }
    }
}

/// Verifies a module that has no fault.
fn verified(alloc: Global, m: Module) -> Result<Verified, NoMemory>
    requires spelled { IsSpelled (contents m) }
    requires faultless { IsFaultless (contents m) }
    ensures { IfOk result (λ file. file ≡ m) }
{
    match verify(alloc, m) {
        Ok(file) => Ok(file),
        Err(fault) => Err(wanting_at(fault)),
    }
}

/// What is wanting where a module that has no fault was not verified.
fn wanting_at(fault: VerifyFault) -> NoMemory
    requires cause { HasCause fault.cause fault.«module» }
    requires faultless { IsFaultless (contents fault.«module») }
{
    match fault.cause {
        VerifyCause::OutOfMemory => NoMemory,
        VerifyCause::Invalid(_) => unreachable!(),
    }
}
