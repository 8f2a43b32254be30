//! The design of a file from `@chain` down.
ghost use Rattle.std.specs.Prelude.{◌≡◌, ◌<◌, IfOk, IsSome};
ghost use Rattle.lh_unit.specs.Arena.{contents, unit_count, unit_name_at, kind_at};
ghost use Rattle.lh_unit.specs.Design.{elab, built};
ghost use Rattle.lh_design.specs.Texts.{design_text};
ghost use Rattle.lh_elab.specs.Answer.{IsDesignOf};
ghost use Rattle.lh_selftest_design.specs.Summary.{chain_name};
ghost use Rattle.lh_selftest.specs.SelfTest.{HasDesign};

use lh_design::Design;
use lh_elab::{ElabFault, elab};
use lh_types::memory::NoMemory;
use lh_unit::inst::UnitId;
use lh_unit::module::Module;
use lh_verify::verify::Verified;
use std::alloc::Global;

/// The design of a file that has one from `@chain` down.
pub fn design_of(alloc: Global, file: &Verified) -> Result<Design, NoMemory>
    requires { HasDesign (contents file.now) }
    ensures built { IfOk result (λ d. elab (contents file.now) chain_name ≡ built (design_text file.now d)) }
    ensures design { IfOk result (λ d. IsDesignOf file.now d) }
{
    let module = file.module();
    match elab(alloc, module, top_of(module)) {
        Ok(design) => Ok(design),
        Err(fault) => Err(wanting(fault)),
    }
}

/// The unit `@chain`.
fn top_of(m: &Module) -> UnitId
    requires { HasDesign (contents m.now) }
    ensures within { result.0 < unit_count m.now }
    ensures name { unit_name_at m.now result.0 ≡ chain_name }
    ensures begun { IsSome (kind_at m.now result.0) }
{
    match m.find(b'@', b"chain") {
        Some(unit) => unit,
        None => unreachable!(),
    }
}

/// What is wanting where a top has a design.
fn wanting(fault: ElabFault) -> NoMemory
    requires { fault ≡ ElabFault.OutOfMemory }
{
    match fault {
        ElabFault::OutOfMemory => NoMemory,
        _ => unreachable!(),
    }
}
