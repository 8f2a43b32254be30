//! Printing and reading again, by the calls: what is read is spelled, and what is printed of a spelled module reads
//! as its contents.
#![tactic(auto)]

ghost use Rattle.std.specs.Prelude.{◌≡◌, ◌≤◌, List, length, IfOk, IfErr};
ghost use Rattle.lh_unit.specs.Contents.{ItemText};
ghost use Rattle.lh_unit.specs.Arena.{contents};
ghost use Rattle.lh_unit.specs.Canon.{canon};
ghost use Rattle.lh_unit.specs.Reads.{Reads};
ghost use Rattle.lh_unit.specs.WellFormed.{IsSpelled};
ghost use Rattle.lh_read.specs.Reading.{ModuleOrNoMemory, NamesFirstFault};

use lh_print::print;
use lh_read::{TextFault, read};
use lh_unit::module::Module;
use std::alloc::Global;

/// Reads a text, as `read` does: the module that it answers is spelled, so that its canonical text reads as it.
pub fn read_spelled(alloc: Global, text: &[u8]) -> Result<Module, TextFault>
    requires { length text.now ≤ 67108864 }
    ensures ok { IfOk result (λ m. Reads text.now (contents m)) }
    ensures only { (items : List ItemText) → Reads text.now items → ModuleOrNoMemory result items }
    ensures spelled { IfOk result (λ m. IsSpelled (contents m)) }
    ensures fault { IfErr result (λ e. NamesFirstFault e text.now) }
{
    read(alloc, text)
}

/// Prints a module that is spelled and reads the text: the module again, or out of memory.
pub fn print_and_read(alloc: Global, m: &Module) -> Result<Module, TextFault>
    requires spelled { IsSpelled (contents m.now) }
    requires short { length (canon (contents m.now)) ≤ 67108864 }
    ensures { ModuleOrNoMemory result (contents m.now) }
{
    match print(alloc, m) {
        Ok(text) => read(alloc, &text),
        Err(_) => Err(TextFault::OutOfMemory),
    }
}
