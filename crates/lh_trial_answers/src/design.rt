//! A text from its bytes to a well-formed file and to a design, and what is asked of that.
ghost use Rattle.std.specs.Prelude.{◌≡◌, IfSome};
ghost use Rattle.lh_elab.specs.Answer.{IsDesignOf};

use crate::answer::{number, said, shown};
use crate::program::Program;
use crate::stepped::{sensed, stepped};
use crate::watched::watched;
use lh_design::Design;
use lh_elab::elab;
use lh_read::read;
use lh_trial_reference::naive::defined;
use lh_types::memory::NoMemory;
use lh_unit::module::Module;
use lh_verify::verify::{Verified, verify};
use std::alloc::Global;

/// The most bytes of a text.
const LIMIT: usize = 67_108_864;

/// The file of a text, if it reads.
pub fn file_of(alloc: Global, text: &[u8]) -> Option<Module> {
    if text.len() > LIMIT {
        return None;
    }
    match read(alloc, text) {
        Ok(module) => Some(module),
        Err(_) => None,
    }
}

/// The well-formed file of a text, if it is one.
#[tactic(auto, using(lh_text_laws::proofs::Readings::every_reading_is_spelled))]
fn load(alloc: Global, text: &[u8]) -> Option<Verified> {
    if text.len() > LIMIT {
        return None;
    }
    let Ok(module) = read(alloc, text) else {
        return None;
    };
    match verify(alloc, module) {
        Ok(file) => Some(file),
        Err(_) => None,
    }
}

/// The design of the unit of a name, if it has one.
fn design_of(alloc: Global, file: &Verified, name: &str) -> Option<Design>
    ensures { IfSome result (λ d. IsDesignOf file.now d) }
{
    let m = file.module();
    let top = m.find(b'@', name.as_bytes())?;
    if m.kind(top).is_none() {
        return None;
    }
    match elab(alloc, m, top) {
        Ok(design) => Some(design),
        Err(_) => None,
    }
}

/// The answer to a question about the design of a top; where there is none, what the program says of that top.
pub fn of_top<P: Program>(
    alloc: Global,
    program: &P,
    asked: &str,
    words: &str,
    text: &[u8],
) -> Result<Vec<u8>, NoMemory> {
    let (top, words) = words.split_once(' ').unwrap_or((words, ""));
    match load(alloc, text) {
        Some(file) => {
            let answer = of_file(alloc, program, asked, top, words, &file, text);
            drop(file);
            answer
        }
        None => shown(alloc, program, "check", text),
    }
}

/// The answer to a question about the design of a top of a file.
fn of_file<P: Program>(
    alloc: Global,
    program: &P,
    asked: &str,
    top: &str,
    words: &str,
    file: &Verified,
    text: &[u8],
) -> Result<Vec<u8>, NoMemory> {
    let Some(design) = design_of(alloc, file, top) else {
        let words = format!(in alloc; "simulate --top {top} --steps 1")?;
        return shown(alloc, program, words.as_str(), text);
    };
    let m = file.module();
    match asked {
        "design" => counted(alloc, design),
        "definition" => beside_definition(alloc, m, design, number(words)),
        "senses" => sensed(alloc, m, design, number(words)),
        _ => watched(alloc, m, design, words),
    }
}

/// How many instances, signals and bits a design has.
fn counted(alloc: Global, design: Design) -> Result<Vec<u8>, NoMemory> {
    let instances = design.instances().len();
    let signals = design.signals().len();
    let bits = design.init().len();
    drop(design);
    let text = format!(in alloc; "instances {instances}\nsignals {signals}\nbits {bits}\n")?;
    Ok(text.into_bytes())
}

/// Whether the frames of the simulation are those of the definition; where not, both.
fn beside_definition(
    alloc: Global,
    m: &Module,
    design: Design,
    steps: u32,
) -> Result<Vec<u8>, NoMemory>
    requires { IsDesignOf m.now design }
{
    let defined = defined(alloc, m, &design, steps)?;
    let simulated = stepped(alloc, m, design, steps)?;
    if defined.as_slice() == simulated.as_slice() {
        return said(alloc, b"the same\n");
    }
    both(alloc, &defined, &simulated)
}

fn both(alloc: Global, defined: &[u8], simulated: &[u8]) -> Result<Vec<u8>, NoMemory> {
    let mut to = Vec::from_slice(alloc, b"defined\n")?;
    to.extend_from_slice(defined)?;
    to.extend_from_slice(b"simulated\n")?;
    to.extend_from_slice(simulated)?;
    Ok(to)
}
