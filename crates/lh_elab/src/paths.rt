//! The label and the path of an instance.
ghost use Rattle.std.specs.Prelude.{◌≡◌, ℕ, ◌<◌, ◌++◌, ◌∷◌, [], length, IfOk, OnOk};
ghost use Rattle.lh_unit.specs.Paths.{shown_in, label_at, path_at};
ghost use Rattle.lh_unit.specs.Within.{Each};
ghost use Rattle.lh_design.specs.Texts.{design_text};
ghost use Rattle.lh_elab.specs.Answer.{IsDesignOf};
ghost use Rattle.lh_elab.specs.Climbing.{parent_at, dotted};

use lh_design::Design;
use lh_types::memory::NoMemory;
use lh_types::text::{put, put_number};
use lh_unit::module::Module;
use std::alloc::Global;

/// The label of an instance: the name of its unit without the sigil; of any but the top with `_` and its number behind it.
pub fn label_of(alloc: Global, m: &Module, d: &Design, instance: u32) -> Result<Vec<u8>, NoMemory>
    requires design { IsDesignOf m.now d.now }
    requires known { instance < length d.now.instances.items }
    ensures { IfOk result (λ t. t.items ≡ label_at (shown_in (design_text m.now d.now)) instance) }
{
    let mut text = Vec::new(alloc);
    put_label(&mut text, m, d, instance)?;
    Ok(text)
}

/// Puts the label of an instance at the end of a text.
fn put_label(to: &mut Vec<u8>, m: &Module, d: &Design, instance: u32) -> Result<(), NoMemory>
    requires design { IsDesignOf m.now d.now }
    requires known { instance < length d.now.instances.items }
    ensures { OnOk result (to.new.items ≡ to.old.items ++ label_at (shown_in (design_text m.now d.now)) instance) }
{
    let shown = &d.instances()[instance as usize];
    put(to, m.unit_name(shown.unit).name.as_bytes())?;
    if shown.parent.is_some() {
        put(to, b"_")?;
        put_number(to, instance as u64)?;
    }
    Ok(())
}

/// The path of an instance: the labels from the top down to its own, with a dot between each two.
pub fn path_of(alloc: Global, m: &Module, d: &Design, instance: u32) -> Result<Vec<u8>, NoMemory>
    requires design { IsDesignOf m.now d.now }
    requires known { instance < length d.now.instances.items }
    ensures { IfOk result (λ t. t.items ≡ path_at (shown_in (design_text m.now d.now)) instance) }
{
    let mut below = Vec::new(alloc);
    let mut path = climb(&mut below, alloc, m, d, instance)?;
    put_below(&mut path, m, d, below)?;
    Ok(path)
}

/// The label of the top; the instances from this one up to it, without it, are added to `below`.
fn climb(
    below: &mut Vec<u32>,
    alloc: Global,
    m: &Module,
    d: &Design,
    instance: u32,
) -> Result<Vec<u8>, NoMemory>
    requires design { IsDesignOf m.now d.now }
    requires known { instance < length d.now.instances.items }
    requires empty { below.old.items ≡ [] }
    ensures path { IfOk result (λ top. path_at (shown_in (design_text m.now d.now)) instance ≡ top.items ++ dotted (shown_in (design_text m.now d.now)) below.new.items) }
    ensures known { IfOk result (λ top. Each (λ (k : ℕ). k < length d.now.instances.items) below.new.items) }
{
    let mut at = instance;
    while let Some(parent) = parent_of(d, at) {
        push_number(below, at)?;
        at = parent;
    }
    label_of(alloc, m, d, at)
}

fn parent_of(d: &Design, instance: u32) -> Option<u32>
    requires { instance < length d.now.instances.items }
    ensures { result ≡ parent_at d.now.instances.items instance }
{
    d.instances()[instance as usize].parent
}

/// Puts the labels of instances, the last of them first, at the end of a path, with a dot before each.
fn put_below(
    path: &mut Vec<u8>,
    m: &Module,
    d: &Design,
    mut below: Vec<u32>,
) -> Result<(), NoMemory>
    requires design { IsDesignOf m.now d.now }
    requires known { Each (λ (k : ℕ). k < length d.now.instances.items) below.items }
    ensures { OnOk result (path.new.items ≡ path.old.items ++ dotted (shown_in (design_text m.now d.now)) below.items) }
{
    while let Some(next) = below.pop() {
        put(path, b".")?;
        put_label(path, m, d, next)?;
    }
    Ok(())
}

fn push_number(numbers: &mut Vec<u32>, number: u32) -> Result<(), NoMemory>
    ensures { OnOk result (numbers.new.items ≡ numbers.old.items ++ number ∷ []) }
{
    numbers.push(number)?;
    Ok(())
}
