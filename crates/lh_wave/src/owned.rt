//! What belongs to which instance, by numbers.
ghost use Rattle.std.specs.Prelude.{◌≡◌, ◌<◌, [], ℕ, IfOk, OnOk, length, vec_len};
ghost use Rattle.lh_wave.specs.Owned.{parents, owners, AreOwned, numbers_of, with_number};

use lh_design::{Design, Signal};
use lh_types::memory::NoMemory;
use std::alloc::Global;

/// The numbers of the children of each instance, rising.
pub(crate) fn children_by_parent(alloc: Global, d: &Design) -> Result<Vec<Vec<usize>>, NoMemory>
    ensures { IfOk result (λ lists. AreOwned lists (length d.now.instances.items) (parents d.now)) }
{
    let mut lists = empty_lists(alloc, d.instances().len())?;
    for (number, instance) in d.instances().iter().enumerate() {
        add_number(&mut lists, instance.parent, number)?;
    }
    Ok(lists)
}

/// The numbers of the signals of each instance, rising.
pub(crate) fn signals_by_instance(alloc: Global, d: &Design) -> Result<Vec<Vec<usize>>, NoMemory>
    ensures { IfOk result (λ lists. AreOwned lists (length d.now.instances.items) (owners d.now)) }
{
    let mut lists = empty_lists(alloc, d.instances().len())?;
    for (number, signal) in d.signals().iter().enumerate() {
        add_number(&mut lists, Some(signal.instance), number)?;
    }
    Ok(lists)
}

/// So many lists without a number.
fn empty_lists(alloc: Global, count: usize) -> Result<Vec<Vec<usize>>, NoMemory>
    ensures { IfOk result (λ lists. AreOwned lists count []) }
{
    let mut lists = Vec::with_capacity(alloc, count)?;
    for _place in 0..count {
        lists.push(Vec::new(alloc))?;
    }
    Ok(lists)
}

/// Puts a number at the end of the list of its owner, where it has one and there is such a list.
fn add_number(
    lists: &mut Vec<Vec<usize>>,
    owner: Option<u32>,
    number: usize,
) -> Result<(), NoMemory>
    ensures level { OnOk result (vec_len lists.new ≡ vec_len lists.old) }
    ensures added { OnOk result ((k : ℕ) → k < vec_len lists.old → numbers_of lists.new k ≡ with_number owner number k (numbers_of lists.old k)) }
{
    let Some(owner) = owner else {
        return Ok(());
    };
    let k = owner as usize;
    if k >= lists.len() {
        return Ok(());
    }
    lists[k].push(number)?;
    Ok(())
}

/// The numbers of an owner.
pub(crate) fn numbers_at(lists: &Vec<Vec<usize>>, owner: usize) -> &[usize]
    requires { owner < vec_len lists.now }
    ensures { result.now ≡ numbers_of lists.now owner }
{
    lists[owner].as_slice()
}
