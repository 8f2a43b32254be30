//! What is still to be emitted.
ghost use Rattle.std.specs.Prelude.{◌≡◌, ◌∷◌, ◌++◌, [], map, IfOk, OnOk};
ghost use Rattle.lh_emit.specs.Underway.{tops};

use lh_term::term::TermId;
use lh_types::memory::NoMemory;
use std::alloc::Global;

/// What a term needs and then the term, or the term alone.
#[derive(Clone, Copy, Debug, PartialEq, Eq)]
pub enum Task {
    Need(TermId),
    Make(TermId),
}

/// A stack with need of a term.
pub fn need_alone(alloc: Global, term: TermId) -> Result<Vec<Task>, NoMemory>
    ensures { IfOk result (λ tasks. tops tasks.items ≡ Task.Need term ∷ []) }
{
    let mut tasks = Vec::new(alloc);
    push(&mut tasks, Task::Need(term))?;
    Ok(tasks)
}

/// Puts need of these terms on a stack, the first on top.
pub fn push_needs(tasks: &mut Vec<Task>, terms: &[TermId]) -> Result<(), NoMemory>
    ensures { OnOk result (tops tasks.new.items ≡ map Task.Need terms.now ++ tops tasks.old.items) }
{
    let mut k = terms.len();
    while k > 0 {
        k -= 1;
        push(tasks, Task::Need(terms[k]))?;
    }
    Ok(())
}

/// Puts a task on top.
pub fn push(tasks: &mut Vec<Task>, task: Task) -> Result<(), NoMemory>
    ensures { OnOk result (tops tasks.new.items ≡ task ∷ tops tasks.old.items) }
{
    tasks.push(task)?;
    Ok(())
}
