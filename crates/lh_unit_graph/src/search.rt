//! The search of a graph of units, depth first. Its stack is on the heap, so a long chain of units is no danger, and what it knows of a
//! unit serves every further question.
ghost use Rattle.std.specs.Prelude.{◌≡◌, ◌<◌, ◌^◌, ◌-◌, ◌∷◌, [], length, vec_len, slice_get, IsSome, IfOk, Ok};
ghost use Rattle.lh_unit_graph.specs.Measures.{targets_at, NodesWithin, Measures};
ghost use Rattle.lh_unit_graph.specs.Searches.{mark_at, entered, passed, OpenUnitsAreMarked, IsSettled, StartsSettled, Settles, Opens, Finishes, Passed, Done, Steps};

use crate::fault::DescentFault;
use crate::measured::Measured;
use lh_types::memory::NoMemory;
use lh_unit::inst::UnitId;
use std::alloc::Global;

/// What is known of a unit.
#[derive(Clone, Copy)]
enum Mark<M> {
    /// It was not met yet.
    New,
    /// It is open: the search is below it.
    Opened,
    /// The search has left it.
    Done(M),
}

/// An open unit.
#[derive(Clone, Copy)]
struct OpenUnit<M> {
    unit: UnitId,
    /// How many of its targets the search has left.
    next: usize,
    /// The measure of those.
    inside: M,
}

/// The marks of all units, and the open units, the innermost last.
#[derive(Drop)]
pub struct UnitSearch<M> {
    marks: Vec<Mark<M>>,
    stack: Vec<OpenUnit<M>>,
}

/// The next target of an open unit.
fn next_target<M: Measured>(nodes: &[M::Node], frame: OpenUnit<M>) -> Option<UnitId>
    requires { frame.unit.0 < length nodes.now }
    ensures target { result ≡ slice_get (targets_at M.measuring nodes.now frame.unit.0) frame.next }
    ensures next { IsSome result → frame.next < 2 ^ 64 - 1 }
{
    let targets = M::targets(&nodes[frame.unit.0 as usize]);
    targets.get(frame.next).copied()
}

impl<M: Measured> UnitSearch<M> {
    /// Of these units none was met yet.
    pub fn new(alloc: Global, units: usize) -> Result<UnitSearch<M>, NoMemory>
        ensures { IfOk result (StartsSettled M.measuring units) }
    {
        let mut marks = Vec::new(alloc);
        for _unit in 0..units {
            marks.push(Mark::New)?;
        }
        Ok(UnitSearch {
            marks,
            stack: Vec::new(alloc),
        })
    }

    /// The measure of a unit with all that it reaches.
    ///
    /// `Cycle` comes exactly where a unit that it reaches reaches itself, and names the target of the first edge, depth first, that leads to
    /// an open unit. Work grows with the graph, and not with the number of ways through it; a unit that was left before costs nothing.
    pub fn measure_of(&mut self, nodes: &[M::Node], top: UnitId) -> Result<M, DescentFault>
        requires within { NodesWithin M.measuring nodes.now }
        requires top { top.0 < length nodes.now }
        requires settled { IsSettled M.measuring nodes.now self.old }
        ensures measures { Measures M.measuring nodes.now top.0 result }
        ensures settled { IsSettled M.measuring nodes.now self.new }
    {
        match self.marks[top.0 as usize] {
            Mark::New => self.search(nodes, top),
            Mark::Opened => unreachable!(),
            Mark::Done(measure) => Ok(measure),
        }
    }

    /// The measure of a unit that was not met.
    fn search(&mut self, nodes: &[M::Node], top: UnitId) -> Result<M, DescentFault>
        requires within { NodesWithin M.measuring nodes.now }
        requires top { top.0 < length nodes.now }
        requires settled { IsSettled M.measuring nodes.now self.old }
        requires unmet { mark_at self.old.marks.items top.0 ≡ Mark.New }
        ensures measures { Measures M.measuring nodes.now top.0 result }
        ensures settled { IsSettled M.measuring nodes.now self.new }
    {
        self.begin(top)?;
        while let Some(frame) = self.stack.pop() {
            if let Err(fault) = self.step(nodes, frame) {
                self.close(frame);
                return Err(fault);
            }
        }
        match self.marks[top.0 as usize] {
            Mark::Done(measure) => Ok(measure),
            _ => unreachable!(),
        }
    }

    /// Opens the unit at which a search begins.
    fn begin(&mut self, top: UnitId) -> Result<(), DescentFault>
        requires { top.0 < vec_len self.old.marks }
        ensures { Done result self.old self.new (Opens M.measuring [] top self.old self.new) }
    {
        match self.stack.push(OpenUnit::new(top)) {
            Ok(()) => {
                self.marks[top.0 as usize] = Mark::Opened;
                Ok(())
            }
            Err(_) => Err(DescentFault::OutOfMemory),
        }
    }

    /// Gives the search up below an open unit, which was taken from the stack: no unit is open then.
    fn close(&mut self, frame: OpenUnit<M>)
        requires { OpenUnitsAreMarked self.old frame }
        ensures { Settles M.measuring self.old self.new frame }
    {
        self.marks[frame.unit.0 as usize] = Mark::New;
        while let Some(frame) = self.stack.pop() {
            self.marks[frame.unit.0 as usize] = Mark::New;
        }
    }

    /// One step below the innermost open unit, which was taken from the stack.
    fn step(&mut self, nodes: &[M::Node], frame: OpenUnit<M>) -> Result<(), DescentFault>
        requires unit { frame.unit.0 < length nodes.now }
        requires marks { vec_len self.old.marks ≡ length nodes.now }
        requires within { NodesWithin M.measuring nodes.now }
        ensures { Steps M.measuring nodes.now frame self.old self.new result }
    {
        let Some(target) = next_target(nodes, frame) else {
            self.finish(frame, &nodes[frame.unit.0 as usize]);
            return Ok(());
        };
        match self.marks[target.0 as usize] {
            Mark::New => self.enter(frame, target),
            Mark::Opened => Err(DescentFault::Cycle(target)),
            Mark::Done(measure) => self.pass(frame, measure),
        }
    }

    /// Leaves a unit that has no more targets.
    fn finish(&mut self, frame: OpenUnit<M>, node: &M::Node)
        requires { frame.unit.0 < vec_len self.old.marks }
        ensures { Finishes M.measuring frame node.now self.old self.new }
    {
        self.marks[frame.unit.0 as usize] = Mark::Done(frame.inside.around(node));
    }

    /// Goes into a target.
    fn enter(&mut self, frame: OpenUnit<M>, target: UnitId) -> Result<(), DescentFault>
        requires { target.0 < vec_len self.old.marks }
        ensures { Done result self.old self.new (Opens M.measuring (frame ∷ []) target self.old self.new) }
    {
        match self.stack.reserve(2) {
            Ok(()) => {
                self.stack.push_reserved(frame);
                self.stack.push_reserved(OpenUnit::new(target));
                self.marks[target.0 as usize] = Mark::Opened;
                Ok(())
            }
            Err(_) => Err(DescentFault::OutOfMemory),
        }
    }

    /// Passes a target that the search has left.
    fn pass(&mut self, frame: OpenUnit<M>, measure: M) -> Result<(), DescentFault>
        requires { frame.next < 2 ^ 64 - 1 }
        ensures { Done result self.old self.new (Passed M.measuring frame measure self.old self.new) }
    {
        match self.stack.push(frame.past(measure)) {
            Ok(()) => Ok(()),
            Err(_) => Err(DescentFault::OutOfMemory),
        }
    }
}

impl<M: Measured> OpenUnit<M> {
    /// A unit that is just opened.
    fn new(unit: UnitId) -> OpenUnit<M>
        ensures { result ≡ entered M.measuring unit }
    {
        OpenUnit {
            unit,
            next: 0,
            inside: M::nothing(),
        }
    }

    /// Its next target has this measure.
    fn past(self, measure: M) -> OpenUnit<M>
        requires { self.next < 2 ^ 64 - 1 }
        ensures { result ≡ passed M.measuring self measure }
    {
        OpenUnit {
            unit: self.unit,
            next: self.next + 1,
            inside: self.inside.beside(measure),
        }
    }
}
