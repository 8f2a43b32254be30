//! One instruction after the other.
ghost use Rattle.std.specs.Prelude.{◌≡◌, ◌<◌, ◌^◌, ℕ, length, IfOk};
ghost use Rattle.lh_unit.specs.Activation as act;
ghost use Rattle.lh_unit.specs.Activation.{Point, executes};
ghost use Rattle.lh_unit.specs.Arena.{InstPlaced, contents, naming, unit_text_at};
ghost use Rattle.lh_unit.specs.Naming.{inst_text, maybe_text};
ghost use Rattle.lh_unit.specs.WellFormed.{IsWellFormed};
ghost use Rattle.lh_eval.specs.Holding.{MaybeIn};
ghost use Rattle.lh_exec.specs.Standing.{MachineIs, InstLeads, Does, scene_of};
ghost use Rattle.lh_exec.specs.Sound.{LineRight, MachineFits, PointFits, Finishes};

use crate::machine::{Flow, Machine};
use lh_bits::bits::Bits;
use lh_time::Instant;
use lh_types::memory::NoMemory;
use lh_unit::inst::{Inst, ValueId};
use lh_unit::module::Module;
use std::alloc::Global;

impl Machine {
    /// Runs at most so many instructions; `Lost` where they do not come to an end of the activation.
    pub(crate) fn run(
        &mut self,
        alloc: Global,
        m: &Module,
        now: &Bits,
        at: Instant,
        limit: u32,
    ) -> Result<Flow, NoMemory>
        requires formed { IsWellFormed (contents m.now) }
        requires few { length now.now < 2 ^ 32 }
        requires fit { MachineFits m.now (length now.now) self.old }
        ensures { (u : ℕ) (p : Point) → MachineIs m.now self.old p → PointFits (contents m.now) (length now.now) (unit_text_at m.now u) p → IfOk result (λ fl. Finishes m.now u (length now.now) at self.new fl (act.run limit (scene_of m.now now.now at) p)) }
    {
        for i in 0..limit {
            let flow = self.step(alloc, m, now, at)?;
            if !flow.goes() {
                return Ok(flow);
            }
        }
        Ok(Flow::Lost)
    }

    /// Runs the instruction that comes next.
    fn step(&mut self, alloc: Global, m: &Module, now: &Bits, at: Instant) -> Result<Flow, NoMemory>
        requires formed { IsWellFormed (contents m.now) }
        requires few { length now.now < 2 ^ 32 }
        requires fit { MachineFits m.now (length now.now) self.old }
        ensures { Does result m.now self.old self.new (act.step (scene_of m.now now.now at)) }
    {
        let unit = self.frame.unit;
        let insts = m.insts(unit, self.frame.block);
        if self.frame.next >= insts.len() {
            return Ok(Flow::Lost);
        }
        let id = insts[self.frame.next];
        self.frame.next += 1;
        let name = m.result_of(unit, id);
        self.execute(alloc, m, now, at, m.inst(unit, id), name)
    }

    /// Runs an instruction that gives the value of this name. The frame is already past it.
    fn execute(
        &mut self,
        alloc: Global,
        m: &Module,
        now: &Bits,
        at: Instant,
        inst: &Inst,
        name: Option<ValueId>,
    ) -> Result<Flow, NoMemory>
        requires few { length now.now < 2 ^ 32 }
        requires formed { IsWellFormed (contents m.now) }
        requires placed { InstPlaced m.now self.old.frame.unit.0 inst.now }
        requires name { MaybeIn self.old.frame.slots name }
        requires right { LineRight (contents m.now) (unit_text_at m.now self.old.frame.unit.0) (record { result = maybe_text (naming m.now self.old.frame.unit.0) name; inst = inst_text (naming m.now self.old.frame.unit.0) inst.now }) }
        requires fit { MachineFits m.now (length now.now) self.old }
        ensures { let f = naming m.now self.old.frame.unit.0 in Does result m.now self.old self.new (executes (scene_of m.now now.now at) (inst_text f inst.now) (maybe_text f name)) }
    {
        match inst {
            Inst::Const(value) => self.run_const(value, name),
            Inst::Pure { op, args } => self.run_pure(alloc, m, op, args.as_slice(), name),
            Inst::Var(initial) => self.run_var(initial, name),
            Inst::Ld(pointer) => self.run_ld(pointer, name),
            Inst::St { to, value } => self.run_st(to, *value),
            Inst::Prb(signal) => self.run_prb(alloc, now, signal, name),
            Inst::Drv {
                to,
                value,
                after,
                cond,
            } => self.run_drv(alloc, at, to, *value, *after, *cond),
            Inst::Call {
                unit,
                result: _,
                args,
            } => self.run_call(alloc, m, *unit, args.as_slice(), name),
            Inst::Phi { ty: _, edges: _ } => Ok(Flow::Goes),
            Inst::Br(to) => self.enter(m, *to),
            Inst::Branch { cond, zero, one } => self.run_branch(m, *cond, *zero, *one),
            Inst::Wait { to, after, signals } => {
                self.run_wait(alloc, at, *to, *after, signals.as_slice())
            }
            Inst::Halt => Ok(self.run_halt()),
            Inst::Ret(operand) => self.run_ret(operand),
            _ => Ok(Flow::Lost),
        }
    }
}
