//! Instructions, with ids in place of names.
//!
//! Each call answers `NoMemory` as the calls of `ids` do; of the module nothing is said then.
ghost use Rattle.std.specs.Prelude.{◌<◌, map, IfOk};
ghost use Rattle.lh_unit.specs.Arena.{unit_count};
ghost use Rattle.lh_unit.specs.Contents.{pure_text, var_text, ld_text, st_text, sig_text, prb_text, drv_text, reg_text, child_text, call_text, phi_text, br_text, branch_text, wait_text, ret_text};
ghost use Rattle.lh_read_pieces.specs.LexemeOf.{unit_name_of};
ghost use Rattle.lh_read_phrases.specs.SyntaxOf.{operand_of, maybe_operand_of, operands_of, trigger_of, edge_of, inst_of};
ghost use Rattle.lh_read.specs.Placing.{InstPlacedAs};

use crate::ids::Resolver;
use lh_read_phrases::syntax::{EdgeSyntax, InstSyntax, Operand, TriggerSyntax};
use lh_read_pieces::tokens::{NameText, UnitNameText};
use lh_types::few::FewOf;
use lh_types::list::ListOf;
use lh_types::memory::NoMemory;
use lh_types::op::Op;
use lh_types::ty::Ty;
use lh_unit::constant::Constant;
use lh_unit::inst::{Inst, UnitId};

impl Resolver {
    /// The instruction, with ids in place of names.
    pub fn instruction(&mut self, unit: UnitId, inst: InstSyntax) -> Result<Inst, NoMemory>
        requires { unit.0 < unit_count self.old.module }
        ensures { IfOk result (λ i. InstPlacedAs self.old.module self.new.module unit i (inst_of inst.entry)) }
    {
        match inst {
            InstSyntax::Pure { op, args } => self.pure(unit, op, args),
            inst => self.any_instruction(unit, inst),
        }
    }

    /// Any instruction with ids in place of names. It stands apart, since most are operations, and all forms together take a large frame.
    #[inline(never)]
    fn any_instruction(&mut self, unit: UnitId, inst: InstSyntax) -> Result<Inst, NoMemory>
        requires { unit.0 < unit_count self.old.module }
        ensures { IfOk result (λ i. InstPlacedAs self.old.module self.new.module unit i (inst_of inst.entry)) }
    {
        match inst {
            InstSyntax::Const(value) => Ok(Inst::Const(Constant::new(self.alloc, value)?)),
            InstSyntax::Pure { op, args } => self.pure(unit, op, args),
            InstSyntax::Var(of) => self.var(unit, of),
            InstSyntax::Ld(of) => self.ld(unit, of),
            InstSyntax::St { to, value } => self.st(unit, to, &value),
            InstSyntax::Sig(of) => self.sig(unit, of),
            InstSyntax::Prb(of) => self.prb(unit, of),
            InstSyntax::Drv {
                to,
                value,
                after,
                cond,
            } => self.drv(unit, to, &value, &after, &cond),
            InstSyntax::Reg { to, triggers: by } => self.reg(unit, to, by.as_slice()),
            InstSyntax::Child {
                unit: name,
                inputs,
                outputs,
            } => self.child(unit, &name, inputs, outputs),
            InstSyntax::Call {
                unit: name,
                result,
                args,
            } => self.call(unit, &name, result, args),
            InstSyntax::Phi { ty, edges: from } => self.phi(unit, ty, from.as_slice()),
            InstSyntax::Br(to) => self.br(unit, &to),
            InstSyntax::Branch { cond, zero, one } => self.branch(unit, &cond, &zero, &one),
            InstSyntax::Wait {
                to,
                after,
                signals: named,
            } => self.wait(unit, &to, &after, named.as_slice()),
            InstSyntax::Halt => Ok(Inst::Halt),
            InstSyntax::Ret(of) => self.ret(unit, of),
        }
    }

    fn pure(&mut self, unit: UnitId, op: Op, args: FewOf<Operand>) -> Result<Inst, NoMemory>
        requires { unit.0 < unit_count self.old.module }
        ensures { IfOk result (λ i. InstPlacedAs self.old.module self.new.module unit i (pure_text op (operands_of args.entry))) }
    {
        let args = self.few_operands(unit, args)?;
        Ok(Inst::Pure { op, args })
    }

    fn var(&mut self, unit: UnitId, of: Operand) -> Result<Inst, NoMemory>
        requires { unit.0 < unit_count self.old.module }
        ensures { IfOk result (λ i. InstPlacedAs self.old.module self.new.module unit i (var_text (operand_of of.entry))) }
    {
        Ok(Inst::Var(self.operand(unit, of)?))
    }

    fn ld(&mut self, unit: UnitId, of: Operand) -> Result<Inst, NoMemory>
        requires { unit.0 < unit_count self.old.module }
        ensures { IfOk result (λ i. InstPlacedAs self.old.module self.new.module unit i (ld_text (operand_of of.entry))) }
    {
        Ok(Inst::Ld(self.operand(unit, of)?))
    }

    fn st(&mut self, unit: UnitId, to: Operand, value: &NameText) -> Result<Inst, NoMemory>
        requires { unit.0 < unit_count self.old.module }
        ensures { IfOk result (λ i. InstPlacedAs self.old.module self.new.module unit i (st_text (operand_of to.entry) value.now)) }
    {
        let to = self.operand(unit, to)?;
        let value = self.value_id(unit, value)?;
        Ok(Inst::St { to, value })
    }

    fn sig(&mut self, unit: UnitId, of: Operand) -> Result<Inst, NoMemory>
        requires { unit.0 < unit_count self.old.module }
        ensures { IfOk result (λ i. InstPlacedAs self.old.module self.new.module unit i (sig_text (operand_of of.entry))) }
    {
        Ok(Inst::Sig(self.operand(unit, of)?))
    }

    fn prb(&mut self, unit: UnitId, of: Operand) -> Result<Inst, NoMemory>
        requires { unit.0 < unit_count self.old.module }
        ensures { IfOk result (λ i. InstPlacedAs self.old.module self.new.module unit i (prb_text (operand_of of.entry))) }
    {
        Ok(Inst::Prb(self.operand(unit, of)?))
    }

    fn drv(
        &mut self,
        unit: UnitId,
        to: Operand,
        value: &NameText,
        after: &NameText,
        cond: &Option<NameText>,
    ) -> Result<Inst, NoMemory>
        requires { unit.0 < unit_count self.old.module }
        ensures { IfOk result (λ i. InstPlacedAs self.old.module self.new.module unit i (drv_text (operand_of to.entry) value.now after.now cond.now)) }
    {
        let to = self.operand(unit, to)?;
        let value = self.value_id(unit, value)?;
        let after = self.value_id(unit, after)?;
        let cond = self.maybe_id(unit, cond)?;
        Ok(Inst::Drv {
            to,
            value,
            after,
            cond,
        })
    }

    fn reg(&mut self, unit: UnitId, to: Operand, by: &[TriggerSyntax]) -> Result<Inst, NoMemory>
        requires { unit.0 < unit_count self.old.module }
        ensures { IfOk result (λ i. InstPlacedAs self.old.module self.new.module unit i (reg_text (operand_of to.entry) (map trigger_of by.now))) }
    {
        let to = self.operand(unit, to)?;
        let triggers = self.triggers(unit, by)?;
        Ok(Inst::Reg { to, triggers })
    }

    fn child(
        &mut self,
        unit: UnitId,
        name: &UnitNameText,
        inputs: ListOf<Operand>,
        outputs: ListOf<Operand>,
    ) -> Result<Inst, NoMemory>
        requires { unit.0 < unit_count self.old.module }
        ensures { IfOk result (λ i. InstPlacedAs self.old.module self.new.module unit i (child_text (unit_name_of name.now) (operands_of inputs.entry) (operands_of outputs.entry))) }
    {
        let of = self.unit_id(name)?;
        let inputs = self.operands(unit, inputs)?;
        let outputs = self.operands(unit, outputs)?;
        Ok(Inst::Child {
            unit: of,
            inputs,
            outputs,
        })
    }

    fn call(
        &mut self,
        unit: UnitId,
        name: &UnitNameText,
        ty: Ty,
        args: ListOf<Operand>,
    ) -> Result<Inst, NoMemory>
        requires { unit.0 < unit_count self.old.module }
        ensures { IfOk result (λ i. InstPlacedAs self.old.module self.new.module unit i (call_text (unit_name_of name.now) ty (operands_of args.entry))) }
    {
        let of = self.unit_id(name)?;
        let args = self.operands(unit, args)?;
        Ok(Inst::Call {
            unit: of,
            result: ty,
            args,
        })
    }

    fn phi(&mut self, unit: UnitId, ty: Ty, from: &[EdgeSyntax]) -> Result<Inst, NoMemory>
        requires { unit.0 < unit_count self.old.module }
        ensures { IfOk result (λ i. InstPlacedAs self.old.module self.new.module unit i (phi_text ty (map edge_of from.now))) }
    {
        let edges = self.edges(unit, from)?;
        Ok(Inst::Phi { ty, edges })
    }

    fn br(&mut self, unit: UnitId, to: &NameText) -> Result<Inst, NoMemory>
        requires { unit.0 < unit_count self.old.module }
        ensures { IfOk result (λ i. InstPlacedAs self.old.module self.new.module unit i (br_text to.now)) }
    {
        Ok(Inst::Br(self.label_id(unit, to)?))
    }

    fn branch(
        &mut self,
        unit: UnitId,
        cond: &NameText,
        zero: &NameText,
        one: &NameText,
    ) -> Result<Inst, NoMemory>
        requires { unit.0 < unit_count self.old.module }
        ensures { IfOk result (λ i. InstPlacedAs self.old.module self.new.module unit i (branch_text cond.now zero.now one.now)) }
    {
        let cond = self.value_id(unit, cond)?;
        let zero = self.label_id(unit, zero)?;
        let one = self.label_id(unit, one)?;
        Ok(Inst::Branch { cond, zero, one })
    }

    fn wait(
        &mut self,
        unit: UnitId,
        to: &NameText,
        after: &Option<NameText>,
        named: &[NameText],
    ) -> Result<Inst, NoMemory>
        requires { unit.0 < unit_count self.old.module }
        ensures { IfOk result (λ i. InstPlacedAs self.old.module self.new.module unit i (wait_text to.now after.now named.now)) }
    {
        let to = self.label_id(unit, to)?;
        let after = self.maybe_id(unit, after)?;
        let signals = self.signals(unit, named)?;
        Ok(Inst::Wait { to, after, signals })
    }

    fn ret(&mut self, unit: UnitId, of: Option<Operand>) -> Result<Inst, NoMemory>
        requires { unit.0 < unit_count self.old.module }
        ensures { IfOk result (λ i. InstPlacedAs self.old.module self.new.module unit i (ret_text (maybe_operand_of of.entry))) }
    {
        match of {
            Some(of) => Ok(Inst::Ret(Some(self.operand(unit, of)?))),
            None => Ok(Inst::Ret(None)),
        }
    }
}
