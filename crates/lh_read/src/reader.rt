//! A module, built line by line.
ghost use Rattle.std.specs.Prelude.{◌≡◌, map, None, Some, OnOk, IfOk};
ghost use Rattle.lh_unit.specs.Spells.{input_of, header_item, declare_item, label_item, inst_item, close_item};
ghost use Rattle.lh_unit.specs.Reads.{start};
ghost use Rattle.lh_read_pieces.specs.LexemeOf.{unit_name_of};
ghost use Rattle.lh_read_phrases.specs.SyntaxOf.{ports_of, inst_of, item_of};
ghost use Rattle.lh_read.specs.Steps.{step};
ghost use Rattle.lh_read.specs.Building.{Steps};
ghost use Rattle.lh_read.specs.InOrder.{state_of, ReaderIsInOrder};

use crate::faults::LineFault;
use crate::ids::Resolver;
use crate::places::LinePlace;
use lh_read_phrases::syntax::{InstSyntax, LineSyntax, Param, Ports};
use lh_read_pieces::tokens::{NameText, UnitNameText};
use lh_types::memory::NoMemory;
use lh_types::ty::{Ty, TyList};
use lh_unit::inst::{Declare, UnitKind};
use std::alloc::Global;

/// How many types a list may have of which the room that no type needs is given back.
const FEW_TYPES: usize = 4096;

/// Gives back the room that no type of a short list needs. Of a long one it would take a copy, and room that was never touched takes no memory.
fn fit(types: &mut TyList)
    ensures { types.new ≡ types.old }
{
    if types.len() <= FEW_TYPES {
        types.shrink();
    }
}

/// The declaration of a function.
fn declare_function(
    alloc: Global,
    name: &UnitNameText,
    mut params: TyList,
    result_type: Ty,
) -> Result<Declare, NoMemory>
    ensures { IfOk result (λ d. d ≡ Declare.Func (unit_name_of name.now) params result_type) }
{
    let name = name.to_unit_name(alloc)?;
    fit(&mut params);
    Ok(Declare::Func {
        name,
        params,
        result: result_type,
    })
}

/// The declaration of an entity or process.
fn declare_unit(
    alloc: Global,
    name: &UnitNameText,
    mut inputs: TyList,
    mut outputs: TyList,
) -> Result<Declare, NoMemory>
    ensures { IfOk result (λ d. d ≡ Declare.Unit (unit_name_of name.now) inputs outputs) }
{
    let name = name.to_unit_name(alloc)?;
    fit(&mut inputs);
    fit(&mut outputs);
    Ok(Declare::Unit {
        name,
        inputs,
        outputs,
    })
}

/// A module as far as it is read, and the place in which the next line stands.
#[derive(Drop)]
pub struct Reader {
    pub resolver: Resolver,
    pub place: LinePlace,
}

impl Reader {
    /// A reader of a file, before its first line.
    pub fn new(alloc: Global) -> Reader
        ensures start { state_of result ≡ start }
        ensures order { ReaderIsInOrder result }
    {
        Reader {
            resolver: Resolver::new(alloc),
            place: LinePlace::Outside,
        }
    }

    /// Takes what the next line says. After a fault the reader is of no more use.
    pub fn take(&mut self, line: LineSyntax) -> Result<(), LineFault>
        requires { ReaderIsInOrder self.old }
        ensures step { Steps result (step (state_of self.old) (item_of line.entry)) (state_of self.new) }
        ensures order { OnOk result (ReaderIsInOrder self.new) }
    {
        match line {
            LineSyntax::Inst { result, inst } => self.take_inst(&result, inst),
            line => self.take_any(line),
        }
    }

    /// Takes a line of any kind. It stands apart, since most lines are instructions, and all kinds together take a large frame.
    #[inline(never)]
    fn take_any(&mut self, line: LineSyntax) -> Result<(), LineFault>
        requires { ReaderIsInOrder self.old }
        ensures step { Steps result (step (state_of self.old) (item_of line.entry)) (state_of self.new) }
        ensures order { OnOk result (ReaderIsInOrder self.new) }
    {
        match line {
            LineSyntax::Empty => Ok(()),
            LineSyntax::Func {
                name,
                params,
                result,
            } => self.take_function(&name, params.as_slice(), result),
            LineSyntax::Proc { name, ports } => { self.take_unit(UnitKind::Proc, &name, &ports) }
            LineSyntax::Entity { name, ports } => {
                self.take_unit(UnitKind::Entity, &name, &ports)
            }
            LineSyntax::DeclareFunc {
                name,
                params,
                result,
            } => self.take_declare(declare_function(self.resolver.alloc, &name, params, result)?),
            LineSyntax::DeclareUnit {
                name,
                inputs,
                outputs,
            } => self.take_declare(declare_unit(self.resolver.alloc, &name, inputs, outputs)?),
            LineSyntax::Label(name) => self.take_label(&name),
            LineSyntax::Inst { result, inst } => self.take_inst(&result, inst),
            LineSyntax::Close => self.take_close(),
        }
    }

    fn take_function(
        &mut self,
        name: &UnitNameText,
        params: &[Param],
        result_type: Ty,
    ) -> Result<(), LineFault>
        requires { ReaderIsInOrder self.old }
        ensures step { Steps result (step (state_of self.old) (header_item UnitKind.Func (unit_name_of name.now) (map input_of params.now) (Some result_type))) (state_of self.new) }
        ensures order { OnOk result (ReaderIsInOrder self.new) }
    {
        if self.place.is_inside() {
            return Err(LineFault::Syntax);
        }
        if name.is_assert() {
            return Err(LineFault::DuplicateName);
        }
        let unit = self.resolver.begin_function(name, params, result_type)?;
        self.place = LinePlace::behind_header(UnitKind::Func, unit);
        Ok(())
    }

    fn take_unit(
        &mut self,
        kind: UnitKind,
        name: &UnitNameText,
        ports: &Ports,
    ) -> Result<(), LineFault>
        requires { ReaderIsInOrder self.old }
        ensures step { Steps result (step (state_of self.old) (header_item kind (unit_name_of name.now) (ports_of ports.now) None)) (state_of self.new) }
        ensures order { OnOk result (ReaderIsInOrder self.new) }
    {
        if self.place.is_inside() {
            return Err(LineFault::Syntax);
        }
        if name.is_assert() {
            return Err(LineFault::DuplicateName);
        }
        let unit = self.resolver.begin_with_ports(kind, name, ports)?;
        self.place = LinePlace::behind_header(kind, unit);
        Ok(())
    }

    fn take_declare(&mut self, declare: Declare) -> Result<(), LineFault>
        requires { ReaderIsInOrder self.old }
        ensures step { Steps result (step (state_of self.old) (declare_item declare)) (state_of self.new) }
        ensures order { OnOk result (ReaderIsInOrder self.new) }
    {
        if self.place.is_inside() {
            return Err(LineFault::Syntax);
        }
        self.resolver.module.add_declare(declare)?;
        Ok(())
    }

    fn take_label(&mut self, name: &NameText) -> Result<(), LineFault>
        requires { ReaderIsInOrder self.old }
        ensures step { Steps result (step (state_of self.old) (label_item name.now)) (state_of self.new) }
        ensures order { OnOk result (ReaderIsInOrder self.new) }
    {
        let Some(unit) = self.place.label_unit() else {
            return Err(LineFault::Syntax);
        };
        let block = self.resolver.label_id(unit, name)?;
        self.resolver.module.add_block(unit, block)?;
        self.place = LinePlace::InEmptyBlock(unit);
        Ok(())
    }

    fn take_inst(&mut self, name: &Option<NameText>, inst: InstSyntax) -> Result<(), LineFault>
        requires { ReaderIsInOrder self.old }
        ensures step { Steps result (step (state_of self.old) (inst_item (record { result = name.now; inst = inst_of inst.entry }))) (state_of self.new) }
        ensures order { OnOk result (ReaderIsInOrder self.new) }
    {
        let Some(unit) = self.place.block_unit() else {
            drop(inst);
            return Err(LineFault::Syntax);
        };
        let Ok(value) = self.resolver.result_id(unit, name) else {
            drop(inst);
            return Err(LineFault::OutOfMemory);
        };
        let inst = self.resolver.instruction(unit, inst)?;
        self.resolver.module.add_inst(unit, value, inst)?;
        self.place = self.place.behind_inst();
        Ok(())
    }

    fn take_close(&mut self) -> Result<(), LineFault>
        requires { ReaderIsInOrder self.old }
        ensures step { Steps result (step (state_of self.old) close_item) (state_of self.new) }
        ensures order { OnOk result (ReaderIsInOrder self.new) }
    {
        if !self.place.may_close() {
            return Err(LineFault::Syntax);
        }
        self.resolver.module.shrink();
        self.place = LinePlace::Outside;
        Ok(())
    }
}
