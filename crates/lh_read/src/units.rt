//! Units begun, with their arguments.
ghost use Rattle.std.specs.Prelude.{◌≡◌, ◌<◌, map, None, Some, ⊤};
ghost use Rattle.lh_unit.specs.Arena.{IsOpen, OfOpen, unit_count};
ghost use Rattle.lh_unit.specs.Spells.{input_of};
ghost use Rattle.lh_read_pieces.specs.LexemeOf.{unit_name_of};
ghost use Rattle.lh_read_phrases.specs.SyntaxOf.{ports_of};
ghost use Rattle.lh_read.specs.Building.{arg_of, UnitBegunOrFault, AddsArgs, Heads};

use crate::faults::LineFault;
use crate::ids::Resolver;
use lh_read_phrases::syntax::{Param, Ports};
use lh_read_pieces::tokens::UnitNameText;
use lh_types::ty::Ty;
use lh_unit::inst::{UnitId, UnitKind};

impl Resolver {
    /// Begins a unit.
    fn begin(&mut self, name: &UnitNameText, kind: UnitKind) -> Result<UnitId, LineFault>
        ensures { UnitBegunOrFault result self.old.module self.new.module (unit_name_of name.now) kind }
    {
        let unit = self.unit_id(name)?;
        self.module.begin_unit(unit, kind)?;
        Ok(unit)
    }

    /// Adds arguments to the open unit.
    fn add_args(&mut self, unit: UnitId, params: &[Param], output: bool) -> Result<(), LineFault>
        requires within { unit.0 < unit_count self.old.module }
        requires opened { IsOpen self.old.module unit }
        requires begun { OfOpen self.old.module (λ _. ⊤) }
        ensures { AddsArgs result self.old.module self.new.module unit (map (arg_of output) params.now) }
    {
        for param in params {
            let value = self.value_id(unit, param.name())?;
            let ty = param.ty().copy()?;
            self.module.add_arg(unit, value, ty, output)?;
        }
        Ok(())
    }

    /// Adds the arguments of an entity or process to the open unit.
    fn add_ports(&mut self, unit: UnitId, ports: &Ports) -> Result<(), LineFault>
        requires within { unit.0 < unit_count self.old.module }
        requires opened { IsOpen self.old.module unit }
        requires begun { OfOpen self.old.module (λ _. ⊤) }
        ensures { AddsArgs result self.old.module self.new.module unit (ports_of ports.now) }
    {
        self.add_args(unit, ports.inputs.as_slice(), false)?;
        self.add_args(unit, ports.outputs.as_slice(), true)
    }

    /// Begins an entity or a process with its arguments.
    pub fn begin_with_ports(
        &mut self,
        kind: UnitKind,
        name: &UnitNameText,
        ports: &Ports,
    ) -> Result<UnitId, LineFault>
        ensures { Heads result self.old.module self.new.module (unit_name_of name.now) kind (ports_of ports.now) None }
    {
        let unit = self.begin(name, kind)?;
        self.add_ports(unit, ports)?;
        Ok(unit)
    }

    /// Begins a function with its arguments and its result.
    pub fn begin_function(
        &mut self,
        name: &UnitNameText,
        params: &[Param],
        result_type: Ty,
    ) -> Result<UnitId, LineFault>
        ensures { Heads result self.old.module self.new.module (unit_name_of name.now) UnitKind.Func (map input_of params.now) (Some result_type) }
    {
        let unit = self.begin(name, UnitKind::Func)?;
        self.add_args(unit, params, false)?;
        self.module.set_result(unit, result_type);
        Ok(unit)
    }
}
