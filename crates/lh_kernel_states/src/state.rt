//! The state of an instance between frames.
ghost use Rattle.std.specs.Prelude.{◌≡◌, ◌<◌, ◌⊎◌, ℕ, Some, IfOk};
ghost use Rattle.lh_unit.specs.Arena.{unit_count, kind_at, unit_text_at};
ghost use Rattle.lh_unit.specs.World as world;
ghost use Rattle.lh_eval.specs.declared.instance.Instance as place;
ghost use Rattle.lh_design.specs.Texts.{instance_text};
ghost use Rattle.lh_kernel_states.specs.States.{StateIs, StateFits, parts_sensed, wake_kept};

use lh_exec::ProcState;
use lh_react::EntState;
use lh_time::Instant;
use lh_types::memory::NoMemory;
use lh_types::part::{Range, RangeList};
use lh_unit::inst::{UnitId, UnitKind};
use lh_unit::module::Module;
use std::alloc::Global;

/// The state of an instance: of a process or of an entity.
#[derive(Drop)]
pub enum InstState {
    Process(ProcState),
    Entity(EntState),
}

impl InstState {
    /// An instance of a process or an entity as it begins: a process has its arguments, an entity has not run.
    pub fn start(alloc: Global, m: &Module, unit: UnitId) -> Result<InstState, NoMemory>
        requires unit { unit.0 < unit_count m.now }
        requires kind { (kind_at m.now unit.0 ≡ Some UnitKind.Proc) ⊎ (kind_at m.now unit.0 ≡ Some UnitKind.Entity) }
        ensures stands { (i : place.Instance) → i.unit ≡ unit → IfOk result (λ s. StateIs m.now i s (world.start (unit_text_at m.now unit.0) (instance_text m.now i))) }
        ensures fits { (i : place.Instance) (width : ℕ) → i.unit ≡ unit → IfOk result (StateFits m.now width i) }
    {
        match m.kind(unit) {
            Some(UnitKind::Entity) => Ok(InstState::Entity(EntState::start(alloc, m, unit)?)),
            _ => Ok(InstState::Process(ProcState::start(alloc, m, unit)?)),
        }
    }

    /// The parts of the signals that the instance senses, where an entity probes these.
    pub fn senses<'a>(&'a self, probes: &'a RangeList) -> &'a [Range]
        ensures { result.now ≡ parts_sensed self.now probes.now }
    {
        match self {
            InstState::Entity(_) => probes.as_slice(),
            InstState::Process(process) => match process.waits() {
                Some(on) => on.parts.as_slice(),
                None => &[],
            },
        }
    }

    /// When the instance wakes by itself; `None` where it does not.
    pub fn wake(&self) -> Option<Instant>
        ensures { result ≡ wake_kept self.now }
    {
        match self {
            InstState::Entity(_) => None,
            InstState::Process(process) => process.waits()?.wake,
        }
    }
}
