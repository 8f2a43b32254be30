//! What a process keeps between its activations.
ghost use Rattle.std.specs.Prelude.{◌≡◌, Ok, IfOk};
ghost use Rattle.std.specs.Option.{option_copied};
ghost use Rattle.lh_exec.specs.States.{waited_on};

use lh_bits::mostly_one::MostlyOne;
use lh_eval::held::Slots;
use lh_time::Instant;
use lh_types::memory::NoMemory;
use lh_types::part::Range;
use lh_unit::inst::{BlockId, UnitId};
use lh_unit::module::Module;
use std::alloc::Global;
use std::boxed::Box;
use std::marker::Model;

/// What a process waits for: a change of one of these parts of the signals, or this instant.
#[derive(Drop)]
pub struct WaitOn {
    pub parts: MostlyOne<Range>,
    pub wake: Option<Instant>,
}

/// A process at the `wait` at the end of a block: the block to which that leads, every value that the process was given so
/// far, and what it waits for.
#[derive(Drop)]
pub(crate) struct Pause {
    pub block: BlockId,
    pub to: BlockId,
    pub slots: Slots,
    pub on: WaitOn,
}

/// A pause kept in memory of its own, so that all other states are small. Contracts see the pause.
#[derive(Drop)]
pub(crate) struct Parked {
    pause: Box<Pause>,
}

impl Model for Parked {
    ghost use Rattle.std.specs.Coded.{codes};
    ghost use Rattle.lh_types.specs.Values.{datum_coded};
    ghost use Rattle.lh_exec.specs.declared.state.Pause.{Pause};

    ghost Value = { Pause };

    ghost coded = { Prim.hlevel (codes, datum_coded) };

    ghost view = { λ p. p.pause.value };
}

impl Parked {
    /// The pause, kept.
    pub fn new(alloc: Global, pause: Pause) -> Result<Parked, NoMemory>
        ensures { IfOk result (λ p. p ≡ pause) }
    {
        let pause = Box::new(alloc, pause)?;
        Ok(Parked { pause })
    }

    /// The pause that is kept.
    pub fn pause(&self) -> &Pause
        ensures { result.now ≡ self.now }
    {
        &self.pause
    }
}

/// Where a process stands between its activations.
#[derive(Drop)]
pub(crate) enum Stand {
    New,
    Waits(Parked),
    Halted,
}

/// The state of a process between its activations: where it stands, and each value that it was ever given.
#[derive(Drop)]
pub struct ProcState {
    pub(crate) stand: Stand,
}

impl ProcState {
    /// The state of a process that has not run yet. This takes no memory.
    pub fn start(_alloc: Global, _module: &Module, _unit: UnitId) -> Result<ProcState, NoMemory>
        ensures { result ≡ Ok (record { stand = Stand.New }) }
    {
        Ok(ProcState { stand: Stand::New })
    }

    /// What the process waits for; `None` where it has not run yet or has halted.
    pub fn waits(&self) -> Option<&WaitOn>
        ensures { option_copied result ≡ waited_on self.now }
    {
        match &self.stand {
            Stand::Waits(parked) => Some(&parked.pause().on),
            _ => None,
        }
    }
}
