//! The design as it is built, one instance after the other.
ghost use Rattle.std.specs.Prelude.{◌≡◌, ◌+◌, ◌≤◌, ◌<◌, ◌^◌, ◌++◌, ◌∷◌, [], length, map, replicate, false, None, IfOk, OnOk, slice_index_or};
ghost use Rattle.lh_types.specs.Types.{bit_count};
ghost use Rattle.lh_unit.specs.Design.{carried_type, signal_ranges, top_signals};
ghost use Rattle.lh_unit.specs.Arena.{unit_count, unit_text_at};
ghost use Rattle.lh_unit.specs.Within.{Each};
ghost use Rattle.lh_elab_plan.specs.Statics as statics;
ghost use Rattle.lh_elab_plan.specs.Statics.{no_range};
ghost use Rattle.lh_elab_plan.specs.Plans as plans;
ghost use Rattle.lh_elab_plan.specs.Plans.{signal_of, SignalFits};
ghost use Rattle.lh_elab.specs.Builds.{room_of, IsNew, IsStarted, AddsSignals, KeepsRest, KeepsBuilt, LowsFit, AreLow, ranges_by, kids, Visits};
ghost use Rattle.lh_elab_plan.specs.declared.plan.PlanChild.{PlanChild as Child};

use crate::measure::MAX_NESTING;
use lh_bits::bits::Bits;
use lh_design::{Design, Signal};
use lh_elab_plan::plan::{Low, Plan, PlanChild, PlanSignal};
use lh_elab_plan::statics::Base;
use lh_elab_plan::width::width_of;
use lh_eval::instance::Instance;
use lh_types::list::ListOf;
use lh_types::memory::NoMemory;
use lh_types::part::{Range, RangeList};
use lh_types::ty::{Ty, TyKind};
use lh_unit::inst::{Arg, UnitId};
use lh_unit::module::Module;
use lh_unit_names::name::Name;
use std::alloc::Global;

/// An instance that is still to be visited.
#[derive(Drop)]
pub struct Pending {
    pub unit: UnitId,
    pub parent: Option<u32>,
    /// How many more may nest in it.
    pub room: u32,
    pub args: RangeList,
}

/// What of a design is built, and the instances that are still to be visited, the next one last.
#[derive(Drop)]
pub struct Building {
    pub instances: Vec<Instance>,
    pub signals: Vec<Signal>,
    /// The bits of the signals so far stand below `lo`.
    pub init: Bits,
    pub lo: u32,
    pub pending: Vec<Pending>,
}

impl Building {
    /// Nothing is built, and the signals are to have this many bits.
    fn new(alloc: Global, bits: u32) -> Result<Building, NoMemory>
        ensures { IfOk result (IsNew bits) }
    {
        Ok(Building {
            instances: Vec::new(alloc),
            signals: Vec::new(alloc),
            init: Bits::zeros(alloc, bits)?,
            lo: 0,
            pending: Vec::new(alloc),
        })
    }

    /// A top unit is to be visited; its own arguments are the first signals, with all bits 0.
    pub fn started(alloc: Global, m: &Module, top: UnitId, bits: u32) -> Result<Building, NoMemory>
        requires unit { top.0 < unit_count m.now }
        requires room { room_of (top_signals (unit_text_at m.now top.0).args) ≤ bits }
        ensures { IfOk result (λ b. IsStarted m.now top bits b) }
    {
        let mut building = Building::new(alloc, bits)?;
        let args = building.put_args(alloc, m, top)?;
        building.put_pending(Pending {
            unit: top,
            parent: None,
            room: MAX_NESTING - 1,
            args,
        })?;
        Ok(building)
    }

    /// Adds the arguments of a top unit as signals.
    fn put_args(&mut self, alloc: Global, m: &Module, top: UnitId) -> Result<RangeList, NoMemory>
        requires unit { top.0 < unit_count m.now }
        requires room { self.old.lo + room_of (top_signals (unit_text_at m.now top.0).args) ≤ length self.old.init }
        ensures signals { OnOk result (AddsSignals self.old self.new 0 (top_signals (unit_text_at m.now top.0).args)) }
        ensures rest { KeepsRest self.old self.new }
        ensures ranges { IfOk result (λ rs. rs ≡ signal_ranges self.old.lo (top_signals (unit_text_at m.now top.0).args)) }
    {
        let mut ranges = ListOf::new(alloc);
        for arg in m.args(top) {
            let range = self.put_arg(alloc, m.value_name(top, arg.value), carried(&arg.ty))?;
            ranges.push(range)?;
        }
        Ok(ranges)
    }

    /// Adds an argument of a top unit as a signal of this type.
    fn put_arg(&mut self, alloc: Global, name: &Name, ty: &Ty) -> Result<Range, NoMemory>
        requires room { self.old.lo + bit_count ty.now ≤ length self.old.init }
        ensures signals { OnOk result (AddsSignals self.old self.new 0 (record { name = name.now; ty = ty.now; initial = replicate (bit_count ty.now) false } ∷ [])) }
        ensures rest { KeepsRest self.old self.new }
        ensures range { IfOk result (λ r. r ≡ record { lo = self.old.lo; len = bit_count ty.now }) }
    {
        let initial = Bits::zeros(alloc, width_of(ty))?;
        self.put_signal(0, name, ty, &initial)
    }

    /// Adds the signals of an instance.
    fn put_signals(
        &mut self,
        alloc: Global,
        instance: u32,
        signals: &[PlanSignal],
    ) -> Result<RangeList, NoMemory>
        requires fit { Each SignalFits signals.now }
        requires room { self.old.lo + room_of (map signal_of signals.now) ≤ length self.old.init }
        ensures signals { OnOk result (AddsSignals self.old self.new instance (map signal_of signals.now)) }
        ensures rest { KeepsRest self.old self.new }
        ensures ranges { IfOk result (λ rs. rs ≡ signal_ranges self.old.lo (map signal_of signals.now)) }
    {
        let mut ranges = ListOf::new(alloc);
        for signal in signals {
            let range = self.put_signal(instance, &signal.name, &signal.ty, &signal.initial)?;
            ranges.push(range)?;
        }
        Ok(ranges)
    }

    /// Adds a signal of an instance above those so far, and gives its bits.
    fn put_signal(
        &mut self,
        instance: u32,
        name: &Name,
        ty: &Ty,
        initial: &Bits,
    ) -> Result<Range, NoMemory>
        requires fits { length initial.now ≡ bit_count ty.now }
        requires room { self.old.lo + length initial.now ≤ length self.old.init }
        ensures signals { OnOk result (AddsSignals self.old self.new instance (record { name = name.now; ty = ty.now; initial = initial.now } ∷ [])) }
        ensures rest { KeepsRest self.old self.new }
        ensures range { IfOk result (λ r. r ≡ record { lo = self.old.lo; len = bit_count ty.now }) }
    {
        few_bits(&self.init);
        let range = Range {
            lo: self.lo,
            len: initial.len(),
        };
        let signal = Signal {
            instance,
            name: name.copy()?,
            ty: ty.copy()?,
            lo: self.lo,
        };
        push_signal(&mut self.signals, signal)?;
        self.init.put_part(self.lo, initial, 0, initial.len());
        self.lo += initial.len();
        Ok(range)
    }

    /// Visits an instance of a unit with this plan: it takes the next number, its signals come above those so far, and the
    /// instances in it are visited next, before all others.
    pub fn visit(
        &mut self,
        alloc: Global,
        m: &Module,
        plan: &Plan,
        next: Pending,
    ) -> Result<(), NoMemory>
        requires few { length self.old.instances.items < 65536 }
        requires fit { Each SignalFits plan.now.signals.items }
        requires room { self.old.lo + room_of (map signal_of plan.now.signals.items) ≤ length self.old.init }
        requires within { Each (λ (c : Child). c.unit.0 < unit_count m.now) plan.now.children.items }
        requires lows { Each (LowsFit m.now next.args (signal_ranges self.old.lo (map signal_of plan.now.signals.items))) plan.now.children.items }
        ensures { OnOk result (Visits m.now self.old self.new next plan.now) }
    {
        let number = self.instances.len() as u32;
        let sigs = self.put_signals(alloc, number, plan.signals.as_slice())?;
        if next.room > 0 {
            let (args, sigs) = (next.args.as_slice(), sigs.as_slice());
            self.put_children(
                alloc,
                m,
                plan.children.as_slice(),
                number,
                next.room - 1,
                args,
                sigs,
            )?;
        }
        self.put_instance(Instance {
            unit: next.unit,
            parent: next.parent,
            args: next.args,
            sigs,
        })
    }

    /// The instances in an instance are to be visited next, the first of them first.
    fn put_children(
        &mut self,
        alloc: Global,
        m: &Module,
        children: &[PlanChild],
        parent: u32,
        room: u32,
        args: &[Range],
        sigs: &[Range],
    ) -> Result<(), NoMemory>
        requires within { Each (λ (c : Child). c.unit.0 < unit_count m.now) children.now }
        requires lows { Each (LowsFit m.now args.now sigs.now) children.now }
        ensures pending { OnOk result (self.new.pending.items ≡ self.old.pending.items ++ kids m.now parent room args.now sigs.now children.now) }
        ensures built { KeepsBuilt self.old self.new }
    {
        for i in 0..children.len() {
            let child = &children[children.len() - 1 - i];
            let args = child_args(alloc, m.args(child.unit), child.lows.as_slice(), args, sigs)?;
            self.put_pending(Pending {
                unit: child.unit,
                parent: Some(parent),
                room,
                args,
            })?;
        }
        Ok(())
    }

    fn put_pending(&mut self, next: Pending) -> Result<(), NoMemory>
        ensures pending { OnOk result (self.new.pending.items ≡ self.old.pending.items ++ next ∷ []) }
        ensures built { KeepsBuilt self.old self.new }
    {
        self.pending.push(next)?;
        Ok(())
    }

    fn put_instance(&mut self, instance: Instance) -> Result<(), NoMemory>
        ensures instances { OnOk result (self.new.instances.items ≡ self.old.instances.items ++ instance ∷ []) }
        ensures signals { self.new.signals.items ≡ self.old.signals.items }
        ensures bits { (self.new.init ≡ self.old.init) × (self.new.lo ≡ self.old.lo) }
        ensures pending { self.new.pending.items ≡ self.old.pending.items }
    {
        self.instances.push(instance)?;
        Ok(())
    }

    /// The design, where all is built.
    pub fn finish(self) -> Design
        ensures instances { result.instances.items ≡ self.instances.items }
        ensures signals { result.signals.items ≡ self.signals.items }
        ensures init { result.init ≡ self.init }
    {
        let Building {
            instances,
            signals,
            init,
            lo: _,
            pending: _,
        } = self;
        Design::new(instances, signals, init)
    }
}

/// The type that a signal of this type carries.
fn carried(ty: &Ty) -> &Ty
    ensures { result.now ≡ carried_type ty.now }
{
    match ty.kind() {
        TyKind::Signal(of) => of,
        _ => ty,
    }
}

/// There are fewer than 2 ^ 32 bits.
pub fn few_bits(bits: &Bits)
    ensures { length bits.now < 2 ^ 32 }
{
    let _len = bits.len();
}

fn push_signal(signals: &mut Vec<Signal>, signal: Signal) -> Result<(), NoMemory>
    ensures { OnOk result (signals.new.items ≡ signals.old.items ++ signal ∷ []) }
{
    signals.push(signal)?;
    Ok(())
}

/// The bits of a unit's arguments: each begins at its operand's lowest bit, and has the width of its type.
fn child_args(
    alloc: Global,
    params: &[Arg],
    lows: &[Option<Low>],
    args: &[Range],
    sigs: &[Range],
) -> Result<RangeList, NoMemory>
    requires { AreLow (length params.now) lows.now args.now sigs.now }
    ensures { IfOk result (λ rs. rs ≡ ranges_by params.now (map (plans.low_at args.now sigs.now) lows.now)) }
{
    let mut ranges = ListOf::new(alloc);
    for (i, param) in params.iter().enumerate() {
        let range = Range {
            lo: low_at(lows, i, args, sigs),
            len: width_of(&param.ty),
        };
        ranges.push(range)?;
    }
    Ok(ranges)
}

/// The lowest bit of the part of this number in an instance whose arguments and signals have these bits; 0 where there is none.
fn low_at(lows: &[Option<Low>], i: usize, args: &[Range], sigs: &[Range]) -> u32
    requires { plans.low_at args.now sigs.now (slice_index_or lows.now i None) < 2 ^ 32 }
    ensures { result ≡ plans.low_at args.now sigs.now (slice_index_or lows.now i None) }
{
    if i < lows.len() {
        low_of(lows[i], args, sigs)
    } else {
        0
    }
}

/// The lowest bit of a part in an instance whose arguments and signals have these bits.
fn low_of(low: Option<Low>, args: &[Range], sigs: &[Range]) -> u32
    requires { plans.low_at args.now sigs.now low < 2 ^ 32 }
    ensures { result ≡ plans.low_at args.now sigs.now low }
{
    match low {
        Some(low) => base_lo(low.base, args, sigs) + low.offset,
        None => 0,
    }
}

/// The lowest bit of an argument or a `sig` of an instance.
pub fn base_lo(base: Base, args: &[Range], sigs: &[Range]) -> u32
    ensures { result ≡ statics.base_lo args.now sigs.now base }
{
    match base {
        Base::Arg(k) => lo_at(args, k),
        Base::Sig(k) => lo_at(sigs, k),
    }
}

/// The lowest bit of the range of this number; 0 where there is none.
fn lo_at(ranges: &[Range], k: usize) -> u32
    ensures { result ≡ (slice_index_or ranges.now k no_range).lo }
{
    if k < ranges.len() { ranges[k].lo } else { 0 }
}
